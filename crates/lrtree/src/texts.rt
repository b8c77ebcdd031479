//! The texts of trees.

ghost use Rattle.std.specs.Prelude.{◌≡◌, ◌<◌, ◌++◌, codes, OnOk};
ghost use Rattle.std.specs.String.{string_bytes};
ghost use Rattle.lrspec.specs.grammars.Grammar.{end_token};
ghost use Rattle.lrspec.specs.texts.PrintedTexts.{token_text};
ghost use Rattle.lrtree.specs.Visits.{IsVisitOf, gap_unless, visit_text};
ghost use Rattle.lrtree.specs.StoredVisits.{visit_of};

use crate::visits::Visit;
use lrgrammar::grammar::YaccGrammar;
use lrgrammar::idx::{IndexStorage, TIdx};
use lrtable::machine::production_label;
use std::alloc::AllocError;

/// Adds what a visit adds to the text of a tree, which is the first of its node or not.
pub(crate) fn push_visit<T: IndexStorage>(
    text: &mut String,
    grm: &YaccGrammar<T>,
    visit: Visit<T>,
    is_first: bool,
) -> Result<(), AllocError>
    requires { IsVisitOf grm.now (visit_of T.number visit) }
    ensures { OnOk result (string_bytes text.new
        ≡ string_bytes text.old ++ visit_text grm.now is_first (visit_of T.number visit)) }
{
    match visit {
        Visit::Token(tidx) => {
            push_gap(text, is_first)?;
            push_token(text, grm, tidx)
        }
        Visit::Enter(pidx) => {
            let label = production_label(grm, pidx)?;
            push_enter(text, label.as_str(), is_first)
        }
        Visit::Leave(_) => text.push(')'),
    }
}

/// Adds a space, unless what follows is the first of its node.
fn push_gap(text: &mut String, is_first: bool) -> Result<(), AllocError>
    ensures { OnOk result (string_bytes text.new ≡ string_bytes text.old ++ gap_unless is_first) }
{
    if is_first { Ok(()) } else { text.push(' ') }
}

/// Adds the beginning of a node of this label.
fn push_enter(text: &mut String, label: &str, is_first: bool) -> Result<(), AllocError>
    ensures { OnOk result (string_bytes text.new
        ≡ string_bytes text.old ++ (gap_unless is_first ++ label.now ++ codes "(")) }
{
    push_gap(text, is_first)?;
    text.push_str(label)?;
    text.push('(')
}

/// Adds a token's name between quotes.
pub(crate) fn push_token<T: IndexStorage>(
    text: &mut String,
    grm: &YaccGrammar<T>,
    tidx: TIdx<T>,
) -> Result<(), AllocError>
    requires { T.number tidx.0 < end_token grm.now }
    ensures { OnOk result (string_bytes text.new
        ≡ string_bytes text.old ++ token_text grm.now (T.number tidx.0)) }
{
    text.push('\'')?;
    text.push_str(grm.token_name(tidx).unwrap())?;
    text.push('\'')
}
