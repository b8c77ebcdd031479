//! The texts of reasons in a row, where those that are alike are told once.

ghost use Rattle.std.specs.Prelude.{◌≡◌, ◌++◌, [], map, IfOk, OnOk};
ghost use Rattle.std.specs.List.{list_any, filter};
ghost use Rattle.std.specs.String.{string_bytes};
ghost use Rattle.lrreasons.specs.Texts as told;
ghost use Rattle.lrreasons.specs.StoredTexts as stored;

use crate::lines::push_line;
use crate::reasons::Reason;
use crate::texts::{INDENT, is_same_move, push_reason};
use crate::words::symbol_word;
use lrconflicts::other_move;
use lrgrammar::grammar::YaccGrammar;
use lrgrammar::idx::Symbol;
use std::alloc::AllocError;

/// Whether reasons are told together: they are of one state and the same candidates, ambiguous or not.
fn are_alike(one: &Reason, other: &Reason) -> bool
    ensures { result ≡ stored.are_alike one.now other.now }
{
    usize::from(one.conflict.state) == usize::from(other.conflict.state)
        && usize::from(one.conflict.production) == usize::from(other.conflict.production)
        && is_same_move(other_move(&one.conflict), other_move(&other.conflict))
        && one.ambiguity.is_some() == other.ambiguity.is_some()
}

/// Whether one of the reasons is told together with this one.
fn is_told(reasons: &[Reason], reason: &Reason) -> bool
    ensures { result ≡ list_any (stored.are_alike reason.now) reasons.now }
{
    for other in reasons {
        if are_alike(reason, other) {
            return true;
        }
    }
    false
}

/// Adds the tokens of those reasons that are told together with this one.
fn push_likewise(
    text: &mut String,
    grm: &YaccGrammar<u32>,
    reason: &Reason,
    reasons: &[Reason],
) -> Result<(), AllocError>
    ensures { OnOk result (string_bytes text.new ≡ string_bytes text.old
        ++ stored.likewise_text grm.now reason.now reasons.now) }
{
    let mut words = Vec::new(grm.allocator());
    for other in reasons {
        if are_alike(reason, other) {
            words.push(symbol_word(grm, Symbol::Token(other.conflict.token))?)?;
        }
    }
    if words.is_empty() {
        return Ok(());
    }
    push_line(text, INDENT, "likewise on", &words)
}

/// Adds the texts of the reasons; each that is alike one before it is told there.
pub(crate) fn push_reasons(
    text: &mut String,
    grm: &YaccGrammar<u32>,
    reasons: &[Reason],
) -> Result<(), AllocError>
    ensures { OnOk result (string_bytes text.new ≡ string_bytes text.old
        ++ stored.reasons_text grm.now [] reasons.now) }
{
    for (place, reason) in reasons.iter().enumerate() {
        let (before, _) = reasons.split_at(place);
        if !is_told(before, reason) {
            let (_, behind) = reasons.split_at(place + 1);
            push_reason(text, grm, reason)?;
            push_likewise(text, grm, reason, behind)?;
        }
    }
    Ok(())
}
