//! An explainer of conflicts.

ghost use Rattle.std.specs.Prelude.{Contains, IsSome, IsTrue, IfOk};
ghost use Rattle.lrspec.specs.tables.Recognition.{IsUnambiguous};

use lrgrammar::grammar::YaccGrammar;
use lrreasons::{Examples, Reason, Reasons, take_apart};
use lrtable::{BuildError, Minimiser, from_yacc};
use std::alloc::Global;

/// How many steps a search makes at most for each two candidates.
const STEPS: usize = 10_000;

/// Whether one of the reasons is a text with two trees.
fn is_any_ambiguous(reasons: &[Reason]) -> bool
    ensures { IsTrue result → (r : Reason) × Contains reasons.now r × IsSome r.ambiguity }
{
    for reason in reasons {
        if reason.ambiguity.is_some() {
            return true;
        }
    }
    false
}

/// Why the grammar has conflicts, as text; and whether a text with two trees was found, so that it is ambiguous.
pub fn explain(alloc: Global, grm: &YaccGrammar<u32>) -> Result<(String, bool), BuildError<u32>>
    ensures ambiguous { IfOk result (λ e. IsTrue e.1 → ¬ (IsUnambiguous grm.now)) }
{
    let (graph, table) = from_yacc(alloc, grm, Minimiser::Pager)?;
    let Some(conflicts) = table.conflicts() else {
        return Ok((String::new(alloc), false));
    };
    let reasons = Reasons::new(grm, &graph)?;
    let told = reasons.reasons(conflicts, STEPS, Examples::WhereNotAmbiguous)?;
    let is_ambiguous = is_any_ambiguous(told.as_slice());
    let text = reasons.pp(told.as_slice());
    take_apart(told);
    Ok((text?, is_ambiguous))
}
