//! A checker of sentences.

ghost use Rattle.std.specs.Prelude.{◌+◌, ◌≤◌, length, IsTrue, IfOk};
ghost use Rattle.lrspec.specs.grammars.Trees.{IsSentence, nodes};
ghost use Rattle.lrspec.specs.grammars.Candidates.{IsUncontested};
ghost use Rattle.lrspec.specs.tables.LrTables.{HasNoPrecedences};
ghost use Rattle.lrspec.specs.tables.Recognition.{AreNamed, IsUnambiguous};
ghost use Rattle.lrtable.specs.RunAnswers.{text_of};

use lrgrammar::grammar::YaccGrammar;
use lrgrammar::idx::{IndexStorage, TIdx};
use lrtable::machine::{Verdict, run};
use lrtable::{BuildError, Minimiser, state_table};
use std::alloc::Global;

/// Whether the text is seen within so many steps to be a sentence of a grammar that has neither precedences nor
/// conflicts. Then the grammar is unambiguous, and the text has one tree.
pub fn is_sentence<T: IndexStorage>(
    alloc: Global,
    grm: &YaccGrammar<T>,
    text: &[TIdx<T>],
    steps: usize,
) -> Result<bool, BuildError<T>>
    requires { AreNamed grm.now (text_of T.number text.now) }
    ensures unambiguous { IfOk result (λ b. IsTrue b → IsUnambiguous grm.now) }
    ensures sentence { IfOk result (λ b.
        IsTrue b → IsSentence grm.now (text_of T.number text.now)) }
    ensures seen { let w = text_of T.number text.now in
        IfOk result (λ b. HasNoPrecedences grm.now → IsUncontested grm.now →
        (s : IsSentence grm.now w) → length w + nodes s.tree + 1 ≤ steps → IsTrue b) }
{
    let (table, _counts) = state_table(alloc, grm, Minimiser::Pager)?;
    if grm.has_precedences() || table.conflicts().is_some() {
        return Ok(false);
    }
    let answer = run(alloc, grm, &table, text, steps)?;
    Ok(answer.verdict == Verdict::Accepted)
}
