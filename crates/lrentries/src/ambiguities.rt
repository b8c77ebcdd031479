//! Sentences with two trees.

ghost use Rattle.std.specs.Prelude.{◌≡◌, map, IfOk, IfSome};
ghost use Rattle.lrtable.specs.RunAnswers.{text_of};
ghost use Rattle.lrconflicts.specs.StoredMoves.{moves_stored};
ghost use Rattle.lrambiguity.specs.StoredAmbiguities.{IsAmbiguity};
ghost use Rattle.lrshown.specs.Steps.{moves_by};
ghost use Rattle.lrshown.specs.Ambiguities.{HasTwoTrees};
ghost use Rattle.lrgrammar.specs.Symbols.{number_of};
ghost use Rattle.lrentries.specs.Ambiguities.{PartsAt};

use crate::numbers::numbers_of;
use lrgrammar::idx::TIdx;
use lrreasons::{Conflict, Form, Move, ProvedAmbiguity, Reasons};
use lrshown::{Ambiguity, TwoTrees, steps_of};
use std::alloc::{AllocError, Global};

/// Both trees of a form.
fn trees_of_form(alloc: Global, form: &Form) -> Result<TwoTrees, AllocError>
    ensures before { IfOk result (λ t.
        moves_by t.before.items ≡ moves_stored number_of form.now.ways.before.items) }
    ensures one { IfOk result (λ t.
        moves_by t.one.items ≡ moves_stored number_of form.now.ways.first.items) }
    ensures other { IfOk result (λ t.
        moves_by t.other.items ≡ moves_stored number_of form.now.ways.second.items) }
{
    Ok(TwoTrees {
        before: steps_of(alloc, form.ways.before.as_slice())?,
        one: steps_of(alloc, form.ways.first.as_slice())?,
        other: steps_of(alloc, form.ways.second.as_slice())?,
    })
}

/// Both trees of a text.
fn trees_of_sentence(
    alloc: Global,
    ambiguity: &lrambiguity::Ambiguity<u32>,
) -> Result<TwoTrees, AllocError>
    ensures before { IfOk result (λ t.
        moves_by t.before.items ≡ moves_stored number_of ambiguity.now.before.items) }
    ensures one { IfOk result (λ t.
        moves_by t.one.items ≡ moves_stored number_of ambiguity.now.one.items) }
    ensures other { IfOk result (λ t.
        moves_by t.other.items ≡ moves_stored number_of ambiguity.now.other.items) }
{
    Ok(TwoTrees {
        before: steps_of(alloc, ambiguity.before.as_slice())?,
        one: steps_of(alloc, ambiguity.one.as_slice())?,
        other: steps_of(alloc, ambiguity.other.as_slice())?,
    })
}

/// An ambiguity by the numbers of the file.
fn numbered(alloc: Global, proved: &ProvedAmbiguity) -> Result<Ambiguity, AllocError>
    ensures tokens { IfOk result (λ a.
        a.tokens.items ≡ text_of number_of proved.now.ambiguity.text.items) }
    ensures before { IfOk result (λ a.
        moves_by a.trees.before.items ≡ moves_stored number_of proved.now.ambiguity.before.items) }
    ensures one { IfOk result (λ a.
        moves_by a.trees.one.items ≡ moves_stored number_of proved.now.ambiguity.one.items) }
    ensures other { IfOk result (λ a.
        moves_by a.trees.other.items ≡ moves_stored number_of proved.now.ambiguity.other.items) }
    ensures form_before { IfOk result (λ a.
        moves_by a.form.before.items ≡ moves_stored number_of proved.now.form.ways.before.items) }
    ensures form_one { IfOk result (λ a.
        moves_by a.form.one.items ≡ moves_stored number_of proved.now.form.ways.first.items) }
    ensures form_other { IfOk result (λ a.
        moves_by a.form.other.items ≡ moves_stored number_of proved.now.form.ways.second.items) }
{
    Ok(Ambiguity {
        tokens: numbers_of(alloc, proved.ambiguity.text.as_slice())?,
        trees: trees_of_sentence(alloc, &proved.ambiguity)?,
        form: trees_of_form(alloc, &proved.form)?,
    })
}

/// A sentence with two trees, which part at the conflict, where one is found in so many steps.
pub fn ambiguity_at(
    alloc: Global,
    reasons: &Reasons<'_>,
    conflict: Conflict<u32>,
    steps: usize,
) -> Result<Option<Ambiguity>, AllocError>
    ensures trees { IfOk result (λ o. IfSome o (HasTwoTrees reasons.now.grammar)) }
    ensures parts { IfOk result (λ o. IfSome o (PartsAt reasons.now.grammar reasons.now.graph
        conflict.state.0 conflict.token.0)) }
{
    match reasons.ambiguity(conflict, steps)? {
        Some(proved) => {
            let ambiguity = numbered(alloc, &proved);
            proved.take_apart();
            Ok(Some(ambiguity?))
        }
        None => Ok(None),
    }
}

/// A text with two trees, by the moves to both, if these part at the conflict.
pub fn ambiguity_by(
    alloc: Global,
    reasons: &Reasons<'_>,
    conflict: Conflict<u32>,
    text: &[TIdx<u32>],
    moves: (&[Move<u32>], &[Move<u32>]),
) -> Result<Option<Ambiguity>, AllocError>
    ensures trees { IfOk result (λ o. IfSome o (HasTwoTrees reasons.now.grammar)) }
    ensures parts { IfOk result (λ o. IfSome o (PartsAt reasons.now.grammar reasons.now.graph
        conflict.state.0 conflict.token.0)) }
{
    let (one, other) = moves;
    match reasons.ambiguity_by(conflict, text, one, other)? {
        Some(proved) => {
            let ambiguity = numbered(alloc, &proved);
            proved.take_apart();
            Ok(Some(ambiguity?))
        }
        None => Ok(None),
    }
}
