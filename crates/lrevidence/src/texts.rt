//! What texts show at conflicts: the input of an example with the rest by which a candidate goes on, or what a search finds.

ghost use Rattle.std.specs.Prelude.{◌≡◌, ◌++◌, IfOk, IfSome};
ghost use Rattle.lrevidence.specs.Ambiguities.{HasTwoTrees, PartsAt};
ghost use Rattle.lrentries.specs.Losses.{IsFoundLoss, IsDoomedIn};

use crate::searches::Searches;
use lrcharts::accepting_moves;
use lrconflicts::{Move, Written, other_move};
use lrentries::ambiguity_by;
use lrreasons::{Conflict, Outlook};
use lrshown::{Ambiguity, Loss};
use std::alloc::{AllocError, Global};

/// How many pairs of stacks a search for a sentence that the parser rejects looks at, at a conflict without one that has two trees.
const PAIRS: usize = 200;

/// How many sentences that the parser rejects are tried for one that no other conflict has a part in.
const TEXTS: usize = 8;

/// What texts show at a conflict.
#[derive(Drop)]
pub(crate) struct Shown {
    /// One with two trees, which part there.
    pub(crate) ambiguity: Option<Ambiguity>,
    /// One that the parser rejects, since it goes wrong there.
    pub(crate) loss: Option<Loss>,
}

impl Shown {
    /// Nothing.
    pub(crate) const NOTHING: Shown = Shown {
        ambiguity: None,
        loss: None,
    };

    /// Whether it is something.
    fn is_something(&self) -> bool {
        self.ambiguity.is_some() || self.loss.is_some()
    }
}

/// How many steps a run takes at the most on a text whose tree has so many moves.
fn steps_for(moves: usize) -> usize {
    moves.saturating_mul(10).saturating_add(1_000)
}

/// The input and the rest behind it.
fn joined(
    alloc: Global,
    input: &Written<u32>,
    rest: &Written<u32>,
) -> Result<Written<u32>, AllocError>
    ensures tokens { IfOk result (λ w.
        w.tokens.items ≡ input.now.tokens.items ++ rest.now.tokens.items) }
    ensures moves { IfOk result (λ w.
        w.moves.items ≡ input.now.moves.items ++ rest.now.moves.items) }
{
    let mut tokens = Vec::new(alloc);
    tokens.extend_from_slice(input.tokens.as_slice())?;
    tokens.extend_from_slice(rest.tokens.as_slice())?;
    let mut moves = Vec::new(alloc);
    moves.extend_from_slice(input.moves.as_slice())?;
    moves.extend_from_slice(rest.moves.as_slice())?;
    Ok(Written { tokens, moves })
}

/// The moves to two trees: first those that reduce where they part, or, if both do, those that do so by the lesser production.
fn in_order<'m>(
    one: &'m [Move<u32>],
    other: &'m [Move<u32>],
) -> (&'m [Move<u32>], &'m [Move<u32>]) {
    for pair in one.iter().zip(other) {
        match pair {
            (Move::Reduce(a), Move::Reduce(b)) if a == b => {}
            (Move::Shift, Move::Shift) => {}
            (Move::Reduce(a), Move::Reduce(b)) if a < b => return (one, other),
            (Move::Reduce(_), Move::Shift) => return (one, other),
            _ => return (other, one),
        }
    }
    (one, other)
}

/// What a text and the moves of its tree show at the conflict. Where the machine accepts it, its own moves lead to a tree of it too;
/// or else it may be lost.
fn shown_by(
    searches: &Searches<'_>,
    conflict: Conflict<u32>,
    text: &Written<u32>,
) -> Result<Shown, AllocError>
    ensures trees { IfOk result (λ s.
        IfSome s.ambiguity (HasTwoTrees searches.now.reasons.grammar)) }
    ensures parts { IfOk result (λ s. IfSome s.ambiguity (PartsAt searches.now.reasons.grammar
        searches.now.reasons.graph conflict.state.0 conflict.token.0)) }
    ensures lost { IfOk result (λ s. IfSome s.loss
        (IsFoundLoss searches.now.losses conflict.state.0 conflict.token.0)) }
{
    let (alloc, found) = (searches.allocator(), searches.found);
    let (tokens, moves) = (text.tokens.as_slice(), text.moves.as_slice());
    let steps = steps_for(moves.len());
    let Some(own) = accepting_moves(alloc, &found.grm, &found.table, tokens, steps)? else {
        return Ok(Shown {
            ambiguity: None,
            loss: searches.losses.loss_by(conflict, text, steps)?,
        });
    };
    let both = in_order(own.as_slice(), moves);
    Ok(Shown {
        ambiguity: ambiguity_by(alloc, &searches.reasons, conflict, tokens, both)?,
        loss: None,
    })
}

/// What the input shows at the conflict with the rest behind it by which a candidate goes on, where both are known.
fn shown_behind(
    searches: &Searches<'_>,
    conflict: Conflict<u32>,
    input: &Written<u32>,
    outlook: Option<&Outlook>,
) -> Result<Shown, AllocError>
    ensures trees { IfOk result (λ s.
        IfSome s.ambiguity (HasTwoTrees searches.now.reasons.grammar)) }
    ensures parts { IfOk result (λ s. IfSome s.ambiguity (PartsAt searches.now.reasons.grammar
        searches.now.reasons.graph conflict.state.0 conflict.token.0)) }
    ensures lost { IfOk result (λ s. IfSome s.loss
        (IsFoundLoss searches.now.losses conflict.state.0 conflict.token.0)) }
{
    let Some(
        Outlook {
            rest: Some(rest),
            ..
        },
    ) = outlook
    else {
        return Ok(Shown::NOTHING);
    };
    let text = joined(searches.allocator(), input, rest)?;
    shown_by(searches, conflict, &text)
}

/// What the example of a conflict shows: the text of each candidate is tried, since the parser goes on by one of them only.
fn shown_by_example(
    searches: &Searches<'_>,
    conflict: Conflict<u32>,
    example: &lrreasons::Example,
) -> Result<Shown, AllocError>
    ensures trees { IfOk result (λ s.
        IfSome s.ambiguity (HasTwoTrees searches.now.reasons.grammar)) }
    ensures parts { IfOk result (λ s. IfSome s.ambiguity (PartsAt searches.now.reasons.grammar
        searches.now.reasons.graph conflict.state.0 conflict.token.0)) }
    ensures lost { IfOk result (λ s. IfSome s.loss
        (IsFoundLoss searches.now.losses conflict.state.0 conflict.token.0)) }
{
    let Some(input) = &example.input else {
        return Ok(Shown::NOTHING);
    };
    let first = shown_behind(searches, conflict, input, example.one.as_ref())?;
    let second = shown_behind(searches, conflict, input, example.other.as_ref())?;
    Ok(Shown {
        ambiguity: first.ambiguity.or(second.ambiguity),
        loss: first.loss.or(second.loss),
    })
}

/// What a text shows that a search finds for the candidate, over so many pairs of stacks at the most.
fn shown_by_search(
    searches: &Searches<'_>,
    conflict: Conflict<u32>,
    action: Move<u32>,
    pairs: usize,
) -> Result<Shown, AllocError>
    ensures trees { IfOk result (λ s.
        IfSome s.ambiguity (HasTwoTrees searches.now.reasons.grammar)) }
    ensures parts { IfOk result (λ s. IfSome s.ambiguity (PartsAt searches.now.reasons.grammar
        searches.now.reasons.graph conflict.state.0 conflict.token.0)) }
    ensures lost { IfOk result (λ s. IfSome s.loss
        (IsFoundLoss searches.now.losses conflict.state.0 conflict.token.0)) }
{
    match searches.losses.text_at(conflict, action, 0, pairs)? {
        Some(text) => shown_by(searches, conflict, &text),
        None => Ok(Shown::NOTHING),
    }
}

/// A sentence that the parser rejects, and which is doomed at the conflict, where a search finds such a one for the candidate among the
/// first of those that the parser rejects.
fn doomed_by_search(
    searches: &Searches<'_>,
    conflict: Conflict<u32>,
    action: Move<u32>,
    pairs: usize,
) -> Result<Option<Loss>, AllocError>
    ensures found { IfOk result (λ o. IfSome o
        (IsFoundLoss searches.now.losses conflict.state.0 conflict.token.0)) }
    ensures doomed { IfOk result (λ o. IfSome o (IsDoomedIn searches.now.losses)) }
{
    for passed_over in 0..TEXTS {
        let found = searches
            .losses
            .text_at(conflict, action, passed_over, pairs)?;
        let Some(text) = found else {
            return Ok(None);
        };
        let Shown { loss, .. } = shown_by(searches, conflict, &text)?;
        let told = searches.losses.told_of(loss, true)?;
        if told.is_some() {
            return Ok(told);
        }
    }
    Ok(None)
}

/// Such a sentence for either of the candidates of the conflict.
pub(crate) fn loss_found(
    searches: &Searches<'_>,
    conflict: Conflict<u32>,
    pairs: usize,
) -> Result<Option<Loss>, AllocError>
    ensures found { IfOk result (λ o. IfSome o
        (IsFoundLoss searches.now.losses conflict.state.0 conflict.token.0)) }
    ensures doomed { IfOk result (λ o. IfSome o (IsDoomedIn searches.now.losses)) }
{
    let (reduced, other) = (Move::Reduce(conflict.production), other_move(&conflict));
    let loss = doomed_by_search(searches, conflict, reduced, pairs)?;
    if loss.is_some() {
        return Ok(loss);
    }
    let loss = doomed_by_search(searches, conflict, other, pairs)?;
    Ok(loss)
}

/// What is shown at the conflict: by its example, or else by what a search finds for either of its candidates.
pub(crate) fn shown_at(
    searches: &Searches<'_>,
    conflict: Conflict<u32>,
    example: &lrreasons::Example,
) -> Result<Shown, AllocError>
    ensures trees { IfOk result (λ s.
        IfSome s.ambiguity (HasTwoTrees searches.now.reasons.grammar)) }
    ensures parts { IfOk result (λ s. IfSome s.ambiguity (PartsAt searches.now.reasons.grammar
        searches.now.reasons.graph conflict.state.0 conflict.token.0)) }
    ensures lost { IfOk result (λ s. IfSome s.loss
        (IsFoundLoss searches.now.losses conflict.state.0 conflict.token.0)) }
{
    let shown = shown_by_example(searches, conflict, example)?;
    if shown.is_something() {
        return Ok(shown);
    }
    let (reduced, other) = (Move::Reduce(conflict.production), other_move(&conflict));
    let shown = shown_by_search(searches, conflict, reduced, PAIRS)?;
    if shown.is_something() {
        return Ok(shown);
    }
    shown_by_search(searches, conflict, other, PAIRS)
}
