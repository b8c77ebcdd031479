//! What of a sentence stands in the place of each symbol of a form. Nothing is proved of it: `parts` checks it.

use lrambiguity::{Move, Written};
use lrforms::{Form, Sentence};
use lrgrammar::grammar::YaccGrammar;
use lrgrammar::idx::{PIdx, TIdx};
use std::alloc::{AllocError, Global};

/// How many symbols the body of the production has; 0 where there is no such production.
pub(crate) fn body_len(grm: &YaccGrammar<u32>, production: PIdx<u32>) -> usize {
    if usize::from(production) < usize::from(grm.prods_len()) {
        grm.prod(production).len()
    } else {
        0
    }
}

/// What moves put over the tree that the first of them put last.
#[derive(Clone, Copy)]
struct Over {
    /// How many nodes there are over it, one over the other.
    nodes: usize,
    /// How many trees stand behind the last of these.
    behind: usize,
}

impl Over {
    /// Behind the first move.
    const NOTHING: Over = Over {
        nodes: 0,
        behind: 0,
    };

    /// Behind one move more.
    fn and(self, grm: &YaccGrammar<u32>, action: Move<u32>) -> Over {
        let count = match action {
            Move::Shift => 0,
            Move::Reduce(production) => body_len(grm, production),
        };
        if count > self.behind {
            return Over {
                nodes: self.nodes.saturating_add(1),
                behind: 0,
            };
        }
        Over {
            nodes: self.nodes,
            behind: (self.behind - count).saturating_add(1),
        }
    }
}

/// How many nodes the moves put over the tree that the first of them puts last.
fn nodes_over(grm: &YaccGrammar<u32>, moves: &[Move<u32>]) -> usize {
    let mut over = Over::NOTHING;
    for action in moves.iter().skip(1) {
        over = over.and(grm, *action);
    }
    over.nodes
}

/// How many of the moves it takes to put so many nodes over the tree that the first of them puts last.
fn moves_to(grm: &YaccGrammar<u32>, moves: &[Move<u32>], nodes: usize) -> usize {
    let mut over = Over::NOTHING;
    for (number, action) in moves.iter().enumerate().skip(1) {
        if over.nodes >= nodes {
            return number;
        }
        over = over.and(grm, *action);
    }
    moves.len()
}

/// How many of the last moves put the last tree together.
fn moves_of_last(grm: &YaccGrammar<u32>, moves: &[Move<u32>]) -> usize {
    let mut missing: usize = 1;
    for (number, action) in moves.iter().rev().enumerate() {
        if missing == 0 {
            return number;
        }
        missing = match action {
            Move::Shift => missing - 1,
            Move::Reduce(production) => (missing - 1).saturating_add(body_len(grm, *production)),
        };
    }
    moves.len()
}

/// How many tokens the moves take.
pub(crate) fn shifts(moves: &[Move<u32>]) -> usize {
    moves
        .iter()
        .filter(|action| **action == Move::Shift)
        .count()
}

/// The last so many elements, and those before them.
fn split_last<T>(list: &[T], count: usize) -> (&[T], &[T]) {
    list.split_at(list.len().saturating_sub(count))
}

/// What of a text that the moves read stands in the places of the shifts of the form, where the last moves of both are the same.
fn texts_at_shifts(
    alloc: Global,
    grm: &YaccGrammar<u32>,
    form: &[Move<u32>],
    moves: &[Move<u32>],
    tokens: &[TIdx<u32>],
) -> Result<Vec<Written<u32>>, AllocError> {
    let mut texts = Vec::new(alloc);
    let (mut moves, mut tokens) = (moves, tokens);
    for action in form.iter().rev() {
        let count = match action {
            Move::Shift => moves_of_last(grm, moves),
            Move::Reduce(_) => 1,
        };
        let (front, last) = split_last(moves, count);
        moves = front;
        if *action == Move::Shift {
            let (before, text) = split_last(tokens, shifts(last));
            tokens = before;
            texts.push(Written {
                tokens: Vec::from_slice(alloc, text)?,
                moves: Vec::from_slice(alloc, last)?,
            })?;
        }
    }
    texts.reverse();
    Ok(texts)
}

/// The moves, and behind them the others.
fn joined(
    alloc: Global,
    moves: &[Move<u32>],
    others: &[Move<u32>],
) -> Result<Vec<Move<u32>>, AllocError> {
    let mut joined = Vec::from_slice(alloc, moves)?;
    joined.extend_from_slice(others)?;
    Ok(joined)
}

/// What of the sentence stands in the place of each symbol of the form.
///
/// The form's last node stands in the sentence as many nodes over what the first move behind the dot puts there as in the form.
/// From that node on the moves of both are read backwards, since so they tell how many of them make a tree.
pub(crate) fn texts_of(
    alloc: Global,
    grm: &YaccGrammar<u32>,
    form: &Form,
    sentence: &Sentence,
) -> Result<Vec<Written<u32>>, AllocError> {
    let first = form.ways.first.as_slice();
    let whole = sentence.ways.first.as_slice();
    let (part, _) = whole.split_at(moves_to(grm, whole, nodes_over(grm, first)).min(whole.len()));
    let form = joined(alloc, form.ways.before.as_slice(), first)?;
    let moves = joined(alloc, sentence.ways.before.as_slice(), part)?;
    let tokens = sentence.tokens.as_slice();
    let (tokens, _) = tokens.split_at(shifts(moves.as_slice()).min(tokens.len()));
    texts_at_shifts(alloc, grm, form.as_slice(), moves.as_slice(), tokens)
}
