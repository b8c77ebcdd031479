//! The answers that may be given at a position.

use crate::answers::Answer;
use crate::positions::{Position, Turn};
use crate::tops::end_of;
use lrgrammar::grammar::YaccGrammar;
use lrgrammar::idx::{PIdx, SIdx, StIdx};
use lrgraphs::stategraph::StateGraph;
use std::alloc::AllocError;

/// The state to which our stack leads, if there is one.
pub(crate) fn our_top(graph: &StateGraph<u32>, position: &Position) -> Option<StIdx<u32>> {
    let symbols = position.ours.symbols.as_slice();
    let Some(mark) = position.ours.mark else {
        return end_of(graph, position.state, symbols);
    };
    if mark.place > symbols.len() {
        return None;
    }
    end_of(graph, mark.state, &symbols[mark.place..])
}

/// Whether the item is complete, and not of the start production.
fn is_complete(grm: &YaccGrammar<u32>, item: (PIdx<u32>, SIdx<u32>)) -> bool {
    usize::from(item.0) < usize::from(grm.prods_len())
        && usize::from(item.0) != usize::from(grm.start_prod())
        && usize::from(item.1) == usize::from(grm.prod_len(item.0))
}

/// Adds the reductions that we may make alone.
fn add_own(
    answers: &mut Vec<Answer>,
    grm: &YaccGrammar<u32>,
    graph: &StateGraph<u32>,
    position: &Position,
) -> Result<(), AllocError> {
    let Some(top) = our_top(graph, position) else {
        return Ok(());
    };
    if usize::from(top) >= usize::from(graph.all_states_len()) {
        return Ok(());
    }
    for (key, _) in &graph.closed_state(top).items {
        if is_complete(grm, *key) {
            answers.push(Answer::Own(key.0))?;
        }
    }
    Ok(())
}

/// Adds what may be done where the item is open.
fn add_open(
    answers: &mut Vec<Answer>,
    grm: &YaccGrammar<u32>,
    item: (PIdx<u32>, SIdx<u32>),
) -> Result<(), AllocError> {
    let production = usize::from(item.0);
    if production == usize::from(grm.start_prod()) || production >= usize::from(grm.prods_len()) {
        return Ok(());
    }
    answers.push(Answer::Mirror)?;
    if usize::from(item.1) >= usize::from(grm.prod_len(item.0)) {
        answers.push(Answer::Release)?;
        return Ok(());
    }
    answers.push(Answer::Step)?;
    Ok(())
}

/// The answers that may be given at the position.
pub(crate) fn possible(
    grm: &YaccGrammar<u32>,
    graph: &StateGraph<u32>,
    position: &Position,
) -> Result<Vec<Answer>, AllocError> {
    let mut answers = Vec::new(grm.allocator());
    match position.turn {
        Turn::Even | Turn::Ahead(_) | Turn::Before(_) => {
            answers.push(Answer::Moves)?;
            return Ok(answers);
        }
        Turn::Open(production, dot) => add_open(&mut answers, grm, (production, dot))?,
        Turn::Behind(_) => answers.push(Answer::Read)?,
    }
    if position.ours.mark.is_some() {
        answers.push(Answer::Unmark)?;
    }
    add_own(&mut answers, grm, graph, position)?;
    Ok(answers)
}
