//! What is asked of others where a position is won by what they do next.

ghost use Rattle.std.specs.Prelude.{◌≡◌, ◌<◌, [], length, Contains, IfOk, IfSome, IsTrue, OnOk};
ghost use Rattle.lrspec.specs.grammars.Grammar.{rest};
ghost use Rattle.lrsearches.specs.StoredWays.{AreWaysOf};
ghost use Rattle.lrgrammar.specs.Symbols.{number_of};
ghost use Rattle.lrexchange.specs.Asked.{IsOpen, Steps, ReadsToo};
ghost use Rattle.lrexchange.specs.Exchanges.{Proceeds};
ghost use Rattle.lrexchange.specs.StoredPositions.{position_of, positions_of};

use crate::acts::{Act, ask_each};
use crate::answers::Answer;
use crate::moving::{ask_ahead, ask_before, ask_items};
use crate::positions::{Position, Turn, with_symbol};
use lrclosing::items::step_over;
use lrgrammar::grammar::YaccGrammar;
use lrgrammar::idx::{PIdx, SIdx, Symbol};
use lrgraphs::stategraph::StateGraph;
use lrsearches::Ways;
use std::alloc::AllocError;

/// The item that is open, but for one of the start production.
fn open_item(grm: &YaccGrammar<u32>, position: &Position) -> Option<(PIdx<u32>, SIdx<u32>)>
    ensures { IfSome result (λ i. IsOpen grm.now (position_of position.now) i.0.0 i.1.0) }
{
    let Turn::Open(production, dot) = position.turn else {
        return None;
    };
    let number = usize::from(production);
    if number == usize::from(grm.start_prod()) || number >= usize::from(grm.prods_len()) {
        return None;
    }
    Some((production, dot))
}

/// Adds what is asked where whatever they do next is looked at; answers whether that can be said.
fn ask_moves(
    asked: &mut Vec<Position>,
    grm: &YaccGrammar<u32>,
    graph: &StateGraph<u32>,
    ways: &Ways<u32>,
    position: &Position,
) -> Result<bool, AllocError>
    requires { AreWaysOf number_of grm.now graph.now ways.now }
    ensures { IfOk result (λ b. IsTrue b → Proceeds grm.now graph.now
        (Contains (positions_of asked.new.items)) (position_of position.now)) }
{
    match position.turn {
        Turn::Even => ask_items(asked, grm, graph, position),
        Turn::Ahead(token) => ask_ahead(asked, grm, graph, ways, token, position),
        Turn::Before(token) => ask_before(asked, grm, graph, ways, token, position),
        Turn::Open(_, _) | Turn::Behind(_) => Ok(false),
    }
}

/// Adds what is asked where we reduce by the open item too; answers whether we can.
fn ask_mirror(
    asked: &mut Vec<Position>,
    grm: &YaccGrammar<u32>,
    graph: &StateGraph<u32>,
    ways: &Ways<u32>,
    position: &Position,
) -> Result<bool, AllocError>
    requires { AreWaysOf number_of grm.now graph.now ways.now }
    ensures { IfOk result (λ b. IsTrue b → Proceeds grm.now graph.now
        (Contains (positions_of asked.new.items)) (position_of position.now)) }
{
    let Some(item) = open_item(grm, position) else {
        return Ok(false);
    };
    ask_each(asked, grm, graph, ways, position, Act::Both(item.0, item.1))
}

/// Whether nothing is behind the dot of the item.
fn is_at_end(grm: &YaccGrammar<u32>, item: (PIdx<u32>, SIdx<u32>)) -> bool
    requires { item.0.0 < length grm.now.productions }
    ensures { IsTrue result → rest grm.now item.0.0 item.1.0 ≡ [] }
{
    match step_over(grm, item.0, item.1) {
        Some(_) => false,
        None => true,
    }
}

/// Adds what is asked where they reduce by the open item, behind whose dot nothing is; answers whether that can be said.
fn ask_release(
    asked: &mut Vec<Position>,
    grm: &YaccGrammar<u32>,
    graph: &StateGraph<u32>,
    ways: &Ways<u32>,
    position: &Position,
) -> Result<bool, AllocError>
    requires { AreWaysOf number_of grm.now graph.now ways.now }
    ensures { IfOk result (λ b. IsTrue b → Proceeds grm.now graph.now
        (Contains (positions_of asked.new.items)) (position_of position.now)) }
{
    let Some(item) = open_item(grm, position) else {
        return Ok(false);
    };
    if !is_at_end(grm, item) {
        return Ok(false);
    }
    let act = Act::They(Turn::Even, item.0, item.1);
    ask_each(asked, grm, graph, ways, position, act)
}

/// Adds what is asked where both read what the symbol behind the dot derives; answers whether there is one.
fn ask_step(
    asked: &mut Vec<Position>,
    grm: &YaccGrammar<u32>,
    position: &Position,
) -> Result<bool, AllocError>
    ensures { IfOk result (λ b. IsTrue b → Steps grm.now
        (Contains (positions_of asked.new.items)) (position_of position.now)) }
{
    let Some(item) = open_item(grm, position) else {
        return Ok(false);
    };
    let Some(step) = step_over(grm, item.0, item.1) else {
        return Ok(false);
    };
    let theirs = with_symbol(grm.allocator(), position.theirs.as_slice(), step.0)?;
    let ours = position.ours.pushed(grm.allocator(), step.0)?;
    asked.push(Position {
        turn: Turn::Open(item.0, step.1),
        state: position.state,
        theirs,
        ours,
    })?;
    Ok(true)
}

/// Adds what is asked where we read the token too; answers whether we have to.
fn ask_read(
    asked: &mut Vec<Position>,
    grm: &YaccGrammar<u32>,
    position: &Position,
) -> Result<bool, AllocError>
    ensures { IfOk result (λ b. IsTrue b → ReadsToo
        (Contains (positions_of asked.new.items)) (position_of position.now)) }
{
    let Turn::Behind(token) = position.turn else {
        return Ok(false);
    };
    let theirs = Vec::from_slice(grm.allocator(), position.theirs.as_slice())?;
    let ours = position.ours.pushed(grm.allocator(), Symbol::Token(token))?;
    asked.push(Position {
        turn: Turn::Even,
        state: position.state,
        theirs,
        ours,
    })?;
    Ok(true)
}

/// Adds what is asked by the answer, where that is of what they do next; answers whether it can be given.
fn ask_by(
    asked: &mut Vec<Position>,
    grm: &YaccGrammar<u32>,
    graph: &StateGraph<u32>,
    ways: &Ways<u32>,
    position: &Position,
    answer: Answer,
) -> Result<bool, AllocError>
    requires { AreWaysOf number_of grm.now graph.now ways.now }
    ensures { IfOk result (λ b. IsTrue b → Proceeds grm.now graph.now
        (Contains (positions_of asked.new.items)) (position_of position.now)) }
{
    match answer {
        Answer::Moves => ask_moves(asked, grm, graph, ways, position),
        Answer::Mirror => ask_mirror(asked, grm, graph, ways, position),
        Answer::Release => ask_release(asked, grm, graph, ways, position),
        Answer::Step => ask_step(asked, grm, position),
        Answer::Read => ask_read(asked, grm, position),
        Answer::Own(_) | Answer::Unmark => Ok(false),
    }
}

/// The positions that must be won where the position is by the answer, which is of what they do next; None where it can't be
/// given.
pub fn proceeding(
    grm: &YaccGrammar<u32>,
    graph: &StateGraph<u32>,
    ways: &Ways<u32>,
    position: &Position,
    answer: Answer,
) -> Result<Option<Vec<Position>>, AllocError>
    requires { AreWaysOf number_of grm.now graph.now ways.now }
    ensures { IfOk result (λ o. IfSome o (λ v. Proceeds grm.now graph.now
        (Contains (positions_of v.items)) (position_of position.now))) }
{
    let mut asked = Vec::new(grm.allocator());
    if !ask_by(&mut asked, grm, graph, ways, position, answer)? {
        return Ok(None);
    }
    Ok(Some(asked))
}
