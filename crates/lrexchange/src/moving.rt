//! Whatever they do next on a token.

ghost use Rattle.std.specs.Prelude.{◌≡◌, map, is_some, Contains, IfOk, IfSome, IsTrue, OnOk};
ghost use Rattle.lrspec.specs.grammars.Grammar.{Token};
ghost use Rattle.lrspec.specs.merging.Graph.{edge};
ghost use Rattle.lrsearches.specs.StoredWays.{AreWaysOf};
ghost use Rattle.lrgrammar.specs.Symbols.{number_of};
ghost use Rattle.lrexchange.specs.Asked.{KeepsPositions, TakesShift, TakesStart, TakesReductions, TakesReductionsBy, OpensItems, GoesAhead, GoesBefore};
ghost use Rattle.lrexchange.specs.Exchanges.{IsMarkOf, IsDeep, TakesReduction};
ghost use Rattle.lrexchange.specs.Asked.{IsAhead};
ghost use Rattle.lrexchange.specs.StoredPositions.{mark_of, turn_of, position_of, positions_of};

use crate::acts::{Act, ask_each};
use crate::positions::{Mark, Ours, Position, Turn, with_symbol};
use crate::tops::{ask_open, end_of, reductions_on};
use lrgrammar::grammar::YaccGrammar;
use lrgrammar::idx::{PIdx, SIdx, StIdx, Symbol, TIdx};
use lrgraphs::stategraph::StateGraph;
use lrsearches::Ways;
use std::alloc::AllocError;

/// Whether some symbol is below the top of each of their stacks.
fn is_deep(position: &Position) -> bool
    ensures { IsTrue result → IsDeep (position_of position.now) }
{
    !position.theirs.is_empty() || usize::from(position.state) != 0
}

/// The mark at the bottom of ours; where ours has none, and they have one symbol, the first one.
fn bottom_mark(position: &Position) -> Option<Mark>
    ensures { IfSome result (λ m. IsMarkOf (position_of position.now) (mark_of m)) }
{
    if let Some(mark) = position.ours.mark {
        return (mark.place == 0).then_some(mark);
    }
    if position.theirs.len() != 1 {
        return None;
    }
    let symbol = position.theirs[0];
    Some(Mark {
        place: 0,
        symbol,
        under: symbol,
        state: position.state,
    })
}

/// The mark that may stand for what they reduce to a symbol, where they go on with the token and the production is long enough.
fn mark_for(position: &Position, len: SIdx<u32>) -> Option<Mark>
    ensures ahead { IfSome result (λ m. IsAhead (position_of position.now)) }
    ensures mark { IfSome result (λ m. IsMarkOf (position_of position.now) (mark_of m)) }
{
    if usize::from(len) <= position.theirs.len() {
        return None;
    }
    match position.turn {
        Turn::Ahead(_) => bottom_mark(position),
        Turn::Even | Turn::Open(_, _) | Turn::Before(_) | Turn::Behind(_) => None,
    }
}

/// Adds what is asked where they reduce by the production before they have read the token; answers whether that can be said.
fn ask_reduction(
    asked: &mut Vec<Position>,
    grm: &YaccGrammar<u32>,
    graph: &StateGraph<u32>,
    ways: &Ways<u32>,
    position: &Position,
    production: PIdx<u32>,
) -> Result<bool, AllocError>
    requires { AreWaysOf number_of grm.now graph.now ways.now }
    ensures kept { OnOk result (KeepsPositions (positions_of asked.old.items)
        (positions_of asked.new.items)) }
    ensures asked { IfOk result (λ b. IsTrue b → TakesReduction grm.now graph.now
        (Contains (positions_of asked.new.items)) production.0 (position_of position.now)) }
{
    if usize::from(production) >= usize::from(grm.prods_len()) {
        return Ok(false);
    }
    let len = grm.prod_len(production);
    match mark_for(position, len) {
        Some(mark) => {
            let act = Act::Hide(production, mark);
            ask_each(asked, grm, graph, ways, position, act)
        }
        None => {
            let act = Act::They(position.turn, production, len);
            ask_each(asked, grm, graph, ways, position, act)
        }
    }
}

/// Adds what is asked where they reduce by one of the productions; answers whether that can be said.
fn ask_reductions_by(
    asked: &mut Vec<Position>,
    grm: &YaccGrammar<u32>,
    graph: &StateGraph<u32>,
    ways: &Ways<u32>,
    position: &Position,
    productions: &[PIdx<u32>],
) -> Result<bool, AllocError>
    requires { AreWaysOf number_of grm.now graph.now ways.now }
    ensures kept { OnOk result (KeepsPositions (positions_of asked.old.items)
        (positions_of asked.new.items)) }
    ensures asked { IfOk result (λ b. IsTrue b → TakesReductionsBy grm.now graph.now
        (Contains (positions_of asked.new.items)) (map (λ p. p.0) productions.now)
        (position_of position.now)) }
{
    for production in productions {
        if !ask_reduction(asked, grm, graph, ways, position, *production)? {
            return Ok(false);
        }
    }
    Ok(true)
}

/// Adds what is asked where they reduce before they have read the token; answers whether that can be said.
fn ask_reductions(
    asked: &mut Vec<Position>,
    grm: &YaccGrammar<u32>,
    graph: &StateGraph<u32>,
    ways: &Ways<u32>,
    token: TIdx<u32>,
    position: &Position,
) -> Result<bool, AllocError>
    requires { AreWaysOf number_of grm.now graph.now ways.now }
    ensures kept { OnOk result (KeepsPositions (positions_of asked.old.items)
        (positions_of asked.new.items)) }
    ensures asked { IfOk result (λ b. IsTrue b → TakesReductions grm.now graph.now token.0
        (Contains (positions_of asked.new.items)) (position_of position.now)) }
{
    let Some(top) = end_of(graph, position.state, position.theirs.as_slice()) else {
        return Ok(true);
    };
    if usize::from(top) >= usize::from(graph.all_states_len()) {
        return Ok(false);
    }
    let productions = reductions_on(grm, graph, top, token)?;
    let those = productions.as_slice();
    ask_reductions_by(asked, grm, graph, ways, position, those)
}

/// Whether the state shifts the token.
fn shifts(graph: &StateGraph<u32>, state: StIdx<u32>, token: TIdx<u32>) -> bool
    ensures { result ≡ is_some (edge graph.now state.0 (Token token.0)) }
{
    graph.edge(state, Symbol::Token(token)).is_some()
}

/// Adds the position behind the token, if they can shift it.
fn ask_shift(
    asked: &mut Vec<Position>,
    grm: &YaccGrammar<u32>,
    graph: &StateGraph<u32>,
    token: TIdx<u32>,
    position: &Position,
    shifted: Turn,
) -> Result<(), AllocError>
    ensures kept { OnOk result (KeepsPositions (positions_of asked.old.items)
        (positions_of asked.new.items)) }
    ensures asked { OnOk result (TakesShift graph.now token.0
        (Contains (positions_of asked.new.items)) (turn_of shifted) (position_of position.now)) }
{
    let Some(top) = end_of(graph, position.state, position.theirs.as_slice()) else {
        return Ok(());
    };
    if !shifts(graph, top, token) {
        return Ok(());
    }
    let symbol = Symbol::Token(token);
    let theirs = with_symbol(grm.allocator(), position.theirs.as_slice(), symbol)?;
    let ours = position.ours.copied(grm.allocator())?;
    asked.push(Position {
        turn: shifted,
        state: position.state,
        theirs,
        ours,
    })?;
    Ok(())
}

/// Adds what is asked where they go on with the token, which we have read; answers whether that can be said.
pub(crate) fn ask_ahead(
    asked: &mut Vec<Position>,
    grm: &YaccGrammar<u32>,
    graph: &StateGraph<u32>,
    ways: &Ways<u32>,
    token: TIdx<u32>,
    position: &Position,
) -> Result<bool, AllocError>
    requires { AreWaysOf number_of grm.now graph.now ways.now }
    ensures { IfOk result (λ b. IsTrue b → GoesAhead grm.now graph.now token.0
        (Contains (positions_of asked.new.items)) (position_of position.now)) }
{
    if !is_deep(position) {
        return Ok(false);
    }
    if !ask_reductions(asked, grm, graph, ways, token, position)? {
        return Ok(false);
    }
    ask_shift(asked, grm, graph, token, position, Turn::Even)?;
    Ok(true)
}

/// Adds the position at which they have come to the start rule, if the token is the end of the text.
fn ask_start(
    asked: &mut Vec<Position>,
    grm: &YaccGrammar<u32>,
    token: TIdx<u32>,
    position: &Position,
) -> Result<(), AllocError>
    ensures kept { OnOk result (KeepsPositions (positions_of asked.old.items)
        (positions_of asked.new.items)) }
    ensures asked { OnOk result (TakesStart grm.now token.0
        (Contains (positions_of asked.new.items)) (position_of position.now)) }
{
    if usize::from(token) != usize::from(grm.eof_token_idx()) {
        return Ok(());
    }
    let start = grm.start_prod();
    grm.in_order();
    let open = Turn::Open(start, grm.prod_len(start));
    asked.push(position.with_turn(grm.allocator(), open)?)?;
    Ok(())
}

/// Adds what is asked where they go on with the token, which we have to read too; answers whether that can be said.
pub(crate) fn ask_before(
    asked: &mut Vec<Position>,
    grm: &YaccGrammar<u32>,
    graph: &StateGraph<u32>,
    ways: &Ways<u32>,
    token: TIdx<u32>,
    position: &Position,
) -> Result<bool, AllocError>
    requires { AreWaysOf number_of grm.now graph.now ways.now }
    ensures { IfOk result (λ b. IsTrue b → GoesBefore grm.now graph.now token.0
        (Contains (positions_of asked.new.items)) (position_of position.now)) }
{
    if !is_deep(position) {
        return Ok(false);
    }
    if !ask_reductions(asked, grm, graph, ways, token, position)? {
        return Ok(false);
    }
    ask_shift(asked, grm, graph, token, position, Turn::Behind(token))?;
    ask_start(asked, grm, token, position)?;
    Ok(true)
}

/// Adds the position with each item of the core open that may be open; answers whether that can be said.
pub(crate) fn ask_items(
    asked: &mut Vec<Position>,
    grm: &YaccGrammar<u32>,
    graph: &StateGraph<u32>,
    position: &Position,
) -> Result<bool, AllocError>
    ensures { IfOk result (λ b. IsTrue b → OpensItems graph.now
        (Contains (positions_of asked.new.items)) (position_of position.now)) }
{
    if !is_deep(position) {
        return Ok(false);
    }
    let Some(top) = end_of(graph, position.state, position.theirs.as_slice()) else {
        return Ok(true);
    };
    if usize::from(top) >= usize::from(graph.all_states_len()) {
        return Ok(false);
    }
    ask_open(asked, grm, graph, position, top)?;
    Ok(true)
}
