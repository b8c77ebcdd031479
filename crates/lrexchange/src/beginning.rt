//! What is asked of a cell, for which they make the first of two moves and we the second one.

ghost use Rattle.std.specs.Prelude.{◌≡◌, ◌∷◌, [], None, Contains, IfOk, IfSome, IsTrue};
ghost use Rattle.lrgrammar.specs.Symbols.{number_of, symbol_of};
ghost use Rattle.lrsearches.specs.StoredWays.{AreWaysOf};
ghost use Rattle.lrconflicts.specs.Moves.{Shift, Reduce};
ghost use Rattle.lrconflicts.specs.StoredMoves.{move_of};
ghost use Rattle.lrexchange.specs.Asked.{AllOwn};
ghost use Rattle.lrexchange.specs.Exchanges.{at, Begins};
ghost use Rattle.lrexchange.specs.StoredPositions.{symbols_of, turn_of, position_of, positions_of};

use crate::acts::{Act, ask_each};
use crate::positions::{Ours, Position, Turn};
use lrconflicts::Move;
use lrgrammar::grammar::YaccGrammar;
use lrgrammar::idx::{PIdx, StIdx, Symbol, TIdx};
use lrgraphs::stategraph::StateGraph;
use lrsearches::Ways;
use std::alloc::{AllocError, Global};

/// The symbol alone.
fn alone(alloc: Global, symbol: Symbol<u32>) -> Result<Vec<Symbol<u32>>, AllocError>
    ensures { IfOk result (λ v. symbols_of v.items ≡ symbol_of number_of symbol ∷ []) }
{
    let mut symbols = Vec::new(alloc);
    symbols.push(symbol)?;
    Ok(symbols)
}

/// The position above the state with these symbols alone.
fn start(
    turn: Turn,
    state: StIdx<u32>,
    theirs: Vec<Symbol<u32>>,
    ours: Vec<Symbol<u32>>,
) -> Position
    ensures { position_of result ≡ at (turn_of turn) state.0
        (symbols_of theirs.items) (record {
          symbols = symbols_of ours.items;
          mark = None;
        }) }
{
    let ours = Ours {
        symbols: ours,
        mark: None,
    };
    Position {
        turn,
        state,
        theirs,
        ours,
    }
}

/// Adds what is asked where they reduce and we shift; answers whether that can be said.
fn ask_shifting(
    asked: &mut Vec<Position>,
    grm: &YaccGrammar<u32>,
    graph: &StateGraph<u32>,
    ways: &Ways<u32>,
    cell: (StIdx<u32>, TIdx<u32>),
    production: PIdx<u32>,
) -> Result<bool, AllocError>
    requires { AreWaysOf number_of grm.now graph.now ways.now }
    ensures { IfOk result (λ b. IsTrue b → Begins grm.now graph.now cell.0.0 cell.1.0
        (Contains (positions_of asked.new.items)) (Reduce production.0) Shift) }
{
    if usize::from(production) >= usize::from(grm.prods_len()) {
        return Ok(false);
    }
    let theirs = Vec::new(grm.allocator());
    let ours = alone(grm.allocator(), Symbol::Token(cell.1))?;
    let start = start(Turn::Ahead(cell.1), cell.0, theirs, ours);
    let act = Act::They(Turn::Ahead(cell.1), production, grm.prod_len(production));
    ask_each(asked, grm, graph, ways, &start, act)
}

/// Adds what is asked where they shift and we reduce; answers whether we can.
fn ask_reducing(
    asked: &mut Vec<Position>,
    grm: &YaccGrammar<u32>,
    graph: &StateGraph<u32>,
    ways: &Ways<u32>,
    cell: (StIdx<u32>, TIdx<u32>),
    production: PIdx<u32>,
) -> Result<bool, AllocError>
    requires { AreWaysOf number_of grm.now graph.now ways.now }
    ensures { IfOk result (λ b. IsTrue b → Begins grm.now graph.now cell.0.0 cell.1.0
        (Contains (positions_of asked.new.items)) Shift (Reduce production.0)) }
{
    let theirs = alone(grm.allocator(), Symbol::Token(cell.1))?;
    let ours = Vec::new(grm.allocator());
    let start = start(Turn::Behind(cell.1), cell.0, theirs, ours);
    ask_each(asked, grm, graph, ways, &start, Act::We(production))
}

/// Adds what is asked where we alone reduce by the production at each of the positions; answers whether we can.
fn ask_all_own(
    asked: &mut Vec<Position>,
    grm: &YaccGrammar<u32>,
    graph: &StateGraph<u32>,
    ways: &Ways<u32>,
    positions: &[Position],
    production: PIdx<u32>,
) -> Result<bool, AllocError>
    requires { AreWaysOf number_of grm.now graph.now ways.now }
    ensures { IfOk result (λ b. IsTrue b → AllOwn grm.now graph.now
        (Contains (positions_of asked.new.items)) production.0 (positions_of positions.now)) }
{
    for position in positions {
        if !ask_each(asked, grm, graph, ways, position, Act::We(production))? {
            return Ok(false);
        }
    }
    Ok(true)
}

/// Adds what is asked where they reduce by the one production and we by the other; answers whether that can be said.
fn ask_both_reducing(
    asked: &mut Vec<Position>,
    grm: &YaccGrammar<u32>,
    graph: &StateGraph<u32>,
    ways: &Ways<u32>,
    cell: (StIdx<u32>, TIdx<u32>),
    production: PIdx<u32>,
    other: PIdx<u32>,
) -> Result<bool, AllocError>
    requires { AreWaysOf number_of grm.now graph.now ways.now }
    ensures { IfOk result (λ b. IsTrue b → Begins grm.now graph.now cell.0.0 cell.1.0
        (Contains (positions_of asked.new.items)) (Reduce production.0) (Reduce other.0)) }
{
    if usize::from(production) >= usize::from(grm.prods_len()) {
        return Ok(false);
    }
    let theirs = Vec::new(grm.allocator());
    let ours = Vec::new(grm.allocator());
    let start = start(Turn::Before(cell.1), cell.0, theirs, ours);
    let act = Act::They(Turn::Before(cell.1), production, grm.prod_len(production));
    let mut firsts = Vec::new(grm.allocator());
    if !ask_each(&mut firsts, grm, graph, ways, &start, act)? {
        return Ok(false);
    }
    ask_all_own(asked, grm, graph, ways, firsts.as_slice(), other)
}

/// Adds what is asked of the cell where they make the first move and we the second one; answers whether that can be said.
fn ask_begun(
    asked: &mut Vec<Position>,
    grm: &YaccGrammar<u32>,
    graph: &StateGraph<u32>,
    ways: &Ways<u32>,
    cell: (StIdx<u32>, TIdx<u32>),
    theirs: Move<u32>,
    ours: Move<u32>,
) -> Result<bool, AllocError>
    requires { AreWaysOf number_of grm.now graph.now ways.now }
    ensures { IfOk result (λ b. IsTrue b → Begins grm.now graph.now cell.0.0 cell.1.0
        (Contains (positions_of asked.new.items)) (move_of number_of theirs)
        (move_of number_of ours)) }
{
    match (theirs, ours) {
        (Move::Reduce(production), Move::Shift) => {
            ask_shifting(asked, grm, graph, ways, cell, production)
        }
        (Move::Shift, Move::Reduce(production)) => {
            ask_reducing(asked, grm, graph, ways, cell, production)
        }
        (Move::Reduce(production), Move::Reduce(other)) => {
            ask_both_reducing(asked, grm, graph, ways, cell, production, other)
        }
        (Move::Shift, Move::Shift) => Ok(false),
    }
}

/// The positions that must be won of the cell for which they make the first move and we the second one; None where that can't be
/// said.
pub fn beginning(
    grm: &YaccGrammar<u32>,
    graph: &StateGraph<u32>,
    ways: &Ways<u32>,
    cell: (StIdx<u32>, TIdx<u32>),
    theirs: Move<u32>,
    ours: Move<u32>,
) -> Result<Option<Vec<Position>>, AllocError>
    requires { AreWaysOf number_of grm.now graph.now ways.now }
    ensures { IfOk result (λ o. IfSome o (λ v. Begins grm.now graph.now cell.0.0 cell.1.0
        (Contains (positions_of v.items)) (move_of number_of theirs) (move_of number_of ours))) }
{
    let mut asked = Vec::new(grm.allocator());
    if !ask_begun(&mut asked, grm, graph, ways, cell, theirs, ours)? {
        return Ok(None);
    }
    Ok(Some(asked))
}
