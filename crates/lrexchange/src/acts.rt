//! What is asked where stacks are reduced, above each stack that leads to the state of a position.

ghost use Rattle.std.specs.Prelude.{◌≡◌, Contains, IfOk, IsTrue, OnOk};
ghost use Rattle.lrgrammar.specs.Symbols.{number_of, symbol_of};
ghost use Rattle.lrsearches.specs.StoredWays.{AreWaysOf};
ghost use Rattle.lrexchange.specs.Asked.{deepened, KeepsPositions, AsksThem, AsksBoth, AsksUs, AsksHidden, Asks, AllAsked, EachAsked};
ghost use Rattle.lrexchange.specs.StoredActs.{act_of};
ghost use Rattle.lrexchange.specs.StoredPositions.{symbols_of, turn_of, mark_of, position_of, positions_of, belows_of};

use crate::below::{Below, all_below};
use crate::cuts::{cut, ours_cut};
use crate::positions::{Mark, Ours, Position, Turn};
use lrgrammar::grammar::YaccGrammar;
use lrgrammar::idx::{PIdx, SIdx, Symbol};
use lrgraphs::stategraph::StateGraph;
use lrsearches::Ways;
use std::alloc::AllocError;

/// What is done above a stack.
#[derive(Clone, Copy)]
pub(crate) enum Act {
    /// They reduce by the item, and then do this.
    They(Turn, PIdx<u32>, SIdx<u32>),
    /// They reduce by the item, and so do we.
    Both(PIdx<u32>, SIdx<u32>),
    /// We alone reduce by the production.
    We(PIdx<u32>),
    /// They reduce by the production, and the mark stands for what that is made of.
    Hide(PIdx<u32>, Mark),
}

/// Adds what is asked where they reduce by the item; answers whether that can be said.
fn ask_them(
    asked: &mut Vec<Position>,
    grm: &YaccGrammar<u32>,
    deeper: Position,
    turn: Turn,
    item: (PIdx<u32>, SIdx<u32>),
) -> Result<bool, AllocError>
    ensures kept { OnOk result (KeepsPositions (positions_of asked.old.items)
        (positions_of asked.new.items)) }
    ensures asked { IfOk result (λ b. IsTrue b → AsksThem grm.now
        (Contains (positions_of asked.new.items)) (turn_of turn)
        item.0.0 item.1.0 (position_of deeper)) }
{
    if deeper.theirs.len() < usize::from(item.1) {
        return Ok(false);
    }
    let Position {
        state,
        theirs,
        ours,
        ..
    } = deeper;
    let Some(theirs) = cut(grm, theirs, item, 0)? else {
        return Ok(true);
    };
    asked.push(Position {
        turn,
        state,
        theirs,
        ours,
    })?;
    Ok(true)
}

/// Adds what is asked where they reduce by the item, and so do we; answers whether we can.
fn ask_both(
    asked: &mut Vec<Position>,
    grm: &YaccGrammar<u32>,
    deeper: Position,
    item: (PIdx<u32>, SIdx<u32>),
) -> Result<bool, AllocError>
    ensures kept { OnOk result (KeepsPositions (positions_of asked.old.items)
        (positions_of asked.new.items)) }
    ensures asked { IfOk result (λ b. IsTrue b → AsksBoth grm.now
        (Contains (positions_of asked.new.items)) item.0.0 item.1.0 (position_of deeper)) }
{
    if deeper.theirs.len() < usize::from(item.1) {
        return Ok(false);
    }
    let Position {
        state,
        theirs,
        ours,
        ..
    } = deeper;
    let Some(theirs) = cut(grm, theirs, item, 0)? else {
        return Ok(true);
    };
    let Some(ours) = ours_cut(grm, ours, item)? else {
        return Ok(false);
    };
    asked.push(Position {
        turn: Turn::Even,
        state,
        theirs,
        ours,
    })?;
    Ok(true)
}

/// Adds what is asked where we alone reduce by the production; answers whether we can.
fn ask_us(
    asked: &mut Vec<Position>,
    grm: &YaccGrammar<u32>,
    deeper: Position,
    production: PIdx<u32>,
) -> Result<bool, AllocError>
    ensures kept { OnOk result (KeepsPositions (positions_of asked.old.items)
        (positions_of asked.new.items)) }
    ensures asked { IfOk result (λ b. IsTrue b → AsksUs grm.now
        (Contains (positions_of asked.new.items)) production.0 (position_of deeper)) }
{
    if usize::from(production) >= usize::from(grm.prods_len()) {
        return Ok(false);
    }
    let item = (production, grm.prod_len(production));
    let Position {
        turn,
        state,
        theirs,
        ours,
    } = deeper;
    let Some(ours) = ours_cut(grm, ours, item)? else {
        return Ok(false);
    };
    asked.push(Position {
        turn,
        state,
        theirs,
        ours,
    })?;
    Ok(true)
}

/// The mark where it waits with the symbol alone.
fn mark_with(mark: Mark, symbol: Symbol<u32>) -> Mark
    ensures { mark_of result ≡ record (mark_of mark) {
      symbol = symbol_of number_of symbol;
    } }
{
    Mark {
        place: mark.place,
        symbol,
        under: mark.under,
        state: mark.state,
    }
}

/// Adds what is asked where they reduce by the production to one symbol, for which the mark waits behind our symbols; answers
/// whether that can be said.
fn ask_hidden(
    asked: &mut Vec<Position>,
    grm: &YaccGrammar<u32>,
    deeper: Position,
    production: PIdx<u32>,
    mark: Mark,
    ours: &[Symbol<u32>],
) -> Result<bool, AllocError>
    ensures kept { OnOk result (KeepsPositions (positions_of asked.old.items)
        (positions_of asked.new.items)) }
    ensures asked { IfOk result (λ b. IsTrue b → AsksHidden grm.now
        (Contains (positions_of asked.new.items)) production.0
        (mark_of mark) (symbols_of ours.now) (position_of deeper)) }
{
    if usize::from(production) >= usize::from(grm.prods_len()) {
        return Ok(false);
    }
    let item = (production, grm.prod_len(production));
    if deeper.theirs.len() < usize::from(item.1) {
        return Ok(false);
    }
    let Position {
        turn,
        state,
        theirs,
        ..
    } = deeper;
    let Some(theirs) = cut(grm, theirs, item, 0)? else {
        return Ok(true);
    };
    if theirs.len() != 1 {
        return Ok(false);
    }
    let mark = Some(mark_with(mark, theirs[0]));
    let symbols = Vec::from_slice(grm.allocator(), ours)?;
    asked.push(Position {
        turn,
        state,
        theirs,
        ours: Ours { symbols, mark },
    })?;
    Ok(true)
}

/// Adds what is asked where this is done at the position, above what is below it; answers whether that can be said.
fn ask_above(
    asked: &mut Vec<Position>,
    grm: &YaccGrammar<u32>,
    position: &Position,
    act: Act,
    below: &Below,
) -> Result<bool, AllocError>
    ensures kept { OnOk result (KeepsPositions (positions_of asked.old.items)
        (positions_of asked.new.items)) }
    ensures asked { IfOk result (λ b. IsTrue b → Asks grm.now
        (Contains (positions_of asked.new.items)) (act_of act)
        (position_of position.now) (deepened (position_of position.now)
        below.now.state.0 (symbols_of below.now.symbols.items))) }
{
    let Some(deeper) = position.deepened(grm.allocator(), below)? else {
        return Ok(false);
    };
    match act {
        Act::They(turn, production, dot) => {
            ask_them(asked, grm, deeper, turn, (production, dot))
        }
        Act::Both(production, dot) => ask_both(asked, grm, deeper, (production, dot)),
        Act::We(production) => ask_us(asked, grm, deeper, production),
        Act::Hide(production, mark) => {
            let ours = position.ours.symbols.as_slice();
            ask_hidden(asked, grm, deeper, production, mark, ours)
        }
    }
}

/// Adds what is asked where this is done at the position, above each of these; answers whether that can be said.
fn ask_above_all(
    asked: &mut Vec<Position>,
    grm: &YaccGrammar<u32>,
    position: &Position,
    act: Act,
    belows: &[Below],
) -> Result<bool, AllocError>
    ensures kept { OnOk result (KeepsPositions (positions_of asked.old.items)
        (positions_of asked.new.items)) }
    ensures asked { IfOk result (λ b. IsTrue b → AllAsked grm.now
        (Contains (positions_of asked.new.items)) (act_of act)
        (position_of position.now) (belows_of belows.now)) }
{
    for below in belows {
        if !ask_above(asked, grm, position, act, below)? {
            return Ok(false);
        }
    }
    Ok(true)
}

/// The length of the body of the production; 0 without one.
fn body_len(grm: &YaccGrammar<u32>, production: PIdx<u32>) -> usize {
    if usize::from(production) >= usize::from(grm.prods_len()) {
        return 0;
    }
    usize::from(grm.prod_len(production))
}

/// How many symbols below the position have to be known.
fn depth(grm: &YaccGrammar<u32>, position: &Position, act: Act) -> usize {
    let theirs = position.theirs.len();
    let ours = position.ours.symbols.len();
    match act {
        Act::They(_, _, dot) => usize::from(dot).saturating_sub(theirs),
        Act::Both(_, dot) => usize::from(dot).saturating_sub(theirs.min(ours)),
        Act::We(production) => body_len(grm, production).saturating_sub(ours),
        Act::Hide(production, _) => body_len(grm, production).saturating_sub(theirs),
    }
}

/// Adds what is asked where this is done at the position, above each stack that leads to its state; answers whether that can be
/// said.
pub(crate) fn ask_each(
    asked: &mut Vec<Position>,
    grm: &YaccGrammar<u32>,
    graph: &StateGraph<u32>,
    ways: &Ways<u32>,
    position: &Position,
    act: Act,
) -> Result<bool, AllocError>
    requires { AreWaysOf number_of grm.now graph.now ways.now }
    ensures kept { OnOk result (KeepsPositions (positions_of asked.old.items)
        (positions_of asked.new.items)) }
    ensures asked { IfOk result (λ b. IsTrue b → EachAsked grm.now graph.now
        (Contains (positions_of asked.new.items)) (act_of act) (position_of position.now)) }
{
    let incoming = ways.incoming.as_slice();
    let count = depth(grm, position, act);
    let Some(belows) = all_below(grm, graph, incoming, position.state, count)? else {
        return Ok(false);
    };
    ask_above_all(asked, grm, position, act, belows.as_slice())
}
