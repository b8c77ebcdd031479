//! Positions of which the beginning that both stacks have is counted to what is not named.

ghost use Rattle.std.specs.Prelude.{◌≡◌, ◌+◌, ◌≤◌, take, IfOk, IfSome};
ghost use Rattle.lrexchange.specs.Sinking.{IsCommon, AreBeforeMark, MaySink};
ghost use Rattle.lrexchange.specs.Positions.{Sinks, raised};
ghost use Rattle.lrexchange.specs.StoredPositions.{symbols_of, mark_of, ours_of, position_of};

use crate::positions::{Mark, Ours, Position, Turn};
use lrclosing::items::is_same_symbol;
use lrgrammar::grammar::YaccGrammar;
use lrgrammar::idx::{StIdx, Symbol};
use lrgraphs::stategraph::StateGraph;
use std::alloc::{AllocError, Global};

/// How many symbols are the same in both lists from their beginning on, where edges lead on these from the state; and the state
/// to which they lead.
fn common(
    graph: &StateGraph<u32>,
    from: StIdx<u32>,
    theirs: &[Symbol<u32>],
    ours: &[Symbol<u32>],
) -> (usize, StIdx<u32>)
    ensures { IsCommon graph.now from.0 result.1.0 result.0
        (symbols_of theirs.now) (symbols_of ours.now) }
{
    let mut state = from;
    let most = theirs.len().min(ours.len());
    for i in 0..most {
        let symbol = theirs[i];
        if !is_same_symbol(symbol, ours[i]) {
            return (i, state);
        }
        let Some(next) = graph.edge(state, symbol) else {
            return (i, state);
        };
        state = next;
    }
    (most, state)
}

/// Our symbols that may be counted to what is not named: those before a mark. None are where they go on with the token, which we
/// have read: what they have then is made of its first symbol.
fn sinkable(position: &Position) -> &[Symbol<u32>]
    ensures { AreBeforeMark (ours_of position.entry.now.ours) (symbols_of result.now) }
{
    let symbols = position.ours.symbols.as_slice();
    if let Turn::Ahead(_) = position.turn {
        return &symbols[..0];
    }
    let Some(mark) = position.ours.mark else {
        return symbols;
    };
    if mark.place < symbols.len() {
        return &symbols[..mark.place];
    }
    symbols
}

/// The mark with so many fewer symbols before it.
fn sunk_mark(mark: Mark, by: usize) -> Mark
    requires { by ≤ mark.place }
    ensures { mark_of mark ≡ record (mark_of result) {
      place = by + result.place;
    } }
{
    Mark {
        place: mark.place - by,
        symbol: mark.symbol,
        under: mark.under,
        state: mark.state,
    }
}

/// Ours without so many first symbols.
fn sunk_ours(alloc: Global, ours: &Ours, count: usize) -> Result<Ours, AllocError>
    requires { MaySink (ours_of ours.now) count }
    ensures { IfOk result (λ y. ours_of ours.now
        ≡ raised (take count (symbols_of ours.now.symbols.items)) (ours_of y)) }
{
    let symbols = Vec::from_slice(alloc, &ours.symbols[count..])?;
    let Some(mark) = ours.mark else {
        return Ok(Ours {
            symbols,
            mark: None,
        });
    };
    let mark = Some(sunk_mark(mark, count));
    Ok(Ours { symbols, mark })
}

/// The position, of which the beginning that both stacks have is counted to what is not named, as far as edges are there; None
/// where that is the position itself.
pub(crate) fn sunk(
    grm: &YaccGrammar<u32>,
    graph: &StateGraph<u32>,
    position: &Position,
) -> Result<Option<Position>, AllocError>
    ensures { IfOk result (λ o. IfSome o (λ b. Sinks graph.now (position_of position.now)
        (position_of b))) }
{
    let theirs = position.theirs.as_slice();
    let before = sinkable(position);
    let (count, state) = common(graph, position.state, theirs, before);
    if count == 0 {
        return Ok(None);
    }
    let theirs = Vec::from_slice(grm.allocator(), &theirs[count..])?;
    let ours = sunk_ours(grm.allocator(), &position.ours, count)?;
    Ok(Some(Position {
        turn: position.turn,
        state,
        theirs,
        ours,
    }))
}
