//! What is asked of others where a position is won by our reductions alone.

ghost use Rattle.std.specs.Prelude.{Contains, IfOk, IfSome, IsTrue};
ghost use Rattle.lrgrammar.specs.Symbols.{number_of, symbol_of};
ghost use Rattle.lrsearches.specs.StoredWays.{AreWaysOf};
ghost use Rattle.lrexchange.specs.Asked.{IsBeforeLast, Unmarks};
ghost use Rattle.lrexchange.specs.Exchanges.{Retreats};
ghost use Rattle.lrexchange.specs.StoredPositions.{symbols_of, position_of, positions_of};

use crate::acts::{Act, ask_each};
use crate::answers::Answer;
use crate::positions::{Ours, Position, with_symbol};
use lrclosing::items::is_same_symbol;
use lrgrammar::grammar::YaccGrammar;
use lrgrammar::idx::Symbol;
use lrgraphs::stategraph::StateGraph;
use lrsearches::Ways;
use std::alloc::AllocError;

/// The symbols before the last one, where that stands at the place and is the same as this one.
fn before_last(symbols: &[Symbol<u32>], place: usize, last: Symbol<u32>) -> Option<&[Symbol<u32>]>
    ensures { IfSome result (λ v. IsBeforeLast (symbols_of symbols.entry.now) place
        (symbol_of number_of last) (symbols_of v.now)) }
{
    if place >= symbols.len() || symbols.len() - place != 1 {
        return None;
    }
    is_same_symbol(symbols[place], last).then_some(&symbols[..place])
}

/// Adds what is asked where we reduce what the mark hides with the symbol behind it; answers whether we can.
fn ask_unmarked(
    asked: &mut Vec<Position>,
    grm: &YaccGrammar<u32>,
    position: &Position,
) -> Result<bool, AllocError>
    ensures { IfOk result (λ b. IsTrue b → Unmarks
        (Contains (positions_of asked.new.items)) (position_of position.now)) }
{
    let Some(mark) = position.ours.mark else {
        return Ok(false);
    };
    let symbols = position.ours.symbols.as_slice();
    let Some(before) = before_last(symbols, mark.place, mark.under) else {
        return Ok(false);
    };
    let symbols = with_symbol(grm.allocator(), before, mark.symbol)?;
    let theirs = Vec::from_slice(grm.allocator(), position.theirs.as_slice())?;
    asked.push(Position {
        turn: position.turn,
        state: position.state,
        theirs,
        ours: Ours {
            symbols,
            mark: None,
        },
    })?;
    Ok(true)
}

/// Adds what is asked by the answer, where that is of our reductions alone; answers whether it can be given.
fn ask_alone(
    asked: &mut Vec<Position>,
    grm: &YaccGrammar<u32>,
    graph: &StateGraph<u32>,
    ways: &Ways<u32>,
    position: &Position,
    answer: Answer,
) -> Result<bool, AllocError>
    requires { AreWaysOf number_of grm.now graph.now ways.now }
    ensures { IfOk result (λ b. IsTrue b → Retreats grm.now graph.now
        (Contains (positions_of asked.new.items)) (position_of position.now)) }
{
    match answer {
        Answer::Own(production) => {
            ask_each(asked, grm, graph, ways, position, Act::We(production))
        }
        Answer::Unmark => ask_unmarked(asked, grm, position),
        Answer::Moves | Answer::Mirror | Answer::Release | Answer::Step | Answer::Read => {
            Ok(false)
        }
    }
}

/// The positions that must be won where the position is by the answer, which is of our reductions alone; None where it can't be
/// given.
pub fn retreating(
    grm: &YaccGrammar<u32>,
    graph: &StateGraph<u32>,
    ways: &Ways<u32>,
    position: &Position,
    answer: Answer,
) -> Result<Option<Vec<Position>>, AllocError>
    requires { AreWaysOf number_of grm.now graph.now ways.now }
    ensures { IfOk result (λ o. IfSome o (λ v. Retreats grm.now graph.now
        (Contains (positions_of v.items)) (position_of position.now))) }
{
    let mut asked = Vec::new(grm.allocator());
    if !ask_alone(&mut asked, grm, graph, ways, position, answer)? {
        return Ok(None);
    }
    Ok(Some(asked))
}
