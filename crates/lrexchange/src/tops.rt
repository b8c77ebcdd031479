//! Where stacks lead, and what can be done on top of them.

ghost use Rattle.std.specs.Prelude.{◌≡◌, ◌≢◌, ◌<◌, length, map, option_map, false, Contains, IfOk, IsTrue, OnOk};
ghost use Rattle.lrspec.specs.grammars.Grammar.{body_of};
ghost use Rattle.lrbits.specs.Bits.{bit};
ghost use Rattle.lrexchange.specs.Asked.{EndsIn, HasReductionsOn, HasEachOpen};
ghost use Rattle.lrexchange.specs.StoredPositions.{symbols_of, position_of, positions_of};

use crate::positions::{Position, Turn};
use lrgrammar::grammar::YaccGrammar;
use lrgrammar::idx::{PIdx, SIdx, StIdx, Symbol, TIdx};
use lrgraphs::stategraph::StateGraph;
use lritems::itemset::Ctx;
use std::alloc::AllocError;

/// The state to which the edges on the symbols lead, if they are there.
pub(crate) fn end_of(
    graph: &StateGraph<u32>,
    from: StIdx<u32>,
    symbols: &[Symbol<u32>],
) -> Option<StIdx<u32>>
    ensures { EndsIn graph.now from.0 (symbols_of symbols.now) (option_map (λ u. u.0) result) }
{
    let mut state = from;
    for symbol in symbols {
        let Some(next) = graph.edge(state, *symbol) else {
            return None;
        };
        state = next;
    }
    Some(state)
}

/// Whether the item may be complete, of a production but the start production, and look at the token.
fn may_reduce(
    grm: &YaccGrammar<u32>,
    item: (PIdx<u32>, SIdx<u32>),
    tokens: &Ctx,
    token: TIdx<u32>,
) -> bool
    ensures { result ≡ false → item.1.0 ≡ length (body_of grm.now item.0.0) → item.0.0
        ≢ grm.now.start_production → ¬ (IsTrue (bit tokens.now token.0)) }
{
    let production = usize::from(item.0);
    if production >= usize::from(grm.prods_len()) {
        return true;
    }
    let place = usize::from(token);
    usize::from(item.1) == usize::from(grm.prod_len(item.0))
        && production != usize::from(grm.start_prod())
        && place < tokens.len()
        && tokens.get(place)
}

/// The productions, but the start production, whose complete items in the state look at the token.
pub(crate) fn reductions_on(
    grm: &YaccGrammar<u32>,
    graph: &StateGraph<u32>,
    state: StIdx<u32>,
    token: TIdx<u32>,
) -> Result<Vec<PIdx<u32>>, AllocError>
    requires { state.0 < length graph.now }
    ensures { IfOk result (λ v. HasReductionsOn grm.now graph.now state.0
        token.0 (map (λ p. p.0) v.items)) }
{
    let mut productions = Vec::new(grm.allocator());
    for (key, tokens) in &graph.closed_state(state).items {
        if !may_reduce(grm, *key, tokens, token) {
            continue;
        }
        productions.push(key.0)?;
    }
    Ok(productions)
}

/// Adds the position with each item of the core of the state open.
pub(crate) fn ask_open(
    asked: &mut Vec<Position>,
    grm: &YaccGrammar<u32>,
    graph: &StateGraph<u32>,
    position: &Position,
    state: StIdx<u32>,
) -> Result<(), AllocError>
    requires { state.0 < length graph.now }
    ensures { OnOk result (HasEachOpen graph.now state.0
        (position_of position.now) (positions_of asked.new.items)) }
{
    for (key, _) in &graph.core_state(state).items {
        let open = position.with_turn(grm.allocator(), Turn::Open(key.0, key.1))?;
        asked.push(open)?;
    }
    Ok(())
}
