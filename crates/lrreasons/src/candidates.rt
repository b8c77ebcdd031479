//! The candidates of a cell, two by two.

ghost use Rattle.std.specs.Prelude.{◌<◌, length};

use lrconflicts::Conflict;
use lrgrammar::grammar::YaccGrammar;
use lrgrammar::idx::{PIdx, SIdx, Symbol, TIdx};
use lrtable::StateGraph;
use lrtable::itemset::{Ctx, Itemset};
use std::alloc::{AllocError, Global};

/// How many pairs of candidates of a cell there are at the most: all those of six candidates.
const MOST_PAIRS: usize = 15;

/// Two candidates of a cell: a reduction, and another one, or to shift.
pub(crate) type Pair = (PIdx<u32>, Option<PIdx<u32>>);

/// Whether the item stands before the token.
fn is_before(grm: &YaccGrammar<u32>, item: (PIdx<u32>, SIdx<u32>), token: TIdx<u32>) -> bool {
    let (production, dot) = item;
    usize::from(production) < usize::from(grm.prods_len())
        && grm.prod(production).get(usize::from(dot)).copied() == Some(Symbol::Token(token))
}

/// Whether one of the items stands before the token.
fn can_shift(grm: &YaccGrammar<u32>, closed: &Itemset<u32>, token: TIdx<u32>) -> bool {
    for key in closed.items.keys() {
        if is_before(grm, *key, token) {
            return true;
        }
    }
    false
}

/// Whether the item is complete, of another production than the start production, and looks at the token.
fn reduces(
    grm: &YaccGrammar<u32>,
    item: (PIdx<u32>, SIdx<u32>),
    ctx: &Ctx,
    token: TIdx<u32>,
) -> bool {
    let (production, dot) = item;
    usize::from(production) < usize::from(grm.prods_len())
        && production != grm.start_prod()
        && dot == grm.prod_len(production)
        && usize::from(token) < ctx.len()
        && ctx.get(usize::from(token))
}

/// The productions by which a closed state can reduce on the token.
fn reductions(
    grm: &YaccGrammar<u32>,
    closed: &Itemset<u32>,
    token: TIdx<u32>,
) -> Result<Vec<PIdx<u32>>, AllocError> {
    let mut reductions = Vec::new(grm.allocator());
    for (key, ctx) in &closed.items {
        if reduces(grm, *key, ctx, token) {
            reductions.push(key.0)?;
        }
    }
    Ok(reductions)
}

/// Adds the pairs of a reduction with those behind it, and with the shift where there is one, as long as there are few.
fn add_pairs(
    pairs: &mut Vec<Pair>,
    own: Pair,
    reduction: PIdx<u32>,
    behind: &[PIdx<u32>],
    shifts: bool,
) -> Result<(), AllocError> {
    if shifts && pairs.len() < MOST_PAIRS && own != (reduction, None) {
        pairs.push((reduction, None))?;
    }
    let more = MOST_PAIRS.saturating_sub(pairs.len());
    for other in behind.iter().take(more) {
        if own != (reduction, Some(*other)) {
            pairs.push((reduction, Some(*other)))?;
        }
    }
    Ok(())
}

/// The pairs of candidates of the conflict's cell, its own first: all of them, where there are few. The state is one of the graph.
pub(crate) fn pairs(
    alloc: Global,
    grm: &YaccGrammar<u32>,
    graph: &StateGraph<u32>,
    conflict: &Conflict<u32>,
) -> Result<Vec<Pair>, AllocError>
    requires { conflict.now.state.0 < length graph.now }
{
    let own = (conflict.production, conflict.other);
    let mut pairs = Vec::new(alloc);
    pairs.push(own)?;
    let closed = graph.closed_state(conflict.state);
    let shifts = can_shift(grm, closed, conflict.token);
    let reductions = reductions(grm, closed, conflict.token)?;
    for (place, reduction) in reductions.iter().enumerate().take(MOST_PAIRS) {
        if let Some((_, behind)) = reductions.get(place..).and_then(|rest| rest.split_first()) {
            add_pairs(&mut pairs, own, *reduction, behind, shifts)?;
        }
    }
    Ok(pairs)
}
