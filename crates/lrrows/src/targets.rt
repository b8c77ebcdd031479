//! Where the edges of a state lead, by the places of their symbols.

ghost use Rattle.std.specs.Prelude.{◌≡◌, map, IfOk};
ghost use Rattle.std.specs.List.{range_with_len};
ghost use Rattle.lrspec.specs.grammars.Grammar as math;
ghost use Rattle.lrspec.specs.merging.Graph.{edge};
ghost use Rattle.lrrows.specs.StoredLists.{targets_of};

use crate::places::fill;
use lrgrammar::grammar::YaccGrammar;
use lrgrammar::idx::{IndexStorage, StIdx, Symbol};
use lrgraphs::stategraph::StateGraph;
use std::alloc::AllocError;

/// The states to which the edges of the state on tokens lead, by token; none where there is no such state.
pub(crate) fn token_targets<T: IndexStorage>(
    grm: &YaccGrammar<T>,
    sg: &StateGraph<T>,
    stidx: StIdx<T>,
) -> Result<Vec<Option<StIdx<T>>>, AllocError>
    ensures { IfOk result (λ v. targets_of T.number v.items
        ≡ map (λ t. edge sg.now (T.number stidx.0) (math.Token t))
        (range_with_len 0 (math.token_count grm.now))) }
{
    let mut targets = vec![in grm.allocator(); None; usize::from(grm.tokens_len())]?;
    if usize::from(stidx) < usize::from(sg.all_states_len()) {
        for (symbol, target) in sg.edges(stidx) {
            if let Symbol::Token(tidx) = symbol {
                fill(targets.as_mut_slice(), usize::from(*tidx), *target);
            }
        }
    }
    Ok(targets)
}
