//! The steps of a search.

ghost use Rattle.std.specs.Prelude.{◌≡◌, ◌<◌, length, map, IsTrue, IfOk, ◌↔◌};
ghost use Rattle.lrspec.specs.grammars.Grammar as math;
ghost use Rattle.lrspec.specs.merging.Graph.{IsGraphOf};
ghost use Rattle.lrsearches.specs.Searches.{IsGoal, IsSettled, AreLooking, AreStepsOf};
ghost use Rattle.lrsearches.specs.StoredPlaces.{place_of, need_of, steps_of, step_with};
ghost use Rattle.lrsearches.specs.StoredWays.{AreWaysOf, IsRowOf, row_of};

use crate::closes::{closable, closes, is_looking, is_met_at_start, moved_back};
use crate::places::{Candidate, Need, Place, Step};
use crate::ways::Ways;
use lrgrammar::grammar::YaccGrammar;
use lrgrammar::idx::{IndexStorage, StIdx, Symbol, TIdx};
use lrgraphs::stategraph::StateGraph;
use std::alloc::{AllocError, Global};

/// Whether the empty list serves the place.
pub(crate) fn is_goal<T: IndexStorage>(
    grm: &YaccGrammar<T>,
    place: &Place<T>,
    token: TIdx<T>,
) -> bool
    ensures { IsTrue result ↔ IsGoal grm.now (T.number token.0) (place_of T.number place.now) }
{
    usize::from(place.state) == 0
        && is_met_at_start(grm, place.first, token)
        && is_met_at_start(grm, place.second, token)
}

/// Whether what is needed for both candidates looks at the token in the state.
pub fn are_looking<T: IndexStorage>(
    grm: &YaccGrammar<T>,
    graph: &StateGraph<T>,
    place: &Place<T>,
    token: TIdx<T>,
) -> bool
    requires graph { IsGraphOf grm.now graph.now }
    requires state { T.number place.now.state.0 < length graph.now }
    requires token { T.number token.0 < math.token_count grm.now }
    ensures { IsTrue result
        ↔ AreLooking graph.now (T.number token.0) (place_of T.number place.now) }
{
    let closed = graph.closed_state(place.state);
    is_looking(grm, closed, place.first, token) && is_looking(grm, closed, place.second, token)
}

/// The steps to these needs for the candidate.
fn with_needs<T: IndexStorage>(
    alloc: Global,
    place: &Place<T>,
    candidate: Candidate,
    needs: &[Need<T>],
) -> Result<Vec<Step<T>>, AllocError>
    ensures { IfOk result
        (λ v. v.items ≡ map (λ z. step_with place.now candidate z) needs.now) }
{
    needs
        .iter()
        .map(|need| Step {
            symbol: None,
            place: place.with(candidate, *need),
        })
        .collect(alloc)
}

/// The steps back over the edges that lead into the state of the place.
fn backs<T: IndexStorage>(
    grm: &YaccGrammar<T>,
    graph: &StateGraph<T>,
    incoming: &[(Symbol<T>, StIdx<T>)],
    place: &Place<T>,
    token: TIdx<T>,
) -> Result<Vec<Step<T>>, AllocError>
    requires graph { IsGraphOf grm.now graph.now }
    requires row { IsRowOf graph.now (T.number place.now.state.0) (row_of T.number incoming.now) }
    requires first { IsSettled grm.now (need_of T.number place.now.first) }
    requires second { IsSettled grm.now (need_of T.number place.now.second) }
    requires token { T.number token.0 < math.token_count grm.now }
    ensures { IfOk result (λ v. AreStepsOf grm.now graph.now (T.number token.0)
        (place_of T.number place.now) (steps_of T.number v.items)) }
{
    let mut steps = Vec::new(grm.allocator());
    let Some(first) = moved_back(place.first) else {
        return Ok(steps);
    };
    let Some(second) = moved_back(place.second) else {
        return Ok(steps);
    };
    for edge in incoming {
        let place = Place {
            state: edge.1,
            first,
            second,
        };
        if are_looking(grm, graph, &place, token) {
            steps.push(Step {
                symbol: Some(edge.0),
                place,
            })?;
        }
    }
    Ok(steps)
}

/// The steps of a search from the place: the first candidate is closed before the second, and both before it goes back.
pub(crate) fn steps<T: IndexStorage>(
    grm: &YaccGrammar<T>,
    graph: &StateGraph<T>,
    ways: &Ways<T>,
    place: &Place<T>,
    token: TIdx<T>,
) -> Result<Vec<Step<T>>, AllocError>
    requires graph { IsGraphOf grm.now graph.now }
    requires ways { AreWaysOf T.number grm.now graph.now ways.now }
    requires state { T.number place.now.state.0 < length graph.now }
    requires looking { AreLooking graph.now (T.number token.0) (place_of T.number place.now) }
    requires token { T.number token.0 < math.token_count grm.now }
    ensures { IfOk result (λ v. AreStepsOf grm.now graph.now (T.number token.0)
        (place_of T.number place.now) (steps_of T.number v.items)) }
{
    let closed = graph.closed_state(place.state);
    let uses = ways.uses.as_slice();
    if let Some(pidx) = closable(grm, place.first) {
        let needs = closes(grm, &ways.firsts, uses, closed, pidx, token)?;
        return with_needs(grm.allocator(), place, Candidate::First, needs.as_slice());
    }
    if let Some(pidx) = closable(grm, place.second) {
        let needs = closes(grm, &ways.firsts, uses, closed, pidx, token)?;
        return with_needs(grm.allocator(), place, Candidate::Second, needs.as_slice());
    }
    let incoming = ways.incoming[usize::from(place.state)].as_slice();
    backs(grm, graph, incoming, place, token)
}
