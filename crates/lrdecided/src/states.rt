//! States before others, and those that have an item.

ghost use Rattle.std.specs.Prelude.{◌≡◌, ◌<◌, false, length, IsTrue, IfOk, OnOk};
ghost use Rattle.lrspec.specs.grammars.ItemSets.{HasItem};
ghost use Rattle.lrspec.specs.merging.Graph.{closed_of, IsGraphOf};
ghost use Rattle.lrsearches.specs.StoredWays.{row_of, AreIncoming};
ghost use Rattle.lrgrammar.specs.Symbols.{number_of};
ghost use Rattle.lrdecided.specs.Moved.{HasBefore, HasWithItem};
ghost use Rattle.lrdecided.specs.StoredNodes.{states_of};
ghost use Rattle.lrdecided.specs.StoredStates.{AreSeen, IsMarked, KeepsStates, HasSources};

use lrgrammar::grammar::YaccGrammar;
use lrgrammar::idx::{PIdx, SIdx, StIdx, Symbol};
use lrgrammar::vob::Vob;
use lrgraphs::stategraph::StateGraph;
use std::alloc::AllocError;

/// Marks the place; answers whether it was not marked, or can't be.
fn mark(seen: &mut Vob, place: usize) -> bool
    ensures size { length seen.new ≡ length seen.old }
    ensures marked { IsMarked seen.old seen.new place result }
{
    if place >= seen.len() {
        return true;
    }
    seen.set(place, true)
}

/// Adds the states from which the edges lead, if they were not seen.
fn add_sources(
    seen: &mut Vob,
    before: &mut Vec<StIdx<u32>>,
    row: &[(Symbol<u32>, StIdx<u32>)],
) -> Result<(), AllocError>
    requires { AreSeen seen.old (states_of before.old.items) }
    ensures size { length seen.new ≡ length seen.old }
    ensures seen { OnOk result (AreSeen seen.new (states_of before.new.items)) }
    ensures kept { OnOk result (KeepsStates (states_of before.old.items)
        (states_of before.new.items)) }
    ensures added { OnOk result (HasSources (row_of number_of row.now)
        (states_of before.new.items)) }
{
    for edge in row {
        if !mark(seen, usize::from(edge.1)) {
            continue;
        }
        before.push(edge.1)?;
    }
    Ok(())
}

/// The states from which edges lead to one of the states, upwards.
pub(crate) fn states_before(
    grm: &YaccGrammar<u32>,
    graph: &StateGraph<u32>,
    incoming: &[Vec<(Symbol<u32>, StIdx<u32>)>],
    states: &[StIdx<u32>],
) -> Result<Vec<StIdx<u32>>, AllocError>
    requires graph { IsGraphOf grm.now graph.now }
    requires incoming { AreIncoming number_of graph.now incoming.now }
    ensures { IfOk result (λ v. HasBefore graph.now (states_of states.now) (states_of v.items)) }
{
    let count = usize::from(graph.all_states_len());
    let mut seen = Vob::from_elem(grm.allocator(), false, count)?;
    let mut before = Vec::new(grm.allocator());
    for state in states {
        let place = usize::from(*state);
        if place >= count {
            continue;
        }
        add_sources(&mut seen, &mut before, incoming[place].as_slice())?;
    }
    before.sort()?;
    Ok(before)
}

/// Whether the closed state of the state has the item.
fn has_item(graph: &StateGraph<u32>, state: StIdx<u32>, item: (PIdx<u32>, SIdx<u32>)) -> bool
    ensures { result ≡ false → ¬ (HasItem (closed_of graph.now state.0) item.0.0 item.1.0) }
{
    if usize::from(state) >= usize::from(graph.all_states_len()) {
        return false;
    }
    match graph.closed_state(state).items.get(&item) {
        Some(_ctx) => true,
        None => false,
    }
}

/// Those of the states whose closed state has the item.
pub(crate) fn states_with_item(
    grm: &YaccGrammar<u32>,
    graph: &StateGraph<u32>,
    states: &[StIdx<u32>],
    item: (PIdx<u32>, SIdx<u32>),
) -> Result<Vec<StIdx<u32>>, AllocError>
    ensures { IfOk result (λ v. HasWithItem graph.now item.0.0 item.1.0
        (states_of states.now) (states_of v.items)) }
{
    let mut kept = Vec::new(grm.allocator());
    for state in states {
        if !has_item(graph, *state, item) {
            continue;
        }
        kept.push(*state)?;
    }
    Ok(kept)
}
