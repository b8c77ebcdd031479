//! What all searches over a graph share.

ghost use Rattle.std.specs.Prelude.{◌≡◌, ◌<◌, length, All, IfOk, OnOk};
ghost use Rattle.lrspec.specs.merging.Graph.{IsGraphOf};
ghost use Rattle.lrsearches.specs.StoredWays.{AreIncoming, AreFingerprints, AreWaysOf, LeadsBelow, AddsEdgesOf};

use crate::rows::empty_rows;
use crate::uses::uses;
use lrgrammar::firsts::YaccFirsts;
use lrgrammar::grammar::YaccGrammar;
use lrgrammar::idx::{IndexStorage, PIdx, SIdx, StIdx, Symbol};
use lrgraphs::stategraph::StateGraph;
use lritems::fingerprints::itemset_fingerprint;
use std::alloc::AllocError;

/// What is made once of a grammar and its graph: its FIRST sets, the items before each rule, the edges into each state, how far
/// each state is from the start state, and what tells cores apart.
#[derive(Drop)]
pub struct Ways<T: IndexStorage> {
    /// The FIRST sets.
    pub firsts: YaccFirsts<T>,
    /// For each rule the items that stand before it, upwards.
    pub uses: Vec<Vec<(PIdx<T>, SIdx<T>)>>,
    /// For each state the edges that lead into it: the symbol of each, and from where it leads.
    pub incoming: Vec<Vec<(Symbol<T>, StIdx<T>)>>,
    /// For each state the length of a shortest list that leads there.
    pub distances: Vec<Option<usize>>,
    /// For each state the fingerprint of its core: the same for cores with the same items.
    pub fingerprints: Vec<u64>,
}

impl<T: IndexStorage> Ways<T> {
    /// Those of the grammar and its graph.
    pub fn new(grm: &YaccGrammar<T>, graph: &StateGraph<T>) -> Result<Ways<T>, AllocError>
        requires { IsGraphOf grm.now graph.now }
        ensures { IfOk result (AreWaysOf T.number grm.now graph.now) }
    {
        Ok(Ways {
            firsts: grm.firsts()?,
            uses: uses(grm)?,
            incoming: incoming(grm, graph)?,
            distances: distances(grm, graph)?,
            fingerprints: fingerprints(grm, graph)?,
        })
    }
}

/// Adds the edges of the state to those that lead into each state.
fn add_edges<T: IndexStorage>(
    incoming: &mut Vec<Vec<(Symbol<T>, StIdx<T>)>>,
    graph: &StateGraph<T>,
    stidx: StIdx<T>,
) -> Result<(), AllocError>
    requires below { LeadsBelow graph.now (T.number stidx.0) }
    requires states { length incoming.old.items ≡ length graph.now }
    requires state { T.number stidx.0 < length graph.now }
    ensures { OnOk result (AddsEdgesOf T.number graph.now (T.number stidx.0)
        incoming.old.items incoming.new.items) }
{
    for (symbol, target) in graph.edges(stidx) {
        incoming[usize::from(*target)].push((*symbol, stidx))?;
    }
    Ok(())
}

/// For each state the edges that lead into it.
fn incoming<T: IndexStorage>(
    grm: &YaccGrammar<T>,
    graph: &StateGraph<T>,
) -> Result<Vec<Vec<(Symbol<T>, StIdx<T>)>>, AllocError>
    requires { IsGraphOf grm.now graph.now }
    ensures { IfOk result (λ v. AreIncoming T.number graph.now v.items) }
{
    let states = graph.all_states_len().0.to_usize();
    let mut incoming = empty_rows(grm.allocator(), states)?;
    for state in 0..states {
        add_edges(&mut incoming, graph, StIdx(T::from_usize(state).unwrap()))?;
    }
    Ok(incoming)
}

/// Gives each state at the end of an edge of the state its distance, if it has none, and adds it to those that have one.
fn add_targets<T: IndexStorage>(
    reached: &mut Vec<(StIdx<T>, usize)>,
    distances: &mut Vec<Option<usize>>,
    graph: &StateGraph<T>,
    from: (StIdx<T>, usize),
) -> Result<(), AllocError>
    requires below { LeadsBelow graph.now (T.number from.0.0) }
    requires states { length distances.old.items ≡ length graph.now }
    requires state { T.number from.0.0 < length graph.now }
    requires within { All (λ e. T.number e.0.0 < length graph.now) reached.old.items }
    ensures states { length distances.new.items ≡ length distances.old.items }
    ensures within { OnOk result (All (λ e. T.number e.0.0 < length graph.now) reached.new.items) }
{
    let distance = from.1.saturating_add(1);
    for (_, target) in graph.edges(from.0) {
        let place = usize::from(*target);
        if distances[place].is_none() {
            distances[place] = Some(distance);
            reached.push((*target, distance))?;
        }
    }
    Ok(())
}

/// For each state the length of a shortest list that leads there.
fn distances<T: IndexStorage>(
    grm: &YaccGrammar<T>,
    graph: &StateGraph<T>,
) -> Result<Vec<Option<usize>>, AllocError>
    requires { IsGraphOf grm.now graph.now }
    ensures { IfOk result (λ v. length v.items ≡ length graph.now) }
{
    let states = usize::from(graph.all_states_len());
    let mut distances: Vec<Option<usize>> = vec![in grm.allocator(); None; states]?;
    let mut reached = Vec::new(grm.allocator());
    distances[0] = Some(0);
    reached.push((graph.start_state(), 0))?;
    for turn in 0..states {
        if turn >= reached.len() {
            break;
        }
        let from = reached[turn];
        add_targets(&mut reached, &mut distances, graph, from)?;
    }
    Ok(distances)
}

/// For each state the fingerprint of its core.
fn fingerprints<T: IndexStorage>(
    grm: &YaccGrammar<T>,
    graph: &StateGraph<T>,
) -> Result<Vec<u64>, AllocError>
    requires { IsGraphOf grm.now graph.now }
    ensures { IfOk result (λ v. AreFingerprints graph.now v.items) }
{
    let mut fingerprints = Vec::new(grm.allocator());
    for number in 0..graph.all_states_len().0.to_usize() {
        let state = StIdx(T::from_usize(number).unwrap());
        fingerprints.push(itemset_fingerprint(graph.core_state(state)))?;
    }
    Ok(fingerprints)
}
