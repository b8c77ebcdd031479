//! State graphs.

ghost use Rattle.std.specs.Prelude.{◌≡◌, ◌<◌, length, map, option_map, sum_by};
ghost use Rattle.std.specs.List.{range_with_len};
ghost use Rattle.lrspec.specs.merging.Graph as math;
ghost use Rattle.lrspec.specs.grammars.ItemSets.{AreUpwards};
ghost use Rattle.lrspec.specs.merging.Graph.{core_of, closed_of, edge};
ghost use Rattle.lrgrammar.specs.Symbols.{symbol_of};
ghost use Rattle.lrgrammar.specs.SymbolLaws.{symbol_cmp};
ghost use Rattle.std.specs.BTreeMap.{get};
ghost use Rattle.lritems.specs.ItemsOf.{set_of};

mod iterators;
mod printing;

use crate::itemset::Itemset;
pub use crate::stategraph::iterators::{ClosedStatesIterator, CoreStatesIterator, StIdxIterator};
use lrgrammar::idx::{IndexStorage, StIdx, Symbol};
use std::collections::BTreeMap;
use std::marker::Model;

/// A state: its core, its closed state, and where its edges lead. For the construction of graphs.
#[derive(Drop)]
pub struct State<T: IndexStorage> {
    /// The core.
    pub core: Itemset<T>,
    /// The closed state.
    pub closed: Itemset<T>,
    /// The state to which the edge on each symbol leads.
    pub edges: BTreeMap<Symbol<T>, StIdx<T>>,
}

impl<T: IndexStorage> State<T> {
    ghost use Rattle.lrspec.specs.merging.Graph.{IsInOrder};
    ghost use Rattle.lrgraphs.specs.GraphOf.{state_of};

    /// What the maps of the state keep: its items come upwards, and no symbol twice. For the construction of graphs.
    pub fn in_order(&self)
        ensures { IsInOrder (state_of T.number self.now) }
    {
        // `len` says of a map that its keys come upwards
        let _ = (
            self.core.items.len(),
            self.closed.items.len(),
            self.edges.len(),
        );
    }
}

/// The LR(1) state graph of a grammar. Its states are numbered from 0, which is the start state; there are fewer than the
/// index type's `MAX`.
#[derive(Drop)]
pub struct StateGraph<T: IndexStorage> {
    states: Vec<State<T>>,
    edges_len: usize,
}

impl<T: IndexStorage> Model for StateGraph<T> {
    ghost use Rattle.std.specs.Prelude.{List};
    ghost use Rattle.lrspec.specs.merging.Graph as math;

    ghost Value = { List math.State };

    ghost use Rattle.lrgraphs.specs.GraphOf.{graph_of, IsStoredGraph};

    ghost view = { λ g. graph_of T.number g.states.items };

    ghost invariant = { λ g. IsStoredGraph T.MAX (graph_of T.number g.states.items) g.edges_len };
}

impl<T: IndexStorage> StateGraph<T> {
    ghost use Rattle.lrgraphs.specs.GraphOf.{graph_of, edges_of, IsStoredGraph};

    /// The graph of these states, which have so many edges. For the construction of graphs.
    pub fn new(states: Vec<State<T>>, edges_len: usize) -> StateGraph<T>
        requires { IsStoredGraph T.MAX (graph_of T.number states.items) edges_len }
        ensures { result ≡ graph_of T.number states.items }
    {
        StateGraph { states, edges_len }
    }

    /// The start state, which is state 0.
    pub fn start_state(&self) -> StIdx<T>
        ensures { T.number result.0 ≡ 0 }
    {
        StIdx(T::from_usize(0).unwrap())
    }

    /// The number of states.
    pub fn all_states_len(&self) -> StIdx<T>
        ensures { T.number result.0 ≡ length self.now }
    {
        StIdx(T::from_usize(self.states.len()).unwrap())
    }

    /// The number of edges.
    pub fn all_edges_len(&self) -> usize
        ensures { result ≡ sum_by (λ s. length s.edges) self.now }
    {
        self.edges_len
    }

    /// The numbers of the states upwards.
    pub fn iter_stidxs(&self) -> StIdxIterator<T>
        ensures { result ≡ range_with_len 0 (length self.now) }
    {
        StIdxIterator::new(self.states.len())
    }

    /// The closed state of the state, which is one of the graph.
    pub fn closed_state(&self, stidx: StIdx<T>) -> &Itemset<T>
        requires { T.number stidx.0 < length self.now }
        ensures items { set_of T.number result.now ≡ closed_of self.now (T.number stidx.0) }
        ensures upwards { AreUpwards (closed_of self.now (T.number stidx.0)) }
    {
        &self.states[usize::from(stidx)].closed
    }

    /// The closed states by number upwards.
    pub fn iter_closed_states(&self) -> ClosedStatesIterator<'_, T>
        ensures { result ≡ map (λ state. state.closed) self.now }
    {
        ClosedStatesIterator::new(self.states.as_slice())
    }

    /// The core of the state, which is one of the graph.
    pub fn core_state(&self, stidx: StIdx<T>) -> &Itemset<T>
        requires { T.number stidx.0 < length self.now }
        ensures items { set_of T.number result.now ≡ core_of self.now (T.number stidx.0) }
        ensures upwards { AreUpwards (core_of self.now (T.number stidx.0)) }
    {
        &self.states[usize::from(stidx)].core
    }

    /// The cores of the states by number upwards.
    pub fn iter_core_states(&self) -> CoreStatesIterator<'_, T>
        ensures { result ≡ map (λ state. state.core) self.now }
    {
        CoreStatesIterator::new(self.states.as_slice())
    }

    /// The state to which the edge of the state on the symbol leads; None where there is no such edge, or no such state.
    pub fn edge(&self, stidx: StIdx<T>, sym: Symbol<T>) -> Option<StIdx<T>>
        ensures { option_map (λ u. T.number u.0) result
            ≡ edge self.now (T.number stidx.0) (symbol_of T.number sym) }
    {
        let state = self.states.get(usize::from(stidx))?;
        find_edge(&state.edges, sym)
    }

    /// The edges of the state, which is one of the graph: to which state each leads, by symbol. Rules come before tokens, each by
    /// number.
    pub fn edges(&self, stidx: StIdx<T>) -> &BTreeMap<Symbol<T>, StIdx<T>>
        requires { T.number stidx.0 < length self.now }
        ensures edges { edges_of T.number (λ u. T.number u.0) result.now.entries
            ≡ math.edges_of self.now (T.number stidx.0) }
        ensures order { (a b : Symbol T) → ⟦<Symbol<T> as Ord>⟧.cmp a b ≡ symbol_cmp T.number a b }
    {
        &self.states[usize::from(stidx)].edges
    }
}

/// Where the edge on the symbol leads, if there is one.
fn find_edge<T: IndexStorage>(
    edges: &BTreeMap<Symbol<T>, StIdx<T>>,
    sym: Symbol<T>,
) -> Option<StIdx<T>>
    ensures found { result ≡ get ⟦<Symbol<T> as Ord>⟧.cmp edges.now sym }
    ensures order { (a b : Symbol T) → ⟦<Symbol<T> as Ord>⟧.cmp a b ≡ symbol_cmp T.number a b }
{
    edges.get(&sym).copied()
}
