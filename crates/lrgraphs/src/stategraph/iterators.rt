//! The states of a graph, one after another.

ghost use Rattle.std.specs.Prelude.{◌≡◌, ℕ, ◌-◌, ◌≤◌, List, map};
ghost use Rattle.std.specs.List.{range_with_len};
ghost use Rattle.std.specs.Iterator.{YieldsFirstBy, item_count};
ghost use Rattle.lrspec.specs.grammars.ItemSets.{Items};
ghost use Rattle.lritems.specs.ItemsOf.{set_of};
ghost use Rattle.lrgraphs.specs.GraphOf.{graph_of};

use crate::itemset::Itemset;
use crate::stategraph::State;
use lrgrammar::idx::{IndexStorage, StIdx};
use std::marker::{Model, PhantomData};

/// The numbers of states upwards. It gives each once, and then none.
#[derive(Drop)]
pub struct StIdxIterator<T: IndexStorage> {
    at: usize,
    end: usize,
    phantom: PhantomData<T>,
}

impl<T: IndexStorage> Model for StIdxIterator<T> {
    ghost Value = { List ℕ };

    ghost view = { λ s. range_with_len s.at (s.end - s.at) };

    ghost invariant = { λ s. (s.at ≤ s.end) × (s.end ≤ T.MAX) };
}

impl<T: IndexStorage> StIdxIterator<T> {
    /// The numbers from 0 up to `end`, without it.
    pub(crate) fn new(end: usize) -> StIdxIterator<T>
        requires { end ≤ T.MAX }
        ensures { result ≡ range_with_len 0 end }
    {
        StIdxIterator {
            at: 0,
            end,
            phantom: PhantomData,
        }
    }
}

impl<T: IndexStorage> Iterator for StIdxIterator<T> {
    type Item = StIdx<T>;

    ghost next_gives = { YieldsFirstBy (λ i. T.number i.0) (λ s. s) };

    ghost remaining = { item_count (λ s. s) };

    fn next(&mut self) -> Option<StIdx<T>> {
        if self.at < self.end {
            let stidx = StIdx(T::from_usize(self.at).unwrap());
            self.at += 1;
            Some(stidx)
        } else {
            None
        }
    }
}

/// The cores of states, by number upwards. It gives each once, and then none.
#[derive(Drop)]
pub struct CoreStatesIterator<'a, T: IndexStorage> {
    states: &'a [State<T>],
}

impl<'a, T: IndexStorage> Model for CoreStatesIterator<'a, T> {
    ghost Value = { List Items };

    ghost view = { λ s. map (λ state. state.core) (graph_of T.number s.states.now) };
}

impl<'a, T: IndexStorage> CoreStatesIterator<'a, T> {
    /// The cores of these states.
    pub(crate) fn new(states: &'a [State<T>]) -> CoreStatesIterator<'a, T>
        ensures { result ≡ map (λ state. state.core) (graph_of T.number states.now) }
    {
        CoreStatesIterator { states }
    }
}

impl<'a, T: IndexStorage> Iterator for CoreStatesIterator<'a, T> {
    type Item = &'a Itemset<T>;

    ghost next_gives = { YieldsFirstBy (λ core. set_of T.number core.now) (λ s. s) };

    ghost remaining = { item_count (λ s. s) };

    fn next(&mut self) -> Option<&'a Itemset<T>> {
        let (state, states) = self.states.split_first()?;
        self.states = states;
        Some(&state.core)
    }
}

/// The closed states of states, by number upwards. It gives each once, and then none.
#[derive(Drop)]
pub struct ClosedStatesIterator<'a, T: IndexStorage> {
    states: &'a [State<T>],
}

impl<'a, T: IndexStorage> Model for ClosedStatesIterator<'a, T> {
    ghost Value = { List Items };

    ghost view = { λ s. map (λ state. state.closed) (graph_of T.number s.states.now) };
}

impl<'a, T: IndexStorage> ClosedStatesIterator<'a, T> {
    /// The closed states of these states.
    pub(crate) fn new(states: &'a [State<T>]) -> ClosedStatesIterator<'a, T>
        ensures { result ≡ map (λ state. state.closed) (graph_of T.number states.now) }
    {
        ClosedStatesIterator { states }
    }
}

impl<'a, T: IndexStorage> Iterator for ClosedStatesIterator<'a, T> {
    type Item = &'a Itemset<T>;

    ghost next_gives = { YieldsFirstBy (λ closed. set_of T.number closed.now) (λ s. s) };

    ghost remaining = { item_count (λ s. s) };

    fn next(&mut self) -> Option<&'a Itemset<T>> {
        let (state, states) = self.states.split_first()?;
        self.states = states;
        Some(&state.closed)
    }
}
