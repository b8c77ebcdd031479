//! Shortest ways to the states of a graph along edges that can be used: Dijkstra's algorithm (1959).

use crate::edges::Edges;
use crate::rules::{START, empty_lists};
use lrgrammar::idx::{StIdx, Symbol};
use std::alloc::{AllocError, Global};
use std::cmp::Reverse;
use std::collections::BinaryHeap;

/// How long a way is: first the tokens of a text along it, and then its edges.
type Length = (usize, usize);

/// The last edge on a shortest way to a state.
#[derive(Clone, Copy)]
struct Arrival {
    from: StIdx<u32>,
    length: Length,
}

/// Shortest ways to the states of a graph.
#[derive(Drop)]
pub(crate) struct Ways {
    /// For each state on which symbol edges lead to it, if there are any.
    symbols: Vec<Option<Symbol<u32>>>,
    /// For each state the states upwards from which an edge that can be used leads to it.
    before: Vec<Vec<StIdx<u32>>>,
    /// How shortest ways come to states; to the start state none does.
    arrivals: Vec<Option<Arrival>>,
}

impl Ways {
    /// Those along these edges.
    pub(crate) fn new(alloc: Global, edges: &Edges) -> Result<Ways, AllocError> {
        let len = edges.states_len();
        let mut ways = Ways {
            symbols: Vec::from_elem(alloc, None, len)?,
            before: empty_lists(alloc, len)?,
            arrivals: Vec::from_elem(alloc, None, len)?,
        };
        for number in 0..len {
            if let Ok(number) = u32::try_from(number) {
                ways.add_edges(edges, StIdx(number))?;
            }
        }
        ways.find(alloc, edges)?;
        Ok(ways)
    }

    /// Tells the states to which edges of this one lead.
    fn add_edges(&mut self, edges: &Edges, state: StIdx<u32>) -> Result<(), AllocError> {
        for edge in edges.of(state) {
            let to = usize::from(edge.to);
            if let Some(symbol) = self.symbols.get_mut(to) {
                *symbol = Some(edge.symbol);
            }
            if let (Some(before), true) = (self.before.get_mut(to), edge.along.is_some()) {
                before.push(state)?;
            }
        }
        Ok(())
    }

    /// Finds the ways.
    fn find(&mut self, alloc: Global, edges: &Edges) -> Result<(), AllocError> {
        let mut queue = BinaryHeap::new(alloc);
        queue.push(Reverse(((0, 0), START)))?;
        // each edge brings a state into the queue once at most
        for _ in 0..=edges.len() {
            let Some(Reverse((length, state))) = queue.pop() else {
                break;
            };
            if self.length(state) == Some(length) {
                self.go_on(&mut queue, edges, state, length)?;
            }
        }
        Ok(())
    }

    /// Goes on from a state, to which a shortest way is so long.
    fn go_on(
        &mut self,
        queue: &mut BinaryHeap<Reverse<(Length, StIdx<u32>)>>,
        edges: &Edges,
        state: StIdx<u32>,
        length: Length,
    ) -> Result<(), AllocError> {
        for edge in edges.of(state) {
            let Some(along) = edge.along else {
                continue;
            };
            let (tokens, edges) = length;
            let length = (tokens.saturating_add(along.tokens), edges.saturating_add(1));
            if self.is_shorter(edge.to, length) {
                if let Some(arrival) = self.arrivals.get_mut(usize::from(edge.to)) {
                    *arrival = Some(Arrival {
                        from: state,
                        length,
                    });
                    queue.push(Reverse((length, edge.to)))?;
                }
            }
        }
        Ok(())
    }

    /// Whether that is shorter than each way to the state so far.
    fn is_shorter(&self, state: StIdx<u32>, length: Length) -> bool {
        match self.length(state) {
            Some(least) => length < least,
            None => true,
        }
    }

    /// How a shortest way comes to the state.
    fn arrival(&self, state: StIdx<u32>) -> Option<Arrival> {
        self.arrivals.get(usize::from(state)).copied().flatten()
    }

    /// How long a shortest way to the state is; None where there is none so far.
    fn length(&self, state: StIdx<u32>) -> Option<Length> {
        if state == START {
            return Some((0, 0));
        }
        Some(self.arrival(state)?.length)
    }

    /// How many tokens a shortest text to the state has; more than any where no way leads to it.
    pub(crate) fn tokens(&self, state: StIdx<u32>) -> usize {
        match self.length(state) {
            Some((tokens, _)) => tokens,
            None => usize::MAX,
        }
    }

    /// On which symbol edges lead to the state.
    pub(crate) fn symbol(&self, state: StIdx<u32>) -> Option<Symbol<u32>> {
        self.symbols.get(usize::from(state)).copied().flatten()
    }

    /// The states upwards from which an edge that can be used leads to the state.
    pub(crate) fn before(&self, state: StIdx<u32>) -> &[StIdx<u32>] {
        match self.before.get(usize::from(state)) {
            Some(before) => before.as_slice(),
            None => &[],
        }
    }

    /// The symbols of a shortest way to the state; None where there is none.
    pub(crate) fn list_to(
        &self,
        alloc: Global,
        state: StIdx<u32>,
    ) -> Result<Option<Vec<Symbol<u32>>>, AllocError> {
        let mut list = Vec::new(alloc);
        let mut last = state;
        for _ in 0..=self.arrivals.len() {
            if last == START {
                list.as_mut_slice().reverse();
                return Ok(Some(list));
            }
            let (Some(arrival), Some(symbol)) = (self.arrival(last), self.symbol(last)) else {
                break;
            };
            list.push(symbol)?;
            last = arrival.from;
        }
        Ok(None)
    }
}
