//! What is asked of a state graph.

use crate::items::Item;
use crate::rules::Rules;
use lrgrammar::idx::{RIdx, StIdx, Symbol};
use lrgraphs::StateGraph;
use lritems::itemset::Itemset;
use std::alloc::{AllocError, Global};
use std::collections::BTreeMap;

/// The start state.
pub(crate) const START: StIdx<u32> = StIdx(0);

/// An item of a closed state before a rule, by its place among all items before that rule.
#[derive(Clone, Copy, PartialEq, Eq, PartialOrd, Ord)]
pub(crate) struct Caller {
    rule: RIdx<u32>,
    pub(crate) place: usize,
}

/// The last edge on a shortest way from the start state.
#[derive(Clone, Copy)]
struct Arrival {
    from: StIdx<u32>,
    symbol: Symbol<u32>,
    length: usize,
}

/// A shortest way from the start state: its states, the start state first, and the symbols between them.
#[derive(Drop)]
pub(crate) struct Way {
    pub(crate) states: Vec<StIdx<u32>>,
    pub(crate) symbols: Vec<Symbol<u32>>,
}

/// What is asked of a state graph.
#[derive(Drop)]
pub(crate) struct States {
    /// For each state the states upwards from which an edge leads to it.
    before: Vec<Vec<StIdx<u32>>>,
    /// For each state its items before rules, upwards by rule.
    callers: Vec<Vec<Caller>>,
    /// How shortest ways come to the states; none leads to the start state.
    arrivals: Vec<Option<Arrival>>,
    /// For each state the number of the states that have the same items in their cores.
    cores: Vec<usize>,
    /// By that number, these states.
    alike: Vec<Vec<StIdx<u32>>>,
}

/// The items of a set, upwards.
fn items_of(alloc: Global, set: &Itemset<u32>) -> Result<Vec<Item>, AllocError> {
    let mut items = Vec::new(alloc);
    for key in set.items.keys() {
        items.push(Item::of(*key))?;
    }
    Ok(items)
}

/// The edges of a state; None where there is no such state.
fn edges_of(
    graph: &StateGraph<u32>,
    state: StIdx<u32>,
) -> Option<&BTreeMap<Symbol<u32>, StIdx<u32>>> {
    if usize::from(state) < usize::from(graph.all_states_len()) {
        Some(graph.edges(state))
    } else {
        None
    }
}

impl States {
    /// Of the states of a graph of the grammar.
    pub(crate) fn new(
        alloc: Global,
        rules: &Rules,
        graph: &StateGraph<u32>,
    ) -> Result<States, AllocError> {
        let len = usize::from(graph.all_states_len());
        let mut states = States {
            before: Vec::new(alloc),
            callers: Vec::new(alloc),
            arrivals: Vec::from_elem(alloc, None, len)?,
            cores: Vec::new(alloc),
            alike: Vec::new(alloc),
        };
        states.before.resize_with(len, || Vec::new(alloc))?;
        states.add_edges(graph)?;
        for set in graph.iter_closed_states() {
            states.add_callers(rules, set)?;
        }
        states.add_cores(alloc, graph)?;
        states.find_ways(alloc, graph)?;
        Ok(states)
    }

    /// Tells states to which edges lead from where these come.
    fn add_edges(&mut self, graph: &StateGraph<u32>) -> Result<(), AllocError> {
        for state in graph.iter_stidxs() {
            if let Some(edges) = edges_of(graph, state) {
                self.add_edges_from(state, edges)?;
            }
        }
        Ok(())
    }

    /// Tells the states to which edges of this one lead.
    fn add_edges_from(
        &mut self,
        from: StIdx<u32>,
        edges: &BTreeMap<Symbol<u32>, StIdx<u32>>,
    ) -> Result<(), AllocError> {
        for (_symbol, to) in edges {
            if let Some(before) = self.before.get_mut(usize::from(*to)) {
                before.push(from)?;
            }
        }
        Ok(())
    }

    /// Adds the items before rules of the next state, of which this is the closed set.
    fn add_callers(&mut self, rules: &Rules, set: &Itemset<u32>) -> Result<(), AllocError> {
        let mut callers = Vec::new(*self.callers.allocator());
        for key in set.items.keys() {
            let item = Item::of(*key);
            if let Some(Symbol::Rule(rule)) = rules.symbol(item) {
                if let Ok(place) = rules.uses(Symbol::Rule(rule)).binary_search(&item) {
                    callers.push(Caller { rule, place })?;
                }
            }
        }
        callers.sort_unstable();
        self.callers.push(callers)?;
        Ok(())
    }

    /// Finds out which states are alike.
    fn add_cores(&mut self, alloc: Global, graph: &StateGraph<u32>) -> Result<(), AllocError> {
        let mut numbers = BTreeMap::new(alloc);
        for core in graph.iter_core_states() {
            let core = items_of(alloc, core)?;
            let number = match numbers.get(core.as_slice()) {
                Some(number) => *number,
                None => {
                    let number = numbers.len();
                    numbers.insert(core, number)?;
                    self.alike.push(Vec::new(alloc))?;
                    number
                }
            };
            self.add_alike(number)?;
        }
        Ok(())
    }

    /// Adds the next state to those with this number.
    fn add_alike(&mut self, number: usize) -> Result<(), AllocError> {
        let state = self.cores.len();
        self.cores.push(number)?;
        if let (Ok(state), Some(alike)) = (u32::try_from(state), self.alike.get_mut(number)) {
            alike.push(StIdx(state))?;
        }
        Ok(())
    }

    /// Finds shortest ways to all states.
    fn find_ways(&mut self, alloc: Global, graph: &StateGraph<u32>) -> Result<(), AllocError> {
        let mut reached = vec![in alloc; START]?;
        for place in 0..self.arrivals.len() {
            let Some(from) = reached.get(place).copied() else {
                break;
            };
            if let Some(edges) = edges_of(graph, from) {
                self.go_on(&mut reached, from, edges)?;
            }
        }
        Ok(())
    }

    /// Goes on from a state that is reached to those that are not yet.
    fn go_on(
        &mut self,
        reached: &mut Vec<StIdx<u32>>,
        from: StIdx<u32>,
        edges: &BTreeMap<Symbol<u32>, StIdx<u32>>,
    ) -> Result<(), AllocError> {
        let length = self.length(from).saturating_add(1);
        for (symbol, to) in edges {
            if let Some(arrival) = self.arrivals.get_mut(usize::from(*to)) {
                if arrival.is_none() && *to != START {
                    *arrival = Some(Arrival {
                        from,
                        symbol: *symbol,
                        length,
                    });
                    reached.push(*to)?;
                }
            }
        }
        Ok(())
    }

    /// How a shortest way comes to the state.
    fn arrival(&self, state: StIdx<u32>) -> Option<Arrival> {
        self.arrivals.get(usize::from(state)).copied().flatten()
    }

    /// How long a shortest way to the state is.
    pub(crate) fn length(&self, state: StIdx<u32>) -> usize {
        match self.arrival(state) {
            Some(arrival) => arrival.length,
            None => 0,
        }
    }

    /// A shortest way to the state.
    pub(crate) fn way(&self, alloc: Global, state: StIdx<u32>) -> Result<Way, AllocError> {
        let mut states = vec![in alloc; state]?;
        let mut symbols = Vec::new(alloc);
        let mut last = state;
        for _ in 0..self.arrivals.len() {
            let Some(arrival) = self.arrival(last) else {
                break;
            };
            last = arrival.from;
            states.push(last)?;
            symbols.push(arrival.symbol)?;
        }
        states.as_mut_slice().reverse();
        symbols.as_mut_slice().reverse();
        Ok(Way { states, symbols })
    }

    /// The states upwards from which an edge leads to the state.
    pub(crate) fn before(&self, state: StIdx<u32>) -> &[StIdx<u32>] {
        match self.before.get(usize::from(state)) {
            Some(before) => before.as_slice(),
            None => &[],
        }
    }

    /// The items of the state that stand before the rule, upwards.
    pub(crate) fn callers(&self, state: StIdx<u32>, rule: RIdx<u32>) -> &[Caller] {
        let Some(callers) = self.callers.get(usize::from(state)) else {
            return &[];
        };
        let callers = callers.as_slice();
        let start = callers.partition_point(|caller| caller.rule < rule);
        let end = callers.partition_point(|caller| caller.rule <= rule);
        match callers.get(start..end) {
            Some(callers) => callers,
            None => &[],
        }
    }

    /// The states upwards whose cores have the same items as that of the state.
    pub(crate) fn alike(&self, state: StIdx<u32>) -> &[StIdx<u32>] {
        let Some(number) = self.cores.get(usize::from(state)) else {
            return &[];
        };
        match self.alike.get(*number) {
            Some(states) => states.as_slice(),
            None => &[],
        }
    }
}
