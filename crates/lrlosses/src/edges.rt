//! Which edges of a graph the machine of its table can use, with shortest texts along them: Knuth's generalization of Dijkstra's
//! algorithm (1977), over the bodies of productions that begin in each state.
//!
//! An edge on a token can be used in a state that is reached, if the cell says to shift. One on a rule can be used if the machine
//! can go along the body of a production of the rule, by edges that can be used, and comes to a state in which some cell says to
//! reduce by this production. That is more than the machine can do, since it also looks at the next token.

use crate::rules::{START, body_of, closed_of, empty_lists, rule_of};
use lrgrammar::grammar::YaccGrammar;
use lrgrammar::idx::{PIdx, StIdx, Symbol};
use lrgraphs::StateGraph;
use lrtable::StateTable;
use std::alloc::{AllocError, Global};
use std::cmp::Reverse;
use std::collections::BinaryHeap;

/// A shortest text along an edge.
#[derive(Clone, Copy)]
pub(crate) struct Along {
    /// How many tokens it has.
    pub(crate) tokens: usize,
    /// The production that the edge's rule is made of.
    pub(crate) production: Option<PIdx<u32>>,
}

/// An edge.
#[derive(Clone, Copy)]
pub(crate) struct Edge {
    pub(crate) symbol: Symbol<u32>,
    pub(crate) to: StIdx<u32>,
    /// A shortest text; None where it can't be used.
    pub(crate) along: Option<Along>,
    /// Where that is empty, a production of which a shortest text isn't, if there is one.
    pub(crate) longer: Option<PIdx<u32>>,
}

/// The edges of a graph.
#[derive(Drop)]
pub(crate) struct Edges {
    /// Those of each state one after another, upwards by symbol.
    edges: Vec<Edge>,
    /// Where those of each state begin.
    starts: Vec<usize>,
}

impl Edges {
    /// Those that can be used by the machine of the table.
    pub(crate) fn new<'a>(
        alloc: Global,
        grm: &'a YaccGrammar<u32>,
        graph: &'a StateGraph<u32>,
        table: &'a StateTable<u32>,
    ) -> Result<Edges, AllocError> {
        let mut search = Search::new(alloc, grm, graph, table)?;
        search.reach(START)?;
        for _ in 0..search.most {
            let Some(Reverse((tokens, number, production))) = search.queue.pop() else {
                break;
            };
            search.settle(number, Along { tokens, production })?;
        }
        Ok(search.edges)
    }

    /// Those of a graph, none of which can be used so far.
    fn of_graph(alloc: Global, graph: &StateGraph<u32>) -> Result<Edges, AllocError> {
        let mut edges = Edges {
            edges: Vec::new(alloc),
            starts: Vec::new(alloc),
        };
        for number in 0..graph.all_states_len().0 {
            edges.add(graph, StIdx(number))?;
        }
        Ok(edges)
    }

    /// Adds those of the next state.
    fn add(&mut self, graph: &StateGraph<u32>, state: StIdx<u32>) -> Result<(), AllocError> {
        self.starts.push(self.edges.len())?;
        if state.0 >= graph.all_states_len().0 {
            return Ok(());
        }
        for (symbol, to) in graph.edges(state) {
            self.edges.push(Edge {
                symbol: *symbol,
                to: *to,
                along: None,
                longer: None,
            })?;
        }
        Ok(())
    }

    /// How many edges there are.
    pub(crate) fn len(&self) -> usize {
        self.edges.len()
    }

    /// How many states there are.
    pub(crate) fn states_len(&self) -> usize {
        self.starts.len()
    }

    /// Where the edges of a state begin.
    fn start(&self, state: usize) -> usize {
        match self.starts.get(state) {
            Some(start) => *start,
            None => self.edges.len(),
        }
    }

    /// The edges of a state.
    pub(crate) fn of(&self, state: StIdx<u32>) -> &[Edge] {
        let state = usize::from(state);
        match self
            .edges
            .get(self.start(state)..self.start(state.saturating_add(1)))
        {
            Some(edges) => edges,
            None => &[],
        }
    }

    /// The number of the edge of a state on a symbol.
    fn number(&self, state: StIdx<u32>, symbol: Symbol<u32>) -> Option<usize> {
        let edges = self.of(state);
        let place = edges.partition_point(|edge| edge.symbol < symbol);
        if edges.get(place)?.symbol != symbol {
            return None;
        }
        Some(self.start(usize::from(state)).saturating_add(place))
    }

    /// The edge of a state on a symbol.
    pub(crate) fn on(&self, state: StIdx<u32>, symbol: Symbol<u32>) -> Option<Edge> {
        self.edges.get(self.number(state, symbol)?).copied()
    }
}

/// The machine on its way along a body that begins in a state.
#[derive(Clone, Copy)]
struct Walker {
    production: PIdx<u32>,
    from: StIdx<u32>,
    /// How many symbols it has gone along, to which state, and how many tokens that took at least.
    dot: usize,
    at: StIdx<u32>,
    tokens: usize,
}

impl Walker {
    /// Behind one symbol more, which leads to the state, and whose text has so many tokens.
    fn over(self, to: StIdx<u32>, tokens: usize) -> Walker {
        Walker {
            production: self.production,
            from: self.from,
            dot: self.dot.saturating_add(1),
            at: to,
            tokens: self.tokens.saturating_add(tokens),
        }
    }
}

/// The search for edges that can be used.
#[derive(Drop)]
struct Search<'a> {
    grm: &'a YaccGrammar<u32>,
    graph: &'a StateGraph<u32>,
    table: &'a StateTable<u32>,
    edges: Edges,
    is_reached: Vec<bool>,
    /// For each edge what waits for a text along it.
    waiting: Vec<Vec<Walker>>,
    /// Edges that can be used, by the number of tokens of a text, with the production that is reduced by.
    queue: BinaryHeap<Reverse<(usize, usize, Option<PIdx<u32>>)>>,
    /// How many come into the queue at most: each edge on a token once, and one on a rule once for each body.
    most: usize,
}

impl<'a> Search<'a> {
    /// Before any state is reached.
    fn new(
        alloc: Global,
        grm: &'a YaccGrammar<u32>,
        graph: &'a StateGraph<u32>,
        table: &'a StateTable<u32>,
    ) -> Result<Search<'a>, AllocError> {
        let edges = Edges::of_graph(alloc, graph)?;
        let is_reached = Vec::from_elem(alloc, false, edges.states_len())?;
        let waiting = empty_lists(alloc, edges.len())?;
        let mut most = edges.len();
        for set in graph.iter_closed_states() {
            most = most.saturating_add(set.items.len());
        }
        Ok(Search {
            grm,
            graph,
            table,
            edges,
            is_reached,
            waiting,
            queue: BinaryHeap::new(alloc),
            most,
        })
    }

    /// Comes to a state.
    fn reach(&mut self, state: StIdx<u32>) -> Result<(), AllocError> {
        let Some(is_reached @ false) = self.is_reached.get_mut(usize::from(state)) else {
            return Ok(());
        };
        *is_reached = true;
        self.add_shifts(state)?;
        self.begin_bodies(state)
    }

    /// Adds the edges of a state on tokens that it shifts.
    fn add_shifts(&mut self, state: StIdx<u32>) -> Result<(), AllocError> {
        for token in self.table.state_shifts(state) {
            if let Some(number) = self.edges.number(state, Symbol::Token(token)) {
                self.queue.push(Reverse((1, number, None)))?;
            }
        }
        Ok(())
    }

    /// Goes along the bodies that begin in a state, as far as that can be done so far.
    fn begin_bodies(&mut self, state: StIdx<u32>) -> Result<(), AllocError> {
        let (graph, start) = (self.graph, self.grm.start_prod());
        let Some(set) = closed_of(graph, state) else {
            return Ok(());
        };
        for (production, dot) in set.items.keys() {
            if dot.0 == 0 && *production != start {
                self.advance(Walker {
                    production: *production,
                    from: state,
                    dot: 0,
                    at: state,
                    tokens: 0,
                })?;
            }
        }
        Ok(())
    }

    /// Goes along the rest of a body, up to an edge of which it isn't known that it can be used.
    fn advance(&mut self, walker: Walker) -> Result<(), AllocError> {
        let mut walker = walker;
        let Some(rest) = body_of(self.grm, walker.production).get(walker.dot..) else {
            return Ok(());
        };
        for symbol in rest {
            let Some(number) = self.edges.number(walker.at, *symbol) else {
                return Ok(());
            };
            let edge = self.edges.edges.get(number).copied();
            let Some(
                Edge {
                    to,
                    along: Some(along),
                    ..
                },
            ) = edge
            else {
                return self.wait(number, walker);
            };
            walker = walker.over(to, along.tokens);
        }
        self.end(walker)
    }

    /// Waits for a text along an edge.
    fn wait(&mut self, number: usize, walker: Walker) -> Result<(), AllocError> {
        if let Some(waiting) = self.waiting.get_mut(number) {
            waiting.push(walker)?;
        }
        Ok(())
    }

    /// Whether some cell of the state says to reduce by the production.
    fn reduces(&self, state: StIdx<u32>, production: PIdx<u32>) -> bool {
        for reduced in self.table.core_reduces(state) {
            if reduced == production {
                return true;
            }
        }
        false
    }

    /// At the end of a body the machine goes along its rule, if it reduces there.
    fn end(&mut self, walker: Walker) -> Result<(), AllocError> {
        let production = walker.production;
        let Some(rule) = rule_of(self.grm, production) else {
            return Ok(());
        };
        if !self.reduces(walker.at, production) {
            return Ok(());
        }
        if let Some(number) = self.edges.number(walker.from, Symbol::Rule(rule)) {
            self.queue
                .push(Reverse((walker.tokens, number, Some(production))))?;
        }
        Ok(())
    }

    /// Keeps a text along an edge, unless there is one, which came before and is as short; then its production is kept where that
    /// text is empty, and this one isn't.
    fn settle(&mut self, number: usize, text: Along) -> Result<(), AllocError> {
        let Some(edge) = self.edges.edges.get_mut(number) else {
            return Ok(());
        };
        if let Some(along) = edge.along {
            if along.tokens == 0 && text.tokens > 0 && edge.longer.is_none() {
                edge.longer = text.production;
            }
            return Ok(());
        }
        edge.along = Some(text);
        let to = edge.to;
        self.reach(to)?;
        self.go_on(number)
    }

    /// Goes on with what waited for an edge.
    fn go_on(&mut self, number: usize) -> Result<(), AllocError> {
        let alloc = *self.waiting.allocator();
        let Some(waiting) = self.waiting.get_mut(number) else {
            return Ok(());
        };
        let walkers = std::mem::replace(waiting, Vec::new(alloc));
        for walker in &walkers {
            self.advance(*walker)?;
        }
        Ok(())
    }
}
