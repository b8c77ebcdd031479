//! Shortest texts along edges that can be used.

use crate::edges::{Edge, Edges};
use crate::rules::{START, body_of};
use lrgrammar::grammar::YaccGrammar;
use lrgrammar::idx::{PIdx, StIdx, Symbol, TIdx};
use std::alloc::{AllocError, Global};

/// How many tokens a text may have.
const MOST_TOKENS: usize = 400;

/// How many edges are looked at for one text.
const MOST_EDGES: usize = 20_000;

/// What stands in a text.
#[derive(Drop)]
struct Writer<'a> {
    grm: &'a YaccGrammar<u32>,
    edges: &'a Edges,
    tokens: Vec<TIdx<u32>>,
    /// Edges along which the text goes on, the next one last.
    open: Vec<(StIdx<u32>, Symbol<u32>)>,
}

impl<'a> Writer<'a> {
    /// Before a text.
    fn new(alloc: Global, grm: &'a YaccGrammar<u32>, edges: &'a Edges) -> Writer<'a> {
        Writer {
            grm,
            edges,
            tokens: Vec::new(alloc),
            open: Vec::new(alloc),
        }
    }

    /// Goes on along the symbols from a state before all else; false where no edge leads there.
    fn add(&mut self, state: StIdx<u32>, symbols: &[Symbol<u32>]) -> Result<bool, AllocError> {
        let start = self.open.len();
        let mut state = state;
        for symbol in symbols {
            let Some(edge) = self.edges.on(state, *symbol) else {
                return Ok(false);
            };
            self.open.push((state, *symbol))?;
            state = edge.to;
        }
        if let Some(added) = self.open.as_mut_slice().get_mut(start..) {
            added.reverse();
        }
        Ok(true)
    }

    /// Writes a shortest text along the edge, or goes on along the body that it is made of; false where there is none.
    fn write(&mut self, state: StIdx<u32>, symbol: Symbol<u32>) -> Result<bool, AllocError> {
        let Some(
            Edge {
                along: Some(along),
                ..
            },
        ) = self.edges.on(state, symbol)
        else {
            return Ok(false);
        };
        match (symbol, along.production) {
            (Symbol::Token(token), _) => {
                self.tokens.push(token)?;
                Ok(self.tokens.len() <= MOST_TOKENS)
            }
            (Symbol::Rule(_), Some(production)) => self.write_body(state, production),
            (Symbol::Rule(_), None) => Ok(false),
        }
    }

    /// Goes on along the body of a production.
    fn write_body(&mut self, state: StIdx<u32>, body: PIdx<u32>) -> Result<bool, AllocError> {
        let body = body_of(self.grm, body);
        self.add(state, body)
    }

    /// The text along the edges that are open; None where there is none, or it is too long.
    fn written(self) -> Result<Option<Vec<TIdx<u32>>>, AllocError> {
        let mut writer = self;
        for _ in 0..MOST_EDGES {
            let Some((state, symbol)) = writer.open.pop() else {
                return Ok(Some(writer.tokens));
            };
            if !writer.write(state, symbol)? {
                break;
            }
        }
        Ok(None)
    }
}

/// A shortest text along a list from the start state; None where there is none, or it is too long.
pub(crate) fn text_along<'a>(
    alloc: Global,
    grm: &'a YaccGrammar<u32>,
    edges: &'a Edges,
    list: &[Symbol<u32>],
) -> Result<Option<Vec<TIdx<u32>>>, AllocError> {
    let mut writer = Writer::new(alloc, grm, edges);
    if !writer.add(START, list)? {
        return Ok(None);
    }
    writer.written()
}

/// The state behind a list from the start state; None where no edge leads there.
fn state_behind(edges: &Edges, list: &[Symbol<u32>]) -> Option<StIdx<u32>> {
    let mut state = START;
    for symbol in list {
        state = edges.on(state, *symbol)?.to;
    }
    Some(state)
}

/// A text along a list from the start state whose last symbol isn't empty, where in a shortest one it is; None where there is none,
/// or it is too long.
pub(crate) fn longer_text_along<'a>(
    alloc: Global,
    grm: &'a YaccGrammar<u32>,
    edges: &'a Edges,
    list: &[Symbol<u32>],
) -> Result<Option<Vec<TIdx<u32>>>, AllocError> {
    let Some((last, before)) = list.split_last() else {
        return Ok(None);
    };
    let Some(state) = state_behind(edges, before) else {
        return Ok(None);
    };
    let Some(
        Edge {
            longer: Some(production),
            ..
        },
    ) = edges.on(state, *last)
    else {
        return Ok(None);
    };
    let mut writer = Writer::new(alloc, grm, edges);
    if !writer.write_body(state, production)? || !writer.add(START, before)? {
        return Ok(None);
    }
    writer.written()
}
