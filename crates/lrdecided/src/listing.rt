//! Nodes that are listed, and which of these a node is.

ghost use Rattle.std.specs.Prelude.{◌≡◌, ◌++◌, ◌∷◌, [], length, Contains, IsTrue, IfOk, OnOk};
ghost use Rattle.lrdecided.specs.StoredNodes.{symbols_of, states_of, next_of, side_of, node_of, nodes_of};

use crate::nodes::{Node, Side};
use lrclosing::items::is_same_symbol;
use lrgrammar::idx::{StIdx, Symbol, TIdx};
use std::alloc::{AllocError, Global};

/// In how many rows the places of nodes are kept.
const ROWS: usize = 1024;

/// Nodes, with their places in rows by what tells them apart.
#[derive(Drop)]
pub(crate) struct Listing {
    /// The nodes.
    pub(crate) nodes: Vec<Node>,
    /// For each remainder of a fingerprint the places of the nodes that have it.
    rows: Vec<Vec<usize>>,
}

/// Whether the symbols are the same.
fn are_same_symbols(a: &[Symbol<u32>], b: &[Symbol<u32>]) -> bool
    ensures { IsTrue result → symbols_of a.now ≡ symbols_of b.now }
{
    if a.len() != b.len() {
        return false;
    }
    for i in 0..a.len() {
        if !is_same_symbol(a[i], b[i]) {
            return false;
        }
    }
    true
}

/// Whether the states are the same.
fn are_same_states(a: &[StIdx<u32>], b: &[StIdx<u32>]) -> bool
    ensures { IsTrue result → states_of a.now ≡ states_of b.now }
{
    if a.len() != b.len() {
        return false;
    }
    for i in 0..a.len() {
        let one = usize::from(a[i]);
        let other = usize::from(b[i]);
        if one != other {
            return false;
        }
    }
    true
}

/// Whether the same token is known to come next, or of both none is known.
fn is_same_next(a: Option<TIdx<u32>>, b: Option<TIdx<u32>>) -> bool
    ensures { IsTrue result → next_of a ≡ next_of b }
{
    match a {
        Some(token) => match b {
            Some(other) => usize::from(token) == usize::from(other),
            None => false,
        },
        None => b.is_none(),
    }
}

/// Whether the sides are the same.
fn is_same_side(a: &Side, b: &Side) -> bool
    ensures { IsTrue result → side_of a.now ≡ side_of b.now }
{
    usize::from(a.production) == usize::from(b.production)
        && usize::from(a.dot) == usize::from(b.dot)
        && a.is_cut == b.is_cut
        && are_same_symbols(a.symbols.as_slice(), b.symbols.as_slice())
}

/// Whether the nodes are the same.
fn is_same_node(a: &Node, b: &Node) -> bool
    ensures { IsTrue result → node_of a.now ≡ node_of b.now }
{
    is_same_side(&a.one, &b.one)
        && is_same_side(&a.other, &b.other)
        && is_same_next(a.next, b.next)
        && a.left == b.left
        && are_same_states(a.states.as_slice(), b.states.as_slice())
}

/// Whether the node is the one at this place.
fn is_at(nodes: &[Node], place: usize, node: &Node) -> bool
    ensures { IsTrue result → Contains (nodes_of nodes.now) (node_of node.now) }
{
    place < nodes.len() && is_same_node(&nodes[place], node)
}

/// A number that tells symbols apart, begun with another.
fn mark_of_symbols(from: usize, symbols: &[Symbol<u32>]) -> usize {
    let mut mark = from;
    for symbol in symbols {
        let number = match symbol {
            Symbol::Rule(rule) => usize::from(*rule),
            Symbol::Token(token) => usize::from(*token).wrapping_add(7919),
        };
        mark = mark.wrapping_mul(31).wrapping_add(number);
    }
    mark
}

/// A number that tells states apart, begun with another.
fn mark_of_states(from: usize, states: &[StIdx<u32>]) -> usize {
    let mut mark = from;
    for state in states {
        mark = mark.wrapping_mul(31).wrapping_add(usize::from(*state));
    }
    mark
}

/// A number that tells sides apart, begun with another.
fn mark_of_side(from: usize, side: &Side) -> usize {
    let item = from
        .wrapping_mul(31)
        .wrapping_add(usize::from(side.production))
        .wrapping_mul(31)
        .wrapping_add(usize::from(side.dot));
    mark_of_symbols(item, side.symbols.as_slice())
}

/// In which row the place of the node is kept.
fn row_of_node(node: &Node) -> usize {
    let one = mark_of_side(node.left.unwrap_or(5), &node.one);
    let other = mark_of_side(one, &node.other);
    mark_of_states(other, node.states.as_slice()) % ROWS
}

/// So many empty rows.
fn empty_rows(alloc: Global, count: usize) -> Result<Vec<Vec<usize>>, AllocError> {
    (0..count).map(|_row| Vec::new(alloc)).collect(alloc)
}

impl Listing {
    /// No nodes.
    pub(crate) fn new(alloc: Global) -> Result<Listing, AllocError> {
        Ok(Listing {
            nodes: Vec::new(alloc),
            rows: empty_rows(alloc, ROWS)?,
        })
    }

    /// Whether the node is found among those that are listed.
    pub(crate) fn has(&self, node: &Node) -> bool
        ensures { IsTrue result → Contains (nodes_of self.now.nodes.items) (node_of node.now) }
    {
        let Some(row) = self.rows.get(row_of_node(node)) else {
            return false;
        };
        for place in row {
            if is_at(self.nodes.as_slice(), *place, node) {
                return true;
            }
        }
        false
    }

    /// Adds the node.
    pub(crate) fn add(&mut self, node: Node) -> Result<(), AllocError> {
        let row = row_of_node(&node);
        if row < self.rows.len() {
            self.rows[row].push(self.nodes.len())?;
        }
        self.nodes.push(node)?;
        Ok(())
    }
}
