//! How two ways to read stand to one another.

ghost use Rattle.std.specs.Prelude.{◌≡◌, ◌++◌, IfOk};
ghost use Rattle.lrdecided.specs.Nodes.{swap};
ghost use Rattle.lrdecided.specs.StoredNodes.{symbols_of, side_of, states_of, node_of};

use lrgrammar::idx::{PIdx, SIdx, StIdx, Symbol, TIdx};
use std::alloc::{AllocError, Global};

/// One of two ways to read.
#[derive(Drop)]
pub struct Side {
    /// The production of the item at whose dot it stands.
    pub production: PIdx<u32>,
    /// The dot.
    pub dot: SIdx<u32>,
    /// The symbols that it derives from there on, and that the other way has not met yet.
    pub symbols: Vec<Symbol<u32>>,
    /// Whether these are only the beginning of what it derives so.
    pub is_cut: bool,
}

/// Both ways.
#[derive(Drop)]
pub struct Node {
    /// The one way.
    pub one: Side,
    /// The other way.
    pub other: Side,
    /// The states to which what both have before their dots may lead, upwards.
    pub states: Vec<StIdx<u32>>,
    /// The token that comes next, if it is known.
    pub next: Option<TIdx<u32>>,
    /// In how many tokens the texts still agree; without a number in all.
    pub left: Option<usize>,
}

/// The symbols of both lists.
pub(crate) fn joined(
    alloc: Global,
    symbols: &[Symbol<u32>],
    others: &[Symbol<u32>],
) -> Result<Vec<Symbol<u32>>, AllocError>
    ensures { IfOk result (λ v. v.items ≡ symbols.now ++ others.now) }
{
    let mut all = Vec::from_slice(alloc, symbols)?;
    all.extend_from_slice(others)?;
    Ok(all)
}

impl Side {
    /// The same side.
    pub(crate) fn copied(&self, alloc: Global) -> Result<Side, AllocError>
        ensures { IfOk result (λ x. side_of x ≡ side_of self.now) }
    {
        let symbols = Vec::from_slice(alloc, self.symbols.as_slice())?;
        Ok(Side {
            production: self.production,
            dot: self.dot,
            symbols,
            is_cut: self.is_cut,
        })
    }
}

impl Node {
    /// The node with this one way in these states.
    pub(crate) fn with_one(
        &self,
        alloc: Global,
        one: Side,
        states: &[StIdx<u32>],
    ) -> Result<Node, AllocError>
        ensures { IfOk result (λ a. node_of a ≡ record (node_of self.now) {
          one = side_of one;
          states = states_of states.now;
        }) }
    {
        let other = self.other.copied(alloc)?;
        let states = Vec::from_slice(alloc, states)?;
        Ok(Node {
            one,
            other,
            states,
            next: self.next,
            left: self.left,
        })
    }

    /// The same node.
    pub(crate) fn copied(&self, alloc: Global) -> Result<Node, AllocError>
        ensures { IfOk result (λ a. node_of a ≡ node_of self.now) }
    {
        let one = self.one.copied(alloc)?;
        self.with_one(alloc, one, self.states.as_slice())
    }

    /// The node with its ways exchanged.
    pub(crate) fn swapped(&self, alloc: Global) -> Result<Node, AllocError>
        ensures { IfOk result (λ a. node_of a ≡ swap (node_of self.now)) }
    {
        let one = self.other.copied(alloc)?;
        let other = self.one.copied(alloc)?;
        let states = Vec::from_slice(alloc, self.states.as_slice())?;
        Ok(Node {
            one,
            other,
            states,
            next: self.next,
            left: self.left,
        })
    }
}
