//! Places in a search.

use crate::items::Item;
use crate::numbers::Hash;
use crate::rests::Rest;
use crate::statesets::StateSet;
use lrgrammar::idx::PIdx;

/// One of the two trees.
#[derive(Clone, Copy, PartialEq, Eq)]
pub(crate) enum Side {
    First,
    Second,
}

/// What is known of one of the trees: its innermost open node, and which symbols it has still to yield behind the dot that the
/// other one hasn't met yet.
#[derive(Clone, Copy, PartialEq, Eq)]
pub(crate) struct Branch {
    pub(crate) item: Item,
    pub(crate) rest: Rest,
}

/// A place in a search.
#[derive(Clone, Copy, PartialEq, Eq)]
pub(crate) struct Place {
    /// Where one may stand before the symbols that stand left of the dot so far.
    pub(crate) states: StateSet,
    pub(crate) first: Branch,
    pub(crate) second: Branch,
    /// Whether the token of the conflict has come.
    pub(crate) has_begun: bool,
}

impl Branch {
    /// The hash with the branch.
    fn hashed(self, hash: Hash) -> Hash {
        self.rest.hashed(self.item.hashed(hash))
    }
}

impl Place {
    /// The hash of the place.
    pub(crate) fn hash(&self) -> Hash {
        let hash = self
            .states
            .hashed(Hash::EMPTY)
            .with(u32::from(self.has_begun));
        self.second.hashed(self.first.hashed(hash))
    }

    /// What is known of one of the trees.
    pub(crate) fn branch(&self, side: Side) -> Branch {
        match side {
            Side::First => self.first,
            Side::Second => self.second,
        }
    }

    /// The place with something else of one of the trees, behind other states.
    pub(crate) fn with_branch(&self, side: Side, branch: Branch, states: StateSet) -> Place {
        let (first, second) = match side {
            Side::First => (branch, self.second),
            Side::Second => (self.first, branch),
        };
        Place {
            states,
            first,
            second,
            has_begun: self.has_begun,
        }
    }
}

/// How a place comes of another one.
#[derive(Clone, Copy, PartialEq, Eq)]
pub(crate) enum Step {
    /// It is one of the first.
    Start,
    /// Both trees yield the same symbol.
    Meet,
    /// The rule that one tree has to yield next becomes the body of a production.
    Expand(Side, PIdx<u32>),
    /// Both trees have the same symbol before the dot.
    Back,
    /// The node of one tree is put below another one.
    Close(Side),
}

/// A place that was come to.
#[derive(Clone, Copy)]
pub(crate) struct Node {
    pub(crate) place: Place,
    pub(crate) step: Step,
    /// The number of the node of which it comes.
    pub(crate) from: u32,
    /// What the steps cost.
    pub(crate) spent: u32,
}
