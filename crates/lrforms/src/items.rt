//! Items without lookaheads.

use crate::numbers::Hash;
use lrgrammar::idx::{PIdx, SIdx};

/// A production with a dot in its body.
#[derive(Clone, Copy, PartialEq, Eq, PartialOrd, Ord)]
pub(crate) struct Item {
    pub(crate) production: PIdx<u32>,
    pub(crate) dot: SIdx<u32>,
}

impl Item {
    /// The item that an item set has as a key.
    pub(crate) fn of(key: (PIdx<u32>, SIdx<u32>)) -> Item {
        let (production, dot) = key;
        Item { production, dot }
    }

    /// How many symbols stand before the dot.
    pub(crate) fn dot(&self) -> usize {
        usize::from(self.dot)
    }

    /// The item with its dot one symbol further back; None where no symbol stands before the dot.
    pub(crate) fn moved_back(&self) -> Option<Item> {
        let dot = self.dot().checked_sub(1)?;
        Some(Item {
            production: self.production,
            dot: SIdx(u32::try_from(dot).ok()?),
        })
    }

    /// The hash with the item.
    pub(crate) fn hashed(self, hash: Hash) -> Hash {
        hash.with(self.production.0).with(self.dot.0)
    }
}
