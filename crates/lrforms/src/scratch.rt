//! What searches need room for.

use crate::nodes::{Node, Place};
use crate::numbers::{Hash, Numbers};
use crate::queues::Queue;
use crate::rests::Rests;
use crate::statesets::StateSets;
use std::alloc::{AllocError, Global};

/// How many lists, states of sets and items are kept from a search to the next one at most.
const MOST_KEPT: usize = 500_000;

/// What searches use one after another. Lists and sets of states stay from one to the next.
#[derive(Drop)]
pub(crate) struct Scratch {
    pub(crate) sets: StateSets,
    pub(crate) rests: Rests,
    pub(crate) nodes: Vec<Node>,
    /// The nodes by the hashes of their places.
    seen: Numbers,
    pub(crate) queue: Queue,
}

impl Scratch {
    /// With nothing in it.
    pub(crate) fn new(alloc: Global) -> Scratch {
        Scratch {
            sets: StateSets::new(alloc),
            rests: Rests::new(alloc),
            nodes: Vec::new(alloc),
            seen: Numbers::new(alloc),
            queue: Queue::new(alloc),
        }
    }

    /// Lets go of the nodes, for another search.
    pub(crate) fn clear(&mut self) {
        self.nodes.clear();
        self.seen.clear();
        self.queue.clear();
    }

    /// Whether there is too much in it to keep it.
    pub(crate) fn is_full(&self) -> bool {
        self.sets.size().saturating_add(self.rests.len()) > MOST_KEPT
    }

    /// Whether a node with that hash was made at the place.
    pub(crate) fn is_seen(&self, hash: Hash, place: &Place) -> bool {
        let mut probe = self.seen.probe(hash);
        for _ in 0..self.nodes.len() {
            let Some(number) = self.seen.next(&mut probe) else {
                break;
            };
            if let Some(node) = self.nodes.get(number as usize) {
                if node.place == *place {
                    return true;
                }
            }
        }
        false
    }

    /// Adds a node, whose place has that hash.
    pub(crate) fn push(&mut self, hash: Hash, node: Node, number: u32) -> Result<(), AllocError> {
        self.nodes.push(node)?;
        self.seen.add(hash, number)
    }
}
