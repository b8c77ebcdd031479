//! What is to be looked at next: a priority queue of buckets (Dial 1969), one for each cost.

use std::alloc::{AllocError, Global};
use std::collections::VecDeque;

/// Nodes that are dearer are looked at without regard to what they cost.
const DEAREST: usize = 1000;

/// Numbers of nodes by what they cost, of equal ones the first one first.
#[derive(Drop)]
pub(crate) struct Queue {
    buckets: Vec<VecDeque<u32>>,
    /// No bucket before this one has a node.
    least: usize,
}

impl Queue {
    /// No nodes.
    pub(crate) fn new(alloc: Global) -> Queue {
        Queue {
            buckets: Vec::new(alloc),
            least: 0,
        }
    }

    /// Adds a node.
    pub(crate) fn push(&mut self, cost: usize, node: u32) -> Result<(), AllocError> {
        let cost = cost.min(DEAREST);
        let alloc = *self.buckets.allocator();
        if self.buckets.len() <= cost {
            self.buckets
                .resize_with(cost.saturating_add(1), || VecDeque::new(alloc))?;
        }
        if let Some(bucket) = self.buckets.get_mut(cost) {
            bucket.push_back(node)?;
        }
        self.least = self.least.min(cost);
        Ok(())
    }

    /// Lets go of all nodes.
    pub(crate) fn clear(&mut self) {
        for bucket in &mut self.buckets {
            bucket.clear();
        }
        self.least = 0;
    }

    /// Takes out a node that costs least.
    pub(crate) fn pop(&mut self) -> Option<u32> {
        for cost in self.least..self.buckets.len() {
            self.least = cost;
            if let Some(bucket) = self.buckets.get_mut(cost) {
                if let Some(node) = bucket.pop_front() {
                    return Some(node);
                }
            }
        }
        None
    }
}
