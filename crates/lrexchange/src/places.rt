//! Places by fingerprints: a hash table with open addressing, for what stands elsewhere in the order in which it came.

use std::alloc::{AllocError, Global};

/// By what a fingerprint is multiplied.
const FACTOR: u64 = 0x9E37_79B9_7F4A_7C15;

/// How many slots there are at first.
const FEWEST: usize = 64;

/// A number that tells things apart, made of a part after another.
#[derive(Clone, Copy, PartialEq, Eq)]
pub(crate) struct Print(u64);

impl Print {
    /// That of no parts.
    pub(crate) const EMPTY: Print = Print(0);

    /// That with a part more.
    pub(crate) fn with(self, part: usize) -> Print {
        Print((self.0.rotate_left(5) ^ part as u64).wrapping_mul(FACTOR))
    }

    /// Its upper half, which depends on all parts.
    fn upper(self) -> usize {
        (self.0 / 0x1_0000_0000) as usize
    }
}

/// The place of a thing with that fingerprint.
#[derive(Clone, Copy)]
struct Slot {
    print: Print,
    place: usize,
}

/// Places of things by the fingerprints of these.
#[derive(Drop)]
pub(crate) struct Places {
    /// None, or as many as a power of two. At most half of them are taken.
    slots: Vec<Option<Slot>>,
    taken: usize,
}

impl Places {
    /// No places.
    pub(crate) fn new(alloc: Global) -> Places {
        Places {
            slots: Vec::new(alloc),
            taken: 0,
        }
    }

    /// The place in the slot that is so many behind the first one for the fingerprint, if that is taken.
    fn slot(&self, print: Print, turn: usize) -> Option<Slot> {
        let mask = self.slots.len().saturating_sub(1);
        let at = print.upper().wrapping_add(turn) & mask;
        self.slots.get(at).copied().flatten()
    }

    /// The place of the first thing that was added with that fingerprint.
    pub(crate) fn find(&self, print: Print) -> Option<usize> {
        for turn in 0..self.slots.len() {
            let slot = self.slot(print, turn)?;
            if slot.print == print {
                return Some(slot.place);
            }
        }
        None
    }

    /// Adds the place of a thing with that fingerprint.
    pub(crate) fn add(&mut self, print: Print, place: usize) -> Result<(), AllocError> {
        if self.taken >= self.slots.len() / 2 {
            self.grow()?;
        }
        self.put(Slot { print, place });
        self.taken = self.taken.saturating_add(1);
        Ok(())
    }

    /// Takes the first slot for the fingerprint that is free.
    fn put(&mut self, slot: Slot) {
        let mask = self.slots.len().saturating_sub(1);
        let mut place = slot.print.upper();
        for _ in 0..self.slots.len() {
            if let Some(free) = self.slots.get_mut(place & mask) {
                if free.is_none() {
                    *free = Some(slot);
                    return;
                }
            }
            place = place.wrapping_add(1);
        }
    }

    /// Makes twice as many slots.
    fn grow(&mut self) -> Result<(), AllocError> {
        let alloc = *self.slots.allocator();
        let count = self.slots.len().saturating_mul(2).max(FEWEST);
        let more = Vec::from_elem(alloc, None, count)?;
        let old = std::mem::replace(&mut self.slots, more);
        for slot in old.iter().flatten() {
            self.put(*slot);
        }
        Ok(())
    }
}
