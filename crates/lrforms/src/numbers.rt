//! Numbers of things by hashes: a hash table with open addressing and linear probing, which has the numbers alone. The things
//! stand elsewhere, in the order in which they came.

use std::alloc::{AllocError, Global};

/// In a slot that is not taken.
const NONE: u32 = u32::MAX;

/// How many slots there are at first.
const FEWEST: usize = 64;

/// By what a hash is multiplied.
const FACTOR: u64 = 0x9E37_79B9_7F4A_7C15;

/// A hash, a part after another.
#[derive(Clone, Copy, PartialEq, Eq)]
pub(crate) struct Hash(u64);

impl Hash {
    /// That of no parts.
    pub(crate) const EMPTY: Hash = Hash(0);

    /// That with a part more.
    pub(crate) fn with(self, part: u32) -> Hash {
        Hash((self.0.rotate_left(5) ^ u64::from(part)).wrapping_mul(FACTOR))
    }

    /// Its upper half, which depends on all parts.
    fn upper(self) -> u32 {
        (self.0 / 0x1_0000_0000) as u32
    }
}

/// The number of a thing, if the slot is taken, and the hash of the thing.
#[derive(Clone, Copy)]
struct Slot {
    hash: u32,
    number: u32,
}

/// A slot that is not taken.
const FREE: Slot = Slot {
    hash: 0,
    number: NONE,
};

/// Where a look-up is.
#[derive(Clone, Copy)]
pub(crate) struct Probe {
    hash: u32,
    place: usize,
}

/// Numbers of things that are kept elsewhere, by hashes of these.
#[derive(Drop)]
pub(crate) struct Numbers {
    /// None, or as many as a power of two. At most half of them are taken.
    slots: Vec<Slot>,
    taken: usize,
}

impl Numbers {
    /// No numbers.
    pub(crate) fn new(alloc: Global) -> Numbers {
        Numbers {
            slots: Vec::new(alloc),
            taken: 0,
        }
    }

    /// How many numbers there are.
    pub(crate) fn len(&self) -> usize {
        self.taken
    }

    /// Before the first number with that hash.
    pub(crate) fn probe(&self, hash: Hash) -> Probe {
        let hash = hash.upper();
        Probe {
            hash,
            place: hash as usize,
        }
    }

    /// The slot at a place, round and round.
    fn slot(&self, place: usize) -> Slot {
        let mask = self.slots.len().saturating_sub(1);
        self.slots.get(place & mask).copied().unwrap_or(FREE)
    }

    /// The next number of a thing that may have that hash.
    pub(crate) fn next(&self, probe: &mut Probe) -> Option<u32> {
        for _ in 0..self.slots.len() {
            let slot = self.slot(probe.place);
            if slot.number == NONE {
                return None;
            }
            probe.place = probe.place.wrapping_add(1);
            if slot.hash == probe.hash {
                return Some(slot.number);
            }
        }
        None
    }

    /// Adds a number.
    pub(crate) fn add(&mut self, hash: Hash, number: u32) -> Result<(), AllocError> {
        if self.taken >= self.slots.len() / 2 {
            self.grow()?;
        }
        self.put(Slot {
            hash: hash.upper(),
            number,
        });
        self.taken = self.taken.saturating_add(1);
        Ok(())
    }

    /// Takes the first free slot from the place of the hash on.
    fn put(&mut self, slot: Slot) {
        let mask = self.slots.len().saturating_sub(1);
        let mut place = slot.hash as usize;
        for _ in 0..self.slots.len() {
            if let Some(free) = self.slots.get_mut(place & mask) {
                if free.number == NONE {
                    *free = slot;
                    return;
                }
            }
            place = place.wrapping_add(1);
        }
    }

    /// Makes twice as many slots.
    fn grow(&mut self) -> Result<(), AllocError> {
        let alloc = *self.slots.allocator();
        let count = self.slots.len().saturating_mul(2).max(FEWEST);
        let more = Vec::from_elem(alloc, FREE, count)?;
        let old = std::mem::replace(&mut self.slots, more);
        for slot in &old {
            if slot.number != NONE {
                self.put(*slot);
            }
        }
        Ok(())
    }

    /// Lets go of all numbers.
    pub(crate) fn clear(&mut self) {
        if self.taken > 0 {
            self.slots.as_mut_slice().fill(FREE);
            self.taken = 0;
        }
    }
}
