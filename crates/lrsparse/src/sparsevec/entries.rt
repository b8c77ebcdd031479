//! The entries of a matrix in a list, each in 8 bytes as long as 32 bits serve for all of their numbers.

ghost use Rattle.std.specs.Prelude.{◌≡◌, ℕ, [], ◌<◌, ◌^◌, length, max, slice_get, slice_index_or, slice_set, OnOk, IfOk};
ghost use Rattle.lrsparse.specs.Listed.{listed, Fits};

use std::alloc::{AllocError, Global};

/// An entry of a matrix: its number, and the row in which it stands, which owns its place.
#[derive(Clone, Copy)]
pub(crate) struct Entry<N> {
    pub row: N,
    pub number: N,
}

/// A list of entries. It is narrow until an entry comes whose row or number needs more than 32 bits, and wide from then on.
#[derive(Drop)]
pub(crate) enum Entries {
    Narrow(Vec<Entry<u32>>),
    Wide(Vec<Entry<usize>>),
}

/// The numbers from this one on need more than 32 bits.
const LIMIT: usize = 1 << 32;

/// The entry in more bits.
fn widened(entry: &Entry<u32>) -> Entry<usize>
    ensures { result ≡ entry.now }
{
    Entry {
        row: entry.row as usize,
        number: entry.number as usize,
    }
}

/// The entry in 32 bits.
fn narrowed(entry: Entry<usize>) -> Entry<u32>
    requires row { entry.row < 2 ^ 32 }
    requires number { entry.number < 2 ^ 32 }
    ensures { result ≡ entry }
{
    Entry {
        row: entry.row as u32,
        number: entry.number as u32,
    }
}

/// All of the entries in more bits.
fn all_widened(list: &Vec<Entry<u32>>) -> Result<Vec<Entry<usize>>, AllocError>
    ensures { IfOk result (λ v. v.items ≡ list.now.items) }
{
    list.iter().map(widened).collect(*list.allocator())
}

/// Lets the list be at least this long; what is added has the value.
pub(crate) fn reach<T: Copy>(list: &mut Vec<T>, len: usize, value: T) -> Result<(), AllocError>
    ensures values { OnOk result ((k : ℕ) →
        slice_index_or list.new.items k value ≡ slice_index_or list.old.items k value) }
    ensures len { OnOk result (length list.new.items ≡ max len (length list.old.items)) }
{
    if list.len() < len {
        list.resize(len, value)?;
    }
    Ok(())
}

impl Entries {
    /// No entries.
    pub(crate) fn new(alloc: Global) -> Entries
        ensures { listed result ≡ [] }
    {
        Entries::Narrow(Vec::new(alloc))
    }

    /// The entry in the place; None past the last one.
    pub(crate) fn get(&self, place: usize) -> Option<Entry<usize>>
        ensures { result ≡ slice_get (listed self.now) place }
    {
        match self {
            Entries::Narrow(list) => list.get(place).map(widened),
            Entries::Wide(list) => list.get(place).copied(),
        }
    }

    /// Lets the list be wide where the entry needs that. The error says that memory was refused.
    fn make_fit(&mut self, entry: Entry<usize>) -> Result<(), AllocError>
        ensures kept { OnOk result (listed self.new ≡ listed self.old) }
        ensures fits { OnOk result (Fits self.new entry) }
    {
        if entry.row < LIMIT && entry.number < LIMIT {
            return Ok(());
        }
        if let Entries::Narrow(list) = self {
            *self = Entries::Wide(all_widened(list)?);
        }
        Ok(())
    }

    /// Puts the entry into the place. The error says that memory was refused.
    pub(crate) fn set(&mut self, place: usize, entry: Entry<usize>) -> Result<(), AllocError>
        requires { place < length (listed self.old) }
        ensures { OnOk result (listed self.new ≡ slice_set (listed self.old) place entry) }
    {
        self.make_fit(entry)?;
        match self {
            Entries::Narrow(list) => list[place] = narrowed(entry),
            Entries::Wide(list) => list[place] = entry,
        }
        Ok(())
    }

    /// Lets the list be at least this long, by such entries. The error says that memory was refused.
    pub(crate) fn reach(&mut self, len: usize, entry: Entry<usize>) -> Result<(), AllocError>
        ensures values { OnOk result ((k : ℕ) → slice_index_or (listed self.new) k entry
            ≡ slice_index_or (listed self.old) k entry) }
        ensures len { OnOk result (length (listed self.new)
            ≡ max len (length (listed self.old))) }
    {
        self.make_fit(entry)?;
        match self {
            Entries::Narrow(list) => reach(list, len, narrowed(entry)),
            Entries::Wide(list) => reach(list, len, entry),
        }
    }
}
