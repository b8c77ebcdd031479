//! The list in which the entries of a matrix stand, and where its rows are placed: by row displacement, each row at the first
//! place where it fits (Tarjan and Yao 1979).

ghost use Rattle.std.specs.Prelude.{◌≡◌, ◌≢◌, ◌≤◌, ◌<◌, ◌+◌, ◌*◌, ◌^◌, ℕ, length, max, slice_index_or, IfOk, OnOk};
ghost use Rattle.std.specs.List.{All};
ghost use Rattle.std.specs.List.Sorted.{IsStrictlyIncreasing};
ghost use Rattle.lrsparse.specs.Listed.{listed};
ghost use Rattle.lrsparse.specs.Owned.{IsOwned, AreOwned, MeetsNone};
ghost use Rattle.lrsparse.specs.declared.sparsevec.entries.Entry.{Entry};
ghost use Rattle.lrsparse.specs.Entries.{columns_in, row_with};
ghost use Rattle.lrsparse.specs.Places.{IsPlaced, number_at, row_of};
ghost use Rattle.lrsparse.specs.Starts.{AreStarts};

use crate::sparsevec::entries::{Entries, Entry, reach};
use crate::sparsevec::owned::{WORD, full_words, least_displacement, own_columns};
use crate::sparsevec::starts::{Starts, set_of};
use std::alloc::{AllocError, Global};

/// The columns of the entries.
fn columns_of(alloc: Global, entries: &[(usize, usize)]) -> Result<Vec<usize>, AllocError>
    ensures { IfOk result (λ v. v.items ≡ columns_in entries.now) }
{
    entries.iter().map(|entry| entry.0).collect(alloc)
}

/// Puts the entries of the row into the list from the displacement on. The error says that memory was refused.
fn put_entries(
    list: &mut Entries,
    row: usize,
    displacement: usize,
    entries: &[(usize, usize)],
) -> Result<(), AllocError>
    requires upwards { IsStrictlyIncreasing (columns_in entries.now) }
    requires within { All (λ e. displacement + e.0 < length (listed list.old)) entries.now }
    ensures len { OnOk result (length (listed list.new) ≡ length (listed list.old)) }
    ensures put { OnOk result ((past : Entry ℕ) →
        All (λ e. slice_index_or (listed list.new) (displacement + e.0) past
        ≡ record { row = row; number = e.1 }) entries.now) }
    ensures kept { OnOk result ((past : Entry ℕ) (p : ℕ) →
        All (λ e. p ≢ displacement + e.0) entries.now
        → slice_index_or (listed list.new) p past ≡ slice_index_or (listed list.old) p past) }
{
    for (column, number) in entries {
        let entry = Entry {
            row,
            number: *number,
        };
        list.set(displacement + *column, entry)?;
    }
    Ok(())
}

/// The list in which rows are placed, which of its places they own, as the bits of words, how many of these words at the
/// beginning are wholly owned, and the number that stands in the other places.
#[derive(Drop)]
pub(crate) struct Places {
    pub list: Entries,
    pub owned: Vec<u64>,
    pub full: usize,
    pub empty: usize,
}

impl Places {
    /// No places.
    pub(crate) fn new(alloc: Global, empty: usize) -> Places
        ensures placed { IsPlaced 0 result }
        ensures none { length (listed result.list) ≡ 0 }
        ensures empty { result.empty ≡ empty }
    {
        Places {
            list: Entries::new(alloc),
            owned: Vec::new(alloc),
            full: 0,
            empty,
        }
    }

    /// Where the search for a row of these columns may begin: at each displacement below, the first of them meets one of the
    /// places at the beginning that are all owned.
    fn behind_full(&self, columns: &[usize]) -> usize
        requires full { AreOwned self.now.owned.items (64 * self.now.full) }
        requires words { 64 * length self.now.owned.items ≤ length (listed self.now.list) + 64 }
        ensures { (d : ℕ) → d < result → ¬ (MeetsNone self.now.owned.items columns.now d) }
    {
        match columns.first() {
            Some(first) => (self.full * WORD).saturating_sub(*first),
            None => 0,
        }
    }

    /// Places the row of these entries, which stand in these columns, at the least displacement at which none of them meets an
    /// owned place, and answers that. At none below the start none does. The error says that memory was refused.
    fn place_from(
        &mut self,
        start: usize,
        row: usize,
        entries: &[(usize, usize)],
        columns: &[usize],
    ) -> Result<usize, AllocError>
        requires placed { IsPlaced row self.old }
        requires columns { columns.now ≡ columns_in entries.now }
        requires upwards { IsStrictlyIncreasing columns.now }
        requires narrow { All (λ c. c < 2 ^ 60) columns.now }
        requires start { (d : ℕ) → d < start → ¬ (MeetsNone self.old.owned.items columns.now d) }
        ensures empty { OnOk result (self.new.empty ≡ self.old.empty) }
        ensures numbers { IfOk result (λ d. (cols : ℕ)
            → row_of (listed self.new.list) self.old.empty cols row d
            ≡ row_with self.old.empty cols entries.now) }
        ensures others { OnOk result ((q p : ℕ) → q ≢ row
            → number_at (listed self.new.list) self.old.empty q p
            ≡ number_at (listed self.old.list) self.old.empty q p) }
        ensures fits { IfOk result (MeetsNone self.old.owned.items columns.now) }
        ensures least { IfOk result (λ d. (k : ℕ) → k < d
            → ¬ (MeetsNone self.old.owned.items columns.now k)) }
        ensures placed { OnOk result (IsPlaced (row + 1) self.new) }
        ensures owned { OnOk result ((p : ℕ) →
            IsOwned self.old.owned.items p → IsOwned self.new.owned.items p) }
        ensures within { IfOk result (λ d. d ≤ length (listed self.old.list)) }
        ensures short { IfOk result (λ d. (len : ℕ) → length (listed self.old.list) ≤ len
            → All (λ c. d + c < len) columns.now → length (listed self.new.list) ≤ len) }
    {
        let Some(last) = columns.last().copied() else {
            return Ok(0);
        };
        let displacement = least_displacement(self.owned.as_slice(), columns, start);
        let end = displacement + last + 1;
        let unowned = Entry {
            row: 0,
            number: self.empty,
        };
        self.list.reach(end, unowned)?;
        reach(&mut self.owned, end / WORD + 1, 0)?;
        put_entries(&mut self.list, row, displacement, entries)?;
        own_columns(self.owned.as_mut_slice(), columns, displacement);
        self.full = full_words(self.owned.as_slice(), self.full);
        Ok(displacement)
    }
}

/// Places the row of these entries, which then stand in the list, at the least displacement at which none of them meets an
/// owned place, and answers that. The search for it begins where the starts say. The error says that memory was refused.
pub(crate) fn place_row(
    places: &mut Places,
    starts: &mut Starts,
    row: usize,
    entries: &[(usize, usize)],
) -> Result<usize, AllocError>
    requires placed { IsPlaced row places.old }
    requires starts { AreStarts starts.old places.old.owned.items }
    requires upwards { IsStrictlyIncreasing (columns_in entries.now) }
    requires narrow { All (λ e. e.0 < 2 ^ 60) entries.now }
    ensures empty { OnOk result (places.new.empty ≡ places.old.empty) }
    ensures numbers { IfOk result (λ d. (cols : ℕ)
        → row_of (listed places.new.list) places.old.empty cols row d
        ≡ row_with places.old.empty cols entries.now) }
    ensures others { OnOk result ((q p : ℕ) → q ≢ row
        → number_at (listed places.new.list) places.old.empty q p
        ≡ number_at (listed places.old.list) places.old.empty q p) }
    ensures fits { IfOk result (MeetsNone places.old.owned.items (columns_in entries.now)) }
    ensures least { IfOk result (λ d. (k : ℕ) → k < d →
        ¬ (MeetsNone places.old.owned.items (columns_in entries.now) k)) }
    ensures placed { OnOk result (IsPlaced (row + 1) places.new) }
    ensures starts { OnOk result (AreStarts starts.new places.new.owned.items) }
    ensures within { IfOk result (λ d. d ≤ length (listed places.old.list)) }
    ensures short { IfOk result (λ d. (len : ℕ) → length (listed places.old.list) ≤ len
        → All (λ c. d + c < len) (columns_in entries.now) → length (listed places.new.list) ≤ len) }
{
    let columns = columns_of(*places.owned.allocator(), entries)?;
    let set = set_of(*places.owned.allocator(), columns.as_slice())?;
    let start = starts.before(&set, places.behind_full(columns.as_slice()));
    let displacement = places.place_from(start, row, entries, columns.as_slice())?;
    starts.note(set, displacement)?;
    Ok(displacement)
}
