//! The conflicts of a table, in the order of a file.

ghost use Rattle.std.specs.Prelude.{◌≡◌, ◌++◌, map, Contains, IsTrue, IfOk, OnOk};
ghost use Rattle.std.specs.List.Sorted.{IsPermutation};
ghost use Rattle.lrspec.specs.tables.Table.{lists_of};
ghost use Rattle.lrgrammar.specs.Symbols.{number_of};
ghost use Rattle.lrverdicts.specs.Listed.{Listing, MeetsLike, told, listed, shift_listing, reduction_listing};
ghost use Rattle.lrrows.specs.StoredLists.{stored_shift_reduce, stored_reduce_reduce};

use lrcells::statetable::{Conflicts, StateTable};
use lrgrammar::idx::{PIdx, StIdx, TIdx};
use lryacc::{FileGrammar, Span};
use std::alloc::{AllocError, Global};

/// What meets at a token in a state: a production by which the state could reduce, and something else. Entries stand in the
/// order of the file, by where that production stands, and then by state.
#[derive(Clone, Copy, Debug, PartialEq, Eq, PartialOrd, Ord)]
pub struct Entry {
    /// The byte of the file at which the body of the production begins.
    pub place: usize,
    /// The state.
    pub state: usize,
    /// The production by which it could reduce.
    pub production: usize,
    /// The other production by which it could reduce; None where it could shift.
    pub other: Option<usize>,
    /// The token.
    pub token: usize,
}

impl Entry {
    /// Whether the same meets in the same state, perhaps at another token.
    pub fn meets_like(&self, entry: &Entry) -> bool
        ensures like { IsTrue result → MeetsLike self.now entry.now }
        ensures unlike { MeetsLike self.now entry.now → IsTrue result }
    {
        self.state == entry.state
            && self.production == entry.production
            && self.other == entry.other
    }
}

/// Whether an entry is one of a list, which is in order.
pub fn is_among(list: &[Entry], entry: &Entry) -> bool
    ensures { IsTrue result → Contains list.now entry.now }
{
    match list.binary_search(entry) {
        Ok(at) => list[at] == *entry,
        Err(_) => false,
    }
}

/// Where the body of a production stands.
pub fn place_of(file: &FileGrammar, production: usize) -> usize {
    let place = file.production_places.get(production).copied();
    place.unwrap_or(Span::new(0, 0)).start
}

/// A conflict of one of the lists of a table.
trait Listed: Copy {
    // What it tells.
    ghost listing: { Self → Listing };

    /// Its entry.
    fn entry(self, file: &FileGrammar) -> Entry
        ensures { told result ≡ listing self };
}

/// A shift/reduce conflict: token, production and state.
impl Listed for (TIdx<u32>, PIdx<u32>, StIdx<u32>) {
    ghost listing = { λ c. shift_listing (stored_shift_reduce number_of c) };

    fn entry(self, file: &FileGrammar) -> Entry {
        let (token, production, state) = self;
        let production = usize::from(production);
        Entry {
            place: place_of(file, production),
            state: usize::from(state),
            production,
            other: None,
            token: usize::from(token),
        }
    }
}

/// A reduce/reduce conflict: token, both productions, and state.
impl Listed for (TIdx<u32>, PIdx<u32>, PIdx<u32>, StIdx<u32>) {
    ghost listing = { λ c. reduction_listing (stored_reduce_reduce number_of c) };

    fn entry(self, file: &FileGrammar) -> Entry {
        let (token, production, other, state) = self;
        let production = usize::from(production);
        Entry {
            place: place_of(file, production),
            state: usize::from(state),
            production,
            other: Some(usize::from(other)),
            token: usize::from(token),
        }
    }
}

/// Adds the conflicts of a list.
fn push_listed<C: Listed>(
    entries: &mut Vec<Entry>,
    file: &FileGrammar,
    conflicts: &[C],
) -> Result<(), AllocError>
    ensures { OnOk result (map told entries.new.items
        ≡ map told entries.old.items ++ map C.listing conflicts.now) }
{
    for conflict in conflicts {
        entries.push(conflict.entry(file))?;
    }
    Ok(())
}

/// Adds both lists.
fn push_conflicts(
    entries: &mut Vec<Entry>,
    file: &FileGrammar,
    conflicts: &Conflicts<u32>,
) -> Result<(), AllocError>
    ensures { OnOk result (map told entries.new.items
        ≡ map told entries.old.items ++ listed conflicts.now) }
{
    push_listed(entries, file, conflicts.sr_conflicts().as_slice())?;
    push_listed(entries, file, conflicts.rr_conflicts().as_slice())?;
    Ok(())
}

/// The entries of both lists of a table, each once.
pub fn entries_of(
    alloc: Global,
    file: &FileGrammar,
    table: &StateTable<u32>,
) -> Result<Vec<Entry>, AllocError>
    ensures { IfOk result (λ entries.
        IsPermutation (listed (lists_of table.now)) (map told entries.items)) }
{
    let mut entries = Vec::new(alloc);
    if let Some(conflicts) = table.conflicts() {
        push_conflicts(&mut entries, file, conflicts)?;
    }
    entries.sort_unstable();
    Ok(entries)
}
