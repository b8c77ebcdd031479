//! Conflicts: the entries of a table's lists.

ghost use Rattle.std.specs.Prelude.{◌≡◌, ◌++◌, map, IfOk, OnOk};
ghost use Rattle.lrrows.specs.StoredLists.{stored_shift_reduce, stored_reduce_reduce};
ghost use Rattle.lrconflicts.specs.StoredMoves.{move_of};
ghost use Rattle.lrconflicts.specs.Entries.{ShiftReduce, ReduceReduce, entries_of, entry_of, other_of};

use crate::moves::Move;
use lrcells::statetable::Conflicts;
use lrgrammar::idx::{IndexStorage, PIdx, StIdx, TIdx};
use std::alloc::{AllocError, Global};

/// An entry of a table's lists of conflicts.
#[derive(Clone, Copy, Debug, PartialEq, Eq)]
pub struct Conflict<T> {
    /// The state in which two steps meet.
    pub state: StIdx<T>,
    /// The next token, or the end token.
    pub token: TIdx<T>,
    /// The production by which the state could reduce.
    pub production: PIdx<T>,
    /// Another one by which it could; None where it could shift the token.
    pub other: Option<PIdx<T>>,
}

/// What the conflict's other candidate is: its shift, or the reduction by its other production.
pub fn other_move<T: IndexStorage>(conflict: &Conflict<T>) -> Move<T>
    ensures { move_of T.number result ≡ other_of (entry_of T.number conflict.now) }
{
    match conflict.other {
        Some(other) => Move::Reduce(other),
        None => Move::Shift,
    }
}

/// The entry of a shift/reduce conflict: token, production and state.
fn shift_entry<T: IndexStorage>(entry: (TIdx<T>, PIdx<T>, StIdx<T>)) -> Conflict<T>
    ensures { entry_of T.number result ≡ ShiftReduce (stored_shift_reduce T.number entry) }
{
    let (token, production, state) = entry;
    Conflict {
        state,
        token,
        production,
        other: None,
    }
}

/// The entry of a reduce/reduce conflict: token, both productions, and state.
fn reduction_entry<T: IndexStorage>(entry: (TIdx<T>, PIdx<T>, PIdx<T>, StIdx<T>)) -> Conflict<T>
    ensures { entry_of T.number result ≡ ReduceReduce (stored_reduce_reduce T.number entry) }
{
    let (token, production, other, state) = entry;
    Conflict {
        state,
        token,
        production,
        other: Some(other),
    }
}

/// Adds the shift/reduce conflicts.
fn push_shift_reduce<T: IndexStorage>(
    entries: &mut Vec<Conflict<T>>,
    conflicts: &[(TIdx<T>, PIdx<T>, StIdx<T>)],
) -> Result<(), AllocError>
    ensures { OnOk result (map (entry_of T.number) entries.new.items
        ≡ map (entry_of T.number) entries.old.items
        ++ map (λ e. ShiftReduce (stored_shift_reduce T.number e)) conflicts.now) }
{
    for conflict in conflicts {
        entries.push(shift_entry(*conflict))?;
    }
    Ok(())
}

/// Adds the reduce/reduce conflicts.
fn push_reduce_reduce<T: IndexStorage>(
    entries: &mut Vec<Conflict<T>>,
    conflicts: &[(TIdx<T>, PIdx<T>, PIdx<T>, StIdx<T>)],
) -> Result<(), AllocError>
    ensures { OnOk result (map (entry_of T.number) entries.new.items
        ≡ map (entry_of T.number) entries.old.items
        ++ map (λ e. ReduceReduce (stored_reduce_reduce T.number e)) conflicts.now) }
{
    for conflict in conflicts {
        entries.push(reduction_entry(*conflict))?;
    }
    Ok(())
}

/// The entries of both lists, shift/reduce conflicts first.
pub fn entries<T: IndexStorage>(
    alloc: Global,
    conflicts: &Conflicts<T>,
) -> Result<Vec<Conflict<T>>, AllocError>
    ensures { IfOk result (λ v. map (entry_of T.number) v.items ≡ entries_of conflicts.now) }
{
    let mut entries = Vec::new(alloc);
    push_shift_reduce(&mut entries, conflicts.sr_conflicts().as_slice())?;
    push_reduce_reduce(&mut entries, conflicts.rr_conflicts().as_slice())?;
    Ok(entries)
}
