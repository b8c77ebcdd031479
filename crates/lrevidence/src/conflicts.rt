//! Conflicts of a graph, by the numbers of a file.

ghost use Rattle.std.specs.Prelude.{◌≡◌, IfSome, option_map};
ghost use Rattle.lrconflicts.specs.Entries.{entry_of, entry_by};
ghost use Rattle.lrgrammar.specs.Symbols.{number_of};

use lrfindings::Entry;
use lrgrammar::idx::{IndexStorage, PIdx, StIdx, TIdx};
use lrreasons::Conflict;

/// The number of the other production of an entry; None where it is too large.
fn other_of(other: Option<usize>) -> Option<Option<PIdx<u32>>>
    ensures { IfSome result (λ o. option_map (λ p. p.0) o ≡ other) }
{
    match other {
        Some(other) => Some(Some(PIdx(u32::from_usize(other)?))),
        None => Some(None),
    }
}

/// The conflict that an entry is; None where its numbers are too large for 32 bits.
pub(crate) fn conflict_of(entry: Entry) -> Option<Conflict<u32>>
    ensures entry { IfSome result (λ c. entry_of number_of c
        ≡ entry_by entry.token entry.production entry.state entry.other) }
    ensures state { IfSome result (λ c. c.state.0 ≡ entry.state) }
    ensures token { IfSome result (λ c. c.token.0 ≡ entry.token) }
{
    let production = u32::from_usize(entry.production)?;
    Some(Conflict {
        state: StIdx(u32::from_usize(entry.state)?),
        token: TIdx(u32::from_usize(entry.token)?),
        production: PIdx(production),
        other: other_of(entry.other)?,
    })
}
