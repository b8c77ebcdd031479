//! Entries at which no sentence is lost by what the table does.

ghost use Rattle.std.specs.Prelude.{All, IfOk, IsTrue, OnOk};
ghost use Rattle.lrspec.specs.merging.Graph.{IsGraphOf};
ghost use Rattle.lrspec.specs.tables.Table.{IsTableOf};
ghost use Rattle.lrsearches.specs.StoredWays.{AreWaysOf};
ghost use Rattle.lrkept.specs.Keeping.{IsWon};
ghost use Rattle.lrgrammar.specs.Symbols.{number_of};
ghost use Rattle.lrevidence.specs.KeptEntries.{IsKeptEntry};

use lrentries::meeting;
use lrfindings::Entry;
use lrkept::{Automaton, Certificate, is_kept};
use std::alloc::AllocError;

/// Whether it is found that both moves are kept that meet in the entry. Searches look at as many positions as are left, and take
/// them from these; they share the certificate.
fn is_kept_entry(
    automaton: Automaton<'_>,
    entry: Entry,
    certificate: &mut Certificate,
    left: &mut usize,
) -> Result<bool, AllocError>
    requires graph { IsGraphOf automaton.grm.now automaton.graph.now }
    requires table { IsTableOf automaton.grm.now automaton.graph.now automaton.table.now }
    requires ways { AreWaysOf number_of automaton.grm.now automaton.graph.now automaton.ways.now }
    requires won { IsWon automaton.grm.now automaton.graph.now certificate.old }
    ensures won { OnOk result (IsWon automaton.entry.grm.now automaton.entry.graph.now
        certificate.new) }
    ensures kept { IfOk result (λ b. IsTrue b → IsKeptEntry automaton.entry.grm.now
        automaton.entry.graph.now automaton.entry.table.now entry) }
{
    let Some(meeting) = meeting(entry) else {
        return Ok(false);
    };
    if usize::from(meeting.state) >= usize::from(automaton.graph.all_states_len()) {
        return Ok(false);
    }
    let cell = (meeting.state, meeting.token);
    if !is_kept(automaton, cell, meeting.one, certificate, left)? {
        return Ok(false);
    }
    let other = is_kept(automaton, cell, meeting.other, certificate, left)?;
    Ok(other)
}

/// Those of the entries of which that is found, before no positions are left.
pub(crate) fn kept_by_each(
    automaton: Automaton<'_>,
    entries: &[Entry],
    certificate: &mut Certificate,
    left: &mut usize,
) -> Result<Vec<Entry>, AllocError>
    requires graph { IsGraphOf automaton.grm.now automaton.graph.now }
    requires table { IsTableOf automaton.grm.now automaton.graph.now automaton.table.now }
    requires ways { AreWaysOf number_of automaton.grm.now automaton.graph.now automaton.ways.now }
    requires won { IsWon automaton.grm.now automaton.graph.now certificate.old }
    ensures { IfOk result (λ v. All (IsKeptEntry automaton.entry.grm.now
        automaton.entry.graph.now automaton.entry.table.now) v.items) }
{
    let mut kept = Vec::new(automaton.grm.allocator());
    for entry in entries {
        if *left == 0 {
            return Ok(kept);
        }
        if is_kept_entry(automaton, *entry, certificate, left)? {
            kept.push(*entry)?;
        }
    }
    Ok(kept)
}
