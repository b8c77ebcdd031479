//! Whether the parser accepts every sentence, whatever precedences and the order of rules decide, and at which entries it loses none.

ghost use Rattle.std.specs.Prelude.{◌≡◌, ◌≢◌, [], All, IfOk, IfSome, OnOk};
ghost use Rattle.lrspec.specs.merging.Graph.{IsGraphOf};
ghost use Rattle.lrspec.specs.tables.Table.{IsTableOf};
ghost use Rattle.lrsearches.specs.StoredWays.{AreWaysOf};
ghost use Rattle.lrkept.specs.Keeping.{IsWon};
ghost use Rattle.lrgrammar.specs.Symbols.{number_of};
ghost use Rattle.lrevidence.specs.KeptEntries.{IsKeptEntry, AreToldKept};
ghost use Rattle.lrentries.specs.Losses.{ResolvesPairs};
ghost use Rattle.lrshown.specs.Exactness.{Exact, ButAtErrors, Open, IsExact, IsExactButAtErrors, IsToldExact};

use crate::evidence::Effort;
use crate::keeping::kept_by_each;
use lrentries::are_crowded;
use lrfindings::{Entry, Findings};
use lrkept::{Automaton, Certificate, exactness};
use lrsearches::Ways;
use lrshown::{Evidence, Exactness};
use std::alloc::{AllocError, Global};

/// What is found to lose no sentence.
#[derive(Debug, PartialEq, Eq, Drop)]
pub struct Accepted {
    /// Whether the parser accepts every sentence.
    pub exactness: Exactness,
    /// Entries at which no sentence is lost by what the table does.
    pub kept: Vec<Entry>,
}

impl Accepted {
    /// Where nothing is found.
    pub fn nothing(alloc: Global) -> Accepted
        ensures exactness { result.exactness ≡ Open }
        ensures kept { result.kept.items ≡ [] }
    {
        Accepted {
            exactness: Exactness::Open,
            kept: Vec::new(alloc),
        }
    }
}

/// Whether a sentence is known that the parser rejects because of one of the entries.
fn is_any_lost(evidence: &[Evidence]) -> bool {
    evidence.iter().any(|it| it.loss.is_some())
}

/// Whether something meets in cells of the table, and no sentence is known that the parser rejects because of it: such a one shows
/// that it doesn't accept every sentence.
fn may_be_exact(found: &Findings, evidence: &[Evidence], resolved: &[Evidence]) -> bool {
    let has_choice = !(found.left.is_empty() && found.resolved.is_empty());
    has_choice && !is_any_lost(evidence) && !is_any_lost(resolved)
}

/// Adds the entries for which no sentence is known that the parser rejects.
fn add_unlost(entries: &mut Vec<Entry>, evidence: &[Evidence]) -> Result<(), AllocError> {
    for known in evidence {
        if known.loss.is_none() {
            entries.push(known.entry)?;
        }
    }
    Ok(())
}

/// The entries of both for which no sentence is known that the parser rejects, in order.
fn unlost(
    alloc: Global,
    evidence: &[Evidence],
    resolved: &[Evidence],
) -> Result<Vec<Entry>, AllocError> {
    let mut entries = Vec::new(alloc);
    add_unlost(&mut entries, evidence)?;
    add_unlost(&mut entries, resolved)?;
    entries.sort_unstable();
    Ok(entries)
}

/// How exact the table is, as far as a search shows that looks at so many positions: none for 0.
fn exactness_within(
    automaton: Automaton<'_>,
    certificate: &mut Certificate,
    positions: usize,
) -> Result<Exactness, AllocError>
    requires graph { IsGraphOf automaton.grm.now automaton.graph.now }
    requires table { IsTableOf automaton.grm.now automaton.graph.now automaton.table.now }
    requires ways { AreWaysOf number_of automaton.grm.now automaton.graph.now automaton.ways.now }
    requires won { IsWon automaton.grm.now automaton.graph.now certificate.old }
    ensures won { OnOk result (IsWon automaton.entry.grm.now automaton.entry.graph.now
        certificate.new) }
    ensures exact { IfOk result (λ e. e ≡ Exact
        → IsExact automaton.entry.grm.now automaton.entry.table.now) }
    ensures but_at_errors { IfOk result (λ e. e ≡ ButAtErrors → IsExactButAtErrors
        automaton.entry.grm.now automaton.entry.graph.now automaton.entry.table.now) }
{
    if positions == 0 {
        return Ok(Exactness::Open);
    }
    let mut left = positions;
    exactness(automaton, certificate, &mut left)
}

/// How exact the table is, and at which of the entries no sentence is lost, as far as searches show that look at so many positions;
/// these share what they find.
fn accepted_within(
    automaton: Automaton<'_>,
    entries: &[Entry],
    positions: usize,
    positions_of_entries: usize,
) -> Result<Accepted, AllocError>
    requires graph { IsGraphOf automaton.grm.now automaton.graph.now }
    requires table { IsTableOf automaton.grm.now automaton.graph.now automaton.table.now }
    requires ways { AreWaysOf number_of automaton.grm.now automaton.graph.now automaton.ways.now }
    ensures exact { IfOk result (λ a. a.exactness ≡ Exact
        → IsExact automaton.entry.grm.now automaton.entry.table.now) }
    ensures but_at_errors { IfOk result (λ a. a.exactness ≡ ButAtErrors → IsExactButAtErrors
        automaton.entry.grm.now automaton.entry.graph.now automaton.entry.table.now) }
    ensures kept { IfOk result (λ a. All (IsKeptEntry automaton.entry.grm.now
        automaton.entry.graph.now automaton.entry.table.now) a.kept.items) }
{
    let mut certificate = Certificate::new(automaton.grm.allocator())?;
    let exactness = exactness_within(automaton, &mut certificate, positions)?;
    let mut left = positions_of_entries;
    let kept = kept_by_each(automaton, entries, &mut certificate, &mut left)?;
    Ok(Accepted { exactness, kept })
}

/// Whether the parser accepts every sentence, although something meets in cells of its table, and at which entries it loses none, as
/// far as searches show. This is known of the conflicts, and of what precedences resolve. Nothing is told where Bison's table may be
/// another one.
pub fn accepted_of(
    found: &Findings,
    evidence: &[Evidence],
    resolved: &[Evidence],
    effort: Effort,
) -> Result<Accepted, AllocError>
    requires graph { IfSome found.now.graph (IsGraphOf found.now.grm) }
    requires table { IfSome found.now.graph (λ h. IsTableOf found.now.grm h found.now.table) }
    ensures told { IfOk result (λ a.
        IsToldExact found.now.grm found.now.graph found.now.table a.exactness) }
    ensures kept { IfOk result (λ a.
        AreToldKept found.now.grm found.now.graph found.now.table a.kept.items) }
    ensures exact_pairs { IfOk result (λ a. a.exactness ≢ Open → ResolvesPairs found.now) }
    ensures kept_pairs { IfOk result (λ a. a.kept.items ≢ [] → ResolvesPairs found.now) }
{
    let alloc = found.grm.allocator();
    let positions = if may_be_exact(found, evidence, resolved) {
        effort.positions
    } else {
        0
    };
    let entries = if effort.positions_of_entries > 0 {
        unlost(alloc, evidence, resolved)?
    } else {
        Vec::new(alloc)
    };
    let is_asked = positions > 0 || !entries.is_empty();
    let (Some(graph), true) = (&found.graph, is_asked) else {
        return Ok(Accepted::nothing(alloc));
    };
    if are_crowded(alloc, found)? {
        return Ok(Accepted::nothing(alloc));
    }
    let ways = Ways::new(&found.grm, graph)?;
    let automaton = Automaton {
        grm: &found.grm,
        graph,
        table: &found.table,
        ways: &ways,
    };
    let of_entries = effort.positions_of_entries;
    let accepted = accepted_within(automaton, entries.as_slice(), positions, of_entries)?;
    Ok(accepted)
}
