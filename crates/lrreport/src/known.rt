//! What is known of the grammar of a file.

ghost use Rattle.std.specs.Prelude.{◌≡◌, [], true, None, All, map, IfOk, IfSome, IsTrue, MatchOption};
ghost use Rattle.lrspec.specs.merging.Graph.{IsGraphOf};
ghost use Rattle.lrspec.specs.tables.Conflicts.{AreReductionsContested};
ghost use Rattle.lrspec.specs.tables.Recognition.{IsUnambiguous};
ghost use Rattle.lrspec.specs.tables.Table.{IsTableFor, IsTableOf};
ghost use Rattle.lryacc.specs.Parsers.{splits};
ghost use Rattle.lrfindings.specs.Findings.{FindNothing};
ghost use Rattle.lrverdicts.specs.Verdicts.{counts_of};
ghost use Rattle.lrshown.specs.Exactness.{IsToldExact, Open};
ghost use Rattle.lrevidence.specs.Ambiguities.{HasTwoTrees, IsProved, PartsAtEntry};
ghost use Rattle.lrevidence.specs.Entries.{AreListedIn};
ghost use Rattle.lrevidence.specs.Losses.{IsLostAtEntry};
ghost use Rattle.lrevidence.specs.DecidedEntries.{IsToldDecided};
ghost use Rattle.lrevidence.specs.KeptEntries.{AreToldKept};
ghost use Rattle.lrreport.specs.Conclusions.{known_by, without_loss};

use crate::efforts::{MANY, effort_of, losses_by, work_of};
use crate::options::Options;
use lrdiagnostics::Source;
use lrevidence::{
    Accepted, Ambiguity, Effort, Evidence, Exactness, accepted_of, evidence_for, find_ambiguity,
    shows_unambiguous,
};
use lrfindings::{Counts, Entry, Findings, Resolved};
use lryacc::{Expected, Fault, FileGrammar, Parser};
use std::alloc::{AllocError, Global};

/// A file that was read as a grammar.
#[derive(Clone, Copy)]
pub(crate) struct Read<'a> {
    pub(crate) source: &'a Source<'a>,
    pub(crate) file: &'a FileGrammar,
    pub(crate) expected: Expected,
    pub(crate) parser: &'a Parser,
    pub(crate) warnings: &'a [Fault],
}

/// A file in which nothing is checked.
#[derive(Clone, Copy)]
pub(crate) struct Unread<'a> {
    pub(crate) source: &'a Source<'a>,
    /// Its grammar; None where it is no grammar.
    pub(crate) file: Option<&'a FileGrammar>,
    pub(crate) warnings: &'a [Fault],
    /// Why it is no grammar.
    pub(crate) faults: &'a [Fault],
    /// Why its grammar can't be checked.
    pub(crate) why: Option<&'a str>,
}

/// What is known of a grammar beside what was found in it.
#[derive(Drop)]
pub(crate) struct Known {
    /// How many conflicts are left open.
    pub(crate) left: Counts,
    /// Whether it is shown that no sentence has two trees although some are left open.
    pub(crate) is_unambiguous: bool,
    /// Whether it is shown that the parser accepts every sentence although something meets in cells of the table.
    pub(crate) exactness: Exactness,
    /// Of the conflicts that are left open.
    pub(crate) evidence: Vec<Evidence>,
    /// Of what precedences resolve, where that is asked for.
    pub(crate) resolved: Vec<Evidence>,
    /// At which of both no sentence is lost, where that is shown, in the order of the file.
    pub(crate) kept: Vec<Entry>,
    /// A sentence with two trees, where precedences resolve all conflicts.
    pub(crate) decided: Option<Ambiguity>,
}

/// The entries that precedences resolve.
fn resolved_entries(alloc: Global, resolved: &[Resolved]) -> Result<Vec<Entry>, AllocError>
    ensures { IfOk result (λ v. v.items ≡ map (λ s. s.entry) resolved.now) }
{
    let mut entries = Vec::new(alloc);
    for one in resolved {
        entries.push(one.entry)?;
    }
    Ok(entries)
}

/// What is known of entries, but for sentences that are rejected.
fn without_losses(alloc: Global, evidence: Vec<Evidence>) -> Result<Vec<Evidence>, AllocError>
    ensures { IfOk result (λ v. v.items ≡ map without_loss evidence.items) }
{
    evidence
        .into_iter()
        .map(|it| Evidence { loss: None, ..it })
        .collect(alloc)
}

/// What is known of the conflicts of a file for such a parser. One that splits at a conflict rejects no sentence because of it.
fn evidence_by(
    alloc: Global,
    parser: &Parser,
    evidence: Vec<Evidence>,
) -> Result<Vec<Evidence>, AllocError>
    ensures { IfOk result (λ v. v.items ≡ known_by parser.now evidence.items) }
{
    if parser.splits() {
        without_losses(alloc, evidence)
    } else {
        Ok(evidence)
    }
}

/// Whether such a parser of a file accepts every sentence, and at which of the entries it loses none, as far as that is shown. Of one
/// that splits at a conflict nothing is told: it may stop where a text has two trees.
fn accepted_by(
    parser: &Parser,
    found: &Findings,
    evidence: &[Evidence],
    resolved: &[Evidence],
    effort: Effort,
) -> Result<Accepted, AllocError>
    requires graph { IfSome found.now.graph (IsGraphOf found.now.grm) }
    requires table { IfSome found.now.graph (λ h. IsTableOf found.now.grm h found.now.table) }
    ensures exact { IfOk result (λ a.
        IsToldExact found.now.grm found.now.graph found.now.table a.exactness) }
    ensures kept { IfOk result (λ a.
        AreToldKept found.now.grm found.now.graph found.now.table a.kept.items) }
    ensures untold { splits parser.now ≡ true → IfOk result (λ a. a.exactness ≡ Open) }
    ensures unkept { splits parser.now ≡ true → IfOk result (λ a. a.kept.items ≡ []) }
{
    if parser.splits() {
        return Ok(Accepted::nothing(found.grm.allocator()));
    }
    let count = found.left.len().saturating_add(found.resolved.len());
    let positions = if count > MANY { 0 } else { effort.positions };
    let effort = Effort {
        positions,
        ..effort
    };
    let accepted = accepted_of(found, evidence, resolved, effort)?;
    Ok(accepted)
}

/// A sentence with two trees at what precedences resolve, where they resolve all conflicts.
fn decided_of(
    alloc: Global,
    found: &Findings,
    options: Options,
) -> Result<Option<Ambiguity>, AllocError>
    requires { IfSome found.now.graph (IsGraphOf found.now.grm) }
    ensures { IfOk result (λ decided. IfSome decided (HasTwoTrees found.now.grm)) }
{
    if !found.left.is_empty() || found.resolved.is_empty() {
        return Ok(None);
    }
    let entries = resolved_entries(alloc, found.resolved.as_slice())?;
    let (entries, steps) = (entries.as_slice(), options.steps);
    let decided = find_ambiguity(alloc, found, entries, steps, work_of(options))?;
    Ok(decided)
}

/// What is known of what precedences resolve, where that is asked for.
fn known_resolved(
    alloc: Global,
    read: Read<'_>,
    found: &Findings,
    effort: Effort,
    options: Options,
) -> Result<Vec<Evidence>, AllocError>
    requires graph { MatchOption found.now.graph (FindNothing found.now) (IsGraphOf found.now.grm) }
    requires listed { IfSome found.now.graph (λ h.
        AreListedIn found.now.grm h found.now.conflicts.items) }
    requires contested { IfSome found.now.graph (AreReductionsContested found.now.grm) }
    requires table { IfSome found.now.graph (λ h. IsTableOf found.now.grm h found.now.table) }
    ensures proved { IfOk result (λ v. All (IsProved found.now.grm) v.items) }
    ensures lost { IfOk result (λ v. All (IsLostAtEntry found.now.grm found.now.table) v.items) }
{
    if !options.detail.resolved {
        return Ok(Vec::new(alloc));
    }
    let effort = Effort {
        losses_in_any_case: losses_by(read.parser, usize::MAX),
        ..effort
    };
    let entries = resolved_entries(alloc, found.resolved.as_slice())?;
    let known = evidence_for(alloc, read.file, found, entries.as_slice(), effort)?;
    Ok(known)
}

/// What is known of a grammar beside what was found in it.
pub(crate) fn known_of(
    alloc: Global,
    read: Read<'_>,
    found: &Findings,
    options: Options,
) -> Result<Known, AllocError>
    requires graph { MatchOption found.now.graph (FindNothing found.now) (IsGraphOf found.now.grm) }
    requires listed { IfSome found.now.graph (λ h.
        AreListedIn found.now.grm h found.now.conflicts.items) }
    requires contested { IfSome found.now.graph (AreReductionsContested found.now.grm) }
    requires table { IsTableFor found.now.grm found.now.table }
    requires table_of { IfSome found.now.graph (λ h. IsTableOf found.now.grm h found.now.table) }
    ensures left { IfOk result (λ k. map (λ e. e.entry) k.evidence.items ≡ found.now.left.items) }
    ensures unambiguous { IfOk result (λ k. IsTrue k.is_unambiguous
        → IsUnambiguous found.now.grm) }
    ensures counts { IfOk result (λ k. k.left ≡ counts_of (map (λ e. e.entry) k.evidence.items)) }
    ensures proved { IfOk result (λ k. All (IsProved found.now.grm) k.evidence.items) }
    ensures parts { IfOk result (λ k. MatchOption found.now.graph (k.evidence.items ≡ [])
        (λ h. All (PartsAtEntry found.now.grm h) k.evidence.items)) }
    ensures lost { IfOk result (λ k.
        All (IsLostAtEntry found.now.grm found.now.table) k.evidence.items) }
    ensures entries { IfOk result (λ k.
        All (IsToldDecided found.now.grm found.now.graph) k.evidence.items) }
    ensures resolved { IfOk result (λ k. All (IsProved found.now.grm) k.resolved.items) }
    ensures settled { IfOk result (λ k.
        All (IsLostAtEntry found.now.grm found.now.table) k.resolved.items) }
    ensures decided { IfOk result (λ k. IfSome k.decided (HasTwoTrees found.now.grm)) }
    ensures exact { IfOk result (λ k.
        IsToldExact found.now.grm found.now.graph found.now.table k.exactness) }
    ensures kept { IfOk result (λ k.
        AreToldKept found.now.grm found.now.graph found.now.table k.kept.items) }
    ensures unlost { splits read.entry.parser.now ≡ true → IfOk result (λ k.
        All (λ e. e.loss ≡ None) k.evidence.items) }
    ensures untold { splits read.entry.parser.now ≡ true → IfOk result (λ k.
        k.exactness ≡ Open) }
    ensures unkept { splits read.entry.parser.now ≡ true → IfOk result (λ k.
        k.kept.items ≡ []) }
{
    let effort = effort_of(read.parser, found.states, options);
    let entries = found.left.as_slice();
    let all = evidence_for(alloc, read.file, found, entries, effort)?;
    let evidence = evidence_by(alloc, read.parser, all)?;
    let is_unambiguous = shows_unambiguous(found, evidence.as_slice(), effort)?;
    let decided = decided_of(alloc, found, options)?;
    let resolved = known_resolved(alloc, read, found, effort, options)?;
    let (known, settled) = (evidence.as_slice(), resolved.as_slice());
    let Accepted { exactness, kept } = accepted_by(read.parser, found, known, settled, effort)?;
    Ok(Known {
        left: Counts::of(entries),
        is_unambiguous,
        exactness,
        evidence,
        resolved,
        kept,
        decided,
    })
}
