//! Why there are conflicts.

ghost use Rattle.std.specs.Prelude.{◌≡◌, [], map, All, IfOk, IfSome, MatchOption, option_map};
ghost use Rattle.lrspec.specs.merging.Graph.{IsGraphOf};
ghost use Rattle.lrspec.specs.tables.Conflicts.{AreReductionsContested};
ghost use Rattle.lrspec.specs.tables.Table.{IsTableOf};
ghost use Rattle.lrconflicts.specs.Entries.{entry_of, IsListed};
ghost use Rattle.lrgrammar.specs.Symbols.{number_of};
ghost use Rattle.lrevidence.specs.Entries.{AreListedIn};
ghost use Rattle.lrevidence.specs.Ambiguities.{HasTwoTrees, IsProved, PartsAtEntry};
ghost use Rattle.lrentries.specs.Losses.{ResolvesPairs};
ghost use Rattle.lrevidence.specs.Losses.{IsDoomedAtEntry, IsFoundAtEntry, IsLostAtEntry, StopsAtEntry};
ghost use Rattle.lrevidence.specs.DecidedEntries.{IsDecidedEntry, IsDecidedOf, IsToldDecided};
ghost use Rattle.lrevidence.specs.Searches.{AreFor, AreOfOne, IsKnownBy};

use crate::conflicts::conflict_of;
use crate::examples::Numbering;
use crate::searches::Searches;
use crate::texts::{Shown, loss_found, shown_at};
use lrentries::{Decisions, LossSearch, ambiguity_at};
use lrfindings::{Entry, Findings, is_among};
use lrreasons::{Conflict, Reasons};
pub use lrshown::Evidence;
use lrshown::{Ambiguity, Decided, Example};
use lrtable::StateGraph;
use lryacc::FileGrammar;
use std::alloc::{AllocError, Global};

/// What is looked for.
#[derive(Clone, Copy, Debug, PartialEq, Eq)]
pub struct Effort {
    /// How many steps a search for a sentence with two trees takes at the most, for each entry; for 0 there is none.
    pub steps: usize,
    /// How much work all searches for sentences with two trees may do together, in pieces of the size of `Reasons::allow`, and as
    /// much those for sentences that the parser rejects, in pieces of the size of `Losses::allow`.
    pub work: usize,
    /// For how many entries it is told at the most after what they are real: for the first ones.
    pub examples: usize,
    /// Of how many entries without such a sentence other texts are tried at the least, if searches take any steps: of the first ones.
    pub losses: usize,
    /// For how many of these, if no text has two trees, it is searched whether none can have.
    pub decisions: usize,
    /// How many nodes such a search looks at.
    pub nodes: usize,
    /// How many positions searches look at whether the parser accepts every sentence; for 0 there are none.
    pub positions: usize,
    /// How many positions those look at whether no sentence is lost at each entry; for 0 there are none.
    pub positions_of_entries: usize,
    /// Whether each entry counts, and not only the first of those that stand together, because the same meets at them in the same
    /// state.
    pub counts_each: bool,
    /// At how many entries a sentence that the parser rejects is looked for in any case, also where one has two trees, or where no
    /// list of the table has the entry: at each, if there are no more, and else at the first ones of those that stand together.
    pub losses_in_any_case: usize,
}

/// At how many of the entries that stand together, where not each is tried: until one is found.
const FIRST_TOGETHER: usize = 3;

/// How many pairs of stacks a search for a sentence that the parser rejects looks at where one is looked for in any case: at each of
/// few entries, and at each of more.
const FEW: usize = 100;

const PAIRS_AT_FEW: usize = 40;

const PAIRS_AT_MANY: usize = 10;

/// Whether an entry is the first of those that stand together, behind what is known of those before it.
fn is_first(before: &[Evidence], entry: &Entry) -> bool {
    match before.last() {
        Some(last) => !last.entry.meets_like(entry),
        None => true,
    }
}

/// Whether an entry is one of the first of those that stand together, and for none of these before it a sentence is known that the
/// parser rejects.
fn is_among_first(before: &[Evidence], entry: &Entry) -> bool {
    let mut left = FIRST_TOGETHER;
    for known in before.iter().rev() {
        if !known.entry.meets_like(entry) {
            return true;
        }
        left = left.saturating_sub(1);
        if left == 0 || known.loss.is_some() {
            return false;
        }
    }
    true
}

impl Effort {
    /// Whether an entry counts, behind what is known of those before it.
    fn counts(self, before: &[Evidence], entry: &Entry) -> bool {
        self.counts_each || is_first(before, entry)
    }

    /// Whether a sentence that the parser rejects is looked for in any case at an entry of so many, behind what is known of those
    /// before it, at so many of which that was done.
    fn seeks_loss(self, before: &[Evidence], entry: &Entry, all: usize, done: usize) -> bool {
        let most = self.losses_in_any_case;
        self.steps > 0 && done < most && (all <= most || is_among_first(before, entry))
    }

    /// How many pairs of stacks that search looks at there; 0 where there is none.
    fn pairs(self, before: &[Evidence], entry: &Entry, all: usize, done: usize) -> usize {
        if !self.seeks_loss(before, entry, all, done) {
            return 0;
        }
        if all <= FEW {
            return PAIRS_AT_FEW;
        }
        PAIRS_AT_MANY
    }
}

/// What is looked for of an entry.
#[derive(Clone, Copy)]
struct Wanted {
    /// How many steps a search for a sentence with two trees takes.
    steps: usize,
    /// Whether it is told after what the entry is real, where there is no such sentence.
    has_example: bool,
    /// Whether other texts are tried then: they may have two trees, or be rejected by the parser.
    has_texts: bool,
    /// How many pairs of stacks are looked at for a sentence that the parser rejects, in any case; for 0 none is looked for.
    pairs: usize,
}

impl Wanted {
    /// Whether something is looked for where there is no such sentence.
    fn has_more(self) -> bool {
        self.has_example || self.has_texts
    }
}

/// A value in a box, if there is one.
fn boxed<T: Drop>(alloc: Global, value: Option<T>) -> Result<Option<Box<T>>, AllocError>
    ensures { IfOk result (λ o. option_map (λ b. b.value) o ≡ value) }
{
    match value {
        Some(value) => Ok(Some(Box::new(alloc, value)?)),
        None => Ok(None),
    }
}

/// After what the conflict is real, by the numbers of the file.
fn told_example(
    searches: &Searches<'_>,
    example: &lrreasons::Example,
) -> Result<Box<Example>, AllocError> {
    let alloc = searches.allocator();
    let told = searches.numbering.example(alloc, example)?;
    Ok(Box::new(alloc, told)?)
}

/// How the entry is decided, if that is asked for and found.
fn decided(
    searches: &Searches<'_>,
    entry: Entry,
    is_asked: bool,
) -> Result<Option<Decided>, AllocError>
    requires { AreOfOne searches.now }
    ensures { IfOk result (λ o. IfSome o
        (IsDecidedEntry searches.now.decisions.grammar searches.now.decisions.graph entry)) }
{
    let (Some(ways), true) = (searches.reasons.ways(), is_asked) else {
        return Ok(None);
    };
    searches.decisions.of(ways, entry)
}

/// What is known of an entry of which no sentence with two trees was found: what texts show there, and, if that is asked for, after
/// what it is real.
fn with_texts(
    searches: &Searches<'_>,
    conflict: Conflict<u32>,
    before: Evidence,
    has_example: bool,
) -> Result<Evidence, AllocError>
    requires one { AreOfOne searches.now }
    requires listed { IsListed searches.now.reasons.grammar searches.now.reasons.graph
        (entry_of number_of conflict) }
    requires state { conflict.state.0 ≡ before.entry.state }
    requires token { conflict.token.0 ≡ before.entry.token }
    ensures entry { IfOk result (λ e. e.entry ≡ before.entry) }
    ensures known { IfOk result (IsKnownBy searches.now) }
{
    let alloc = searches.allocator();
    let example = searches.reasons.example(conflict)?;
    let shown = shown_at(searches, conflict, &example)?;
    let is_open = shown.ambiguity.is_none();
    let told = if has_example && is_open {
        Some(told_example(searches, &example)?)
    } else {
        None
    };
    let decided = decided(searches, before.entry, is_open)?;
    let Shown { ambiguity, loss } = shown;
    let loss = searches.losses.told_of(loss, !is_open)?;
    Ok(Evidence {
        entry: before.entry,
        ambiguity: boxed(alloc, ambiguity)?,
        example: told,
        loss: boxed(alloc, loss)?,
        decided,
        is_cut_off: before.is_cut_off && is_open,
    })
}

/// What is known of an entry.
fn evidence_of(
    searches: &mut Searches<'_>,
    entry: Entry,
    wanted: Wanted,
) -> Result<Evidence, AllocError>
    requires { AreOfOne searches.old }
    ensures same { searches.new ≡ searches.old }
    ensures entry { IfOk result (λ e. e.entry ≡ entry) }
    ensures known { IfOk result (IsKnownBy searches.new) }
{
    let mut evidence = Evidence {
        entry,
        ambiguity: None,
        example: None,
        loss: None,
        decided: None,
        is_cut_off: false,
    };
    let Some(conflict) = conflict_of(entry) else {
        return Ok(evidence);
    };
    let alloc = searches.allocator();
    if wanted.steps > 0 {
        match ambiguity_at(alloc, &searches.reasons, conflict, wanted.steps)? {
            Some(ambiguity) => {
                evidence.ambiguity = Some(Box::new(alloc, ambiguity)?);
                return Ok(evidence);
            }
            None => evidence.is_cut_off = searches.reasons.is_used_up(),
        }
    }
    if !wanted.has_more() {
        return Ok(evidence);
    }
    let listed = searches.found.conflicts.as_slice();
    if !is_among(listed, &entry) {
        return Ok(evidence);
    }
    searches.prepare()?;
    if wanted.has_texts {
        return with_texts(searches, conflict, evidence, wanted.has_example);
    }
    let example = searches.reasons.example(conflict)?;
    evidence.example = Some(told_example(searches, &example)?);
    Ok(evidence)
}

/// What is known of an entry, with a sentence that the parser rejects and that is doomed there, if one is found; so many pairs of
/// stacks are looked at.
fn with_loss(
    searches: &mut Searches<'_>,
    before: Evidence,
    pairs: usize,
) -> Result<Evidence, AllocError>
    requires { IsKnownBy searches.old before }
    ensures same { searches.new ≡ searches.old }
    ensures entry { IfOk result (λ e. e.entry ≡ before.entry) }
    ensures known { IfOk result (IsKnownBy searches.old) }
{
    let Some(conflict) = conflict_of(before.entry) else {
        return Ok(before);
    };
    searches.losses.prepare()?;
    let loss = loss_found(searches, conflict, pairs)?;
    Ok(Evidence {
        loss: boxed(searches.allocator(), loss)?,
        ..before
    })
}

/// Whether other texts were tried at an entry: where none has two trees, and a list of the table has the entry.
fn is_tried(searches: &Searches<'_>, evidence: &Evidence, wanted: Wanted) -> bool {
    let listed = searches.found.conflicts.as_slice();
    wanted.has_texts && evidence.ambiguity.is_none() && is_among(listed, &evidence.entry)
}

/// What is known of an entry, and a sentence that the parser rejects where one is looked for in any case: unless it was looked for
/// among other texts.
fn known_of(
    searches: &mut Searches<'_>,
    entry: Entry,
    wanted: Wanted,
) -> Result<Evidence, AllocError>
    requires { AreOfOne searches.old }
    ensures same { searches.new ≡ searches.old }
    ensures entry { IfOk result (λ e. e.entry ≡ entry) }
    ensures known { IfOk result (IsKnownBy searches.new) }
{
    let evidence = evidence_of(searches, entry, wanted)?;
    let is_wanted = wanted.pairs > 0 && evidence.loss.is_none();
    if is_wanted && !is_tried(searches, &evidence, wanted) {
        return with_loss(searches, evidence, wanted.pairs);
    }
    Ok(evidence)
}

/// What is known of entries, in their order.
fn evidence_of_all(
    alloc: Global,
    searches: &mut Searches<'_>,
    entries: &[Entry],
    effort: Effort,
) -> Result<Vec<Evidence>, AllocError>
    requires { AreOfOne searches.old }
    ensures entries { IfOk result (λ v. map (λ e. e.entry) v.items ≡ entries.now) }
    ensures known { IfOk result (λ v. All (IsKnownBy searches.old) v.items) }
{
    let mut list = Vec::with_capacity(alloc, entries.len())?;
    let (mut told, mut unknown, mut sought): (usize, usize, usize) = (0, 0, 0);
    for entry in entries {
        let counts = effort.counts(list.as_slice(), entry);
        let has_example = counts && told < effort.examples;
        let pairs = effort.pairs(list.as_slice(), entry, entries.len(), sought);
        let wanted = Wanted {
            steps: effort.steps,
            has_example,
            has_texts: effort.steps > 0 && (has_example || unknown < effort.losses),
            pairs,
        };
        let evidence = known_of(searches, *entry, wanted)?;
        let is_known = evidence.ambiguity.is_some();
        list.push(evidence)?;
        if counts {
            told = told.saturating_add(1);
        }
        if !is_known {
            unknown = unknown.saturating_add(1);
        }
        if pairs > 0 {
            sought = sought.saturating_add(1);
        }
    }
    Ok(list)
}

/// What all searches of a file share.
fn searches_for<'a>(
    file: &'a FileGrammar,
    found: &'a Findings,
    graph: &'a StateGraph<u32>,
    effort: Effort,
) -> Result<Searches<'a>, AllocError>
    requires graph { IsGraphOf found.now.grm graph.now }
    requires table { IsTableOf found.now.grm graph.now found.now.table }
    ensures { IfOk result (AreFor found.entry.now graph.entry.now) }
{
    let grm = &found.grm;
    let reasons = Reasons::without_examples(grm, graph)?;
    reasons.allow(effort.work);
    Ok(Searches {
        found,
        numbering: Numbering { grm, file },
        reasons,
        losses: LossSearch::new(found, graph, effort.work),
        decisions: Decisions::new(grm, graph, effort.decisions, effort.nodes),
    })
}

/// What is known of entries of the findings in a file's grammar, in their order. The error says that memory was refused.
pub fn evidence_for(
    alloc: Global,
    file: &FileGrammar,
    found: &Findings,
    entries: &[Entry],
    effort: Effort,
) -> Result<Vec<Evidence>, AllocError>
    requires graph { MatchOption found.now.graph (entries.now ≡ []) (IsGraphOf found.now.grm) }
    requires listed { IfSome found.now.graph (λ h.
        AreListedIn found.now.grm h found.now.conflicts.items) }
    requires contested { IfSome found.now.graph (AreReductionsContested found.now.grm) }
    requires table { IfSome found.now.graph (λ h. IsTableOf found.now.grm h found.now.table) }
    ensures entries { IfOk result (λ v. map (λ e. e.entry) v.items ≡ entries.now) }
    ensures proved { IfOk result (λ v. All (IsProved found.now.grm) v.items) }
    ensures parts { IfOk result (λ v. MatchOption found.now.graph (v.items ≡ [])
        (λ h. All (PartsAtEntry found.now.grm h) v.items)) }
    ensures lost { IfOk result (λ v. All (IsLostAtEntry found.now.grm found.now.table) v.items) }
    ensures stops { IfOk result (λ v. MatchOption found.now.graph (v.items ≡ [])
        (λ h. All (StopsAtEntry found.now.grm h found.now.table) v.items)) }
    ensures pairs { IfOk result (λ v.
        All (λ e. IfSome e.loss (λ l. ResolvesPairs found.now)) v.items) }
    ensures doomed { IfOk result (λ v.
        All (IsDoomedAtEntry found.now.grm found.now.table) v.items) }
    ensures decided { IfOk result (λ v.
        All (IsToldDecided found.now.grm found.now.graph) v.items) }
{
    let (Some(graph), false) = (&found.graph, entries.is_empty()) else {
        return Ok(Vec::new(alloc));
    };
    let mut searches = searches_for(file, found, graph, effort)?;
    let list = evidence_of_all(alloc, &mut searches, entries, effort)?;
    Ok(list)
}

/// A sentence with two trees, which part at one of the entries: that of the first entry for which one is found.
fn first_ambiguity(
    alloc: Global,
    reasons: &Reasons<'_>,
    entries: &[Entry],
    steps: usize,
) -> Result<Option<Ambiguity>, AllocError>
    ensures { IfOk result (λ o. IfSome o (HasTwoTrees reasons.now.grammar)) }
{
    for entry in entries {
        if let Some(conflict) = conflict_of(*entry) {
            let ambiguity = ambiguity_at(alloc, reasons, conflict, steps)?;
            if ambiguity.is_some() {
                return Ok(ambiguity);
            }
        }
    }
    Ok(None)
}

/// A sentence with two trees, which part at one of the entries, where one is found: that of the first entry that has one. For each the
/// search takes so many steps at the most, and all together do so much work. The error says that memory was refused.
pub fn find_ambiguity(
    alloc: Global,
    found: &Findings,
    entries: &[Entry],
    steps: usize,
    work: usize,
) -> Result<Option<Ambiguity>, AllocError>
    requires graph { IfSome found.now.graph (IsGraphOf found.now.grm) }
    ensures { IfOk result (λ o. IfSome o (HasTwoTrees found.now.grm)) }
{
    let (Some(graph), true) = (&found.graph, steps > 0) else {
        return Ok(None);
    };
    let reasons = Reasons::without_examples(&found.grm, graph)?;
    reasons.allow(work);
    first_ambiguity(alloc, &reasons, entries, steps)
}
