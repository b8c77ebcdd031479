//! Conflicts that have one cause: in several states the same productions meet at the same tokens.

ghost use Rattle.std.specs.Prelude.{◌≡◌, ◌+◌, ◌<◌, ◌≤◌, ◌++◌, ◌∷◌, All, AllPairs, Contains, HoldsAt, IfOk, IfSome, IsSome, IsTrue, OnOk, drop, false, length, map, option_map, take};
ghost use Rattle.std.specs.List.{flat_map};
ghost use Rattle.std.specs.List.Sorted.{IsPermutation};
ghost use Rattle.lrverdicts.specs.Listed.{MeetsLike};
ghost use Rattle.lrreport.specs.Causes.{entries_in, AreAlike, AreApart, AreOneKind, HasKind, IsMet, IsOneCause, IsOneConflict, MeetTogether, StandTogether, runs_of, states_of};
ghost use Rattle.lrreport.specs.Conflicts.{conflict_of};

use crate::conflicts::{Checked, Choice, entries_of};
use crate::notes::have_sentences;
use crate::verdicts::own_sentences;
use lrevidence::Evidence;
use lrfindings::Entry;
use std::alloc::{AllocError, Global};

/// What is compared of a conflict in several states. In the order of the fields, those that are equal stand together.
#[derive(PartialEq, Eq, PartialOrd, Ord, Drop)]
struct Kind {
    /// The production by which the state could reduce.
    production: usize,
    /// The other one; None where it could shift.
    other: Option<usize>,
    /// What the table does, where it is the same for all the entries.
    choice: Option<Choice>,
    /// The tokens of the entries.
    tokens: Vec<usize>,
    /// The items by which the state goes on by one of these, as production and dot.
    items: Vec<(usize, usize)>,
    /// By entry how many tokens of lookahead would decide it, if that is known; None where it is not decided.
    decided: Vec<Option<Option<usize>>>,
}

impl Kind {
    /// Whether both are the same.
    fn is_like(&self, other: &Kind) -> bool
        ensures like { IsTrue result → AreAlike self.now other.now }
        ensures unlike { AreAlike self.now other.now → IsTrue result }
    {
        self == other
    }
}

/// Entries at which the same meets in one state.
#[derive(Drop)]
struct Meeting<'e> {
    evidence: &'e [Evidence],
    /// What is compared of them.
    kind: Kind,
}

/// A conflict in all the states in which it is: at the same tokens the same productions meet.
#[derive(Drop)]
pub(crate) struct Cause<'e> {
    /// What is known of its entries, state by state.
    meetings: Vec<&'e [Evidence]>,
}

/// Whether of one of the entries a sentence is known that the parser rejects.
pub(crate) fn have_loss(meeting: &[Evidence]) -> bool {
    for evidence in meeting {
        if evidence.loss.is_some() {
            return true;
        }
    }
    false
}

/// Whether each entry of each has a sentence with two trees that part by what meets in it.
fn have_all_sentences(meetings: &[&[Evidence]]) -> bool
    ensures { IsTrue result → All (λ m. All (λ e. IsSome e.ambiguity) m.now) meetings.now }
{
    for meeting in meetings {
        if !have_sentences(meeting) {
            return false;
        }
    }
    true
}

impl<'e> Cause<'e> {
    /// The entries of one state with a sentence that the parser rejects, where there is such a state.
    pub(crate) fn rejecting(&self) -> Option<&'e [Evidence]>
        ensures { IfSome result (Contains self.now.meetings.items) }
    {
        for meeting in self.meetings.as_slice() {
            if have_loss(meeting) {
                return Some(*meeting);
            }
        }
        None
    }

    /// The entries of the state that is shown: one with a sentence that has two trees, or else with one that the parser rejects,
    /// where there is such a state.
    pub(crate) fn shown(&self) -> Option<&'e [Evidence]>
        ensures { IfSome result (Contains self.now.meetings.items) }
    {
        for meeting in self.meetings.as_slice() {
            if own_sentences(meeting) > 0 {
                return Some(*meeting);
            }
        }
        match self.rejecting() {
            Some(meeting) => Some(meeting),
            None => self.meetings.first().copied(),
        }
    }

    /// The same; no entries where there is no state.
    pub(crate) fn shown_entries(&self) -> &'e [Evidence] {
        match self.shown() {
            Some(meeting) => meeting,
            None => &[],
        }
    }

    /// What is known of the first of its entries.
    pub(crate) fn first_evidence(&self) -> Option<&'e Evidence> {
        self.meetings.first()?.first()
    }

    /// The first of its entries.
    fn first(&self) -> Option<Entry> {
        Some(self.first_evidence()?.entry)
    }

    /// In how many states it is.
    pub(crate) fn states(&self) -> usize {
        self.meetings.len()
    }

    /// Its entries, state by state.
    pub(crate) fn entries(&self, alloc: Global) -> Result<Vec<Entry>, AllocError>
        ensures { IfOk result (λ entries.
            entries.items ≡ map (λ e. e.entry) (entries_in self.now)) }
    {
        let mut entries = Vec::new(alloc);
        for meeting in &self.meetings {
            let met = entries_of(alloc, meeting)?;
            entries.extend_from_slice(met.as_slice())?;
        }
        Ok(entries)
    }

    /// In how many states not each of its entries has a sentence with two trees that part by what meets in it.
    pub(crate) fn states_without(&self) -> usize {
        let mut count: usize = 0;
        for meeting in &self.meetings {
            if !have_sentences(meeting) {
                count = count.saturating_add(1);
            }
        }
        count
    }

    /// Whether each of its entries has such a sentence.
    pub(crate) fn has_sentences(&self) -> bool
        ensures { IsTrue result → All (λ e. IsSome e.ambiguity) (entries_in self.now) }
    {
        have_all_sentences(self.meetings.as_slice())
    }
}

/// How many of those behind the first one stand together with it, since the same meets at them in the same state; none where all are
/// told.
fn together(first: &Evidence, others: &[Evidence], tells_all: bool) -> usize
    ensures inside { result ≤ length others.now }
    ensures alike { All (λ e. MeetsLike first.now.entry e.entry) (take result others.now) }
    ensures last { tells_all ≡ false → result < length others.now
        → HoldsAt (λ e. ¬ (MeetsLike first.now.entry e.entry)) others.now result }
{
    if tells_all {
        return 0;
    }
    for (place, other) in others.iter().enumerate() {
        if !first.entry.meets_like(&other.entry) {
            return place;
        }
    }
    others.len()
}

/// How many of those behind the first one are of its kind and stand together with it; none where all are told.
fn alike(first: &Meeting<'_>, others: &[Meeting<'_>], tells_all: bool) -> usize
    ensures inside { result ≤ length others.now }
    ensures alike { All (λ m. AreAlike first.now.kind m.kind) (take result others.now) }
    ensures last { tells_all ≡ false → result < length others.now
        → HoldsAt (λ m. ¬ (AreAlike first.now.kind m.kind)) others.now result }
{
    if tells_all {
        return 0;
    }
    for (place, other) in others.iter().enumerate() {
        if !first.kind.is_like(&other.kind) {
            return place;
        }
    }
    others.len()
}

/// The tokens of entries.
fn tokens_at(alloc: Global, evidence: &[Evidence]) -> Result<Vec<usize>, AllocError>
    ensures { IfOk result (λ v. v.items ≡ map (λ e. e.entry.token) evidence.now) }
{
    let mut tokens = Vec::new(alloc);
    for one in evidence {
        tokens.push(one.entry.token)?;
    }
    Ok(tokens)
}

/// By entry how many tokens decide it, if that is known; None where it is not decided.
fn decided_by(
    alloc: Global,
    evidence: &[Evidence],
) -> Result<Vec<Option<Option<usize>>>, AllocError>
    ensures { IfOk result (λ v.
        v.items ≡ map (λ e. option_map (λ d. d.tokens) e.decided) evidence.now) }
{
    let mut list = Vec::new(alloc);
    for one in evidence {
        match one.decided {
            Some(decided) => list.push(Some(decided.tokens))?,
            None => list.push(None)?,
        }
    }
    Ok(list)
}

/// Puts those of one kind together, unless all are told.
fn put_in_order(met: &mut Vec<Meeting<'_>>, tells_all: bool) -> Result<(), AllocError>
    ensures order { IsPermutation met.old.items met.new.items }
    ensures together { OnOk result (tells_all ≡ false → StandTogether met.new.items) }
{
    if tells_all {
        return Ok(());
    }
    met.sort_by(|one, other| one.kind.cmp(&other.kind))?;
    Ok(())
}

/// What those tell, which have the cause of one of them.
fn cause_of<'e>(
    alloc: Global,
    first: &Meeting<'e>,
    meetings: &[Meeting<'e>],
) -> Result<Cause<'e>, AllocError>
    requires met { All IsMet meetings.now }
    requires alike { All (λ m. AreAlike first.now.kind m.kind) meetings.now }
    ensures are { IfOk result (λ cause.
        cause.meetings.items ≡ map (λ m. m.evidence) meetings.now) }
    ensures alike { IfOk result IsOneCause }
{
    let mut list = Vec::new(alloc);
    for meeting in meetings {
        list.push(meeting.evidence)?;
    }
    Ok(Cause { meetings: list })
}

/// The cause of the first of the meetings, and how many of the first ones have it.
fn first_cause<'e>(
    alloc: Global,
    meetings: &[Meeting<'e>],
    tells_all: bool,
) -> Result<(Cause<'e>, usize), AllocError>
    requires some { 0 < length meetings.now }
    requires met { All IsMet meetings.now }
    ensures some { IfOk result (λ r. 0 < r.1) }
    ensures inside { IfOk result (λ r. r.1 ≤ length meetings.now) }
    ensures are { IfOk result (λ r.
        r.0.meetings.items ≡ map (λ m. m.evidence) (take r.1 meetings.now)) }
    ensures alike { IfOk result (λ r. IsOneCause r.0) }
    ensures kind { IfOk result (λ r. AreOneKind (take r.1 meetings.now)) }
    ensures last { IfOk result (λ r. tells_all ≡ false → r.1 < length meetings.now
        → HoldsAt (λ n. All (λ m. ¬ (AreAlike m.kind n.kind)) (take r.1 meetings.now))
        meetings.now r.1) }
{
    let (_, others) = meetings.split_at(1);
    let first = &meetings[0];
    let count = alike(first, others, tells_all) + 1;
    let (one, _) = meetings.split_at(count);
    Ok((cause_of(alloc, first, one)?, count))
}

impl<'a> Checked<'a> {
    /// The items by which the state of entries goes on where they meet a shift, and what the table does there; nothing where all are
    /// told, since nothing is compared then.
    fn done_unless(
        &self,
        alloc: Global,
        evidence: &[Evidence],
        tells_all: bool,
    ) -> Result<(Vec<(usize, usize)>, Option<Choice>), AllocError>
        ensures items { IfOk result (λ done. tells_all ≡ false → done.0.items
            ≡ (conflict_of self.now evidence.now).shifting) }
        ensures choice { IfOk result (λ done. tells_all ≡ false → done.1
            ≡ (conflict_of self.now evidence.now).choice) }
    {
        if tells_all {
            return Ok((Vec::new(alloc), None));
        }
        let entries = entries_of(alloc, evidence)?;
        let items = self.shifting_items(alloc, entries.as_slice())?;
        Ok((items, self.choice_of(entries.as_slice())))
    }

    /// Entries that meet like one of them, and what their state does.
    fn meeting(
        &self,
        alloc: Global,
        first: &Evidence,
        evidence: &'a [Evidence],
        tells_all: bool,
    ) -> Result<Meeting<'a>, AllocError>
        requires { All (λ e. MeetsLike first.now.entry e.entry) evidence.now }
        ensures evidence { IfOk result (λ m. m.evidence.now ≡ evidence.now) }
        ensures met { IfOk result IsMet }
        ensures decided { IfOk result (λ m. m.kind.decided.items
            ≡ (conflict_of self.now evidence.now).decided) }
        ensures items { IfOk result (λ m. tells_all ≡ false → m.kind.items.items
            ≡ (conflict_of self.now evidence.now).shifting) }
        ensures choice { IfOk result (λ m. tells_all ≡ false → m.kind.choice
            ≡ (conflict_of self.now evidence.now).choice) }
    {
        let (items, choice) = self.done_unless(alloc, evidence, tells_all)?;
        let decided = decided_by(alloc, evidence)?;
        let tokens = tokens_at(alloc, evidence)?;
        let kind = Kind {
            production: first.entry.production,
            other: first.entry.other,
            choice,
            tokens,
            items,
            decided,
        };
        Ok(Meeting { evidence, kind })
    }

    /// The first of the entries, with those that stand together with it.
    fn first_meeting(
        &self,
        alloc: Global,
        evidence: &'a [Evidence],
    ) -> Result<Meeting<'a>, AllocError>
        requires some { 0 < length evidence.now }
        ensures inside { IfOk result (λ m. length m.evidence.now ≤ length evidence.now) }
        ensures front { IfOk result (λ m.
            m.evidence.now ≡ take (length m.evidence.now) evidence.now) }
        ensures run { IfOk result (λ m. self.now.told.options.detail.all ≡ false
            → runs_of evidence.now
            ≡ m.evidence.now ∷ runs_of (drop (length m.evidence.now) evidence.now)) }
        ensures met { IfOk result IsMet }
        ensures kind { IfOk result (HasKind self.now) }
    {
        let tells_all = self.told.options.detail.all;
        let (_, others) = evidence.split_at(1);
        let count = together(&evidence[0], others, tells_all) + 1;
        let (one, _) = evidence.split_at(count);
        let meeting = self.meeting(alloc, &evidence[0], one, tells_all)?;
        Ok(meeting)
    }

    /// The entries that are left open, in groups, in each of which the same meets in one state; each by itself where all are told.
    fn met(&self, alloc: Global) -> Result<Vec<Meeting<'a>>, AllocError>
        ensures whole { IfOk result (λ met.
            flat_map (λ m. m.evidence.now) met.items ≡ self.now.told.evidence.now) }
        ensures runs { IfOk result (λ met. self.now.told.options.detail.all ≡ false
            → map (λ m. m.evidence.now) met.items ≡ runs_of self.now.told.evidence.now) }
        ensures met { IfOk result (λ met. All IsMet met.items) }
        ensures kinds { IfOk result (λ met. All (HasKind self.now) met.items) }
    {
        let evidence = self.told.evidence;
        let mut met = Vec::new(alloc);
        let mut from = 0;
        while from < evidence.len() {
            let (_, rest) = evidence.split_at(from);
            let meeting = self.first_meeting(alloc, rest)?;
            from += meeting.evidence.len();
            met.push(meeting)?;
        }
        Ok(met)
    }

    /// Meetings in groups, one for each kind, whose meetings stand together; each by itself where all are told.
    fn split(&self, alloc: Global, meetings: &[Meeting<'a>]) -> Result<Vec<Cause<'a>>, AllocError>
        requires met { All IsMet meetings.now }
        requires kinds { All (HasKind self.now) meetings.now }
        requires together { self.now.told.options.detail.all ≡ false
            → StandTogether meetings.now }
        ensures states { IfOk result (λ causes.
            flat_map states_of causes.items ≡ map (λ m. m.evidence.now) meetings.now) }
        ensures alike { IfOk result (λ causes. All IsOneCause causes.items) }
        ensures kind { IfOk result (λ causes. self.now.told.options.detail.all ≡ false
            → All (IsOneConflict self.now) causes.items) }
        ensures apart { IfOk result (λ causes. self.now.told.options.detail.all ≡ false
            → AllPairs (AreApart self.now) causes.items) }
    {
        let mut causes = Vec::new(alloc);
        let mut from = 0;
        while from < meetings.len() {
            let (_, rest) = meetings.split_at(from);
            let (cause, count) = first_cause(alloc, rest, self.told.options.detail.all)?;
            causes.push(cause)?;
            from += count;
        }
        Ok(causes)
    }

    /// The conflicts that are left open, the states of one conflict in one group, in the order of the file; each entry by itself where
    /// all are told.
    pub(crate) fn causes(&self, alloc: Global) -> Result<Vec<Cause<'a>>, AllocError>
        ensures each { IfOk result (λ causes.
            IsPermutation self.now.told.evidence.now (flat_map entries_in causes.items)) }
        ensures runs { IfOk result (λ causes. self.now.told.options.detail.all ≡ false
            → IsPermutation (runs_of self.now.told.evidence.now)
            (flat_map states_of causes.items)) }
        ensures alike { IfOk result (λ causes. All IsOneCause causes.items) }
        ensures kind { IfOk result (λ causes. self.now.told.options.detail.all ≡ false
            → All (IsOneConflict self.now) causes.items) }
        ensures apart { IfOk result (λ causes. self.now.told.options.detail.all ≡ false
            → AllPairs (AreApart self.now) causes.items) }
    {
        let mut met = self.met(alloc)?;
        put_in_order(&mut met, self.told.options.detail.all)?;
        let mut causes = self.split(alloc, met.as_slice())?;
        causes.sort_by_key(|cause| cause.first())?;
        Ok(causes)
    }
}
