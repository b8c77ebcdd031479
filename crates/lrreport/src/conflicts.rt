//! Conflicts, each with the places of the productions that meet in it.

ghost use Rattle.std.specs.Prelude.{◌≡◌, ℕ, [], All, IfNone, IfOk, IfSome, IsSome, IsTrue, Some, is_some, map};
ghost use Rattle.std.specs.BTreeSet.{IsFromIterResult};
ghost use Rattle.std.specs.List.{flat_map, list_all, list_any};
ghost use Rattle.std.specs.Ordering.{nat_cmp};
ghost use Rattle.lrspec.specs.merging.Graph.{closed_of};
ghost use Rattle.lrrows.specs.StoredActions.{stored_action};
ghost use Rattle.lritems.specs.ItemsOf.{set_of};
ghost use Rattle.lryacc.specs.Parsers.{splits};
ghost use Rattle.lrevidence.specs.Ambiguities.{HasTwoTrees, IsProved};
ghost use Rattle.lrevidence.specs.Losses.{IsLoss, IsLostAtEntry};
ghost use Rattle.lrevidence.specs.DecidedEntries.{IsToldDecided};
ghost use Rattle.lrevidence.specs.KeptEntries.{AreToldKept};
ghost use Rattle.lrshown.specs.DecidedEntries.{tokens_of};
ghost use Rattle.lrshown.specs.Ambiguities.{has_sentence};
ghost use Rattle.lrreport.specs.Sentences.{IsKnownAt};
ghost use Rattle.lrreport.specs.Causes.{entries_in};
ghost use Rattle.lrreport.specs.Conflicts.{choice_at, choice_by, choice_of, is_choice, shifting_items};
ghost use Rattle.lrgrammar.specs.Symbols.{number_of};

use crate::alike::{Alike, Leads, kinds};
use crate::causes::Cause;
use crate::levels::Trials;
use crate::told::Told;
use crate::words::Words;
use lrdiagnostics::{Mark, Style};
use lrevidence::{Ambiguity, Evidence, Loss};
use lrfindings::{Entry, Findings, is_among};
use lrgrammar::idx::{IndexStorage, StIdx, TIdx};
use lrtable::itemset::Itemset;
use lrtable::{Action, StateGraph};
use lrwriter::Text;
use std::alloc::{AllocError, Global};
use std::collections::BTreeSet;

/// What is said of what the table does.
pub(crate) const DONE: &str = "; the table does this";

/// What the table does in the cell of an entry.
#[derive(Clone, Copy, PartialEq, Eq, PartialOrd, Ord)]
pub(crate) enum Choice {
    /// It shifts.
    Shift,
    /// It reduces by the production of the entry.
    Reduce,
    /// It reduces by the other production of the entry.
    Other,
    /// It does nothing of what meets there.
    Neither,
}

impl Choice {
    /// Whether it is this one.
    fn is(self, other: Choice) -> bool
        ensures { result ≡ is_choice self other }
    {
        self == other
    }

    /// The word for it in JSON.
    pub(crate) fn word(self) -> &'static str {
        match self {
            Choice::Shift => "shift",
            Choice::Reduce => "reduce",
            Choice::Other => "other",
            Choice::Neither => "neither",
        }
    }
}

/// A file's grammar, with what was found in it.
#[derive(Drop)]
pub(crate) struct Checked<'a> {
    pub(crate) told: Told<'a>,
    pub(crate) found: &'a Findings,
}

/// What a table does by an action in the cell of an entry.
fn choice_by(entry: &Entry, action: Action<u32>) -> Choice
    ensures { result ≡ choice_by entry.now (stored_action number_of action) }
{
    match action {
        Action::Shift(_) => Choice::Shift,
        Action::Reduce(chosen) if usize::from(chosen) == entry.production => Choice::Reduce,
        Action::Reduce(chosen) if Some(usize::from(chosen)) == entry.other => Choice::Other,
        _ => Choice::Neither,
    }
}

/// The closed state of a state of a graph, if there is such a one.
pub(crate) fn closed_state(graph: &StateGraph<u32>, state: usize) -> Option<&Itemset<u32>>
    ensures some { IfSome result (λ closed.
        set_of number_of closed.now ≡ closed_of graph.now state) }
    ensures none { IfNone result (closed_of graph.now state ≡ []) }
{
    if state >= usize::from(graph.all_states_len()) {
        return None;
    }
    let number = u32::from_usize(state)?;
    Some(graph.closed_state(StIdx(number)))
}

/// The tokens of entries.
fn tokens_of(alloc: Global, entries: &[Entry]) -> Result<BTreeSet<usize>, AllocError>
    ensures { IfOk result (IsFromIterResult nat_cmp (map (λ e. e.token) entries.now)) }
{
    entries.iter().map(|it| it.token).collect(alloc)
}

/// What is said of what the table does, where it is the same for all entries: behind their production, and behind what that meets.
fn said_of(choice: Option<Choice>, is_shift: bool) -> (&'static str, &'static str) {
    match choice {
        Some(Choice::Reduce) => (DONE, ""),
        Some(Choice::Shift) if !is_shift => ("", "; the table shifts"),
        Some(Choice::Shift | Choice::Other) => ("", DONE),
        Some(Choice::Neither) => ("", "; the table does neither"),
        None => ("", ""),
    }
}

impl Told<'_> {
    /// Adds what is told first of entries that meet alike: a word, what meets, the tokens at which it does, and in which states.
    pub(crate) fn push_heading(
        &self,
        text: &mut Text,
        word: &str,
        entries: &[Entry],
        cause: Option<&Cause<'_>>,
    ) {
        let Some(first) = entries.first() else {
            return;
        };
        let kinds = kinds(first);
        let mut names = Words::new(text.allocator());
        for (place, entry) in entries.iter().enumerate() {
            names.add_listed(place == 0, self.token_name(entry.token));
        }
        if let Some(cause) = cause {
            self.add_states(&mut names, cause);
        }
        Style::Bold.add(text, word, self.options.lines.has_colours);
        write!(text, ": {kinds} at ");
        let indent = word.len().saturating_add(2);
        let column = indent.saturating_add(kinds.len()).saturating_add(4);
        names.lay_out(text, self.layout(), column, indent);
        text.add_char('\n');
    }
}

impl Checked<'_> {
    /// What the table does in the cell of an entry.
    pub(crate) fn choice(&self, entry: &Entry) -> Choice
        ensures { result ≡ choice_at self.now.found.now.table entry.now }
    {
        match (u32::from_usize(entry.state), u32::from_usize(entry.token)) {
            (Some(state), Some(token)) => {
                choice_by(entry, self.found.table.action(StIdx(state), TIdx(token)))
            }
            _ => Choice::Neither,
        }
    }

    /// Whether that cell is an error.
    pub(crate) fn is_error(&self, entry: &Entry) -> bool {
        match (u32::from_usize(entry.state), u32::from_usize(entry.token)) {
            (Some(state), Some(token)) => {
                self.found.table.action(StIdx(state), TIdx(token)) == Action::Error
            }
            _ => false,
        }
    }

    /// Whether that is what it does in the cells of all the entries.
    fn is_common(&self, choice: Choice, entries: &[Entry]) -> bool
        ensures { result ≡ list_all (λ e.
            is_choice choice (choice_at self.now.found.now.table e)) entries.now }
    {
        for entry in entries {
            if !choice.is(self.choice(entry)) {
                return false;
            }
        }
        true
    }

    /// What it does in the cells of all the entries, where that is the same, and no more.
    pub(crate) fn choice_of(&self, entries: &[Entry]) -> Option<Choice>
        ensures { result ≡ choice_of self.now.found.now.table
            (splits self.now.told.parser.now) entries.now }
    {
        if self.told.parser.splits() {
            return None;
        }
        let (first, others) = entries.split_first()?;
        let choice = self.choice(first);
        let is_one = self.is_common(choice, others);
        is_one.then_some(choice)
    }

    /// Whether it is shown that no sentence is lost at each of the entries.
    pub(crate) fn are_kept(&self, entries: &[Entry]) -> bool
        requires { AreToldKept self.now.found.now.grm self.now.found.now.graph
            self.now.found.now.table self.now.told.kept.now }
        ensures { IsTrue result → AreToldKept self.now.found.now.grm self.now.found.now.graph
            self.now.found.now.table entries.now }
    {
        for entry in entries {
            if !is_among(self.told.kept, entry) {
                return false;
            }
        }
        true
    }

    /// The items of the state of entries, as production and dot, in which it goes on by the token of one of them, where a production
    /// meets that.
    pub(crate) fn shifting_items(
        &self,
        alloc: Global,
        entries: &[Entry],
    ) -> Result<Vec<(usize, usize)>, AllocError>
        ensures { IfOk result (λ items. items.items
            ≡ shifting_items self.now.told.file.now self.now.found.now.graph entries.now) }
    {
        let Some(graph) = &self.found.graph else {
            return Ok(Vec::new(alloc));
        };
        let Some(first) = entries.first() else {
            return Ok(Vec::new(alloc));
        };
        if first.other.is_some() {
            return Ok(Vec::new(alloc));
        }
        let Some(closed) = closed_state(graph, first.state) else {
            return Ok(Vec::new(alloc));
        };
        let tokens = tokens_of(alloc, entries)?;
        let items = self.told.items_before(alloc, closed, &tokens)?;
        Ok(items)
    }

    /// Adds the places at which the state of entries goes on by one of their tokens, and what follows from that.
    pub(crate) fn push_shifts(
        &self,
        marks: &mut Vec<Mark>,
        entries: &[Entry],
        so: &str,
    ) -> Result<(), AllocError> {
        let items = self.shifting_items(*marks.allocator(), entries)?;
        self.told.push_items(marks, items.as_slice(), so)
    }

    /// The places of what meets.
    pub(crate) fn marks(&self, alloc: Global, entries: &[Entry]) -> Result<Vec<Mark>, AllocError> {
        let mut marks = Vec::new(alloc);
        let Some(first) = entries.first() else {
            return Ok(marks);
        };
        let (reduced, met) = said_of(self.choice_of(entries), first.other.is_none());
        marks.push(self.told.reduction_mark(alloc, first.production, reduced)?)?;
        match first.other {
            Some(other) => marks.push(self.told.other_mark(alloc, first.production, other, met)?)?,
            None => self.push_shifts(&mut marks, entries, met)?,
        }
        Ok(marks)
    }

    /// The text of the first of the entries that has one whose trees part by what meets in it, but for those at a token, and its
    /// entry's token.
    pub(crate) fn own_sentence_but_at<'e>(
        &self,
        meeting: &'e [Evidence],
        but: Option<usize>,
    ) -> Option<(usize, &'e Ambiguity)>
        requires proved { All (IsProved self.now.found.now.grm) meeting.now }
        ensures trees { IfSome result (λ told. HasTwoTrees self.now.found.now.grm told.1.now) }
        ensures known { IfSome result (λ told. IsKnownAt meeting.now told.0 told.1.now) }
    {
        for evidence in meeting {
            let token = evidence.entry.token;
            if let Some(ambiguity) = &evidence.ambiguity {
                if Some(token) != but && ambiguity.is_of(&evidence.entry) {
                    return Some((token, &**ambiguity));
                }
            }
        }
        None
    }

    /// The text of the first of the entries that has one, whatever its trees part by.
    pub(crate) fn any_sentence<'e>(&self, meeting: &'e [Evidence]) -> Option<&'e Ambiguity>
        requires proved { All (IsProved self.now.found.now.grm) meeting.now }
        ensures trees { IfSome result (λ text. HasTwoTrees self.now.found.now.grm text.now) }
        ensures known { is_some result ≡ list_any has_sentence meeting.now }
    {
        for evidence in meeting {
            if let Some(ambiguity) = &evidence.ambiguity {
                return Some(&**ambiguity);
            }
        }
        None
    }

    /// The sentence that the parser rejects of the first of the entries that has one.
    pub(crate) fn loss_in<'e>(&self, meeting: &'e [Evidence]) -> Option<&'e Loss>
        requires lost { All (IsLostAtEntry self.now.found.now.grm self.now.found.now.table)
            meeting.now }
        ensures { IfSome result (λ l.
            IsLoss self.now.found.now.grm self.now.found.now.table l.now) }
    {
        for evidence in meeting {
            if let Some(loss) = &evidence.loss {
                return Some(&**loss);
            }
        }
        None
    }

    /// A sentence with two trees of one of the entries: one whose trees part by what meets in it, where there is such a one.
    pub(crate) fn sentence_with_trees<'e>(&self, meeting: &'e [Evidence]) -> Option<&'e Ambiguity>
        requires proved { All (IsProved self.now.found.now.grm) meeting.now }
        ensures { IfSome result (λ text. HasTwoTrees self.now.found.now.grm text.now) }
    {
        match self.own_sentence_but_at(meeting, None) {
            Some((_, ambiguity)) => Some(ambiguity),
            None => self.any_sentence(meeting),
        }
    }

    /// Adds a conflict: a state in which it is, with the entries at which the same meets, what is known of them, how it can be
    /// resolved, and which conflicts are like it.
    fn push_cause(&self, text: &mut Text, cause: &Cause<'_>, help: &Words, alike: &Alike)
        requires proved { All (IsProved self.now.found.now.grm) (entries_in cause.now) }
        requires lost { All (IsLostAtEntry self.now.found.now.grm self.now.found.now.table)
            (entries_in cause.now) }
        requires entries { All (IsToldDecided self.now.found.now.grm self.now.found.now.graph)
            (entries_in cause.now) }
        requires kept { AreToldKept self.now.found.now.grm self.now.found.now.graph
            self.now.found.now.table self.now.told.kept.now }
    {
        let Some(meeting) = cause.shown() else {
            return;
        };
        let Ok(entries) = entries_of(text.allocator(), meeting) else {
            return text.give_up();
        };
        let entries = entries.as_slice();
        let Ok(marks) = self.marks(text.allocator(), entries) else {
            return text.give_up();
        };
        let marks = marks.as_slice();
        self.told
            .push_heading(text, "conflict", entries, Some(cause));
        self.told.add_placed(text, marks);
        self.push_notes(text, marks, cause, meeting, help, alike);
        text.add_char('\n');
    }

    /// Adds those of the conflicts that are told by themselves: so many at the most. Those that are told behind them stand in lines.
    fn push_causes(
        &self,
        text: &mut Text,
        causes: &[Cause<'_>],
        leads: &Leads,
        most: usize,
        trials: &Trials<'_, '_>,
    )
        requires proved { All (IsProved self.now.found.now.grm) (flat_map entries_in causes.now) }
        requires lost { All (IsLostAtEntry self.now.found.now.grm self.now.found.now.table)
            (flat_map entries_in causes.now) }
        requires entries { All (IsToldDecided self.now.found.now.grm self.now.found.now.graph)
            (flat_map entries_in causes.now) }
        requires kept { AreToldKept self.now.found.now.grm self.now.found.now.graph
            self.now.found.now.table self.now.told.kept.now }
    {
        let mut told = 0;
        for (place, cause) in causes.iter().enumerate() {
            if leads.is_lead(place) && told < most {
                told += 1;
                let help = trials.help_on(text.allocator(), cause);
                match trials.alike(text.allocator(), causes, leads, place, &help) {
                    Ok(alike) => self.push_cause(text, cause, &help, &alike),
                    Err(_) => text.give_up(),
                }
            }
        }
    }

    /// Adds the conflicts: the first ones, so many at the most, further ones in a line each, and how many there are besides.
    pub(crate) fn push_conflicts(&self, text: &mut Text, most: usize)
        requires proved { All (IsProved self.now.found.now.grm) self.now.told.evidence.now }
        requires lost { All (IsLostAtEntry self.now.found.now.grm self.now.found.now.table)
            self.now.told.evidence.now }
        requires entries { All (IsToldDecided self.now.found.now.grm self.now.found.now.graph)
            self.now.told.evidence.now }
        requires kept { AreToldKept self.now.found.now.grm self.now.found.now.graph
            self.now.found.now.table self.now.told.kept.now }
    {
        let alloc = text.allocator();
        let Ok(causes) = self.causes(alloc) else {
            return text.give_up();
        };
        let causes = causes.as_slice();
        let Ok(leads) = self.told.leads(alloc, causes) else {
            return text.give_up();
        };
        let Ok(trials) = Trials::new(alloc, self) else {
            return text.give_up();
        };
        self.push_causes(text, causes, &leads, most, &trials);
        trials.push_further(text, causes, &leads, most);
    }
}

/// Whether each of the entries is decided.
pub(crate) fn are_decided(meeting: &[Evidence]) -> bool
    ensures { IsTrue result → All (λ evidence. IsSome evidence.decided) meeting.now }
{
    for evidence in meeting {
        if !evidence.is_decided() {
            return false;
        }
    }
    true
}

/// How many tokens decide each of the entries, if that is known, and the same of all.
pub(crate) fn tokens_of_each(meeting: &[Evidence]) -> Option<usize>
    ensures { IfSome result (λ k. All (λ evidence. tokens_of evidence ≡ Some k) meeting.now) }
{
    let tokens = meeting.first()?.tokens()?;
    for evidence in meeting {
        if !evidence.is_decided_by(tokens) {
            return None;
        }
    }
    Some(tokens)
}

/// What is known of entries, in groups, in each of which the same meets in the same state; each entry by itself where all are
/// told.
pub(crate) fn meetings(
    alloc: Global,
    evidence: &[Evidence],
    tells_all: bool,
) -> Result<Vec<&[Evidence]>, AllocError>
    ensures { IfOk result (λ meetings.
        flat_map (λ meeting. meeting.now) meetings.items ≡ evidence.now) }
{
    evidence
        .chunk_by(|one, other| !tells_all && one.entry.meets_like(&other.entry))
        .collect(alloc)
}

/// The entries of which something is known.
pub(crate) fn entries_of(alloc: Global, evidence: &[Evidence]) -> Result<Vec<Entry>, AllocError>
    ensures { IfOk result (λ entries. entries.items ≡ map (λ e. e.entry) evidence.now) }
{
    let mut entries = Vec::new(alloc);
    for one in evidence {
        entries.push(one.entry)?;
    }
    Ok(entries)
}
