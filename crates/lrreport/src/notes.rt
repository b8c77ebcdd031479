//! What is known of conflicts, as notes under their places.

ghost use Rattle.std.specs.Prelude.{◌≡◌, All, IfOk, IfSome, IsSome, IsTrue, Some, map};
ghost use Rattle.std.specs.List.{filter};
ghost use Rattle.lrevidence.specs.Ambiguities.{HasTwoTrees, IsProved};
ghost use Rattle.lrevidence.specs.Losses.{IsLoss, IsLostAtEntry};
ghost use Rattle.lrevidence.specs.DecidedEntries.{IsToldDecided};
ghost use Rattle.lrevidence.specs.KeptEntries.{AreToldKept};
ghost use Rattle.lrshown.specs.DecidedEntries.{is_decided, tokens_of};
ghost use Rattle.lryacc.specs.Parsers.{splits};
ghost use Rattle.lrreport.specs.Causes.{entries_in};
ghost use Rattle.lrreport.specs.Wholes.{entries_of_whole};
ghost use Rattle.lrreport.specs.Conflicts.{choice_of};

use crate::alike::Alike;
use crate::causes::Cause;
use crate::conflicts::{Checked, Choice, are_decided, tokens_of_each};
use crate::drawings::{cut_mark, push_drawing};
use crate::resolved::Resolution;
use crate::texts::{
    Label, SIDE, add_list, add_loss, add_names, add_start, add_text, add_two_trees, labels,
};
use crate::told::Told;
use crate::verdicts::own_sentences;
use crate::words::Words;
use lrdiagnostics::{Layout, Mark};
use lrevidence::{
    Ambiguity, Evidence, Example, Loss, Outlook, ShownTree, Step, TwoTrees, candidates_of, list_of,
    shown_trees, start_of, text_of, tree_words,
};
use lrfindings::Entry;
use lrwriter::Text;
use std::alloc::{AllocError, Global};

/// Notes behind so many blanks, and how their lines are made.
#[derive(Clone, Copy)]
pub(crate) struct Notes {
    indent: usize,
    layout: Layout,
}

impl Notes {
    /// Adds a note.
    pub(crate) fn push(self, text: &mut Text, words: &Words) {
        let column = self.indent.saturating_add(2);
        text.add_times(' ', self.indent);
        text.add("= ");
        words.lay_out(text, self.layout, column, column);
        text.add_char('\n');
    }

    /// Adds a note of these words, which are parted by blanks.
    fn push_text(self, text: &mut Text, words: &str) {
        let mut list = Words::new(text.allocator());
        list.add_all(words);
        self.push(text, &list);
    }

    /// Adds a line of a note behind a label.
    fn push_labelled(self, text: &mut Text, label: Label<'_>, words: &Words) {
        text.add_times(' ', self.indent.saturating_add(2));
        label.push(text);
        text.add_times(' ', label.blanks.saturating_add(1));
        let column = self.indent.saturating_add(label.width()).saturating_add(3);
        let hang = self.indent.saturating_add(6);
        words.lay_out(text, self.layout, column, hang);
        text.add_char('\n');
    }

    /// Adds how many conflicts are like the one that is told, and the first of them, in a line each.
    fn push_alike(self, text: &mut Text, alike: &Alike) {
        let (count, lines) = (alike.count, alike.lines.as_slice());
        if count == 0 {
            return;
        }
        let mut words = Words::new(text.allocator());
        words.add_number(count);
        words.add_all(if count == 1 {
            "more conflict like this:"
        } else {
            "more conflicts like this:"
        });
        self.push(text, &words);
        for line in lines {
            self.push_shown(text, line);
        }
        let more = count.saturating_sub(lines.len());
        if more > 0 {
            let mut words = Words::new(text.allocator());
            words.add("and");
            words.add_number(more);
            words.add_all("more, which --all shows");
            self.push_shown(text, &words);
        }
    }

    /// Adds a line of a note that is more indented.
    fn push_shown(self, text: &mut Text, words: &Words) {
        let column = self.indent.saturating_add(6);
        text.add_times(' ', column);
        words.lay_out(text, self.layout, column, column);
        text.add_char('\n');
    }
}

/// What is known of entries that precedences resolve.
#[derive(Clone, Copy)]
pub(crate) struct KnownResolved<'a> {
    /// A sentence with two trees that part by what meets in one of them.
    pub(crate) ambiguity: Option<&'a Ambiguity>,
    /// A sentence that the parser rejects, since one of them is resolved.
    pub(crate) loss: Option<&'a Loss>,
    /// Whether sentences were not looked for to the end.
    pub(crate) is_cut_off: bool,
}

/// What is told by itself, with all its entries.
#[derive(Clone, Copy)]
enum Whole<'w, 'e> {
    /// A conflict, in all its states.
    Conflict(&'w Cause<'e>),
    /// What precedences resolve for one reason.
    Resolved(&'w Resolution),
}

impl Whole<'_, '_> {
    /// Its entries.
    fn entries(self, alloc: Global) -> Result<Vec<Entry>, AllocError>
        ensures { IfOk result (λ entries. entries.items ≡ entries_of_whole self.entry) }
    {
        match self {
            Whole::Conflict(cause) => cause.entries(alloc),
            Whole::Resolved(resolution) => Vec::from_slice(alloc, resolution.entries.as_slice()),
        }
    }
}

/// The tokens of the entries that are decided.
fn decided(alloc: Global, meeting: &[Evidence]) -> Result<Vec<usize>, AllocError>
    ensures { IfOk result (λ tokens.
        tokens.items ≡ map (λ e. e.entry.token) (filter is_decided meeting.now)) }
{
    let mut tokens = Vec::new(alloc);
    for evidence in meeting {
        if evidence.is_decided() {
            tokens.push(evidence.entry.token)?;
        }
    }
    Ok(tokens)
}

/// Whether each of the entries has a sentence with two trees that part by what meets in it.
pub(crate) fn have_sentences(meeting: &[Evidence]) -> bool
    ensures { IsTrue result → All (λ evidence. IsSome evidence.ambiguity) meeting.now }
{
    for evidence in meeting {
        if !evidence.has_own_sentence() {
            return false;
        }
    }
    true
}

impl Told<'_> {
    /// Notes under places of such marks.
    fn notes(&self, marks: &[Mark]) -> Notes {
        Notes {
            indent: self.teller().indent(marks),
            layout: self.layout(),
        }
    }

    /// Adds lines of notes under places of such marks.
    fn add_notes(&self, text: &mut Text, marks: &[Mark], lines: Text) {
        match lines.finish() {
            Ok(lines) => self.teller().add_notes(text, marks, lines.as_str()),
            Err(_) => text.give_up(),
        }
    }

    /// Adds a tree behind its label, in brackets or as a drawing.
    fn push_tree(
        &self,
        text: &mut Text,
        notes: Notes,
        label: Label<'_>,
        shown: &ShownTree,
        dot: usize,
    ) {
        let (alloc, is_plain) = (text.allocator(), self.options.lines.is_plain);
        if self.options.detail.trees {
            text.add_times(' ', notes.indent.saturating_add(2));
            label.push(text);
            text.add_char('\n');
            let indent = notes.indent.saturating_add(6);
            if push_drawing(text, self.file, shown, dot, indent, is_plain).is_err() {
                text.give_up();
            }
            return;
        }
        let Ok(list) = tree_words(alloc, self.file, shown, cut_mark(is_plain), dot) else {
            return text.give_up();
        };
        let mut words = Words::new(alloc);
        for word in &list {
            words.add(word.as_str());
        }
        notes.push_labelled(text, label, &words);
    }

    /// Adds both trees of a form.
    fn push_trees(&self, text: &mut Text, notes: Notes, trees: &TwoTrees) {
        let (candidates, dot) = (trees.candidates(), trees.dot());
        let (label, other_label) = labels(self.file, candidates, ":");
        let Ok((one, other)) = shown_trees(text.allocator(), self.file, trees) else {
            return text.give_up();
        };
        let (one, other) = ((label, &one), (other_label, &other));
        let (first, second) = if candidates.1 == Step::Shift {
            (other, one)
        } else {
            (one, other)
        };
        self.push_tree(text, notes, first.0, first.1, dot);
        self.push_tree(text, notes, second.0, second.1, dot);
    }

    /// Adds at which of the entries no sentence with two trees was found, nor that there is none, if at some.
    fn push_unknown(&self, text: &mut Text, notes: Notes, meeting: &[Evidence]) {
        let (mut words, mut is_first) = (Words::new(text.allocator()), true);
        words.add_all("not known to be ambiguous at");
        for evidence in meeting {
            if !evidence.has_own_sentence() && !evidence.is_decided() {
                words.add_listed(is_first, self.token_name(evidence.entry.token));
                is_first = false;
            }
        }
        if !is_first {
            notes.push(text, &words);
        }
    }

    /// Adds how a text goes on by a candidate, where that is known.
    fn push_outlook(
        &self,
        text: &mut Text,
        notes: Notes,
        label: Label<'_>,
        outlook: Option<&Outlook>,
    ) {
        let Some(
            Outlook {
                rest: Some(rest),
                ..
            },
        ) = outlook
        else {
            return;
        };
        let tokens = text_of(self.file, rest.as_slice());
        let mut words = Words::new(text.allocator());
        if tokens.is_empty() {
            words.add("the end");
        }
        for token in tokens.iter().take(SIDE) {
            words.add(self.token_name(*token));
        }
        if tokens.len() > SIDE {
            words.add("...");
        }
        notes.push_labelled(text, label, &words);
    }

    /// Adds that only merged states have an entry, where that is so.
    fn push_if_merged(&self, text: &mut Text, notes: Notes, evidence: &Evidence) {
        if !evidence.is_merged() {
            return;
        }
        let mut words = Words::new(text.allocator());
        words.add_all("only merged states have this conflict: a canonical LR(1) table has none at");
        words.add(self.token_name(evidence.entry.token));
        notes.push(text, &words);
    }

    /// Adds after what an entry is real, how far the search went that found no sentence with two trees, and how the text goes on.
    fn push_example(&self, text: &mut Text, notes: Notes, evidence: &Evidence, example: &Example) {
        let (file, symbols) = (self.file, example.list.as_slice());
        self.push_if_merged(text, notes, evidence);
        let mut why = Words::new(text.allocator());
        if !evidence.is_decided() {
            why.add_all("not known to be ambiguous");
            if evidence.is_cut_off {
                why.add_all("(not searched to the end: the allowance of this file was used up):");
            } else {
                write!(why, "({}", self.options.steps);
                why.add_all("steps):");
            }
        }
        why.add_all("both are possible");
        if evidence.is_merged() {
            why.add_all("at another token");
        }
        add_start(&mut why, file, start_of(file, symbols.first().copied()));
        why.add("after");
        notes.push(text, &why);
        let mut words = Words::new(text.allocator());
        add_list(&mut words, file, list_of(file, symbols), example.token);
        notes.push_shown(text, &words);
        let candidates = candidates_of(&evidence.entry);
        let (label, other_label) = labels(file, candidates, ", and go on:");
        self.push_outlook(text, notes, label, example.one.as_ref());
        self.push_outlook(text, notes, other_label, example.other.as_ref());
    }
}

impl Checked<'_> {
    /// Adds a sentence with two trees, and both. Where these part by something else that meets in the cell of the entry, it is said so.
    fn push_ambiguity(&self, text: &mut Text, notes: Notes, entry: &Entry, ambiguity: &Ambiguity)
        requires proved { HasTwoTrees self.now.found.now.grm ambiguity.now }
    {
        let mut words = Words::new(text.allocator());
        words.add_all(if ambiguity.is_of(entry) {
            "ambiguous (proved):"
        } else {
            "ambiguous (proved), though by something else that meets here:"
        });
        add_two_trees(&mut words, self.told.file, ambiguity);
        notes.push(text, &words);
        self.push_sentence(text, notes, ambiguity);
        self.told.push_fate(text, notes, ambiguity);
    }

    /// Adds a text, and both trees of the part of it in which they differ; of a long text that part alone.
    fn push_sentence(&self, text: &mut Text, notes: Notes, ambiguity: &Ambiguity)
        requires proved { HasTwoTrees self.now.found.now.grm ambiguity.now }
    {
        let mut words = Words::new(text.allocator());
        add_text(&mut words, self.told.file, ambiguity);
        notes.push_shown(text, &words);
        self.told.push_trees(text, notes, &ambiguity.form);
    }

    /// Adds a sentence that the parser rejects, and where.
    fn push_loss(&self, text: &mut Text, notes: Notes, loss: &Loss)
        requires proved { IsLoss self.now.found.now.grm self.now.found.now.table loss.now }
    {
        let mut why = Words::new(text.allocator());
        why.add_all("the parser rejects this sentence of the grammar");
        add_start(&mut why, self.told.file, loss.start(self.told.file));
        why.add_all("(proved),");
        let mut words = Words::new(text.allocator());
        add_loss(&mut why, &mut words, self.told.file, loss);
        notes.push(text, &why);
        notes.push_shown(text, &words);
    }

    /// Adds that no sentence is lost by what the table does at any entry of what is told.
    fn push_kept(
        &self,
        text: &mut Text,
        notes: Notes,
        _whole: Whole<'_, '_>,
        choice: Option<Choice>,
    )
        requires proved { AreToldKept self.now.found.now.grm self.now.found.now.graph
            self.now.found.now.table (entries_of_whole _whole) }
        requires done { choice ≡ choice_of self.now.found.now.table
            (splits self.now.told.parser.now) (entries_of_whole _whole) }
    {
        notes.push_text(
            text,
            match choice {
                Some(Choice::Shift) => "shifting loses no sentence here (proved)",
                Some(Choice::Reduce | Choice::Other) => "reducing loses no sentence here (proved)",
                Some(Choice::Neither) | None => "no sentence is lost here (proved)",
            },
        );
    }

    /// Adds the same, where it is shown.
    fn push_if_kept(&self, text: &mut Text, notes: Notes, whole: Whole<'_, '_>)
        requires { AreToldKept self.now.found.now.grm self.now.found.now.graph
            self.now.found.now.table self.now.told.kept.now }
    {
        let Ok(entries) = whole.entries(text.allocator()) else {
            return text.give_up();
        };
        let entries = entries.as_slice();
        if self.are_kept(entries) {
            self.push_kept(text, notes, whole, self.choice_of(entries));
        }
    }

    /// Adds a sentence that the parser rejects, where one is known.
    fn push_if_lost(&self, text: &mut Text, notes: Notes, loss: Option<&Loss>)
        requires { IfSome loss (λ l.
            IsLoss self.now.found.now.grm self.now.found.now.table l.now) }
    {
        if let Some(loss) = loss {
            self.push_loss(text, notes, loss);
        }
    }

    /// Adds that no sentence has two trees that part at the entries, and how many tokens decide each of them, if that is known.
    fn push_not_ambiguous(
        &self,
        text: &mut Text,
        notes: Notes,
        _meeting: &[Evidence],
        tokens: Option<usize>,
    )
        requires proved { All (IsToldDecided self.now.found.now.grm self.now.found.now.graph)
            _meeting.now }
        requires each { All (λ evidence. IsSome evidence.decided) _meeting.now }
        requires tokens { IfSome tokens
            (λ k. All (λ evidence. tokens_of evidence ≡ Some k) _meeting.now) }
    {
        let mut words = Words::new(text.allocator());
        words.add_all("not ambiguous here (proved)");
        if let Some(tokens) = tokens {
            words.add_piece(":");
            words.add_number(tokens);
            words.add_all("tokens of lookahead would decide");
        }
        notes.push(text, &words);
    }

    /// Adds at which of the entries no sentence has two trees that part there: at those that are decided, if some are.
    fn push_decided_tokens(
        &self,
        text: &mut Text,
        notes: Notes,
        _meeting: &[Evidence],
        tokens: &[usize],
    )
        requires proved { All (IsToldDecided self.now.found.now.grm self.now.found.now.graph)
            _meeting.now }
        requires tokens { tokens.now ≡ map (λ e. e.entry.token) (filter is_decided _meeting.now) }
    {
        if tokens.is_empty() {
            return;
        }
        let mut words = Words::new(text.allocator());
        words.add_all("not ambiguous (proved) at");
        add_names(&mut words, self.told.file, tokens);
        notes.push(text, &words);
    }

    /// Adds which of the entries are decided, if some are.
    fn push_decided_entries(&self, text: &mut Text, notes: Notes, meeting: &[Evidence])
        requires { All (IsToldDecided self.now.found.now.grm self.now.found.now.graph) meeting.now }
    {
        match decided(text.allocator(), meeting) {
            Ok(tokens) => self.push_decided_tokens(text, notes, meeting, tokens.as_slice()),
            Err(_) => text.give_up(),
        }
    }

    /// Adds what is known of entries without a sentence that has two trees.
    fn push_without_sentence(&self, text: &mut Text, notes: Notes, meeting: &[Evidence])
        requires proved { All (IsToldDecided self.now.found.now.grm self.now.found.now.graph)
            meeting.now }
    {
        let Some(first) = meeting.first() else {
            return;
        };
        if are_decided(meeting) {
            self.push_not_ambiguous(text, notes, meeting, tokens_of_each(meeting));
        } else {
            self.push_decided_entries(text, notes, meeting);
            if first.is_decided() {
                self.told.push_unknown(text, notes, meeting);
            }
        }
        if let Some(example) = &first.example {
            self.told.push_example(text, notes, first, example);
        }
    }

    /// Adds the text that shows the same at another token.
    fn push_also(&self, text: &mut Text, notes: Notes, token: usize, ambiguity: &Ambiguity)
        requires proved { HasTwoTrees self.now.found.now.grm ambiguity.now }
    {
        let mut words = Words::new(text.allocator());
        words.add_all("also at");
        words.add(self.told.token_name(token));
        words.add_piece(":");
        if ambiguity.is_long() {
            add_two_trees(&mut words, self.told.file, ambiguity);
            words.add_piece(":");
        }
        add_text(&mut words, self.told.file, ambiguity);
        notes.push(text, &words);
    }

    /// Adds that each of the entries has a text, where they are more than two.
    fn push_each(&self, text: &mut Text, notes: Notes, meeting: &[Evidence])
        requires proved { All (IsProved self.now.found.now.grm) meeting.now }
        requires each { All (λ evidence. IsSome evidence.ambiguity) meeting.now }
    {
        if meeting.len() > 2 {
            notes.push_text(
                text,
                "so it is at each other token (proved; --all shows the sentences)",
            );
        }
    }

    /// Adds what is known of the other entries than the first that has a text, which is one at that token.
    fn push_others(&self, text: &mut Text, notes: Notes, meeting: &[Evidence], first: usize)
        requires proved { All (IsProved self.now.found.now.grm) meeting.now }
        requires entries { All (IsToldDecided self.now.found.now.grm self.now.found.now.graph)
            meeting.now }
    {
        if own_sentences(meeting) == 2 {
            if let Some((token, ambiguity)) = self.own_sentence_but_at(meeting, Some(first)) {
                self.push_also(text, notes, token, ambiguity);
            }
        }
        if have_sentences(meeting) {
            self.push_each(text, notes, meeting);
        } else {
            self.push_decided_entries(text, notes, meeting);
            self.told.push_unknown(text, notes, meeting);
        }
    }

    /// Adds what is known of entries at which the same meets, but for what becomes of sentences.
    fn push_known(&self, text: &mut Text, notes: Notes, meeting: &[Evidence])
        requires proved { All (IsProved self.now.found.now.grm) meeting.now }
        requires entries { All (IsToldDecided self.now.found.now.grm self.now.found.now.graph)
            meeting.now }
    {
        let Some(first) = meeting.first() else {
            return;
        };
        if let Some((token, ambiguity)) = self.own_sentence_but_at(meeting, None) {
            self.push_ambiguity(text, notes, &first.entry, ambiguity);
            self.push_others(text, notes, meeting, token);
        } else if let Some(ambiguity) = self.sentence_with_trees(meeting) {
            self.push_ambiguity(text, notes, &first.entry, ambiguity);
        } else {
            self.push_without_sentence(text, notes, meeting);
        }
    }

    /// Adds that the same is so in the other states.
    fn push_each_state(&self, text: &mut Text, notes: Notes, cause: &Cause<'_>)
        requires proved { All (IsProved self.now.found.now.grm) (entries_in cause.now) }
        requires each { All (λ evidence. IsSome evidence.ambiguity) (entries_in cause.now) }
    {
        notes.push_text(
            text,
            if cause.states() == 2 {
                "so it is in the other state (proved; --all shows the sentences)"
            } else {
                "so it is in each other state (proved; --all shows the sentences)"
            },
        );
    }

    /// The sentence that the parser rejects of a conflict: of the state that is shown, or else of another one.
    fn loss_of<'e>(&self, cause: &Cause<'e>, shown: &'e [Evidence]) -> Option<&'e Loss>
        requires lost { All (IsLostAtEntry self.now.found.now.grm self.now.found.now.table)
            (entries_in cause.now) }
        requires lost_here { All (IsLostAtEntry self.now.found.now.grm self.now.found.now.table)
            shown.now }
        ensures { IfSome result (λ l.
            IsLoss self.now.found.now.grm self.now.found.now.table l.now) }
    {
        if let Some(loss) = self.loss_in(shown) {
            return Some(loss);
        }
        let meeting = cause.rejecting()?;
        self.loss_in(meeting)
    }

    /// Adds what is known of the other states than the one that is shown, where that has a sentence with two trees.
    fn push_other_states(
        &self,
        text: &mut Text,
        notes: Notes,
        cause: &Cause<'_>,
        shown: &[Evidence],
    )
        requires proved { All (IsProved self.now.found.now.grm) (entries_in cause.now) }
    {
        if cause.states() < 2 || own_sentences(shown) == 0 {
            return;
        }
        if cause.has_sentences() {
            self.push_each_state(text, notes, cause);
        } else {
            let mut words = Words::new(text.allocator());
            words.add_all("not known to be ambiguous in");
            words.add_number(cause.states_without());
            words.add_all("of these states");
            notes.push(text, &words);
        }
    }

    /// Adds what is known of a conflict, of which a state is shown, what becomes of sentences in all its states, how it can be
    /// resolved, and which conflicts are like it, as notes under such marks.
    pub(crate) fn push_notes<'e>(
        &self,
        text: &mut Text,
        marks: &[Mark],
        cause: &Cause<'e>,
        shown: &'e [Evidence],
        help: &Words,
        alike: &Alike,
    )
        requires proved { All (IsProved self.now.found.now.grm) (entries_in cause.now) }
        requires lost { All (IsLostAtEntry self.now.found.now.grm self.now.found.now.table)
            (entries_in cause.now) }
        requires proved_here { All (IsProved self.now.found.now.grm) shown.now }
        requires lost_here { All (IsLostAtEntry self.now.found.now.grm self.now.found.now.table)
            shown.now }
        requires entries_here { All (IsToldDecided self.now.found.now.grm self.now.found.now.graph)
            shown.now }
        requires kept { AreToldKept self.now.found.now.grm self.now.found.now.graph
            self.now.found.now.table self.now.told.kept.now }
    {
        let mut lines = Text::new(text.allocator());
        let notes = self.told.notes(marks);
        if self.told.options.steps > 0 {
            self.push_known(&mut lines, notes, shown);
            self.push_other_states(&mut lines, notes, cause, shown);
            self.push_if_lost(&mut lines, notes, self.loss_of(cause, shown));
            self.push_if_kept(&mut lines, notes, Whole::Conflict(cause));
        }
        if !help.is_empty() {
            notes.push(&mut lines, help);
        }
        notes.push_alike(&mut lines, alike);
        self.told.add_notes(text, marks, lines);
    }

    /// Adds a sentence that has two trees without the precedences, of which one is kept.
    fn push_decided_sentence(
        &self,
        text: &mut Text,
        notes: Notes,
        kept: &str,
        ambiguity: &Ambiguity,
    )
        requires proved { HasTwoTrees self.now.found.now.grm ambiguity.now }
    {
        let mut words = Words::new(text.allocator());
        words.add_all("without it");
        add_two_trees(&mut words, self.told.file, ambiguity);
        words.add_all("(proved);");
        words.add_all(kept);
        notes.push(text, &words);
        self.push_sentence(text, notes, ambiguity);
    }

    /// Adds notes on what precedences resolve: why, a sentence with two trees, of which one is kept, and one that is rejected, or that
    /// none is.
    pub(crate) fn push_decided(
        &self,
        text: &mut Text,
        marks: &[Mark],
        why: &str,
        resolution: &Resolution,
        known: KnownResolved<'_>,
    )
        requires proved { IfSome known.ambiguity (λ a. HasTwoTrees self.now.found.now.grm a.now) }
        requires lost { IfSome known.loss (λ l.
            IsLoss self.now.found.now.grm self.now.found.now.table l.now) }
        requires kept { AreToldKept self.now.found.now.grm self.now.found.now.graph
            self.now.found.now.table self.now.told.kept.now }
    {
        let mut lines = Text::new(text.allocator());
        let notes = self.told.notes(marks);
        notes.push_text(&mut lines, why);
        if known.is_cut_off {
            notes.push_text(
                &mut lines,
                "no sentence was looked for to the end, since the allowance of this file was used up",
            );
        }
        if let Some(ambiguity) = known.ambiguity {
            self.push_decided_sentence(&mut lines, notes, resolution.kept(), ambiguity);
        }
        self.push_if_lost(&mut lines, notes, known.loss);
        self.push_if_kept(&mut lines, notes, Whole::Resolved(resolution));
        self.told.add_notes(text, marks, lines);
    }
}
