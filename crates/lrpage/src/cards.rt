//! Conflicts, each as a card that opens.

ghost use Rattle.std.specs.Prelude.{◌≡◌, All, IfOk, IsSome, IsTrue, map, true};
ghost use Rattle.std.specs.Option.{ForSome};
ghost use Rattle.lrshown.specs.Ambiguities.{AreShown, IsShown, is_of};
ghost use Rattle.lrshown.specs.Losses.{AreShownLosses, IsShownLoss};
ghost use Rattle.lrshown.specs.DecidedEntries.{AreShownDecided, IsShownDecided};
ghost use Rattle.lrpage.specs.KeptEntries.{AreShownKept, IsShownKept};

use crate::pages::{Card, Page, add_count};
use crate::symbols::DOT;
use lrdiagnostics::{Mark, add_escaped_name};
use lrfindings::{Entry, is_among};
use lrshown::{
    Ambiguity, Evidence, Example, Loss, Outlook, Step, candidates_of, list_of, rule_name, start_of,
    text_of,
};
use lrwriter::Text;
use std::alloc::{AllocError, Global};
use std::slice;

/// How many tokens a heading names at the most.
const NAMED: usize = 12;

/// How many cards are open from the beginning.
pub(crate) const OPEN: usize = 3;

/// The place of the first of the entries for which a sentence with two trees is known that part by what meets in it, or else of the
/// first that has any, or one that the parser rejects; or else of the first of all.
fn first_with_sentence(meeting: &[Evidence]) -> usize {
    let own = meeting.iter().position(|it| it.has_own_sentence());
    let any = meeting.iter().position(|it| it.ambiguity.is_some());
    let lost = meeting.iter().position(|it| it.loss.is_some());
    own.or(any).or(lost).unwrap_or(0)
}

/// The place of the first of the entries for which a sentence is known that the parser rejects, or else of the first of all.
fn first_with_loss(meeting: &[Evidence]) -> usize {
    let lost = meeting.iter().position(|it| it.loss.is_some());
    lost.unwrap_or(0)
}

/// Whether each of the entries is decided.
fn are_decided(meeting: &[Evidence]) -> bool
    ensures { IsTrue result → All (λ e. IsSome e.decided) meeting.now }
{
    meeting.iter().all(|it| it.is_decided())
}

impl Card<'_> {
    /// Its entries.
    fn entries(&self, alloc: Global) -> Result<Vec<Entry>, AllocError>
        ensures { IfOk result (λ v. v.items ≡ map (λ e. e.entry) self.now.meeting.now) }
    {
        self.meeting.iter().map(|it| it.entry).collect(alloc)
    }
}

/// Adds a line of help.
fn add_help(page: &mut Text, line: &str) {
    page.add("<p class=\"help\">");
    add_escaped_name(page, line);
    page.add("</p>\n");
}

/// How a card begins.
#[derive(Clone, Copy)]
pub(crate) struct Head<'h> {
    /// What tells it from cards of another section.
    pub(crate) letter: &'static str,
    /// Its number in that section, from 1.
    pub(crate) number: usize,
    /// Whether it is open from the beginning.
    pub(crate) is_open: bool,
    /// The first of the entries, at which the same meets in the same state.
    pub(crate) first: &'h Entry,
    /// All of them.
    pub(crate) entries: &'h [Entry],
    /// The places of what meets.
    pub(crate) marks: &'h [Mark],
}

/// Adds in which state the entries of a card are, and ends it.
pub(crate) fn end_card(page: &mut Text, first: &Entry) {
    let state = first.state;
    write!(
        page,
        "<p>In <a href=\"#s{state}\">state {state}</a></p>\n</details>\n"
    );
}

impl Page<'_> {
    /// Adds what meets, and the tokens at which it does.
    fn add_title(&self, page: &mut Text, first: &Entry, entries: &[Entry]) {
        let kind = if first.other.is_some() {
            "reduce or reduce"
        } else {
            "shift or reduce"
        };
        write!(page, "<b>{kind}</b> at ");
        let mut is_first = true;
        for entry in entries.iter().take(NAMED) {
            page.add(if is_first { "<code>" } else { ", <code>" });
            self.add_token(page, entry.token);
            page.add("</code>");
            is_first = false;
        }
        let more = entries.len().saturating_sub(NAMED);
        if more > 0 {
            write!(page, " and {more} more");
        }
    }

    /// Adds which rule the production of the reduction is of, and in which line that stands.
    fn add_rule_and_line(&self, page: &mut Text, production: usize, marks: &[Mark]) {
        if let Some(mark) = marks.first() {
            page.add(" <span class=\"soft\">");
            add_escaped_name(page, rule_name(self.file, self.rule_of(production)));
            let line = self.source.line(mark.span.start);
            write!(page, ", line {line}</span>");
        }
    }

    /// Adds how a card begins.
    pub(crate) fn begin_card(&self, page: &mut Text, head: Head<'_>) {
        let (letter, number, state) = (head.letter, head.number, head.first.state);
        let open = if head.is_open { " open" } else { "" };
        write!(
            page,
            "<details class=\"part\" id=\"{letter}{number}\" data-state=\"{state}\"{open}>"
        );
        page.add("<summary><span class=\"title\">");
        self.add_title(page, head.first, head.entries);
        page.add("</span>");
        self.add_rule_and_line(page, head.first.production, head.marks);
    }

    /// Adds that the grammar is ambiguous at an entry, which that text shows.
    fn add_proved_tag(&self, page: &mut Text, _entry: &Entry, _text: &Ambiguity)
        requires proved { IsShown self.now.found.now.grm _text.now }
        requires own { is_of _text.now _entry.now ≡ true }
    {
        page.add(" <span class=\"tag marked\">ambiguous (proved)</span>");
    }

    /// Adds that no sentence has two trees that part at the entries.
    fn add_decided_tag(&self, page: &mut Text, _meeting: &[Evidence])
        requires proved { AreShownDecided self.now.found.now.grm self.now.found.now.graph
            _meeting.now }
        requires decided { All (λ e. IsSome e.decided) _meeting.now }
    {
        page.add(" <span class=\"tag\">not ambiguous (proved)</span>");
    }

    /// Adds whether a sentence with two trees is known that part by what meets in an entry, or that there is none at all of those.
    fn add_tag(&self, page: &mut Text, evidence: &Evidence, meeting: &[Evidence])
        requires proved { ForSome evidence.now.ambiguity
            (λ a. IsShown self.now.found.now.grm a.value) }
        requires decided { AreShownDecided self.now.found.now.grm self.now.found.now.graph
            meeting.now }
    {
        match &evidence.ambiguity {
            Some(text) if text.is_of(&evidence.entry) => {
                self.add_proved_tag(page, &evidence.entry, text);
            }
            _ if are_decided(meeting) => self.add_decided_tag(page, meeting),
            _ if self.steps > 0 => {
                page.add(" <span class=\"tag\">not known to be ambiguous</span>");
            }
            _ => {}
        }
    }

    /// Adds that the parser rejects that sentence.
    pub(crate) fn add_lost_tag(&self, page: &mut Text, _loss: &Loss)
        requires proved { IsShownLoss self.now.found.now.grm self.now.found.now.table _loss.now }
    {
        page.add(" <span class=\"tag marked\">rejects a sentence (proved)</span>");
    }

    /// Adds the same, where a sentence is known that it rejects because of an entry.
    fn add_if_lost(&self, page: &mut Text, evidence: &Evidence)
        requires lost { ForSome evidence.now.loss
            (λ l. IsShownLoss self.now.found.now.grm self.now.found.now.table l.value) }
    {
        if let Some(loss) = &evidence.loss {
            self.add_lost_tag(page, loss);
        }
    }

    /// Whether it is shown that no sentence is lost at an entry.
    fn is_kept(&self, entry: &Entry) -> bool
        ensures { IsTrue result → IsShownKept self.now.found.now.grm self.now.found.now.graph
            self.now.found.now.table entry.now }
    {
        is_among(self.kept, entry)
    }

    /// Whether it is shown of each of the entries.
    pub(crate) fn are_kept(&self, entries: &[Entry]) -> bool
        ensures { IsTrue result → AreShownKept self.now.found.now.grm self.now.found.now.graph
            self.now.found.now.table entries.now }
    {
        for entry in entries {
            if !self.is_kept(entry) {
                return false;
            }
        }
        true
    }

    /// Adds that no sentence is lost at an entry by what the table does there.
    fn add_kept_tag(&self, page: &mut Text, _evidence: &Evidence)
        requires proved { IsShownKept self.now.found.now.grm self.now.found.now.graph
            self.now.found.now.table _evidence.now.entry }
    {
        page.add(" <span class=\"tag\">loses no sentence (proved)</span>");
    }

    /// Adds the same of all entries of a card.
    fn add_kept_tag_of_all(&self, page: &mut Text, _card: &Card<'_>)
        requires proved { AreShownKept self.now.found.now.grm self.now.found.now.graph
            self.now.found.now.table (map (λ e. e.entry) _card.now.meeting.now) }
    {
        page.add(" <span class=\"tag\">loses no sentence (proved)</span>");
    }

    /// Adds what is known of an entry in few words.
    fn add_tags(&self, page: &mut Text, evidence: &Evidence)
        requires proved { ForSome evidence.now.ambiguity
            (λ a. IsShown self.now.found.now.grm a.value) }
        requires lost { ForSome evidence.now.loss
            (λ l. IsShownLoss self.now.found.now.grm self.now.found.now.table l.value) }
        requires decided { IsShownDecided self.now.found.now.grm self.now.found.now.graph
            evidence.now }
    {
        self.add_tag(page, evidence, slice::from_ref(evidence));
        self.add_if_lost(page, evidence);
        if self.is_kept(&evidence.entry) {
            self.add_kept_tag(page, evidence);
        }
    }

    /// Adds the same of a card, which has these entries: what is so at one of them, or at all.
    fn add_tags_of_all(&self, page: &mut Text, card: &Card<'_>, entries: &[Entry])
        requires proved { AreShown self.now.found.now.grm card.now.meeting.now }
        requires lost { AreShownLosses self.now.found.now.grm self.now.found.now.table
            card.now.meeting.now }
        requires decided { AreShownDecided self.now.found.now.grm self.now.found.now.graph
            card.now.meeting.now }
        requires entries { entries.now ≡ map (λ e. e.entry) card.now.meeting.now }
    {
        let meeting = card.meeting;
        if let Some(evidence) = meeting.get(first_with_sentence(meeting)) {
            self.add_tag(page, evidence, meeting);
        }
        if let Some(evidence) = meeting.get(first_with_loss(meeting)) {
            self.add_if_lost(page, evidence);
        }
        if self.are_kept(entries) {
            self.add_kept_tag_of_all(page, card);
        }
    }

    /// Adds how a text goes on by a step at an entry.
    fn add_outlook(&self, page: &mut Text, entry: &Entry, step: Step, outlook: Option<&Outlook>) {
        let Some(rest) = outlook.and_then(|outlook| outlook.rest.as_ref()) else {
            return;
        };
        page.add("<p>");
        self.add_candidate(page, entry, step);
        page.add(", and go on:</p>\n<p class=\"text\">");
        let tokens = text_of(self.file, rest.as_slice());
        if tokens.is_empty() {
            page.add("<span class=\"soft\">the end</span>");
        } else {
            self.add_tokens(page, tokens, 0, None);
        }
        page.add("</p>\n");
    }

    /// Adds how far a search went that found no sentence, unless it is known that there is none.
    fn add_effort(&self, page: &mut Text, evidence: &Evidence) {
        let steps = self.steps;
        if evidence.is_decided() {
            return;
        }
        if evidence.is_cut_off {
            page.add(
                "No sentence with two trees was looked for to the end: the allowance of this file was used up. ",
            );
        } else {
            write!(
                page,
                "No sentence with two trees was found in {steps} steps. "
            );
        }
    }

    /// Adds after what an entry is real, and how the text goes on.
    fn add_example(&self, page: &mut Text, evidence: &Evidence, example: &Example) {
        let entry = &evidence.entry;
        page.add("<p>");
        self.add_effort(page, evidence);
        if example.token == entry.token {
            page.add("Both are possible");
        } else {
            page.add(
                "Only merged states have this conflict, a canonical LR(1) table has none. Both are possible at another token",
            );
        }
        self.add_start(page, start_of(self.file, example.list.first().copied()));
        page.add(" after</p>\n<p class=\"text\">");
        for symbol in list_of(self.file, example.list.as_slice()) {
            self.add_symbol(page, *symbol);
            page.add_char(' ');
        }
        page.add(DOT);
        if example.token > 0 {
            page.add_char(' ');
            self.add_token(page, example.token);
        }
        page.add("</p>\n");
        let (one, other) = candidates_of(entry);
        self.add_outlook(page, entry, one, example.one.as_ref());
        self.add_outlook(page, entry, other, example.other.as_ref());
    }

    /// Adds what is known of an entry, where it was looked for.
    fn add_known(&self, page: &mut Text, evidence: &Evidence)
        requires proved { ForSome evidence.now.ambiguity
            (λ a. IsShown self.now.found.now.grm a.value) }
        requires lost { ForSome evidence.now.loss
            (λ l. IsShownLoss self.now.found.now.grm self.now.found.now.table l.value) }
    {
        if self.steps == 0 {
            return;
        }
        if let Some(ambiguity) = &evidence.ambiguity {
            self.add_ambiguity(page, &evidence.entry, ambiguity);
        } else if let Some(example) = &evidence.example {
            self.add_example(page, evidence, example);
        }
        if let Some(loss) = &evidence.loss {
            self.add_loss(page, &evidence.entry, loss);
        }
    }

    /// Adds what is known of the entries at other tokens than that at a place.
    fn add_others(&self, page: &mut Text, meeting: &[Evidence], first: usize)
        requires proved { AreShown self.now.found.now.grm meeting.now }
        requires lost { AreShownLosses self.now.found.now.grm self.now.found.now.table meeting.now }
        requires decided { AreShownDecided self.now.found.now.grm self.now.found.now.graph
            meeting.now }
    {
        let count = meeting.len().saturating_sub(1);
        if count == 0 || self.steps == 0 {
            return;
        }
        page.add("<details class=\"more\"><summary>The same at ");
        add_count(page, count, "other token");
        page.add("</summary>\n");
        for (place, evidence) in meeting.iter().enumerate() {
            if place != first {
                page.add("<details class=\"more\"><summary>at <code>");
                self.add_token(page, evidence.entry.token);
                page.add("</code>");
                self.add_tags(page, evidence);
                page.add("</summary>\n");
                self.add_known(page, evidence);
                page.add("</details>\n");
            }
        }
        page.add("</details>\n");
    }

    /// Adds what is known of entries at which the same meets: of one that has a text, if there is any, and then of the others.
    fn add_all_known(&self, page: &mut Text, meeting: &[Evidence])
        requires proved { AreShown self.now.found.now.grm meeting.now }
        requires lost { AreShownLosses self.now.found.now.grm self.now.found.now.table meeting.now }
        requires decided { AreShownDecided self.now.found.now.grm self.now.found.now.graph
            meeting.now }
    {
        let first = first_with_sentence(meeting);
        if let Some(evidence) = meeting.get(first) {
            self.add_known(page, evidence);
        }
        self.add_others(page, meeting, first);
    }

    /// Adds the card of that number, which is counted from 1.
    fn add_card(&self, page: &mut Text, number: usize, card: &Card<'_>) -> Result<(), AllocError>
        requires proved { AreShown self.now.found.now.grm card.now.meeting.now }
        requires lost { AreShownLosses self.now.found.now.grm self.now.found.now.table
            card.now.meeting.now }
        requires decided { AreShownDecided self.now.found.now.grm self.now.found.now.graph
            card.now.meeting.now }
    {
        let Some(first) = card.meeting.first() else {
            return Ok(());
        };
        let entries = card.entries(page.allocator())?;
        self.begin_card(
            page,
            Head {
                letter: "c",
                number,
                is_open: number <= OPEN,
                first: &first.entry,
                entries: entries.as_slice(),
                marks: card.marks.as_slice(),
            },
        );
        self.add_tags_of_all(page, card, entries.as_slice());
        page.add("</summary>\n");
        self.add_places(page, card.marks.as_slice())?;
        self.add_all_known(page, card.meeting);
        if !card.help.is_empty() {
            add_help(page, card.help.as_str());
        }
        end_card(page, &first.entry);
        Ok(())
    }

    /// Adds the cards.
    pub(crate) fn add_cards(&self, page: &mut Text) -> Result<(), AllocError> {
        page.add("<section id=\"conflicts\"><h2>Conflicts</h2>\n");
        if self.cards.is_empty() {
            page.add("<p>There are none.</p>\n");
        }
        let mut number: usize = 0;
        for card in self.cards {
            number = number.saturating_add(1);
            self.add_card(page, number, card)?;
        }
        for note in self.notes {
            add_help(page, note.as_str());
        }
        page.add("</section>\n");
        Ok(())
    }
}
