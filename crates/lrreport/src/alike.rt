//! Conflicts of one form: the same rule meets the same, and the trees of their sentences part in the same way.

use crate::causes::Cause;
use crate::conflicts::entries_of;
use crate::levels::Trials;
use crate::told::Told;
use crate::words::Words;
use lrdiagnostics::TOLD;
use lrevidence::{Evidence, Step};
use lrfindings::Entry;
use lrwriter::Text;
use lryacc::Span;
use std::alloc::{AllocError, Global};
use std::collections::BTreeMap;

/// How many conflicts are told in a line each, at the most, behind those that are shown.
const LINES: usize = 50;

/// How many tokens are named in such a line at the most.
const NAMED: usize = 4;

/// A step by which both trees of a form are put together, whatever its symbols are.
#[derive(Clone, Copy, PartialEq, Eq, PartialOrd, Ord)]
enum Piece {
    /// Some symbols become leaves.
    Symbols,
    /// A production of the rule.
    Rule(usize),
    /// Where the steps to one of the trees begin.
    Dot,
}

/// The form of a conflict: the rules of the productions that meet, whether a sentence is known that the parser rejects, and the
/// pieces of both trees.
type Form = (usize, Option<usize>, bool, Vec<Piece>);

/// How conflicts are told whose form is that of an earlier one: behind that one, by its number.
#[derive(Drop)]
pub(crate) struct Leads {
    /// By the number of each conflict the one behind which it is told; itself where there is no such one.
    places: Vec<usize>,
    /// By the number of each conflict how many are told behind it.
    counts: Vec<usize>,
}

impl Leads {
    /// Adds the next conflict, which is told behind an earlier one, or by itself.
    fn push(&mut self, lead: usize) -> Result<(), AllocError> {
        let place = self.places.len();
        self.places.push(lead)?;
        self.counts.push(0)?;
        if lead != place {
            if let Some(count) = self.counts.get_mut(lead) {
                *count = count.saturating_add(1);
            }
        }
        Ok(())
    }

    /// Whether a conflict is told by itself.
    pub(crate) fn is_lead(&self, place: usize) -> bool {
        self.places.get(place) == Some(&place)
    }

    /// How many conflicts are told behind one of them.
    fn count(&self, lead: usize) -> usize {
        match self.counts.get(lead) {
            Some(count) => *count,
            None => 0,
        }
    }
}

/// The conflicts that are told behind one of them.
#[derive(Drop)]
pub(crate) struct Alike {
    /// How many they are.
    pub(crate) count: usize,
    /// The first ones, in a line each.
    pub(crate) lines: Vec<Words>,
}

impl Told<'_> {
    /// The rule of a production.
    fn rule_of(&self, production: usize) -> usize {
        match self.production(production) {
            Some(prod) => prod.rule,
            None => 0,
        }
    }

    /// Adds the pieces of steps, behind which the dot stands.
    fn push_pieces(&self, pieces: &mut Vec<Piece>, steps: &[Step]) -> Result<(), AllocError> {
        for step in steps {
            match step {
                Step::Reduce(production) => {
                    pieces.push(Piece::Rule(self.rule_of(*production)))?;
                }
                Step::Shift if pieces.last() == Some(&Piece::Symbols) => {}
                Step::Shift => pieces.push(Piece::Symbols)?,
            }
        }
        pieces.push(Piece::Dot)?;
        Ok(())
    }

    /// The form by which a conflict may be told behind another one, where each of its entries has a sentence of its own with two
    /// trees; None where each conflict is told by itself, and where the parser splits, since what becomes of both trees is another
    /// thing then.
    fn form(&self, alloc: Global, cause: &Cause<'_>) -> Result<Option<Form>, AllocError> {
        if self.options.detail.all || self.parser.splits() || !cause.has_sentences() {
            return Ok(None);
        }
        let Some(first) = cause.first_evidence() else {
            return Ok(None);
        };
        let Some(ambiguity) = &first.ambiguity else {
            return Ok(None);
        };
        let (entry, form) = (first.entry, &ambiguity.form);
        let mut pieces = Vec::new(alloc);
        for steps in [&form.before, &form.one, &form.other] {
            self.push_pieces(&mut pieces, steps.as_slice())?;
        }
        let rule = self.rule_of(entry.production);
        let other = match entry.other {
            Some(other) => Some(self.rule_of(other)),
            None => None,
        };
        let rejects = cause.rejecting().is_some();
        Ok(Some((rule, other, rejects, pieces)))
    }

    /// Which conflicts are told behind which: those of one form behind the first of them.
    pub(crate) fn leads(&self, alloc: Global, causes: &[Cause<'_>]) -> Result<Leads, AllocError> {
        let mut forms: BTreeMap<Form, usize> = BTreeMap::new(alloc);
        let mut leads = Leads {
            places: Vec::new(alloc),
            counts: Vec::new(alloc),
        };
        for (place, cause) in causes.iter().enumerate() {
            let mut lead = place;
            if let Some(form) = self.form(alloc, cause)? {
                match forms.get(&form) {
                    Some(earlier) => lead = *earlier,
                    None => {
                        forms.insert(form, place)?;
                    }
                }
            }
            leads.push(lead)?;
        }
        Ok(leads)
    }

    /// Adds in which states a conflict is, if in several; where each entry is told, in which one.
    pub(crate) fn add_states(&self, words: &mut Words, cause: &Cause<'_>) {
        let count = cause.states();
        if self.options.detail.all {
            if let Some(first) = cause.first_evidence() {
                let state = first.entry.state;
                words.add_all("in state");
                words.add_number(state);
            }
        } else if count > 1 {
            words.add("in");
            words.add_number(count);
            words.add("states");
        }
    }

    /// Adds what meets, as `shift or reduce`, at which tokens, the first ones and how many there are besides, in how many states, and
    /// which rule can end there.
    fn add_conflict(
        &self,
        words: &mut Words,
        cause: &Cause<'_>,
        first: &Entry,
        meeting: &[Evidence],
    ) {
        words.add_all(kinds(first));
        words.add("at");
        for (place, one) in meeting.iter().take(NAMED).enumerate() {
            words.add_listed(place == 0, self.token_name(one.entry.token));
        }
        let more = meeting.len().saturating_sub(NAMED);
        if more > 0 {
            words.add("and");
            words.add_number(more);
            words.add("more");
        }
        self.add_states(words, cause);
        words.add_piece(":");
        words.add(self.rule_name(first.production));
        words.add("can");
        words.add_all(self.ending(first.production));
    }

    /// Adds the place of the production of an entry.
    fn add_at(&self, words: &mut Words, entry: &Entry) {
        let at = self.source.position(self.place(entry.production).start);
        let (name, line, column) = (self.source.name, at.line, at.column);
        write!(words, "{name}:{line}:{column}:");
    }

    /// Adds the line and the column of another place.
    fn add_other_place(&self, words: &mut Words, place: Span) {
        let at = self.source.position(place.start);
        write!(words, "({}:{})", at.line, at.column);
    }

    /// Adds what else can be done at an entry: for a shift the rule of the first item by which the state goes on, the place there, and
    /// how many more there are.
    fn add_other_way(&self, words: &mut Words, entry: &Entry, items: &[(usize, usize)]) {
        words.add_piece(",");
        match (entry.other, items.first()) {
            (Some(other), _) => {
                words.add("or");
                words.add(self.rule_name(other));
                self.add_other_place(words, self.place(other));
            }
            (None, Some((production, _))) if self.is_start(*production) => {
                words.add_all("or the input can end");
            }
            (None, Some((production, dot))) => {
                words.add("or");
                words.add(self.rule_name(*production));
                words.add_all("goes on");
                self.add_other_place(words, self.symbol_place(*production, *dot));
                if items.len() > 1 {
                    words.add("and");
                    words.add_number(items.len() - 1);
                    words.add("more");
                }
            }
            (None, None) => words.add_all("or go on"),
        }
    }
}

/// Which moves meet in an entry.
pub(crate) fn kinds(entry: &Entry) -> &'static str {
    match entry.other {
        Some(_) => "reduce or reduce",
        None => "shift or reduce",
    }
}

impl Trials<'_, '_> {
    /// Adds how a conflict can be resolved, unless that is said already.
    fn add_help(&self, words: &mut Words, cause: &Cause<'_>, said: Option<&Words>) {
        let help = self.help_on(words.allocator(), cause);
        let is_said = matches!(said, Some(said) if said.is_same(&help));
        if !help.is_empty() && !is_said {
            words.add_piece(";");
            words.append(&help);
        }
    }

    /// The words of a conflict in one line, which is told behind another one, whose help is said.
    fn line_behind(&self, alloc: Global, cause: &Cause<'_>, said: &Words) -> Words {
        let mut words = Words::new(alloc);
        let meeting = cause.shown_entries();
        if let Some(first) = meeting.first() {
            let (told, entry) = (self.told(), &first.entry);
            told.add_at(&mut words, entry);
            told.add_conflict(&mut words, cause, entry, meeting);
            self.add_help(&mut words, cause, Some(said));
        }
        words
    }

    /// The conflicts that are told behind one of them, whose help is said already.
    pub(crate) fn alike(
        &self,
        alloc: Global,
        causes: &[Cause<'_>],
        leads: &Leads,
        lead: usize,
        said: &Words,
    ) -> Result<Alike, AllocError> {
        let (count, mut lines) = (leads.count(lead), Vec::new(alloc));
        if count == 0 {
            return Ok(Alike { count, lines });
        }
        for (place, cause) in causes.iter().enumerate() {
            let is_behind = place != lead && leads.places.get(place) == Some(&lead);
            if is_behind && lines.len() < TOLD {
                lines.push(self.line_behind(alloc, cause, said))?;
            }
        }
        Ok(Alike { count, lines })
    }

    /// Adds a conflict in a line: one that is told by itself, with so many behind it.
    fn push_line(&self, text: &mut Text, cause: &Cause<'_>, behind: usize) {
        let (alloc, told, meeting) = (text.allocator(), self.told(), cause.shown_entries());
        let Some(first) = meeting.first() else {
            return;
        };
        let Ok(entries) = entries_of(alloc, meeting) else {
            return text.give_up();
        };
        let Ok(items) = self.checked.shifting_items(alloc, entries.as_slice()) else {
            return text.give_up();
        };
        let (mut words, entry) = (Words::new(alloc), &first.entry);
        told.add_at(&mut words, entry);
        words.add("conflict:");
        told.add_conflict(&mut words, cause, entry, meeting);
        told.add_other_way(&mut words, entry, items.as_slice());
        if behind > 0 {
            write!(words, "({behind}");
            words.add_all(if behind == 1 {
                "more conflict like this)"
            } else {
                "more conflicts like this)"
            });
        }
        self.add_help(&mut words, cause, None);
        words.lay_out(text, told.layout(), 0, 4);
        text.add_char('\n');
    }

    /// Adds those of the conflicts that are told by themselves, but for the first ones, so many at the most, in a line each, and how
    /// many there are besides.
    pub(crate) fn push_further(
        &self,
        text: &mut Text,
        causes: &[Cause<'_>],
        leads: &Leads,
        most: usize,
    ) {
        let (mut number, mut untold): (usize, usize) = (0, 0);
        for (lead, cause) in causes.iter().enumerate() {
            if leads.is_lead(lead) {
                number = number.saturating_add(1);
                if number > most.saturating_add(LINES) {
                    untold = untold.saturating_add(1).saturating_add(leads.count(lead));
                } else if number > most {
                    self.push_line(text, cause, leads.count(lead));
                }
            }
        }
        if untold == 1 {
            text.add("and 1 more conflict, which --all shows\n");
        } else if untold > 1 {
            write!(text, "and {untold} more conflicts, which --all shows\n");
        }
        if number > most {
            text.add_char('\n');
        }
    }

    /// The words for how a conflict can be resolved; none where nothing is advised.
    pub(crate) fn help_on(&self, alloc: Global, cause: &Cause<'_>) -> Words {
        match cause.rejecting() {
            Some(meeting) => self.help(alloc, meeting),
            None => self.help(alloc, cause.shown_entries()),
        }
    }
}
