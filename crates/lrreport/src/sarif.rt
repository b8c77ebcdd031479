//! What was found, as results of SARIF.

ghost use Rattle.std.specs.Prelude.{All};
ghost use Rattle.lrevidence.specs.Ambiguities.{IsProved};

use crate::conflicts::{Checked, entries_of, meetings};
use crate::json_texts::JsonText;
use crate::known::Unread;
use crate::sarif_logs::{Rule, add_message};
use crate::sarif_places::{add_location, uri_of};
use crate::texts::add_text;
use crate::told::Told;
use crate::words::Words;
use lrdiagnostics::{Mark, Message, Source, messages_of};
use lrevidence::Evidence;
use lrfindings::Verdict;
use lrwriter::Text;
use lryacc::{Fault, Span};
use std::alloc::{AllocError, Global};

/// Results in the making: those of one file.
#[derive(Drop)]
struct Results<'a> {
    source: &'a Source<'a>,
    /// The reference to its file.
    uri: &'a str,
    json: JsonText,
}

/// What stands between the brackets of a list.
fn within_brackets(list: &str) -> Option<&str> {
    list.strip_prefix('[')?.strip_suffix(']')
}

impl<'a> Results<'a> {
    /// No results yet.
    fn new(alloc: Global, source: &'a Source<'a>, uri: &'a str) -> Results<'a> {
        let mut json = JsonText::new(alloc);
        json.begin_array();
        Results { source, uri, json }
    }

    /// Begins a result at a place, or of the file as such, with what it tells.
    fn begin(&mut self, rule: Rule, level: &str, words: &str, place: Option<Span>) {
        let json = &mut self.json;
        json.begin_object();
        json.string_at("ruleId", rule.id());
        json.string_at("level", level);
        add_message(json, "message", words);
        json.key("locations");
        json.begin_array();
        json.begin_object();
        add_location(json, self.source, self.uri, place);
        json.end_object();
        json.end_array();
    }

    /// Adds what is told of places, in one result at the first of them, to which the others belong.
    fn add(&mut self, rule: Rule, level: &str, words: &str, places: &[Span]) {
        self.begin(rule, level, words, places.first().copied());
        self.json.key("relatedLocations");
        self.json.begin_array();
        for place in places.iter().skip(1) {
            self.json.begin_object();
            add_location(&mut self.json, self.source, self.uri, Some(*place));
            self.json.end_object();
        }
        self.json.end_array();
        self.json.end_object();
    }

    /// Adds messages, a result each.
    fn add_all(&mut self, rule: Rule, level: &str, messages: &[Message]) {
        for message in messages {
            let places = message.places.as_slice();
            self.add(rule, level, message.words.as_str(), places);
        }
    }

    /// Adds faults, or warnings.
    fn add_faults(&mut self, rule: Rule, level: &str, faults: &[Fault]) {
        match messages_of(self.json.allocator(), self.source, faults) {
            Ok(messages) => self.add_all(rule, level, messages.as_slice()),
            Err(_) => self.json.give_up(),
        }
    }

    /// Adds places with what is said of each, as those that belong to the result in hand.
    fn add_marks(&mut self, marks: &[Mark]) {
        self.json.key("relatedLocations");
        self.json.begin_array();
        for mark in marks {
            self.json.begin_object();
            add_location(&mut self.json, self.source, self.uri, Some(mark.span));
            add_message(&mut self.json, "message", mark.label.as_str());
            self.json.end_object();
        }
        self.json.end_array();
    }

    /// The text of the results, with commas between them.
    fn finish(self) -> Result<String, AllocError> {
        let alloc = self.json.allocator();
        let mut json = self.json;
        json.end_array();
        let text = json.finish()?;
        String::from_str(alloc, within_brackets(text.as_str()).unwrap_or(""))
    }
}

/// The results of a file in which nothing is checked.
pub(crate) fn sarif_of_unread(alloc: Global, unread: Unread<'_>) -> Result<String, AllocError> {
    let uri = uri_of(alloc, unread.source.name)?;
    let mut results = Results::new(alloc, unread.source, uri.as_str());
    if let Some(why) = unread.why {
        results.add(Rule::Error, "error", why, &[]);
    }
    results.add_faults(Rule::Error, "error", unread.faults);
    results.add_faults(Rule::Warning, "warning", unread.warnings);
    results.finish()
}

impl Told<'_> {
    /// Adds which tokens are in no rule, or in useless ones alone, which precedences resolve nothing, and which productions are never
    /// reduced.
    fn add_without_use(&self, results: &mut Results<'_>, faults: &[Fault]) {
        let alloc = results.json.allocator();
        let (mut unused, mut useless) = (Vec::new(alloc), Vec::new(alloc));
        let mut unreduced = Vec::new(alloc);
        if self.add_unused(&mut unused).is_err()
            || self.add_useless(&mut useless, faults).is_err()
            || self.add_unreduced(&mut unreduced).is_err()
        {
            return results.json.give_up();
        }
        results.add_all(Rule::UnusedToken, "warning", unused.as_slice());
        results.add_all(Rule::UselessPrecedence, "warning", useless.as_slice());
        results.add_all(Rule::NeverReduced, "warning", unreduced.as_slice());
    }
}

impl Checked<'_> {
    /// Adds what is told of a conflict: what meets at which tokens, and a sentence with two trees, where there is one.
    fn conflict_words(
        &self,
        alloc: Global,
        rule: Rule,
        meeting: &[Evidence],
    ) -> Result<String, AllocError>
        requires proved { All (IsProved self.now.found.now.grm) meeting.now }
    {
        let mut words = Words::new(alloc);
        words.add_all(match rule {
            Rule::ReduceReduce => "conflict: reduce or reduce at",
            _ => "conflict: shift or reduce at",
        });
        for (place, evidence) in meeting.iter().enumerate() {
            words.add_listed(place == 0, self.told.token_name(evidence.entry.token));
        }
        if let Some(ambiguity) = self.sentence_with_trees(meeting) {
            words.add_piece(";");
            words.add_all("ambiguous (proved): this sentence has two trees:");
            add_text(&mut words, self.told.file, ambiguity);
        }
        let mut text = Text::new(alloc);
        words.join(&mut text);
        text.finish()
    }

    /// Adds a conflict: entries at which the same meets in the same state.
    fn add_conflict_result(&self, results: &mut Results<'_>, level: &str, meeting: &[Evidence])
        requires proved { All (IsProved self.now.found.now.grm) meeting.now }
    {
        let alloc = results.json.allocator();
        let Ok(entries) = entries_of(alloc, meeting) else {
            return results.json.give_up();
        };
        let Ok(marks) = self.marks(alloc, entries.as_slice()) else {
            return results.json.give_up();
        };
        let rule = match entries.first() {
            Some(entry) if entry.other.is_some() => Rule::ReduceReduce,
            _ => Rule::ShiftReduce,
        };
        let Ok(words) = self.conflict_words(alloc, rule, meeting) else {
            return results.json.give_up();
        };
        let place = match marks.first() {
            Some(mark) => Some(mark.span),
            None => None,
        };
        results.begin(rule, level, words.as_str(), place);
        results.add_marks(marks.as_slice());
        results.json.end_object();
    }

    /// The results of a file in whose grammar this was found, with that verdict.
    pub(crate) fn sarif(
        &self,
        alloc: Global,
        warnings: &[Fault],
        verdict: Verdict,
    ) -> Result<String, AllocError>
        requires proved { All (IsProved self.now.found.now.grm) self.now.told.evidence.now }
    {
        let source = self.told.source;
        let uri = uri_of(alloc, source.name)?;
        let mut results = Results::new(alloc, source, uri.as_str());
        let level = if verdict.status() == 0 {
            "note"
        } else {
            "error"
        };
        for meeting in &meetings(alloc, self.told.evidence, self.told.options.detail.all)? {
            self.add_conflict_result(&mut results, level, meeting);
        }
        results.add_faults(Rule::Warning, "warning", warnings);
        self.told.add_without_use(&mut results, warnings);
        results.finish()
    }
}
