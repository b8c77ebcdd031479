//! What there is to tell of a file, as a line of JSON.

ghost use Rattle.std.specs.Prelude.{◌≡◌, [], ◌∷◌, All, IfOk, IfSome, IsTrue, codes, is_some};
ghost use Rattle.std.specs.List.{flat_map, list_any};
ghost use Rattle.std.specs.String.{string_bytes};
ghost use Rattle.json.specs.Token.{key, string, begin_array, end_array};
ghost use Rattle.json.specs.Print.{print};
ghost use Rattle.lrspec.specs.tables.Recognition.{IsUnambiguous};
ghost use Rattle.lrverdicts.specs.declared.verdicts.Verdict.TheVariants.{Unambiguous};
ghost use Rattle.lrevidence.specs.Ambiguities.{HasTwoTrees, IsProved};
ghost use Rattle.lrevidence.specs.Losses.{IsLostAtEntry};
ghost use Rattle.lrevidence.specs.DecidedEntries.{IsToldDecided};
ghost use Rattle.lrevidence.specs.KeptEntries.{AreToldKept};
ghost use Rattle.lrshown.specs.Ambiguities.{has_sentence};
ghost use Rattle.lrshown.specs.Exactness.{IsToldExact};
ghost use Rattle.lrreport.specs.JsonTexts.{AddsTokens};
ghost use Rattle.lrreport.specs.JsonHeads.{verdict_word, is_unambiguous, fact_tokens, exact_tokens, proved_tokens, count_tokens, head_tokens, BeginsWith};

use crate::conflicts::{Checked, entries_of};
use crate::grammars::{add_grammar, productions_of_file, tokens_of_file};
use crate::helps::cut_off;
use crate::json_parts::add_faults;
use crate::json_texts::JsonText;
use crate::known::Unread;
use crate::resolved::won_by;
use crate::trees::alternatives;
use lrevidence::{Ambiguity, Evidence, Exactness};
use lrfindings::{Counts, Entry, Verdict, Winner};
use lryacc::{Expected, Fault, FileGrammar};
use std::alloc::{AllocError, Global};

/// Entries of one state that an object tells together: by the tokens at which the same meets.
#[derive(Drop)]
struct Group {
    entries: Vec<Entry>,
}

/// A verdict as one of few words, where the grammar is shown to be ambiguous or not.
fn word_of(verdict: Verdict, is_ambiguous: bool) -> &'static str
    ensures { result.now ≡ verdict_word verdict is_ambiguous }
{
    match verdict {
        Verdict::Unambiguous => "unambiguous",
        Verdict::NoConflicts => "no conflicts",
        Verdict::Conflicts(_) if is_ambiguous => "ambiguous",
        Verdict::Conflicts(_) => "conflicts",
        Verdict::Expected(_) => "as expected",
        Verdict::Unexpected { .. } => "unexpected",
    }
}

/// Adds the name of a file, and its verdict.
fn add_verdict(json: &mut JsonText, name: &str, verdict: &str)
    ensures { AddsTokens json.old json.new (key (codes "file") ∷ string name.now
        ∷ key (codes "verdict") ∷ string verdict.now ∷ []) }
{
    json.string_at("file", name);
    json.string_at("verdict", verdict);
}

/// Adds that nothing is proved of a file.
fn add_not_proved(json: &mut JsonText)
    ensures { AddsTokens json.old json.new
        (key (codes "proved") ∷ begin_array ∷ end_array ∷ []) }
{
    json.key("proved");
    json.begin_array();
    json.end_array();
}

/// Adds how many conflicts there are.
fn add_counts(json: &mut JsonText, counts: Counts)
    ensures { AddsTokens json.old json.new (count_tokens counts) }
{
    json.number_at("shift_reduce", counts.shift_reduce);
    json.number_at("reduce_reduce", counts.reduce_reduce);
}

/// Adds how many are expected, where that is said.
fn add_expected(json: &mut JsonText, expected: Expected) {
    json.key("expected");
    if expected == Expected::default() {
        return json.null();
    }
    json.begin_array();
    json.number(expected.shift_reduce.unwrap_or(0) as usize);
    json.number(expected.reduce_reduce.unwrap_or(0) as usize);
    json.end_array();
}

/// Adds how large a grammar and its graph are.
fn add_sizes(json: &mut JsonText, file: Option<&FileGrammar>, states: Option<usize>) {
    let (rules, productions, tokens) = match file {
        Some(file) => (
            // without `$accept`
            Some(file.parts.rules.len().saturating_sub(1)),
            Some(productions_of_file(file)),
            Some(tokens_of_file(file)),
        ),
        None => (None, None, None),
    };
    json.key("rules");
    json.number_or_null(rules);
    json.key("productions");
    json.number_or_null(productions);
    json.key("tokens");
    json.number_or_null(tokens);
    json.key("states");
    json.number_or_null(states);
}

/// Adds warnings and errors: faults, or, without a place, why a grammar can't be checked.
fn add_faults_of(json: &mut JsonText, unread: Unread<'_>) {
    json.key("warnings");
    json.begin_array();
    add_faults(json, unread.source, unread.warnings);
    json.end_array();
    json.key("errors");
    json.begin_array();
    add_faults(json, unread.source, unread.faults);
    if let Some(why) = unread.why {
        json.begin_object();
        for name in ["line", "column", "end_line", "end_column"] {
            json.key(name);
            json.null();
        }
        json.string_at("message", why);
        json.end_object();
    }
    json.end_array();
}

/// Adds the grammar, where it is asked for.
fn add_grammar_of(json: &mut JsonText, file: Option<&FileGrammar>, has_grammar: bool) {
    if has_grammar {
        json.key("grammar");
        match file {
            Some(file) => add_grammar(json, file),
            None => json.null(),
        }
    }
}

/// Ends the line of a file.
fn end_line(mut json: JsonText) -> Result<String, AllocError> {
    json.end_object();
    let mut line = json.finish()?;
    line.push('\n')?;
    Ok(line)
}

/// The line of a file in which nothing is checked.
pub(crate) fn json_of_unread(
    alloc: Global,
    unread: Unread<'_>,
    has_grammar: bool,
    has_states: bool,
) -> Result<String, AllocError> {
    let mut json = JsonText::new(alloc);
    json.begin_object();
    add_verdict(&mut json, unread.source.name, "not read");
    add_not_proved(&mut json);
    json.key("shift_reduce");
    json.null();
    json.key("reduce_reduce");
    json.null();
    add_expected(&mut json, Expected::default());
    add_sizes(&mut json, unread.file, None);
    for name in [
        "conflicts",
        "settled",
        "unused_precedences",
        "unused_tokens",
    ] {
        json.key(name);
        json.begin_array();
        json.end_array();
    }
    add_faults_of(&mut json, unread);
    json.key("never_reduced");
    json.begin_array();
    json.end_array();
    add_grammar_of(&mut json, unread.file, has_grammar);
    if has_states {
        json.key("automaton");
        json.null();
    }
    end_line(json)
}

/// The line of a file in whose grammar this was found, with so many conflicts expected.
pub(crate) fn json_of_findings(
    alloc: Global,
    checked: &Checked<'_>,
    warnings: &[Fault],
    expected: Expected,
    verdict: Verdict,
    decided: Option<&Ambiguity>,
    has_grammar: bool,
) -> Result<String, AllocError>
    requires proved { All (IsProved checked.now.found.now.grm) checked.now.told.evidence.now }
    requires lost { All (IsLostAtEntry checked.now.found.now.grm checked.now.found.now.table)
        checked.now.told.evidence.now }
    requires entries { All (IsToldDecided checked.now.found.now.grm checked.now.found.now.graph)
        checked.now.told.evidence.now }
    requires resolved { All (IsProved checked.now.found.now.grm) checked.now.told.resolved.now }
    requires settled { All (IsLostAtEntry checked.now.found.now.grm checked.now.found.now.table)
        checked.now.told.resolved.now }
    requires unambiguous { verdict ≡ Unambiguous → IsUnambiguous checked.now.found.now.grm }
    requires yet_unambiguous { IsTrue checked.now.told.is_unambiguous
        → IsUnambiguous checked.now.found.now.grm }
    requires decided { IfSome decided (λ a. HasTwoTrees checked.now.found.now.grm a.now) }
    requires exact { IsToldExact checked.now.found.now.grm checked.now.found.now.graph
        checked.now.found.now.table checked.now.told.exactness }
    requires kept { AreToldKept checked.now.found.now.grm checked.now.found.now.graph
        checked.now.found.now.table checked.now.told.kept.now }
    ensures { IfOk result (λ s. BeginsWith (print (head_tokens checked.now.told.source.now.name.now
        verdict checked.now.told.is_unambiguous
        (list_any has_sentence checked.now.told.evidence.now) (is_some decided.entry)
        checked.now.told.exactness)) (string_bytes s)) }
{
    let mut json = JsonText::new(alloc);
    checked.add_head(&mut json, verdict, decided);
    add_expected(&mut json, expected);
    checked.add_rest(&mut json, warnings, has_grammar);
    let line = end_line(json)?;
    let head = checked.head(alloc, verdict, decided)?;
    begun_with(alloc, line, head.as_str())
}

/// The line, which begins with that head; if it did not, the head alone.
fn begun_with(alloc: Global, line: String, head: &str) -> Result<String, AllocError>
    ensures { IfOk result (λ s. BeginsWith head.now (string_bytes s)) }
{
    if line.starts_with(head) {
        return Ok(line);
    }
    format!(in alloc; "{head}}}\n")
}

impl<'a> Checked<'a> {
    /// Adds what the line begins with: the name of the file, its verdict, what is proved, and how many conflicts there are. That is a
    /// text which precedences decide.
    fn add_head(&self, json: &mut JsonText, verdict: Verdict, decided: Option<&Ambiguity>)
        requires proved { All (IsProved self.now.found.now.grm) self.now.told.evidence.now }
        requires unambiguous { verdict ≡ Unambiguous → IsUnambiguous self.now.found.now.grm }
        requires yet_unambiguous { IsTrue self.now.told.is_unambiguous
            → IsUnambiguous self.now.found.now.grm }
        requires decided { IfSome decided (λ a. HasTwoTrees self.now.found.now.grm a.now) }
        requires exact { IsToldExact self.now.found.now.grm self.now.found.now.graph
            self.now.found.now.table self.now.told.exactness }
        ensures { AddsTokens json.old json.new (head_tokens self.now.told.source.now.name.now
            verdict self.now.told.is_unambiguous (list_any has_sentence self.now.told.evidence.now)
            (is_some decided.entry) self.now.told.exactness) }
    {
        let shown = self.any_sentence(self.told.evidence);
        json.begin_object();
        add_verdict(
            json,
            self.told.source.name,
            word_of(verdict, shown.is_some()),
        );
        self.add_proved(json, verdict, shown, decided);
        add_counts(json, verdict.counts());
    }

    /// The same as a text by itself.
    fn head(
        &self,
        alloc: Global,
        verdict: Verdict,
        decided: Option<&Ambiguity>,
    ) -> Result<String, AllocError>
        requires proved { All (IsProved self.now.found.now.grm) self.now.told.evidence.now }
        requires unambiguous { verdict ≡ Unambiguous → IsUnambiguous self.now.found.now.grm }
        requires yet_unambiguous { IsTrue self.now.told.is_unambiguous
            → IsUnambiguous self.now.found.now.grm }
        requires decided { IfSome decided (λ a. HasTwoTrees self.now.found.now.grm a.now) }
        requires exact { IsToldExact self.now.found.now.grm self.now.found.now.graph
            self.now.found.now.table self.now.told.exactness }
        ensures { IfOk result (λ s. string_bytes s
            ≡ print (head_tokens self.now.told.source.now.name.now verdict
            self.now.told.is_unambiguous (list_any has_sentence self.now.told.evidence.now)
            (is_some decided.entry) self.now.told.exactness)) }
    {
        let mut json = JsonText::new(alloc);
        self.add_head(&mut json, verdict, decided);
        json.finish()
    }

    /// Adds what is proved, as a list: of the grammar, with its precedences or without them, where a text shows that it is ambiguous,
    /// and of the table.
    fn add_proved(
        &self,
        json: &mut JsonText,
        verdict: Verdict,
        shown: Option<&Ambiguity>,
        decided: Option<&Ambiguity>,
    )
        requires proved { IfSome shown (λ a. HasTwoTrees self.now.found.now.grm a.now) }
        requires unambiguous { verdict ≡ Unambiguous → IsUnambiguous self.now.found.now.grm }
        requires yet_unambiguous { IsTrue self.now.told.is_unambiguous
            → IsUnambiguous self.now.found.now.grm }
        requires decided { IfSome decided (λ a. HasTwoTrees self.now.found.now.grm a.now) }
        requires exact { IsToldExact self.now.found.now.grm self.now.found.now.graph
            self.now.found.now.table self.now.told.exactness }
        ensures { AddsTokens json.old json.new (proved_tokens verdict
            self.now.told.is_unambiguous (is_some shown.entry) (is_some decided.entry)
            self.now.told.exactness) }
    {
        json.key("proved");
        json.begin_array();
        self.add_if_unambiguous(json, verdict);
        self.add_if_ambiguous(json, "ambiguous", shown);
        self.add_if_ambiguous(json, "ambiguous without precedences", decided);
        self.add_exactness(json);
        json.end_array();
    }

    /// Whether it is proved that no sentence has two trees.
    fn is_unambiguous(&self, verdict: Verdict) -> bool
        requires unambiguous { verdict ≡ Unambiguous → IsUnambiguous self.now.found.now.grm }
        requires yet_unambiguous { IsTrue self.now.told.is_unambiguous
            → IsUnambiguous self.now.found.now.grm }
        ensures proved { IsTrue result → IsUnambiguous self.now.found.now.grm }
        ensures told { result ≡ is_unambiguous verdict self.now.told.is_unambiguous }
    {
        match verdict {
            Verdict::Unambiguous => true,
            _ => self.told.is_unambiguous,
        }
    }

    /// Adds that no sentence has two trees.
    fn add_unambiguous(&self, json: &mut JsonText)
        requires proved { IsUnambiguous self.now.found.now.grm }
        ensures { AddsTokens json.old json.new (string (codes "unambiguous") ∷ []) }
    {
        json.string("unambiguous");
    }

    /// Adds the same, where it is proved.
    fn add_if_unambiguous(&self, json: &mut JsonText, verdict: Verdict)
        requires unambiguous { verdict ≡ Unambiguous → IsUnambiguous self.now.found.now.grm }
        requires yet_unambiguous { IsTrue self.now.told.is_unambiguous
            → IsUnambiguous self.now.found.now.grm }
        ensures { AddsTokens json.old json.new (fact_tokens
            (is_unambiguous verdict self.now.told.is_unambiguous) (codes "unambiguous")) }
    {
        if self.is_unambiguous(verdict) {
            self.add_unambiguous(json);
        }
    }

    /// Adds that the grammar is ambiguous, in these words, where a text shows it.
    fn add_if_ambiguous(&self, json: &mut JsonText, fact: &str, text: Option<&Ambiguity>)
        requires proved { IfSome text (λ a. HasTwoTrees self.now.found.now.grm a.now) }
        ensures { AddsTokens json.old json.new (fact_tokens (is_some text.entry) fact.now) }
    {
        if text.is_some() {
            json.string(fact);
        }
    }

    /// Adds how exact the table is, where that is shown.
    fn add_exactness(&self, json: &mut JsonText)
        requires proved { IsToldExact self.now.found.now.grm self.now.found.now.graph
            self.now.found.now.table self.now.told.exactness }
        ensures { AddsTokens json.old json.new (exact_tokens self.now.told.exactness) }
    {
        match self.told.exactness {
            Exactness::Exact => json.string("accepts every sentence"),
            Exactness::ButAtErrors => json.string("rejects sentences only by %nonassoc"),
            Exactness::Open => {}
        }
    }

    /// Adds what was found.
    fn add_findings(&self, json: &mut JsonText)
        requires proved { All (IsProved self.now.found.now.grm) self.now.told.evidence.now }
        requires lost { All (IsLostAtEntry self.now.found.now.grm self.now.found.now.table)
            self.now.told.evidence.now }
        requires entries { All (IsToldDecided self.now.found.now.grm self.now.found.now.graph)
            self.now.told.evidence.now }
        requires resolved { All (IsProved self.now.found.now.grm) self.now.told.resolved.now }
        requires settled { All (IsLostAtEntry self.now.found.now.grm self.now.found.now.table)
            self.now.told.resolved.now }
        requires kept { AreToldKept self.now.found.now.grm self.now.found.now.graph
            self.now.found.now.table self.now.told.kept.now }
    {
        let Ok(alternatives) = alternatives(json.allocator(), self.told.file) else {
            return json.give_up();
        };
        json.key("conflicts");
        self.add_conflicts(json, alternatives.as_slice());
        json.key("settled");
        self.add_resolved(json, alternatives.as_slice());
        json.key("unused_precedences");
        self.told.add_useless_precedences(json);
        json.key("unused_tokens");
        self.told.add_unused_tokens(json);
    }

    /// Adds what stands behind how many conflicts are expected.
    fn add_rest(&self, json: &mut JsonText, warnings: &[Fault], has_grammar: bool)
        requires proved { All (IsProved self.now.found.now.grm) self.now.told.evidence.now }
        requires lost { All (IsLostAtEntry self.now.found.now.grm self.now.found.now.table)
            self.now.told.evidence.now }
        requires entries { All (IsToldDecided self.now.found.now.grm self.now.found.now.graph)
            self.now.told.evidence.now }
        requires resolved { All (IsProved self.now.found.now.grm) self.now.told.resolved.now }
        requires settled { All (IsLostAtEntry self.now.found.now.grm self.now.found.now.table)
            self.now.told.resolved.now }
        requires kept { AreToldKept self.now.found.now.grm self.now.found.now.graph
            self.now.found.now.table self.now.told.kept.now }
    {
        let told = self.told;
        add_sizes(json, Some(told.file), Some(self.found.states));
        self.add_findings(json);
        json.key("warnings");
        json.begin_array();
        add_faults(json, told.source, warnings);
        json.end_array();
        json.key("errors");
        json.begin_array();
        json.end_array();
        json.key("never_reduced");
        told.add_unreduced_productions(json);
        add_grammar_of(json, Some(told.file), has_grammar);
        self.add_automaton(json);
    }

    /// Adds what meets in a group: where, at which tokens, and the productions; either with `shift`, the items in which the state goes
    /// on by one of them, or with `other`.
    fn add_meeting(&self, json: &mut JsonText, group: &Group) {
        let entries = group.entries.as_slice();
        let Some(first) = entries.first() else {
            return;
        };
        json.string_at(
            "kind",
            match first.other {
                Some(_) => "reduce/reduce",
                None => "shift/reduce",
            },
        );
        json.number_at("state", first.state);
        json.key("tokens");
        json.begin_array();
        for entry in entries {
            json.string(self.told.token_name(entry.token));
        }
        json.end_array();
        json.key("reduce");
        self.told.add_production(json, first.production);
        if let Some(other) = first.other {
            json.key("other");
            return self.told.add_production(json, other);
        }
        let Ok(items) = self.shifting_items(json.allocator(), entries) else {
            return json.give_up();
        };
        json.key("shift");
        self.told.add_items(json, items.as_slice());
    }

    /// Adds that no sentence is lost at any entry of a group.
    fn add_kept(&self, json: &mut JsonText, _group: &Group)
        requires proved { AreToldKept self.now.found.now.grm self.now.found.now.graph
            self.now.found.now.table _group.now.entries.items }
    {
        json.boolean(true);
    }

    /// Adds the same, where it is shown.
    fn add_if_kept(&self, json: &mut JsonText, group: &Group)
        requires { AreToldKept self.now.found.now.grm self.now.found.now.graph
            self.now.found.now.table self.now.told.kept.now }
    {
        json.key("kept");
        if self.are_kept(group.entries.as_slice()) {
            self.add_kept(json, group);
        } else {
            json.null();
        }
    }

    /// Adds a conflict: entries at which the same meets in the same state, and of which the table makes the same.
    fn add_conflict(&self, json: &mut JsonText, meeting: &[Evidence], alternatives: &[usize])
        requires proved { All (IsProved self.now.found.now.grm) meeting.now }
        requires lost { All (IsLostAtEntry self.now.found.now.grm self.now.found.now.table)
            meeting.now }
        requires entries { All (IsToldDecided self.now.found.now.grm self.now.found.now.graph)
            meeting.now }
        requires kept { AreToldKept self.now.found.now.grm self.now.found.now.graph
            self.now.found.now.table self.now.told.kept.now }
    {
        let Some(first) = meeting.first() else {
            return;
        };
        let Ok(entries) = entries_of(json.allocator(), meeting) else {
            return json.give_up();
        };
        let group = Group { entries };
        json.begin_object();
        self.add_meeting(json, &group);
        json.string_at("chosen", self.choice(&first.entry).word());
        json.key("ambiguity");
        let ambiguity = self.sentence_with_trees(meeting);
        self.add_ambiguity(json, &first.entry, ambiguity, alternatives);
        json.key("after");
        self.told.add_example(json, first);
        json.boolean_at(
            "searched",
            self.told.options.steps > 0 && cut_off(meeting) == 0,
        );
        json.key("lost");
        self.add_loss(json, self.loss_in(meeting));
        self.add_if_kept(json, &group);
        self.add_decided(json, meeting);
        json.end_object();
    }

    /// What is known of the conflicts, in groups, in each of which the same meets in the same state, and the table does the same;
    /// each entry by itself where all are told.
    fn alike(&self, alloc: Global) -> Result<Vec<&'a [Evidence]>, AllocError>
        ensures { IfOk result (λ groups.
            flat_map (λ group. group.now) groups.items ≡ self.now.told.evidence.now) }
    {
        self.told
            .evidence
            .chunk_by(|one, other| {
                !self.told.options.detail.all
                    && one.entry.meets_like(&other.entry)
                    && self.choice(&one.entry) == self.choice(&other.entry)
            })
            .collect(alloc)
    }

    /// Adds the conflicts, in the order of the file: each entry by itself where all are told.
    fn add_conflicts(&self, json: &mut JsonText, alternatives: &[usize])
        requires proved { All (IsProved self.now.found.now.grm) self.now.told.evidence.now }
        requires lost { All (IsLostAtEntry self.now.found.now.grm self.now.found.now.table)
            self.now.told.evidence.now }
        requires entries { All (IsToldDecided self.now.found.now.grm self.now.found.now.graph)
            self.now.told.evidence.now }
        requires kept { AreToldKept self.now.found.now.grm self.now.found.now.graph
            self.now.found.now.table self.now.told.kept.now }
    {
        let Ok(groups) = self.alike(json.allocator()) else {
            return json.give_up();
        };
        json.begin_array();
        for meeting in &groups {
            self.add_conflict(json, meeting, alternatives);
        }
        json.end_array();
    }

    /// Adds what precedences resolve, in the order of the file.
    fn add_resolved(&self, json: &mut JsonText, alternatives: &[usize])
        requires proved { All (IsProved self.now.found.now.grm) self.now.told.resolved.now }
        requires lost { All (IsLostAtEntry self.now.found.now.grm self.now.found.now.table)
            self.now.told.resolved.now }
        requires kept { AreToldKept self.now.found.now.grm self.now.found.now.graph
            self.now.found.now.table self.now.told.kept.now }
    {
        json.begin_array();
        for meeting in self
            .found
            .resolved
            .as_slice()
            .chunk_by(|one, other| one.entry.meets_like(&other.entry))
        {
            for winner in [Winner::Shift, Winner::Reduce, Winner::Neither] {
                match won_by(json.allocator(), meeting, winner) {
                    Ok(entries) => {
                        self.add_resolution(json, &Group { entries }, winner, alternatives);
                    }
                    Err(_) => json.give_up(),
                }
            }
        }
        json.end_array();
    }

    /// Adds what precedences resolve alike in a state, for the same production, if there is something.
    fn add_resolution(
        &self,
        json: &mut JsonText,
        group: &Group,
        winner: Winner,
        alternatives: &[usize],
    )
        requires proved { All (IsProved self.now.found.now.grm) self.now.told.resolved.now }
        requires lost { All (IsLostAtEntry self.now.found.now.grm self.now.found.now.table)
            self.now.told.resolved.now }
        requires kept { AreToldKept self.now.found.now.grm self.now.found.now.graph
            self.now.found.now.table self.now.told.kept.now }
    {
        let entries = group.entries.as_slice();
        let Some(first) = entries.first() else {
            return;
        };
        json.begin_object();
        self.add_meeting(json, group);
        json.string_at("winner", winner.word());
        json.key("ambiguity");
        self.add_ambiguity(json, first, self.decided(entries), alternatives);
        json.boolean_at(
            "searched",
            self.told.options.steps > 0 && self.are_searched(entries),
        );
        json.key("lost");
        self.add_loss(json, self.lost(entries));
        self.add_if_kept(json, group);
        json.end_object();
    }
}
