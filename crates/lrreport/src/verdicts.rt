//! The words of a file's verdict. That something is proved is written by what takes the proof.

ghost use Rattle.std.specs.Prelude.{◌≡◌, ◌==◌, [], All, IfOk, IfSome, IsTrue, codes, is_some, length, nat_lt, if◌then◌else◌};
ghost use Rattle.std.specs.List.{count_by};
ghost use Rattle.std.specs.String.{string_bytes};
ghost use Rattle.lrspec.specs.tables.Recognition.{IsUnambiguous};
ghost use Rattle.lrwriter.specs.Texts.{Adds};
ghost use Rattle.lrverdicts.specs.declared.verdicts.Verdict.TheVariants.{Unambiguous};
ghost use Rattle.lrevidence.specs.Ambiguities.{HasTwoTrees, IsProved};
ghost use Rattle.lrevidence.specs.DecidedEntries.{IsToldDecided};
ghost use Rattle.lrshown.specs.Ambiguities.{has_own_sentence};
ghost use Rattle.lrshown.specs.Losses.{rejects};
ghost use Rattle.lrshown.specs.DecidedEntries.{is_decided};
ghost use Rattle.lrshown.specs.Exactness.{Exact, ButAtErrors, IsExact, RejectsAtErrorsAlone, IsToldExact};
ghost use Rattle.lrshown.specs.VerdictWords.{unambiguous_words, ambiguous_words, plain_words, sentences_words, rejecting_words, ambiguous_verdict, unknown_words, verdict_on, known_verdict, decided_or_unknown, yet_unambiguous_words, resolved_words, exact_words, decided_words, verdict_words};

use crate::conflicts::Checked;
use crate::told::Told;
use lrevidence::{Ambiguity, Evidence, Exactness};
use lrfindings::Verdict;
use lrwriter::Text;
use std::alloc::{AllocError, Global};

/// For how many entries a sentence with two trees is known that part by what meets in them.
pub(crate) fn own_sentences(evidence: &[Evidence]) -> usize
    ensures { result ≡ count_by has_own_sentence evidence.now }
{
    let mut count: usize = 0;
    for one in evidence {
        if one.has_own_sentence() {
            count += 1;
        }
    }
    count
}

/// For how many entries a sentence is known that the parser rejects.
fn rejecting(evidence: &[Evidence]) -> usize
    ensures { result ≡ count_by rejects evidence.now }
{
    let mut count: usize = 0;
    for one in evidence {
        if one.rejects() {
            count += 1;
        }
    }
    count
}

/// How many entries are decided.
fn decided_entries(evidence: &[Evidence]) -> usize
    ensures { result ≡ count_by is_decided evidence.now }
{
    let mut count: usize = 0;
    for one in evidence {
        if one.is_decided() {
            count += 1;
        }
    }
    count
}

/// Adds that no sentence with two trees is known for all those conflicts, and how many of these are decided, if some are.
fn push_unknown(line: &mut Text, decided: usize, all: usize)
    ensures { Adds line.old line.new (unknown_words decided all) }
{
    if decided == 0 {
        if all == 1 {
            line.add(", not known to be ambiguous");
        } else {
            line.add(", none known to be ambiguous");
        }
    } else if decided != all {
        write!(
            line,
            ", none known to be ambiguous, {decided} known not to be"
        );
    } else if all == 1 {
        line.add(", not ambiguous");
    } else {
        line.add(", none ambiguous");
    }
}

/// Adds for how many conflicts a sentence is known that the parser rejects, if for some.
fn push_rejecting(line: &mut Text, count: usize)
    ensures { Adds line.old line.new (rejecting_words count) }
{
    if count != 0 {
        write!(line, ", {count} with a rejected sentence");
    }
}

/// Adds for how many of all conflicts a text of their own is known.
fn push_sentences(line: &mut Text, own: usize, all: usize)
    ensures { Adds line.old line.new (sentences_words own all) }
{
    if own == 0 {
        line.add("a sentence with two trees by something else that meets there");
    } else if own != all {
        write!(line, "a sentence with two trees for {own} of them");
    } else if all == 1 {
        line.add("a sentence with two trees for it");
    } else {
        line.add("a sentence with two trees for each");
    }
}

/// Adds how what precedences resolve is shown, where that is to be told.
fn push_hint(words: &mut Text, has_hint: bool)
    ensures { Adds words.old words.new (if has_hint then codes " (--settled)" else []) }
{
    if has_hint {
        words.add(" (--settled)");
    }
}

impl Told<'_> {
    /// Adds for how many of the conflicts a text of their own is known.
    fn push_own_sentences(&self, line: &mut Text)
        ensures { Adds line.old line.new (sentences_words
            (count_by has_own_sentence self.now.evidence.now) (length self.now.evidence.now)) }
    {
        push_sentences(line, own_sentences(self.evidence), self.evidence.len());
    }

    /// Adds that what is told comes besides the conflicts, where there are some.
    fn push_more(&self, words: &mut Text)
        ensures { Adds words.old words.new
            (if length self.now.evidence.now == 0 then [] else codes " more") }
    {
        if !self.evidence.is_empty() {
            words.add(" more");
        }
    }

    /// Adds how many more conflicts precedences resolve, and where it is to be told how these are shown.
    fn push_resolved_count(&self, words: &mut Text, resolved: usize, has_hint: bool)
        ensures { Adds words.old words.new
            (resolved_words resolved self.now.evidence.now has_hint) }
    {
        if resolved == 0 {
            return;
        }
        write!(words, "; {resolved}");
        self.push_more(words);
        words.add(" resolved by precedence");
        push_hint(words, has_hint);
    }
}

impl Checked<'_> {
    /// Adds that no sentence has two trees.
    fn push_unambiguous(&self, line: &mut Text)
        requires proved { IsUnambiguous self.now.found.now.grm }
        ensures { Adds line.old line.new unambiguous_words }
    {
        line.add("unambiguous (proved): no sentence has two trees");
    }

    /// Adds that no sentence has two trees although there are conflicts.
    fn push_yet_unambiguous(&self, line: &mut Text)
        requires proved { IsUnambiguous self.now.found.now.grm }
        ensures { Adds line.old line.new yet_unambiguous_words }
    {
        line.add(", yet unambiguous (proved)");
    }

    /// Adds that the grammar is ambiguous, which that text shows.
    fn push_ambiguous(&self, line: &mut Text, _text: &Ambiguity)
        requires proved { HasTwoTrees self.now.found.now.grm _text.now }
        ensures { Adds line.old line.new ambiguous_words }
    {
        line.add("ambiguous (proved)");
    }

    /// Adds a verdict by itself.
    fn push_plain_verdict(&self, line: &mut Text, verdict: Verdict)
        requires unambiguous { verdict ≡ Unambiguous → IsUnambiguous self.now.found.now.grm }
        ensures { Adds line.old line.new (plain_words verdict) }
    {
        match verdict {
            Verdict::Unambiguous => self.push_unambiguous(line),
            other => write!(line, "{other}"),
        }
    }

    /// Adds a verdict, and for how many of the conflicts a text is known, of which this is one.
    fn push_ambiguous_verdict(&self, line: &mut Text, verdict: Verdict, text: &Ambiguity)
        requires proved { HasTwoTrees self.now.found.now.grm text.now }
        ensures { Adds line.old line.new (ambiguous_verdict verdict
            (sentences_words (count_by has_own_sentence self.now.told.evidence.now)
            (length self.now.told.evidence.now))) }
    {
        match verdict {
            Verdict::Conflicts(counts) => {
                self.push_ambiguous(line, text);
                write!(line, ": {counts}, ");
                self.told.push_own_sentences(line);
            }
            other => {
                write!(line, "{other}; ");
                self.push_ambiguous(line, text);
                line.add(": ");
                self.told.push_own_sentences(line);
            }
        }
    }

    /// Adds that no sentence has two trees, if that is shown, and else that none is known; some conflicts may be known to have none.
    fn push_decided_or_unknown(&self, line: &mut Text)
        requires entries { All (IsToldDecided self.now.found.now.grm self.now.found.now.graph)
            self.now.told.evidence.now }
        requires yet_unambiguous { IsTrue self.now.told.is_unambiguous
            → IsUnambiguous self.now.found.now.grm }
        ensures { Adds line.old line.new (decided_or_unknown self.now.told.is_unambiguous
            (count_by is_decided self.now.told.evidence.now)
            (length self.now.told.evidence.now)) }
    {
        if self.told.is_unambiguous {
            self.push_yet_unambiguous(line);
        } else {
            let evidence = self.told.evidence;
            push_unknown(line, decided_entries(evidence), evidence.len());
        }
    }

    /// Adds the verdict, and for how many of the conflicts a sentence with two trees is known; else that none is known, or that none
    /// has two.
    fn push_verdict_on(&self, line: &mut Text, verdict: Verdict)
        requires proved { All (IsProved self.now.found.now.grm) self.now.told.evidence.now }
        requires entries { All (IsToldDecided self.now.found.now.grm self.now.found.now.graph)
            self.now.told.evidence.now }
        requires unambiguous { verdict ≡ Unambiguous → IsUnambiguous self.now.found.now.grm }
        requires yet_unambiguous { IsTrue self.now.told.is_unambiguous
            → IsUnambiguous self.now.found.now.grm }
        ensures { Adds line.old line.new (verdict_on verdict self.now.told.is_unambiguous
            self.now.told.evidence.now) }
    {
        match self.any_sentence(self.told.evidence) {
            Some(text) => self.push_ambiguous_verdict(line, verdict, text),
            None => {
                self.push_plain_verdict(line, verdict);
                self.push_decided_or_unknown(line);
            }
        }
    }

    /// Adds the verdict, and what is known of the conflicts where it was looked for.
    fn push_verdict(&self, line: &mut Text, verdict: Verdict)
        requires proved { All (IsProved self.now.found.now.grm) self.now.told.evidence.now }
        requires entries { All (IsToldDecided self.now.found.now.grm self.now.found.now.graph)
            self.now.told.evidence.now }
        requires unambiguous { verdict ≡ Unambiguous → IsUnambiguous self.now.found.now.grm }
        requires yet_unambiguous { IsTrue self.now.told.is_unambiguous
            → IsUnambiguous self.now.found.now.grm }
        ensures { Adds line.old line.new (known_verdict verdict self.now.told.is_unambiguous
            self.now.told.evidence.now (nat_lt 0 self.now.told.options.steps)) }
    {
        let evidence = self.told.evidence;
        if evidence.is_empty() || self.told.options.steps == 0 {
            return self.push_plain_verdict(line, verdict);
        }
        self.push_verdict_on(line, verdict);
        push_rejecting(line, rejecting(evidence));
    }

    /// Adds that the parser accepts every sentence, or that what precedences resolve loses none where there are no conflicts.
    fn push_exact(&self, line: &mut Text)
        requires proved { IsExact self.now.found.now.grm self.now.found.now.table }
        ensures { Adds line.old line.new (exact_words Exact self.now.told.evidence.now) }
    {
        if self.told.evidence.is_empty() {
            line.add(", which lose no sentence (proved)");
        } else {
            line.add("; the parser accepts every sentence (proved)");
        }
    }

    /// Adds the same but for errors that `%nonassoc` makes.
    fn push_exact_but_at_errors(&self, line: &mut Text)
        requires proved { RejectsAtErrorsAlone self.now.found.now.grm self.now.found.now.graph
            self.now.found.now.table }
        ensures { Adds line.old line.new (exact_words ButAtErrors self.now.told.evidence.now) }
    {
        if self.told.evidence.is_empty() {
            line.add(", which reject sentences only by %nonassoc (proved)");
        } else {
            line.add("; the parser rejects sentences only by %nonassoc (proved)");
        }
    }

    /// Adds how exact the table is, where that is shown.
    fn push_exactness(&self, line: &mut Text)
        requires { IsToldExact self.now.found.now.grm self.now.found.now.graph
            self.now.found.now.table self.now.told.exactness }
        ensures { Adds line.old line.new
            (exact_words self.now.told.exactness self.now.told.evidence.now) }
    {
        match self.told.exactness {
            Exactness::Exact => self.push_exact(line),
            Exactness::ButAtErrors => self.push_exact_but_at_errors(line),
            Exactness::Open => {}
        }
    }

    /// Adds that a sentence has two trees without the precedences, which decide it, where there is one.
    fn push_decided_words(&self, line: &mut Text, decided: Option<&Ambiguity>)
        requires proved { IfSome decided (λ a. HasTwoTrees self.now.found.now.grm a.now) }
        ensures { Adds line.old line.new (decided_words (is_some decided.entry)) }
    {
        if let Some(text) = decided {
            line.add("; without precedences ");
            self.push_ambiguous(line, text);
        }
    }

    /// The words of a file's verdict: with what is known of its conflicts, how many precedences resolve, where it is to be told how
    /// these are shown, whether the parser accepts every sentence, and that the grammar is ambiguous without precedences, where they
    /// decide a text.
    pub(crate) fn verdict_words(
        &self,
        alloc: Global,
        verdict: Verdict,
        decided: Option<&Ambiguity>,
        has_hint: bool,
    ) -> Result<String, AllocError>
        requires proved { All (IsProved self.now.found.now.grm) self.now.told.evidence.now }
        requires entries { All (IsToldDecided self.now.found.now.grm self.now.found.now.graph)
            self.now.told.evidence.now }
        requires unambiguous { verdict ≡ Unambiguous → IsUnambiguous self.now.found.now.grm }
        requires yet_unambiguous { IsTrue self.now.told.is_unambiguous
            → IsUnambiguous self.now.found.now.grm }
        requires exact { IsToldExact self.now.found.now.grm self.now.found.now.graph
            self.now.found.now.table self.now.told.exactness }
        requires decided { IfSome decided (λ a. HasTwoTrees self.now.found.now.grm a.now) }
        ensures words { IfOk result (λ s. string_bytes s
            ≡ verdict_words verdict self.now.told.is_unambiguous self.now.told.evidence.now
            (nat_lt 0 self.now.told.options.steps) (length self.now.found.now.resolved.items)
            has_hint self.now.told.exactness (is_some decided.entry)) }
    {
        let mut words = Text::new(alloc);
        self.push_verdict(&mut words, verdict);
        self.told
            .push_resolved_count(&mut words, self.found.resolved.len(), has_hint);
        self.push_exactness(&mut words);
        self.push_decided_words(&mut words, decided);
        words.finish()
    }
}
