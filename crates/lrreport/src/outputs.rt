//! What is told of what was found in the grammar of a file, by what is asked for.

ghost use Rattle.std.specs.Prelude.{◌≡◌, ◌++◌, None, All, IfOk, IfSome, IsTrue, codes, is_some, length, nat_lt};
ghost use Rattle.std.specs.List.{list_any};
ghost use Rattle.std.specs.String.{string_bytes};
ghost use Rattle.lrspec.specs.merging.Graph.{IsGraphOf};
ghost use Rattle.lrspec.specs.tables.Recognition.{IsUnambiguous};
ghost use Rattle.lrspec.specs.tables.Table.{IsTableOf};
ghost use Rattle.lrverdicts.specs.declared.verdicts.Verdict.TheVariants.{Unambiguous};
ghost use Rattle.lrwriter.specs.Texts.{Adds};
ghost use Rattle.lrdiagnostics.specs.ShownTexts.{shown_text};
ghost use Rattle.lrshown.specs.Exactness.{IsToldExact};
ghost use Rattle.lrshown.specs.VerdictWords.{verdict_words};
ghost use Rattle.lrevidence.specs.Ambiguities.{HasTwoTrees, IsProved};
ghost use Rattle.lrevidence.specs.Losses.{IsLostAtEntry};
ghost use Rattle.lrevidence.specs.DecidedEntries.{IsToldDecided};
ghost use Rattle.lrevidence.specs.KeptEntries.{AreToldKept};
ghost use Rattle.json.specs.Print.{print};
ghost use Rattle.lrshown.specs.Ambiguities.{has_sentence};
ghost use Rattle.lrreport.specs.JsonHeads.{head_tokens};
ghost use Rattle.lrreport.specs.ToldFaults.{most_told};
ghost use Rattle.lrreport.specs.ToldConclusions.{has_hint, last_line, line_of, EndsIn, Tells};

use crate::conflicts::Checked;
use crate::json_lines::json_of_findings;
use crate::known::{Known, Read};
use crate::options::{Options, Output};
use crate::told::Told;
use lrdiagnostics::{Layout, TOLD, add_shown};
use lrevidence::Ambiguity;
use lrfindings::{Findings, Verdict};
use lrwriter::Text;
use lryacc::Fault;
use std::alloc::{AllocError, Global};

/// How many conflicts are shown, of which no others are like them; further ones are told in a line each.
const SHOWN: usize = 10;

/// How many faults of a file, or warnings, are told one by one at the most.
pub(crate) fn most_told(options: Options) -> usize
    ensures { result ≡ most_told options }
{
    if options.detail.all { usize::MAX } else { TOLD }
}

/// What is told of a file, and how.
fn told_of<'a>(read: Read<'a>, found: &'a Findings, known: &'a Known, options: Options) -> Told<'a>
    ensures source { result.source.now.name.now ≡ read.entry.source.now.name.now }
    ensures steps { result.options.steps ≡ options.steps }
    ensures columns { result.options.lines.columns ≡ options.lines.columns }
    ensures hint { has_hint result.options ≡ has_hint options }
    ensures shown { result.is_unambiguous ≡ known.now.is_unambiguous }
    ensures exact { result.exactness ≡ known.now.exactness }
    ensures evidence { result.evidence.now ≡ known.now.evidence.items }
    ensures resolved { result.resolved.now ≡ known.now.resolved.items }
    ensures kept { result.kept.now ≡ known.now.kept.items }
{
    Told {
        source: read.source,
        file: read.file,
        is_unambiguous: known.is_unambiguous,
        exactness: known.exactness,
        evidence: known.evidence.as_slice(),
        resolved: known.resolved.as_slice(),
        kept: known.kept.as_slice(),
        useless: &found.useless,
        unreduced: found.unreduced.as_slice(),
        options: Options {
            expected: options.beside(read.expected).shift_reduce,
            ..options
        },
        parser: read.parser,
    }
}

/// Adds the last line, which is folded where lines have so many columns at the most.
fn add_last_line(text: &mut Text, line: &str, columns: Option<usize>)
    ensures { columns ≡ None → Adds text.old text.new (shown_text line.now ++ codes "\n") }
{
    if columns.is_some() {
        return Layout::new(columns).add_line(text, line, 4);
    }
    add_shown(text, line);
    text.add_char('\n');
}

impl Checked<'_> {
    /// Adds all that stands before the last line.
    fn push_details(&self, text: &mut Text, warnings: &[Fault])
        requires proved { All (IsProved self.now.found.now.grm) self.now.told.evidence.now }
        requires lost { All (IsLostAtEntry self.now.found.now.grm self.now.found.now.table)
            self.now.told.evidence.now }
        requires entries { All (IsToldDecided self.now.found.now.grm self.now.found.now.graph)
            self.now.told.evidence.now }
        requires resolved { All (IsProved self.now.found.now.grm) self.now.told.resolved.now }
        requires settled { All (IsLostAtEntry self.now.found.now.grm self.now.found.now.table)
            self.now.told.resolved.now }
        requires kept { AreToldKept self.now.found.now.grm self.now.found.now.graph
            self.now.found.now.table self.now.told.kept.now }
    {
        let options = self.told.options;
        if options.output == Output::States {
            return self.push_states(text);
        }
        let most = most_told(options);
        let shown = if options.detail.all {
            usize::MAX
        } else {
            SHOWN
        };
        self.push_conflicts(text, shown);
        let Ok(notes) = self.told.notes_on_all(text.allocator()) else {
            return text.give_up();
        };
        for note in &notes {
            text.add(note.as_str());
            text.add("\n\n");
        }
        if options.detail.resolved {
            self.push_resolved(text, most);
        }
        self.told.push_warnings(text, warnings, most);
    }

    /// The line of the verdict.
    fn line(
        &self,
        alloc: Global,
        verdict: Verdict,
        decided: Option<&Ambiguity>,
    ) -> Result<String, AllocError>
        requires proved { All (IsProved self.now.found.now.grm) self.now.told.evidence.now }
        requires entries { All (IsToldDecided self.now.found.now.grm self.now.found.now.graph)
            self.now.told.evidence.now }
        requires unambiguous { verdict ≡ Unambiguous → IsUnambiguous self.now.found.now.grm }
        requires yet_unambiguous { IsTrue self.now.told.is_unambiguous
            → IsUnambiguous self.now.found.now.grm }
        requires exact { IsToldExact self.now.found.now.grm self.now.found.now.graph
            self.now.found.now.table self.now.told.exactness }
        requires decided { IfSome decided (λ a. HasTwoTrees self.now.found.now.grm a.now) }
        ensures { IfOk result (λ s. string_bytes s ≡ line_of self.now.told.source.now.name.now
            (verdict_words verdict self.now.told.is_unambiguous self.now.told.evidence.now
            (nat_lt 0 self.now.told.options.steps) (length self.now.found.now.resolved.items)
            (has_hint self.now.told.options) self.now.told.exactness (is_some decided.entry))) }
    {
        let has_hint = self.told.options.has_hint();
        let words = self.verdict_words(alloc, verdict, decided, has_hint)?;
        let (name, words) = (self.told.source.name, words.as_str());
        format!(in alloc; "{name}: {words}")
    }
}

/// That line alone, as it is shown.
fn summary(alloc: Global, line: &str) -> Result<String, AllocError>
    ensures { IfOk result (λ s. string_bytes s ≡ shown_text line.now ++ codes "\n") }
{
    let mut text = Text::new(alloc);
    add_shown(&mut text, line);
    text.add_char('\n');
    text.finish()
}

/// The lines on what was found, of which that is the last one.
fn lines(
    alloc: Global,
    checked: &Checked<'_>,
    warnings: &[Fault],
    line: &str,
) -> Result<String, AllocError>
    requires proved { All (IsProved checked.now.found.now.grm) checked.now.told.evidence.now }
    requires lost { All (IsLostAtEntry checked.now.found.now.grm checked.now.found.now.table)
        checked.now.told.evidence.now }
    requires entries { All (IsToldDecided checked.now.found.now.grm checked.now.found.now.graph)
        checked.now.told.evidence.now }
    requires resolved { All (IsProved checked.now.found.now.grm) checked.now.told.resolved.now }
    requires settled { All (IsLostAtEntry checked.now.found.now.grm checked.now.found.now.table)
        checked.now.told.resolved.now }
    requires kept { AreToldKept checked.now.found.now.grm checked.now.found.now.graph
        checked.now.found.now.table checked.now.told.kept.now }
    ensures { checked.now.told.options.lines.columns ≡ None → IfOk result (λ s.
        EndsIn (shown_text line.now ++ codes "\n") (string_bytes s)) }
{
    let mut text = Text::new(alloc);
    checked.push_details(&mut text, warnings);
    add_last_line(&mut text, line, checked.told.options.lines.columns);
    text.finish()
}

/// What is told of what was found in the grammar of a file, with that verdict.
pub(crate) fn text_on_findings(
    alloc: Global,
    read: Read<'_>,
    found: &Findings,
    known: &Known,
    verdict: Verdict,
    options: Options,
) -> Result<String, AllocError>
    requires proved { All (IsProved found.now.grm) known.now.evidence.items }
    requires lost { All (IsLostAtEntry found.now.grm found.now.table) known.now.evidence.items }
    requires entries { All (IsToldDecided found.now.grm found.now.graph) known.now.evidence.items }
    requires resolved { All (IsProved found.now.grm) known.now.resolved.items }
    requires settled { All (IsLostAtEntry found.now.grm found.now.table) known.now.resolved.items }
    requires decided { IfSome known.now.decided (HasTwoTrees found.now.grm) }
    requires unambiguous { verdict ≡ Unambiguous → IsUnambiguous found.now.grm }
    requires yet_unambiguous { IsTrue known.now.is_unambiguous → IsUnambiguous found.now.grm }
    requires exact { IsToldExact found.now.grm found.now.graph found.now.table
        known.now.exactness }
    requires kept { AreToldKept found.now.grm found.now.graph found.now.table
        known.now.kept.items }
    ensures told { IfOk result (λ s. Tells options.output options.lines.columns
        (last_line read.entry.source.now.name.now (verdict_words verdict known.now.is_unambiguous
        known.now.evidence.items (nat_lt 0 options.steps) (length found.now.resolved.items)
        (has_hint options) known.now.exactness (is_some known.now.decided)))
        (print (head_tokens read.entry.source.now.name.now verdict known.now.is_unambiguous
        (list_any has_sentence known.now.evidence.items) (is_some known.now.decided)
        known.now.exactness)) (string_bytes s)) }
{
    let checked = Checked {
        told: told_of(read, found, known, options),
        found,
    };
    let decided = known.decided.as_ref();
    let line = checked.line(alloc, verdict, decided)?;
    match options.output {
        Output::Json { has_grammar } => {
            let expected = options.beside(read.expected);
            json_of_findings(
                alloc,
                &checked,
                read.warnings,
                expected,
                verdict,
                decided,
                has_grammar,
            )
        }
        Output::Summary => summary(alloc, line.as_str()),
        Output::Sarif => checked.sarif(alloc, read.warnings, verdict),
        _ => lines(alloc, &checked, read.warnings, line.as_str()),
    }
}

/// The page on what was found in the grammar of a file, with that verdict, where one is made.
pub(crate) fn page_on_findings(
    alloc: Global,
    read: Read<'_>,
    found: &Findings,
    known: &Known,
    verdict: Verdict,
    options: Options,
) -> Result<Option<String>, AllocError>
    requires proved { All (IsProved found.now.grm) known.now.evidence.items }
    requires lost { All (IsLostAtEntry found.now.grm found.now.table) known.now.evidence.items }
    requires entries { All (IsToldDecided found.now.grm found.now.graph) known.now.evidence.items }
    requires resolved { All (IsProved found.now.grm) known.now.resolved.items }
    requires settled { All (IsLostAtEntry found.now.grm found.now.table) known.now.resolved.items }
    requires graph { IfSome found.now.graph (IsGraphOf found.now.grm) }
    requires table_of { IfSome found.now.graph (λ h. IsTableOf found.now.grm h found.now.table) }
    requires decided { IfSome known.now.decided (HasTwoTrees found.now.grm) }
    requires unambiguous { verdict ≡ Unambiguous → IsUnambiguous found.now.grm }
    requires yet_unambiguous { IsTrue known.now.is_unambiguous → IsUnambiguous found.now.grm }
    requires exact { IsToldExact found.now.grm found.now.graph found.now.table
        known.now.exactness }
    requires kept { AreToldKept found.now.grm found.now.graph found.now.table
        known.now.kept.items }
{
    if !options.makes_page {
        return Ok(None);
    }
    let checked = Checked {
        told: told_of(read, found, known, options),
        found,
    };
    let words = checked.verdict_words(alloc, verdict, known.decided.as_ref(), false)?;
    Ok(Some(checked.page(alloc, verdict, words.as_str(), read.warnings)?))
}
