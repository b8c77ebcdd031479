//! The report on a file.

ghost use Rattle.std.specs.Prelude.{◌≡◌, ◌≢◌, ◌⊎◌, ◌-◌, ◌^◌, [], not, true, None, All, IfOk, IfSome, IfNone};
ghost use Rattle.std.specs.String.{string_bytes};
ghost use Rattle.lryacc.specs.Parsers.{splits};
ghost use Rattle.lrfindings.specs.Findings.{AreFindings, DecidesNothing};
ghost use Rattle.lrverdicts.specs.Verdicts.{status_of};
ghost use Rattle.lrshown.specs.Exactness.{Open};
ghost use Rattle.lrreport.specs.declared.options.Output.TheVariants.{Grammar};
ghost use Rattle.lrreport.specs.ToldConclusions.{TellsConclusion};
ghost use Rattle.lrreport.specs.ToldFaults.{is_lines, TellsFaults, TellsRefusal, TellsUnread, TellsWhy};
ghost use Rattle.lrreport.specs.Conclusions.{IsConcluded, IsSaidBy, conclusion_of, expected_beside};

use crate::json_lines::json_of_unread;
use crate::known::{Known, Read, Unread, known_of};
use crate::options::{Options, Output};
use crate::outputs::{most_told, page_on_findings, text_on_findings};
use crate::sarif::sarif_of_unread;
use lrdiagnostics::{Source, Teller, Weight, messages_of};
use lrevidence::{Ambiguity, Evidence, Exactness};
use lrfindings::{Entry, FindError, Findings, Verdict, find, small_text};
use lrwriter::Text;
use lryacc::{Expected, Fault, FileGrammar, FileRead, read_file};
use std::alloc::{AllocError, Global};

/// What is told of a file.
#[derive(Debug, Drop)]
pub struct Report {
    /// The lines.
    pub text: String,
    /// The exit status: 0 without conflicts, 1 with conflicts, 2 where the file can't be read as a grammar.
    pub status: u8,
    /// A page that shows what was found; None where none is to be made, or nothing was checked.
    pub page: Option<String>,
    /// What was concluded; None where nothing was checked.
    pub conclusion: Option<Conclusion>,
}

/// What was concluded of a grammar.
#[derive(Debug, Drop)]
pub struct Conclusion {
    /// The grammar of the file, as it was read.
    pub file: FileGrammar,
    /// Whether its precedences are in force: neither where they are left out, nor where there are no conflicts and they resolve
    /// nothing.
    pub has_precedences: bool,
    /// How many conflicts are expected.
    pub expected: Expected,
    /// The verdict, which the lines tell.
    pub verdict: Verdict,
    /// Whether it is shown that no sentence has two trees although there are conflicts.
    pub is_unambiguous: bool,
    /// Whether it is shown that the parser accepts every sentence although something meets in cells of the table.
    pub exactness: Exactness,
    /// The conflicts, in the order of the file, and what is known of each.
    pub evidence: Vec<Evidence>,
    /// At which of them, and of what precedences resolve where that is told, no sentence is lost, where that is shown.
    pub kept: Vec<Entry>,
    /// How many more precedences resolve.
    pub resolved: usize,
    /// A sentence with two trees, one of which precedences choose, where it was looked for: only where they resolve all conflicts.
    pub decided: Option<Ambiguity>,
}

/// The lines on a file in which nothing is checked: its faults, or why its grammar can't be checked.
fn lines_on_unread(
    alloc: Global,
    unread: Unread<'_>,
    options: Options,
) -> Result<String, AllocError>
    ensures { IfOk result (λ text. TellsUnread options unread.entry (string_bytes text)) }
{
    let source = unread.source;
    if let Some(why) = unread.why {
        let name = source.name;
        return format!(in alloc; "{name}: error: {why}\n");
    }
    let teller = Teller {
        source,
        has_colours: options.lines.has_colours,
    };
    let messages = messages_of(alloc, source, unread.faults)?;
    let (mut text, most) = (Text::new(alloc), most_told(options));
    teller.add_messages(&mut text, messages.as_slice(), Weight::Error, most)?;
    text.finish()
}

/// The report on a file in which nothing is checked.
fn report_on_unread(
    alloc: Global,
    unread: Unread<'_>,
    options: Options,
) -> Result<Report, AllocError>
    ensures conclusion { IfOk result (λ r. r.conclusion ≡ None) }
    ensures status { IfOk result (λ r. r.status ≡ 2) }
    ensures told { is_lines options.output ≡ true → IfOk result (λ r.
        TellsUnread options unread.entry (string_bytes r.text)) }
{
    let text = match options.output {
        Output::Json { has_grammar } => json_of_unread(
            alloc,
            unread,
            has_grammar,
            options.detail.states,
        )?,
        Output::Sarif => sarif_of_unread(alloc, unread)?,
        _ => lines_on_unread(alloc, unread, options)?,
    };
    Ok(Report {
        text,
        status: 2,
        page: None,
        conclusion: None,
    })
}

/// The report on the faults of a file.
fn report_on_faults<'a>(
    alloc: Global,
    source: &'a Source<'a>,
    faults: &'a [Fault],
    options: Options,
) -> Result<Report, AllocError>
    ensures conclusion { IfOk result (λ r. r.conclusion ≡ None) }
    ensures status { IfOk result (λ r. r.status ≡ 2) }
    ensures told { is_lines options.output ≡ true → IfOk result (λ r.
        TellsFaults options source.entry.now.name.now source.entry.now.bytes.now faults.entry.now
        (string_bytes r.text)) }
{
    let unread = Unread {
        source,
        file: None,
        warnings: &[],
        faults,
        why: None,
    };
    report_on_unread(alloc, unread, options)
}

/// The report on a grammar that can't be checked.
fn report_on_refusal(
    alloc: Global,
    read: Read<'_>,
    why: FindError,
    options: Options,
) -> Result<Report, AllocError>
    ensures conclusion { IfOk result (λ r. r.conclusion ≡ None) }
    ensures status { IfOk result (λ r. r.status ≡ 2) }
    ensures told { is_lines options.output ≡ true → IfOk result (λ r.
        TellsRefusal read.entry.source.now.name.now (string_bytes r.text)) }
{
    if let FindError::Memory = why {
        return Err(AllocError);
    }
    let why = format!(in alloc; "{why}")?;
    let unread = Unread {
        source: read.source,
        file: Some(read.file),
        warnings: read.warnings,
        faults: &[],
        why: Some(why.as_str()),
    };
    report_on_unread(alloc, unread, options)
}

/// What is told of a grammar, and was concluded of it.
#[derive(Drop)]
struct Outcome {
    text: String,
    page: Option<String>,
    has_precedences: bool,
    expected: Expected,
    verdict: Verdict,
    is_unambiguous: bool,
    exactness: Exactness,
    evidence: Vec<Evidence>,
    kept: Vec<Entry>,
    resolved: usize,
    decided: Option<Ambiguity>,
}

impl Outcome {
    /// The report on the file.
    fn report(self, file: FileGrammar) -> Report
        ensures text { result.text ≡ self.text }
        ensures concluded { result.conclusion ≡ Some (conclusion_of file self) }
        ensures status { result.status ≡ status_of self.verdict }
    {
        Report {
            text: self.text,
            status: self.verdict.status(),
            page: self.page,
            conclusion: Some(Conclusion {
                file,
                has_precedences: self.has_precedences,
                expected: self.expected,
                verdict: self.verdict,
                is_unambiguous: self.is_unambiguous,
                exactness: self.exactness,
                evidence: self.evidence,
                kept: self.kept,
                resolved: self.resolved,
                decided: self.decided,
            }),
        }
    }
}

/// What is told of what was found in the grammar of a file.
fn outcome_on_findings(
    alloc: Global,
    read: Read<'_>,
    found: &Findings,
    options: Options,
) -> Result<Outcome, AllocError>
    requires found { AreFindings (2 ^ 32 - 1) read.file.now found.now }
    requires kept { (found.now.has_precedences ≡ not options.ignores_precedences)
        ⊎ DecidesNothing (2 ^ 32 - 1) read.file.now }
    ensures proved { IfOk result (λ o.
        IsConcluded options.ignores_precedences (conclusion_of read.entry.file.now o)) }
    ensures told { IfOk result (λ o. TellsConclusion options read.entry.source.now.name.now
        (conclusion_of read.entry.file.now o) (string_bytes o.text)) }
    ensures expected { IfOk result (λ o. o.expected ≡ expected_beside options read.entry.expected) }
    ensures unlost { splits read.entry.parser.now ≡ true → IfOk result (λ o.
        All (λ e. e.loss ≡ None) o.evidence.items) }
    ensures untold { splits read.entry.parser.now ≡ true → IfOk result (λ o.
        o.exactness ≡ Open) }
    ensures unkept { splits read.entry.parser.now ≡ true → IfOk result (λ o.
        o.kept.items ≡ []) }
{
    let known = known_of(alloc, read, found, options)?;
    let expected = options.beside(read.expected);
    let verdict = Verdict::of(found.is_unambiguous, known.left, expected);
    let text = text_on_findings(alloc, read, found, &known, verdict, options)?;
    let page = page_on_findings(alloc, read, found, &known, verdict, options)?;
    let Known {
        is_unambiguous,
        exactness,
        evidence,
        kept,
        decided,
        ..
    } = known;
    Ok(Outcome {
        text,
        page,
        has_precedences: found.has_precedences,
        expected,
        verdict,
        is_unambiguous,
        exactness,
        evidence,
        kept,
        resolved: found.resolved.len(),
        decided,
    })
}

/// What is told of a file that was read as a grammar.
fn outcome_of(alloc: Global, read: Read<'_>, options: Options) -> Result<Outcome, FindError>
    ensures proved { IfOk result (λ o.
        IsConcluded options.ignores_precedences (conclusion_of read.entry.file.now o)) }
    ensures told { IfOk result (λ o. TellsConclusion options read.entry.source.now.name.now
        (conclusion_of read.entry.file.now o) (string_bytes o.text)) }
    ensures expected { IfOk result (λ o. o.expected ≡ expected_beside options read.entry.expected) }
    ensures unlost { splits read.entry.parser.now ≡ true → IfOk result (λ o.
        All (λ e. e.loss ≡ None) o.evidence.items) }
    ensures untold { splits read.entry.parser.now ≡ true → IfOk result (λ o.
        o.exactness ≡ Open) }
    ensures unkept { splits read.entry.parser.now ≡ true → IfOk result (λ o.
        o.kept.items ≡ []) }
{
    let has_states = options.output == Output::States || options.detail.states;
    let wants_graph = options.makes_page || has_states;
    let has_precedences = !options.ignores_precedences;
    let found = find(alloc, read.file, has_precedences, wants_graph)?;
    Ok(outcome_on_findings(alloc, read, &found, options)?)
}

/// The report that tells the grammar of a file alone.
fn report_of_grammar(
    alloc: Global,
    file: &FileGrammar,
    options: Options,
) -> Result<Report, AllocError>
    ensures { IfOk result (λ r. r.conclusion ≡ None) }
{
    Ok(Report {
        text: small_text(alloc, file, !options.ignores_precedences)?,
        status: 0,
        page: None,
        conclusion: None,
    })
}

/// The report on a file of that name, which holds these bytes. It has a conclusion unless it says that the file can't be read as
/// a grammar, or tells its grammar alone. The error says that memory was refused.
pub fn report_on(
    alloc: Global,
    name: &str,
    bytes: &[u8],
    options: Options,
) -> Result<Report, AllocError>
    ensures proved { IfOk result (λ r.
        IfSome r.conclusion (IsConcluded options.ignores_precedences)) }
    ensures said { IfOk result (λ r. IfSome r.conclusion (IsSaidBy options bytes.now)) }
    ensures status { IfOk result (λ r. IfSome r.conclusion (λ c. r.status ≡ status_of c.verdict)) }
    ensures told { IfOk result (λ r. IfSome r.conclusion (λ c.
        TellsConclusion options name.now c (string_bytes r.text))) }
    ensures unread { IfOk result (λ r.
        options.output ≢ Grammar → IfNone r.conclusion (r.status ≡ 2)) }
    ensures why { IfOk result (λ r. options.output ≢ Grammar → is_lines options.output ≡ true
        → IfNone r.conclusion (TellsWhy options name.now bytes.now (string_bytes r.text))) }
{
    let source = Source::new(alloc, name, bytes)?;
    let (file, expected, parser, warnings) = match read_file(alloc, bytes, options.dialect)? {
        FileRead::Grammar(file, expected, parser, warnings) => (file, expected, parser, warnings),
        FileRead::Faults(faults) => {
            return report_on_faults(alloc, &source, faults.as_slice(), options);
        }
    };
    if options.output == Output::Grammar {
        return report_of_grammar(alloc, &file, options);
    }
    let read = Read {
        source: &source,
        file: &file,
        expected,
        parser: &parser,
        warnings: warnings.as_slice(),
    };
    match outcome_of(alloc, read, options) {
        Ok(outcome) => Ok(outcome.report(file)),
        Err(why) => report_on_refusal(alloc, read, why, options),
    }
}
