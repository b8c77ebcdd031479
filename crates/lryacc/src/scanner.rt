//! The lexemes of a file, one after another.

ghost use Rattle.std.specs.Prelude.{◌≡◌, ◌<◌, ◌≤◌, ◌-◌, length, slice_index_or, slice_set, IfOk, IfSome, MatchOption, OnOk, vec_len};
ghost use Rattle.std.specs.Iterator.{at_most};
ghost use Rattle.lryacc.specs.AllLexemes.{AreAllLexemesOf, is_separator};
ghost use Rattle.lryacc.specs.Lexemes.{AreLexemesOf, IsLexeme, as_rule, go_before_colon, is_between, is_name, with_rules};

use crate::code::{Ending, code_end};
use crate::dialects::Dialect;
use crate::faults::{Fault, FaultKind};
use crate::gaps::gap_end;
use crate::grmtools_lexemes::grmtools_lexeme_at;
use crate::lexemes::{Lexeme, LexemeKind, lexeme_at};
use crate::places::Span;
use std::alloc::{AllocError, Global};

/// The lexemes of a file, and its faults in their places. Behind a fault they go on where they can.
#[derive(Drop)]
pub struct Scanner<'a> {
    text: &'a [u8],
    dialect: Dialect,
    at: usize,
    /// How many `%%` were read.
    separators: usize,
    ghost inside: { at ≤ length text.now },
}

/// The lexeme of a file of a dialect that begins at a place.
fn lexeme_of(text: &[u8], from: usize, dialect: Dialect) -> Result<(LexemeKind, usize), Fault>
    requires { from < length text.now }
    ensures from { IfOk result (λ found. from < found.1) }
    ensures inside { IfOk result (λ found. found.1 ≤ length text.now) }
    ensures is { IfOk result (λ found. IsLexeme dialect found.0 text.now from found.1) }
{
    match dialect {
        Dialect::Bison => lexeme_at(text, from),
        Dialect::Grmtools => grmtools_lexeme_at(text, from),
    }
}

impl<'a> Scanner<'a> {
    /// The lexemes of the file.
    pub fn new(text: &'a [u8], dialect: Dialect) -> Scanner<'a>
        ensures text { result.text.now ≡ text.entry.now }
        ensures dialect { result.dialect ≡ dialect }
        ensures begins { result.at ≡ 0 }
        ensures none { result.separators ≡ 0 }
    {
        Scanner {
            text,
            dialect,
            at: 0,
            separators: 0,
        }
    }

    /// The epilogue, which reaches to the end of the file; None where it has no fault, as that of grmtools.
    fn epilogue_fault(&mut self, mark: Span) -> Option<Fault>
        ensures text { self.new.text ≡ self.old.text }
        ensures dialect { self.new.dialect ≡ self.old.dialect }
        ensures goes { self.old.at ≤ self.new.at }
        ensures end { self.new.at ≡ length self.old.text.now }
        ensures separators { self.new.separators ≡ self.old.separators }
    {
        let found = match self.dialect {
            Dialect::Bison => code_end(self.text, mark, self.at, Ending::File),
            Dialect::Grmtools => Ok(self.at),
        };
        self.at = self.text.len();
        found.err()
    }

    /// Goes on behind a fault.
    fn pass_over(&mut self, fault: Fault) -> Fault
        ensures text { self.new.text ≡ self.old.text }
        ensures dialect { self.new.dialect ≡ self.old.dialect }
        ensures goes { self.old.at ≤ self.new.at }
    {
        let behind = fault.span.end.max(self.at).min(self.text.len());
        self.at = match fault.kind {
            FaultKind::OpenBrace
            | FaultKind::OpenPrologue
            | FaultKind::OpenComment
            | FaultKind::OpenString
            | FaultKind::OpenTag => self.text.len(),
            FaultKind::InvalidBracket => behind_mark(self.text, behind, b"]"),
            FaultKind::UnknownEscape | FaultKind::EscapeOutOfRange => {
                behind_mark(self.text, behind, b"'\"")
            }
            _ => behind,
        };
        fault
    }
}

/// The place behind the next of the marks from `from` on, or where the line ends before it.
fn behind_mark(text: &[u8], from: usize, marks: &[u8]) -> usize
    requires { from ≤ length text.now }
    ensures from { from ≤ result }
    ensures inside { result ≤ length text.now }
{
    for at in from..text.len() {
        let byte = text[at];
        if byte == b'\n' {
            return at;
        }
        if marks.contains(&byte) {
            return at + 1;
        }
    }
    text.len()
}

/// Whether the lexeme is a separator.
fn is_separator(kind: LexemeKind) -> bool
    ensures { result ≡ is_separator kind }
{
    matches!(kind, LexemeKind::Separator)
}

impl<'a> Iterator for Scanner<'a> {
    type Item = Result<Lexeme, Fault>;

    ghost use Rattle.lryacc.specs.Scans.{Scans};

    ghost next_gives = { Scans };

    ghost remaining = { λ s. at_most (length s.text.now - s.at) };

    fn next(&mut self) -> Option<Result<Lexeme, Fault>> {
        let from = self.at;
        if from == self.text.len() {
            return None;
        }
        self.at = from + 1;
        let start = match gap_end(self.text, from, self.dialect) {
            Ok(start) => start,
            Err(fault) => return Some(Err(self.pass_over(fault))),
        };
        if start == self.text.len() {
            self.at = start;
            return None;
        }
        self.at = start + 1;
        let (kind, end) = match lexeme_of(self.text, start, self.dialect) {
            Ok(found) => found,
            Err(fault) => return Some(Err(self.pass_over(fault))),
        };
        self.at = end;
        let span = Span::new(start, end);
        if is_separator(kind) {
            self.separators = self.separators.saturating_add(1);
            if self.separators == 2 {
                if let Some(fault) = self.epilogue_fault(span) {
                    return Some(Err(fault));
                }
            }
        }
        Some(Ok(Lexeme { kind, span }))
    }
}

/// Whether a lexeme may stand between the name of a rule and its colon.
fn may_stand_between(kind: LexemeKind) -> bool
    ensures { result ≡ is_between kind }
{
    matches!(kind, LexemeKind::BracketName | LexemeKind::RuleType)
}

/// Whether the lexeme is a name.
fn is_name(kind: LexemeKind) -> bool
    ensures { result ≡ is_name kind }
{
    matches!(kind, LexemeKind::Name)
}

/// The place of the name at the end of lexemes that a colon behind them makes that of a rule, perhaps with a name in brackets or a
/// type of grmtools between them.
fn rule_place(lexemes: &[Lexeme]) -> Option<usize>
    ensures inside { IfSome result (λ place. place < length lexemes.now) }
    ensures named { MatchOption result
        (with_rules go_before_colon lexemes.now ≡ lexemes.now)
        (λ place. (other : Lexeme) → with_rules go_before_colon lexemes.now ≡
        slice_set lexemes.now place (as_rule (slice_index_or lexemes.now place other))) }
{
    let last = lexemes.len().checked_sub(1)?;
    if is_name(lexemes[last].kind) {
        return Some(last);
    }
    let one = last.checked_sub(1)?;
    if is_name(lexemes[one].kind) && may_stand_between(lexemes[last].kind) {
        return Some(one);
    }
    None
}

/// Notes that a name is that of a rule, where a colon stands behind the lexemes.
fn name_rule(lexemes: &mut Vec<Lexeme>)
    ensures { lexemes.new.items ≡ with_rules go_before_colon lexemes.old.items }
{
    if let Some(place) = rule_place(lexemes.as_slice()) {
        lexemes[place].kind = LexemeKind::RuleName;
    }
}

/// The lexemes of a file, and what is wrong among them.
#[derive(Drop)]
pub(crate) struct Scanned {
    pub(crate) lexemes: Vec<Lexeme>,
    pub(crate) faults: Vec<Fault>,
}

impl Scanned {
    ghost use Rattle.lryacc.specs.Scans.{Adds};

    /// Adds what a scanner found.
    fn add(&mut self, found: Result<Lexeme, Fault>) -> Result<(), AllocError>
        ensures { OnOk result (Adds found self.old self.new) }
    {
        match found {
            Ok(lexeme) => {
                if lexeme.kind == LexemeKind::Colon {
                    name_rule(&mut self.lexemes);
                }
                self.lexemes.push(lexeme)?;
            }
            Err(fault) => self.faults.push(fault)?,
        }
        Ok(())
    }
}

/// The lexemes of a file, and what is wrong among them.
pub(crate) fn scan(alloc: Global, text: &[u8], dialect: Dialect) -> Result<Scanned, AllocError>
    ensures lexemes { IfOk result (λ scanned.
        AreLexemesOf text.now dialect scanned.lexemes.items) }
    ensures all { IfOk result (λ scanned. vec_len scanned.faults ≡ 0
        → AreAllLexemesOf text.now dialect scanned.lexemes.items) }
{
    let mut scanned = Scanned {
        lexemes: Vec::new(alloc),
        faults: Vec::new(alloc),
    };
    for found in Scanner::new(text, dialect) {
        scanned.add(found)?;
    }
    Ok(scanned)
}
