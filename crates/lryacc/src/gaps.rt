//! Blanks, comments and `#line` between lexemes.

ghost use Rattle.std.specs.Prelude.{◌≡◌, ℕ, ◌+◌, ◌<◌, ◌≤◌, length, slice_index, IfNone, IfOk, IfSome, IsTrue};
ghost use Rattle.lryacc.specs.Gaps.{IsGap, IsLineMark, is_blank};
ghost use Rattle.lryacc.specs.GapsRead.{BeginsGap, EndsGap, IsGapUpTo, IsLeft, IsLeftBehind, IsNoGap};

use crate::dialects::Dialect;
use crate::faults::{Fault, FaultKind};
use crate::places::Span;

/// What the next byte stands in.
#[derive(Clone, Copy)]
enum Within {
    /// Nothing: a lexeme may begin.
    Gap,
    /// What begins with the `/` at this place.
    Slash(usize),
    /// A comment up to the end of its line, or a line that numbers the next one by `#line`.
    Line,
    /// The comment up to `*/` that begins at this place; whether the byte before is `*`.
    Block(usize, bool),
}

/// Whether the byte is a blank. For Bison a comma counts as one.
fn is_blank(byte: u8, dialect: Dialect) -> bool
    ensures { result ≡ is_blank dialect byte }
{
    match byte {
        b' ' | b'\t' | b'\n' | b'\r' => true,
        0x0b | 0x0c | b',' => dialect == Dialect::Bison,
        _ => false,
    }
}

/// How much of a line was read behind `#line ` with its blank.
#[derive(Clone, Copy)]
enum LineNumber {
    /// Nothing.
    Begun,
    /// Digits.
    Number,
    /// A number and a blank.
    Blank,
    /// A number and a name in quotes, which the last byte does not close.
    Name,
    /// A number and a name in quotes.
    Closed,
    /// All of it, and a carriage return.
    Return,
}

impl LineNumber {
    /// What was read with the next byte; None where the line is none that numbers the next one.
    fn and(self, byte: u8) -> Option<LineNumber> {
        Some(match (self, byte) {
            (LineNumber::Begun | LineNumber::Number, b'0'..=b'9') => LineNumber::Number,
            (LineNumber::Number, b' ') => LineNumber::Blank,
            (LineNumber::Number | LineNumber::Closed, b'\r') => LineNumber::Return,
            (LineNumber::Name | LineNumber::Closed, b'"') => LineNumber::Closed,
            (LineNumber::Blank, b'"') => LineNumber::Name,
            (LineNumber::Name | LineNumber::Closed, _) => LineNumber::Name,
            _ => return None,
        })
    }

    /// Whether the line may end here.
    fn is_whole(self) -> bool {
        matches!(
            self,
            LineNumber::Number | LineNumber::Closed | LineNumber::Return
        )
    }
}

/// Whether a line goes on behind `#line ` with a number, and maybe a name in quotes, up to its end.
fn numbers_line(rest: &[u8]) -> bool {
    let mut read = LineNumber::Begun;
    for byte in rest {
        if *byte == b'\n' {
            return read.is_whole();
        }
        match read.and(*byte) {
            Some(next) => read = next,
            None => return false,
        }
    }
    false
}

/// Whether a line that numbers the next one by `#line` begins at the place.
fn is_line_mark(text: &[u8], at: usize) -> bool
    requires { at ≤ length text.now }
    ensures { IsTrue result → IsLineMark text.now at }
{
    let begins = at == 0 || text[at - 1] == b'\n';
    match text[at..].strip_prefix(b"#line ") {
        Some(rest) => begins && numbers_line(rest),
        None => false,
    }
}

/// What the byte at a place behind a gap brings; None where a lexeme begins with it.
fn begun(text: &[u8], at: usize, byte: u8, dialect: Dialect) -> Option<Within>
    requires inside { at ≤ length text.now }
    requires byte { slice_index text.now at ≡ byte }
    ensures begins { IfSome result (BeginsGap dialect text.now at) }
    ensures no_gap { IfNone result (dialect ≡ Dialect.Grmtools → IsNoGap byte) }
{
    match byte {
        b'/' => Some(Within::Slash(at)),
        b'#' if dialect == Dialect::Bison && is_line_mark(text, at) => Some(Within::Line),
        _ if is_blank(byte, dialect) => Some(Within::Gap),
        _ => None,
    }
}

/// A fault of the mark of so many bytes at a place.
fn fault_at(kind: FaultKind, start: usize, end: usize) -> Fault {
    let span = Span::new(start, end);
    Fault { kind, span }
}

/// What the byte behind the one at a place stands in; None where a lexeme begins with the one at the place.
fn step(text: &[u8], at: usize, within: Within, dialect: Dialect) -> Result<Option<Within>, Fault>
    requires { at < length text.now }
    ensures on { IfOk result (λ next. IfSome next (λ next. (from : ℕ)
        → IsGapUpTo dialect text.now from at within
        → IsGapUpTo dialect text.now from (at + 1) next)) }
    ensures ends { IfOk result (λ next. IfNone next (within ≡ Within.Gap)) }
    ensures left { dialect ≡ Dialect.Grmtools → (end : ℕ) → EndsGap text.now end
        → IsLeft text.now end at within → IsLeftBehind text.now end at result }
{
    let byte = text[at];
    Ok(Some(match within {
        Within::Gap => return Ok(begun(text, at, byte, dialect)),
        Within::Slash(_) if byte == b'/' => Within::Line,
        Within::Slash(opened) if byte == b'*' => Within::Block(opened, false),
        Within::Slash(opened) => return Err(fault_at(FaultKind::InvalidCharacter, opened, at)),
        Within::Line if byte == b'\n' => Within::Gap,
        Within::Line => Within::Line,
        Within::Block(_, true) if byte == b'/' => Within::Gap,
        Within::Block(opened, _) => Within::Block(opened, byte == b'*'),
    }))
}

/// The place from `from` on at which a lexeme begins, or the text's length if none does.
pub(crate) fn gap_end(text: &[u8], from: usize, dialect: Dialect) -> Result<usize, Fault>
    requires { from ≤ length text.now }
    ensures from { IfOk result (λ end. from ≤ end) }
    ensures inside { IfOk result (λ end. end ≤ length text.now) }
    ensures gap { IfOk result (IsGap dialect text.now from) }
    ensures only { dialect ≡ Dialect.Grmtools → (end : ℕ)
        → IsGap Dialect.Grmtools text.now from end → EndsGap text.now end → result ≡ Ok end }
{
    let mut within = Within::Gap;
    for at in from..text.len() {
        match step(text, at, within, dialect)? {
            Some(next) => within = next,
            None => return Ok(at),
        }
    }
    let end = text.len();
    match within {
        Within::Slash(opened) => Err(fault_at(FaultKind::InvalidCharacter, opened, end)),
        Within::Block(opened, _) => Err(fault_at(FaultKind::OpenComment, opened, end)),
        Within::Gap | Within::Line => Ok(end),
    }
}
