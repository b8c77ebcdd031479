//! The lexemes of a grammar file of grmtools.

ghost use Rattle.std.specs.Prelude.{◌≡◌, ◌+◌, ◌<◌, ◌≤◌, ◌⊎◌, true, codes, length, slice_index, IfOk, IsTrue};
ghost use Rattle.std.specs.Char.{is_ascii_digit};
ghost use Rattle.lryacc.specs.GrmtoolsQuotes.{IsLoneMark, is_quote};
ghost use Rattle.lryacc.specs.Lexemes.{HasLine, IsGrmtoolsLexeme};
ghost use Rattle.lryacc.specs.RuleTypes.{IsType};
ghost use Rattle.lryacc.specs.Words.{Are, Begins};

use crate::faults::{Fault, FaultKind, Wanted};
use crate::lexemes::{LexemeKind, invalid};
use crate::places::Span;
use crate::runs::Run;
use crate::rust_code::rust_code_end;

/// The fault that something else should stand at a place.
fn wants(wanted: Wanted, start: usize, end: usize) -> Fault {
    Fault {
        kind: FaultKind::Wanted(wanted),
        span: Span::new(start, end),
    }
}

/// The number that begins at a place. A name that stands right behind it is a fault.
fn number(text: &[u8], from: usize) -> Result<(LexemeKind, usize), Fault>
    requires from { from < length text.now }
    requires first { is_ascii_digit (slice_index text.now from) ≡ true }
    ensures from { IfOk result (λ found. from < found.1) }
    ensures inside { IfOk result (λ found. found.1 ≤ length text.now) }
    ensures is { IfOk result (λ found. IsGrmtoolsLexeme found.0 text.now from found.1) }
{
    let end = Run::Word.end(text, from + 1);
    if Run::Digits.is_all(&text[from..end]) {
        return Ok((LexemeKind::Number, end));
    }
    Err(Fault {
        kind: FaultKind::InvalidName,
        span: Span::new(from, end),
    })
}

/// Whether the byte is a quote.
fn is_quote(byte: u8) -> bool
    ensures { result ≡ is_quote byte }
{
    matches!(byte, b'\'' | b'"')
}

/// Whether a quote or a backslash stands between quotes by itself, as in `'''` and `'\'`.
fn is_lone_mark(bytes: &[u8]) -> bool
    requires { is_quote (slice_index bytes.now 0) ≡ true }
    ensures inside { IsTrue result → 3 ≤ length bytes.now }
    ensures is { IsTrue result → IsLoneMark (slice_index bytes.now 0) bytes.now 0 }
    ensures only { IsLoneMark (slice_index bytes.now 0) bytes.now 0 → IsTrue result }
{
    match bytes {
        [quote, b'\\', end, next, ..] => *end == *quote && *next != *quote,
        [quote, mark, end, ..] => *end == *quote && (*mark == *quote || *mark == b'\\'),
        _ => false,
    }
}

/// The name, or the text, in quotes whose first quote stands at a place. Only in a text a quote may stand behind a backslash.
fn quoted(text: &[u8], from: usize) -> Result<(LexemeKind, usize), Fault>
    requires from { from < length text.now }
    requires first { Begins 39 text.now from ⊎ Begins 34 text.now from }
    ensures from { IfOk result (λ found. from < found.1) }
    ensures inside { IfOk result (λ found. found.1 ≤ length text.now) }
    ensures is { IfOk result (λ found. IsGrmtoolsLexeme found.0 text.now from found.1) }
{
    if is_lone_mark(&text[from..]) {
        return Ok((LexemeKind::QuotedName, from + 3));
    }
    let quote = text[from];
    let mut kind = LexemeKind::QuotedName;
    let mut before = quote;
    for at in from + 1..text.len() {
        let byte = text[at];
        if before == b'\\' && is_quote(byte) {
            kind = LexemeKind::QuotedText;
        } else if byte == quote {
            return ended(kind, from, at);
        } else if byte == b'\n' {
            break;
        }
        before = if before == b'\\' { b' ' } else { byte };
    }
    Err(Fault {
        kind: FaultKind::OpenText,
        span: Span::new(from, from + 1),
    })
}

/// The lexeme in quotes that stand at two places.
fn ended(kind: LexemeKind, from: usize, last: usize) -> Result<(LexemeKind, usize), Fault>
    requires order { from < last }
    requires fits { last < usize.MAX }
    ensures some { IfOk result (λ _. from + 1 < last) }
    ensures kind { IfOk result (λ found. found.0 ≡ kind) }
    ensures end { IfOk result (λ found. found.1 ≡ last + 1) }
{
    if last == from + 1 {
        return Err(Fault {
            kind: FaultKind::EmptyCharacter,
            span: Span::new(from, last + 1),
        });
    }
    Ok((kind, last + 1))
}

/// The place at which the type of a rule ends, which begins behind `->` at a place: that of a colon with no other one beside it,
/// or of a `;` outside of brackets, before which the colon is missing.
fn type_end(text: &[u8], from: usize) -> usize
    requires { from ≤ length text.now }
    ensures from { from ≤ result }
    ensures inside { result ≤ length text.now }
    ensures is { IsType text.now from result }
{
    let mut brackets: usize = 0;
    let mut is_second = false;
    for at in from..text.len() {
        let byte = text[at];
        if byte == b':' && !is_second {
            if text.get(at + 1) != Some(&b':') {
                return at;
            }
            is_second = true;
            continue;
        }
        is_second = false;
        match byte {
            b'[' => brackets = brackets.saturating_add(1),
            b']' => brackets = brackets.saturating_sub(1),
            b';' if brackets == 0 => return at,
            _ => {}
        }
    }
    text.len()
}

/// The type of a rule that begins with `->` at a place.
fn rule_type(text: &[u8], from: usize) -> Result<(LexemeKind, usize), Fault>
    requires from { from + 2 ≤ length text.now }
    requires first { Are text.now from (from + 2) (codes "->") }
    ensures from { IfOk result (λ found. from < found.1) }
    ensures inside { IfOk result (λ found. found.1 ≤ length text.now) }
    ensures is { IfOk result (λ found. IsGrmtoolsLexeme found.0 text.now from found.1) }
{
    let end = type_end(text, from + 2);
    match text[from..end].trim_ascii() {
        b"->" => Err(wants(Wanted::Type, end, end)),
        _ => Ok((LexemeKind::RuleType, end)),
    }
}

/// Whether the rest of the line belongs to the directive of that name: it is Rust.
fn has_line(name: &[u8]) -> bool
    ensures is { IsTrue result → HasLine name.now }
    ensures only { HasLine name.now → IsTrue result }
{
    name == b"%actiontype".as_slice()
        || name == b"%parse-param".as_slice()
        || name == b"%parse-generics".as_slice()
}

/// The directive whose `%` stands at a place, with the rest of its line where that is Rust.
fn directive(text: &[u8], from: usize) -> Result<(LexemeKind, usize), Fault>
    requires from { from < length text.now }
    requires first { Begins 37 text.now from }
    ensures from { IfOk result (λ found. from < found.1) }
    ensures inside { IfOk result (λ found. found.1 ≤ length text.now) }
    ensures is { IfOk result (λ found. IsGrmtoolsLexeme found.0 text.now from found.1) }
{
    let end = Run::Directive.end(text, from + 1);
    let name = &text[from..end];
    if !has_line(name) {
        return Ok((LexemeKind::Directive, end));
    }
    let behind = Run::Line.end(text, end);
    let line = &text[end..behind];
    if line.trim_ascii().is_empty() {
        return Err(wants(Wanted::Type, end, end));
    }
    // A parameter has a colon before its type.
    if name == b"%parse-param".as_slice() && !line.contains(&b':') {
        return Err(wants(Wanted::Colon, behind, behind));
    }
    Ok((LexemeKind::DirectiveLine, behind))
}

/// The lexeme whose `%` stands at a place.
fn behind_percent(text: &[u8], from: usize) -> Result<(LexemeKind, usize), Fault>
    requires from { from < length text.now }
    requires first { Begins 37 text.now from }
    ensures from { IfOk result (λ found. from < found.1) }
    ensures inside { IfOk result (λ found. found.1 ≤ length text.now) }
    ensures is { IfOk result (λ found. IsGrmtoolsLexeme found.0 text.now from found.1) }
{
    match text.get(from + 1) {
        Some(b'%') => Ok((LexemeKind::Separator, from + 2)),
        Some(byte) if byte.is_ascii_alphabetic() => directive(text, from),
        _ => Err(invalid(from)),
    }
}

/// The lexeme of a file of grmtools that begins at a place.
pub(crate) fn grmtools_lexeme_at(text: &[u8], from: usize) -> Result<(LexemeKind, usize), Fault>
    requires { from < length text.now }
    ensures from { IfOk result (λ found. from < found.1) }
    ensures inside { IfOk result (λ found. found.1 ≤ length text.now) }
    ensures is { IfOk result (λ found. IsGrmtoolsLexeme found.0 text.now from found.1) }
{
    let first = text[from];
    match first {
        b'%' => behind_percent(text, from),
        b'{' => {
            let opening = Span::new(from, from + 1);
            Ok((LexemeKind::Action, rust_code_end(text, opening, from + 1)?))
        }
        b'-' if text.get(from + 1) == Some(&b'>') => rule_type(text, from),
        b'\'' | b'"' => quoted(text, from),
        b':' => Ok((LexemeKind::Colon, from + 1)),
        b'|' => Ok((LexemeKind::Bar, from + 1)),
        b';' => Ok((LexemeKind::Semicolon, from + 1)),
        _ if first.is_ascii_digit() => number(text, from),
        _ if Run::Word.has(first) => Ok((LexemeKind::Name, Run::Word.end(text, from + 1))),
        _ => Err(invalid(from)),
    }
}
