//! The lexemes of a grammar file.

ghost use Rattle.std.specs.Prelude.{◌≡◌, ◌+◌, ◌<◌, ◌≤◌, true, codes, length, slice_index, IfOk};
ghost use Rattle.std.specs.Char.{is_ascii_digit};
ghost use Rattle.lryacc.specs.Bodies.{is_symbol};
ghost use Rattle.lryacc.specs.Code.{EndsCode};
ghost use Rattle.lryacc.specs.Lexemes.{IsBisonLexeme};
ghost use Rattle.lryacc.specs.Tags.{IsTag};
ghost use Rattle.lryacc.specs.Words.{Are, Begins, is_name_start};

use crate::code::{Ending, code_end};
use crate::dialects::Dialect;
use crate::faults::{Fault, FaultKind};
use crate::gaps::gap_end;
use crate::places::Span;
use crate::quotes::{Quoted, between_quotes};
use crate::runs::Run;

/// What a lexeme is.
#[derive(Clone, Copy, PartialEq, Eq)]
pub enum LexemeKind {
    /// `expr`.
    Name,
    /// `expr` before a colon, perhaps with a name in brackets between them.
    RuleName,
    /// `[left]`: a name that an action calls a symbol by.
    BracketName,
    /// `258` or `0x102`.
    Number,
    /// `'+'`: this byte.
    Character(u8),
    /// `"then"`.
    Text,
    /// `_("then")`: a text that is to be translated.
    TranslatedText,
    /// `<node>`: the type of a value.
    Tag,
    /// `<*>` or `<>`: each tag, or no tag.
    AnyTag,
    /// `%token`, and other words behind `%`; in old Yacc also `\token` and `%<`.
    Directive,
    /// `%%`; in old Yacc also `\\`.
    Separator,
    /// `{ .. }`.
    Action,
    /// `%?{ .. }`.
    Predicate,
    /// `%{ .. %}`.
    Prologue,
    /// `:`.
    Colon,
    /// `|`.
    Bar,
    /// `;`.
    Semicolon,
    /// `=`.
    Equals,
    /// `'+'` or `"+"`, of grmtools: what stands between the quotes is the name.
    QuotedName,
    /// `"a \"name\""`, of grmtools: a text that has quotes.
    QuotedText,
    /// `-> Result<u64, ()>`, of grmtools: the type of a rule.
    RuleType,
    /// `%parse-param p: u64`, of grmtools: a directive with the rest of its line.
    DirectiveLine,
}

impl LexemeKind {
    /// Whether it is a symbol, as it stands in a body: a name, a character or a text; of grmtools a name, perhaps in quotes.
    pub(crate) fn is_of_symbol(self) -> bool
        ensures { result ≡ is_symbol self }
    {
        matches!(
            self,
            LexemeKind::Name | LexemeKind::Character(_) | LexemeKind::Text | LexemeKind::QuotedName
        )
    }
}

/// A lexeme, and where it stands.
#[derive(Clone, Copy)]
pub struct Lexeme {
    /// What it is.
    pub kind: LexemeKind,
    /// Its place.
    pub span: Span,
}

/// Whether a name may begin with the byte.
pub(crate) fn is_name_start(byte: u8) -> bool
    ensures { result ≡ is_name_start byte }
{
    byte.is_ascii_alphabetic() || matches!(byte, b'.' | b'_')
}

/// The number that begins at a place, perhaps a hexadecimal one. A name that stands right behind it is a fault.
fn number(text: &[u8], from: usize) -> Result<(LexemeKind, usize), Fault>
    requires from { from < length text.now }
    requires first { is_ascii_digit (slice_index text.now from) ≡ true }
    ensures from { IfOk result (λ found. from < found.1) }
    ensures inside { IfOk result (λ found. found.1 ≤ length text.now) }
    ensures is { IfOk result (λ found. IsBisonLexeme found.0 text.now from found.1) }
{
    let end = Run::Name.end(text, from + 1);
    let is_number = match &text[from..end] {
        [b'0', b'x' | b'X', digits @ ..] => { !digits.is_empty() && Run::HexDigits.is_all(digits) }
        word => Run::Digits.is_all(word),
    };
    if is_number {
        return Ok((LexemeKind::Number, end));
    }
    let span = Span::new(from, end);
    Err(Fault {
        kind: FaultKind::InvalidName,
        span,
    })
}

/// The place behind the tag that begins at a place: tags nest, and `->` closes none.
fn tag_end(text: &[u8], from: usize) -> Result<usize, Fault>
    requires from { from < length text.now }
    requires first { Begins 60 text.now from }
    ensures from { IfOk result (λ end. from < end) }
    ensures inside { IfOk result (λ end. end ≤ length text.now) }
    ensures is { IfOk result (IsTag text.now from) }
{
    let mut depth: usize = 0;
    let mut before = b'<';
    for at in from + 1..text.len() {
        let byte = text[at];
        if byte == b'<' {
            depth = depth.saturating_add(1);
        } else if byte == b'>' && before != b'-' {
            match depth.checked_sub(1) {
                Some(left) => depth = left,
                None => return Ok(at + 1),
            }
        }
        before = byte;
    }
    let span = Span::new(from, from + 1);
    Err(Fault {
        kind: FaultKind::OpenTag,
        span,
    })
}

/// The bracket that begins at a place: a name, perhaps between blanks.
fn bracket(text: &[u8], from: usize) -> Result<(LexemeKind, usize), Fault>
    requires from { from < length text.now }
    requires first { Begins 91 text.now from }
    ensures from { IfOk result (λ found. from < found.1) }
    ensures inside { IfOk result (λ found. found.1 ≤ length text.now) }
    ensures is { IfOk result (λ found. IsBisonLexeme found.0 text.now from found.1) }
{
    let name = gap_end(text, from + 1, Dialect::Bison)?;
    let behind = gap_end(text, Run::Name.end(text, name), Dialect::Bison)?;
    let begins = matches!(text.get(name), Some(byte) if is_name_start(*byte));
    if begins && text.get(behind) == Some(&b']') {
        return Ok((LexemeKind::BracketName, behind + 1));
    }
    let wrong = if begins { behind } else { name };
    let span = if wrong == text.len() {
        Span::new(from, from + 1)
    } else {
        Span::new(wrong, Run::Name.end(text, wrong).max(wrong + 1))
    };
    Err(Fault {
        kind: FaultKind::InvalidBracket,
        span,
    })
}

/// No lexeme begins with the byte at a place.
pub(crate) fn invalid(from: usize) -> Fault
    requires { from < usize.MAX }
{
    let span = Span::new(from, from + 1);
    Fault {
        kind: FaultKind::InvalidCharacter,
        span,
    }
}

/// The code that begins at a place with a mark of so many bytes.
fn code(
    text: &[u8],
    from: usize,
    mark: usize,
    kind: LexemeKind,
    ending: Ending,
) -> Result<(LexemeKind, usize), Fault>
    requires mark { 0 < mark }
    requires inside { from + mark ≤ length text.now }
    ensures from { IfOk result (λ found. from < found.1) }
    ensures inside { IfOk result (λ found. found.1 ≤ length text.now) }
    ensures kind { IfOk result (λ found. found.0 ≡ kind) }
    ensures code { IfOk result (λ found. EndsCode ending text.now (from + mark) found.1) }
{
    let opening = Span::new(from, from + mark);
    Ok((kind, code_end(text, opening, from + mark, ending)?))
}

/// The predicate that begins at a place with `%?`: blanks may stand before its brace.
fn predicate(text: &[u8], from: usize) -> Result<(LexemeKind, usize), Fault>
    requires from { from + 2 ≤ length text.now }
    requires first { Are text.now from (from + 2) (codes "%?") }
    ensures from { IfOk result (λ found. from < found.1) }
    ensures inside { IfOk result (λ found. found.1 ≤ length text.now) }
    ensures is { IfOk result (λ found. IsBisonLexeme found.0 text.now from found.1) }
{
    let brace = Run::Blanks.end(text, from + 2);
    if text.get(brace) == Some(&b'{') {
        let mark = brace + 1 - from;
        return code(text, from, mark, LexemeKind::Predicate, Ending::Brace);
    }
    Err(invalid(from))
}

/// The lexeme whose `%` stands at a place.
fn behind_percent(text: &[u8], from: usize) -> Result<(LexemeKind, usize), Fault>
    requires from { from < length text.now }
    requires first { Begins 37 text.now from }
    ensures from { IfOk result (λ found. from < found.1) }
    ensures inside { IfOk result (λ found. found.1 ≤ length text.now) }
    ensures is { IfOk result (λ found. IsBisonLexeme found.0 text.now from found.1) }
{
    let Some(byte) = text.get(from + 1) else {
        return Err(invalid(from));
    };
    match *byte {
        b'%' => Ok((LexemeKind::Separator, from + 2)),
        b'{' => code(text, from, 2, LexemeKind::Prologue, Ending::PrologueMark),
        b'?' => predicate(text, from),
        b'<' | b'>' | b'0' | b'2' => Ok((LexemeKind::Directive, from + 2)),
        byte if is_name_start(byte) => Ok((LexemeKind::Directive, Run::Name.end(text, from + 2))),
        _ => Err(invalid(from)),
    }
}

/// The lexeme of old Yacc whose backslash stands at a place.
fn behind_backslash(text: &[u8], from: usize) -> Result<(LexemeKind, usize), Fault>
    requires from { from < length text.now }
    requires first { Begins 92 text.now from }
    ensures from { IfOk result (λ found. from < found.1) }
    ensures inside { IfOk result (λ found. found.1 ≤ length text.now) }
    ensures is { IfOk result (λ found. IsBisonLexeme found.0 text.now from found.1) }
{
    match text.get(from + 1) {
        Some(b'\\') => Ok((LexemeKind::Separator, from + 2)),
        Some(byte) if is_name_start(*byte) => {
            Ok((LexemeKind::Directive, Run::Name.end(text, from + 2)))
        }
        _ => Err(invalid(from)),
    }
}

/// Whether a colon that stands before the byte is a lexeme by itself.
fn may_follow_colon(byte: u8) -> bool {
    byte.is_ascii_alphanumeric()
        || matches!(
            byte,
            b'[' | b'%' | b'_' | b'<' | b'>' | b'{' | b'}' | b'"' | b'\'' | b'*'
        )
        || matches!(byte, b';' | b'|' | b'=' | b'/' | b',')
        || matches!(byte, b' ' | b'\t' | b'\n' | 0x0b | 0x0c | b'\r')
}

/// The character whose quote stands at a place.
fn character(text: &[u8], from: usize) -> Result<(LexemeKind, usize), Fault>
    requires from { from < length text.now }
    requires first { Begins 39 text.now from }
    ensures from { IfOk result (λ found. from < found.1) }
    ensures inside { IfOk result (λ found. found.1 ≤ length text.now) }
    ensures is { IfOk result (λ found. IsBisonLexeme found.0 text.now from found.1) }
{
    let Quoted { end, bytes, last } = between_quotes(text, from, b'\'')?;
    let kind = match bytes {
        0 => FaultKind::EmptyCharacter,
        1 => return Ok((LexemeKind::Character(last), end)),
        _ => FaultKind::LongCharacter,
    };
    let span = Span::new(from, end);
    Err(Fault { kind, span })
}

/// The text to be translated that begins at a place with `_(`.
fn translated(text: &[u8], from: usize) -> Result<(LexemeKind, usize), Fault>
    requires from { from + 2 < length text.now }
    requires first { Begins 95 text.now from }
    requires opens { Begins 40 text.now (from + 1) }
    requires text { Begins 34 text.now (from + 2) }
    ensures from { IfOk result (λ found. from < found.1) }
    ensures inside { IfOk result (λ found. found.1 ≤ length text.now) }
    ensures is { IfOk result (λ found. IsBisonLexeme found.0 text.now from found.1) }
{
    let end = between_quotes(text, from + 2, b'"')?.end;
    if text.get(end) != Some(&b')') {
        return Err(invalid(from));
    }
    Ok((LexemeKind::TranslatedText, end + 1))
}

/// The tag that begins at a place.
fn tag(text: &[u8], from: usize) -> Result<(LexemeKind, usize), Fault>
    requires from { from < length text.now }
    requires first { Begins 60 text.now from }
    ensures from { IfOk result (λ found. from < found.1) }
    ensures inside { IfOk result (λ found. found.1 ≤ length text.now) }
    ensures is { IfOk result (λ found. IsBisonLexeme found.0 text.now from found.1) }
{
    let end = tag_end(text, from)?;
    let tag = &text[from..end];
    if tag == b"<>".as_slice() || tag == b"<*>".as_slice() {
        return Ok((LexemeKind::AnyTag, end));
    }
    Ok((LexemeKind::Tag, end))
}

/// The lexeme that begins at a place.
pub(crate) fn lexeme_at(text: &[u8], from: usize) -> Result<(LexemeKind, usize), Fault>
    requires { from < length text.now }
    ensures from { IfOk result (λ found. from < found.1) }
    ensures inside { IfOk result (λ found. found.1 ≤ length text.now) }
    ensures is { IfOk result (λ found. IsBisonLexeme found.0 text.now from found.1) }
{
    let first = text[from];
    match first {
        b'_' if text[from..].starts_with(b"_(\"") => translated(text, from),
        b'%' => behind_percent(text, from),
        b'\\' => behind_backslash(text, from),
        b'{' => code(text, from, 1, LexemeKind::Action, Ending::Brace),
        b'<' => tag(text, from),
        b'[' => bracket(text, from),
        b'\'' => character(text, from),
        b'"' => Ok((LexemeKind::Text, between_quotes(text, from, b'"')?.end)),
        b':' => match text.get(from + 1) {
            Some(byte) if !may_follow_colon(*byte) => Err(invalid(from)),
            _ => Ok((LexemeKind::Colon, from + 1)),
        },
        b'|' => Ok((LexemeKind::Bar, from + 1)),
        b';' => Ok((LexemeKind::Semicolon, from + 1)),
        b'=' => Ok((LexemeKind::Equals, from + 1)),
        _ if is_name_start(first) => Ok((LexemeKind::Name, Run::Name.end(text, from + 1))),
        _ if first.is_ascii_digit() => number(text, from),
        _ => Err(Fault {
            kind: FaultKind::InvalidCharacter,
            span: Span::new(from, Run::Invalid.end(text, from + 1)),
        }),
    }
}
