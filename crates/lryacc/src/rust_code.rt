//! Code of Rust, which is passed over: only strings, characters, comments and braces matter in it.

ghost use Rattle.std.specs.Prelude.{◌≡◌, ℕ, ◌+◌, ◌<◌, ◌≤◌, true, false, List, length, min, IfNone, IfOk, IfSome};
ghost use Rattle.std.specs.Char.{is_ascii_digit};
ghost use Rattle.lryacc.specs.RustCode.{EndsRustCode, goes_on, is_word_byte};
ghost use Rattle.lryacc.specs.RustCodeRead.{Begins, IsHalf, IsRustCodeUpTo, LeadsOn, Settles, Stays, Takes, TakesByte};

use crate::faults::{Fault, FaultKind};
use crate::places::Span;

/// What the next byte of code stands in.
#[derive(Clone, Copy)]
enum Within {
    /// Code itself, behind bytes that it may go on.
    Code(Before),
    /// Something else.
    Piece(Piece),
}

/// What the bytes before one of code are, where it may go on.
#[derive(Clone, Copy)]
enum Before {
    /// Nothing that goes on.
    Nothing,
    /// A `/`.
    Slash,
    /// A part of a word.
    Word,
    /// A word `b` or `c`, which may go on as the prefix of a raw string.
    Prefix,
    /// The prefix of a raw string and so many `#`.
    Raw(usize),
}

/// A part of code in which braces are none.
#[derive(Clone, Copy)]
enum Piece {
    /// A string; whether a backslash stands before the byte and takes it.
    Text(bool),
    /// A raw string that ends with a quote and so many `#`.
    Raw(usize),
    /// The same behind a quote, where so many of its `#` are still to come.
    RawEnd(usize, usize),
    /// What a `'` begins.
    Quote,
    /// The same behind its first byte; whether a lifetime may begin with that.
    Quoted(bool),
    /// A character that begins with a backslash; whether the byte stands right behind that.
    Escape(bool),
    /// A comment up to the end of its line.
    Line,
    /// So many comments up to `*/`, each in the one before, behind such a byte.
    Block(usize, Half),
}

/// The byte before one of a comment, where it may begin a mark of two bytes.
#[derive(Clone, Copy)]
enum Half {
    /// Another one.
    Nothing,
    /// `/`.
    Slash,
    /// `*`.
    Star,
}

/// Code that was read up to some byte.
#[derive(Clone, Copy)]
struct RustReader {
    within: Within,
    /// How many braces are open.
    depth: usize,
    /// Where the string, character or comment in hand was opened.
    opened: usize,
}

/// Whether a word may have the byte.
fn is_word_byte(byte: u8) -> bool
    ensures { result ≡ is_word_byte byte }
{
    byte.is_ascii_alphanumeric() || byte == b'_' || byte >= 0x80
}

/// Whether the byte goes on a character of several bytes.
fn goes_on(byte: u8) -> bool
    ensures { result ≡ goes_on byte }
{
    matches!(byte, 0x80..=0xbf)
}

/// What the byte behind one of code stands in, where that one goes on what the bytes before began.
fn joined(before: Before, byte: u8) -> Option<Within>
    ensures some { IfSome result (LeadsOn byte (Within.Code before)) }
    ensures none { IfNone result (Settles before byte) }
{
    let is_word = is_word_byte(byte);
    match before {
        Before::Nothing => None,
        Before::Slash if byte == b'/' => Some(Within::Piece(Piece::Line)),
        Before::Slash if byte == b'*' => Some(Within::Piece(Piece::Block(1, Half::Nothing))),
        Before::Slash => None,
        Before::Word if is_word => Some(Within::Code(Before::Word)),
        Before::Word => None,
        Before::Prefix if byte == b'r' => Some(Within::Code(Before::Raw(0))),
        Before::Prefix if is_word => Some(Within::Code(Before::Word)),
        Before::Prefix => None,
        Before::Raw(marks) => joined_raw(marks, byte),
    }
}

/// The same behind the prefix of a raw string and so many `#`.
fn joined_raw(marks: usize, byte: u8) -> Option<Within>
    ensures some { IfSome result (LeadsOn byte (Within.Code (Before.Raw marks))) }
    ensures none { IfNone result (Settles (Before.Raw marks) byte) }
{
    if byte == b'"' {
        return Some(Within::Piece(Piece::Raw(marks)));
    }
    if byte == b'#' {
        return Some(Within::Code(Before::Raw(marks.saturating_add(1))));
    }
    if is_word_byte(byte) {
        return Some(Within::Code(Before::Word));
    }
    None
}

/// What a byte of code begins that goes on nothing.
fn begun(byte: u8) -> Before
    ensures { Begins byte result }
{
    if byte == b'/' {
        return Before::Slash;
    }
    if byte == b'r' {
        return Before::Raw(0);
    }
    if byte == b'b' || byte == b'c' {
        return Before::Prefix;
    }
    if is_word_byte(byte) {
        return Before::Word;
    }
    Before::Nothing
}

/// What the byte behind one of a string stands in.
fn behind_text(is_taken: bool, byte: u8) -> Within
    ensures { LeadsOn byte (Within.Piece (Piece.Text is_taken)) result }
{
    if is_taken {
        return Within::Piece(Piece::Text(false));
    }
    if byte == b'"' {
        return Within::Code(Before::Nothing);
    }
    if byte == b'\\' {
        return Within::Piece(Piece::Text(true));
    }
    Within::Piece(Piece::Text(false))
}

/// What the byte behind one of a raw string stands in.
fn behind_raw(marks: usize, byte: u8) -> Within
    ensures { LeadsOn byte (Within.Piece (Piece.Raw marks)) result }
{
    if byte != b'"' {
        return Within::Piece(Piece::Raw(marks));
    }
    if marks == 0 {
        return Within::Code(Before::Nothing);
    }
    Within::Piece(Piece::RawEnd(marks, marks))
}

/// What the byte behind one stands in that may be one of the `#` that end a raw string.
fn behind_raw_end(marks: usize, left: usize, byte: u8) -> Within
    ensures { LeadsOn byte (Within.Piece (Piece.RawEnd marks left)) result }
{
    if byte != b'#' {
        return behind_raw(marks, byte);
    }
    if left <= 1 {
        return Within::Code(Before::Nothing);
    }
    Within::Piece(Piece::RawEnd(marks, left - 1))
}

/// Whether a lifetime may begin with the byte.
fn may_begin_name(byte: u8) -> bool
    ensures word { result ≡ true → is_word_byte byte ≡ true }
    ensures no_digit { result ≡ true → is_ascii_digit byte ≡ false }
{
    is_word_byte(byte) && !byte.is_ascii_digit()
}

/// What the byte behind the first one that stands behind a `'` stands in; or what is wrong with that.
fn behind_quote(byte: u8) -> Result<Within, FaultKind>
    ensures { IfOk result (LeadsOn byte (Within.Piece Piece.Quote)) }
{
    if byte == b'\'' {
        return Err(FaultKind::EmptyCharacter);
    }
    if byte == b'\n' {
        return Err(FaultKind::OpenCharacter);
    }
    if byte == b'\\' {
        return Ok(Within::Piece(Piece::Escape(true)));
    }
    Ok(Within::Piece(Piece::Quoted(may_begin_name(byte))))
}

/// What a byte stands in: code, where a lifetime ends before it.
fn behind_name(within: Within, byte: u8) -> Within
    ensures { Stays byte within result }
{
    match within {
        Within::Piece(Piece::Quoted(true)) if byte != b'\'' && !goes_on(byte) => {
            Within::Code(Before::Word)
        }
        _ => within,
    }
}

/// What the byte behind one stands in that ends a character, or goes on its first one.
fn behind_quoted(is_name: bool, byte: u8) -> Result<Within, FaultKind>
    ensures { IfOk result (LeadsOn byte (Within.Piece (Piece.Quoted is_name))) }
{
    if byte == b'\'' {
        return Ok(Within::Code(Before::Nothing));
    }
    if goes_on(byte) {
        return Ok(Within::Piece(Piece::Quoted(is_name)));
    }
    Err(FaultKind::OpenCharacter)
}

/// What the byte behind one of a character that begins with a backslash stands in.
fn behind_escape(is_taken: bool, byte: u8) -> Result<Within, FaultKind>
    ensures { IfOk result (LeadsOn byte (Within.Piece (Piece.Escape is_taken))) }
{
    if byte == b'\n' {
        return Err(FaultKind::OpenCharacter);
    }
    if is_taken {
        return Ok(Within::Piece(Piece::Escape(false)));
    }
    if byte == b'\'' {
        return Ok(Within::Code(Before::Nothing));
    }
    Ok(Within::Piece(Piece::Escape(false)))
}

/// What the byte behind one of a comment up to the end of its line stands in.
fn behind_line(byte: u8) -> Within
    ensures { LeadsOn byte (Within.Piece Piece.Line) result }
{
    if byte == b'\n' {
        return Within::Code(Before::Nothing);
    }
    Within::Piece(Piece::Line)
}

/// What a byte of a comment may begin.
fn half_of(byte: u8) -> Half
    ensures { IsHalf byte result }
{
    if byte == b'/' {
        return Half::Slash;
    }
    if byte == b'*' {
        return Half::Star;
    }
    Half::Nothing
}

/// What the byte behind a `*/` stands in, before which so many comments are open.
fn behind_end(levels: usize) -> Within
    ensures { LeadsOn 47 (Within.Piece (Piece.Block levels Half.Star)) result }
{
    if levels <= 1 {
        return Within::Code(Before::Nothing);
    }
    Within::Piece(Piece::Block(levels - 1, Half::Nothing))
}

/// What the byte behind one of comments up to `*/` stands in, of which so many are open.
fn behind_block(levels: usize, half: Half, byte: u8) -> Within
    ensures { LeadsOn byte (Within.Piece (Piece.Block levels half)) result }
{
    let next = half_of(byte);
    match half {
        Half::Star if byte == b'/' => behind_end(levels),
        Half::Star => Within::Piece(Piece::Block(levels, next)),
        Half::Slash if byte == b'*' => {
            Within::Piece(Piece::Block(levels.saturating_add(1), Half::Nothing))
        }
        Half::Slash => Within::Piece(Piece::Block(levels, next)),
        Half::Nothing => Within::Piece(Piece::Block(levels, next)),
    }
}

/// What the byte behind one of a piece stands in; or why the piece can't go on so.
fn behind_piece(piece: Piece, byte: u8) -> Result<Within, FaultKind>
    ensures { IfOk result (LeadsOn byte (Within.Piece piece)) }
{
    match piece {
        Piece::Text(is_taken) => Ok(behind_text(is_taken, byte)),
        Piece::Raw(marks) => Ok(behind_raw(marks, byte)),
        Piece::RawEnd(marks, left) => Ok(behind_raw_end(marks, left, byte)),
        Piece::Quote => behind_quote(byte),
        Piece::Quoted(is_name) => behind_quoted(is_name, byte),
        Piece::Escape(is_taken) => behind_escape(is_taken, byte),
        Piece::Line => Ok(behind_line(byte)),
        Piece::Block(levels, half) => Ok(behind_block(levels, half, byte)),
    }
}

/// Where what begins with the byte at a place was opened.
fn opening(within: Within, at: usize) -> usize {
    match within {
        Within::Piece(Piece::Block(..)) => at.saturating_sub(1),
        _ => at,
    }
}

impl RustReader {
    /// Nothing was read.
    fn new() -> RustReader
        ensures { (text : List ℕ) (from : ℕ) → IsRustCodeUpTo text from from result }
    {
        RustReader {
            within: Within::Code(Before::Nothing),
            depth: 0,
            opened: 0,
        }
    }

    /// What was read with the byte at a place of the text; None where the code ends with it.
    fn step(self, text: &[u8], at: usize) -> Result<Option<RustReader>, Fault>
        requires { at < length text.now }
        ensures { IfOk result (λ found. (from : ℕ)
            → IsRustCodeUpTo text.now from at self → Takes text.now from at found) }
    {
        let byte = text[at];
        match behind_name(self.within, byte) {
            Within::Code(before) => Ok(self.behind_code(before, at, byte)),
            Within::Piece(piece) => match behind_piece(piece, byte) {
                Ok(within) => Ok(Some(self.with(within, self.opened))),
                Err(kind) => {
                    let span = Span::new(self.opened, at);
                    Err(Fault { kind, span })
                }
            },
        }
    }

    /// What was read with a byte of code itself.
    fn behind_code(self, before: Before, at: usize, byte: u8) -> Option<RustReader>
        requires { at < usize.MAX }
        ensures { TakesByte at byte before self result }
    {
        match joined(before, byte) {
            Some(within) => Some(self.with(within, opening(within, at))),
            None => self.behind_byte(at, byte),
        }
    }

    /// What was read with a byte of code itself that goes on nothing.
    fn behind_byte(self, at: usize, byte: u8) -> Option<RustReader>
        requires { at < usize.MAX }
        ensures { TakesByte at byte Before.Nothing self result }
    {
        match byte {
            b'"' => Some(self.with(Within::Piece(Piece::Text(false)), at)),
            b'\'' => Some(self.with(Within::Piece(Piece::Quote), at)),
            b'{' => Some(self.with_opened()),
            b'}' => self.with_closed(),
            _ => Some(self.with(Within::Code(begun(byte)), at)),
        }
    }

    /// The same, where the next byte stands in something else that was opened at a place.
    fn with(self, within: Within, opened: usize) -> RustReader
        ensures { result ≡ record self { within = within; opened = opened } }
    {
        RustReader {
            within,
            opened,
            ..self
        }
    }

    /// The same behind a brace that opens.
    fn with_opened(self) -> RustReader
        ensures { result ≡ record self {
          within = Within.Code Before.Nothing;
          depth = min (self.depth + 1) usize.MAX;
        } }
    {
        RustReader {
            within: Within::Code(Before::Nothing),
            depth: self.depth.saturating_add(1),
            opened: self.opened,
        }
    }

    /// The same behind a brace that closes; None where none is open.
    fn with_closed(self) -> Option<RustReader>
        ensures none { IfNone result (self.depth ≡ 0) }
        ensures within { IfSome result (λ next. next.within ≡ Within.Code Before.Nothing) }
        ensures depth { IfSome result (λ next. self.depth ≡ next.depth + 1) }
    {
        let depth = self.depth.checked_sub(1)?;
        Some(RustReader {
            within: Within::Code(Before::Nothing),
            depth,
            opened: self.opened,
        })
    }

    /// The fault that what was opened is never closed, where the code begins with the brace at `opening`.
    fn fault_at_end(self, opening: Span) -> Fault {
        let kind = match self.within {
            Within::Code(_) | Within::Piece(Piece::Line) => {
                return Fault {
                    kind: FaultKind::OpenBrace,
                    span: opening,
                };
            }
            Within::Piece(Piece::Text(_) | Piece::Raw(_) | Piece::RawEnd(..)) => {
                FaultKind::OpenString
            }
            Within::Piece(Piece::Block(..)) => FaultKind::OpenComment,
            Within::Piece(Piece::Quote | Piece::Quoted(_) | Piece::Escape(_)) => {
                FaultKind::OpenCharacter
            }
        };
        let span = Span::new(self.opened, self.opened.saturating_add(1));
        Fault { kind, span }
    }
}

/// The place behind the brace that closes the one at `opening`, where the code between them begins at `from`.
pub(crate) fn rust_code_end(text: &[u8], opening: Span, from: usize) -> Result<usize, Fault>
    requires { from ≤ length text.now }
    ensures from { IfOk result (λ end. from < end) }
    ensures inside { IfOk result (λ end. end ≤ length text.now) }
    ensures code { IfOk result (EndsRustCode text.now from) }
{
    let mut reader = RustReader::new();
    for at in from..text.len() {
        match reader.step(text, at)? {
            Some(next) => reader = next,
            None => return Ok(at + 1),
        }
    }
    Err(reader.fault_at_end(opening))
}
