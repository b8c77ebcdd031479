//! Code of a host language, which is passed over: only quotes, comments and braces matter in it.

ghost use Rattle.std.specs.Prelude.{◌≡◌, ℕ, ◌+◌, ◌<◌, ◌≤◌, false, None, List, length, min, IfNone, IfOk, IfSome, IsTrue};
ghost use Rattle.lryacc.specs.Code.{EndsCode, is_mark};
ghost use Rattle.lryacc.specs.CodeRead.{IsCodeUpTo, IsMarkBehind, LeadsOn, Takes, TakesByte, TakesMark};
ghost use Rattle.lryacc.specs.Comments.{is_line_blank};

use crate::faults::{Fault, FaultKind};
use crate::places::Span;

/// What ends a piece of code.
#[derive(Clone, Copy, PartialEq, Eq)]
pub(crate) enum Ending {
    /// The brace that closes the one before the code.
    Brace,
    /// `%}`.
    PrologueMark,
    /// The end of the file.
    File,
}

/// How much of a backslash and what belongs to it was read.
#[derive(Clone, Copy)]
enum Escape {
    /// Nothing.
    None,
    /// The backslash.
    Begun,
    /// The backslash and blanks behind it, which belong to it where the line ends behind them.
    Blanks,
}

/// What the next byte of code stands in.
#[derive(Clone, Copy)]
enum Within {
    /// Code itself; the byte before, where it may still make a mark of two bytes with the next one.
    Code(Option<u8>),
    /// What stands between two of these quotes, the first of them at this place.
    Quotes(u8, usize, Escape),
    /// A comment up to the end of its line.
    Line(Escape),
    /// The comment up to `*/` that begins at this place; whether the byte before is `*`.
    Block(usize, bool),
}

/// A mark of two bytes.
#[derive(Clone, Copy)]
enum Mark {
    /// `//`.
    Line,
    /// `/*`.
    Block,
    /// `<<`, which opens nothing.
    Shift,
    /// `<%`, which is `{`.
    Opens,
    /// `%>`, which is `}` but ends no code.
    Closes,
    /// `%}`, where it ends the code.
    Ends,
}

/// Code that was read up to some byte.
#[derive(Clone, Copy)]
pub(crate) struct CodeReader {
    within: Within,
    /// How many braces were opened.
    opened: usize,
    /// How many were closed: more than were opened only behind a `%>` too many.
    closed: usize,
}

/// Whether the byte is a blank within a line, or the return before the end of one.
fn is_line_blank(byte: u8) -> bool
    ensures { result ≡ is_line_blank byte }
{
    matches!(byte, b' ' | b'\t' | b'\r' | 0x0b | 0x0c)
}

/// The mark that a byte of code makes with the one before.
fn mark_behind(before: Option<u8>, second: u8, ending: Ending) -> Option<Mark>
    ensures none { IfNone result (IfSome before (λ first. is_mark ending first second ≡ false)) }
    ensures some { IfSome result (λ mark. IsMarkBehind ending mark before second) }
{
    let first = before?;
    match (first, second) {
        (b'/', b'/') => Some(Mark::Line),
        (b'/', b'*') => Some(Mark::Block),
        (b'<', b'<') => Some(Mark::Shift),
        (b'<', b'%') => Some(Mark::Opens),
        (b'%', b'>') => Some(Mark::Closes),
        (b'%', b'}') if ending == Ending::PrologueMark => Some(Mark::Ends),
        _ => None,
    }
}

/// What the byte behind one between quotes that belongs to no backslash stands in; None where the line ends with that one.
fn behind_plain(quote: u8, opened: usize, byte: u8) -> Option<Within>
    ensures { IfSome result (LeadsOn byte (Within.Quotes quote opened Escape.None)) }
{
    if byte == quote {
        return Some(Within::Code(None));
    }
    if byte == b'\n' {
        return None;
    }
    if byte == b'\\' {
        return Some(Within::Quotes(quote, opened, Escape::Begun));
    }
    Some(Within::Quotes(quote, opened, Escape::None))
}

/// What the byte behind one between quotes stands in; None where the line ends within them.
fn behind_quoted(quote: u8, opened: usize, escape: Escape, byte: u8) -> Option<Within>
    ensures { IfSome result (LeadsOn byte (Within.Quotes quote opened escape)) }
{
    let is_blank = is_line_blank(byte);
    match escape {
        Escape::None => behind_plain(quote, opened, byte),
        Escape::Begun if is_blank => Some(Within::Quotes(quote, opened, Escape::Blanks)),
        Escape::Begun => Some(Within::Quotes(quote, opened, Escape::None)),
        Escape::Blanks if is_blank => Some(Within::Quotes(quote, opened, Escape::Blanks)),
        Escape::Blanks if byte == b'\n' => Some(Within::Quotes(quote, opened, Escape::None)),
        Escape::Blanks => behind_plain(quote, opened, byte),
    }
}

/// What the byte behind one of a comment up to the end of its line stands in.
fn behind_line(escape: Escape, byte: u8) -> Within
    ensures { LeadsOn byte (Within.Line escape) result }
{
    if byte == b'\\' {
        return Within::Line(Escape::Begun);
    }
    match escape {
        Escape::None if byte == b'\n' => Within::Code(None),
        Escape::None => Within::Line(Escape::None),
        Escape::Begun | Escape::Blanks if is_line_blank(byte) => Within::Line(Escape::Blanks),
        Escape::Begun | Escape::Blanks => Within::Line(Escape::None),
    }
}

/// What the byte behind one of a comment up to `*/` stands in.
fn behind_block(opened: usize, is_star: bool, byte: u8) -> Within
    ensures { LeadsOn byte (Within.Block opened is_star) result }
{
    if is_star && byte == b'/' {
        return Within::Code(None);
    }
    Within::Block(opened, byte == b'*')
}

/// The fault that the line or the file ends at a place within quotes, the first of them at another place.
fn open_quotes(quote: u8, opened: usize, end: usize) -> Fault {
    let kind = match quote {
        b'\'' => FaultKind::OpenCharacter,
        _ => FaultKind::OpenText,
    };
    let span = Span::new(opened, end);
    Fault { kind, span }
}

impl CodeReader {
    /// Nothing was read.
    pub(crate) fn new() -> CodeReader
        ensures { (ending : Ending) (text : List ℕ) (from : ℕ)
            → IsCodeUpTo ending text from from result }
    {
        CodeReader {
            within: Within::Code(None),
            opened: 0,
            closed: 0,
        }
    }

    /// Whether the next byte stands outside of quotes and comments.
    pub(crate) fn is_in_code(self) -> bool {
        matches!(self.within, Within::Code(_))
    }

    /// What was read with the byte at a place of the text; None where the code ends with it.
    pub(crate) fn step(
        self,
        text: &[u8],
        at: usize,
        ending: Ending,
    ) -> Result<Option<CodeReader>, Fault>
        requires { at < length text.now }
        ensures { IfOk result (λ found. (from : ℕ)
            → IsCodeUpTo ending text.now from at self → Takes ending text.now from at found) }
    {
        let byte = text[at];
        match self.within {
            Within::Code(before) => Ok(self.behind_code(before, at, byte, ending)),
            Within::Quotes(quote, opened, escape) => {
                match behind_quoted(quote, opened, escape, byte) {
                    Some(within) => Ok(Some(self.with(within))),
                    None => Err(open_quotes(quote, opened, at)),
                }
            }
            Within::Line(escape) => Ok(Some(self.with(behind_line(escape, byte)))),
            Within::Block(opened, is_star) => {
                Ok(Some(self.with(behind_block(opened, is_star, byte))))
            }
        }
    }

    /// What was read with a byte of code itself, behind one that may make a mark with it.
    fn behind_code(
        self,
        before: Option<u8>,
        at: usize,
        byte: u8,
        ending: Ending,
    ) -> Option<CodeReader>
        requires { at < usize.MAX }
        ensures { TakesByte ending at byte before self result }
    {
        match mark_behind(before, byte, ending) {
            Some(mark) => self.behind_mark(mark, at),
            None => self.behind_byte(at, byte, ending),
        }
    }

    /// What was read with the second byte of a mark.
    fn behind_mark(self, mark: Mark, at: usize) -> Option<CodeReader>
        requires { at < usize.MAX }
        ensures { TakesMark at mark self result }
    {
        match mark {
            Mark::Line => Some(self.with(Within::Line(Escape::None))),
            Mark::Block => Some(self.with(Within::Block(at.saturating_sub(1), false))),
            Mark::Shift => Some(self.with(Within::Code(None))),
            Mark::Opens => Some(self.with_opened()),
            Mark::Closes => Some(self.with_closed()),
            Mark::Ends => None,
        }
    }

    /// What was read with a byte that makes no mark with the one before.
    fn behind_byte(self, at: usize, byte: u8, ending: Ending) -> Option<CodeReader>
        requires { at < usize.MAX }
        ensures { TakesByte ending at byte None self result }
    {
        match byte {
            b'{' => Some(self.with_opened()),
            b'}' if self.may_end(ending) => None,
            b'}' => Some(self.with_closed()),
            b'\'' | b'"' => Some(self.with(Within::Quotes(byte, at, Escape::None))),
            _ => Some(self.with(Within::Code(Some(byte)))),
        }
    }

    /// Whether a `}` ends the code here.
    fn may_end(self, ending: Ending) -> bool
        ensures ends { IsTrue result → (ending ≡ Ending.Brace) × (self.opened ≤ self.closed) }
        ensures goes_on { result ≡ false → ending ≡ Ending.Brace → self.closed < self.opened }
    {
        matches!(ending, Ending::Brace) && self.opened <= self.closed
    }

    /// The same, where the next byte stands in something else.
    fn with(self, within: Within) -> CodeReader
        ensures { result ≡ record self { within = within } }
    {
        CodeReader { within, ..self }
    }

    /// The same behind a brace that opens.
    fn with_opened(self) -> CodeReader
        ensures { result ≡ record self {
          within = Within.Code None;
          opened = min (self.opened + 1) usize.MAX;
        } }
    {
        CodeReader {
            within: Within::Code(None),
            opened: self.opened.saturating_add(1),
            closed: self.closed,
        }
    }

    /// The same behind a brace that closes.
    fn with_closed(self) -> CodeReader
        ensures { result ≡ record self {
          within = Within.Code None;
          closed = min (self.closed + 1) usize.MAX;
        } }
    {
        CodeReader {
            within: Within::Code(None),
            opened: self.opened,
            closed: self.closed.saturating_add(1),
        }
    }

    /// Why the file may not end here, where the code begins with the mark at `opening`.
    fn fault_at_end(self, opening: Span, end: usize, ending: Ending) -> Option<Fault>
        ensures { IfNone result ((text : List ℕ) (from : ℕ)
            → IsCodeUpTo ending text from (length text) self
            → EndsCode ending text from (length text)) }
    {
        let (kind, span) = match self.within {
            Within::Quotes(quote, opened, _) => return Some(open_quotes(quote, opened, end)),
            Within::Block(opened, _) => (FaultKind::OpenComment, Span::new(opened, end)),
            Within::Code(_) | Within::Line(_) => match ending {
                Ending::Brace => (FaultKind::OpenBrace, opening),
                Ending::PrologueMark => (FaultKind::OpenPrologue, opening),
                Ending::File => return None,
            },
        };
        Some(Fault { kind, span })
    }
}

/// The place behind a piece of code that begins at `from`, behind the mark at `opening`.
pub(crate) fn code_end(
    text: &[u8],
    opening: Span,
    from: usize,
    ending: Ending,
) -> Result<usize, Fault>
    requires { from ≤ length text.now }
    ensures from { IfOk result (λ end. from ≤ end) }
    ensures inside { IfOk result (λ end. end ≤ length text.now) }
    ensures code { IfOk result (EndsCode ending text.now from) }
{
    let mut reader = CodeReader::new();
    for at in from..text.len() {
        match reader.step(text, at, ending)? {
            Some(next) => reader = next,
            None => return Ok(at + 1),
        }
    }
    match reader.fault_at_end(opening, text.len(), ending) {
        Some(fault) => Err(fault),
        None => Ok(text.len()),
    }
}
