//! Characters and texts in quotes.

ghost use Rattle.std.specs.Prelude.{◌≡◌, ◌≢◌, ℕ, ◌+◌, ◌<◌, ◌≤◌, length, min, slice_index, slice_range, IfOk, IfSome};
ghost use Rattle.std.specs.Str.Parse.{AllDigits, digits_value};
ghost use Rattle.lryacc.specs.Quotes.{AreDigits, IsEscape, IsLetterFor, IsNoDigit};
ghost use Rattle.lryacc.specs.QuotesRead.{AreRead, IsCapped};

use crate::faults::{Fault, FaultKind};
use crate::places::Span;

/// The number of the digits from a place on, at most so many, and the place behind them.
fn digits(text: &[u8], from: usize, most: usize, radix: u32) -> (u32, usize)
    requires from { from ≤ length text.now }
    requires radix { 2 ≤ radix }
    requires digits { radix ≤ 36 }
    ensures from { from ≤ result.1 }
    ensures inside { result.1 ≤ length text.now }
    ensures most { result.1 ≤ from + most }
    ensures digits { AllDigits radix (slice_range text.now from result.1) }
    ensures all { result.1 < from + most → IsNoDigit radix text.now result.1 }
    ensures value { result.0
        ≡ min (digits_value radix (slice_range text.now from result.1)) u32.MAX }
{
    let stop = text.len().min(from.saturating_add(most));
    let mut value: u32 = 0;
    for at in from..stop {
        match char::from(text[at]).to_digit(radix) {
            Some(digit) => value = value.saturating_mul(radix).saturating_add(digit),
            None => return (value, at),
        }
    }
    (value, stop)
}

/// The number of hexadecimal digits from a place on, at most so many, and the place behind them; None where there are fewer than
/// the least.
fn hexadecimal(text: &[u8], from: usize, least: usize, most: usize) -> Option<(u32, usize)>
    requires { from ≤ length text.now }
    ensures from { IfSome result (λ found. from ≤ found.1) }
    ensures inside { IfSome result (λ found. found.1 ≤ length text.now) }
    ensures least { IfSome result (λ found. from + least ≤ found.1) }
    ensures most { IfSome result (λ found. found.1 ≤ from + most) }
    ensures all { IfSome result (λ found.
        found.1 < from + most → IsNoDigit 16 text.now found.1) }
    ensures is { IfSome result (λ found. IsCapped found.0 (AreDigits 16 text.now from found.1)) }
{
    let (number, end) = digits(text, from, most, 16);
    if end - from < least {
        return None;
    }
    Some((number, end))
}

/// The byte that a letter behind a backslash stands for by itself.
fn letter_value(letter: u8) -> Option<u8>
    ensures { IfSome result (IsLetterFor letter) }
{
    match letter {
        b'a' => Some(7),
        b'b' => Some(8),
        b'f' => Some(12),
        b'n' => Some(b'\n'),
        b'r' => Some(b'\r'),
        b't' => Some(b'\t'),
        b'v' => Some(11),
        b'\\' | b'\'' | b'"' | b'?' => Some(letter),
        _ => None,
    }
}

/// The number of an escape whose backslash stands at a place, and the place behind it; None where no escape begins so.
fn escape_number(text: &[u8], from: usize) -> Option<(u32, usize)>
    requires { from < length text.now }
    ensures from { IfSome result (λ found. from < found.1) }
    ensures inside { IfSome result (λ found. found.1 ≤ length text.now) }
    ensures is { IfSome result (λ found. IsCapped found.0 (IsEscape text.now from found.1)) }
{
    let letter = *text.get(from + 1)?;
    let behind = from + 2;
    if let Some(byte) = letter_value(letter) {
        return Some((u32::from(byte), behind));
    }
    match letter {
        b'0'..=b'7' => Some(digits(text, from + 1, 3, 8)),
        b'x' => hexadecimal(text, behind, 1, text.len()),
        b'u' => hexadecimal(text, behind, 4, 4),
        b'U' => hexadecimal(text, behind, 8, 8),
        _ => None,
    }
}

/// The byte that the escape whose backslash stands at a place is, and the place behind it.
fn escape(text: &[u8], from: usize) -> Result<(u8, usize), Fault>
    requires { from < length text.now }
    ensures from { IfOk result (λ found. from < found.1) }
    ensures inside { IfOk result (λ found. found.1 ≤ length text.now) }
    ensures some { IfOk result (λ found. 0 < found.0) }
    ensures byte { IfOk result (λ found. found.0 < 256) }
    ensures is { IfOk result (λ found. IsEscape text.now from found.1 found.0) }
{
    let Some((number, end)) = escape_number(text, from) else {
        let span = Span::new(from, from + 1);
        return Err(Fault {
            kind: FaultKind::UnknownEscape,
            span,
        });
    };
    match u8::try_from(number) {
        Ok(byte) if byte != 0 => Ok((byte, end)),
        _ => {
            let span = Span::new(from, end);
            Err(Fault {
                kind: FaultKind::EscapeOutOfRange,
                span,
            })
        }
    }
}

/// What was read between quotes.
#[derive(Clone, Copy)]
pub(crate) struct Quoted {
    /// The place behind the closing quote.
    pub(crate) end: usize,
    /// How many bytes it is.
    pub(crate) bytes: usize,
    /// The last of them; 0 where there is none.
    pub(crate) last: u8,
}

/// What stands behind the quote at a place, up to the next such quote.
pub(crate) fn between_quotes(text: &[u8], from: usize, quote: u8) -> Result<Quoted, Fault>
    requires from { from < length text.now }
    requires opens { slice_index text.now from ≡ quote }
    ensures from { IfOk result (λ found. from < found.end) }
    ensures inside { IfOk result (λ found. found.end ≤ length text.now) }
    ensures is { IfOk result (AreRead quote text.now from) }
{
    let mut bytes: usize = 0;
    let mut last = 0;
    // The place behind the last escape.
    let mut behind = from;
    for at in from + 1..text.len() {
        if at < behind {
            continue;
        }
        let byte = text[at];
        if byte == quote {
            return Ok(Quoted {
                end: at + 1,
                bytes,
                last,
            });
        }
        if byte == b'\n' {
            break;
        }
        if byte == b'\\' {
            (last, behind) = escape(text, at)?;
        } else {
            last = byte;
        }
        bytes = bytes.saturating_add(1);
    }
    let kind = if quote == b'"' {
        FaultKind::OpenText
    } else {
        FaultKind::OpenCharacter
    };
    let span = Span::new(from, from + 1);
    Err(Fault { kind, span })
}
