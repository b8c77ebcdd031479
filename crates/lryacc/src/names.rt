//! The names of symbols in a grammar.

ghost use Rattle.std.specs.Prelude.{◌≡◌, ℕ, ◌&&◌, ◌++◌, not, nat_eq, nat_lt, false, IfOk, MatchOption, OnOk, string_bytes};
ghost use Rattle.std.specs.List.{flat_map};
ghost use Rattle.lryacc.specs.NamedSymbols.{IsCharacterText, IsTextOf, escaped_byte, is_plain};
ghost use Rattle.lryacc.specs.Quotes.{IsLetterFor};

use std::alloc::{AllocError, Global};
use std::str;

/// What begins a byte that is written by its number. No text for Bison holds it, since digits stand behind `\x` there.
const ESCAPE: &str = "\\x{";

/// The text of a name. Where it is no UTF-8, each byte of it that is not ASCII, and each backslash, is written by its number, as
/// in `\x{E9}`. So they are in a name that holds such a beginning itself: names of other bytes have other texts.
pub(crate) fn name_text(alloc: Global, name: &[u8]) -> Result<String, AllocError>
    ensures { IfOk result (λ text. IsTextOf name.now (string_bytes text)) }
{
    match str::from_utf8(name) {
        Ok(text) if !text.contains(ESCAPE) => String::from_str(alloc, text),
        _ => escaped(alloc, name),
    }
}

/// A name with its backslashes, and its bytes that are not ASCII, written by their numbers.
fn escaped(alloc: Global, name: &[u8]) -> Result<String, AllocError>
    ensures { IfOk result (λ text. string_bytes text ≡ flat_map escaped_byte name.now) }
{
    let mut text = String::new(alloc);
    for byte in name {
        add_escaped(&mut text, *byte)?;
    }
    Ok(text)
}

/// Whether a byte is written by itself.
fn is_kept(byte: u8) -> bool
    ensures { result ≡ (nat_lt byte 128 && not (nat_eq byte 92)) }
{
    byte.is_ascii() && byte != b'\\'
}

/// Adds a byte of a name.
fn add_escaped(text: &mut String, byte: u8) -> Result<(), AllocError>
    ensures { OnOk result (string_bytes text.new ≡ string_bytes text.old ++ escaped_byte byte) }
{
    if is_kept(byte) {
        return text.push(char::from(byte));
    }
    let number = format!(in *text.allocator(); "{ESCAPE}{byte:02X}}}")?;
    text.push_str(number.as_str())
}

/// Whether a byte stands by itself between quotes.
fn is_plain(byte: u8) -> bool
    ensures { result ≡ is_plain byte }
{
    matches!(byte, b' '..=b'~') && !matches!(byte, b'\'' | b'\\')
}

/// The letter that is a byte behind a backslash, if one is.
fn letter_for(byte: u8) -> Option<char>
    requires { is_plain byte ≡ false }
    ensures { MatchOption result
        ((letter : ℕ) → ¬ IsLetterFor letter byte) (λ letter. IsLetterFor letter byte) }
{
    match byte {
        7 => Some('a'),
        8 => Some('b'),
        b'\t' => Some('t'),
        b'\n' => Some('n'),
        11 => Some('v'),
        12 => Some('f'),
        b'\r' => Some('r'),
        b'\'' => Some('\''),
        b'\\' => Some('\\'),
        _ => None,
    }
}

/// The byte between quotes, as Bison tells it: by an escape where it does not print.
pub(crate) fn character_text(alloc: Global, byte: u8) -> Result<String, AllocError>
    ensures { IfOk result (λ text. IsCharacterText byte (string_bytes text)) }
{
    if is_plain(byte) {
        return format!(in alloc; "'{}'", char::from(byte));
    }
    match letter_for(byte) {
        Some(letter) => format!(in alloc; "'\\{letter}'"),
        None => format!(in alloc; "'\\{byte:03o}'"),
    }
}
