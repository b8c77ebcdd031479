//! Columns of a line, and places of a file of which the column is known.

ghost use Rattle.std.specs.Prelude.{◌≡◌, ◌<◌, ◌++◌, length, All, IfOk};
ghost use Rattle.std.specs.List.{fold};
ghost use Rattle.std.specs.Str.{IsUtf8, StartsWithNoChar, chars};
ghost use Rattle.lrdiagnostics.specs.Positions.{column_after, EndsBefore};
ghost use Rattle.lrdiagnostics.specs.KnownColumns.{IsKnown};

use memchr::memrchr;
use std::alloc::{AllocError, Global};
use std::str;
use unicode_width::UnicodeWidthChar;

/// How many bytes are counted at once at the most.
const STRIDE: usize = 1024;

/// A place of a file, and its column.
#[derive(Clone, Copy)]
pub(crate) struct KnownColumn {
    pub(crate) at: usize,
    pub(crate) column: usize,
}

/// The column behind a character that begins at a column.
fn column_after(column: usize, character: char) -> usize
    ensures { result ≡ column_after column character }
{
    match character {
        '\t' => (column.saturating_sub(1) / 8 * 8).saturating_add(9),
        _ => column.saturating_add(character.width().unwrap_or(0)),
    }
}

/// The column behind a text that begins at a column.
fn column_behind(column: usize, text: &str) -> usize
    ensures { result ≡ fold column_after column (chars text.now) }
{
    text.chars().fold(column, column_after)
}

/// The text at the front of bytes, and the bytes behind it, of which none are left or at which no character begins.
fn split_text(bytes: &[u8]) -> (&str, &[u8])
    ensures whole { result.0.now ++ result.1.now ≡ bytes.now }
    ensures utf8 { IsUtf8 result.0.now }
    ensures stray { StartsWithNoChar result.1.now }
{
    match str::from_utf8(bytes) {
        Ok(text) => (text, &[]),
        Err(error) => {
            let (front, others) = bytes.split_at(error.valid_up_to());
            (str::from_utf8(front).unwrap_or(""), others)
        }
    }
}

/// The column behind bytes of a line that begin at a column.
pub(crate) fn column_of(bytes: &[u8], from: usize) -> usize
    ensures { EndsBefore bytes.now from result }
{
    let mut column = from;
    let mut rest = bytes;
    loop {
        let (text, others) = split_text(rest);
        column = column_behind(column, text);
        let [_, behind @ ..] = others else {
            return column;
        };
        column = column.saturating_add(1);
        rest = behind;
    }
}

impl KnownColumn {
    /// The next one: behind the text that follows, or from its last line feed on, or behind one byte at which no character begins.
    fn next(self, bytes: &[u8]) -> KnownColumn
        requires known { IsKnown bytes.now self.at self.column }
        requires more { self.at < length bytes.now }
        ensures known { IsKnown bytes.now result.at result.column }
        ensures further { self.at < result.at }
    {
        let (_, rest) = bytes.split_at(self.at);
        let (soon, _) = rest.split_at(rest.len().min(STRIDE));
        let (text, _) = split_text(soon);
        if text.is_empty() {
            return KnownColumn {
                at: self.at + 1,
                column: self.column.saturating_add(1),
            };
        }
        match memrchr(b'\n', text.as_bytes()) {
            Some(feed) => KnownColumn {
                at: self.at + feed + 1,
                column: 1,
            },
            None => KnownColumn {
                at: self.at + text.len(),
                column: column_behind(self.column, text),
            },
        }
    }
}

/// Places of a file of which the column is known, upwards: from each to the next there are `STRIDE` bytes, but less than twice
/// as many.
pub(crate) fn known_columns(alloc: Global, bytes: &[u8]) -> Result<Vec<KnownColumn>, AllocError>
    ensures { IfOk result (λ all.
        All (λ known. IsKnown bytes.now known.at known.column) all.items) }
{
    let mut all = Vec::new(alloc);
    let mut here = KnownColumn { at: 0, column: 1 };
    let mut last = 0;
    while here.at < bytes.len() {
        here = here.next(bytes);
        if here.at.saturating_sub(last) >= STRIDE {
            all.push(here)?;
            last = here.at;
        }
    }
    Ok(all)
}
