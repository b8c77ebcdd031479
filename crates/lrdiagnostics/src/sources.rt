//! Lines and columns of a file.

ghost use Rattle.std.specs.Prelude.{◌≡◌, ◌+◌, ◌-◌, ◌<◌, ◌≤◌, ℕ, List, take, drop, length, slice_index, All, IfOk, IfSome};
ghost use Rattle.std.specs.List.{count_by};
ghost use Rattle.lrdiagnostics.specs.Positions.{AreFeeds, is_feed, line_of, front_of, EndsBefore};
ghost use Rattle.lrdiagnostics.specs.KnownColumns.{IsKnown};

use crate::columns::{KnownColumn, column_of, known_columns};
use memchr::memchr_iter;
use std::alloc::{AllocError, Global};

/// A file: its name, its bytes, where its line feeds stand, and of which places the column is known.
#[derive(Drop)]
pub struct Source<'a> {
    pub name: &'a str,
    pub bytes: &'a [u8],
    feeds: Vec<usize>,
    known: Vec<KnownColumn>,
    ghost placed: { AreFeeds bytes.now (length bytes.now) feeds.items },
    ghost counted: { All (λ one. IsKnown bytes.now one.at one.column) known.items },
}

/// A place in a file, as it is told.
#[derive(Clone, Copy, Debug, PartialEq, Eq)]
pub struct Position {
    /// From 1.
    pub line: usize,
    /// From 1. A tab reaches to the next multiple of 8.
    pub column: usize,
}

/// The places of the line feeds.
fn line_feeds(alloc: Global, bytes: &[u8]) -> Result<Vec<usize>, AllocError>
    ensures { IfOk result (λ feeds. AreFeeds bytes.now (length bytes.now) feeds.items) }
{
    memchr_iter(b'\n', bytes).collect(alloc)
}

impl<'a> Source<'a> {
    /// The file of that name.
    pub fn new(alloc: Global, name: &'a str, bytes: &'a [u8]) -> Result<Source<'a>, AllocError>
        ensures name { IfOk result (λ source. source.name.now ≡ name.now) }
        ensures bytes { IfOk result (λ source. source.bytes.now ≡ bytes.now) }
    {
        let feeds = line_feeds(alloc, bytes)?;
        let known = known_columns(alloc, bytes)?;
        Ok(Source {
            name,
            bytes,
            feeds,
            known,
        })
    }

    /// How many line feeds stand before a place.
    fn feeds_before(&self, at: usize) -> usize
        ensures { result ≡ count_by is_feed (take at self.now.bytes.now) }
    {
        self.feeds.partition_point(|feed| *feed < at)
    }

    /// Where the line of that number begins, from 0.
    fn start_of(&self, line: usize) -> usize
        ensures first { line ≡ 0 → result ≡ 0 }
        ensures behind { 0 < line → line ≤ length self.now.feeds.items
            → result ≡ slice_index self.now.feeds.items (line - 1) + 1 }
    {
        match line.checked_sub(1) {
            Some(feed) => match self.feeds.get(feed) {
                Some(feed) => feed.saturating_add(1),
                None => self.bytes.len(),
            },
            None => 0,
        }
    }

    /// The last place from a start up to an end of which the column is known.
    fn last_known(&self, start: usize, end: usize) -> Option<KnownColumn>
        ensures known { IfSome result (λ last. IsKnown self.now.bytes.now last.at last.column) }
        ensures behind { IfSome result (λ last. start ≤ last.at) }
        ensures before { IfSome result (λ last. last.at ≤ end) }
    {
        let count = self.known.partition_point(|known| known.at <= end);
        if count == 0 {
            return None;
        }
        let last = self.known[count - 1];
        if start <= last.at && last.at <= end {
            Some(last)
        } else {
            None
        }
    }

    /// The last place up to an end of which the column is known in the line of the end.
    fn known_before(&self, end: usize) -> KnownColumn
        requires { end ≤ length self.now.bytes.now }
        ensures within { result.at ≤ end }
        ensures goes_on { (counted behind : ℕ)
            → EndsBefore (front_of self.now.bytes.now end) 1 counted
            → EndsBefore (drop result.at (take end self.now.bytes.now)) result.column behind
            → counted ≡ behind }
    {
        let start = self.start_of(self.feeds_before(end));
        match self.last_known(start, end) {
            Some(last) => last,
            None => KnownColumn {
                at: start,
                column: 1,
            },
        }
    }

    /// The column of a place.
    fn column(&self, at: usize) -> usize
        ensures { EndsBefore (front_of self.now.bytes.now at) 1 result }
    {
        let bytes = self.bytes;
        let end = at.min(bytes.len());
        let known = self.known_before(end);
        let (before, _) = bytes.split_at(end);
        let (_, rest) = before.split_at(known.at);
        column_of(rest, known.column)
    }

    /// The number of the line of a place, from 1.
    pub fn line(&self, at: usize) -> usize
        ensures { result ≡ line_of self.now.bytes.now at }
    {
        self.feeds_before(at) + 1
    }

    /// Line and column of a place.
    pub fn position(&self, at: usize) -> Position
        ensures line { result.line ≡ line_of self.now.bytes.now at }
        ensures column { EndsBefore (front_of self.now.bytes.now at) 1 result.column }
    {
        Position {
            line: self.line(at),
            column: self.column(at),
        }
    }

    /// Where the line of a place begins.
    pub fn line_start(&self, at: usize) -> usize {
        self.start_of(self.feeds_before(at))
    }

    /// Where the line of a place ends: at its line feed, or at the carriage return before that.
    pub fn line_end(&self, at: usize) -> usize {
        let start = self.line_start(at);
        let feed = self.feeds.get(self.feeds_before(at)).copied();
        let end = feed.unwrap_or(self.bytes.len());
        match self.part(start, end).last() {
            Some(b'\r') => end.saturating_sub(1),
            _ => end,
        }
    }

    /// The bytes from a place up to another.
    pub fn part(&self, start: usize, end: usize) -> &'a [u8] {
        let bytes = self.bytes;
        bytes.get(start..end).unwrap_or(b"")
    }
}
