//! Lines of a file as they are shown: what a terminal can show of them, and of long ones a part.

ghost use Rattle.std.specs.Prelude.{◌≡◌};
ghost use Rattle.lrwriter.specs.Texts.{Adds};
ghost use Rattle.lrdiagnostics.specs.ShownTexts.{shown_character, shown_text};

use crate::sources::Source;
use lrwriter::Text;
use std::alloc::{AllocError, Global};
use unicode_width::UnicodeWidthChar;

/// How many columns are shown at the most.
const SHOWN: usize = 160;

/// How many columns are shown before a place, where the line is longer.
const BEFORE: usize = 60;

/// How many bytes before and behind a place are looked at.
const LOOKED: usize = 1024;

/// What stands for a part that is left out.
const DOTS: &str = "...";

/// A character as it is shown.
#[derive(Clone, Copy)]
struct Cell {
    character: char,
    /// The byte of the file at which it begins.
    at: usize,
    /// The columns before it and behind it, from 0.
    from: usize,
    to: usize,
}

/// What is shown for a character: a blank for a tab, and something else than itself where a terminal would not show it.
pub fn shown(character: char) -> char
    ensures { result ≡ shown_character character }
{
    match character {
        '\t' => ' ',
        '\u{202A}'..='\u{202E}' | '\u{2066}'..='\u{2069}' => '\u{FFFD}',
        _ if character.is_control() => '?',
        _ => character,
    }
}

/// Adds a name of a file, as it is shown.
pub fn add_shown(text: &mut Text, name: &str)
    ensures { Adds text.old text.new (shown_text name.now) }
{
    for character in name.chars() {
        text.add_char(shown(character));
    }
}

/// Characters that stand one behind the other.
#[derive(Drop)]
struct Cells {
    list: Vec<Cell>,
    at: usize,
    column: usize,
}

impl Cells {
    /// Those of bytes that begin at a place.
    fn new(alloc: Global, at: usize, bytes: &[u8]) -> Result<Cells, AllocError> {
        let mut cells = Cells {
            list: Vec::new(alloc),
            at,
            column: 0,
        };
        for chunk in bytes.utf8_chunks() {
            cells.add_text(chunk.valid())?;
            for _ in 0..chunk.invalid().len() {
                cells.add('\u{FFFD}', 1)?;
            }
        }
        Ok(cells)
    }

    /// Adds the characters of a text.
    fn add_text(&mut self, text: &str) -> Result<(), AllocError> {
        for character in text.chars() {
            self.add(character, character.len_utf8())?;
        }
        Ok(())
    }

    /// Adds a character of so many bytes.
    fn add(&mut self, character: char, bytes: usize) -> Result<(), AllocError> {
        let from = self.column;
        let width = match character {
            '\t' => 8 - from % 8,
            _ => shown(character).width().unwrap_or(0),
        };
        self.column = from.saturating_add(width);
        self.list.push(Cell {
            character: shown(character),
            at: self.at,
            from,
            to: self.column,
        })?;
        self.at = self.at.saturating_add(bytes);
        Ok(())
    }

    /// The column of the first one that begins at a column or behind it.
    fn first_from(&self, column: usize) -> usize {
        let cell = self.list.iter().find(|cell| column <= cell.from);
        cell.map_or(self.column, |cell| cell.from)
    }

    /// The column of what stands at a place, or behind the last one.
    fn column_at(&self, at: usize) -> usize {
        let cell = self.list.iter().find(|cell| at <= cell.at);
        cell.map_or(self.column, |cell| cell.from)
    }
}

/// Which columns of a line are shown.
#[derive(Clone, Copy)]
struct Window {
    from: usize,
    to: usize,
    /// Whether a part before them, or behind them, is left out.
    is_cut_before: bool,
    is_cut_behind: bool,
}

impl Window {
    /// Whether there is more than is shown.
    fn is_long(self) -> bool {
        self.is_cut_before || self.is_cut_behind || self.to > SHOWN
    }

    /// What of it stands around a place.
    fn around(self, cells: &Cells, at: usize) -> Window {
        let column = cells.column_at(at);
        let is_cut_before = self.is_cut_before || column > BEFORE;
        let from = if is_cut_before {
            cells.first_from(column.saturating_sub(BEFORE))
        } else {
            self.from
        };
        let last = from.saturating_add(SHOWN - 2 * DOTS.len());
        Window {
            from,
            to: self.to.min(last),
            is_cut_before,
            is_cut_behind: self.is_cut_behind || self.to > last,
        }
    }

    /// Its text.
    fn text(self, alloc: Global, cells: &Cells) -> Result<String, AllocError> {
        let mut text = Text::new(alloc);
        if self.is_cut_before {
            text.add(DOTS);
        }
        for cell in &cells.list {
            if self.from <= cell.from && cell.to <= self.to {
                text.add_char(cell.character);
                if cell.character == ' ' {
                    let width = cell.to.saturating_sub(cell.from);
                    text.add_times(' ', width.saturating_sub(1));
                }
            }
        }
        if self.is_cut_behind {
            text.add(DOTS);
        }
        text.finish()
    }
}

/// A line, or a part of it, as it is shown.
#[derive(Drop)]
pub struct ShownLine {
    /// The number of the line, from 1.
    number: usize,
    pub text: String,
    cells: Cells,
    window: Window,
}

impl ShownLine {
    /// The line of a place, and of a long one what stands around the place.
    pub fn new(alloc: Global, source: &Source<'_>, at: usize) -> Result<ShownLine, AllocError> {
        let (start, end) = (source.line_start(at), source.line_end(at));
        let first = start.max(at.saturating_sub(LOOKED));
        let last = end.min(at.saturating_add(LOOKED));
        let cells = Cells::new(alloc, first, source.part(first, last))?;
        let whole = Window {
            from: 0,
            to: cells.column,
            is_cut_before: start < first,
            is_cut_behind: last < end,
        };
        let window = if whole.is_long() {
            whole.around(&cells, at)
        } else {
            whole
        };
        Ok(ShownLine {
            number: source.line(at),
            text: window.text(alloc, &cells)?,
            cells,
            window,
        })
    }

    /// Whether what stands at a place of a line of that number can be marked under it.
    pub fn shows(&self, number: usize, at: usize) -> bool {
        let column = self.cells.column_at(at);
        let is_far = at < self.cells.list.first().map_or(0, |cell| cell.at);
        let window = self.window;
        self.number == number
            && !(window.is_cut_before && (is_far || column < window.from))
            && !(window.is_cut_behind && column >= window.to)
    }

    /// The column of the text at which what stands at a place is shown, from 0.
    pub fn column(&self, at: usize) -> usize {
        let window = self.window;
        let column = self.cells.column_at(at).min(window.to);
        let before = if window.is_cut_before { DOTS.len() } else { 0 };
        column.saturating_sub(window.from).saturating_add(before)
    }
}
