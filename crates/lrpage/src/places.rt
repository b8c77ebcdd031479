//! Lines of the file, with the places in them marked.

use crate::pages::Page;
use lrdiagnostics::{Mark, ShownLine, add_escaped, add_escaped_name};
use lrwriter::Text;
use lryacc::Span;
use std::alloc::AllocError;
use unicode_width::UnicodeWidthChar;

/// A line in two parts: what stands before a column, and what begins there or behind it. Columns are counted from 0.
fn split_at_column(line: &str, column: usize) -> (&str, &str) {
    let mut reached: usize = 0;
    for (place, character) in line.char_indices() {
        if column <= reached {
            return line.split_at_checked(place).unwrap_or((line, ""));
        }
        reached = reached.saturating_add(character.width().unwrap_or(0));
    }
    (line, "")
}

/// What stands in a line from a column up to another.
fn part_of(line: &str, from: usize, to: usize) -> &str {
    let (front, _) = split_at_column(line, to);
    let (_, part) = split_at_column(front, from);
    part
}

/// Adds a part of a line, marked; a blank where it is empty.
fn add_marked(page: &mut Text, part: &str) {
    page.add("<mark>");
    add_escaped(page, if part.is_empty() { " " } else { part });
    page.add("</mark>");
}

/// The line of a place, which is added up to a column, with marks in it.
#[derive(Drop)]
struct Row {
    line: ShownLine,
    column: usize,
}

impl Row {
    /// Whether a place of a line of that number can be marked behind what is added.
    fn goes_on(&self, number: usize, at: usize) -> bool {
        self.line.shows(number, at) && self.column <= self.line.column(at)
    }

    /// Adds what stands before a place, and what stands there, marked: one column at least.
    fn add_mark(&mut self, page: &mut Text, place: Span) {
        let from = self.line.column(place.start);
        let to = self.line.column(place.end).max(from.saturating_add(1));
        let line = self.line.text.as_str();
        add_escaped(page, part_of(line, self.column, from));
        add_marked(page, part_of(line, from, to));
        self.column = to;
    }

    /// Adds the rest of the line.
    fn end(&self, page: &mut Text) {
        let (_, rest) = split_at_column(self.line.text.as_str(), self.column);
        add_escaped(page, rest);
        page.add("</code>");
    }
}

impl Page<'_> {
    /// Adds how the line of a place begins, and answers it.
    fn begin_row(&self, page: &mut Text, class: &str, at: usize) -> Result<Row, AllocError> {
        let line = ShownLine::new(page.allocator(), self.source, at)?;
        let number = self.source.line(at);
        write!(page, "<div class=\"place {class}\"><i>{number}</i><code>");
        Ok(Row { line, column: 0 })
    }

    /// Adds the line of a place, which is marked in it, and what is said of that.
    fn add_place(&self, page: &mut Text, mark: &Mark) -> Result<(), AllocError> {
        let class = if mark.mark == '^' { "one" } else { "other" };
        let mut row = self.begin_row(page, class, mark.span.start)?;
        row.add_mark(page, mark.span);
        row.end(page);
        page.add("<span>");
        add_escaped_name(page, mark.label.as_str());
        page.add("</span></div>\n");
        Ok(())
    }

    /// Adds the lines of places. The error says that memory for a line was refused.
    pub(crate) fn add_places(&self, page: &mut Text, marks: &[Mark]) -> Result<(), AllocError> {
        page.add("<div class=\"places\">\n");
        for mark in marks {
            self.add_place(page, mark)?;
        }
        page.add("</div>\n");
        Ok(())
    }

    /// The row that stands last, where a place can be marked in it, or else one of the line of the place, which is begun.
    fn row_of(&self, page: &mut Text, last: Option<Row>, at: usize) -> Result<Row, AllocError> {
        if let Some(row) = last {
            if row.goes_on(self.source.line(at), at) {
                return Ok(row);
            }
            row.end(page);
            page.add("</div>\n");
        }
        self.begin_row(page, "warned", at)
    }

    /// Adds the lines of places of which nothing is said. One line serves for places that follow each other in it.
    pub(crate) fn add_lines(&self, page: &mut Text, places: &[Span]) -> Result<(), AllocError> {
        page.add("<div class=\"places\">\n");
        let mut last = None;
        for place in places {
            let mut row = self.row_of(page, last, place.start)?;
            row.add_mark(page, *place);
            last = Some(row);
        }
        if let Some(row) = last {
            row.end(page);
            page.add("</div>\n");
        }
        page.add("</div>\n");
        Ok(())
    }
}
