//! Faults of a file, and other places in it, each with the line and marks under the place.

ghost use Rattle.std.specs.Prelude.{◌≡◌, [], ◌∷◌, take, IfOk, IfSome, slice_get};
ghost use Rattle.lrdiagnostics.specs.Places.{AddsMore, AddsPlace, AddsPlaces, AreOf, first_place, first_places};

use crate::faults::words_of;
use crate::lines::ShownLine;
use crate::sources::Source;
use crate::styles::Style;
use lrwriter::Text;
use lryacc::{Fault, Span};
use std::alloc::{AllocError, Global};

/// How many faults of a file, and how many conflicts, are told one by one.
pub const TOLD: usize = 20;

/// How many digits a number has.
fn digits(number: usize) -> usize {
    match number.checked_ilog10() {
        Some(tens) => (tens as usize).saturating_add(1),
        None => 1,
    }
}

/// A place, what it is marked by, and what is said of it.
#[derive(Drop)]
pub struct Mark {
    pub span: Span,
    pub mark: char,
    pub style: Style,
    pub label: String,
}

/// What is told of places of a file, in their order.
#[derive(Drop)]
pub struct Message {
    pub words: String,
    pub places: Vec<Span>,
}

impl Message {
    /// What is told of a fault.
    pub fn of(alloc: Global, source: &Source<'_>, fault: &Fault) -> Result<Message, AllocError>
        ensures { IfOk result (λ message. message.places.items ≡ fault.now.span ∷ []) }
    {
        Ok(Message {
            words: words_of(alloc, source, fault)?,
            places: vec![in alloc; fault.span]?,
        })
    }

    /// The marks of the first places, so many at the most.
    fn marks(&self, alloc: Global, style: Style, most: usize) -> Result<Vec<Mark>, AllocError> {
        let mut marks = Vec::new(alloc);
        for span in self.places.iter().take(most) {
            marks.push(Mark {
                span: *span,
                mark: '^',
                style,
                label: String::new(alloc),
            })?;
        }
        Ok(marks)
    }
}

/// What is told of faults.
pub fn messages_of(
    alloc: Global,
    source: &Source<'_>,
    faults: &[Fault],
) -> Result<Vec<Message>, AllocError>
    ensures { IfOk result (λ messages. AreOf messages.items faults.now) }
{
    let mut messages = Vec::new(alloc);
    for fault in faults {
        messages.push(Message::of(alloc, source, fault)?)?;
    }
    Ok(messages)
}

/// A line that was added, with marks under it.
#[derive(Drop)]
struct MarkedLine {
    line: ShownLine,
    /// The column behind the last mark, where nothing is said of it: its row can go on with a further mark, and is not ended yet.
    row: Option<usize>,
}

impl MarkedLine {
    /// Ends the row of the last mark, where that is not done yet.
    fn end_row(&self, text: &mut Text)
        ensures { AddsMore text.old text.new }
    {
        if self.row.is_some() {
            text.add_char('\n');
        }
    }

    /// Adds what stands before a mark at a column: the beginning of a row, or blanks behind the mark before it in its row.
    fn begin_mark(&self, text: &mut Text, from: usize, width: usize)
        ensures { AddsMore text.old text.new }
    {
        match self.row {
            Some(behind) if behind < from => text.add_times(' ', from - behind),
            _ => {
                self.end_row(text);
                text.add_times(' ', width.saturating_add(2));
                text.add("| ");
                text.add_times(' ', from);
            }
        }
    }
}

/// How bad a fault is.
#[derive(Clone, Copy, Debug, PartialEq, Eq)]
pub enum Weight {
    Error,
    Warning,
}

impl Weight {
    /// Its name, and how it stands out.
    fn name(self) -> (&'static str, Style) {
        match self {
            Weight::Error => ("error", Style::Red),
            Weight::Warning => ("warning", Style::Yellow),
        }
    }
}

/// A file, and how its places are told.
#[derive(Clone, Copy)]
pub struct Teller<'a> {
    pub source: &'a Source<'a>,
    pub has_colours: bool,
}

impl Teller<'_> {
    /// The most digits that a number of a line has among the places.
    fn width_of(self, marks: &[Mark]) -> usize {
        let lines = marks.iter().map(|mark| self.source.line(mark.span.start));
        lines.map(digits).max().unwrap_or(1)
    }

    /// Adds the line of a place, and answers it.
    fn add_line(self, text: &mut Text, at: usize, width: usize) -> Result<ShownLine, AllocError>
        ensures { IfOk result (λ _. AddsMore text.old text.new) }
    {
        let number = self.source.line(at);
        let line = ShownLine::new(text.allocator(), self.source, at)?;
        text.add_times(' ', width.saturating_sub(digits(number)));
        write!(text, " {number} | ");
        text.add(line.text.as_str());
        text.add_char('\n');
        Ok(line)
    }

    /// Adds a place's mark under a line, with what is said: in the row of the mark before it, where nothing is said of that.
    fn add_mark(self, text: &mut Text, marked: &mut MarkedLine, mark: &Mark, width: usize)
        ensures { AddsMore text.old text.new }
    {
        let from = marked.line.column(mark.span.start);
        let times = marked
            .line
            .column(mark.span.end)
            .saturating_sub(from)
            .max(1);
        marked.begin_mark(text, from, width);
        mark.style.begin(text, self.has_colours);
        text.add_times(mark.mark, times);
        marked.row = if mark.label.is_empty() {
            Style::end(text, self.has_colours);
            Some(from.saturating_add(times))
        } else {
            text.add_char(' ');
            text.add(mark.label.as_str());
            Style::end(text, self.has_colours);
            text.add_char('\n');
            None
        };
    }

    /// The line that stands last, where a place can be marked under it, or else the line of the place, which is added.
    fn line_of(
        self,
        text: &mut Text,
        last: Option<MarkedLine>,
        at: usize,
        width: usize,
    ) -> Result<MarkedLine, AllocError>
        ensures { IfOk result (λ _. AddsMore text.old text.new) }
    {
        if let Some(marked) = last {
            if marked.line.shows(self.source.line(at), at) {
                return Ok(marked);
            }
            marked.end_row(text);
        }
        let line = self.add_line(text, at, width)?;
        Ok(MarkedLine { line, row: None })
    }

    /// Adds the lines of places, each with its mark. One line serves for places that follow each other in it. The error says
    /// that memory for a line was refused.
    pub fn add_marks(self, text: &mut Text, marks: &[Mark]) -> Result<(), AllocError>
        ensures { IfOk result (λ _. AddsMore text.old text.new) }
    {
        let width = self.width_of(marks);
        text.add_times(' ', width.saturating_add(2));
        text.add("|\n");
        let mut last = None;
        for mark in marks {
            let mut marked = self.line_of(text, last, mark.span.start, width)?;
            self.add_mark(text, &mut marked, mark, width);
            last = Some(marked);
        }
        if let Some(marked) = last {
            marked.end_row(text);
        }
        Ok(())
    }

    /// Adds behind blanks where a place is.
    fn add_place(self, text: &mut Text, at: usize, blanks: usize)
        ensures { AddsPlace text.old text.new self.entry.source.now.name.now
            self.entry.source.now.bytes.now at }
    {
        let position = self.source.position(at);
        let name = self.source.name;
        text.add_times(' ', blanks);
        write!(text, " --> {name}:{}:{}\n", position.line, position.column);
    }

    /// Adds where the first of the places is, and then all.
    pub fn add_placed(self, text: &mut Text, marks: &[Mark]) -> Result<(), AllocError>
        ensures { IfOk result (λ _. IfSome (slice_get marks.now 0) (λ first.
            AddsPlace text.old text.new self.entry.source.now.name.now
            self.entry.source.now.bytes.now first.span.start)) }
    {
        if let Some(first) = marks.first() {
            self.add_place(text, first.span.start, self.width_of(marks));
        }
        self.add_marks(text, marks)
    }

    /// How many blanks stand before notes under places of such marks.
    pub fn indent(self, marks: &[Mark]) -> usize {
        self.width_of(marks).saturating_add(2)
    }

    /// Adds lines of notes under places of such marks.
    pub fn add_notes(self, text: &mut Text, marks: &[Mark], lines: &str) {
        if !lines.is_empty() {
            text.add_times(' ', self.indent(marks));
            text.add("|\n");
            text.add(lines);
        }
    }

    /// Adds under places of such marks how many there are besides.
    fn add_more(self, text: &mut Text, marks: &[Mark], more: usize)
        ensures { AddsMore text.old text.new }
    {
        let indent = self.indent(marks);
        text.add_times(' ', indent);
        text.add("|\n");
        text.add_times(' ', indent);
        write!(text, "= and {more} more, which --all shows\n");
    }

    /// Adds what is told of places: its words, and the first of the places, so many at the most.
    fn add_message(
        self,
        text: &mut Text,
        message: &Message,
        weight: Weight,
        most: usize,
    ) -> Result<(), AllocError>
        ensures { IfOk result (λ _. AddsPlaces text.old text.new self.entry.source.now.name.now
            self.entry.source.now.bytes.now (first_place message.now)) }
    {
        let Some(first) = message.places.first() else {
            return Ok(());
        };
        let at = self.source.position(first.start);
        let (file, words) = (self.source.name, message.words.as_str());
        let (name, style) = weight.name();
        write!(text, "{file}:{}:{}: ", at.line, at.column);
        style.add(text, name, self.has_colours);
        write!(text, ": {words}\n");
        let marks = message.marks(text.allocator(), style, most)?;
        self.add_marks(text, marks.as_slice())?;
        let more = message.places.len().saturating_sub(most);
        if more > 0 {
            self.add_more(text, marks.as_slice(), more);
        }
        Ok(())
    }

    /// Adds faults, or what is warned of: the first ones, so many at the most, and how many there are besides.
    pub fn add_messages(
        self,
        text: &mut Text,
        messages: &[Message],
        weight: Weight,
        most: usize,
    ) -> Result<(), AllocError>
        ensures { IfOk result (λ _. AddsPlaces text.old text.new self.entry.source.now.name.now
            self.entry.source.now.bytes.now (first_places (take most messages.now))) }
    {
        let (told, others) = messages.split_at(most.min(messages.len()));
        for message in told {
            self.add_message(text, message, weight, most)?;
        }
        let more = others.len();
        if more > 0 {
            let (file, (name, _)) = (self.source.name, weight.name());
            let ending = if more == 1 { "" } else { "s" };
            write!(
                text,
                "{file}: and {more} more {name}{ending}, which --all shows\n"
            );
        }
        Ok(())
    }
}
