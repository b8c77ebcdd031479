//! What a file is warned of, in a line each.

use crate::told::Told;
use lrdiagnostics::{Message, Style, add_shown};
use lrwriter::Text;
use lryacc::Span;
use std::alloc::{AllocError, Global};

/// How many places of a warning are named at the most.
const NAMED: usize = 4;

/// How many bytes the text of a place has at the most that is named.
const LONGEST: usize = 30;

/// Whether a name is one of the parts of words between such marks.
fn is_between(words: &str, mark: char, name: &str) -> bool {
    for part in words.split(mark) {
        if part == name {
            return true;
        }
    }
    false
}

impl Told<'_> {
    /// The text of a place, if it is short, stands in one line, and begins with a name, or a quoted one.
    fn text_at(&self, place: Span) -> Option<&str> {
        let bytes = self.source.part(place.start, place.end);
        let text = match str::from_utf8(bytes) {
            Ok(text) if bytes.len() <= LONGEST && !text.contains('\n') => text,
            _ => return None,
        };
        match text.chars().next() {
            Some('_' | '\'' | '"') => Some(text),
            Some(first) if first.is_alphabetic() => Some(text),
            _ => None,
        }
    }

    /// The texts of the first places of a warning; None where its words have one of them, or where one has no text or that of another
    /// one.
    fn names_at(&self, alloc: Global, message: &Message) -> Result<Option<Vec<&str>>, AllocError> {
        let words = message.words.as_str();
        let mut names: Vec<&str> = Vec::new(alloc);
        for place in message.places.iter().take(NAMED) {
            let Some(text) = self.text_at(*place) else {
                return Ok(None);
            };
            let is_said = is_between(words, '`', text) || is_between(words, ' ', text);
            if is_said || names.contains(&text) {
                return Ok(None);
            }
            names.push(text)?;
        }
        Ok(Some(names))
    }

    /// Adds the lines of the first places of a warning.
    fn add_line_numbers(&self, text: &mut Text, message: &Message) {
        text.add(" (lines ");
        for (number, place) in message.places.iter().take(NAMED).enumerate() {
            if number > 0 {
                text.add(", ");
            }
            write!(text, "{}", self.source.line(place.start));
        }
    }

    /// Adds the names of the first places of a warning, or their lines, unless its words tell it, and how many there are besides.
    fn add_named(&self, text: &mut Text, message: &Message) {
        match self.names_at(text.allocator(), message) {
            Ok(Some(names)) => {
                for (number, name) in names.iter().enumerate() {
                    text.add(if number == 0 { " (" } else { ", " });
                    add_shown(text, name);
                }
            }
            Ok(None) if message.places.len() > 1 => self.add_line_numbers(text, message),
            Ok(None) => return,
            Err(_) => return text.give_up(),
        }
        let more = message.places.len().saturating_sub(NAMED);
        if more > 0 {
            write!(text, " and {more} more, which --all shows");
        }
        text.add_char(')');
    }

    /// Adds a warning as a line.
    fn push_warning_line(&self, text: &mut Text, message: &Message) {
        let Some(first) = message.places.first() else {
            return;
        };
        let at = self.source.position(first.start);
        let (name, words) = (self.source.name, message.words.as_str());
        write!(text, "{name}:{}:{}: ", at.line, at.column);
        Style::Yellow.add(text, "warning", self.options.lines.has_colours);
        write!(text, ": {words}");
        self.add_named(text, message);
        text.add_char('\n');
    }

    /// Adds the first warnings, so many at the most, in a line each, and how many there are besides.
    pub(crate) fn push_warning_lines(&self, text: &mut Text, messages: &[Message], most: usize) {
        for message in messages.iter().take(most) {
            self.push_warning_line(text, message);
        }
        let (name, more) = (self.source.name, messages.len().saturating_sub(most));
        if more == 1 {
            write!(text, "{name}: and 1 more warning, which --all shows\n");
        } else if more > 1 {
            write!(
                text,
                "{name}: and {more} more warnings, which --all shows\n"
            );
        }
    }
}
