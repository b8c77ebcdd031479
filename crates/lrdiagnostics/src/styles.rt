//! Colours of what is told.

ghost use Rattle.lrdiagnostics.specs.Places.{AddsMore};

use lrwriter::Text;

/// How words stand out.
#[derive(Clone, Copy, Debug, PartialEq, Eq)]
pub enum Style {
    /// What is told first of a conflict.
    Bold,
    /// An error, and what a place is marked by.
    Red,
    /// A warning.
    Yellow,
    /// What a second place is marked by.
    Blue,
}

impl Style {
    /// What turns it on in a terminal.
    fn code(self) -> &'static str {
        match self {
            Style::Bold => "\x1b[1m",
            Style::Red => "\x1b[1;31m",
            Style::Yellow => "\x1b[1;33m",
            Style::Blue => "\x1b[1;34m",
        }
    }

    /// Turns it on in a text, where colours are used.
    pub(crate) fn begin(self, text: &mut Text, has_colours: bool)
        ensures { AddsMore text.old text.new }
    {
        if has_colours {
            text.add(self.code());
        }
    }

    /// Turns it off again.
    pub(crate) fn end(text: &mut Text, has_colours: bool)
        ensures { AddsMore text.old text.new }
    {
        if has_colours {
            text.add("\x1b[0m");
        }
    }

    /// Adds words that stand out, where colours are used.
    pub fn add(self, text: &mut Text, words: &str, has_colours: bool)
        ensures { AddsMore text.old text.new }
    {
        self.begin(text, has_colours);
        text.add(words);
        Style::end(text, has_colours);
    }
}
