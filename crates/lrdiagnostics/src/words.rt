//! Lines of words.

use crate::lines::add_shown;
use lrwriter::Text;
use unicode_width::UnicodeWidthStr;

/// How many columns words take, with a blank between them.
pub fn width_of(words: &[String]) -> usize {
    let mut width = words.len().saturating_sub(1);
    for word in words {
        width = width.saturating_add(word.as_str().width());
    }
    width
}

/// A line in the making, which goes on in a further one where it would get too long.
#[derive(Clone, Copy)]
struct Line {
    /// How many columns it has.
    column: usize,
    /// Whether a word stands in it.
    is_begun: bool,
}

/// How lines are made.
#[derive(Clone, Copy)]
pub struct Layout {
    /// How many columns a line has at the most, unless a word alone is wider.
    pub width: usize,
}

impl Layout {
    /// Lines of at most so many columns, or such as are not folded.
    pub fn new(columns: Option<usize>) -> Layout {
        Layout {
            width: columns.unwrap_or(usize::MAX),
        }
    }

    /// Adds a word to a line. One that begins behind so many blanks goes on in its stead where the line would get too long.
    fn add_word(self, text: &mut Text, word: &str, line: Line, indent: usize) -> Line {
        let width = word.width();
        let mut column = line.column;
        if line.is_begun {
            if column.saturating_add(width) >= self.width {
                text.add_char('\n');
                text.add_times(' ', indent);
                column = indent;
            } else {
                text.add_char(' ');
                column = column.saturating_add(1);
            }
        }
        add_shown(text, word);
        Line {
            column: column.saturating_add(width),
            is_begun: true,
        }
    }

    /// Adds words to a line that has so many columns already; further lines begin with so many blanks.
    pub fn add_words(self, text: &mut Text, words: &[String], column: usize, indent: usize) {
        let mut line = Line {
            column,
            is_begun: false,
        };
        for word in words {
            line = self.add_word(text, word.as_str(), line, indent);
        }
    }

    /// Adds words that are parted by blanks, in a line of their own; further lines begin with so many blanks.
    pub fn add_line(self, text: &mut Text, words: &str, indent: usize) {
        let mut line = Line {
            column: 0,
            is_begun: false,
        };
        for word in words.split(' ') {
            line = self.add_word(text, word, line, indent);
        }
        text.add_char('\n');
    }
}
