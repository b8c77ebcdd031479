//! Words in the making.

use lrdiagnostics::{Layout, width_of};
use lrwriter::Text;
use std::alloc::Global;
use std::fmt::Display;

/// Words in the making, which are laid out into lines. They keep their fault until then.
#[derive(Drop)]
pub(crate) struct Words {
    list: Vec<String>,
    is_whole: bool,
}

impl Words {
    /// No words.
    pub(crate) fn new(alloc: Global) -> Words {
        Words {
            list: Vec::new(alloc),
            is_whole: true,
        }
    }

    /// The allocator by which they grow.
    pub(crate) fn allocator(&self) -> Global {
        *self.list.allocator()
    }

    /// Whether there are none. Where memory was refused for the first one, this is not known, and so not said.
    pub(crate) fn is_empty(&self) -> bool {
        self.is_whole && self.list.is_empty()
    }

    /// Whether they are the same as others. Where memory was refused for one of them, this is not known, and so not said.
    pub(crate) fn is_same(&self, other: &Words) -> bool {
        self.is_whole && other.is_whole && self.list == other.list
    }

    /// Adds other words.
    pub(crate) fn append(&mut self, other: &Words) {
        for word in &other.list {
            self.add(word.as_str());
        }
        self.is_whole = self.is_whole && other.is_whole;
    }

    /// How many columns they take, with a blank between them.
    pub(crate) fn width(&self) -> usize {
        width_of(self.list.as_slice())
    }

    /// Adds a word, in which blanks may be.
    pub(crate) fn add(&mut self, word: &str) {
        if self.is_whole {
            self.is_whole = match String::from_str(self.allocator(), word) {
                Ok(word) => self.list.push(word).is_ok(),
                Err(_) => false,
            };
        }
    }

    /// Takes in that memory was refused for something that belongs to them.
    pub(crate) fn give_up(&mut self) {
        self.is_whole = false;
    }

    /// Adds words that are parted by blanks.
    pub(crate) fn add_all(&mut self, words: &str) {
        for word in words.split(' ') {
            self.add(word);
        }
    }

    /// Adds a name of a list: but for the first one, behind a comma.
    pub(crate) fn add_listed(&mut self, is_first: bool, name: &str) {
        if !is_first {
            self.add_piece(",");
        }
        self.add(name);
    }

    /// Adds to the last word.
    pub(crate) fn add_piece(&mut self, piece: &str) {
        if let Some(last) = self.list.last_mut() {
            self.is_whole = self.is_whole && last.push_str(piece).is_ok();
        }
    }

    /// Adds what is formatted, as a word.
    pub(crate) fn write_fmt<D: Display + Drop>(&mut self, value: D) {
        self.add("");
        if let Some(last) = self.list.last_mut() {
            self.is_whole = self.is_whole && last.write_fmt(value).is_ok();
        }
    }

    /// Adds a number, as a word.
    pub(crate) fn add_number(&mut self, number: usize) {
        write!(self, "{number}");
    }

    /// Adds them to a line of a text that has so many columns already; further lines begin with so many blanks.
    pub(crate) fn lay_out(&self, text: &mut Text, layout: Layout, column: usize, indent: usize) {
        if self.is_whole {
            layout.add_words(text, self.list.as_slice(), column, indent);
        } else {
            text.give_up();
        }
    }

    /// Adds them to a text, with a blank between them.
    pub(crate) fn join(&self, text: &mut Text) {
        for (place, word) in self.list.iter().enumerate() {
            if place > 0 {
                text.add_char(' ');
            }
            text.add(word.as_str());
        }
        if !self.is_whole {
            text.give_up();
        }
    }
}
