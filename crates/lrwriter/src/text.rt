//! A text in the making, which keeps its fault until it is finished.

ghost use Rattle.std.specs.Prelude.{◌≡◌, ◌++◌, [], true, false, IfOk, IfErr, IfSome, IsTrue, string_bytes, encode_utf8};
ghost use Rattle.std.specs.List.{repeat};
ghost use Rattle.lrwriter.specs.Texts.{Adds, Held};

use std::alloc::{AllocError, Global};
use std::fmt::Display;
use std::marker::Model;

/// A text in the making. Once growth is refused it stays as it is, whatever is added, and `finish` tells of that.
#[derive(Drop)]
pub struct Text {
    text: String,
    is_whole: bool,
}

impl Model for Text {
    ghost use Rattle.lrwriter.specs.Texts.{Held};
    ghost use Rattle.std.specs.Prelude.{string_bytes};

    ghost Value = { Held };

    ghost view = { λ t. record { bytes = string_bytes t.text; is_whole = t.is_whole } };
}

impl Text {
    /// An empty text.
    pub fn new(alloc: Global) -> Text
        ensures { result ≡ record { bytes = []; is_whole = true } }
    {
        Text {
            text: String::new(alloc),
            is_whole: true,
        }
    }

    /// The allocator by which it grows.
    pub fn allocator(&self) -> Global {
        *self.text.allocator()
    }

    /// Adds a piece of text.
    pub fn add(&mut self, piece: &str)
        ensures { Adds self.old self.new piece.now }
    {
        self.is_whole = self.is_whole && self.text.push_str(piece).is_ok();
    }

    /// Adds another text, with its fault where it has one.
    pub fn add_text(&mut self, other: Text)
        ensures whole { IsTrue self.new.is_whole → IsTrue other.is_whole }
        ensures adds { Adds self.old self.new other.bytes }
    {
        self.is_whole = self.is_whole && other.is_whole;
        self.add(other.text.as_str());
    }

    /// Adds a character.
    pub fn add_char(&mut self, character: char)
        ensures { Adds self.old self.new (encode_utf8 character) }
    {
        self.is_whole = self.is_whole && self.text.push(character).is_ok();
    }

    /// Adds a character, so many times.
    pub fn add_times(&mut self, character: char, times: usize)
        ensures { Adds self.old self.new (repeat times (encode_utf8 character)) }
    {
        for _ in 0..times {
            self.add_char(character);
        }
    }

    /// Adds what is formatted: `write!(text, "{number}")` calls it.
    pub fn write_fmt<D: Display + Drop>(&mut self, value: D)
        ensures { IfSome (D.output value) (Adds self.old self.new) }
    {
        self.is_whole = self.is_whole && self.text.write_fmt(value).is_ok();
    }

    /// Takes in that memory was refused for something that belongs to the text: it stays as it is from now on.
    pub fn give_up(&mut self)
        ensures { self.new ≡ record { bytes = self.old.bytes; is_whole = false } }
    {
        self.is_whole = false;
    }

    /// All that was added. The error says that growth was refused.
    pub fn finish(self) -> Result<String, AllocError>
        ensures ok { IfOk result (λ s.
            self ≡ record { bytes = string_bytes s; is_whole = true }) }
        ensures err { IfErr result (λ _. IsTrue self.is_whole → ⊥) }
    {
        if self.is_whole {
            Ok(self.text)
        } else {
            Err(AllocError)
        }
    }
}
