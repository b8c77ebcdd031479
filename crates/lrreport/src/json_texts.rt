//! JSON in the making.

ghost use Rattle.std.specs.Prelude.{◌≡◌, [], ◌∷◌, IfOk, IsTrue, decimal, true};
ghost use Rattle.std.specs.String.{string_bytes};
ghost use Rattle.json.specs.Token as token;
ghost use Rattle.json.specs.Token.{key, string, boolean, begin_object as start, begin_array as opened, end_array as closed};
ghost use Rattle.json.specs.Lex.{tokens};
ghost use Rattle.json.specs.Print.{print};
ghost use Rattle.lrreport.specs.JsonTexts.{AddsTokens, HeldJson};

use json::Writer;
use std::alloc::{AllocError, Global};
use std::marker::Model;

/// A text of JSON in the making, which keeps its fault until it is finished. What stands in what is its caller's: each object and
/// each array that begins must end, and in an object a key stands before each value.
#[derive(Drop)]
pub(crate) struct JsonText {
    alloc: Global,
    writer: Writer,
    is_whole: bool,
    ghost all: { writer.before ≡ [] },
}

impl Model for JsonText {
    ghost use Rattle.lrreport.specs.JsonTexts.{HeldJson};

    ghost Value = { HeldJson };

    ghost view = { λ json. record { tokens = json.writer.tokens; is_whole = json.is_whole } };
}

impl JsonText {
    /// An empty text.
    pub(crate) fn new(alloc: Global) -> JsonText
        ensures { result ≡ record { tokens = []; is_whole = true } }
    {
        JsonText {
            alloc,
            writer: Writer::new(Vec::new(alloc)),
            is_whole: true,
        }
    }

    /// The allocator by which it grows.
    pub(crate) fn allocator(&self) -> Global {
        self.alloc
    }

    /// Begins an object.
    pub(crate) fn begin_object(&mut self)
        ensures { AddsTokens self.old self.new (start ∷ []) }
    {
        self.is_whole = self.is_whole && self.writer.begin_object().is_ok();
    }

    /// Ends an object.
    pub(crate) fn end_object(&mut self) {
        self.is_whole = self.is_whole && self.writer.end_object().is_ok();
    }

    /// Begins an array.
    pub(crate) fn begin_array(&mut self)
        ensures { AddsTokens self.old self.new (opened ∷ []) }
    {
        self.is_whole = self.is_whole && self.writer.begin_array().is_ok();
    }

    /// Ends an array.
    pub(crate) fn end_array(&mut self)
        ensures { AddsTokens self.old self.new (closed ∷ []) }
    {
        self.is_whole = self.is_whole && self.writer.end_array().is_ok();
    }

    /// Adds the key of what comes next.
    pub(crate) fn key(&mut self, name: &str)
        ensures { AddsTokens self.old self.new ((key name.now) ∷ []) }
    {
        self.is_whole = self.is_whole && self.writer.key(name).is_ok();
    }

    /// Adds a text.
    pub(crate) fn string(&mut self, text: &str)
        ensures { AddsTokens self.old self.new ((string text.now) ∷ []) }
    {
        self.is_whole = self.is_whole && self.writer.string(text).is_ok();
    }

    /// Adds a number.
    pub(crate) fn number(&mut self, number: usize)
        ensures { AddsTokens self.old self.new ((token.number (decimal number)) ∷ []) }
    {
        self.is_whole = self.is_whole && self.writer.u64(number as u64).is_ok();
    }

    /// Adds a truth value.
    pub(crate) fn boolean(&mut self, is_so: bool)
        ensures { AddsTokens self.old self.new ((boolean is_so) ∷ []) }
    {
        self.is_whole = self.is_whole && self.writer.boolean(is_so).is_ok();
    }

    /// Adds a text at a key.
    pub(crate) fn string_at(&mut self, name: &str, text: &str)
        ensures { AddsTokens self.old self.new ((key name.now) ∷ (string text.now) ∷ []) }
    {
        self.key(name);
        self.string(text);
    }

    /// Adds a number at a key.
    pub(crate) fn number_at(&mut self, name: &str, number: usize)
        ensures { AddsTokens self.old self.new
            ((key name.now) ∷ (token.number (decimal number)) ∷ []) }
    {
        self.key(name);
        self.number(number);
    }

    /// Adds a truth value at a key.
    pub(crate) fn boolean_at(&mut self, name: &str, is_so: bool) {
        self.key(name);
        self.boolean(is_so);
    }

    /// Adds that there is nothing.
    pub(crate) fn null(&mut self) {
        self.is_whole = self.is_whole && self.writer.null().is_ok();
    }

    /// Adds a text, if there is one.
    pub(crate) fn string_or_null(&mut self, text: Option<&str>) {
        match text {
            Some(text) => self.string(text),
            None => self.null(),
        }
    }

    /// Adds a number, if there is one.
    pub(crate) fn number_or_null(&mut self, number: Option<usize>) {
        match number {
            Some(number) => self.number(number),
            None => self.null(),
        }
    }

    /// Leaves the text unfinished, since memory was refused for a part of it.
    pub(crate) fn give_up(&mut self) {
        self.is_whole = false;
    }

    /// The text, with no blank between its parts. The error says that memory was refused.
    pub(crate) fn finish(self) -> Result<String, AllocError>
        ensures whole { IfOk result (λ _. IsTrue self.is_whole) }
        ensures text { IfOk result (λ s. string_bytes s ≡ print self.tokens) }
        ensures compact { IfOk result (λ s. string_bytes s ≡ print (tokens (string_bytes s))) }
    {
        if !self.is_whole {
            return Err(AllocError);
        }
        Ok(String::from_utf8(self.writer.into_inner()).unwrap())
    }
}
