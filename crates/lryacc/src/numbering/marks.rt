//! The tokens before the start rules, where there are several.

ghost use Rattle.std.specs.Prelude.{◌≡◌, Some, slice_get, string_bytes, IfOk, OnOk, IfSome, None};
ghost use Rattle.lryacc.specs.BodyProductions.{AreMarks, IsMarkName, IsMarkOf, Keeps, is_one};
ghost use Rattle.lryacc.specs.NamedSymbols.{name_of};
ghost use Rattle.lryacc.specs.Numbered.{AddsNumbers, names_of};

use crate::lexemes::Lexeme;
use crate::names::name_text;
use crate::numbering::Numbering;
use std::alloc::AllocError;

impl<'m, 'a> Numbering<'m, 'a> {
    /// The token of that name.
    fn token_named(&self, name: &str) -> Option<usize>
        ensures { IfSome result (λ token.
            slice_get (names_of self.now).tokens token ≡ Some name.now) }
    {
        for (number, token) in self.grammar.parts.tokens.iter().enumerate() {
            if token.name.as_str() == name {
                return Some(number);
            }
        }
        None
    }

    /// Adds the tokens before the start rules, where there are several, and answers them.
    pub(super) fn add_marks(&mut self, starts: &[Lexeme]) -> Result<Vec<usize>, AllocError>
        ensures added { OnOk result (AddsNumbers self.old self.new) }
        ensures marks { IfOk result (λ marks. AreMarks (names_of self.new) (is_one starts.now)
            starts.now marks.items) }
    {
        let mut marks = Vec::new(self.allocator());
        if starts.len() == 1 {
            return Ok(marks);
        }
        for start in starts {
            let mark = self.mark(*start)?;
            marks.push(mark)?;
        }
        Ok(marks)
    }

    /// The token before a start rule. Where the file has a token of that name, it is that one, and else it is added.
    fn mark(&mut self, start: Lexeme) -> Result<usize, AllocError>
        ensures added { OnOk result (AddsNumbers self.old self.new) }
        ensures kept { OnOk result (Keeps (names_of self.old).tokens (names_of self.new).tokens) }
        ensures mark { IfOk result (IsMarkOf (names_of self.new) start) }
    {
        let name = self.mark_name(start)?;
        match self.token_named(name.as_str()) {
            Some(token) => Ok(token),
            None => self.add_token(name, None),
        }
    }

    /// The name of the token before a start rule.
    fn mark_name(&self, start: Lexeme) -> Result<String, AllocError>
        ensures { IfOk result (λ name. IsMarkName (name_of (names_of self.now).text
            (names_of self.now).dialect start) (string_bytes name)) }
    {
        let name = name_text(self.allocator(), self.meaning.symbols.name(start))?;
        format!(in self.allocator(); "YY_PARSE_{name}")
    }
}
