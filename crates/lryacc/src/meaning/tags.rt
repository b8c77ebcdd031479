//! The tags of symbols, which are the types of their values.

ghost use Rattle.std.specs.Prelude.{OnOk};
ghost use Rattle.lryacc.specs.EndTokens.{KeepsMeaning};

use crate::faults::FaultKind;
use crate::lexemes::Lexeme;
use crate::meaning::Meaning;
use crate::places::{Span, bytes};
use std::alloc::AllocError;

impl<'a> Meaning<'a> {
    /// Takes in the tag of a symbol, by either of its names.
    pub(super) fn take_tag(&mut self, lexeme: Lexeme, tag: Lexeme) -> Result<(), AllocError>
        ensures { OnOk result (KeepsMeaning self.old self.new) }
    {
        let Some(number) = self.symbols.find(lexeme) else {
            return Ok(());
        };
        if let Some((_, first)) = self.known_tag(number) {
            return self.tell(FaultKind::TagTwice(first), lexeme.span);
        }
        if let Some(symbol) = self.symbols.list.get_mut(number) {
            symbol.tag = Some((tag.span, lexeme.span));
        }
        Ok(())
    }

    /// The tag that a symbol has by this name, and where that is said.
    fn tag(&self, number: usize) -> Option<(Span, Span)> {
        self.symbols.list.get(number)?.tag
    }

    /// The tag that a symbol has by this name or the other one, and where that is said.
    fn known_tag(&self, number: usize) -> Option<(Span, Span)> {
        match self.tag(number) {
            Some(tag) => Some(tag),
            None => self.tag(self.symbols.partner(number)?),
        }
    }

    /// Tells where two names that become those of one symbol have two tags.
    pub(super) fn tell_tags(&mut self, one: usize, other: usize) -> Result<(), AllocError>
        ensures { OnOk result (KeepsMeaning self.old self.new) }
    {
        let (Some((tag, here)), Some((other_tag, there))) = (self.tag(one), self.tag(other)) else {
            return Ok(());
        };
        if bytes(self.symbols.text, tag) == bytes(self.symbols.text, other_tag) {
            return Ok(());
        }
        let (first, later) = if here.start < there.start {
            (here, there)
        } else {
            (there, here)
        };
        self.tell(FaultKind::TagTwice(first), later)
    }
}
