//! The precedence lines in which symbols stand.

ghost use Rattle.std.specs.Prelude.{◌≡◌, OnOk};
ghost use Rattle.std.specs.BTreeMap.{get};
ghost use Rattle.std.specs.Ordering.{nat_cmp};
ghost use Rattle.lryacc.specs.EndTokens.{KeepsEnd, KeepsSaid};
ghost use Rattle.lryacc.specs.LinesTaken.{PutsInLine};

use crate::faults::{FaultKind, OtherClass};
use crate::lexemes::Lexeme;
use crate::meaning::Meaning;
use crate::places::Span;
use crate::symbols::Class;
use std::alloc::AllocError;

impl<'a> Meaning<'a> {
    /// Puts a symbol into the precedence line in hand.
    pub(super) fn take_in_level(&mut self, lexeme: Lexeme) -> Result<(), AllocError>
        ensures keeps { OnOk result (KeepsEnd self.old self.new) }
        ensures puts { OnOk result (PutsInLine lexeme self.old self.new) }
        ensures said { OnOk result (KeepsSaid self.old self.new) }
    {
        let level = self.levels.len();
        self.take_class(lexeme, Class::Token, OtherClass::Both)?;
        let Some(number) = self.symbols.find(lexeme) else {
            return Ok(());
        };
        if let Some((_, first)) = self.line(number) {
            return self.tell(FaultKind::LevelTwice(first), lexeme.span);
        }
        self.lines.insert(number, (level, lexeme.span))?;
        Ok(())
    }

    /// The precedence line in which a symbol stands by this name, and where.
    pub(crate) fn line(&self, number: usize) -> Option<(usize, Span)>
        ensures { result ≡ get nat_cmp self.now.lines number }
    {
        self.lines.get(&number).copied()
    }

    /// Where the other name of a symbol stands in a precedence line, and behind that this name does.
    pub(super) fn two_levels(&self, number: usize) -> Option<(Span, Span)> {
        let partner = self.symbols.partner(number)?;
        match (self.line(partner), self.line(number)) {
            (Some((_, there)), Some((_, here))) if there.end < here.end => Some((there, here)),
            _ => None,
        }
    }
}
