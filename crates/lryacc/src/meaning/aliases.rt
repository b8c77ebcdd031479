//! Other names of symbols: the texts that declarations give to tokens.

ghost use Rattle.std.specs.Prelude.{◌≡◌, ◌≤◌, [], ◌∷◌, OnOk, true, false, None, vec_len};
ghost use Rattle.lryacc.specs.Aliases.{AreFree, HasText, IsSettled, TakesAliases};
ghost use Rattle.lryacc.specs.EndTokens.{KeepsLines, KeepsSaid};
ghost use Rattle.lryacc.specs.NamedSymbols.{BecomeOne, TakesOne, partner_in};
ghost use Rattle.lryacc.specs.Spellings.{proposal};
ghost use Rattle.lryacc.specs.declared.contents.Statement.{Statement};

use crate::faults::FaultKind;
use crate::lexemes::Lexeme;
use crate::meaning::Meaning;
use crate::symbols::Class;
use std::alloc::AllocError;

impl<'a> Meaning<'a> {
    /// Makes a text another name of a symbol, unless one of them has another name already.
    pub(super) fn take_alias(&mut self, symbol: Lexeme, text: Lexeme) -> Result<(), AllocError>
        ensures taken { OnOk result (TakesOne (Statement.Alias symbol text) self.old.symbols
            self.new.symbols) }
        ensures end { OnOk result (self.new.end ≡ self.old.end) }
        ensures faults { OnOk result (vec_len self.old.faults ≤ vec_len self.new.faults) }
        ensures lines { OnOk result (KeepsLines self.old self.new) }
        ensures said { OnOk result (KeepsSaid self.old self.new) }
        ensures aliases { OnOk result (TakesAliases (Statement.Alias symbol text ∷ []) self.old
            self.new) }
    {
        let (Some(one), Some(other)) = (self.symbols.find(symbol), self.symbols.find(text)) else {
            return Ok(());
        };
        if self.symbols.class(one) == Class::Rule {
            return self.tell(FaultKind::NameOfRule, text.span);
        }
        if self.can_pair(one, other) {
            return self.pair(one, other);
        }
        if self.symbols.partner(one) == Some(other) {
            return Ok(());
        }
        self.warn(self.second_name(one, other), text.span)
    }

    /// Why a text can't become another name of a symbol.
    fn second_name(&self, symbol: usize, text: usize) -> FaultKind
        ensures { proposal result ≡ None }
    {
        if let Some(holder) = self.symbols.partner(text) {
            return match self.symbols.list.get(holder) {
                Some(symbol) => FaultKind::TextOfOther(symbol.span()),
                None => FaultKind::SecondName,
            };
        }
        let Some(first) = self.symbols.partner(symbol) else {
            return FaultKind::SecondName;
        };
        match self.symbols.list.get(first) {
            Some(symbol) => FaultKind::SecondText(symbol.span()),
            None => FaultKind::SecondName,
        }
    }

    /// Whether two names can become those of one symbol: neither has another one.
    fn can_pair(&self, one: usize, other: usize) -> bool
        ensures free { result ≡ true → AreFree self.now.symbols one other }
        ensures settled { result ≡ false → IsSettled self.now.symbols one other }
    {
        !self.has_text(one) && self.symbols.partner(other).is_none() && one != other
    }

    /// Makes two names those of one symbol, which has the class of the first one.
    fn pair(&mut self, one: usize, other: usize) -> Result<(), AllocError>
        ensures one { OnOk result (BecomeOne self.old.symbols self.new.symbols one other) }
        ensures end { OnOk result (self.new.end ≡ self.old.end) }
        ensures faults { OnOk result (vec_len self.old.faults ≤ vec_len self.new.faults) }
        ensures lines { OnOk result (KeepsLines self.old self.new) }
        ensures said { OnOk result (KeepsSaid self.old self.new) }
    {
        self.symbols.pair(one, other)?;
        let class = self.symbols.class(one);
        self.symbols.set_class(other, class);
        self.tell_tags(one, other)
    }

    /// Whether a symbol has another name already, as `error` and `YYUNDEF` have for Bison.
    fn has_text(&self, number: usize) -> bool
        ensures none { result ≡ false → partner_in self.now.symbols number ≡ None }
        ensures some { result ≡ true → HasText self.now.symbols number }
    {
        let is_error = self.symbols.find_name(b"error") == Some(number);
        let is_undefined = self.symbols.find_name(b"YYUNDEF") == Some(number);
        is_error || is_undefined || self.symbols.partner(number).is_some()
    }
}
