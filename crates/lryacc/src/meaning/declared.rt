//! What declarations make of a symbol: a token or a rule, a start symbol, or one with a number.

ghost use Rattle.std.specs.Prelude.{[], ◌∷◌, OnOk};
ghost use Rattle.lryacc.specs.EndTokens.{KeepsExpected, KeepsLines, KeepsMeaning, KeepsSaid, KeepsTables, TakesEnd};
ghost use Rattle.lryacc.specs.SaidTaken.{TakesStart};
ghost use Rattle.lryacc.specs.NamedSymbols.{KeepsSymbols};
ghost use Rattle.lryacc.specs.declared.contents.Statement.{Statement};

use crate::dialects::Dialect;
use crate::faults::{FaultKind, OtherClass};
use crate::lexemes::{Lexeme, LexemeKind};
use crate::meaning::Meaning;
use crate::symbols::Class;
use std::alloc::AllocError;

/// The greatest number that is read, which no token has for its code.
const GREATEST: u64 = 2_147_483_647;

impl<'a> Meaning<'a> {
    /// Takes in that a symbol is of that class, and tells of what is wrong where it is of another one.
    pub(super) fn take_class(
        &mut self,
        lexeme: Lexeme,
        class: Class,
        wrong: OtherClass,
    ) -> Result<(), AllocError>
        ensures { OnOk result (KeepsMeaning self.old self.new) }
    {
        let Some(number) = self.symbols.find(lexeme) else {
            return Ok(());
        };
        let mut other = None;
        if let Some(symbol) = self.symbols.list.get_mut(number) {
            if symbol.class == class || symbol.class == Class::Unknown {
                symbol.class = class;
            } else {
                other = Some(symbol.span());
            }
        }
        if let Some(other) = other {
            self.tell(FaultKind::OtherClass(wrong, other), lexeme.span)?;
        }
        Ok(())
    }

    /// Takes in that a symbol is declared here, one of that class, and warns where it was declared before. A rule is to have a name.
    /// For grmtools each use between quotes declares a token.
    pub(super) fn declare(&mut self, lexeme: Lexeme, class: Class) -> Result<(), AllocError>
        ensures { OnOk result (KeepsMeaning self.old self.new) }
    {
        if class == Class::Rule && lexeme.kind != LexemeKind::Name {
            return self.tell(FaultKind::CharacterAsRule, lexeme.span);
        }
        self.take_class(lexeme, class, OtherClass::Both)?;
        let Some(number) = self.symbols.find(lexeme) else {
            return Ok(());
        };
        let mut first = None;
        if let Some(symbol) = self.symbols.list.get_mut(number) {
            first = symbol.declared;
            symbol.declared = first.or(Some(lexeme.span));
        }
        if let (Some(first), Dialect::Bison) = (first, self.symbols.dialect) {
            self.warn(FaultKind::DeclaredTwice(first), lexeme.span)?;
        }
        Ok(())
    }

    /// Takes in that a symbol is a start rule, and warns where it was one before.
    pub(super) fn take_start(&mut self, lexeme: Lexeme) -> Result<(), AllocError>
        ensures keeps { OnOk result (KeepsTables self.old self.new) }
        ensures expected { OnOk result (KeepsExpected self.old self.new) }
        ensures taken { OnOk result (TakesStart lexeme self.old self.new) }
    {
        let Some(number) = self.symbols.find(lexeme) else {
            return self.tell(FaultKind::StartHasNoRule(None), lexeme.span);
        };
        if !self.started.insert(number)? {
            return self.warn(FaultKind::StartTwice, lexeme.span);
        }
        self.starts.push(lexeme)?;
        Ok(())
    }

    /// Takes in the number of a token. It is less than the greatest one that is read.
    pub(super) fn take_code(&mut self, lexeme: Lexeme, number: Lexeme) -> Result<(), AllocError>
        ensures symbols { OnOk result (KeepsSymbols self.old.symbols self.new.symbols) }
        ensures lines { OnOk result (KeepsLines self.old self.new) }
        ensures said { OnOk result (KeepsSaid self.old self.new) }
        ensures end { OnOk result (TakesEnd (Statement.Code lexeme number ∷ []) self.old self.new) }
    {
        let Some(symbol) = self.symbols.find(lexeme) else {
            return Ok(());
        };
        let Some(code) = self.number(number)? else {
            return Ok(());
        };
        if self.symbols.class(symbol) == Class::Rule {
            return self.tell(FaultKind::CodeOfRule, number.span);
        }
        if code == GREATEST {
            return self.tell(FaultKind::LargeNumber, number.span);
        }
        if !self.give_code(symbol, code) {
            return self.tell(FaultKind::CodeTwice, number.span);
        }
        if code == 0 {
            self.end = self.end.or(Some(symbol));
        }
        Ok(())
    }

    /// Gives a symbol a number, unless it has another one.
    fn give_code(&mut self, symbol: usize, code: u64) -> bool
        ensures { KeepsMeaning self.old self.new }
    {
        match self.symbols.list.get_mut(symbol) {
            Some(symbol) => {
                let known = symbol.code.unwrap_or(code);
                symbol.code = Some(known);
                known == code
            }
            None => true,
        }
    }
}
