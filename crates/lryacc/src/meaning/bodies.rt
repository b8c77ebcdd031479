//! What is warned of in bodies.

ghost use Rattle.std.specs.Prelude.{OnOk};
ghost use Rattle.lryacc.specs.EndTokens.{KeepsMeaning};

use crate::contents::Alternative;
use crate::dialects::Dialect;
use crate::faults::FaultKind;
use crate::lexemes::Lexeme;
use crate::meaning::Meaning;
use crate::spellings::Meant;
use std::alloc::AllocError;

/// Whether `%empty` stands in one of the bodies.
fn has_empty(alternatives: &[Alternative]) -> bool {
    for alternative in alternatives {
        if alternative.has_empty {
            return true;
        }
    }
    false
}

impl<'a> Meaning<'a> {
    /// Warns of what bodies have: tokens behind `%prec`, for Bison also references of actions, and none where `%empty` should
    /// stand.
    pub(super) fn warn_of_bodies(&mut self, alternatives: &[Alternative]) -> Result<(), AllocError>
        ensures { OnOk result (KeepsMeaning self.old self.new) }
    {
        self.warn_of_precedences(alternatives)?;
        if self.symbols.dialect == Dialect::Grmtools {
            return Ok(());
        }
        self.warn_of_references(alternatives)?;
        if has_empty(alternatives) {
            self.warn_of_empty(alternatives)?;
        }
        Ok(())
    }

    /// Warns of empty bodies without `%empty`.
    fn warn_of_empty(&mut self, alternatives: &[Alternative]) -> Result<(), AllocError>
        ensures { OnOk result (KeepsMeaning self.old self.new) }
    {
        for alternative in alternatives {
            if !alternative.has_empty && alternative.is_empty() {
                self.warn(FaultKind::EmptyUnsaid, alternative.span)?;
            }
        }
        Ok(())
    }

    /// Warns of tokens that stand behind `%prec` and nowhere else.
    fn warn_of_precedences(&mut self, alternatives: &[Alternative]) -> Result<(), AllocError>
        ensures { OnOk result (KeepsMeaning self.old self.new) }
    {
        for alternative in alternatives {
            if let Some(token) = alternative.precedence {
                if !self.is_known(token) {
                    let near = self.near(token, Meant::Level)?;
                    self.warn(FaultKind::UnknownPrecedence(near), token.span)?;
                }
            }
        }
        Ok(())
    }

    /// Whether a declaration or a body names a token.
    fn is_known(&self, token: Lexeme) -> bool {
        let Some(number) = self.symbols.find(token) else {
            return false;
        };
        match self.symbols.list.get(number) {
            Some(symbol) => {
                symbol.declared.is_some()
                    || self.line(number).is_some()
                    || self.symbols.partner(number).is_some()
                    || symbol.is_used
            }
            None => false,
        }
    }
}
