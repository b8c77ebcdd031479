//! What is told of useless rules and productions.

ghost use Rattle.std.specs.Prelude.{◌≡◌, ◌+◌, ◌++◌, All, length, map, OnOk, vec_len};
ghost use Rattle.lryacc.specs.Told.{IsUselessIn, fault_at};

use crate::contents::Contents;
use crate::dialects::Dialect;
use crate::faults::{Fault, FaultKind};
use crate::lexemes::{Lexeme, LexemeKind};
use crate::meaning::Meaning;
use crate::places::Span;
use crate::spellings::Meant;
use crate::symbols::Class;
use crate::useful::Useless;
use std::alloc::AllocError;

/// Adds the same fault at each of the places.
fn add_at(faults: &mut Vec<Fault>, kind: FaultKind, places: &[Span]) -> Result<(), AllocError>
    ensures count { OnOk result (vec_len faults.new ≡ vec_len faults.old + length places.now) }
    ensures added { OnOk result (faults.new.items
        ≡ faults.old.items ++ map (fault_at kind) places.now) }
{
    for span in places {
        faults.push(Fault { kind, span: *span })?;
    }
    Ok(())
}

impl<'a> Meaning<'a> {
    /// Tells of start symbols that derive no text, and warns of what is useless. A start symbol that is a token may stand beside
    /// others, as for Bison only where nothing is useless.
    pub(crate) fn tell_useless(
        &mut self,
        dialect: Dialect,
        contents: &Contents,
        useless: &Useless,
    ) -> Result<(), AllocError>
        ensures rules { OnOk result (dialect ≡ Dialect.Bison → vec_len self.new.warnings ≡ 0
            → vec_len useless.now.rules ≡ 0) }
        ensures productions { OnOk result (vec_len self.new.warnings ≡ 0
            → vec_len useless.now.productions ≡ 0) }
        ensures warned { OnOk result (All (IsUselessIn self.new.warnings.items)
            useless.now.productions.items) }
    {
        if !useless.rules.is_empty() || !useless.productions.is_empty() {
            self.tell_token_starts()?;
        }
        self.tell_unproductive(useless.starts.as_slice())?;
        let rules = useless.rules.as_slice();
        match dialect {
            Dialect::Bison => self.warnings.extend_from_slice(rules)?,
            Dialect::Grmtools => self.warn_unless_expected(contents, rules)?,
        }
        let productions = useless.productions.as_slice();
        add_at(
            &mut self.warnings,
            FaultKind::UselessProduction,
            productions,
        )?;
        Ok(())
    }

    /// Tells of start symbols that derive no text.
    fn tell_unproductive(&mut self, starts: &[Span]) -> Result<(), AllocError> {
        for span in starts {
            let name = Lexeme {
                kind: LexemeKind::RuleName,
                span: *span,
            };
            match self.symbols.named(name) {
                Some(symbol) if symbol.class == Class::Unknown => {
                    let near = self.near(name, Meant::Rule)?;
                    self.tell(FaultKind::StartHasNoRule(near), *span)?;
                }
                _ => self.tell(FaultKind::StartIsUnproductive, *span)?,
            }
        }
        Ok(())
    }

    /// Tells of start symbols that are tokens.
    fn tell_token_starts(&mut self) -> Result<(), AllocError> {
        for at in 0..self.starts.len() {
            if let Some(start) = self.starts.get(at).copied() {
                let symbol = self.symbols.named(start);
                if matches!(symbol, Some(symbol) if symbol.class == Class::Token) {
                    self.tell(FaultKind::StartIsToken, start.span)?;
                }
            }
        }
        Ok(())
    }
}
