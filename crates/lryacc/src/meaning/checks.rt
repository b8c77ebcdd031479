//! What is wrong with symbols, once all that the file says of them is taken in.

ghost use Rattle.std.specs.Prelude.{OnOk};
ghost use Rattle.lryacc.specs.EndTokens.{KeepsMeaning};

use crate::dialects::Dialect;
use crate::faults::FaultKind;
use crate::meaning::Meaning;
use crate::places::Span;
use crate::spellings::Meant;
use crate::symbols::{Class, Symbol};
use std::alloc::AllocError;
use std::collections::BTreeMap;

impl<'a> Meaning<'a> {
    /// Tells what is wrong with symbols: two levels, a code of another symbol, no meaning.
    pub(super) fn tell_symbols(&mut self) -> Result<(), AllocError>
        ensures { OnOk result (KeepsMeaning self.old self.new) }
    {
        // The first symbols by their codes, of those that were looked at.
        let mut first = BTreeMap::new(*self.faults.allocator());
        for number in 0..self.symbols.list.len() {
            let Some(symbol) = self.symbols.list.get(number).copied() else {
                break;
            };
            if let Some((there, here)) = self.two_levels(number) {
                self.tell(FaultKind::LevelTwice(there), here)?;
            }
            if let Some(code) = symbol.code {
                self.tell_code(&mut first, code, symbol.span())?;
            }
            self.tell_undefined(symbol)?;
        }
        Ok(())
    }

    /// Tells of the later one of a symbol with a code and the first other one that has it. Takes in which is the first one then.
    fn tell_code(
        &mut self,
        first: &mut BTreeMap<u64, Span>,
        code: u64,
        span: Span,
    ) -> Result<(), AllocError>
        ensures { OnOk result (KeepsMeaning self.old self.new) }
    {
        if let Some(other) = first.get(&code).copied() {
            if other.start < span.start {
                return self.tell(FaultKind::CodeOfOther(code, other), span);
            }
            self.tell(FaultKind::CodeOfOther(code, span), other)?;
        }
        first.insert(code, span)?;
        Ok(())
    }

    /// Tells that a symbol is nothing, though a body has it, and warns of one that only declarations name.
    fn tell_undefined(&mut self, symbol: Symbol) -> Result<(), AllocError>
        ensures { OnOk result (KeepsMeaning self.old self.new) }
    {
        if symbol.class != Class::Unknown {
            return Ok(());
        }
        let kind = FaultKind::Undefined(self.near(symbol.mention, Meant::Symbol)?);
        if symbol.is_used {
            self.tell(kind, symbol.mention.span)
        } else {
            self.warn(kind, symbol.mention.span)
        }
    }

    /// Tells of start symbols that are no rules. One may be a token where it isn't the only one, and for Bison one that nothing
    /// else names is a rule without bodies.
    pub(super) fn tell_starts(&mut self) -> Result<(), AllocError>
        ensures { OnOk result (KeepsMeaning self.old self.new) }
    {
        for at in 0..self.starts.len() {
            let Some(start) = self.starts.get(at).copied() else {
                break;
            };
            let Some(symbol) = self.symbols.named(start) else {
                continue;
            };
            match symbol.class {
                Class::Token if self.starts.len() == 1 => {
                    self.tell(FaultKind::StartIsToken, symbol.span())?;
                }
                Class::Unknown if self.symbols.dialect == Dialect::Grmtools => {
                    let near = self.near(start, Meant::Rule)?;
                    self.tell(FaultKind::StartHasNoRule(near), start.span)?;
                }
                _ => {}
            }
        }
        Ok(())
    }
}
