//! The names of a file of grmtools: each must be that of a rule, or of a token that is declared or stands in quotes. Without
//! quotes, a body has a token only behind the place that makes it one.

ghost use Rattle.std.specs.Prelude.{OnOk};
ghost use Rattle.lryacc.specs.EndTokens.{KeepsMeaning};

use crate::contents::{Alternative, BodyPart, Contents, Statement};
use crate::faults::{Fault, FaultKind};
use crate::lexemes::{Lexeme, LexemeKind};
use crate::meaning::Meaning;
use crate::spellings::Meant;
use crate::symbols::{Class, Symbol};
use std::alloc::AllocError;
use std::collections::BTreeSet;

impl<'a> Meaning<'a> {
    /// Tells of names that stand for nothing, and of tokens behind `%prec` that have no precedence.
    pub(crate) fn tell_unknown(&mut self, contents: &Contents) -> Result<(), AllocError>
        ensures { OnOk result (KeepsMeaning self.old self.new) }
    {
        for statement in &contents.statements {
            if let Statement::Start(name) | Statement::Mention(name) = statement {
                self.tell_unless_known(*name, usize::MAX)?;
            }
        }
        self.tell_unknown_in_bodies(contents.alternatives.as_slice())
    }

    /// Tells of such names in bodies, and of what stands behind `%prec` and is no token, or has no precedence.
    fn tell_unknown_in_bodies(&mut self, alternatives: &[Alternative]) -> Result<(), AllocError>
        ensures { OnOk result (KeepsMeaning self.old self.new) }
    {
        for alternative in alternatives {
            self.tell_unknown_parts(alternative.parts.as_slice())?;
            let Some(token) = alternative.precedence else {
                continue;
            };
            self.tell_unless_known(token, usize::MAX)?;
            match self.symbols.find(token) {
                Some(number) if self.line(number).is_some() => {}
                _ => self.tell(FaultKind::NoPrecedence, token.span)?,
            }
        }
        Ok(())
    }

    /// Tells of such names in a body.
    fn tell_unknown_parts(&mut self, parts: &[BodyPart]) -> Result<(), AllocError>
        ensures { OnOk result (KeepsMeaning self.old self.new) }
    {
        for part in parts {
            if let BodyPart::Symbol(name) = part {
                self.tell_unless_known(*name, name.span.end)?;
            }
        }
        Ok(())
    }

    /// The names that `%expect-unused` has, or `%epp`.
    fn mentioned(&self, statements: &[Statement]) -> Result<BTreeSet<&'a [u8]>, AllocError> {
        let mut names = BTreeSet::new(*self.faults.allocator());
        for statement in statements {
            if let Statement::Mention(name) = statement {
                names.insert(self.symbols.name(*name))?;
            }
        }
        Ok(names)
    }

    /// Warns of useless rules, but for those that are expected to be so.
    pub(crate) fn warn_unless_expected(
        &mut self,
        contents: &Contents,
        rules: &[Fault],
    ) -> Result<(), AllocError> {
        let names = self.mentioned(contents.statements.as_slice())?;
        for rule in rules {
            let (kind, span) = (LexemeKind::RuleName, rule.span);
            let name = self.symbols.name(Lexeme { kind, span });
            if !names.contains(&name) {
                self.warnings.push(*rule)?;
            }
        }
        Ok(())
    }

    /// Tells of a name that is neither that of a rule nor of a token before a place.
    fn tell_unless_known(&mut self, name: Lexeme, end: usize) -> Result<(), AllocError>
        ensures { OnOk result (KeepsMeaning self.old self.new) }
    {
        let is_known = match self.symbols.named(name) {
            Some(symbol) if symbol.class == Class::Rule => true,
            Some(
                Symbol {
                    declared: Some(first),
                    ..
                },
            ) => first.start < end,
            _ => false,
        };
        if is_known {
            return Ok(());
        }
        let near = self.near(name, Meant::Symbol)?;
        self.tell(FaultKind::Undefined(near), name.span)
    }
}
