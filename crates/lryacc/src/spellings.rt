//! Names that are spelt nearly as another one, which they may be meant by.

ghost use Rattle.std.specs.Prelude.{◌≡◌, ◌⊎◌, IfOk, IfSome};
ghost use Rattle.lryacc.specs.NamedSymbols.{name_of};
ghost use Rattle.lryacc.specs.Spellings.{IsNear, IsNearSymbol, IsNearer, IsProposed, IsProposedAt};

use crate::lexemes::{Lexeme, LexemeKind};
use crate::meaning::Meaning;
use crate::places::Span;
use crate::symbols::{Class, Symbol};
use std::alloc::{AllocError, Global};
use strsim::generic_levenshtein;

/// How many bytes a name has at the most for which near ones are looked for.
const LONGEST: usize = 64;

/// Of how many names that stand for nothing the near ones are looked for.
const SOUGHT: usize = 100;

/// A name among others that is near to another one.
#[derive(Clone, Copy)]
pub(crate) struct Near {
    /// How many edits make the other one of it.
    edits: usize,
    /// Its number.
    pub(crate) at: usize,
}

/// How many edits make a name another one that is near; None where that is not near, or the same.
fn edits_of(alloc: Global, name: &[u8], other: &[u8]) -> Result<Option<usize>, AllocError>
    ensures { IfOk result (λ edits. IfSome edits (λ _. IsNear name.now other.now)) }
{
    let most = name.len() / 3;
    if name.len() > LONGEST || name.len().abs_diff(other.len()) > most {
        return Ok(None);
    }
    let edits = generic_levenshtein(alloc, name, other)?;
    if 0 < edits && edits <= most {
        Ok(Some(edits))
    } else {
        Ok(None)
    }
}

/// The name of a number, if it is nearer than the best so far, and else that.
pub(crate) fn nearer(
    alloc: Global,
    name: &[u8],
    other: &[u8],
    at: usize,
    best: Option<Near>,
) -> Result<Option<Near>, AllocError>
    ensures { IfOk result (IsNearer name.now other.now at best) }
{
    match (edits_of(alloc, name, other)?, best) {
        (None, _) => Ok(best),
        (Some(edits), Some(known)) if known.edits <= edits => Ok(best),
        (Some(edits), _) => Ok(Some(Near { edits, at })),
    }
}

/// What a name may be meant for.
#[derive(Clone, Copy)]
pub(crate) enum Meant {
    /// A token or a rule.
    Symbol,
    /// A rule.
    Rule,
    /// A token that has a precedence.
    Level,
}

/// Whether a lexeme is a name.
fn is_name(lexeme: Lexeme) -> bool {
    matches!(
        lexeme.kind,
        LexemeKind::Name | LexemeKind::RuleName | LexemeKind::QuotedName
    )
}

impl<'a> Meaning<'a> {
    /// The symbol of a number, if its name is nearer to that of a lexeme than the best so far, and else that.
    fn nearer_symbol(
        &self,
        lexeme: Lexeme,
        meant: Meant,
        number: usize,
        best: Option<Near>,
    ) -> Result<Option<Near>, AllocError>
        ensures { IfOk result (λ nearest. (nearest ≡ best) ⊎ IfSome nearest
            (IsNearSymbol self.now.symbols (name_of self.now.symbols.text.now
            self.now.symbols.dialect lexeme))) }
    {
        let alloc = *self.faults.allocator();
        let Some(symbol) = self.symbols.list.get(number).copied() else {
            return Ok(best);
        };
        let is_meant = match meant {
            Meant::Symbol => symbol.class != Class::Unknown,
            Meant::Rule => symbol.class == Class::Rule,
            Meant::Level => self.line(number).is_some(),
        };
        if !is_meant || !is_name(symbol.mention) {
            return Ok(best);
        }
        let name = self.symbols.name(lexeme);
        let other = self.symbols.name(symbol.mention);
        nearer(alloc, name, other, number, best)
    }

    /// Where the symbol is named first whose name is nearest to that of a lexeme.
    pub(crate) fn near(&self, lexeme: Lexeme, meant: Meant) -> Result<Option<Span>, AllocError>
        ensures proposed { IfOk result (λ place. IfSome place (IsProposed self.now.symbols
            (name_of self.now.symbols.text.now self.now.symbols.dialect lexeme))) }
        ensures at { IfOk result (λ place. IfSome place (IsProposedAt self.now.symbols
            lexeme.span)) }
    {
        if !is_name(lexeme) || self.faults.len() >= SOUGHT || self.warnings.len() >= SOUGHT {
            return Ok(None);
        }
        let mut best = None;
        for number in 0..self.symbols.list.len() {
            best = self.nearer_symbol(lexeme, meant, number, best)?;
        }
        let Some(near) = best else {
            return Ok(None);
        };
        match self.symbols.list.get(near.at) {
            Some(symbol) => Ok(Some(symbol.mention.span)),
            None => Ok(None),
        }
    }
}
