//! Which token the production of a body names for its precedence.

ghost use Rattle.std.specs.Prelude.{Some, IfOk, MatchOption, None};
ghost use Rattle.lryacc.specs.BodyPrecedences.{IsBelowOf, IsInNoPrecedenceLine, IsInPrecedenceLine, IsLastToken, IsLastWith};
ghost use Rattle.lryacc.specs.BodyPrecedences.{IsPrecedence, IsPrecedenceWithout};
ghost use Rattle.lryacc.specs.Numbered.{IsLevelled, IsNumbered, names_of};

use crate::contents::{Alternative, BodyPart, LevelKind};
use crate::lexemes::Lexeme;
use crate::numbering::{NoProductions, Numbering};
use lrgrammar::grammar::PartSymbol;

impl<'m, 'a> Numbering<'m, 'a> {
    /// The lexeme of the last token of a body.
    fn last_token(&self, alternative: &Alternative) -> Result<Option<Lexeme>, NoProductions>
        requires { IsNumbered self.now }
        ensures { IfOk result (IsLastToken (names_of self.now) alternative.now.parts.items) }
    {
        let mut last = None;
        for part in &alternative.parts {
            last = self.token_or(*part, last)?;
        }
        Ok(last)
    }

    /// The lexeme of a part, if that is a token, and else that of the last token before it.
    fn token_or(
        &self,
        part: BodyPart,
        last: Option<Lexeme>,
    ) -> Result<Option<Lexeme>, NoProductions>
        requires { IsNumbered self.now }
        ensures { IfOk result (IsLastWith (names_of self.now) part last) }
    {
        let BodyPart::Symbol(lexeme) = part else {
            return Ok(last);
        };
        match self.symbol(lexeme) {
            Some(PartSymbol::Token(_)) => Ok(Some(lexeme)),
            Some(PartSymbol::Rule(_)) => Ok(last),
            None => Err(NoProductions::Undefined(lexeme.span)),
        }
    }

    /// How many lines begin before the `%precedence` line in which a symbol stands; None where it stands in no such line.
    fn lines_before(&self, symbol: Lexeme) -> Option<usize>
        ensures { MatchOption result (IsInNoPrecedenceLine (names_of self.now) symbol)
            (IsInPrecedenceLine (names_of self.now) symbol) }
    {
        let number = self.meaning.find(symbol)?;
        let before = self.level(number)?.checked_sub(1)?;
        match self.meaning.levels.get(before) {
            Some(LevelKind::Precedence) => Some(before),
            _ => None,
        }
    }

    /// The token below the `%precedence` line in which a symbol stands; None where it stands in no such line.
    fn below_of(&self, symbol: Lexeme) -> Result<Option<usize>, NoProductions>
        requires { IsLevelled self.now }
        ensures { IfOk result (IsBelowOf (names_of self.now) symbol) }
    {
        let Some(before) = self.lines_before(symbol) else {
            return Ok(None);
        };
        match self.below.get(&before) {
            Some(token) => Ok(Some(*token)),
            None => Err(NoProductions::Undefined(symbol.span)),
        }
    }

    /// The token that a body without `%prec` names for its precedence, where that is not simply its last one.
    fn precedence_without(&self, alternative: &Alternative) -> Result<Option<usize>, NoProductions>
        requires numbered { IsNumbered self.now }
        requires levelled { IsLevelled self.now }
        ensures { IfOk result (IsPrecedenceWithout (names_of self.now)
            alternative.now.parts.items) }
    {
        if self.meaning.has_default_precedence {
            return match self.last_token(alternative)? {
                Some(last) => Ok(self.below_of(last)?),
                None => Ok(None),
            };
        }
        match self.without_level {
            Some(token) => Ok(Some(token)),
            None => Err(NoProductions::Undefined(alternative.span)),
        }
    }

    /// The token that the production of a body names for its precedence, where that is not simply its last one. Where the one behind
    /// `%prec` is of a `%precedence` line, it is the one below.
    pub(super) fn named_precedence(
        &self,
        alternative: &Alternative,
    ) -> Result<Option<usize>, NoProductions>
        requires numbered { IsNumbered self.now }
        requires levelled { IsLevelled self.now }
        ensures { IfOk result (IsPrecedence (names_of self.now) alternative.now.precedence
            alternative.now.parts.items) }
    {
        let Some(name) = alternative.precedence else {
            return self.precedence_without(alternative);
        };
        match (self.below_of(name)?, self.token(name)) {
            (Some(below), _) => Ok(Some(below)),
            (None, Some(token)) => Ok(Some(token)),
            (None, None) => Err(NoProductions::Undefined(name.span)),
        }
    }
}
