//! The tokens of the grammar of a file, and their precedences.

ghost use Rattle.std.specs.Prelude.{◌≡◌, ◌<◌, ◌+◌, ◌*◌, true, [], ◌∷◌, ◌++◌, Some, length, slice_get, string_bytes};
ghost use Rattle.std.specs.Prelude.{IfOk, OnOk, None};
ghost use Rattle.std.specs.BTreeMap.{get};
ghost use Rattle.lryacc.specs.Levels.{group_of, line_of, precedence_of};
ghost use Rattle.lryacc.specs.NamedSymbols.{IsTokenText, name_of};
ghost use Rattle.lryacc.specs.Numbered.{AddsNumbers, BeginsWithEnd, GivesToken, IsNumbered, names_of};

use crate::contents::LevelKind;
use crate::dialects::Dialect;
use crate::lexemes::{Lexeme, LexemeKind};
use crate::names::{character_text, name_text};
use crate::numbering::{NoProductions, Numbering, nowhere};
use crate::symbols::{Class, Symbol};
use lrgrammar::grammar::{AssocKind, PartToken, Precedence};
use std::alloc::AllocError;
use std::collections::BTreeMap;

/// The name of the end token, where the file gives it none.
const END: &str = "$end";

/// The token for what its lexer does not know.
const UNDEFINED: usize = 2;

/// How tokens of a level group, in a grammar. Those of `%precedence` stand in a level by themselves.
fn kind_of(kind: LevelKind) -> AssocKind
    ensures { result ≡ group_of kind }
{
    match kind {
        LevelKind::Left => AssocKind::Left,
        LevelKind::Right => AssocKind::Right,
        LevelKind::Nonassoc | LevelKind::Precedence => AssocKind::Nonassoc,
    }
}

impl<'m, 'a> Numbering<'m, 'a> {
    /// The level of a token, by either of its names.
    pub(super) fn level(&self, number: usize) -> Option<usize>
        ensures { result ≡ line_of self.now.meaning.now number }
    {
        let line = match self.meaning.line(number) {
            Some(line) => line,
            None => self.meaning.line(self.meaning.symbols.partner(number)?)?,
        };
        Some(line.0)
    }

    /// The precedence of a token: levels are twice as many as in the file, so that there is one below each.
    fn precedence(&self, number: usize) -> Option<Precedence>
        ensures { result ≡ precedence_of (names_of self.now).lines
            ((names_of self.now).line number) }
    {
        let level = self.level(number)?;
        let kind = *self.meaning.levels.get(level.checked_sub(1)?)?;
        Some(Precedence {
            level: level as u64 * 2,
            kind: kind_of(kind),
        })
    }

    /// Whether a symbol is the end token because of its name alone.
    fn is_end_by_name(&self, number: usize, symbol: Symbol) -> bool
        ensures { result ≡ true → slice_get self.now.meaning.now.symbols.list.items number
            ≡ Some symbol → (names_of self.now).end ≡ Some number }
    {
        let has_partner = self.meaning.symbols.partner(number).is_some();
        self.meaning.end == Some(number) && symbol.code.is_none() && !has_partner
    }

    /// The name that a token has in the grammar: as it stands in the file, a character as Bison tells it, and for grmtools always
    /// in quotes.
    fn token_name(&self, told: Lexeme) -> Result<String, AllocError>
        ensures { IfOk result (λ name. IsTokenText (names_of self.now).dialect told.kind
            (name_of (names_of self.now).text (names_of self.now).dialect told)
            (string_bytes name)) }
    {
        if let LexemeKind::Character(byte) = told.kind {
            return character_text(self.allocator(), byte);
        }
        let name = name_text(self.allocator(), self.meaning.symbols.name(told))?;
        match self.meaning.symbols.dialect {
            Dialect::Bison => Ok(name),
            Dialect::Grmtools => format!(in self.allocator(); "'{name}'"),
        }
    }

    /// Adds a token of the grammar, and answers its number.
    pub(super) fn add_token(
        &mut self,
        name: String,
        precedence: Option<Precedence>,
    ) -> Result<usize, AllocError>
        ensures added { OnOk result (AddsNumbers self.old self.new) }
        ensures number { IfOk result (λ number.
            slice_get (names_of self.new).tokens number ≡ Some (string_bytes name)) }
        ensures same_tokens { OnOk result (self.new.tokens ≡ self.old.tokens) }
        ensures last { IfOk result (λ number. number ≡ length (names_of self.old).tokens) }
        ensures precedence { IfOk result (λ number.
            slice_get (names_of self.new).precedences number ≡ Some precedence) }
        ensures tokens { OnOk result ((names_of self.new).tokens
            ≡ (names_of self.old).tokens ++ string_bytes name ∷ []) }
    {
        let number = self.grammar.parts.tokens.len();
        self.grammar
            .parts
            .tokens
            .push(PartToken { name, precedence })?;
        Ok(number)
    }

    /// Adds the token of a symbol. One with two names is told by the text.
    fn add_token_of(&mut self, number: usize) -> Result<(), AllocError>
        ensures { OnOk result (AddsNumbers self.old self.new) }
    {
        let Some(symbol) = self.known(number) else {
            return Ok(());
        };
        if self.is_end_by_name(number, symbol) {
            let name = String::from_str(self.allocator(), END)?;
            let token = self.add_token(name, self.precedence(number))?;
            return self.give_token(number, token);
        }
        let partner = match self.meaning.symbols.partner(number) {
            Some(partner) => self.known(partner),
            None => None,
        };
        match partner {
            Some(partner) if partner.mention.kind != LexemeKind::Name => {
                self.add_told(partner.mention)
            }
            _ => self.add_told(symbol.mention),
        }
    }

    /// Gives a symbol a token, unless it has one.
    fn give_token(&mut self, number: usize, token: usize) -> Result<(), AllocError>
        ensures { OnOk result (GivesToken self.old self.new number token) }
    {
        if self.tokens.contains_key(&number) {
            return Ok(());
        }
        self.tokens.insert(number, token)?;
        Ok(())
    }

    /// Adds the token that a lexeme names, by that name.
    fn add_told(&mut self, told: Lexeme) -> Result<(), AllocError>
        ensures { OnOk result (AddsNumbers self.old self.new) }
    {
        let Some(number) = self.meaning.find(told) else {
            return Ok(());
        };
        let name = self.token_name(told)?;
        let precedence = self.precedence(number);
        let token = self.add_token(name, precedence)?;
        self.give_token(number, token)
    }

    /// Adds the end token: that of the symbol that the file has for it, or one that is called `$end`. It is the first token.
    fn add_end_token(&mut self) -> Result<(), NoProductions>
        requires { self.old.grammar.parts.tokens.items ≡ [] }
        ensures added { OnOk result (AddsNumbers self.old self.new) }
        ensures end { OnOk result (IsNumbered self.old → BeginsWithEnd self.new) }
    {
        let Some(end) = self.meaning.end else {
            let name = String::from_str(self.allocator(), END)?;
            let _ = self.add_token(name, None)?;
            return Ok(());
        };
        let number = self.meaning.canonical(end);
        self.add_token_of(number)?;
        match self.tokens.get(&number) {
            Some(0) => Ok(()),
            _ => Err(NoProductions::Undefined(nowhere())),
        }
    }

    /// Adds the token of a symbol, or one of that name where there is no such symbol.
    #[tactic(auto, using(crate::proofs::Numbered::adds_again, crate::proofs::Numbered::adds_none))]
    fn add_token_or(&mut self, number: Option<usize>, name: &str) -> Result<(), AllocError>
        ensures { OnOk result (AddsNumbers self.old self.new) }
    {
        if let Some(number) = number {
            return self.add_token_of(self.meaning.canonical(number));
        }
        let name = String::from_str(self.allocator(), name)?;
        let _ = self.add_token(name, None)?;
        Ok(())
    }

    /// Adds the tokens that each grammar has: the end token, `error`, and one that stands in no body.
    #[tactic(auto, using(crate::proofs::Numbered::adds_again, crate::proofs::Numbered::adds_none))]
    pub(super) fn add_first_tokens(&mut self) -> Result<(), NoProductions>
        requires { self.old.grammar.parts.tokens.items ≡ [] }
        ensures added { OnOk result (AddsNumbers self.old self.new) }
        ensures end { OnOk result (IsNumbered self.old → BeginsWithEnd self.new) }
    {
        self.add_end_token()?;
        self.add_token_or(self.meaning.symbols.find_name(b"error"), "error")?;
        self.add_token_or(self.meaning.symbols.find_name(b"YYUNDEF"), "$undefined")?;
        Ok(())
    }

    /// The symbols that are tokens, by their places in the file.
    fn ordered_tokens(&self) -> Result<BTreeMap<usize, usize>, AllocError> {
        let mut ordered = BTreeMap::new(self.allocator());
        for number in 0..self.meaning.symbols.list.len() {
            if let Some(symbol) = self.known(number) {
                let is_there = self.tokens.contains_key(&number);
                let is_told = self.meaning.canonical(number) == number;
                if symbol.class == Class::Token && is_told && !is_there {
                    ordered.insert(self.meaning.place(number), number)?;
                }
            }
        }
        Ok(ordered)
    }

    /// Adds the other tokens.
    #[tactic(auto, using(crate::proofs::Numbered::adds_again, crate::proofs::Numbered::adds_none))]
    pub(super) fn add_tokens(&mut self) -> Result<(), AllocError>
        ensures { OnOk result (AddsNumbers self.old self.new) }
    {
        let ordered = self.ordered_tokens()?;
        for number in ordered.values() {
            self.add_token_of(*number)?;
        }
        Ok(())
    }

    /// Adds a token below the tokens of each `%precedence` line.
    #[tactic(auto, using(crate::proofs::Numbered::adds_again, crate::proofs::Numbered::adds_none))]
    pub(super) fn add_tokens_below(&mut self) -> Result<(), AllocError>
        ensures { OnOk result (AddsNumbers self.old self.new) }
    {
        for before in 0..self.meaning.levels.len() {
            if !matches!(self.meaning.levels.get(before), Some(LevelKind::Precedence)) {
                continue;
            }
            let number = before + 1;
            let name = format!(in self.allocator(); "%precedence {number}")?;
            let level = before as u64 * 2 + 1;
            let kind = AssocKind::Nonassoc;
            let token = self.add_token(name, Some(Precedence { level, kind }))?;
            self.below.insert(before, token)?;
        }
        Ok(())
    }

    /// Finds a token without a level, where productions without `%prec` have no precedence: the unknown one, or one that is added
    /// where that has a level.
    #[tactic(auto, using(crate::proofs::Numbered::adds_again, crate::proofs::Numbered::adds_none))]
    pub(super) fn add_without_level(&mut self) -> Result<(), AllocError>
        ensures { OnOk result (AddsNumbers self.old self.new) }
    {
        if self.meaning.has_default_precedence {
            return Ok(());
        }
        if self.is_without_level(UNDEFINED) {
            self.without_level = Some(UNDEFINED);
            return Ok(());
        }
        let name = String::from_str(self.allocator(), "%no-default-prec")?;
        self.without_level = Some(self.add_token(name, None)?);
        Ok(())
    }

    /// Whether a token has no level.
    fn is_without_level(&self, number: usize) -> bool
        ensures { result ≡ true → slice_get (names_of self.now).precedences number ≡ Some None }
    {
        match self.grammar.parts.tokens.get(number) {
            Some(token) => token.precedence.is_none(),
            None => false,
        }
    }
}
