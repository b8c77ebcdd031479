//! The symbols of a file.

ghost use Rattle.std.specs.Prelude.{◌≡◌, ◌&&◌, IfOk, OnOk};
ghost use Rattle.std.specs.BTreeMap.{IsEmpty};
ghost use Rattle.std.specs.Str.{bytes_eq};
ghost use Rattle.lryacc.specs.EndTokens.{for_bison};
ghost use Rattle.lryacc.specs.NamedSymbols.{Name, is_bison, name_of, number_in, number_of, partner_in};
ghost use Rattle.lryacc.specs.NamedSymbols.{AddsName, AddsNames, AreApart, HaveNumbers, KeepsSymbols, Pairs};

use crate::contents::{Alternative, BodyPart, Contents, Statement};
use crate::dialects::Dialect;
use crate::lexemes::{Lexeme, LexemeKind};
use crate::places::{Span, bytes};
use std::alloc::{AllocError, Global};
use std::collections::BTreeMap;

/// What a symbol is.
#[derive(Clone, Copy, PartialEq, Eq)]
pub(crate) enum Class {
    /// Nothing says so yet.
    Unknown,
    /// A token.
    Token,
    /// A rule.
    Rule,
}

/// A symbol.
#[derive(Clone, Copy)]
pub(crate) struct Symbol {
    /// Where it is named first.
    pub(crate) mention: Lexeme,
    pub(crate) class: Class,
    /// Where the first `%token` or `%nterm` names it.
    pub(crate) declared: Option<Span>,
    /// The tag of its values, and where that is said.
    pub(crate) tag: Option<(Span, Span)>,
    /// The number by which its lexer calls it: that of a character, or where the file gives it one.
    pub(crate) code: Option<u64>,
    /// Whether a body has it.
    pub(crate) is_used: bool,
}

impl Symbol {
    /// A symbol of that class, named here, in a body or not.
    fn new(mention: Lexeme, class: Class, is_used: bool) -> Symbol {
        Symbol {
            mention,
            class,
            declared: None,
            tag: None,
            code: match mention.kind {
                LexemeKind::Character(byte) => Some(u64::from(byte)),
                _ => None,
            },
            is_used,
        }
    }

    /// Where it is declared, or else where it is named first.
    pub(crate) fn span(&self) -> Span {
        self.declared.unwrap_or(self.mention.span)
    }
}

/// The symbols of a file, in the order in which they are named first.
#[derive(Drop)]
pub(crate) struct Symbols<'a> {
    pub(crate) text: &'a [u8],
    pub(crate) dialect: Dialect,
    names: BTreeMap<&'a [u8], usize>,
    characters: BTreeMap<u8, usize>,
    /// The other name of a symbol that has two, by the number of either.
    partners: BTreeMap<usize, usize>,
    pub(crate) list: Vec<Symbol>,
}

impl<'a> Symbols<'a> {
    /// No symbols.
    fn new(alloc: Global, text: &'a [u8], dialect: Dialect) -> Symbols<'a>
        ensures text { result.text.now ≡ text.now }
        ensures dialect { result.dialect ≡ dialect }
        ensures apart { HaveNumbers result }
        ensures single { IsEmpty result.partners }
    {
        Symbols {
            text,
            dialect,
            names: BTreeMap::new(alloc),
            characters: BTreeMap::new(alloc),
            partners: BTreeMap::new(alloc),
            list: Vec::new(alloc),
        }
    }

    /// The text behind a place.
    pub(crate) fn behind(&self, place: Span) -> &'a [u8] {
        let text = self.text;
        text.get(place.end..).unwrap_or(b"")
    }

    /// The number of the symbol of that name, which has a meaning of its own for Bison.
    pub(crate) fn find_name(&self, name: &'a [u8]) -> Option<usize>
        ensures { result ≡ for_bison self.now.dialect (number_in self.now (Name.word name.now)) }
    {
        match self.dialect {
            Dialect::Bison => self.names.get(&name).copied(),
            Dialect::Grmtools => None,
        }
    }

    /// Whether a name is one that has a meaning of its own for Bison.
    fn is_of_bison(&self, name: &[u8], other: &[u8]) -> bool
        ensures { result ≡ (is_bison self.now.dialect && bytes_eq name.now other.now) }
    {
        self.dialect == Dialect::Bison && name == other
    }

    /// The bytes that name a symbol: those of a text to be translated are those of the text, and `YYerror` is `error`. Quotes of
    /// grmtools are no part of a name.
    pub(crate) fn name(&self, lexeme: Lexeme) -> &'a [u8]
        ensures { result.now ≡ name_of self.now.text.now self.now.dialect lexeme }
    {
        let bytes = bytes(self.text, lexeme.span);
        match lexeme.kind {
            LexemeKind::TranslatedText => match bytes {
                [b'_', b'(', quoted @ .., b')'] => quoted,
                _ => bytes,
            },
            LexemeKind::QuotedName => match bytes {
                [_, name @ .., _] => name,
                _ => bytes,
            },
            LexemeKind::Name | LexemeKind::RuleName if self.is_of_bison(bytes, b"YYerror") =>
                b"error",
            _ => bytes,
        }
    }

    /// The number of the other name of a symbol.
    pub(crate) fn partner(&self, number: usize) -> Option<usize>
        ensures { result ≡ partner_in self.now number }
    {
        self.partners.get(&number).copied()
    }

    /// Makes two names those of one symbol.
    pub(crate) fn pair(&mut self, one: usize, other: usize) -> Result<(), AllocError>
        ensures { OnOk result (Pairs self.old self.new one other) }
    {
        self.partners.insert(one, other)?;
        self.partners.insert(other, one)?;
        Ok(())
    }

    /// The number of the symbol that a lexeme names.
    pub(crate) fn find(&self, lexeme: Lexeme) -> Option<usize>
        ensures { result ≡ number_of self.now lexeme }
    {
        match lexeme.kind {
            LexemeKind::Character(byte) => self.characters.get(&byte).copied(),
            _ => self.names.get(&self.name(lexeme)).copied(),
        }
    }

    /// The symbol that a lexeme names.
    pub(crate) fn named(&self, lexeme: Lexeme) -> Option<Symbol> {
        match self.find(lexeme) {
            Some(number) => self.list.get(number).copied(),
            None => None,
        }
    }

    /// The class of a symbol.
    pub(crate) fn class(&self, number: usize) -> Class {
        match self.list.get(number) {
            Some(symbol) => symbol.class,
            None => Class::Unknown,
        }
    }

    /// Gives a symbol a class.
    pub(crate) fn set_class(&mut self, number: usize, class: Class)
        ensures { KeepsSymbols self.old self.new }
    {
        if let Some(symbol) = self.list.get_mut(number) {
            symbol.class = class;
        }
    }

    /// All symbols that a file names.
    pub(crate) fn of(
        alloc: Global,
        text: &'a [u8],
        dialect: Dialect,
        contents: &Contents,
    ) -> Result<Symbols<'a>, AllocError>
        ensures text { IfOk result (λ symbols. symbols.text.now ≡ text.now) }
        ensures dialect { IfOk result (λ symbols. symbols.dialect ≡ dialect) }
        ensures apart { IfOk result AreApart }
        ensures single { IfOk result (λ symbols. IsEmpty symbols.partners) }
    {
        let mut symbols = Symbols::new(alloc, text, dialect);
        symbols.add_statements(contents.statements.as_slice())?;
        symbols.add_bodies(contents.alternatives.as_slice())?;
        Ok(symbols)
    }

    /// Adds the symbols that declarations name.
    fn add_statements(&mut self, statements: &[Statement]) -> Result<(), AllocError>
        ensures { OnOk result (AddsNames self.old self.new) }
    {
        for statement in statements {
            self.add_statement(*statement)?;
        }
        Ok(())
    }

    /// Adds the symbols that a declaration names.
    fn add_statement(&mut self, statement: Statement) -> Result<(), AllocError>
        ensures { OnOk result (AddsNames self.old self.new) }
    {
        match statement {
            Statement::Rule(symbol) if symbol.kind != LexemeKind::Name => Ok(()),
            Statement::Alias(symbol, text) => {
                self.add(symbol, false)?;
                self.add(text, false)
            }
            Statement::Token(symbol)
            | Statement::Rule(symbol)
            | Statement::Code(symbol, _)
            | Statement::InLevel(symbol)
            | Statement::Mention(symbol)
            | Statement::Tagged(symbol, _)
            | Statement::LeftSide(symbol)
            | Statement::NamedPrecedence(symbol)
            | Statement::Start(symbol) => self.add(symbol, false),
            Statement::Level(_)
            | Statement::NotInRules(_)
            | Statement::ExpectShiftReduce(_)
            | Statement::ExpectReduceReduce(_)
            | Statement::Glr
            | Statement::DefaultPrecedence(_) => Ok(()),
        }
    }

    /// Adds the symbols of bodies.
    fn add_bodies(&mut self, alternatives: &[Alternative]) -> Result<(), AllocError>
        ensures { OnOk result (AddsNames self.old self.new) }
    {
        for alternative in alternatives {
            self.add_body(alternative)?;
        }
        Ok(())
    }

    /// Adds the symbols of a body.
    fn add_body(&mut self, alternative: &Alternative) -> Result<(), AllocError>
        ensures { OnOk result (AddsNames self.old self.new) }
    {
        for part in &alternative.parts {
            if let BodyPart::Symbol(symbol) = part {
                self.add(*symbol, true)?;
            }
        }
        Ok(())
    }

    /// Adds the symbol that a lexeme names, in a body or not, or notes that it is named there too, which may be before where it was
    /// come by until now. Characters, texts and the names of Bison's own tokens are tokens before anything is said of them.
    fn add(&mut self, lexeme: Lexeme, is_used: bool) -> Result<(), AllocError>
        ensures { OnOk result (AddsNames self.old self.new) }
    {
        if let Some(number) = self.find(lexeme) {
            if let Some(symbol) = self.list.get_mut(number) {
                symbol.is_used |= is_used;
                if lexeme.span.start < symbol.mention.span.start {
                    symbol.mention = lexeme;
                }
            }
            return Ok(());
        }
        let number = self.list.len();
        let name = self.name(lexeme);
        let is_name = matches!(lexeme.kind, LexemeKind::Name | LexemeKind::RuleName);
        let is_of_bison = self.is_of_bison(name, b"error") || self.is_of_bison(name, b"YYUNDEF");
        let class = if is_name && !is_of_bison {
            Class::Unknown
        } else {
            Class::Token
        };
        self.list.push(Symbol::new(lexeme, class, is_used))?;
        self.add_name(lexeme, number)
    }

    /// Gives the name that a lexeme is a number.
    fn add_name(&mut self, lexeme: Lexeme, number: usize) -> Result<(), AllocError>
        ensures { OnOk result (AddsName self.old self.new lexeme number) }
    {
        match lexeme.kind {
            LexemeKind::Character(byte) => {
                self.characters.insert(byte, number)?;
            }
            _ => {
                let name = self.name(lexeme);
                self.names.insert(name, number)?;
            }
        }
        Ok(())
    }
}
