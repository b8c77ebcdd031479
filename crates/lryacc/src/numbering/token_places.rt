//! Where declarations have the tokens of a grammar, and what its productions name by `%prec`.

use crate::contents::{Alternative, Contents, Statement};
use crate::dialects::Dialect;
use crate::numbering::{FileGrammar, Numbering};
use crate::places::Span;
use lrgrammar::grammar::PartSymbol;
use std::alloc::{AllocError, Global};
use std::collections::BTreeMap;

/// A token behind `%prec`.
#[derive(Clone, Copy, Debug, PartialEq, Eq)]
pub struct NamedPrecedence {
    /// Its number.
    pub token: usize,
    /// Where it stands.
    pub place: Span,
}

/// Where declarations have tokens, and what stands behind `%prec`.
#[derive(Debug, Drop)]
pub struct TokenPlaces {
    /// By token, where a declaration has it first.
    tokens: BTreeMap<usize, Span>,
    /// By token, where it stands in its precedence line.
    levels: BTreeMap<usize, Span>,
    /// What stands behind `%prec`, by where the body ends.
    precedences: BTreeMap<usize, NamedPrecedence>,
    /// By token, whether it stands in a production that was taken out, or behind its `%prec`.
    pub(crate) useless: Vec<bool>,
}

impl TokenPlaces {
    /// Nothing is declared.
    pub(crate) fn new(alloc: Global) -> TokenPlaces {
        TokenPlaces {
            tokens: BTreeMap::new(alloc),
            levels: BTreeMap::new(alloc),
            precedences: BTreeMap::new(alloc),
            useless: Vec::new(alloc),
        }
    }
}

impl FileGrammar {
    /// Where a token is declared: by `%token`, or in a precedence line before that. None for one that is not, and for one of
    /// which a declaration says that it need not be in a rule.
    pub fn declared_place(&self, token: usize) -> Option<Span> {
        self.token_places.tokens.get(&token).copied()
    }

    /// Where a token stands in its precedence line.
    pub fn level_place(&self, token: usize) -> Option<Span> {
        self.token_places.levels.get(&token).copied()
    }

    /// What a production names by `%prec`.
    pub fn named_precedence(&self, production: usize) -> Option<NamedPrecedence> {
        let place = self.production_places.get(production)?;
        self.token_places.precedences.get(&place.end).copied()
    }

    /// Marks the tokens, by their numbers, that a production has, and the one that it names by `%prec`.
    pub fn mark_tokens(&self, marked: &mut Vec<bool>, production: usize) {
        if let Some(prod) = self.parts.prods.get(production) {
            for symbol in &prod.symbols {
                if let PartSymbol::Token(token) = symbol {
                    mark(marked, *token);
                }
            }
        }
        if let Some(named) = self.named_precedence(production) {
            mark(marked, named.token);
        }
    }

    /// Whether a production that was taken out has a token, or names it by `%prec`.
    pub fn is_in_useless(&self, token: usize) -> bool {
        self.token_places.useless.get(token) == Some(&true)
    }
}

/// Marks a number, if the list has it.
fn mark(marked: &mut Vec<bool>, number: usize) {
    if let Some(is_marked) = marked.get_mut(number) {
        *is_marked = true;
    }
}

/// Takes a place for that of a token, unless it has one.
fn add_first(
    places: &mut BTreeMap<usize, Span>,
    token: Option<usize>,
    place: Span,
) -> Result<(), AllocError> {
    if let Some(token) = token {
        if !places.contains_key(&token) {
            places.insert(token, place)?;
        }
    }
    Ok(())
}

impl<'m, 'a> Numbering<'m, 'a> {
    /// Where declarations have tokens, and what stands behind `%prec`.
    pub(super) fn token_places(&self, contents: &Contents) -> Result<TokenPlaces, AllocError> {
        let mut places = TokenPlaces::new(self.allocator());
        self.add_declared(&mut places, contents.statements.as_slice())?;
        self.leave_out(&mut places, contents.statements.as_slice());
        self.add_named(&mut places, contents.alternatives.as_slice())?;
        Ok(places)
    }

    /// Adds where declarations have tokens. For grmtools, tokens of bodies are no declarations, and those stand before the rules.
    fn add_declared(
        &self,
        places: &mut TokenPlaces,
        statements: &[Statement],
    ) -> Result<(), AllocError> {
        for statement in statements {
            match *statement {
                Statement::Token(name) => {
                    add_first(&mut places.tokens, self.token(name), name.span)?;
                }
                Statement::InLevel(name) => {
                    add_first(&mut places.tokens, self.token(name), name.span)?;
                    add_first(&mut places.levels, self.token(name), name.span)?;
                }
                Statement::LeftSide(_) if self.meaning.symbols.dialect == Dialect::Grmtools =>
                    break,
                _ => {}
            }
        }
        Ok(())
    }

    /// Leaves out the tokens that need not be in a rule.
    fn leave_out(&self, places: &mut TokenPlaces, statements: &[Statement]) {
        for statement in statements {
            if let Statement::NotInRules(name) = statement {
                if let Some(token) = self.token(*name) {
                    let _ = places.tokens.remove(&token);
                }
            }
        }
    }

    /// Adds what stands behind `%prec`.
    fn add_named(
        &self,
        places: &mut TokenPlaces,
        alternatives: &[Alternative],
    ) -> Result<(), AllocError> {
        for alternative in alternatives {
            if let Some(name) = alternative.precedence {
                if let Some(token) = self.token(name) {
                    let place = name.span;
                    let named = NamedPrecedence { token, place };
                    places.precedences.insert(alternative.span.end, named)?;
                }
            }
        }
        Ok(())
    }
}
