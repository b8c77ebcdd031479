//! Which precedences of a file resolve nothing, and which of its tokens no production has.

use crate::cells::last_token;
use lryacc::FileGrammar;
use std::alloc::{AllocError, Global};

/// Precedences that resolve nothing, and tokens that are in no rule.
#[derive(Debug, Drop)]
pub struct UselessPrecedences {
    /// The tokens of precedence lines whose levels resolve nothing, in the order of the file: neither whether a state shifts one
    /// of them, nor whether it reduces by a production that has its level from one.
    pub levels: Vec<usize>,
    /// The productions whose `%prec` resolves nothing, in the order of the file.
    pub productions: Vec<usize>,
    /// The tokens that are declared, and stand in no production of the grammar and behind no `%prec` of one, in the order of the
    /// file. Productions that were taken out as useless may have them.
    pub tokens: Vec<usize>,
}

/// Whether tokens and productions, by their numbers, take part in decisions by precedences.
#[derive(Drop)]
pub(crate) struct Deciding {
    tokens: Vec<bool>,
    productions: Vec<bool>,
}

/// Takes in that something is there.
fn mark(list: &mut Vec<bool>, number: usize) {
    if let Some(is_there) = list.get_mut(number) {
        *is_there = true;
    }
}

/// The token by which the file gives a production its precedence: the one behind `%prec`, or else the last one of its body.
pub fn source_of(file: &FileGrammar, production: usize) -> Option<usize> {
    if let Some(named) = file.named_precedence(production) {
        return Some(named.token);
    }
    last_token(file.parts.prods.get(production)?)
}

impl Deciding {
    /// Nothing takes part.
    pub(crate) fn new(alloc: Global, file: &FileGrammar) -> Result<Deciding, AllocError> {
        Ok(Deciding {
            tokens: vec![in alloc; false; file.parts.tokens.len()]?,
            productions: vec![in alloc; false; file.parts.prods.len()]?,
        })
    }

    /// Takes in that the level of a token is compared with that of a production.
    pub(crate) fn note(&mut self, file: &FileGrammar, token: usize, production: usize) {
        mark(&mut self.tokens, token);
        mark(&mut self.productions, production);
        if let Some(source) = source_of(file, production) {
            mark(&mut self.tokens, source);
        }
    }

    /// The precedences that take part in nothing, and the tokens that are in no rule.
    pub(crate) fn useless(&self, file: &FileGrammar) -> Result<UselessPrecedences, AllocError> {
        Ok(UselessPrecedences {
            levels: self.useless_levels(file)?,
            productions: self.useless_productions(file)?,
            tokens: unused_tokens(*self.tokens.allocator(), file)?,
        })
    }

    /// The tokens of precedence lines that take part in nothing.
    fn useless_levels(&self, file: &FileGrammar) -> Result<Vec<usize>, AllocError> {
        let mut tokens = Vec::new(*self.tokens.allocator());
        for (token, takes_part) in self.tokens.iter().enumerate() {
            if !*takes_part && file.level_place(token).is_some() {
                tokens.push(token)?;
            }
        }
        tokens.sort_unstable_by_key(|token| file
            .level_place(*token)
            .map_or(0, |place| place.start));
        Ok(tokens)
    }

    /// The productions with `%prec` that take part in nothing.
    fn useless_productions(&self, file: &FileGrammar) -> Result<Vec<usize>, AllocError> {
        let mut productions = Vec::new(*self.productions.allocator());
        for (production, takes_part) in self.productions.iter().enumerate() {
            if !*takes_part && file.named_precedence(production).is_some() {
                productions.push(production)?;
            }
        }
        Ok(productions)
    }
}

/// Whether tokens, by their numbers, stand in a production or behind a `%prec`.
fn used_tokens(alloc: Global, file: &FileGrammar) -> Result<Vec<bool>, AllocError> {
    let mut used = vec![in alloc; false; file.parts.tokens.len()]?;
    for production in 0..file.parts.prods.len() {
        file.mark_tokens(&mut used, production);
    }
    Ok(used)
}

/// How many tokens each grammar has, before those that its file brings in.
const FIRST_TOKENS: usize = 3;

/// The tokens that are declared, and stand in no production and behind no `%prec` of one, in the order of the file.
fn unused_tokens(alloc: Global, file: &FileGrammar) -> Result<Vec<usize>, AllocError> {
    let mut tokens = Vec::new(alloc);
    let used = used_tokens(alloc, file)?;
    for (token, is_used) in used.iter().enumerate().skip(FIRST_TOKENS) {
        if !*is_used && file.declared_place(token).is_some() {
            tokens.push(token)?;
        }
    }
    tokens.sort_unstable_by_key(|token| file.declared_place(*token).map_or(0, |place| place.start));
    Ok(tokens)
}
