//! After what conflicts are real, by the numbers of a file.

use lrentries::numbers_of;
use lrgrammar::grammar::{PartSymbol, YaccGrammar};
use lrgrammar::idx::{RIdx, Symbol};
use lrshown::{Example, Outlook};
use lryacc::FileGrammar;
use std::alloc::{AllocError, Global};

/// A grammar, and the file whose grammar it is.
#[derive(Clone, Copy)]
pub(crate) struct Numbering<'a> {
    pub(crate) grm: &'a YaccGrammar<u32>,
    pub(crate) file: &'a FileGrammar,
}

impl Numbering<'_> {
    /// The number of a rule in the file. Productions have one number in both.
    fn rule(self, rule: RIdx<u32>) -> usize {
        if usize::from(rule) >= usize::from(self.grm.rules_len()) {
            return 0;
        }
        let Some(production) = self.grm.rule_to_prods(rule).first() else {
            return 0;
        };
        match self.file.parts.prods.get(usize::from(*production)) {
            Some(prod) => prod.rule,
            None => 0,
        }
    }

    /// Symbols by their numbers in the file.
    fn symbols(
        self,
        alloc: Global,
        symbols: &[Symbol<u32>],
    ) -> Result<Vec<PartSymbol>, AllocError> {
        let mut list = Vec::new(alloc);
        for symbol in symbols {
            list.push(match *symbol {
                Symbol::Rule(rule) => PartSymbol::Rule(self.rule(rule)),
                Symbol::Token(token) => PartSymbol::Token(usize::from(token)),
            })?;
        }
        Ok(list)
    }

    /// How a text goes on, by the numbers of the file.
    fn outlook(
        self,
        alloc: Global,
        outlook: Option<&lrreasons::Outlook>,
    ) -> Result<Option<Outlook>, AllocError> {
        let Some(outlook) = outlook else {
            return Ok(None);
        };
        let mut items = Vec::new(alloc);
        for (production, dot) in &outlook.items {
            // the outermost one is of no production of the file
            if usize::from(*production) < self.file.parts.prods.len() {
                items.push((usize::from(*production), usize::from(*dot)))?;
            }
        }
        let rest = match &outlook.rest {
            Some(rest) => Some(numbers_of(alloc, rest.tokens.as_slice())?),
            None => None,
        };
        Ok(Some(Outlook { items, rest }))
    }

    /// After what a conflict is real, by the numbers of the file.
    pub(crate) fn example(
        self,
        alloc: Global,
        example: &lrreasons::Example,
    ) -> Result<Example, AllocError> {
        Ok(Example {
            list: self.symbols(alloc, example.list.as_slice())?,
            token: usize::from(example.token),
            input: match &example.input {
                Some(input) => Some(numbers_of(alloc, input.tokens.as_slice())?),
                None => None,
            },
            one: self.outlook(alloc, example.one.as_ref())?,
            other: self.outlook(alloc, example.other.as_ref())?,
        })
    }
}
