//! Moves over least texts.

use crate::beginnings::Beginnings;
use crate::shared::Shared;
use crate::texts::MOST_MOVES;
use lrconflicts::{Move, Written};
use lrgrammar::idx::{PIdx, RIdx, Symbol, TIdx};
use std::alloc::{AllocError, Global};

/// What is still to be written.
#[derive(Clone, Copy)]
enum Work {
    /// A least text of the symbol.
    Text(Symbol<u32>),
    /// A least text of the rule that begins with the token.
    Beginning(RIdx<u32>),
    /// The reduction by the production.
    Reduce(PIdx<u32>),
}

/// Writes texts, and moves over them.
#[derive(Drop)]
pub(crate) struct Writer<'a> {
    shared: &'a Shared,
    /// Least texts that begin with a token.
    beginnings: Option<&'a Beginnings>,
    pub(crate) tokens: Vec<TIdx<u32>>,
    pub(crate) moves: Vec<Move<u32>>,
    /// What is to be done, the next last.
    work: Vec<Work>,
    /// Whether a text was too long, or there was none.
    pub(crate) has_failed: bool,
}

impl<'a> Writer<'a> {
    /// Nothing is written.
    pub(crate) fn new(
        alloc: Global,
        shared: &'a Shared,
        beginnings: Option<&'a Beginnings>,
    ) -> Writer<'a> {
        Writer {
            shared,
            beginnings,
            tokens: Vec::new(alloc),
            moves: Vec::new(alloc),
            work: Vec::new(alloc),
            has_failed: false,
        }
    }

    /// Writes a least text of the symbol.
    pub(crate) fn push(&mut self, symbol: Symbol<u32>) -> Result<(), AllocError> {
        self.work.push(Work::Text(symbol))?;
        self.write()
    }

    /// Writes least texts of the symbols.
    pub(crate) fn push_all(&mut self, symbols: &[Symbol<u32>]) -> Result<(), AllocError> {
        for symbol in symbols {
            self.push(*symbol)?;
        }
        Ok(())
    }

    /// Writes a token, or a least text of a rule that begins with the token of which the beginnings are.
    pub(crate) fn push_beginning(&mut self, symbol: Symbol<u32>) -> Result<(), AllocError> {
        let work = match symbol {
            Symbol::Token(_) => Work::Text(symbol),
            Symbol::Rule(rule) => Work::Beginning(rule),
        };
        self.work.push(work)?;
        self.write()
    }

    /// Writes least texts of the symbols, of which the one at the place begins with the token, and those before it are empty.
    pub(crate) fn push_begun(
        &mut self,
        symbols: &[Symbol<u32>],
        place: usize,
    ) -> Result<(), AllocError> {
        self.write_begun(symbols, place)?;
        self.write()
    }

    /// Writes the reduction by the production.
    pub(crate) fn push_reduction(&mut self, production: PIdx<u32>) -> Result<(), AllocError> {
        self.moves.push(Move::Reduce(production))?;
        Ok(())
    }

    /// What was written; None where that failed.
    pub(crate) fn written(self) -> Option<Written<u32>> {
        if self.has_failed {
            return None;
        }
        Some(Written {
            tokens: self.tokens,
            moves: self.moves,
        })
    }

    /// Does the work.
    fn write(&mut self) -> Result<(), AllocError> {
        // each node of a tree is a piece of work twice
        for _ in 0..2 * MOST_MOVES {
            if self.moves.len() > MOST_MOVES {
                break;
            }
            let Some(work) = self.work.pop() else {
                return Ok(());
            };
            self.do_work(work)?;
        }
        self.work.clear();
        self.has_failed = true;
        Ok(())
    }

    /// Does a piece of work.
    fn do_work(&mut self, work: Work) -> Result<(), AllocError> {
        match work {
            Work::Text(Symbol::Token(token)) => {
                self.tokens.push(token)?;
                self.moves.push(Move::Shift)?;
                Ok(())
            }
            Work::Text(Symbol::Rule(rule)) => self.write_rule(rule),
            Work::Beginning(rule) => self.write_beginning(rule),
            Work::Reduce(production) => self.push_reduction(production),
        }
    }

    /// Goes on to the body of the rule's least text.
    fn write_rule(&mut self, rule: RIdx<u32>) -> Result<(), AllocError> {
        let Some(production) = self.shared.texts.production(rule) else {
            self.has_failed = true;
            return Ok(());
        };
        self.work.push(Work::Reduce(production))?;
        self.add_texts(self.shared.rules.body(production))
    }

    /// Goes on to the body of the rule's least text that begins with the token.
    fn write_beginning(&mut self, rule: RIdx<u32>) -> Result<(), AllocError> {
        let beginning = match self.beginnings {
            Some(beginnings) => beginnings.of(rule),
            None => None,
        };
        let Some(beginning) = beginning else {
            self.has_failed = true;
            return Ok(());
        };
        let body = self.shared.rules.body(beginning.production);
        self.work.push(Work::Reduce(beginning.production))?;
        self.write_begun(body, beginning.place)
    }

    /// Goes on to a body, in which the token comes first at the place.
    fn write_begun(&mut self, body: &[Symbol<u32>], place: usize) -> Result<(), AllocError> {
        let (Some(before), Some((begun, behind))) = (
            body.get(..place),
            body.get(place..).and_then(|rest| rest.split_first()),
        ) else {
            self.has_failed = true;
            return Ok(());
        };
        self.add_texts(behind)?;
        self.work.push(match *begun {
            Symbol::Rule(rule) => Work::Beginning(rule),
            token => Work::Text(token),
        })?;
        self.add_texts(before)
    }

    /// Goes on to these symbols before all other work.
    fn add_texts(&mut self, symbols: &[Symbol<u32>]) -> Result<(), AllocError> {
        for symbol in symbols.iter().rev() {
            self.work.push(Work::Text(*symbol))?;
        }
        Ok(())
    }
}
