//! What all searches in a table share.

use crate::beginnings::{Beginnings, Firsts};
use crate::behind::BodyCosts;
use crate::rules::Rules;
use crate::states::States;
use crate::texts::Texts;
use lrgrammar::grammar::YaccGrammar;
use lrgrammar::idx::TIdx;
use lrgraphs::StateGraph;
use std::alloc::{AllocError, Global};
use std::cell::OnceCell;

/// What all searches in a table share.
#[derive(Drop)]
pub(crate) struct Shared {
    pub(crate) rules: Rules,
    pub(crate) firsts: Firsts,
    pub(crate) texts: Texts,
    pub(crate) body_costs: BodyCosts,
    pub(crate) states: States,
    /// Least texts that begin with each token, as far as they were asked for.
    beginnings: Vec<OnceCell<Beginnings>>,
}

impl Shared {
    /// Of a grammar and its graph.
    pub(crate) fn new(
        alloc: Global,
        grm: &YaccGrammar<u32>,
        graph: &StateGraph<u32>,
    ) -> Result<Shared, AllocError> {
        let rules = Rules::new(alloc, grm)?;
        let firsts = Firsts::new(alloc, grm)?;
        let texts = Texts::new(alloc, &rules)?;
        let body_costs = BodyCosts::new(alloc, &rules, &texts)?;
        let states = States::new(alloc, &rules, graph)?;
        let mut beginnings = Vec::new(alloc);
        beginnings.resize_with(usize::from(grm.tokens_len()), || OnceCell::new())?;
        Ok(Shared {
            rules,
            firsts,
            texts,
            body_costs,
            states,
            beginnings,
        })
    }

    /// Least texts that begin with a token; None where there is no such token.
    pub(crate) fn beginnings(&self, token: TIdx<u32>) -> Result<Option<&Beginnings>, AllocError> {
        let Some(cell) = self.beginnings.get(usize::from(token)) else {
            return Ok(None);
        };
        if let Some(beginnings) = cell.get() {
            return Ok(Some(beginnings));
        }
        let alloc = *self.beginnings.allocator();
        let made = Beginnings::new(alloc, &self.rules, &self.body_costs, token)?;
        let _ = cell.set(made);
        Ok(cell.get())
    }
}
