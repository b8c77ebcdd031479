//! Least texts of rules: Knuth's generalization of Dijkstra's algorithm to productions (1977). A rule whose text is settled
//! counts down what its callers miss, and a production that misses nothing comes into the queue.

use crate::costs::Cost;
use crate::rules::Rules;
use lrgrammar::idx::{PIdx, RIdx, Symbol};
use std::alloc::{AllocError, Global};
use std::cmp::Reverse;
use std::collections::BinaryHeap;

/// A text of a rule that takes more moves counts as none.
pub(crate) const MOST_MOVES: usize = 100_000;

/// A least text of a rule: it is one of a production, whose rules stand for their least texts.
#[derive(Clone, Copy)]
struct Text {
    cost: Cost,
    production: PIdx<u32>,
}

/// A least text of each rule that has one.
#[derive(Drop)]
pub(crate) struct Texts {
    of_rules: Vec<Option<Text>>,
}

/// The search for least texts, the lesser ones first.
#[derive(Drop)]
struct Search<'a> {
    rules: &'a Rules,
    texts: Texts,
    /// For each production how many symbols of its body have no text so far.
    missing: Vec<usize>,
    /// Productions whose symbols all have texts, by what a text of each costs.
    queue: BinaryHeap<Reverse<(Cost, PIdx<u32>)>>,
}

impl<'a> Search<'a> {
    /// Before the first text of a rule.
    fn new(alloc: Global, rules: &'a Rules) -> Result<Search<'a>, AllocError> {
        let mut search = Search {
            rules,
            texts: Texts {
                of_rules: Vec::from_elem(alloc, None, rules.len())?,
            },
            missing: Vec::new(alloc),
            queue: BinaryHeap::new(alloc),
        };
        for number in 0..rules.productions_len() {
            if let Ok(number) = u32::try_from(number) {
                search.add_production(PIdx(number))?;
            }
        }
        Ok(search)
    }

    /// Adds the next production.
    fn add_production(&mut self, production: PIdx<u32>) -> Result<(), AllocError> {
        let body = self.rules.body(production).iter();
        let missing = body
            .filter(|symbol| matches!(symbol, Symbol::Rule(_)))
            .count();
        self.missing.push(missing)?;
        if missing == 0 {
            self.enqueue(production)?;
        }
        Ok(())
    }

    /// Puts a production into the queue, whose symbols all have texts.
    fn enqueue(&mut self, production: PIdx<u32>) -> Result<(), AllocError> {
        if let Some(cost) = self.texts.cost_of(self.rules.body(production)) {
            let cost = cost.and(Cost::NODE);
            if cost.moves() <= MOST_MOVES {
                self.queue.push(Reverse((cost, production)))?;
            }
        }
        Ok(())
    }

    /// Keeps a text of the production's rule, unless there is a lesser one, which came before.
    fn put(&mut self, cost: Cost, production: PIdx<u32>) -> Result<(), AllocError> {
        let Some(rule) = self.rules.rule(production) else {
            return Ok(());
        };
        if let Some(place @ None) = self.texts.of_rules.get_mut(usize::from(rule)) {
            *place = Some(Text { cost, production });
            self.tell(rule)?;
        }
        Ok(())
    }

    /// Tells the productions in whose bodies a rule stands that it has a text.
    fn tell(&mut self, rule: RIdx<u32>) -> Result<(), AllocError> {
        for item in self.rules.uses(Symbol::Rule(rule)) {
            if let Some(missing) = self.missing.get_mut(usize::from(item.production)) {
                *missing = missing.saturating_sub(1);
                if *missing == 0 {
                    self.enqueue(item.production)?;
                }
            }
        }
        Ok(())
    }
}

impl Texts {
    /// Those of the rules of a grammar.
    pub(crate) fn new(alloc: Global, rules: &Rules) -> Result<Texts, AllocError> {
        let mut search = Search::new(alloc, rules)?;
        // each production comes into the queue once at most
        for _ in 0..rules.productions_len() {
            let Some(Reverse((cost, production))) = search.queue.pop() else {
                break;
            };
            search.put(cost, production)?;
        }
        Ok(search.texts)
    }

    /// The least text of a rule.
    fn text(&self, rule: RIdx<u32>) -> Option<Text> {
        self.of_rules.get(usize::from(rule)).copied().flatten()
    }

    /// The production of the root of a rule's least text.
    pub(crate) fn production(&self, rule: RIdx<u32>) -> Option<PIdx<u32>> {
        Some(self.text(rule)?.production)
    }

    /// What the least text of a symbol costs, if it has one.
    pub(crate) fn cost(&self, symbol: Symbol<u32>) -> Option<Cost> {
        match symbol {
            Symbol::Token(_) => Some(Cost::TOKEN),
            Symbol::Rule(rule) => Some(self.text(rule)?.cost),
        }
    }

    /// What the least text of symbols one after another costs, if they have one.
    pub(crate) fn cost_of(&self, symbols: &[Symbol<u32>]) -> Option<Cost> {
        let mut cost = Cost::default();
        for symbol in symbols {
            cost = cost.and(self.cost(*symbol)?);
        }
        Some(cost)
    }

    /// Whether the symbol derives nothing.
    pub(crate) fn is_nullable(&self, symbol: Symbol<u32>) -> bool {
        match self.cost(symbol) {
            Some(cost) => cost.tokens == 0,
            None => false,
        }
    }
}
