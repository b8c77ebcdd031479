//! Which tokens begin the texts of rules, and least texts that begin with a token: as in `texts`, by Knuth's generalization of
//! Dijkstra's algorithm, from the items before the token on.

use crate::behind::BodyCosts;
use crate::costs::Cost;
use crate::items::Item;
use crate::rules::Rules;
use crate::texts::MOST_MOVES;
use lrgrammar::grammar::YaccGrammar;
use lrgrammar::idx::{PIdx, RIdx, Symbol, TIdx};
use lrgrammar::vob::Vob;
use std::alloc::{AllocError, Global};
use std::cmp::Reverse;
use std::collections::{BTreeMap, BinaryHeap};

/// For each rule the tokens that begin its bodies, and whether it derives nothing.
#[derive(Drop)]
pub(crate) struct Firsts {
    rows: Vec<Vob>,
    nullable: Vec<bool>,
}

impl Firsts {
    /// Those of a grammar.
    pub(crate) fn new(alloc: Global, grm: &YaccGrammar<u32>) -> Result<Firsts, AllocError> {
        let firsts = grm.firsts()?;
        let mut rows = Vec::new(alloc);
        let mut nullable = Vec::new(alloc);
        for number in 0..grm.rules_len().0 {
            rows.push(firsts.firsts(RIdx(number)).clone()?)?;
            nullable.push(firsts.is_epsilon_set(RIdx(number)))?;
        }
        Ok(Firsts { rows, nullable })
    }

    /// Whether the symbol derives nothing, be it by a tree of any size.
    pub(crate) fn is_nullable(&self, symbol: Symbol<u32>) -> bool {
        match symbol {
            Symbol::Token(_) => false,
            Symbol::Rule(rule) => self
                .nullable
                .get(usize::from(rule))
                .copied()
                .unwrap_or(false),
        }
    }

    /// Whether the token begins the symbol.
    pub(crate) fn begins(&self, symbol: Symbol<u32>, token: TIdx<u32>) -> bool {
        match symbol {
            Symbol::Token(first) => first == token,
            Symbol::Rule(rule) => match self.rows.get(usize::from(rule)) {
                Some(row) => {
                    let place = usize::from(token);
                    place < row.len() && row.get(place)
                }
                None => false,
            },
        }
    }

    /// Whether one token begins both symbols.
    pub(crate) fn meet(&self, first: Symbol<u32>, second: Symbol<u32>) -> bool {
        match (first, second) {
            (Symbol::Token(token), symbol) => self.begins(symbol, token),
            (symbol, Symbol::Token(token)) => self.begins(symbol, token),
            (Symbol::Rule(first), Symbol::Rule(second)) => self.rules_meet(first, second),
        }
    }

    /// Whether one token begins both rules.
    fn rules_meet(&self, first: RIdx<u32>, second: RIdx<u32>) -> bool {
        let Some(first) = self.rows.get(usize::from(first)) else {
            return false;
        };
        match self.rows.get(usize::from(second)) {
            Some(second) => first.len() == second.len() && first.intersects(second),
            None => false,
        }
    }
}

/// A least text of a rule that begins with a token: it is one of a production, in which the symbols before a place derive
/// nothing, and that at the place begins with the token.
#[derive(Clone, Copy)]
pub(crate) struct Beginning {
    cost: Cost,
    pub(crate) production: PIdx<u32>,
    pub(crate) place: usize,
}

/// A least text of each rule that has one which begins with a token.
#[derive(Drop)]
pub(crate) struct Beginnings {
    token: TIdx<u32>,
    of_rules: BTreeMap<RIdx<u32>, Beginning>,
}

/// The search for least texts that begin with a token, the lesser ones first.
#[derive(Drop)]
struct Search<'a> {
    rules: &'a Rules,
    body_costs: &'a BodyCosts,
    beginnings: Beginnings,
    /// Items whose bodies have texts in which the token comes with the symbol behind the dot, by what a text of each costs.
    queue: BinaryHeap<Reverse<(Cost, Item)>>,
}

impl Search<'_> {
    /// Puts the items before a symbol into the queue whose bodies have such a text, where that of the symbol costs this.
    fn add_uses(&mut self, symbol: Symbol<u32>, cost: Cost) -> Result<(), AllocError> {
        for item in self.rules.uses(symbol) {
            if let Some(cost) = self.body_costs.with(*item, cost) {
                let cost = cost.and(Cost::NODE);
                if cost.moves() <= MOST_MOVES {
                    self.queue.push(Reverse((cost, *item)))?;
                }
            }
        }
        Ok(())
    }

    /// Keeps a text of the item's rule, unless there is a lesser one, which came before.
    fn put(&mut self, cost: Cost, item: Item) -> Result<(), AllocError> {
        let Some(rule) = self.rules.rule(item.production) else {
            return Ok(());
        };
        if self.beginnings.of(rule).is_some() {
            return Ok(());
        }
        let beginning = Beginning {
            cost,
            production: item.production,
            place: item.dot(),
        };
        self.beginnings.of_rules.insert(rule, beginning)?;
        self.add_uses(Symbol::Rule(rule), cost)
    }
}

impl Beginnings {
    /// Those of the rules of a grammar.
    pub(crate) fn new<'a>(
        alloc: Global,
        rules: &'a Rules,
        body_costs: &'a BodyCosts,
        token: TIdx<u32>,
    ) -> Result<Beginnings, AllocError> {
        let mut search = Search {
            rules,
            body_costs,
            beginnings: Beginnings {
                token,
                of_rules: BTreeMap::new(alloc),
            },
            queue: BinaryHeap::new(alloc),
        };
        search.add_uses(Symbol::Token(token), Cost::TOKEN)?;
        // each item comes into the queue once at most
        for _ in 0..rules.symbols_len() {
            let Some(Reverse((cost, item))) = search.queue.pop() else {
                break;
            };
            search.put(cost, item)?;
        }
        Ok(search.beginnings)
    }

    /// What a least text of the symbol costs that begins with the token.
    pub(crate) fn cost(&self, symbol: Symbol<u32>) -> Option<Cost> {
        match symbol {
            Symbol::Token(first) if first == self.token => Some(Cost::TOKEN),
            Symbol::Token(_) => None,
            Symbol::Rule(rule) => Some(self.of(rule)?.cost),
        }
    }

    /// A least text of the rule that begins with the token.
    pub(crate) fn of(&self, rule: RIdx<u32>) -> Option<Beginning> {
        self.of_rules.get(&rule).copied()
    }
}
