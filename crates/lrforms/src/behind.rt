//! What comes behind a symbol at least.

use crate::beginnings::Beginnings;
use crate::costs::Cost;
use crate::items::Item;
use crate::rules::Rules;
use crate::shared::Shared;
use crate::texts::Texts;
use lrgrammar::idx::{PIdx, Symbol, TIdx};
use std::alloc::{AllocError, Global};

/// That of a symbol that has no text: more than of any that has one.
const NO_TEXT: Cost = Cost {
    tokens: 1 << 32,
    reductions: 0,
};

/// What least texts of the ends of bodies cost.
#[derive(Drop)]
pub(crate) struct BodyCosts {
    /// For each production what its body costs from each place on, the last place first.
    of_productions: Vec<Vec<Cost>>,
}

impl BodyCosts {
    /// Those of the productions of a grammar.
    pub(crate) fn new(
        alloc: Global,
        rules: &Rules,
        texts: &Texts,
    ) -> Result<BodyCosts, AllocError> {
        let mut of_productions = Vec::new(alloc);
        for number in 0..rules.productions_len() {
            if let Ok(number) = u32::try_from(number) {
                let body = rules.body(PIdx(number));
                of_productions.push(costs_of_ends(alloc, texts, body)?)?;
            }
        }
        Ok(BodyCosts { of_productions })
    }

    /// What a least text of the end of a body costs from a place on.
    fn from(&self, production: PIdx<u32>, place: usize) -> Cost {
        let Some(costs) = self.of_productions.get(usize::from(production)) else {
            return Cost::default();
        };
        match costs.len().saturating_sub(place).checked_sub(1) {
            Some(place) => costs.get(place).copied().unwrap_or_default(),
            None => Cost::default(),
        }
    }

    /// What a least text of the symbols behind the one behind the dot costs.
    pub(crate) fn behind(&self, item: Item) -> Cost {
        self.from(item.production, item.dot().saturating_add(1))
    }

    /// What a text of the body costs in which the symbol behind the dot has a text that costs this, and those before the dot
    /// derive nothing; None where they don't.
    pub(crate) fn with(&self, item: Item, cost: Cost) -> Option<Cost> {
        let whole = self.from(item.production, 0);
        let before = whole.without(self.from(item.production, item.dot()));
        if before.tokens > 0 {
            return None;
        }
        Some(before.and(cost).and(self.behind(item)))
    }
}

/// What least texts of the ends of a body cost, the shortest end first.
fn costs_of_ends(
    alloc: Global,
    texts: &Texts,
    body: &[Symbol<u32>],
) -> Result<Vec<Cost>, AllocError> {
    let mut costs = Vec::new(alloc);
    let mut cost = Cost::default();
    for symbol in body.iter().rev() {
        cost = cost.and(texts.cost(*symbol).unwrap_or(NO_TEXT));
        costs.push(cost)?;
    }
    Ok(costs)
}

/// A text of symbols that begins with the token.
#[derive(Clone, Copy)]
pub(crate) struct Begun {
    pub(crate) cost: Cost,
    /// The place of the symbol with which the token comes. Those before it derive nothing.
    pub(crate) place: usize,
}

/// Least texts of what comes behind a symbol, where a token has to come next.
#[derive(Drop)]
pub(crate) struct Behind<'a> {
    shared: &'a Shared,
    token: TIdx<u32>,
    beginnings: Option<&'a Beginnings>,
}

impl<'a> Behind<'a> {
    /// Where this token has to come.
    pub(crate) fn new(shared: &'a Shared, token: TIdx<u32>) -> Result<Behind<'a>, AllocError> {
        let beginnings = shared.beginnings(token)?;
        Ok(Behind {
            shared,
            token,
            beginnings,
        })
    }

    /// Whether all of the symbols derive nothing.
    pub(crate) fn are_nullable(&self, symbols: &[Symbol<u32>]) -> bool {
        let firsts = &self.shared.firsts;
        symbols.iter().all(|symbol| firsts.is_nullable(*symbol))
    }

    /// What a least text of the symbols costs, one after another.
    fn cost(&self, symbols: &[Symbol<u32>]) -> Cost {
        let texts = &self.shared.texts;
        let mut cost = Cost::default();
        for symbol in symbols {
            cost = cost.and(texts.cost(*symbol).unwrap_or(NO_TEXT));
        }
        cost
    }

    /// What a least text of the symbol that begins with the token costs.
    fn begun_cost(&self, symbol: Symbol<u32>) -> Cost {
        self.beginnings
            .and_then(|beginnings| beginnings.cost(symbol))
            .unwrap_or(NO_TEXT)
    }

    /// A least text of the symbols that begins with the token; None where there is none.
    pub(crate) fn begun(&self, symbols: &[Symbol<u32>]) -> Option<Begun> {
        let whole = self.cost(symbols);
        let mut least: Option<Begun> = None;
        for (place, symbol) in symbols.iter().enumerate() {
            if self.shared.firsts.begins(*symbol, self.token) {
                let others = whole.without(self.cost(&[*symbol]));
                let cost = others.and(self.begun_cost(*symbol));
                if least.is_none_or(|least| cost < least.cost) {
                    least = Some(Begun { cost, place });
                }
            }
            if !self.shared.firsts.is_nullable(*symbol) {
                break;
            }
        }
        least
    }
}
