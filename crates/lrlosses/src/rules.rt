//! What is asked of a grammar and its graph. What is asked of a part that isn't there is empty.

ghost use Rattle.std.specs.Prelude.{◌<◌, length};

use lrgrammar::grammar::YaccGrammar;
use lrgrammar::idx::{PIdx, RIdx, SIdx, StIdx, Symbol, TIdx};
use lrgrammar::vob::Vob;
use lrgraphs::StateGraph;
use lritems::itemset::Itemset;
use std::alloc::{AllocError, Global};

/// The start state.
pub(crate) const START: StIdx<u32> = StIdx(0);

/// A production with a dot in its body.
#[derive(Clone, Copy)]
pub(crate) struct Item {
    pub(crate) production: PIdx<u32>,
    pub(crate) dot: SIdx<u32>,
}

impl Item {
    /// The item with its dot one symbol further back; None where no symbol stands before the dot.
    pub(crate) fn moved_back(self) -> Option<Item> {
        let dot = self.dot.0.checked_sub(1)?;
        Some(Item {
            production: self.production,
            dot: SIdx(dot),
        })
    }
}

/// The body of a production.
pub(crate) fn body_of(grm: &YaccGrammar<u32>, production: PIdx<u32>) -> &[Symbol<u32>] {
    if production.0 < grm.prods_len().0 {
        grm.prod(production)
    } else {
        &[]
    }
}

/// The rule of a production.
pub(crate) fn rule_of(grm: &YaccGrammar<u32>, production: PIdx<u32>) -> Option<RIdx<u32>> {
    if production.0 < grm.prods_len().0 {
        Some(grm.prod_to_rule(production))
    } else {
        None
    }
}

/// The item of a production with its dot behind the body.
pub(crate) fn complete(grm: &YaccGrammar<u32>, production: PIdx<u32>) -> Option<Item> {
    let dot = u32::try_from(body_of(grm, production).len()).ok()?;
    Some(Item {
        production,
        dot: SIdx(dot),
    })
}

/// The closed set of a state.
pub(crate) fn closed_of(graph: &StateGraph<u32>, state: StIdx<u32>) -> Option<&Itemset<u32>> {
    if state.0 < graph.all_states_len().0 {
        Some(graph.closed_state(state))
    } else {
        None
    }
}

/// The core of a state.
pub(crate) fn core_of(graph: &StateGraph<u32>, state: StIdx<u32>) -> Option<&Itemset<u32>> {
    if state.0 < graph.all_states_len().0 {
        Some(graph.core_state(state))
    } else {
        None
    }
}

/// The bit of a token, where there is one.
pub(crate) fn has_token(tokens: &Vob, token: TIdx<u32>) -> bool {
    let place = usize::from(token);
    place < tokens.len() && tokens.get(place)
}

/// So many empty lists.
pub(crate) fn empty_lists<T: Drop>(alloc: Global, len: usize) -> Result<Vec<Vec<T>>, AllocError> {
    let mut lists = Vec::with_capacity(alloc, len)?;
    for _ in 0..len {
        lists.push(Vec::new(alloc))?;
    }
    Ok(lists)
}

/// Where the rules of a grammar stand, and how they begin.
#[derive(Drop)]
pub(crate) struct Rules {
    /// For each rule the items that stand before it.
    uses: Vec<Vec<Item>>,
    /// For each rule the tokens that begin its bodies, and whether it derives nothing.
    firsts: Vec<Vob>,
    nullable: Vec<bool>,
}

impl Rules {
    /// Those of a grammar.
    pub(crate) fn new(alloc: Global, grm: &YaccGrammar<u32>) -> Result<Rules, AllocError> {
        let mut rules = Rules {
            uses: empty_lists(alloc, usize::from(grm.rules_len()))?,
            firsts: Vec::new(alloc),
            nullable: Vec::new(alloc),
        };
        rules.add_firsts(grm)?;
        for number in 0..grm.prods_len().0 {
            rules.add_uses(PIdx(number), body_of(grm, PIdx(number)))?;
        }
        Ok(rules)
    }

    /// Adds what begins the rules.
    fn add_firsts(&mut self, grm: &YaccGrammar<u32>) -> Result<(), AllocError> {
        let firsts = grm.firsts()?;
        for number in 0..grm.rules_len().0 {
            self.firsts.push(firsts.firsts(RIdx(number)).clone()?)?;
            self.nullable.push(firsts.is_epsilon_set(RIdx(number)))?;
        }
        Ok(())
    }

    /// Adds the items of a production that stand before rules.
    fn add_uses(&mut self, production: PIdx<u32>, body: &[Symbol<u32>]) -> Result<(), AllocError> {
        for (place, symbol) in body.iter().enumerate() {
            if let (Symbol::Rule(rule), Ok(dot)) = (*symbol, u32::try_from(place)) {
                if let Some(items) = self.uses.get_mut(usize::from(rule)) {
                    items.push(Item {
                        production,
                        dot: SIdx(dot),
                    })?;
                }
            }
        }
        Ok(())
    }

    /// The items that stand before the rule.
    pub(crate) fn uses(&self, rule: RIdx<u32>) -> &[Item] {
        match self.uses.get(usize::from(rule)) {
            Some(items) => items.as_slice(),
            None => &[],
        }
    }

    /// Whether the symbol derives nothing.
    fn is_nullable(&self, symbol: Symbol<u32>) -> bool {
        match symbol {
            Symbol::Token(_) => false,
            Symbol::Rule(rule) => self
                .nullable
                .get(usize::from(rule))
                .copied()
                .unwrap_or(false),
        }
    }

    /// Whether the token begins the symbol.
    fn begins(&self, symbol: Symbol<u32>, token: TIdx<u32>) -> bool {
        match symbol {
            Symbol::Token(first) => first == token,
            Symbol::Rule(rule) => match self.firsts.get(usize::from(rule)) {
                Some(firsts) => has_token(firsts, token),
                None => false,
            },
        }
    }

    /// Whether all of the symbols derive nothing.
    pub(crate) fn are_nullable(&self, symbols: &[Symbol<u32>]) -> bool {
        for symbol in symbols {
            if !self.is_nullable(*symbol) {
                return false;
            }
        }
        true
    }

    /// Whether the token begins the symbols, one after another.
    pub(crate) fn begin(&self, symbols: &[Symbol<u32>], token: TIdx<u32>) -> bool {
        for symbol in symbols {
            if self.begins(*symbol, token) {
                return true;
            }
            if !self.is_nullable(*symbol) {
                return false;
            }
        }
        false
    }
}
