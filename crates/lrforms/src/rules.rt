//! The rules of a grammar, and where their symbols stand.

ghost use Rattle.std.specs.Prelude.{◌<◌, length};

use crate::items::Item;
use lrconflicts::Move;
use lrgrammar::grammar::YaccGrammar;
use lrgrammar::idx::{PIdx, RIdx, SIdx, Symbol, TIdx};
use std::alloc::{AllocError, Global};

/// A production.
#[derive(Drop)]
struct Production {
    rule: RIdx<u32>,
    body: Vec<Symbol<u32>>,
}

/// The rules of a grammar. What is asked of one that isn't there is empty.
#[derive(Drop)]
pub(crate) struct Rules {
    productions: Vec<Production>,
    of_rules: Vec<Vec<PIdx<u32>>>,
    /// For each rule, and for each token, the items that stand before it, upwards.
    before_rules: Vec<Vec<Item>>,
    before_tokens: Vec<Vec<Item>>,
    /// How many symbols all bodies have.
    symbols: usize,
    /// The start production.
    pub(crate) start: PIdx<u32>,
    /// The end token.
    pub(crate) end: TIdx<u32>,
}

/// Adds an item to the list at a place, if there is one.
fn push_at(lists: &mut Vec<Vec<Item>>, place: usize, item: Item) -> Result<(), AllocError> {
    if let Some(items) = lists.get_mut(place) {
        items.push(item)?;
    }
    Ok(())
}

impl Rules {
    /// Those of a grammar.
    pub(crate) fn new(alloc: Global, grm: &YaccGrammar<u32>) -> Result<Rules, AllocError> {
        let mut rules = Rules {
            productions: Vec::new(alloc),
            of_rules: Vec::new(alloc),
            before_rules: Vec::new(alloc),
            before_tokens: Vec::new(alloc),
            symbols: 0,
            start: grm.start_prod(),
            end: grm.eof_token_idx(),
        };
        let count = usize::from(grm.rules_len());
        rules.of_rules.resize_with(count, || Vec::new(alloc))?;
        rules.before_rules.resize_with(count, || Vec::new(alloc))?;
        let count = usize::from(grm.tokens_len());
        rules.before_tokens.resize_with(count, || Vec::new(alloc))?;
        for number in 0..grm.prods_len().0 {
            rules.add_production(alloc, grm, PIdx(number))?;
        }
        Ok(rules)
    }

    /// Adds a production of the grammar.
    fn add_production(
        &mut self,
        alloc: Global,
        grm: &YaccGrammar<u32>,
        production: PIdx<u32>,
    ) -> Result<(), AllocError>
        requires { production.0 < length grm.now.productions }
    {
        let body = Vec::from_slice(alloc, grm.prod(production))?;
        let rule = grm.prod_to_rule(production);
        if let Some(productions) = self.of_rules.get_mut(usize::from(rule)) {
            productions.push(production)?;
        }
        self.add_uses(production, body.as_slice())?;
        self.productions.push(Production { rule, body })?;
        Ok(())
    }

    /// Adds the items of the production, which has this body, to those that stand before symbols.
    fn add_uses(&mut self, production: PIdx<u32>, body: &[Symbol<u32>]) -> Result<(), AllocError> {
        for (place, symbol) in body.iter().enumerate() {
            if let Ok(dot) = u32::try_from(place) {
                let item = Item {
                    production,
                    dot: SIdx(dot),
                };
                match *symbol {
                    Symbol::Rule(rule) => push_at(&mut self.before_rules, usize::from(rule), item)?,
                    Symbol::Token(token) => push_at(
                        &mut self.before_tokens,
                        usize::from(token),
                        item,
                    )?,
                }
            }
        }
        self.symbols = self.symbols.saturating_add(body.len());
        Ok(())
    }

    /// All items that stand before the symbol, upwards.
    pub(crate) fn uses(&self, symbol: Symbol<u32>) -> &[Item] {
        let uses = match symbol {
            Symbol::Rule(rule) => self.before_rules.get(usize::from(rule)),
            Symbol::Token(token) => self.before_tokens.get(usize::from(token)),
        };
        match uses {
            Some(items) => items.as_slice(),
            None => &[],
        }
    }

    /// How many symbols all bodies have.
    pub(crate) fn symbols_len(&self) -> usize {
        self.symbols
    }

    /// The number of rules.
    pub(crate) fn len(&self) -> usize {
        self.of_rules.len()
    }

    /// The number of productions.
    pub(crate) fn productions_len(&self) -> usize {
        self.productions.len()
    }

    /// The body of a production.
    pub(crate) fn body(&self, production: PIdx<u32>) -> &[Symbol<u32>] {
        match self.productions.get(usize::from(production)) {
            Some(production) => production.body.as_slice(),
            None => &[],
        }
    }

    /// The rule of a production.
    pub(crate) fn rule(&self, production: PIdx<u32>) -> Option<RIdx<u32>> {
        Some(self.productions.get(usize::from(production))?.rule)
    }

    /// The productions of a rule.
    pub(crate) fn productions(&self, rule: RIdx<u32>) -> &[PIdx<u32>] {
        match self.of_rules.get(usize::from(rule)) {
            Some(productions) => productions.as_slice(),
            None => &[],
        }
    }

    /// The symbol behind the dot of an item.
    pub(crate) fn symbol(&self, item: Item) -> Option<Symbol<u32>> {
        self.body(item.production).get(item.dot()).copied()
    }

    /// Whether the move can be the next one where an item stands and the token comes next.
    pub(crate) fn allows(&self, item: Item, token: TIdx<u32>, candidate: Move<u32>) -> bool {
        match candidate {
            Move::Shift => self.symbol(item) == Some(Symbol::Token(token)),
            Move::Reduce(production) => {
                item.production == production && self.symbol(item).is_none()
            }
        }
    }

    /// The symbols behind the one behind the dot.
    pub(crate) fn rest(&self, item: Item) -> &[Symbol<u32>] {
        match self
            .body(item.production)
            .get(item.dot().saturating_add(1)..)
        {
            Some(symbols) => symbols,
            None => &[],
        }
    }

    /// The symbols from the dot on.
    pub(crate) fn behind(&self, item: Item) -> &[Symbol<u32>] {
        match self.body(item.production).get(item.dot()..) {
            Some(symbols) => symbols,
            None => &[],
        }
    }
}
