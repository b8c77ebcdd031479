//! What all searches in a table share.

use crate::completes::Completes;
use crate::edges::Edges;
use crate::rules::{Rules, body_of, core_of};
use crate::ways::Ways;
use lrconflicts::Move;
use lrforms::Forms;
use lrgrammar::grammar::YaccGrammar;
use lrgrammar::idx::{RIdx, StIdx, Symbol, TIdx};
use lrgraphs::StateGraph;
use lrtable::{Action, StateTable};
use std::alloc::{AllocError, Global};

/// How many tokens the rest of a state's core counts at most.
const MOST_TOKENS: usize = 60;

/// What all searches in a table share.
#[derive(Drop)]
pub(crate) struct Known<'a> {
    pub(crate) grm: &'a YaccGrammar<u32>,
    pub(crate) graph: &'a StateGraph<u32>,
    pub(crate) table: &'a StateTable<u32>,
    pub(crate) rules: Rules,
    pub(crate) edges: Edges,
    pub(crate) ways: Ways,
    pub(crate) completes: Completes<'a>,
    pub(crate) forms: Forms<'a>,
    /// For each rule how many tokens a shortest text has, or the most that count.
    tokens: Vec<usize>,
}

/// How many tokens shortest texts of the rules of a grammar have.
fn tokens_of_rules(
    alloc: Global,
    grm: &YaccGrammar<u32>,
    forms: &Forms<'_>,
) -> Result<Vec<usize>, AllocError> {
    let mut tokens = Vec::new(alloc);
    for number in 0..grm.rules_len().0 {
        let text = forms.text_of(&[Symbol::Rule(RIdx(number))])?;
        tokens.push(match text {
            Some(text) => text.tokens.len().min(MOST_TOKENS),
            None => MOST_TOKENS,
        })?;
    }
    Ok(tokens)
}

impl<'a> Known<'a> {
    /// What is known of a table, which is that of the graph of the grammar.
    pub(crate) fn new(
        alloc: Global,
        grm: &'a YaccGrammar<u32>,
        graph: &'a StateGraph<u32>,
        table: &'a StateTable<u32>,
    ) -> Result<Known<'a>, AllocError> {
        let edges = Edges::new(alloc, grm, graph, table)?;
        let ways = Ways::new(alloc, &edges)?;
        let forms = Forms::new(alloc, grm, graph)?;
        Ok(Known {
            grm,
            graph,
            table,
            rules: Rules::new(alloc, grm)?,
            edges,
            ways,
            completes: Completes::new(alloc, grm, graph)?,
            tokens: tokens_of_rules(alloc, grm, &forms)?,
            forms,
        })
    }

    /// How many tokens complete the symbols at least.
    fn tokens_of(&self, symbols: &[Symbol<u32>]) -> usize {
        let mut tokens: usize = 0;
        for symbol in symbols {
            let of_symbol = match symbol {
                Symbol::Token(_) => 1,
                Symbol::Rule(rule) => match self.tokens.get(usize::from(*rule)) {
                    Some(tokens) => *tokens,
                    None => MOST_TOKENS,
                },
            };
            tokens = tokens.saturating_add(of_symbol);
        }
        tokens
    }

    /// How many tokens complete an item of the state's core at least; no more than count.
    pub(crate) fn tokens_behind(&self, state: StIdx<u32>) -> usize {
        let mut least = MOST_TOKENS;
        let Some(core) = core_of(self.graph, state) else {
            return least;
        };
        for (production, dot) in core.items.keys() {
            let body = body_of(self.grm, *production);
            if let Some(rest) = body.get(usize::from(*dot)..) {
                least = least.min(self.tokens_of(rest));
            }
        }
        least
    }

    /// Whether the state may shift the token.
    pub(crate) fn may_shift(&self, state: StIdx<u32>, token: TIdx<u32>) -> bool {
        self.graph.edge(state, Symbol::Token(token)).is_some()
    }

    /// Whether the cell has a candidate.
    pub(crate) fn has_candidate(&self, state: StIdx<u32>, token: TIdx<u32>) -> bool {
        self.may_shift(state, token) || self.completes.look(state, token)
    }

    /// Whether a cell is an error although it has candidates: that is what `%nonassoc` is for.
    pub(crate) fn is_meant(&self, state: StIdx<u32>, token: TIdx<u32>) -> bool {
        match self.table.action(state, token) {
            Action::Error => self.has_candidate(state, token),
            _ => false,
        }
    }

    /// The candidates of a cell.
    pub(crate) fn candidates(
        &self,
        alloc: Global,
        state: StIdx<u32>,
        token: TIdx<u32>,
    ) -> Result<Vec<Move<u32>>, AllocError> {
        let mut candidates = Vec::new(alloc);
        if self.may_shift(state, token) {
            candidates.push(Move::Shift)?;
        }
        for production in &self.completes.reductions(alloc, state, token)? {
            candidates.push(Move::Reduce(*production))?;
        }
        Ok(candidates)
    }

    /// The symbols along which a stack was come to.
    pub(crate) fn list_of(
        &self,
        alloc: Global,
        stack: &[StIdx<u32>],
    ) -> Result<Vec<Symbol<u32>>, AllocError> {
        let mut list = Vec::new(alloc);
        for state in stack.iter().skip(1) {
            if let Some(symbol) = self.ways.symbol(*state) {
                list.push(symbol)?;
            }
        }
        Ok(list)
    }
}
