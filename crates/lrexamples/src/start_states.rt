//! Closed start states, made by the calls of item sets.

use lrgrammar::grammar::YaccGrammar;
use lrgrammar::idx::SIdx;
use lrgrammar::vob::Vob;
use lrtable::itemset::Itemset;
use std::alloc::{AllocError, Global};

/// The closed start state of a grammar.
pub fn start_state(alloc: Global, grm: &YaccGrammar<u32>) -> Result<Itemset<u32>, AllocError> {
    let firsts = grm.firsts()?;
    let mut end = Vob::from_elem(alloc, false, usize::from(grm.tokens_len()))?;
    end.set(usize::from(grm.eof_token_idx()), true);
    let mut start = Itemset::new(alloc, grm);
    start.add(grm.start_prod(), SIdx(0), &end)?;
    start.close(grm, &firsts)
}
