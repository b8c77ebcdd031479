//! By which productions a state may reduce, by the graph and not by the table.

use crate::rules::{body_of, has_token};
use lrgrammar::grammar::YaccGrammar;
use lrgrammar::idx::{PIdx, StIdx, TIdx};
use lrgraphs::StateGraph;
use lritems::itemset::{Ctx, Itemset};
use std::alloc::{AllocError, Global};

/// A production whose item is complete in a state, and the tokens at which the item looks.
#[derive(Clone, Copy)]
struct Complete<'a> {
    production: PIdx<u32>,
    tokens: &'a Ctx,
}

/// The complete items of each state.
#[derive(Drop)]
pub(crate) struct Completes<'a> {
    of_states: Vec<Vec<Complete<'a>>>,
}

/// The complete items of a closed set.
fn completes_of<'a>(
    alloc: Global,
    grm: &YaccGrammar<u32>,
    set: &'a Itemset<u32>,
) -> Result<Vec<Complete<'a>>, AllocError> {
    let mut completes = Vec::new(alloc);
    for ((production, dot), tokens) in &set.items {
        if usize::from(*dot) == body_of(grm, *production).len() {
            completes.push(Complete {
                production: *production,
                tokens,
            })?;
        }
    }
    Ok(completes)
}

impl<'a> Completes<'a> {
    /// Those of the states of a graph.
    pub(crate) fn new(
        alloc: Global,
        grm: &YaccGrammar<u32>,
        graph: &'a StateGraph<u32>,
    ) -> Result<Completes<'a>, AllocError> {
        let mut of_states = Vec::new(alloc);
        for set in graph.iter_closed_states() {
            of_states.push(completes_of(alloc, grm, set)?)?;
        }
        Ok(Completes { of_states })
    }

    /// Whether an item of the state looks at the token.
    pub(crate) fn look(&self, state: StIdx<u32>, token: TIdx<u32>) -> bool {
        let Some(completes) = self.of_states.get(usize::from(state)) else {
            return false;
        };
        for complete in completes {
            if has_token(complete.tokens, token) {
                return true;
            }
        }
        false
    }

    /// The productions of the items of the state that look at the token, upwards.
    pub(crate) fn reductions(
        &self,
        alloc: Global,
        state: StIdx<u32>,
        token: TIdx<u32>,
    ) -> Result<Vec<PIdx<u32>>, AllocError> {
        let mut productions = Vec::new(alloc);
        let Some(completes) = self.of_states.get(usize::from(state)) else {
            return Ok(productions);
        };
        for complete in completes {
            if has_token(complete.tokens, token) {
                productions.push(complete.production)?;
            }
        }
        Ok(productions)
    }
}
