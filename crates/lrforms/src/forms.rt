//! Searches in the table of a grammar.

use crate::ambiguous::Search;
use crate::items::Item;
use crate::outlooks::{Outlook, outlook_of, text_of};
use crate::scratch::Scratch;
use crate::searching::Searching;
use crate::shared::Shared;
use crate::states::{START, Way};
use lrconflicts::{Conflict, Move, Written};
use lrgrammar::grammar::YaccGrammar;
use lrgrammar::idx::{StIdx, Symbol, TIdx};
use lrgraphs::StateGraph;
use std::alloc::{AllocError, Global};
use std::cell::Cell;

/// A way along a list, and the state to which it leads.
#[derive(Drop)]
struct Along {
    way: Way,
    end: StIdx<u32>,
}

/// What all searches in the table of a grammar share.
#[derive(Drop)]
pub struct Forms<'a> {
    grm: &'a YaccGrammar<u32>,
    graph: &'a StateGraph<u32>,
    shared: Shared,
    /// What a search leaves for the next one.
    scratch: Cell<Option<Scratch>>,
    /// How much work searches may still do.
    work: Cell<usize>,
}

impl<'a> Forms<'a> {
    /// What all searches in the graph of the grammar share. The error says that memory was refused.
    pub fn new(
        alloc: Global,
        grm: &'a YaccGrammar<u32>,
        graph: &'a StateGraph<u32>,
    ) -> Result<Forms<'a>, AllocError> {
        let shared = Shared::new(alloc, grm, graph)?;
        Ok(Forms {
            grm,
            graph,
            shared,
            scratch: Cell::new(None),
            work: Cell::new(usize::MAX),
        })
    }

    /// Lets all further searches together do so much work, or a little more: to try a node, to look at an item of a state or at
    /// a rule around a form, and to write a move of a text are pieces of work. Before the first call there is no bound.
    pub fn allow(&self, work: usize) {
        self.work.set(work);
    }

    /// Takes so much work from what is allowed.
    pub fn charge(&self, work: usize) {
        self.work.set(self.work.get().saturating_sub(work));
    }

    /// Whether the work that is allowed was done, so that nothing is searched any more.
    pub fn is_used_up(&self) -> bool {
        self.work.get() == 0
    }

    /// Searches for a form at a conflict, and for a whole text around it, and makes at most so many nodes. What is found is to
    /// be checked; that nothing is found says nothing. The error says that memory was refused.
    pub fn search(&self, conflict: Conflict<u32>, steps: usize) -> Result<Search, AllocError> {
        if steps == 0 || self.is_used_up() {
            return Ok(Search::OutOfSteps);
        }
        let alloc = self.grm.allocator();
        let items = self.candidates(alloc, conflict.state, conflict.token, Move::Shift)?;
        self.run(alloc, conflict, items.as_slice(), steps)
    }

    /// Searches, with what earlier searches left. These are the items of the conflict's state before the token.
    fn run(
        &self,
        alloc: Global,
        conflict: Conflict<u32>,
        shifting: &[Item],
        steps: usize,
    ) -> Result<Search, AllocError> {
        let mut scratch = match self.scratch.take() {
            Some(scratch) => scratch,
            None => Scratch::new(alloc),
        };
        let most = self.work.get();
        let mut searching = Searching::new(&self.shared, conflict, &mut scratch, steps, most);
        let found = searching.run(alloc, shifting)?;
        self.charge(searching.work());
        scratch.clear();
        if !scratch.is_full() {
            self.scratch.set(Some(scratch));
        }
        Ok(found)
    }

    /// A least text of the symbols, one after another, as moves read it; None where one of them has no text or it gets too
    /// long. The error says that memory was refused.
    pub fn text_of(&self, symbols: &[Symbol<u32>]) -> Result<Option<Written<u32>>, AllocError> {
        text_of(self.grm.allocator(), &self.shared, symbols)
    }

    /// How a parse goes on by the candidate after the list, where the token comes next: of all ways one with a shortest rest,
    /// ties by the number of items. None where there is none. The error says that memory was refused.
    pub fn outlook(
        &self,
        list: &[Symbol<u32>],
        token: TIdx<u32>,
        candidate: Move<u32>,
    ) -> Result<Option<Outlook>, AllocError> {
        let alloc = self.grm.allocator();
        let Some(along) = self.along(alloc, list)? else {
            return Ok(None);
        };
        let items = self.candidates(alloc, along.end, token, candidate)?;
        let items = items.as_slice();
        outlook_of(alloc, &self.shared, &along.way, token, candidate, items)
    }

    /// The way along the list; None where there is none.
    fn along(&self, alloc: Global, list: &[Symbol<u32>]) -> Result<Option<Along>, AllocError> {
        let mut end = self.graph.start_state();
        let mut states = vec![in alloc; START]?;
        let mut symbols = Vec::new(alloc);
        for symbol in list {
            let Some(next) = self.graph.edge(end, *symbol) else {
                return Ok(None);
            };
            end = next;
            states.push(next)?;
            symbols.push(*symbol)?;
        }
        let way = Way { states, symbols };
        Ok(Some(Along { way, end }))
    }

    /// The items of the state for which the candidate stands, where the token comes next.
    fn candidates(
        &self,
        alloc: Global,
        state: StIdx<u32>,
        token: TIdx<u32>,
        candidate: Move<u32>,
    ) -> Result<Vec<Item>, AllocError> {
        let mut items = Vec::new(alloc);
        if usize::from(state) >= usize::from(self.graph.all_states_len()) {
            return Ok(items);
        }
        let closed = self.graph.closed_state(state);
        self.charge(closed.items.len());
        for key in closed.items.keys() {
            let item = Item::of(*key);
            if self.shared.rules.allows(item, token, candidate) {
                items.push(item)?;
            }
        }
        Ok(items)
    }
}
