//! Searches for sentences that are lost at the cells of a table.

ghost use Rattle.std.specs.Prelude.{◌≡◌, IfOk, IfSome};
ghost use Rattle.lrspec.specs.tables.Table.{IsTableFor};
ghost use Rattle.lrlosses.specs.StoredFinds.{IsFoundAt};

use crate::checks::{Candidate, Checker, Find};
use crate::known::Known;
use crate::search::Search;
use lrconflicts::Written;
use lrgrammar::grammar::YaccGrammar;
use lrgraphs::StateGraph;
use lrtable::StateTable;
use std::alloc::AllocError;
use std::cell::{Cell, OnceCell};
use std::marker::Model;

/// Searches for the sentences that are lost at the cells of a table. What they share is made once, by the first one.
#[derive(Drop)]
pub struct Losses<'a> {
    grm: &'a YaccGrammar<u32>,
    graph: &'a StateGraph<u32>,
    table: &'a StateTable<u32>,
    checker: Checker<'a>,
    known: OnceCell<Known<'a>>,
    /// How much work searches may still do.
    work: Cell<usize>,
}

impl<'a> Model for Losses<'a> {
    ghost use Rattle.lrlosses.specs.FoundLosses.{Tabled};

    ghost Value = { Tabled };

    ghost view = { λ l. l.checker };
}

impl<'a> Losses<'a> {
    /// Searches in the table, which is one for the grammar, and made of the graph.
    pub fn new(
        grm: &'a YaccGrammar<u32>,
        graph: &'a StateGraph<u32>,
        table: &'a StateTable<u32>,
    ) -> Losses<'a>
        requires { IsTableFor grm.now table.now }
        ensures grammar { result.grammar ≡ grm.entry.now }
        ensures table { result.table ≡ table.entry.now }
    {
        Losses {
            grm,
            graph,
            table,
            checker: Checker::new(grm, table),
            known: OnceCell::new(),
            work: Cell::new(usize::MAX),
        }
    }

    /// Lets all further searches together do so much work, or a little more: a step of the machine, a stack of a tree and a token
    /// of a text are pieces of work. Before the first call there is no bound.
    pub fn allow(&self, work: usize) {
        self.work.set(work);
    }

    /// Whether the work that is allowed was done, so that nothing is searched any more.
    pub fn is_used_up(&self) -> bool {
        self.work.get() == 0
    }

    /// What all searches share.
    fn known(&self) -> Result<Option<&Known<'a>>, AllocError> {
        if let Some(known) = self.known.get() {
            return Ok(Some(known));
        }
        let made = Known::new(self.grm.allocator(), self.grm, self.graph, self.table)?;
        let _ = self.known.set(made);
        Ok(self.known.get())
    }

    /// A text that may be lost at the candidate, behind so many others; at most so many pairs of stacks are looked at.
    fn search(
        &self,
        candidate: Candidate,
        passed_over: usize,
        pairs: usize,
    ) -> Result<Option<Written<u32>>, AllocError> {
        let Some(known) = self.known()? else {
            return Ok(None);
        };
        let most = self.work.get();
        let mut search = Search::new(&self.checker, known, candidate, passed_over, pairs, most);
        let found = search.run()?;
        self.work.set(most.saturating_sub(search.work()));
        Ok(found)
    }

    /// A sentence that the machine rejects, since at a cell it doesn't go on by this candidate, by which the sentence does. So many
    /// of those that are found first are passed over, and at most so many pairs of stacks are looked at. None says nothing. An error
    /// at a cell that `%nonassoc` makes one is no loss, unless the candidate's own cell is such a one. The error says that memory
    /// was refused.
    pub fn loss_at(
        &self,
        candidate: Candidate,
        passed_over: usize,
        pairs: usize,
    ) -> Result<Option<Find>, AllocError>
        ensures { IfOk result (λ o. IfSome o (IsFoundAt self.now candidate)) }
    {
        if self.is_used_up() {
            return Ok(None);
        }
        let Some(text) = self.search(candidate, passed_over, pairs)? else {
            return Ok(None);
        };
        match self.checker.check(candidate, &text)? {
            Some(loss) => Ok(Some(Find { text, loss })),
            None => Ok(None),
        }
    }
}
