//! The search for a sentence that is lost at a candidate of a cell. First behind lists that bring the machine to the cell, with a
//! shortest rest that goes on by the candidate; then by a best-first search over pairs of stacks, for a token at which the machine
//! errs and a tree goes on.

use crate::checks::{Candidate, Checker};
use crate::known::Known;
use crate::lists::{lists_before, nearest_lists};
use crate::machine::{Arrival, Machine, Outcome, arrivals};
use crate::pairs::{Origin, Pairs, Start, copied};
use crate::readings::readings;
use crate::rules::{START, body_of};
use crate::texts::{longer_text_along, text_along};
use lrconflicts::{Move, Written};
use lrforms::Outlook;
use lrgrammar::idx::{PIdx, StIdx, Symbol, TIdx};
use lrtable::Action;
use std::alloc::{AllocError, Global};

/// How many lists are tried behind which a reduction that isn't taken goes on; and how many for a shift that isn't: behind which
/// the reduction goes on that is taken, and over its body.
const MOST_LISTS: usize = 24;

const MOST_TAKEN_LISTS: usize = 12;

const MOST_NEAREST_LISTS: usize = 8;

/// How many ways to read a token are tried, for the cell's own and for each further one.
const MOST_FIRST_READINGS: usize = 8;

const MOST_READINGS: usize = 4;

/// How many pairs may be made, and how much work may be done, for each that is looked at.
const MOST_MADE: usize = 50;

const MOST_WORK: usize = 400;

/// A token that the machine shifts, and its stack behind it.
#[derive(Drop)]
struct Taken {
    token: TIdx<u32>,
    stack: Vec<StIdx<u32>>,
}

/// A search.
#[derive(Drop)]
pub(crate) struct Search<'a> {
    alloc: Global,
    checker: &'a Checker<'a>,
    known: &'a Known<'a>,
    candidate: Candidate,
    starts: Vec<Start>,
    /// How many lost texts are still passed over.
    passed_over: usize,
    /// How many pairs may be looked at.
    pairs: usize,
    /// How much work may be done, and how much was done: steps of the machine, stacks of trees, tokens of texts.
    most: usize,
    work: usize,
}

impl<'a> Search<'a> {
    /// At a candidate, behind so many lost texts, with so many pairs and so much work at the most.
    pub(crate) fn new(
        checker: &'a Checker<'a>,
        known: &'a Known<'a>,
        candidate: Candidate,
        passed_over: usize,
        pairs: usize,
        most: usize,
    ) -> Search<'a> {
        let alloc = known.grm.allocator();
        Search {
            alloc,
            checker,
            known,
            candidate,
            starts: Vec::new(alloc),
            passed_over,
            pairs,
            most: most.min(pairs.saturating_mul(MOST_WORK)),
            work: 0,
        }
    }

    /// How much work was done.
    pub(crate) fn work(&self) -> usize {
        self.work
    }

    /// Adds to the work.
    fn count(&mut self, work: usize) {
        self.work = self.work.saturating_add(work);
    }

    /// Searches.
    pub(crate) fn run(&mut self) -> Result<Option<Written<u32>>, AllocError> {
        for list in &self.lists()? {
            self.add_start(list)?;
        }
        let found = self.behind_starts()?;
        if found.is_some() {
            return Ok(found);
        }
        self.by_pairs()
    }

    /// Lists that may bring the machine to the cell.
    fn lists(&self) -> Result<Vec<Vec<Symbol<u32>>>, AllocError> {
        let Candidate {
            state,
            token,
            action,
        } = self.candidate;
        let (alloc, known) = (self.alloc, self.known);
        match (action, known.table.action(state, token)) {
            (Move::Reduce(lost), _) => lists_before(alloc, known, state, lost, token, MOST_LISTS),
            (Move::Shift, Action::Reduce(taken)) => self.lists_of_taken(taken),
            _ => self.shortest_list(),
        }
    }

    /// Those for a shift that isn't taken, but this reduction is.
    fn lists_of_taken(&self, taken: PIdx<u32>) -> Result<Vec<Vec<Symbol<u32>>>, AllocError> {
        let Candidate { state, token, .. } = self.candidate;
        let (alloc, known) = (self.alloc, self.known);
        let mut lists = lists_before(alloc, known, state, taken, token, MOST_TAKEN_LISTS)?;
        let symbols = body_of(known.grm, taken).len();
        for list in nearest_lists(alloc, known, state, symbols, MOST_NEAREST_LISTS)? {
            if !lists.contains(&list) {
                lists.push(list)?;
            }
        }
        Ok(lists)
    }

    /// That of a shortest way to the cell's state.
    fn shortest_list(&self) -> Result<Vec<Vec<Symbol<u32>>>, AllocError> {
        let mut lists = Vec::new(self.alloc);
        if let Some(list) = self.known.ways.list_to(self.alloc, self.candidate.state)? {
            lists.push(list)?;
        }
        Ok(lists)
    }

    /// Keeps how the machine comes to the cell behind a text of a list: a shortest one, or else one whose last symbol isn't empty,
    /// since what the machine does at the cell's token may be something else where it is.
    fn add_start(&mut self, list: &[Symbol<u32>]) -> Result<(), AllocError> {
        let (alloc, known) = (self.alloc, self.known);
        let before = self.starts.len();
        if let Some(tokens) = text_along(alloc, known.grm, &known.edges, list)? {
            self.add_arrivals(&tokens)?;
        }
        if self.starts.len() > before {
            return Ok(());
        }
        match longer_text_along(alloc, known.grm, &known.edges, list)? {
            Some(tokens) => self.add_arrivals(&tokens),
            None => Ok(()),
        }
    }

    /// Keeps how the machine comes to the cell behind a text.
    fn add_arrivals(&mut self, tokens: &Vec<TIdx<u32>>) -> Result<(), AllocError> {
        let (alloc, known) = (self.alloc, self.known);
        let Candidate { state, token, .. } = self.candidate;
        let mut machine = Machine::new(known.grm, known.table, vec![in alloc; START]?);
        let found = arrivals(alloc, &mut machine, tokens, token, state)?;
        self.count(machine.steps);
        for arrival in found {
            let Arrival { moves, stack } = arrival;
            let tokens = tokens.clone()?;
            let text = Written { tokens, moves };
            self.starts.push(Start { text, stack })?;
        }
        Ok(())
    }

    /// The first of the texts of the starts, with a shortest rest by the candidate, that is lost.
    fn behind_starts(&mut self) -> Result<Option<Written<u32>>, AllocError> {
        let Candidate { token, action, .. } = self.candidate;
        let (alloc, known) = (self.alloc, self.known);
        for number in 0..self.starts.len() {
            let Some(start) = self.starts.get(number) else {
                break;
            };
            let list = known.list_of(alloc, &start.stack)?;
            let text = copied(alloc, &start.text)?;
            let found = self.completed(text, &list, token, action)?;
            if found.is_some() {
                return Ok(found);
            }
        }
        Ok(None)
    }

    /// A shortest rest behind the list that begins with the token and goes on by the move.
    fn rest(
        &self,
        list: &[Symbol<u32>],
        token: TIdx<u32>,
        action: Move<u32>,
    ) -> Result<Option<Written<u32>>, AllocError> {
        match self.known.forms.outlook(list, token, action)? {
            Some(outlook) => {
                let Outlook { rest, .. } = outlook;
                Ok(rest)
            }
            None => Ok(None),
        }
    }

    /// The text behind the list, with a shortest rest that begins with the token and goes on by the move, if that is lost, and no more
    /// lost ones are passed over.
    fn completed(
        &mut self,
        text: Written<u32>,
        list: &[Symbol<u32>],
        token: TIdx<u32>,
        action: Move<u32>,
    ) -> Result<Option<Written<u32>>, AllocError> {
        let Some(rest) = self.rest(list, token, action)? else {
            return Ok(None);
        };
        let mut text = text;
        text.tokens.extend_from_slice(rest.tokens.as_slice())?;
        text.moves.extend_from_slice(rest.moves.as_slice())?;
        self.count(text.tokens.len());
        if !self.is_lost(&text)? {
            return Ok(None);
        }
        if self.passed_over > 0 {
            self.passed_over = self.passed_over.saturating_sub(1);
            return Ok(None);
        }
        Ok(Some(text))
    }

    /// Whether an error at the cell doesn't count, since it is meant; but at a cell that is itself such an error it does.
    fn is_no_loss(&self, state: StIdx<u32>, token: TIdx<u32>) -> bool {
        let Candidate {
            state: own,
            token: next,
            ..
        } = self.candidate;
        self.known.is_meant(state, token) && !self.known.is_meant(own, next)
    }

    /// Whether the text is lost at the candidate.
    fn is_lost(&self, text: &Written<u32>) -> Result<bool, AllocError> {
        let Some(loss) = self.checker.check(self.candidate, text)? else {
            return Ok(false);
        };
        let rejected = loss.rejected;
        loss.take_apart();
        Ok(!self.is_no_loss(rejected.state, rejected.token))
    }

    /// Searches by pairs of stacks.
    fn by_pairs(&mut self) -> Result<Option<Written<u32>>, AllocError> {
        let mut pairs = Pairs::new(self.alloc, self.pairs.saturating_mul(MOST_MADE));
        self.begin_all(&mut pairs)?;
        for _ in 0..self.pairs {
            if self.work > self.most {
                break;
            }
            let Some(number) = pairs.next() else {
                break;
            };
            let found = self.look_at(&mut pairs, number)?;
            if found.is_some() {
                return Ok(found);
            }
        }
        Ok(None)
    }

    /// Makes the pairs behind the cell's token; none where that is the end token.
    fn begin_all(&mut self, pairs: &mut Pairs) -> Result<(), AllocError> {
        if self.candidate.token == self.known.grm.eof_token_idx() {
            return Ok(());
        }
        for number in 0..self.starts.len() {
            self.begin(pairs, number)?;
        }
        Ok(())
    }

    /// Makes the pairs behind the cell's token, from a start on.
    fn begin(&mut self, pairs: &mut Pairs, number: usize) -> Result<(), AllocError> {
        let Candidate { token, action, .. } = self.candidate;
        let known = self.known;
        let Some(start) = self.starts.get(number) else {
            return Ok(());
        };
        let mut machine = Machine::new(known.grm, known.table, start.stack.clone()?);
        let (most, first) = (MOST_FIRST_READINGS, Some(action));
        let outcome = machine.take(token)?;
        self.work = self.work.saturating_add(machine.steps);
        let Outcome::Shifted = outcome else {
            return Ok(());
        };
        for reading in readings(known, &start.stack, token, first, most, &mut self.work)? {
            pairs.add(known, Origin::Start(number), token, &machine.stack, reading)?;
        }
        Ok(())
    }

    /// Looks at a pair: for a text that is lost, or else for further pairs.
    fn look_at(
        &mut self,
        pairs: &mut Pairs,
        number: usize,
    ) -> Result<Option<Written<u32>>, AllocError> {
        let mut taken = Vec::new(self.alloc);
        let found = self.try_tokens(pairs, number, &mut taken)?;
        if found.is_none() && !pairs.is_full() {
            for taken in &taken {
                self.go_on(pairs, number, taken)?;
            }
        }
        Ok(found)
    }

    /// A text that is lost, with the first token at which the machine errs, and that the tree of the pair may read. Adds the
    /// tokens before it that the machine takes.
    fn try_tokens(
        &mut self,
        pairs: &Pairs,
        number: usize,
        taken: &mut Vec<Taken>,
    ) -> Result<Option<Written<u32>>, AllocError> {
        for token in self.known.grm.iter_tidxs() {
            let found = self.try_token(pairs, number, token, taken)?;
            if found.is_some() {
                return Ok(found);
            }
        }
        Ok(None)
    }

    /// A text that is lost, where the machine errs at the token, but the tree may read it; where the machine shifts it, it is
    /// added to those that are taken.
    fn try_token(
        &mut self,
        pairs: &Pairs,
        number: usize,
        token: TIdx<u32>,
        taken: &mut Vec<Taken>,
    ) -> Result<Option<Written<u32>>, AllocError> {
        let known = self.known;
        let Some(pair) = pairs.pair(number) else {
            return Ok(None);
        };
        let top = pair.tree.last().copied().unwrap_or(START);
        if !known.has_candidate(top, token) {
            return Ok(None);
        }
        let mut machine = Machine::new(known.grm, known.table, pair.machine.clone()?);
        let outcome = machine.take(token)?;
        self.count(machine.steps);
        match outcome {
            Outcome::Shifted => {
                let stack = machine.stack;
                taken.push(Taken { token, stack })?;
                Ok(None)
            }
            Outcome::Failed(state) if !self.is_no_loss(state, token) => {
                self.complete(pairs, number, token)
            }
            _ => Ok(None),
        }
    }

    /// A text that is lost at a pair, whose tree goes on with the token.
    fn complete(
        &mut self,
        pairs: &Pairs,
        number: usize,
        token: TIdx<u32>,
    ) -> Result<Option<Written<u32>>, AllocError> {
        let (alloc, known) = (self.alloc, self.known);
        let Some(pair) = pairs.pair(number) else {
            return Ok(None);
        };
        let top = pair.tree.last().copied().unwrap_or(START);
        let list = known.list_of(alloc, &pair.tree)?;
        for action in &known.candidates(alloc, top, token)? {
            if let Some(text) = pairs.text(alloc, &self.starts, number)? {
                let found = self.completed(text, &list, token, *action)?;
                if found.is_some() {
                    return Ok(found);
                }
            }
        }
        Ok(None)
    }

    /// Makes the pairs behind a pair by a token that the machine takes.
    fn go_on(&mut self, pairs: &mut Pairs, number: usize, taken: &Taken) -> Result<(), AllocError> {
        let known = self.known;
        let Some(pair) = pairs.pair(number) else {
            return Ok(());
        };
        let (token, most) = (taken.token, MOST_READINGS);
        let found = readings(known, &pair.tree, token, None, most, &mut self.work)?;
        for reading in found {
            pairs.add(known, Origin::Pair(number), token, &taken.stack, reading)?;
        }
        Ok(())
    }
}
