//! Ways to read a token by reductions that look at it, also by those that the table doesn't take: a depth-first search over
//! stacks.

use crate::known::Known;
use crate::rules::{START, body_of, rule_of};
use lrconflicts::Move;
use lrgrammar::idx::{PIdx, StIdx, Symbol, TIdx};
use std::alloc::{AllocError, Global};
use std::collections::BTreeSet;

/// How many stacks are looked at.
const MOST_STACKS: usize = 200;

/// How many reductions are made before the token is read.
const MOST_REDUCTIONS: usize = 60;

/// A way to read a token.
#[derive(Drop)]
pub(crate) struct Reading {
    /// The stack behind it.
    pub(crate) stack: Vec<StIdx<u32>>,
    /// The reductions before it.
    pub(crate) reductions: Vec<PIdx<u32>>,
}

/// A search for ways.
#[derive(Drop)]
struct Search<'a> {
    known: &'a Known<'a>,
    token: TIdx<u32>,
    /// The stacks that were come to by reductions.
    seen: BTreeSet<Vec<StIdx<u32>>>,
    /// What is to be looked at, the next last: reductions, and the stack behind them.
    open: Vec<Reading>,
    found: Vec<Reading>,
}

impl<'a> Search<'a> {
    /// Reads the token, where an edge is on it.
    fn shift(&mut self, from: &Reading) -> Result<(), AllocError> {
        let top = from.stack.last().copied().unwrap_or(START);
        if let Some(to) = self.known.graph.edge(top, Symbol::Token(self.token)) {
            let mut stack = from.stack.clone()?;
            stack.push(to)?;
            self.found.push(Reading {
                stack,
                reductions: from.reductions.clone()?,
            })?;
        }
        Ok(())
    }

    /// Makes a reduction, unless its stack was come to before.
    fn reduce(
        &mut self,
        alloc: Global,
        from: &Reading,
        production: PIdx<u32>,
    ) -> Result<(), AllocError> {
        let grm = self.known.grm;
        let kept = from
            .stack
            .len()
            .saturating_sub(body_of(grm, production).len());
        let Some(below) = from.stack.get(..kept) else {
            return Ok(());
        };
        let (Some(top), Some(rule)) = (below.last(), rule_of(grm, production)) else {
            return Ok(());
        };
        let Some(to) = self.known.graph.edge(*top, Symbol::Rule(rule)) else {
            return Ok(());
        };
        let mut stack = Vec::from_slice(alloc, below)?;
        stack.push(to)?;
        if self.seen.insert(stack.clone()?)? {
            let mut reductions = from.reductions.clone()?;
            reductions.push(production)?;
            self.open.push(Reading { stack, reductions })?;
        }
        Ok(())
    }

    /// Makes each reduction that looks at the token.
    fn reduce_all(&mut self, alloc: Global, from: &Reading) -> Result<(), AllocError> {
        if from.reductions.len() > MOST_REDUCTIONS {
            return Ok(());
        }
        let top = from.stack.last().copied().unwrap_or(START);
        let productions = self.known.completes.reductions(alloc, top, self.token)?;
        for production in productions.iter().rev() {
            self.reduce(alloc, from, *production)?;
        }
        Ok(())
    }

    /// Begins at a stack, with a move alone, or with any.
    fn begin(
        &mut self,
        alloc: Global,
        from: &Reading,
        first: Option<Move<u32>>,
    ) -> Result<(), AllocError> {
        match first {
            Some(Move::Shift) => self.shift(from),
            Some(Move::Reduce(production)) => self.reduce(alloc, from, production),
            None => {
                self.shift(from)?;
                self.reduce_all(alloc, from)
            }
        }
    }
}

/// Ways to read the token on the stack, which begin with a move or with any; at most so many. How many stacks were looked at is
/// added to the work.
pub(crate) fn readings<'a>(
    known: &'a Known<'a>,
    stack: &[StIdx<u32>],
    token: TIdx<u32>,
    first: Option<Move<u32>>,
    most: usize,
    work: &mut usize,
) -> Result<Vec<Reading>, AllocError> {
    let alloc = known.grm.allocator();
    let mut search = Search {
        known,
        token,
        seen: BTreeSet::new(alloc),
        open: Vec::new(alloc),
        found: Vec::new(alloc),
    };
    let from = Reading {
        stack: Vec::from_slice(alloc, stack)?,
        reductions: Vec::new(alloc),
    };
    search.begin(alloc, &from, first)?;
    for _ in 0..MOST_STACKS {
        if search.found.len() >= most {
            break;
        }
        let Some(from) = search.open.pop() else {
            break;
        };
        *work = work.saturating_add(1);
        search.begin(alloc, &from, None)?;
    }
    search.found.truncate(most);
    Ok(search.found)
}
