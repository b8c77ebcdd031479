//! Pairs of stacks that read the same text behind a cell: the machine's, and one of a tree that goes on by the candidate that is
//! not taken. What is to be looked at next is in a priority queue.

use crate::known::Known;
use crate::readings::Reading;
use lrconflicts::{Move, Written};
use lrgrammar::idx::{PIdx, StIdx, TIdx};
use std::alloc::{AllocError, Global};
use std::cmp::Reverse;
use std::collections::{BTreeSet, BinaryHeap};

/// A text that brings the machine to a cell, with its moves and its stack there.
#[derive(Drop)]
pub(crate) struct Start {
    pub(crate) text: Written<u32>,
    pub(crate) stack: Vec<StIdx<u32>>,
}

/// Of what a pair comes.
#[derive(Clone, Copy)]
pub(crate) enum Origin {
    /// Of the start with this number.
    Start(usize),
    /// Of the pair with this number.
    Pair(usize),
}

/// A pair of stacks.
#[derive(Drop)]
pub(crate) struct Pair {
    pub(crate) machine: Vec<StIdx<u32>>,
    pub(crate) tree: Vec<StIdx<u32>>,
    /// Of what it comes, by which reductions of the tree, and by which token behind them.
    origin: Origin,
    reductions: Vec<PIdx<u32>>,
    token: TIdx<u32>,
    /// How many tokens were read behind the cell's.
    tokens: usize,
}

/// The pairs that were come to.
#[derive(Drop)]
pub(crate) struct Pairs {
    pairs: Vec<Pair>,
    seen: BTreeSet<(Vec<StIdx<u32>>, Vec<StIdx<u32>>)>,
    /// The numbers of those that are to be looked at, by the tokens behind the cell's and those that complete the tree at least; of
    /// equals the first one first.
    queue: BinaryHeap<Reverse<(usize, usize)>>,
    /// How many may be made.
    most: usize,
}

/// Adds a reduction for each of the productions, and the shift of a token, to the text.
fn add_step(
    text: &mut Written<u32>,
    productions: &[PIdx<u32>],
    token: TIdx<u32>,
) -> Result<(), AllocError> {
    for production in productions {
        text.moves.push(Move::Reduce(*production))?;
    }
    text.moves.push(Move::Shift)?;
    text.tokens.push(token)?;
    Ok(())
}

/// A copy of a text.
pub(crate) fn copied(alloc: Global, text: &Written<u32>) -> Result<Written<u32>, AllocError> {
    Ok(Written {
        tokens: Vec::from_slice(alloc, text.tokens.as_slice())?,
        moves: Vec::from_slice(alloc, text.moves.as_slice())?,
    })
}

impl Pairs {
    /// None so far, and so many at most.
    pub(crate) fn new(alloc: Global, most: usize) -> Pairs {
        Pairs {
            pairs: Vec::new(alloc),
            seen: BTreeSet::new(alloc),
            queue: BinaryHeap::new(alloc),
            most,
        }
    }

    /// The pair with that number.
    pub(crate) fn pair(&self, number: usize) -> Option<&Pair> {
        self.pairs.get(number)
    }

    /// Whether no more may be made.
    pub(crate) fn is_full(&self) -> bool {
        self.pairs.len() >= self.most
    }

    /// The number of the pair that is looked at next.
    pub(crate) fn next(&mut self) -> Option<usize> {
        let Reverse((_, number)) = self.queue.pop()?;
        Some(number)
    }

    /// Adds a pair, unless both stacks are the same, or it was come to before.
    pub(crate) fn add(
        &mut self,
        known: &Known<'_>,
        origin: Origin,
        token: TIdx<u32>,
        machine: &[StIdx<u32>],
        reading: Reading,
    ) -> Result<(), AllocError> {
        let alloc = *self.pairs.allocator();
        let Reading { stack, reductions } = reading;
        if stack.as_slice() == machine {
            return Ok(());
        }
        let machine = Vec::from_slice(alloc, machine)?;
        if !self.seen.insert((machine.clone()?, stack.clone()?))? {
            return Ok(());
        }
        let behind = match stack.last() {
            Some(top) => known.tokens_behind(*top),
            None => 0,
        };
        let tokens = self.tokens(origin);
        let cost = tokens.saturating_add(behind);
        self.queue.push(Reverse((cost, self.pairs.len())))?;
        self.pairs.push(Pair {
            machine,
            tree: stack,
            origin,
            reductions,
            token,
            tokens,
        })?;
        Ok(())
    }

    /// How many tokens are read behind the cell's by a pair of that origin.
    fn tokens(&self, origin: Origin) -> usize {
        match origin {
            Origin::Start(_) => 0,
            Origin::Pair(number) => match self.pair(number) {
                Some(pair) => pair.tokens.saturating_add(1),
                None => 0,
            },
        }
    }

    /// The numbers of the pairs by which the pair was come to, itself first, and that of their start.
    fn way(&self, alloc: Global, number: usize) -> Result<(Vec<usize>, usize), AllocError> {
        let mut numbers = Vec::new(alloc);
        let mut last = number;
        for _ in 0..self.pairs.len() {
            numbers.push(last)?;
            match self.pair(last) {
                Some(pair) => match pair.origin {
                    Origin::Start(start) => return Ok((numbers, start)),
                    Origin::Pair(from) => last = from,
                },
                None => break,
            }
        }
        Ok((numbers, 0))
    }

    /// The text up to the pair, as the tree's moves read it.
    pub(crate) fn text(
        &self,
        alloc: Global,
        starts: &[Start],
        number: usize,
    ) -> Result<Option<Written<u32>>, AllocError> {
        let (numbers, start) = self.way(alloc, number)?;
        let Some(start) = starts.get(start) else {
            return Ok(None);
        };
        let mut text = copied(alloc, &start.text)?;
        for number in numbers.iter().rev() {
            if let Some(pair) = self.pair(*number) {
                add_step(&mut text, &pair.reductions, pair.token)?;
            }
        }
        Ok(Some(text))
    }
}
