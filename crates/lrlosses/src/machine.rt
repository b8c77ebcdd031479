//! The machine of a table on a stack of states, for searches.

use crate::rules::{START, body_of, rule_of};
use lrconflicts::Move;
use lrgrammar::grammar::YaccGrammar;
use lrgrammar::idx::{PIdx, StIdx, TIdx};
use lrtable::{Action, StateTable};
use std::alloc::{AllocError, Global};

/// How many steps the machine takes on a text.
const MOST_STEPS: usize = 20_000;

/// How often it comes to a state behind a text, as far as that counts.
const MOST_ARRIVALS: usize = 4;

/// How many reductions it makes before it shifts a token.
const MOST_REDUCTIONS: usize = 500;

/// What comes of a token.
#[derive(Clone, Copy)]
pub(crate) enum Outcome {
    /// It is shifted.
    Shifted,
    /// It is the end token, and the text is accepted.
    Accepted,
    /// The machine errs, in this state.
    Failed(StIdx<u32>),
    /// Too many reductions.
    Unfinished,
}

/// The machine of a table.
#[derive(Drop)]
pub(crate) struct Machine<'a> {
    grm: &'a YaccGrammar<u32>,
    table: &'a StateTable<u32>,
    /// The states that were pushed and not dropped, the last one on top.
    pub(crate) stack: Vec<StIdx<u32>>,
    /// How many steps were made.
    pub(crate) steps: usize,
}

impl<'a> Machine<'a> {
    /// With that stack.
    pub(crate) fn new(
        grm: &'a YaccGrammar<u32>,
        table: &'a StateTable<u32>,
        stack: Vec<StIdx<u32>>,
    ) -> Machine<'a> {
        Machine {
            grm,
            table,
            stack,
            steps: 0,
        }
    }

    /// What the cell says that it looks at, where the token comes next.
    fn action(&mut self, token: TIdx<u32>) -> Action<u32> {
        self.steps = self.steps.saturating_add(1);
        self.table.action(self.top(), token)
    }

    /// The state on top of the stack.
    fn top(&self) -> StIdx<u32> {
        self.stack.last().copied().unwrap_or(START)
    }

    /// Reduces by a production; false where that can't be done.
    fn reduce(&mut self, production: PIdx<u32>) -> Result<bool, AllocError> {
        let body = body_of(self.grm, production);
        let kept = self.stack.len().saturating_sub(body.len());
        self.stack.truncate(kept);
        let Some(rule) = rule_of(self.grm, production) else {
            return Ok(false);
        };
        let Some(state) = self.table.goto(self.top(), rule) else {
            return Ok(false);
        };
        self.stack.push(state)?;
        Ok(true)
    }

    /// That it is where it is by these moves.
    fn arrival(&self, moves: &[Move<u32>]) -> Result<Arrival, AllocError> {
        Ok(Arrival {
            moves: Vec::from_slice(*self.stack.allocator(), moves)?,
            stack: self.stack.clone()?,
        })
    }

    /// Goes on until the token is shifted.
    pub(crate) fn take(&mut self, token: TIdx<u32>) -> Result<Outcome, AllocError> {
        for _ in 0..MOST_REDUCTIONS {
            match self.action(token) {
                Action::Shift(state) => {
                    self.stack.push(state)?;
                    return Ok(Outcome::Shifted);
                }
                Action::Reduce(production) => {
                    if !self.reduce(production)? {
                        break;
                    }
                }
                Action::Accept => return Ok(Outcome::Accepted),
                Action::Error => return Ok(Outcome::Failed(self.top())),
            }
        }
        Ok(Outcome::Unfinished)
    }
}

/// How the machine came to a state.
#[derive(Drop)]
pub(crate) struct Arrival {
    pub(crate) moves: Vec<Move<u32>>,
    pub(crate) stack: Vec<StIdx<u32>>,
}

/// How the machine comes to the state behind the text, where the token comes next; at most so often as counts.
pub(crate) fn arrivals(
    alloc: Global,
    machine: &mut Machine<'_>,
    text: &[TIdx<u32>],
    token: TIdx<u32>,
    state: StIdx<u32>,
) -> Result<Vec<Arrival>, AllocError> {
    let (mut arrivals, mut moves) = (Vec::new(alloc), Vec::new(alloc));
    let mut used: usize = 0;
    for _ in 0..MOST_STEPS {
        if used == text.len() && machine.top() == state {
            arrivals.push(machine.arrival(moves.as_slice())?)?;
        }
        let next = text.get(used).copied();
        match (machine.action(next.unwrap_or(token)), next) {
            (Action::Shift(state), Some(_)) => {
                machine.stack.push(state)?;
                moves.push(Move::Shift)?;
                used = used.saturating_add(1);
            }
            (Action::Reduce(production), _) if arrivals.len() < MOST_ARRIVALS => {
                if !machine.reduce(production)? {
                    break;
                }
                moves.push(Move::Reduce(production))?;
            }
            _ => break,
        }
    }
    Ok(arrivals)
}
