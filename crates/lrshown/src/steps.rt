//! Trees, by the steps that put them together.

ghost use Rattle.std.specs.Prelude.{◌≡◌, map, IfOk};
ghost use Rattle.lrconflicts.specs.StoredMoves.{move_of, moves_stored};
ghost use Rattle.lrgrammar.specs.Symbols.{number_of};
ghost use Rattle.lrshown.specs.Steps.{move_by, moves_by, first_of, is_same_step, shifts};

use lrconflicts::Move;
use std::alloc::{AllocError, Global};

/// A step by which trees are put together, from the leaves on.
#[derive(Clone, Copy, Debug, PartialEq, Eq)]
pub enum Step {
    /// The next symbol becomes a leaf.
    Shift,
    /// A node of the production is put over the last trees, as many as its body has symbols.
    Reduce(usize),
}

impl Step {
    /// Whether it is the same as another one.
    pub(crate) fn is_same(self, other: Step) -> bool
        ensures { result ≡ is_same_step self other }
    {
        match (self, other) {
            (Step::Shift, Step::Shift) => true,
            (Step::Reduce(one), Step::Reduce(other)) => one == other,
            _ => false,
        }
    }
}

/// Two trees of the same symbols. Each is put together by the steps before the dot and then its own, of which the first one is
/// where they part.
#[derive(Debug, Drop)]
pub struct TwoTrees {
    /// Before the dot.
    pub before: Vec<Step>,
    /// Behind it, to the one tree.
    pub one: Vec<Step>,
    /// Behind it, to the other tree.
    pub other: Vec<Step>,
}

impl TwoTrees {
    /// How many symbols stand before the dot.
    pub fn dot(&self) -> usize
        ensures { result ≡ shifts self.now.before.items }
    {
        self.before
            .iter()
            .filter(|step| **step == Step::Shift)
            .count()
    }

    /// The steps by which the trees part.
    pub fn candidates(&self) -> (Step, Step)
        ensures one { result.0 ≡ first_of self.now.one.items }
        ensures other { result.1 ≡ first_of self.now.other.items }
    {
        let one = self.one.first().copied().unwrap_or(Step::Shift);
        let other = self.other.first().copied().unwrap_or(Step::Shift);
        (one, other)
    }
}

/// The step that a move is.
pub fn step_of(action: Move<u32>) -> Step
    ensures { move_by result ≡ move_of number_of action }
{
    match action {
        Move::Shift => Step::Shift,
        Move::Reduce(production) => Step::Reduce(usize::from(production)),
    }
}

/// The steps that moves are.
pub fn steps_of(alloc: Global, moves: &[Move<u32>]) -> Result<Vec<Step>, AllocError>
    ensures { IfOk result (λ steps. moves_by steps.items ≡ moves_stored number_of moves.now) }
{
    let mut steps = Vec::new(alloc);
    for action in moves {
        steps.push(step_of(*action))?;
    }
    Ok(steps)
}
