//! The steps that put a tree together.

ghost use Rattle.std.specs.Prelude.{◌≡◌, IfOk};
ghost use Rattle.lrconflicts.specs.Moves.{moves_of};
ghost use Rattle.lrshown.specs.Steps.{moves_by};
ghost use Rattle.lrtree.specs.StoredTrees.{tree_of};

use lrshown::Step;
use lrtree::{Tree, Visit};
use std::alloc::{AllocError, Global};

/// The steps that put a tree together.
pub(crate) fn steps_of_tree(alloc: Global, tree: &Tree<u32>) -> Result<Vec<Step>, AllocError>
    ensures { IfOk result (λ steps.
        moves_by steps.items ≡ moves_of (tree_of (λ n. n) tree.now)) }
{
    let mut steps = Vec::new(alloc);
    let mut visits = tree.visits(alloc);
    while let Some(visit) = visits.next()? {
        match visit {
            Visit::Token(_) => steps.push(Step::Shift)?,
            Visit::Enter(_) => {}
            Visit::Leave(production) => steps.push(Step::Reduce(usize::from(production)))?,
        }
    }
    Ok(steps)
}
