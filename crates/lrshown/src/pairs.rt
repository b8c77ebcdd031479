//! Both trees of a sentence, as they are shown.

ghost use Rattle.std.specs.Prelude.{◌≡◌, IfOk};
ghost use Rattle.std.specs.Bool.{Decides};
ghost use Rattle.lrshown.specs.DrawnTrees.{Row};
ghost use Rattle.lrshown.specs.StoredTrees.{IsDrawn};
ghost use Rattle.lrshown.specs.ShownTrees.{AreShownTrees, unmarked};

use crate::brackets::tree_words;
use crate::chains::ShownTree;
use crate::steps::TwoTrees;
use lryacc::FileGrammar;
use std::alloc::{AllocError, Global};

/// Whether trees have the same words in brackets, without marks.
fn look_alike(
    alloc: Global,
    file: &FileGrammar,
    one: &ShownTree,
    other: &ShownTree,
) -> Result<bool, AllocError>
    ensures { (ts us : Row) → IsDrawn one.now.tree ts → IsDrawn other.now.tree us
        → IfOk result (λ same. Decides same
        (unmarked file.now one.now.cuts.items ts ≡ unmarked file.now other.now.cuts.items us)) }
{
    let words = tree_words(alloc, file, one, "", 0)?;
    let others = tree_words(alloc, file, other, "", 0)?;
    Ok(words == others)
}

/// Both trees without the middle of their chains, but whole where they would look alike.
pub fn shown_trees(
    alloc: Global,
    file: &FileGrammar,
    trees: &TwoTrees,
) -> Result<(ShownTree, ShownTree), AllocError>
    ensures { IfOk result (λ r. AreShownTrees file.now trees.now r.0 r.1) }
{
    let before = trees.before.as_slice();
    let one = ShownTree::cut(alloc, file, before, trees.one.as_slice())?;
    let other = ShownTree::cut(alloc, file, before, trees.other.as_slice())?;
    if !look_alike(alloc, file, &one, &other)? {
        return Ok((one, other));
    }
    let one = ShownTree::whole(alloc, file, before, trees.one.as_slice())?;
    let other = ShownTree::whole(alloc, file, before, trees.other.as_slice())?;
    Ok((one, other))
}
