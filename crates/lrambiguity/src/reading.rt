//! Reading: the tree that moves put together.

ghost use Rattle.std.specs.Prelude.{◌≡◌, IfOk, IfSome, IfNone};
ghost use Rattle.lrspec.specs.grammars.Trees.{leaves};
ghost use Rattle.lrtable.specs.RunAnswers.{text_of};
ghost use Rattle.lrtree.specs.StoredTrees.{tree_of};
ghost use Rattle.lrconflicts.specs.Moves.{moves_of, IsTreeOfStart, HasNoTree};
ghost use Rattle.lrconflicts.specs.StoredMoves.{moves_stored};

use crate::replays::Replay;
use lrconflicts::Move;
use lrgrammar::grammar::YaccGrammar;
use lrgrammar::idx::{IndexStorage, TIdx};
use lrtree::Tree;
use std::alloc::{AllocError, Global};

/// The tree of the text that these moves put together; None where they put together none.
///
/// A shift makes a leaf of the next token. A reduction puts a node over the last trees, whose roots are the body of its
/// production, which isn't the start production. In the end there is one tree, for the start rule, of all the text.
pub fn read_moves<T: IndexStorage>(
    alloc: Global,
    grm: &YaccGrammar<T>,
    text: &[TIdx<T>],
    moves: &[Move<T>],
) -> Result<Option<Tree<T>>, AllocError>
    ensures tree { IfOk result (λ o. IfSome o (λ tree.
        IsTreeOfStart grm.now (tree_of T.number tree))) }
    ensures text { IfOk result (λ o. IfSome o (λ tree.
        leaves (tree_of T.number tree) ≡ text_of T.number text.now)) }
    ensures moves { IfOk result (λ o. IfSome o (λ tree.
        moves_of (tree_of T.number tree) ≡ moves_stored T.number moves.now)) }
    ensures none { IfOk result (λ o. IfNone o
        (HasNoTree grm.now (moves_stored T.number moves.now) (text_of T.number text.now))) }
{
    let mut replay = Replay::new(alloc);
    match replay.make_all(alloc, grm, text, moves) {
        Ok(true) => Ok(replay.into_tree(grm, text)),
        Ok(false) => {
            replay.take_apart();
            Ok(None)
        }
        Err(refused) => {
            replay.take_apart();
            Err(refused)
        }
    }
}
