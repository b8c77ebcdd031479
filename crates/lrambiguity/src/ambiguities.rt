//! Ambiguities.

ghost use Rattle.std.specs.Prelude.{◌≡◌, ◌≢◌, ◌++◌, IfOk, IfSome, IfNone, IsSome};
ghost use Rattle.lrspec.specs.tables.Recognition.{IsUnambiguous};
ghost use Rattle.lrspec.specs.tables.Table.{Table, IsTableFor};
ghost use Rattle.lrspec.specs.tables.LrTables.{HasNoPrecedences, ListsNothing};
ghost use Rattle.lrtable.specs.RunAnswers.{text_of};
ghost use Rattle.lrtree.specs.StoredTrees.{tree_of};
ghost use Rattle.lrconflicts.specs.Moves.{HasNoTree, IsTreeBy, IsTreeOfText};
ghost use Rattle.lrconflicts.specs.StoredMoves.{moves_stored};
ghost use Rattle.lrambiguity.specs.StoredAmbiguities.{AreTreesBy, BeginAlike, IsAmbiguity, IsGiven};

use crate::reading::read_moves;
use lrconflicts::{Move, differ_at_once};
use lrgrammar::grammar::YaccGrammar;
use lrgrammar::idx::{IndexStorage, TIdx};
use lrtree::Tree;
use std::alloc::{AllocError, Global};

/// A text with two trees.
///
/// What is derived, letting go of it too, calls itself as deep as the trees are; `take_apart` lets go of any.
#[derive(Debug, PartialEq, Eq, Drop)]
pub struct Ambiguity<T> {
    /// The text.
    pub text: Vec<TIdx<T>>,
    /// The moves with which both trees begin.
    pub before: Vec<Move<T>>,
    /// The moves from there on to the one tree.
    pub one: Vec<Move<T>>,
    /// Those to the other tree, of which the first is another move.
    pub other: Vec<Move<T>>,
    /// The one tree.
    pub one_tree: Tree<T>,
    /// The other tree.
    pub other_tree: Tree<T>,
}

impl<T: IndexStorage> Ambiguity<T> {
    /// Takes both trees apart, however deep they are, by a loop that takes no memory.
    pub fn take_apart(self) {
        self.one_tree.take_apart();
        self.other_tree.take_apart();
    }
}

/// The tree of the text that the moves before and those behind them put together.
pub(crate) fn read_joined<T: IndexStorage>(
    alloc: Global,
    grm: &YaccGrammar<T>,
    text: &[TIdx<T>],
    before: &[Move<T>],
    after: &[Move<T>],
) -> Result<Option<Tree<T>>, AllocError>
    ensures tree { IfOk result (λ o. IfSome o (λ tree.
        IsTreeBy grm.now (moves_stored T.number before.now ++ moves_stored T.number after.now)
        (text_of T.number text.now) (tree_of T.number tree))) }
    ensures none { IfOk result (λ o. IfNone o
        (HasNoTree grm.now (moves_stored T.number before.now ++ moves_stored T.number after.now)
        (text_of T.number text.now))) }
{
    let mut moves = Vec::from_slice(alloc, before)?;
    moves.extend_from_slice(after)?;
    read_moves(alloc, grm, text, &moves)
}

/// The trees of the text that the moves before and those behind them put together; None where one of them is none, or where
/// the first moves behind don't differ.
fn read_both<T: IndexStorage>(
    alloc: Global,
    grm: &YaccGrammar<T>,
    text: &[TIdx<T>],
    before: &[Move<T>],
    one: &[Move<T>],
    other: &[Move<T>],
) -> Result<Option<(Tree<T>, Tree<T>)>, AllocError>
    ensures trees { IfOk result (λ o. IfSome o (λ trees.
        AreTreesBy T.number grm.now text.now before.now one.now other.now trees.0 trees.1)) }
    ensures none { IfOk result (λ o. IfNone o
        (BeginAlike T.number grm.now text.now before.now one.now other.now)) }
{
    if !differ_at_once(one, other) {
        return Ok(None);
    }
    let Some(one_tree) = read_joined(alloc, grm, text, before, one)? else {
        return Ok(None);
    };
    match read_joined(alloc, grm, text, before, other) {
        Ok(Some(other_tree)) => Ok(Some((one_tree, other_tree))),
        Ok(None) => {
            one_tree.take_apart();
            Ok(None)
        }
        Err(refused) => {
            one_tree.take_apart();
            Err(refused)
        }
    }
}

/// The text with both its trees, where the moves before and those behind them put together a tree of the text either way,
/// and the first moves behind differ; else None. The moves are read as by `read_moves`.
///
/// It shows that the grammar is ambiguous, and so that without precedences it has no table without conflicts.
pub fn check_ambiguity<T: IndexStorage>(
    alloc: Global,
    grm: &YaccGrammar<T>,
    text: Vec<TIdx<T>>,
    before: Vec<Move<T>>,
    one: Vec<Move<T>>,
    other: Vec<Move<T>>,
) -> Result<Option<Ambiguity<T>>, AllocError>
    ensures given { IfOk result (λ o. IfSome o (λ a. IsGiven a text before one other)) }
    ensures trees { IfOk result (λ o. IfSome o (IsAmbiguity T.number grm.now)) }
    ensures none { IfOk result (λ o. IfNone o
        (BeginAlike T.number grm.now text.items before.items one.items other.items)) }
    ensures one { IfOk result (λ o. IfSome o (λ a.
        IsTreeOfText grm.now (text_of T.number a.text.items) (tree_of T.number a.one_tree))) }
    ensures other { IfOk result (λ o. IfSome o (λ a.
        IsTreeOfText grm.now (text_of T.number a.text.items) (tree_of T.number a.other_tree))) }
    ensures differ { IfOk result (λ o. IfSome o (λ a.
        tree_of T.number a.one_tree ≢ tree_of T.number a.other_tree)) }
    ensures ambiguous { IfOk result (λ o. IsSome o → ¬ (IsUnambiguous grm.now)) }
    ensures conflicts { IfOk result (λ o. IsSome o → HasNoPrecedences grm.now → (b : Table)
        → IsTableFor grm.now b → ¬ (ListsNothing b)) }
{
    grm.in_order();
    match read_both(alloc, grm, &text, &before, &one, &other)? {
        Some((one_tree, other_tree)) => Ok(Some(Ambiguity {
            text,
            before,
            one,
            other,
            one_tree,
            other_tree,
        })),
        None => Ok(None),
    }
}
