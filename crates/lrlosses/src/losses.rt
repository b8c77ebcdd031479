//! Lost sentences.

ghost use Rattle.std.specs.Prelude.{◌≡◌, IfOk, IfSome, IfNone, IsSome};
ghost use Rattle.lrspec.specs.tables.Table.{IsTableFor};
ghost use Rattle.lrspec.specs.tables.Recognition.{AreNamed};
ghost use Rattle.lrtable.specs.RunAnswers.{text_of};
ghost use Rattle.lrtree.specs.StoredTrees.{tree_of};
ghost use Rattle.lrconflicts.specs.Moves.{IsTreeOfText, moves_of};
ghost use Rattle.lrconflicts.specs.StoredMoves.{move_of, moves_stored};
ghost use Rattle.lrlosses.specs.Losses.{IsLost, IsNeverAccepted, PartsAt, StopsAt};
ghost use Rattle.lrlosses.specs.StoredLosses.{place_of, IsRejectedOnlyAlong, IsUnrejected};

use crate::walks::{Place, Walk};
use lrambiguity::read_moves;
use lrconflicts::Move;
use lrgrammar::grammar::YaccGrammar;
use lrgrammar::idx::{IndexStorage, TIdx};
use lrtable::StateTable;
use lrtree::Tree;
use std::alloc::{AllocError, Global};

/// A sentence of a grammar that the machine of its table rejects.
///
/// What is derived, letting go of it too, calls itself as deep as the tree is; `take_apart` lets go of any.
#[derive(Debug, PartialEq, Eq, Drop)]
pub struct Loss<T> {
    /// A tree of the sentence.
    pub tree: Tree<T>,
    /// Where the machine parts from the moves of the tree.
    pub parting: Place<T>,
    /// The next move there, which the cell doesn't take.
    pub lost: Move<T>,
    /// Where the machine rejects the sentence.
    pub rejected: Place<T>,
}

impl<T: IndexStorage> Loss<T> {
    /// Takes the tree apart, however deep it is, by a loop that takes no memory.
    pub fn take_apart(self) {
        self.tree.take_apart();
    }
}

/// Where the machine parts from the moves, the move that is lost there, and where it rejects the text; None where it makes all
/// the moves, or where so many steps don't reject the text.
fn find_parting<T: IndexStorage>(
    alloc: Global,
    grm: &YaccGrammar<T>,
    table: &StateTable<T>,
    text: &[TIdx<T>],
    moves: &[Move<T>],
    steps: usize,
) -> Result<Option<(Place<T>, Move<T>, Place<T>)>, AllocError>
    requires table_for { IsTableFor grm.now table.now }
    requires named { AreNamed grm.now (text_of T.number text.now) }
    ensures parts { IfOk result (λ o. IfSome o (λ x. PartsAt grm.now table.now
        (text_of T.number text.now) (moves_stored T.number moves.now)
        (place_of T.number x.0) (move_of T.number x.1))) }
    ensures stops { IfOk result (λ o. IfSome o (λ x. StopsAt grm.now table.now
        (text_of T.number text.now) (place_of T.number x.2))) }
    ensures none { IfOk result (λ o. IfNone o (IsRejectedOnlyAlong grm.now table.now steps
        (text_of T.number text.now) (moves_stored T.number moves.now))) }
{
    let mut walk = Walk::new(alloc, table)?;
    let Some((parting, lost)) = walk.follow(grm, table, text, moves)? else {
        return Ok(None);
    };
    match walk.go_on(grm, table, text, parting.steps, steps)? {
        Some(rejected) => Ok(Some((parting, lost, rejected))),
        None => Ok(None),
    }
}

/// The loss that the moves show: they put together a tree of the text, but the machine of the table rejects it within so many
/// steps. The moves are read as by `read_moves`.
///
/// None only where they put together no tree, or where so many steps don't reject the text. Another tree of the same
/// sentence may part from the machine at another place.
pub fn check_lost<T: IndexStorage>(
    alloc: Global,
    grm: &YaccGrammar<T>,
    table: &StateTable<T>,
    text: &[TIdx<T>],
    moves: &[Move<T>],
    steps: usize,
) -> Result<Option<Loss<T>>, AllocError>
    requires table_for { IsTableFor grm.now table.now }
    ensures sentence { IfOk result (λ o. IfSome o (λ l.
        IsTreeOfText grm.now (text_of T.number text.now) (tree_of T.number l.tree))) }
    ensures moves { IfOk result (λ o. IfSome o (λ l.
        moves_of (tree_of T.number l.tree) ≡ moves_stored T.number moves.now)) }
    ensures lost { IfOk result (λ o. IsSome o
        → IsLost grm.now table.now (text_of T.number text.now)) }
    ensures never_accepted { IfOk result (λ o. IsSome o
        → IsNeverAccepted grm.now table.now (text_of T.number text.now)) }
    ensures parts { IfOk result (λ o. IfSome o (λ l.
        PartsAt grm.now table.now (text_of T.number text.now) (moves_of (tree_of T.number l.tree))
        (place_of T.number l.parting) (move_of T.number l.lost))) }
    ensures stops { IfOk result (λ o. IfSome o (λ l. StopsAt grm.now table.now
        (text_of T.number text.now) (place_of T.number l.rejected))) }
    ensures none { IfOk result (λ o. IfNone o (IsUnrejected grm.now table.now steps
        (text_of T.number text.now) (moves_stored T.number moves.now))) }
{
    grm.in_order();
    let Some(tree) = read_moves(alloc, grm, text, moves)? else {
        return Ok(None);
    };
    match find_parting(alloc, grm, table, text, moves, steps) {
        Ok(Some((parting, lost, rejected))) => Ok(Some(Loss {
            tree,
            parting,
            lost,
            rejected,
        })),
        Ok(None) => {
            tree.take_apart();
            Ok(None)
        }
        Err(refused) => {
            tree.take_apart();
            Err(refused)
        }
    }
}
