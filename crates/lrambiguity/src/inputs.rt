//! Texts that lists derive, and how a text goes on.

ghost use Rattle.std.specs.Prelude.{◌≡◌, ◌++◌, map, IfOk, IfSome, IsTrue};
ghost use Rattle.lrspec.specs.tables.Machine.{next_token};
ghost use Rattle.lrgrammar.specs.Symbols.{symbol_of};
ghost use Rattle.lrtable.specs.RunAnswers.{text_of};
ghost use Rattle.lrtree.specs.StoredTrees.{tree_of};
ghost use Rattle.lrconflicts.specs.Moves.{IsTreeBy};
ghost use Rattle.lrambiguity.specs.Inputs.{IsReadAs, GoesOn};
ghost use Rattle.lrconflicts.specs.StoredMoves.{move_of, moves_stored};

use crate::ambiguities::read_joined;
use crate::partings::begins_with;
use crate::replays::Replay;
use lrconflicts::{Move, Written};
use lrgrammar::grammar::YaccGrammar;
use lrgrammar::idx::{IndexStorage, Symbol, TIdx};
use lrtree::Tree;
use std::alloc::{AllocError, Global};

/// Whether the list derives the text by these moves: they read it as trees in a row, whose roots are the list.
pub fn reads_as<T: IndexStorage>(
    alloc: Global,
    grm: &YaccGrammar<T>,
    list: &[Symbol<T>],
    text: &Written<T>,
) -> Result<bool, AllocError>
    ensures { IfOk result (λ reads. IsTrue reads
        → IsReadAs grm.now (map (symbol_of T.number) list.now)
        (text_of T.number text.now.tokens.items) (moves_stored T.number text.now.moves.items)) }
{
    let mut replay = Replay::new(alloc);
    let made = replay.make_all(alloc, grm, &text.tokens, &text.moves);
    let is_list = replay.is_list(list, &text.tokens);
    replay.take_apart();
    if !made? {
        return Ok(false);
    }
    Ok(is_list)
}

/// The first token, or the end token where there is none.
fn first_token<T: IndexStorage>(grm: &YaccGrammar<T>, tokens: &[TIdx<T>]) -> TIdx<T>
    ensures { T.number result.0 ≡ next_token grm.now (text_of T.number tokens.now) }
{
    match tokens.first() {
        Some(token) => *token,
        None => grm.eof_token_idx(),
    }
}

/// The tree that both texts together are read to.
fn read_whole<T: IndexStorage>(
    alloc: Global,
    grm: &YaccGrammar<T>,
    before: &Written<T>,
    after: &Written<T>,
) -> Result<Option<Tree<T>>, AllocError>
    ensures { IfOk result (λ o. IfSome o (λ tree. IsTreeBy grm.now
        (moves_stored T.number before.now.moves.items
        ++ moves_stored T.number after.now.moves.items)
        (text_of T.number before.now.tokens.items ++ text_of T.number after.now.tokens.items)
        (tree_of T.number tree))) }
{
    let mut text = Vec::from_slice(alloc, &before.tokens)?;
    text.extend_from_slice(&after.tokens)?;
    read_joined(alloc, grm, &text, &before.moves, &after.moves)
}

/// Whether the text goes on behind the one before it: its first token is this one, where the end token means that it is
/// empty; its first move is this one; and both texts together are read by both lists of moves to a tree of the start rule.
pub fn goes_on<T: IndexStorage>(
    alloc: Global,
    grm: &YaccGrammar<T>,
    token: TIdx<T>,
    action: Move<T>,
    before: &Written<T>,
    after: &Written<T>,
) -> Result<bool, AllocError>
    ensures { IfOk result (λ goes. IsTrue goes
        → GoesOn grm.now (T.number token.0) (move_of T.number action)
        (text_of T.number before.now.tokens.items) (moves_stored T.number before.now.moves.items)
        (text_of T.number after.now.tokens.items) (moves_stored T.number after.now.moves.items)) }
{
    if first_token(grm, &after.tokens) != token || !begins_with(&after.moves, action) {
        return Ok(false);
    }
    match read_whole(alloc, grm, before, after)? {
        Some(tree) => {
            tree.take_apart();
            Ok(true)
        }
        None => Ok(false),
    }
}
