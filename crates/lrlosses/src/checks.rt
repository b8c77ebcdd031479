//! Texts that a search finds, checked.

ghost use Rattle.std.specs.Prelude.{◌≡◌, IsTrue, IfOk, IfSome};
ghost use Rattle.lrspec.specs.tables.Table.{IsTableFor};
ghost use Rattle.lrtable.specs.RunAnswers.{text_of};
ghost use Rattle.lrlosses.specs.FoundLosses.{IsLostAt};
ghost use Rattle.lrgrammar.specs.Symbols.{number_of};
ghost use Rattle.lrlosses.specs.StoredFinds.{candidate_of};

use crate::losses::{Loss, check_lost};
use lrconflicts::{Move, Written};
use lrgrammar::grammar::YaccGrammar;
use lrgrammar::idx::{StIdx, TIdx};
use lrtable::StateTable;
use std::alloc::AllocError;
use std::marker::Model;

/// A candidate of a cell of a table.
#[derive(Clone, Copy, Debug, PartialEq, Eq)]
pub struct Candidate {
    /// The cell's state.
    pub state: StIdx<u32>,
    /// The cell's token.
    pub token: TIdx<u32>,
    /// The move that it would be.
    pub action: Move<u32>,
}

/// A sentence that is lost at a candidate.
///
/// What is derived, letting go of it too, calls itself as deep as the tree is; `take_apart` lets go of any.
#[derive(Debug, Drop)]
pub struct Find {
    /// The sentence, with the moves to its tree.
    pub text: Written<u32>,
    /// How it is lost.
    pub loss: Loss<u32>,
}

impl Find {
    /// Takes the tree apart, however deep it is, by a loop that takes no memory.
    pub fn take_apart(self) {
        self.loss.take_apart();
    }
}

/// A grammar, and the table for it.
#[derive(Drop)]
pub(crate) struct Checker<'a> {
    grm: &'a YaccGrammar<u32>,
    table: &'a StateTable<u32>,
}

impl<'a> Model for Checker<'a> {
    ghost use Rattle.lrspec.specs.tables.Table.{IsTableFor};
    ghost use Rattle.lrlosses.specs.FoundLosses.{Tabled};

    ghost Value = { Tabled };

    ghost view = { λ c. record { grammar = c.grm.now; table = c.table.now } };

    ghost invariant = { λ c. IsTableFor c.grm.now c.table.now };
}

/// How many steps a run takes at the most on a text whose tree has so many moves.
fn steps_for(moves: usize) -> usize {
    moves.saturating_mul(10).saturating_add(1_000)
}

/// Whether the loss is at the candidate.
fn is_at(loss: &Loss<u32>, candidate: Candidate) -> bool
    ensures state { IsTrue result → loss.now.parting.state.0 ≡ candidate.state.0 }
    ensures token { IsTrue result → loss.now.parting.token.0 ≡ candidate.token.0 }
    ensures action { IsTrue result → loss.now.lost ≡ candidate.action }
{
    loss.parting.state == candidate.state
        && loss.parting.token == candidate.token
        && loss.lost == candidate.action
}

impl<'a> Checker<'a> {
    /// With the grammar, and the table for it.
    pub(crate) fn new(grm: &'a YaccGrammar<u32>, table: &'a StateTable<u32>) -> Checker<'a>
        requires { IsTableFor grm.now table.now }
        ensures grammar { result.grammar ≡ grm.entry.now }
        ensures table { result.table ≡ table.entry.now }
    {
        Checker { grm, table }
    }

    /// The loss at the candidate that the text shows, if it does.
    pub(crate) fn check(
        &self,
        candidate: Candidate,
        text: &Written<u32>,
    ) -> Result<Option<Loss<u32>>, AllocError>
        ensures { IfOk result (λ o. IfSome o (IsLostAt self.now (candidate_of candidate)
            (text_of number_of text.now.tokens.items))) }
    {
        let alloc = self.grm.allocator();
        let (tokens, moves) = (text.tokens.as_slice(), text.moves.as_slice());
        let steps = steps_for(moves.len());
        let Some(loss) = check_lost(alloc, self.grm, self.table, tokens, moves, steps)? else {
            return Ok(None);
        };
        if is_at(&loss, candidate) {
            Ok(Some(loss))
        } else {
            loss.take_apart();
            Ok(None)
        }
    }
}
