//! What a row of a table has, one after another.

ghost use Rattle.std.specs.Prelude.{◌≡◌, ℕ, ◌≤◌, List, map};
ghost use Rattle.std.specs.List.{All};
ghost use Rattle.std.specs.Iterator.{YieldsFirstBy, item_count};
ghost use Rattle.lrsparse.specs.Matrix.{value_at};
ghost use Rattle.lrrows.specs.StoredActions.{action_numbered, IsIndexed};
ghost use Rattle.lrcells.specs.TakenTokens.{takes_cell, tokens_taken, IsFirstTaken};

use lrgrammar::idx::{IndexStorage, PIdx, TIdx};
use lrrows::action::Action;
use lrrows::numbers::action_of_number;
use lrsparse::sparsevec::SparseVec;
use std::marker::{Model, PhantomData};

/// Tokens upwards on which a state does not err, or which it shifts. It gives each once, and then none.
#[derive(Drop)]
pub struct StateActionsIterator<'a, T: IndexStorage> {
    actions: &'a SparseVec,
    row: usize,
    at: usize,
    end: usize,
    shifts_only: bool,
    phantom: PhantomData<T>,
}

impl<'a, T: IndexStorage> Model for StateActionsIterator<'a, T> {
    ghost Value = { List ℕ };

    ghost view = { λ s. tokens_taken s.actions.now s.row s.shifts_only s.at s.end };

    ghost invariant = { λ s. (s.end ≤ T.MAX)
        × All (λ c. IsIndexed T.MAX (action_numbered c)) s.actions.now.cells };
}

impl<'a, T: IndexStorage> StateActionsIterator<'a, T> {
    /// Those of the row, which has `end` tokens.
    pub(crate) fn new(
        actions: &'a SparseVec,
        row: usize,
        end: usize,
        shifts_only: bool,
    ) -> StateActionsIterator<'a, T>
        requires tokens { end ≤ T.MAX }
        requires indexed { All (λ c. IsIndexed T.MAX (action_numbered c)) actions.now.cells }
        ensures { result ≡ tokens_taken actions.now row shifts_only 0 end }
    {
        StateActionsIterator {
            actions,
            row,
            at: 0,
            end,
            shifts_only,
            phantom: PhantomData,
        }
    }
}

/// Whether the row does something on the token, or shifts it where only shifts are wanted.
fn takes<T: IndexStorage>(actions: &SparseVec, row: usize, shifts_only: bool, token: usize) -> bool
    requires { All (λ c. IsIndexed T.MAX (action_numbered c)) actions.now.cells }
    ensures { result ≡ takes_cell shifts_only (value_at actions.now row token) }
{
    match actions.get(row, token) {
        Some(number) => match action_of_number::<T>(number) {
            Action::Shift(_) => true,
            Action::Error => false,
            Action::Reduce(_) | Action::Accept => !shifts_only,
        },
        None => false,
    }
}

/// The first token that the row takes from `at` up to `end`, without it.
fn first_taken<T: IndexStorage>(
    actions: &SparseVec,
    row: usize,
    shifts_only: bool,
    at: usize,
    end: usize,
) -> Option<usize>
    requires { All (λ c. IsIndexed T.MAX (action_numbered c)) actions.now.cells }
    ensures { IsFirstTaken actions.now row shifts_only at end result }
{
    for token in at..end {
        if takes::<T>(actions, row, shifts_only, token) {
            return Some(token);
        }
    }
    None
}

impl<'a, T: IndexStorage> Iterator for StateActionsIterator<'a, T> {
    type Item = TIdx<T>;

    ghost next_gives = { YieldsFirstBy (λ i. T.number i.0) (λ s. s) };

    ghost remaining = { item_count (λ s. s) };

    fn next(&mut self) -> Option<TIdx<T>> {
        let token = first_taken::<T>(self.actions, self.row, self.shifts_only, self.at, self.end)?;
        self.at = token + 1;
        Some(TIdx(T::from_usize(token).unwrap()))
    }
}

/// Productions upwards by which a state reduces. It gives each once, and then none.
#[derive(Drop)]
pub struct CoreReducesIterator<'a, T: IndexStorage> {
    prods: &'a [PIdx<T>],
}

impl<'a, T: IndexStorage> Model for CoreReducesIterator<'a, T> {
    ghost Value = { List ℕ };

    ghost view = { λ s. map (λ p. T.number p.0) s.prods.now };
}

impl<'a, T: IndexStorage> CoreReducesIterator<'a, T> {
    /// These productions.
    pub(crate) fn new(prods: &'a [PIdx<T>]) -> CoreReducesIterator<'a, T>
        ensures { result ≡ map (λ p. T.number p.0) prods.now }
    {
        CoreReducesIterator { prods }
    }
}

impl<'a, T: IndexStorage> Iterator for CoreReducesIterator<'a, T> {
    type Item = PIdx<T>;

    ghost next_gives = { YieldsFirstBy (λ i. T.number i.0) (λ s. s) };

    ghost remaining = { item_count (λ s. s) };

    fn next(&mut self) -> Option<PIdx<T>> {
        let (pidx, prods) = self.prods.split_first()?;
        self.prods = prods;
        Some(*pidx)
    }
}
