//! The numbers by which cells keep actions and gotos.

ghost use Rattle.std.specs.Prelude.{◌≡◌, ◌≤◌, option_map, IfSome};
ghost use Rattle.lrrows.specs.StoredActions.{stored_action, action_number, action_numbered, IsIndexed, goto_number, goto_numbered};

use crate::action::Action;
use lrgrammar::idx::{IndexStorage, PIdx, StIdx};

/// The number that keeps an action.
pub(crate) fn number_of_action<T: IndexStorage>(action: Action<T>) -> usize
    ensures { result ≡ action_number (stored_action T.number action) }
{
    match action {
        Action::Error => 0,
        Action::Accept => 1,
        Action::Shift(stidx) => 2 * stidx.0.to_usize() + 2,
        Action::Reduce(pidx) => 2 * pidx.0.to_usize() + 3,
    }
}

/// The action that the number keeps.
pub fn action_of_number<T: IndexStorage>(number: usize) -> Action<T>
    requires { IsIndexed T.MAX (action_numbered number) }
    ensures { stored_action T.number result ≡ action_numbered number }
{
    if number == 0 {
        return Action::Error;
    }
    if number == 1 {
        return Action::Accept;
    }
    let index = T::from_usize((number - 2) / 2).unwrap();
    if number % 2 == 0 {
        Action::Shift(StIdx(index))
    } else {
        Action::Reduce(PIdx(index))
    }
}

/// The number that keeps a goto.
pub(crate) fn number_of_goto<T: IndexStorage>(goto: Option<StIdx<T>>) -> usize
    ensures { result ≡ goto_number (option_map (λ s. T.number s.0) goto) }
{
    match goto {
        None => 0,
        Some(stidx) => stidx.0.to_usize() + 1,
    }
}

/// The goto that the number keeps.
pub fn goto_of_number<T: IndexStorage>(number: usize) -> Option<StIdx<T>>
    requires { IfSome (goto_numbered number) (λ s. s ≤ T.MAX) }
    ensures { option_map (λ s. T.number s.0) result ≡ goto_numbered number }
{
    if number == 0 {
        return None;
    }
    Some(StIdx(T::from_usize(number - 1).unwrap()))
}
