//! What the cells of a table say.

use lrgrammar::idx::{PIdx, StIdx};

/// What a cell of a table says.
#[derive(Clone, Copy, PartialEq, Eq, Debug)]
pub enum Action<T> {
    /// Go to the state.
    Shift(StIdx<T>),
    /// Reduce by the production.
    Reduce(PIdx<T>),
    /// The text is a sentence.
    Accept,
    /// The text is no sentence.
    Error,
}
