//! Moves, and texts with the moves that read them.

ghost use Rattle.std.specs.Prelude.{◌≡◌, ◌≢◌, false, IsTrue, slice_get};

use lrgrammar::idx::{IndexStorage, PIdx, TIdx};

/// What a parser does with a text.
#[derive(Clone, Copy, Debug, PartialEq, Eq)]
pub enum Move<T> {
    /// It takes the next token.
    Shift,
    /// It puts a node of this production over the last trees.
    Reduce(PIdx<T>),
}

/// A text, and the moves that read it.
#[derive(Debug, PartialEq, Eq, Drop)]
pub struct Written<T> {
    /// The text.
    pub tokens: Vec<TIdx<T>>,
    /// The moves.
    pub moves: Vec<Move<T>>,
}

/// Whether the first moves differ.
pub fn differ_at_once<T: IndexStorage>(one: &[Move<T>], other: &[Move<T>]) -> bool
    ensures differ { IsTrue result → slice_get one.now 0 ≢ slice_get other.now 0 }
    ensures same { result ≡ false → slice_get one.now 0 ≡ slice_get other.now 0 }
{
    one.first().copied() != other.first().copied()
}
