//! What can be said where it is asked how a position is won.

use lrgrammar::idx::PIdx;

/// How a position is won.
#[derive(Clone, Copy)]
pub enum Answer {
    /// By whatever they do next.
    Moves,
    /// We read the same behind the dot as they, and reduce by the item too.
    Mirror,
    /// They reduce by the item, and we do nothing.
    Release,
    /// We read the same as they for the symbol behind the dot.
    Step,
    /// We read the token too.
    Read,
    /// We alone reduce by the production.
    Own(PIdx<u32>),
    /// We alone reduce what the mark hides, with the symbol behind it.
    Unmark,
}
