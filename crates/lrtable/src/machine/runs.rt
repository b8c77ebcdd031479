//! How runs of the machine come out.

use lrgrammar::idx::PIdx;

/// How a run ended, or that it did not come to its end.
#[derive(Clone, Copy, Debug, PartialEq, Eq)]
pub enum Verdict {
    /// The last cell said to accept: the text is a sentence.
    Accepted,
    /// The last cell was an error.
    Rejected,
    /// The number of steps was made, and none of them ended the run.
    Unfinished,
}

/// How a run came out.
#[derive(Debug, PartialEq, Eq, Drop)]
pub struct Run<T> {
    /// How it ended.
    pub verdict: Verdict,
    /// How many steps it made, the last one included.
    pub steps: usize,
    /// The productions by which it reduced, in the order of the reductions.
    pub reductions: Vec<PIdx<T>>,
}
