//! What is searched, and what is found.

use lrconflicts::Move;
use lrgrammar::idx::{RIdx, Symbol, TIdx};

/// Moves that read one string in two ways. Both begin with those before the conflict.
#[derive(Debug, Drop)]
pub struct Ways {
    /// Before the conflict.
    pub before: Vec<Move<u32>>,
    /// From there on, where the first step is the reduction by the conflict's production.
    pub first: Vec<Move<u32>>,
    /// From there on, where it is the shift, or the reduction by the other production.
    pub second: Vec<Move<u32>>,
}

/// Symbols that one rule derives in two ways.
#[derive(Debug, Drop)]
pub struct Form {
    /// The rule.
    pub rule: RIdx<u32>,
    /// The symbols. A shift takes one of them, be it a token or a rule.
    pub symbols: Vec<Symbol<u32>>,
    /// How many of them stand before the conflict.
    pub dot: usize,
    /// How they are read to the rule.
    pub ways: Ways,
}

/// A text of the start rule that has two trees.
#[derive(Debug, Drop)]
pub struct Sentence {
    /// The tokens. A shift takes one of them.
    pub tokens: Vec<TIdx<u32>>,
    /// How many of them stand before the conflict.
    pub dot: usize,
    /// How they are read to the start rule.
    pub ways: Ways,
}

/// What shows that a grammar is ambiguous at a conflict.
#[derive(Debug, Drop)]
pub struct Ambiguous {
    /// What is derived in two ways.
    pub form: Form,
    /// A text in which it stands.
    pub sentence: Sentence,
}

/// What a search comes to.
#[derive(Debug, Drop)]
pub enum Search {
    /// A text with two trees, which part at the conflict.
    Found(Ambiguous),
    /// None in so many steps.
    OutOfSteps,
    /// None, and nothing is left to try. That doesn't say that there is none.
    Emptied,
}
