//! Sentences with two trees.

ghost use Rattle.std.specs.Prelude.{◌≡◌, ◌<◌, ◌↔◌, IsTrue, length};
ghost use Rattle.lrshown.specs.Ambiguities.{shown_dot, against, is_of};
ghost use Rattle.lrshown.specs.declared.steps.Step.TheVariants.{Reduce};
ghost use Rattle.lrshown.specs.ShownTexts.{start_of_sentence};

use crate::names::start_of;
use crate::steps::{Step, TwoTrees};
use lrgrammar::grammar::PartSymbol;
use lrverdicts::Entry;
use lryacc::FileGrammar;

/// How many tokens a text has at the most that is shown whole.
const LONGEST: usize = 10_000;

/// A sentence with two trees, which part at a conflict.
#[derive(Debug, Drop)]
pub struct Ambiguity {
    /// The tokens by the grammar: with the one that ends a text, and, where the file has several start rules, with the one that
    /// chooses its own, which comes first. `text_of` tells those of the file.
    pub tokens: Vec<usize>,
    /// Both its trees.
    pub trees: TwoTrees,
    /// Both trees of that part of it which has two, over symbols that need not be tokens.
    pub form: TwoTrees,
}

impl Ambiguity {
    /// The start rule from which the text is derived, where the file has several: the one that its first token chooses.
    pub fn start(&self, file: &FileGrammar) -> Option<PartSymbol>
        ensures { result ≡ start_of_sentence file.now self.now.tokens.items }
    {
        let first = self.tokens.first().copied();
        start_of(file, first.map(PartSymbol::Token))
    }

    /// Whether its trees part by what meets in an entry, and not by something else that meets in the same cell.
    pub fn is_of(&self, entry: &Entry) -> bool
        ensures { result ≡ is_of self.now entry.now }
    {
        let (one, other) = self.trees.candidates();
        let (reduction, met) = candidates_of(entry);
        (one.is_same(reduction) && other.is_same(met))
            || (one.is_same(met) && other.is_same(reduction))
    }

    /// Whether it is told by its form alone, since it has more than 10,000 tokens.
    pub fn is_long(&self) -> bool
        ensures { IsTrue result ↔ 10000 < length self.now.tokens.items }
    {
        self.tokens.len() > LONGEST
    }

    /// How many tokens of the file stand before the dot: not that of the start rule, which comes first where there are several.
    pub fn dot(&self, file: &FileGrammar) -> usize
        ensures { result ≡ shown_dot file.now self.now }
    {
        let dot = self.trees.dot();
        match self.start(file) {
            Some(_) => dot.saturating_sub(1),
            None => dot,
        }
    }
}

/// The steps that meet in an entry.
pub fn candidates_of(entry: &Entry) -> (Step, Step)
    ensures reduction { result.0 ≡ Reduce entry.now.production }
    ensures other { result.1 ≡ against entry.now.other }
{
    let other = match entry.other {
        Some(other) => Step::Reduce(other),
        None => Step::Shift,
    };
    (Step::Reduce(entry.production), other)
}
