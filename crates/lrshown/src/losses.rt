//! Sentences that the parser rejects.

ghost use Rattle.std.specs.Prelude.{◌≡◌};
ghost use Rattle.lrshown.specs.Losses.{without_choice};
ghost use Rattle.lrshown.specs.ShownTexts.{start_of_sentence};

use crate::names::start_of;
use crate::steps::Step;
use lrgrammar::grammar::PartSymbol;
use lryacc::FileGrammar;

/// A sentence of the grammar that the parser rejects, since it doesn't make the right step at a conflict.
#[derive(Debug, Drop)]
pub struct Loss {
    /// The tokens by the grammar, as those of an `Ambiguity`.
    pub tokens: Vec<usize>,
    /// The steps of a tree of it.
    pub steps: Vec<Step>,
    /// How many of them the parser makes: up to the conflict.
    pub made: usize,
    /// How many of them stand before the conflict's token.
    pub dot: usize,
    /// How many of them stand before the one at which the parser stops.
    pub stop: usize,
    /// The step of the sentence's tree that the parser doesn't make at the conflict.
    pub lost: Step,
}

impl Loss {
    /// The start rule from which the sentence is derived, where the file has several: the one that its first token chooses.
    pub fn start(&self, file: &FileGrammar) -> Option<PartSymbol>
        ensures { result ≡ start_of_sentence file.now self.now.tokens.items }
    {
        let first = self.tokens.first().copied();
        start_of(file, first.map(PartSymbol::Token))
    }

    /// How many tokens of the file are among so many of the first ones: not that of the start rule.
    fn shown(&self, file: &FileGrammar, tokens: usize) -> usize
        ensures { result ≡ without_choice file.now self.now.tokens.items tokens }
    {
        match self.start(file) {
            Some(_) => tokens.saturating_sub(1),
            None => tokens,
        }
    }

    /// How many tokens of the file stand before the conflict's.
    pub fn shown_dot(&self, file: &FileGrammar) -> usize
        ensures { result ≡ without_choice file.now self.now.tokens.items self.now.dot }
    {
        self.shown(file, self.dot)
    }

    /// How many tokens of the file stand before the one at which the parser stops.
    pub fn shown_stop(&self, file: &FileGrammar) -> usize
        ensures { result ≡ without_choice file.now self.now.tokens.items self.now.stop }
    {
        self.shown(file, self.stop)
    }
}
