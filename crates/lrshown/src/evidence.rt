//! What is known of conflicts.

ghost use Rattle.std.specs.Prelude.{◌≡◌, IsTrue, IsSome, Some};
ghost use Rattle.lrshown.specs.Ambiguities.{has_own_sentence, is_merged};
ghost use Rattle.lrshown.specs.DecidedEntries.{is_decided, tokens_of};
ghost use Rattle.lrshown.specs.Losses.{rejects};

use crate::ambiguities::Ambiguity;
use crate::losses::Loss;
use lrdecided::Decided;
use lrgrammar::grammar::PartSymbol;
use lrverdicts::Entry;

/// How a text goes on by one of the candidates.
#[derive(Debug, Drop)]
pub struct Outlook {
    /// The items that stand in one another, from that of `$accept` on, each as its production and how many symbols stand before the
    /// dot.
    pub items: Vec<(usize, usize)>,
    /// A text behind the input, from the conflict's token on; None where none is known.
    pub rest: Option<Vec<usize>>,
}

/// After what a conflict is real.
#[derive(Debug, Drop)]
pub struct Example {
    /// A list of symbols after which both candidates are real.
    pub list: Vec<PartSymbol>,
    /// The token on which they are: the conflict's own, or else the least one.
    pub token: usize,
    /// A text that the list derives; None where none is known.
    pub input: Option<Vec<usize>>,
    /// How the text goes on by the reduction.
    pub one: Option<Outlook>,
    /// How it goes on by the shift, or by the other reduction.
    pub other: Option<Outlook>,
}

/// What is known of an entry. What most entries don't have stands in boxes, since there may be millions of them.
#[derive(Debug, Drop)]
pub struct Evidence {
    /// The entry.
    pub entry: Entry,
    /// A sentence with two trees, which part at it, where one is found.
    pub ambiguity: Option<Box<Ambiguity>>,
    /// Where none is, after what it is real, where that is looked for; None for an entry that the table doesn't list.
    pub example: Option<Box<Example>>,
    /// A sentence that the parser rejects because of it, where such a one is looked for and found.
    pub loss: Option<Box<Loss>>,
    /// Where none with two trees is, how it is decided, where that is looked for and found: no sentence has two trees that part at
    /// it by its candidates.
    pub decided: Option<Decided>,
    /// Whether the work that searches of the file may do was done before the search for a text was through, if one is made.
    pub is_cut_off: bool,
}

impl Evidence {
    /// Whether a sentence with two trees is known, and these part by what meets in the entry.
    pub fn has_own_sentence(&self) -> bool
        ensures known { IsTrue result → IsSome self.now.ambiguity }
        ensures own { result ≡ has_own_sentence self.now }
    {
        match &self.ambiguity {
            Some(ambiguity) => ambiguity.is_of(&self.entry),
            None => false,
        }
    }

    /// Whether only merged states have the entry: what meets in it is known to be real at another token alone.
    pub fn is_merged(&self) -> bool
        ensures { result ≡ is_merged self.now }
    {
        match &self.example {
            Some(example) => example.token != self.entry.token,
            None => false,
        }
    }

    /// Whether a sentence is known that the parser rejects because of the entry.
    pub fn rejects(&self) -> bool
        ensures { result ≡ rejects self.now }
    {
        self.loss.is_some()
    }

    /// Whether it is known that no sentence has two trees that part at the entry.
    pub fn is_decided(&self) -> bool
        ensures decided { IsTrue result → IsSome self.now.decided }
        ensures told { result ≡ is_decided self.now }
    {
        self.decided.is_some()
    }

    /// Whether it is known that so many tokens decide the entry.
    pub fn is_decided_by(&self, tokens: usize) -> bool
        ensures { IsTrue result → tokens_of self.now ≡ Some tokens }
    {
        self.tokens() == Some(tokens)
    }

    /// How many tokens decide the entry, if that is known.
    pub fn tokens(&self) -> Option<usize>
        ensures { result ≡ tokens_of self.now }
    {
        match self.decided {
            Some(decided) => decided.tokens,
            None => None,
        }
    }
}
