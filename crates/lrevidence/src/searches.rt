//! What the searches of a file share.

ghost use Rattle.std.specs.Prelude.{◌≡◌};

use crate::examples::Numbering;
use lrentries::{Decisions, LossSearch};
use lrfindings::Findings;
use lrreasons::Reasons;
use std::alloc::{AllocError, Global};

/// What the searches of a file share. What only entries without a sentence that has two trees need is made for the first of these.
#[derive(Drop)]
pub(crate) struct Searches<'a> {
    pub(crate) found: &'a Findings,
    pub(crate) numbering: Numbering<'a>,
    /// For sentences with two trees, and for examples.
    pub(crate) reasons: Reasons<'a>,
    /// For sentences that the parser rejects.
    pub(crate) losses: LossSearch<'a>,
    /// Whether no text has two trees.
    pub(crate) decisions: Decisions<'a>,
}

impl Searches<'_> {
    /// What the memory is taken from.
    pub(crate) fn allocator(&self) -> Global {
        self.found.grm.allocator()
    }

    /// Makes what examples, texts and decisions need, where it isn't made yet.
    pub(crate) fn prepare(&mut self) -> Result<(), AllocError>
        ensures { self.new ≡ self.old }
    {
        self.reasons.prepare_examples()?;
        self.losses.prepare()
    }
}
