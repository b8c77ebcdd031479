//! States by the fingerprints of their cores.

ghost use Rattle.std.specs.Prelude.{◌≡◌, ◌≢◌, ℕ, [], ◌∷◌, ◌++◌, IfOk, OnOk};

use std::alloc::{AllocError, Global};
use std::collections::HashMap;
use std::marker::Model;

/// For how many fingerprints there is room at first: for those of most grammars.
const ROOM: usize = 1_024;

/// The states that can take a goto in, by their fingerprints: only a core with the same items can, and such a core has the
/// same fingerprint. So a goto is compared with few states, most of which have its items.
#[derive(Drop)]
pub struct Candidates {
    lists: HashMap<u64, Vec<usize>>,
}

impl Model for Candidates {
    ghost use Rattle.lrplacing.specs.CandidatesOf as plain;

    ghost Value = { plain.CandidateLists };

    ghost view = { λ c. plain.candidate_lists c.lists.entries };
}

impl Candidates {
    ghost use Rattle.lrplacing.specs.CandidatesOf.{listed_at};

    /// No states. The error says that memory was refused.
    pub fn new(alloc: Global) -> Result<Candidates, AllocError>
        ensures { IfOk result (λ c. (n : ℕ) → listed_at c n ≡ []) }
    {
        let lists = HashMap::with_capacity(alloc, ROOM)?;
        Ok(Candidates { lists })
    }

    /// The states with the fingerprint, in order of making.
    pub(crate) fn at(&self, fingerprint: u64) -> &[usize]
        ensures { result.now ≡ listed_at self.now fingerprint }
    {
        match self.lists.get(&fingerprint) {
            Some(list) => list.as_slice(),
            None => &[],
        }
    }

    /// Adds a state with the fingerprint.
    pub fn add(&mut self, fingerprint: u64, state: usize) -> Result<(), AllocError>
        ensures here { OnOk result (listed_at self.new fingerprint
            ≡ listed_at self.old fingerprint ++ state ∷ []) }
        ensures others { OnOk result ((n : ℕ) → n ≢ fingerprint
            → listed_at self.new n ≡ listed_at self.old n) }
    {
        self.lists.entry(fingerprint)?.or_default().push(state)?;
        Ok(())
    }
}
