//! Context-free grammars over index types, with their bit vectors and FIRST sets.
#![tactic(auto)]

/// Bit vectors.
pub mod vob {
    pub use lrbits::vob::{IterSetBits, Vob};
}

pub mod firsts;
pub mod grammar;
pub mod idx;
