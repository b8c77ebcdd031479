//! Bit vectors.
#![tactic(auto)]

pub mod vob;
