//! LR(1) item sets over a grammar's index types: their closures and gotos, merging, and their texts. The closure rule
//! itself is in the crate below.
#![tactic(auto)]

pub mod cores;
pub mod fingerprints;
pub mod gotos;
pub mod itemset;
pub mod merging;
pub mod printing;
