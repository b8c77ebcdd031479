//! State tables of LR(1) state graphs.
#![tactic(auto)]

pub use lrsparse::sparsevec;

pub mod statetable;
