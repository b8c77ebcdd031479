//! Matrices in most of whose cells one number stands.
#![tactic(auto)]

pub mod builder;
pub mod sparsevec;
