//! The construction of the LR(1) state graph of a grammar, which merges states by Pager's rule.
#![tactic(auto)]

pub mod pager;
