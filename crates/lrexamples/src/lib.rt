//! Callers whose contracts rest on those of `lrgrammar`, `lrtable` and `lrtree` alone.
#![tactic(auto)]

pub mod depths;
pub mod explanations;
pub mod sentences;
pub mod start_states;
