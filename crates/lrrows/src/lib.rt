//! What a state table has of each state of an LR(1) state graph: its cells, its gotos and its conflicts.
#![tactic(auto)]

pub mod accept_reduce;
pub mod action;
mod cells;
mod completes;
mod conflicts;
pub mod numbers;
mod places;
pub mod rows;
mod targets;
mod used;
