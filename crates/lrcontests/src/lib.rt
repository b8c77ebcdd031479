//! Lists of symbols after which the conflicts of a graph's table are real by the canonical LR(1) items.
#![tactic(auto)]

mod contests;

pub use crate::contests::Contests;
