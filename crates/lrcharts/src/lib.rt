//! Whether the machine of a table, after some of its steps on a text, can still put together a tree of it: a closed chart of what
//! is on its stack and what is left of the text shows where it can't.
#![tactic(auto)]

mod charting;
mod charts;
mod closedness;
mod laying;
mod machine;
mod ways;

pub use crate::machine::accepting_moves;
pub use crate::ways::has_no_tree_left;
