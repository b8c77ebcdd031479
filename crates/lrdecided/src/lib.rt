//! Whether two texts part at a contested cell between two given moves: nodes that certify that none do, checked; and whether
//! that is so of all moves that contend for cells, so that the grammar is unambiguous.
#![tactic(auto)]

mod beginnings;
mod checking;
mod contending;
mod decided;
mod impossibility;
mod listing;
mod moves;
mod nodes;
mod search;
mod starts;
mod states;
mod taking;
mod unambiguity;

pub use crate::contending::{Complete, completes, contenders};
pub use crate::decided::{Decided, Entry, decide};
pub use crate::nodes::{Node, Side};
pub use crate::unambiguity::are_all_decided;
