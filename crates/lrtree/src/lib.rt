//! Trees of sentences, put together from what the machine of a table does.
#![tactic(auto)]

mod building;
mod lines;
mod parsing;
mod pieces;
mod texts;
mod trees;
mod visits;
mod walks;

pub use crate::lines::tree_lines;
pub use crate::parsing::{Parsed, parse};
pub use crate::trees::Tree;
pub use crate::visits::{Visit, Visits};
