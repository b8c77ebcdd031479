//! A search back from states of a graph, for a shortest list of symbols after which what is needed there looks at a token.
#![tactic(auto)]

mod closes;
mod places;
mod rests;
mod rows;
mod search;
mod steps;
mod uses;
mod ways;

pub use crate::places::{Need, Place};
pub use crate::search::shortest_list;
pub use crate::steps::are_looking;
pub use crate::ways::Ways;
