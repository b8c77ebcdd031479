//! Sentences of a grammar that the machine of its table rejects: checked, and searched for at the cells of the table.
#![tactic(auto)]

mod checks;
mod completes;
mod edges;
mod exactness;
mod finding;
mod known;
mod lists;
mod losses;
mod machine;
mod pairs;
mod readings;
mod rules;
mod search;
mod texts;
mod walks;
mod ways;

pub use crate::checks::{Candidate, Find};
pub use crate::exactness::Exactness;
pub use crate::finding::Losses;
pub use crate::losses::{Loss, check_lost};
pub use crate::walks::Place;
