//! What is found at an entry of a table's conflicts: a sentence with two trees that part there, one that the parser rejects because
//! of it, or that no sentence has two such trees.
#![tactic(auto)]

mod ambiguities;
mod decisions;
mod losses;
mod numbers;

pub use crate::ambiguities::{ambiguity_at, ambiguity_by};
pub use crate::decisions::{Decisions, meeting};
pub use crate::losses::{LossSearch, are_crowded};
pub use crate::numbers::numbers_of;
