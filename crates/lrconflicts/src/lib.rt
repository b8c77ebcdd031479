//! The conflicts that a table lists, each with its two candidates as moves of a parser; and texts with the moves that read them.
#![tactic(auto)]

mod conflicts;
mod knowledge;
mod moves;

pub use crate::conflicts::{Conflict, entries, other_move};
pub use crate::knowledge::Knowledge;
pub use crate::moves::{Move, Written, differ_at_once};
