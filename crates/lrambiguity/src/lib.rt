//! Sentences with two trees, checked.
#![tactic(auto)]

mod ambiguities;
mod derivations;
mod inputs;
mod nesting;
mod partings;
mod reading;
mod replays;

pub use crate::ambiguities::{Ambiguity, check_ambiguity};
pub use crate::derivations::derives;
pub use crate::inputs::{goes_on, reads_as};
pub use crate::nesting::nests;
pub use crate::partings::{Contest, begins_with, parts_at};
pub use crate::reading::read_moves;
pub use lrconflicts::{Move, Written};
