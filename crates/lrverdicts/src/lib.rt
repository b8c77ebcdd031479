//! The conflicts of a table in the order of the file whose grammar it is of, and the verdict of that grammar.
#![tactic(auto)]

mod conflicts;
mod verdicts;

pub use crate::conflicts::{Entry, entries_of, is_among, place_of};
pub use crate::verdicts::{Counts, Verdict, is_unambiguous};
