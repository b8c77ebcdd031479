//! Tables as lists of numbers, for programs in other languages.
#![tactic(auto)]

mod flat;

pub use crate::flat::{FlatError, flat_table};
