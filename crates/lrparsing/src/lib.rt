//! Sentences that somebody tries with the grammar of a file: their trees, or where its parser rejects them.
#![tactic(auto)]

mod answers;
mod expected;
mod machines;
mod making;
mod parsers;
mod spellings;
mod steps;
mod texts;

pub use crate::answers::{Answer, Refused, Rejection};
pub use crate::parsers::Parser;
