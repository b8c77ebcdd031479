//! Grammar texts: what a text says, and the parts of a grammar that it means.
#![tactic(auto)]

mod contents;
mod lexemes;
mod meaning;
pub mod parts;
pub mod reader;
mod reading;
mod reading_state;
mod runs;
