//! Closing items: what the closure rule adds to a map of items with lookaheads, and what concerns a single item. Item
//! sets, a type over such maps, are in the crate above.
#![tactic(auto)]

pub mod closer;
pub mod closing;
pub mod items;
pub mod listing;
mod passing;
mod rows;
