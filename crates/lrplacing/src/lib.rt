//! States under construction, and the placing of gotos among them.
#![tactic(auto)]

pub mod candidates;
pub mod draft;
pub mod placing;
