//! A page that shows what was found in the grammar of a file: its conflicts with their trees, what precedences resolve, what the
//! file is warned of, its rules, and the states.
//!
//! It needs nothing but itself. All text of the file goes through `lrdiagnostics::add_escaped` or `add_escaped_name`. Trees and
//! edges stand in it as numbers, and its own script draws and lists them once they are looked at.
#![tactic(auto)]

mod cards;
mod grammars;
mod pages;
mod places;
mod resolved;
mod script;
mod states;
mod style;
mod symbols;
mod trees;
mod warnings;

pub use crate::pages::{Card, Page};
pub use crate::resolved::ResolvedCard;
