//! Why there are conflicts: for each a text with two trees, where one is found, and else a list of symbols after which it is
//! real, with how the text goes on by either candidate.
#![tactic(auto)]

mod ambiguities;
mod brackets;
mod candidates;
mod cutting;
mod examples;
mod groups;
mod lines;
mod names;
mod parts;
mod places;
mod precedences;
mod reasons;
mod texts;
mod words;

pub use crate::ambiguities::ProvedAmbiguity;
pub use crate::examples::Example;
pub use crate::precedences::drop_precedences;
pub use crate::reasons::{Examples, Reason, Reasons, take_apart};
pub use lrambiguity::{Ambiguity, Contest, Move, Written};
pub use lrconflicts::{Conflict, Knowledge};
pub use lrforms::{Form, Outlook, Ways};
