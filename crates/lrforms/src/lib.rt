//! Searches, for a conflict of a table, a form that is derived in two ways which part there, and from it a whole text with two
//! trees; and for each candidate at a conflict a rest of the text. Nothing is proved of what is found: `lrambiguity` checks it.
#![tactic(auto)]

mod ambiguous;
mod around;
mod beginnings;
mod behind;
mod costs;
mod forms;
mod items;
mod layers;
mod nodes;
mod numbers;
mod outlooks;
mod queues;
mod reading;
mod rests;
mod rules;
mod scratch;
mod searching;
mod sentences;
mod shared;
mod states;
mod statesets;
mod texts;
mod writing;

pub use crate::ambiguous::{Ambiguous, Form, Search, Sentence, Ways};
pub use crate::forms::Forms;
pub use crate::outlooks::Outlook;
