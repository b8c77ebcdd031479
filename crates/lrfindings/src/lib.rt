//! What there is to find in the grammar of a file: its conflicts, what its precedences resolve, and whether it is unambiguous.
#![tactic(auto)]

mod cells;
mod findings;
mod names;
mod parts;
mod reached;
mod texts;
mod useless;

pub use crate::cells::{Resolved, Winner, precedence_token};
pub use crate::findings::{FindError, Findings, find};
pub use crate::texts::small_text;
pub use crate::useless::{UselessPrecedences, source_of};
pub use lrverdicts::{Counts, Entry, Verdict, is_among};
