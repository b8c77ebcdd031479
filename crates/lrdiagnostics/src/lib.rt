//! How places of a file are shown: their lines, with marks under them, as a terminal can show them, and as text of a page.
#![tactic(auto)]

mod columns;
mod diagnostics;
mod escapes;
mod faults;
mod lines;
mod sources;
mod styles;
mod words;

pub use crate::diagnostics::{Mark, Message, TOLD, Teller, Weight, messages_of};
pub use crate::escapes::{add_escaped, add_escaped_name};
pub use crate::faults::words_of;
pub use crate::lines::{ShownLine, add_shown};
pub use crate::sources::{Position, Source};
pub use crate::styles::Style;
pub use crate::words::{Layout, width_of};
