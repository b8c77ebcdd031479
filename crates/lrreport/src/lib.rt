//! What there is to tell of a grammar file: its faults, or the conflicts and the verdict of its grammar.
#![tactic(auto)]

mod actions;
mod advice;
mod alike;
mod causes;
mod conflicts;
mod drawings;
mod efforts;
mod grammars;
mod helps;
mod json_lines;
mod json_parts;
mod json_reasons;
mod json_states;
mod json_texts;
mod known;
mod levels;
mod marks;
mod notes;
mod options;
mod outputs;
mod pages;
mod reports;
mod resolved;
mod sarif;
mod sarif_logs;
mod sarif_places;
mod splits;
mod states;
mod texts;
mod told;
mod trees;
mod verdicts;
mod warning_lines;
mod warnings;
mod words;

pub use crate::drawings::push_drawing;
pub use crate::options::{Detail, Lines, Options, Output};
pub use crate::reports::{Conclusion, Report, report_on};
pub use crate::sarif_logs::{SARIF_TAIL, sarif_head};
pub use lryacc::Dialect;
