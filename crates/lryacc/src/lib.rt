//! Grammar files of Yacc, Bison and grmtools: what a file says, and the parts of a grammar that it means.
#![tactic(auto)]

mod code;
mod contents;
mod declarations;
mod dialects;
mod directives;
mod faults;
mod file;
mod gaps;
mod grmtools;
mod grmtools_lexemes;
mod grmtools_names;
mod lexemes;
mod meaning;
mod names;
mod numbering;
mod numbers;
mod parsers;
mod places;
mod productions;
mod quotes;
mod reader;
mod references;
mod rules;
mod runs;
mod rust_code;
mod scanner;
mod sections;
mod spellings;
mod symbols;
mod useful;
mod values;

pub use crate::dialects::Dialect;
pub use crate::directives::near_directive;
pub use crate::faults::{Fault, FaultKind, OldForm, OtherClass, Wanted};
pub use crate::file::{FileRead, read_file};
pub use crate::meaning::Expected;
pub use crate::numbering::{FileGrammar, NamedPrecedence, TokenPlaces};
pub use crate::parsers::{Dynamic, DynamicKind, Parser};
pub use crate::places::Span;
