//! Tables whose machines accept exactly the sentences of their grammars, whatever precedences decide: certificates that what cells
//! refuse is kept, searched and checked.
#![tactic(auto)]

mod acyclicity;
mod alone;
mod checking;
mod choices;
mod keeping;
mod peeling;
mod search;
mod tables;

pub use crate::acyclicity::is_acyclic;
pub use crate::checking::Certificate;
pub use crate::keeping::Automaton;
pub use crate::tables::{exactness, is_kept};
