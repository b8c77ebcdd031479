//! Why the parts of a grammar make no grammar, or a text gives none.
#![tactic(auto)]

pub mod causes;
mod doubles;
pub mod errors;
