//! LR(1) state graphs of grammars.
#![tactic(auto)]

mod errors;
pub mod outline;
pub mod stategraph;
pub mod statetable;

/// Item sets with lookaheads.
pub mod itemset {
    pub use lritems::itemset::{Ctx, Itemset};
}

pub use crate::errors::BuildError;
pub use crate::stategraph::StateGraph;
pub use crate::statetable::{StateTableError, StateTableErrorKind};
