//! Text that is made by many small steps, of which none need be asked whether memory was refused.
#![tactic(auto)]

mod text;

pub use crate::text::Text;
