//! The exchange game: positions at which two ways to go on are compared, what is asked of others where one is won, and the search
//! for those that are won.
#![tactic(auto)]

mod acts;
mod answers;
pub mod beginning;
mod below;
mod cuts;
mod games;
mod listing;
mod moving;
mod places;
mod positions;
mod possible;
pub mod proceeding;
pub mod retreating;
mod sinking;
mod tops;
mod winning;

pub use crate::answers::Answer;
pub use crate::games::{Board, open_ones, places_of, play};
pub use crate::listing::Listing;
pub use crate::positions::{Mark, Ours, Position, Turn};
pub use crate::winning::{Node, Tried, Won};
