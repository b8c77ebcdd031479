//! Why there is no graph or table.

ghost use Rattle.lrgraphs.specs.declared.errors.BuildError.TheVariants.{Memory};
ghost use Rattle.std.specs.Prelude.{◌≡◌};

use crate::statetable::StateTableError;
use std::alloc::{AllocError, AllocFailed};
use thiserror::Error;

/// Why a grammar has no state graph, or a graph no table. A graph that is too large is told before one that has no table.
#[derive(Debug, Drop, PartialEq, Eq, Error)]
pub enum BuildError<T> {
    /// The graph has no table.
    #[error(transparent)]
    Table(StateTableError<T>),
    /// The states are more than indices can number.
    #[error("state graph too large for the index type")]
    TooLarge,
    /// A growth was refused.
    #[error("out of memory")]
    Memory,
}

impl<T> From<AllocError> for BuildError<T> {
    ghost from_gives = { λ _ e. e ≡ Memory };

    fn from(_e: AllocError) -> BuildError<T> {
        BuildError::Memory
    }
}

impl<T, X: Drop> From<AllocFailed<X>> for BuildError<T> {
    ghost from_gives = { λ _ e. e ≡ Memory };

    fn from(_e: AllocFailed<X>) -> BuildError<T> {
        BuildError::Memory
    }
}
