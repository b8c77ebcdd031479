//! Why answering lines ended before the lines did.

ghost use Rattle.lrlines.specs.declared.errors.LineError.TheVariants.{Memory};
ghost use Rattle.std.specs.Prelude.{◌≡◌};

use std::alloc::{AllocError, AllocFailed};
use thiserror::Error;

/// Why lines were read or answered no further.
#[derive(Clone, Copy, Debug, PartialEq, Eq, Error)]
pub enum LineError {
    /// The reader failed, or gave bytes without end.
    #[error("cannot read standard input")]
    Read,
    /// The writer failed, or took no byte.
    #[error("cannot write standard output")]
    Write,
    /// Memory was refused.
    #[error("out of memory")]
    Memory,
}

impl From<AllocError> for LineError {
    ghost from_gives = { λ _ e. e ≡ Memory };

    fn from(_e: AllocError) -> LineError {
        LineError::Memory
    }
}

impl<X: Drop> From<AllocFailed<X>> for LineError {
    ghost from_gives = { λ _ e. e ≡ Memory };

    fn from(_e: AllocFailed<X>) -> LineError {
        LineError::Memory
    }
}
