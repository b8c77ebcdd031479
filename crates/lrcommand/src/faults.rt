//! Why the program answers nothing, or less than all.

ghost use Rattle.std.specs.Prelude.{◌≡◌};
ghost use Rattle.lrcommand.specs.Printing.{fault_text};
ghost use Rattle.lrcommand.specs.declared.faults.Fault.TheVariants as fault;

use crate::requests::Source;
use lrgrammar::grammar::TextError;
use lrtable::BuildError;
use lrtable::machine::LineError;
use std::alloc::AllocError;
use std::fmt;

/// Why a request has no answer; each displays as the rest of its fault line.
#[derive(Debug, Drop)]
pub enum Fault<'a> {
    CannotRead(Source<'a>),
    NotUtf8(Source<'a>),
    Text(TextError),
    Build(BuildError<u32>),
    Lines(LineError),
    Memory,
    CannotWrite,
}

impl fmt::Display for Fault<'_> {
    ghost output = { fault_text };

    fn fmt<W: fmt::Write>(&self, f: &mut fmt::Formatter<W>) -> fmt::Result {
        match self {
            Fault::CannotRead(source) => write!(f, "cannot read {source}"),
            Fault::NotUtf8(source) => write!(f, "{source} is not UTF-8"),
            Fault::Text(error) => write!(f, "{error}"),
            Fault::Build(error) => write!(f, "{error}"),
            Fault::Lines(error) => write!(f, "{error}"),
            Fault::Memory => write!(f, "out of memory"),
            Fault::CannotWrite => write!(f, "cannot write standard output"),
        }
    }
}

impl From<AllocError> for Fault<'_> {
    ghost from_gives = { λ _ f. f ≡ fault.Memory };

    fn from(_refused: AllocError) -> Self {
        Fault::Memory
    }
}

impl From<TextError> for Fault<'_> {
    ghost from_gives = { λ error f. f ≡ fault.Text error };

    fn from(error: TextError) -> Self {
        Fault::Text(error)
    }
}

impl From<BuildError<u32>> for Fault<'_> {
    ghost from_gives = { λ error f. f ≡ fault.Build error };

    fn from(error: BuildError<u32>) -> Self {
        Fault::Build(error)
    }
}

impl From<LineError> for Fault<'_> {
    ghost from_gives = { λ error f. f ≡ fault.Lines error };

    fn from(error: LineError) -> Self {
        Fault::Lines(error)
    }
}
