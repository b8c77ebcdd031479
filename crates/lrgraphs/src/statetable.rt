//! State tables; today, why there is none.

ghost use Rattle.std.specs.Prelude.{Some, codes};

use lrgrammar::idx::PIdx;
use std::error::Error;
use std::fmt;

/// What stands in the way of a table.
#[derive(Clone, Copy, Debug, PartialEq, Eq)]
pub enum StateTableErrorKind<T> {
    /// A state accepts and reduces at the end of the text; of the productions by which one reduces there, this is the
    /// least.
    AcceptReduceConflict(Option<PIdx<T>>),
}

/// Why a state graph has no table.
#[derive(Clone, Copy, Debug, PartialEq, Eq)]
pub struct StateTableError<T> {
    /// What stands in the way.
    pub kind: StateTableErrorKind<T>,
    /// The production to which it happens: at an accept/reduce conflict the start production.
    pub pidx: PIdx<T>,
}

impl<T> fmt::Display for StateTableError<T> {
    ghost output = { λ _. Some (codes "Accept/reduce conflict") };

    fn fmt<W: fmt::Write>(&self, f: &mut fmt::Formatter<W>) -> fmt::Result {
        f.write_str("Accept/reduce conflict")
    }
}

impl<T: fmt::Debug + Drop> Error for StateTableError<T> {}
