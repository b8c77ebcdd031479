//! Where a search is, and what is needed there.

ghost use Rattle.std.specs.Prelude.{◌≡◌};
ghost use Rattle.lrsearches.specs.StoredPlaces.{place_with};

use lrgrammar::idx::{PIdx, SIdx, StIdx, Symbol};

/// What a candidate still needs of a list of symbols.
#[derive(Clone, Copy, PartialEq, Eq, PartialOrd, Ord)]
pub enum Need<T> {
    /// Nothing.
    Met,
    /// That the item looks at the token after the list.
    Look(PIdx<T>, SIdx<T>),
}

/// Where a search is: at a state, with what is needed for each of two candidates of a list that leads there.
#[derive(Clone, Copy, PartialEq, Eq, PartialOrd, Ord)]
pub struct Place<T> {
    /// The state.
    pub state: StIdx<T>,
    /// What is needed for the one candidate.
    pub first: Need<T>,
    /// What is needed for the other candidate.
    pub second: Need<T>,
}

/// One of the two candidates of a place.
#[derive(Clone, Copy)]
pub(crate) enum Candidate {
    /// That of which `first` says what is needed.
    First,
    /// That of which `second` says it.
    Second,
}

impl<T: Copy> Place<T> {
    /// The place with this need for the candidate.
    pub(crate) fn with(&self, candidate: Candidate, need: Need<T>) -> Place<T>
        ensures { result ≡ place_with self.now candidate need }
    {
        match candidate {
            Candidate::First => Place {
                first: need,
                ..*self
            },
            Candidate::Second => Place {
                second: need,
                ..*self
            },
        }
    }
}

/// A step of a search.
#[derive(Clone, Copy)]
pub(crate) struct Step<T> {
    /// The symbol of the edge over which it goes back; None where it stays at the state.
    pub symbol: Option<Symbol<T>>,
    /// To where it leads.
    pub place: Place<T>,
}
