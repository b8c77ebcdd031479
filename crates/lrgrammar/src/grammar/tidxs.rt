//! The tokens of a grammar, one after another.

ghost use Rattle.std.specs.Prelude.{◌≡◌, ℕ, ◌+◌, ◌-◌, ◌≤◌, List};
ghost use Rattle.std.specs.List.{range_with_len};
ghost use Rattle.std.specs.Iterator.{YieldsFirstBy, item_count};

use crate::idx::{IndexStorage, TIdx};
use std::marker::{Model, PhantomData};

/// Tokens upwards. It gives each once, and then none.
#[derive(Drop)]
pub struct TIdxIterator<T: IndexStorage> {
    at: usize,
    end: usize,
    phantom: PhantomData<T>,
}

impl<T: IndexStorage> Model for TIdxIterator<T> {
    ghost Value = { List ℕ };

    ghost view = { λ s. range_with_len s.at (s.end - s.at) };

    ghost invariant = { λ s. (s.at ≤ s.end) × (s.end ≤ T.MAX) };
}

impl<T: IndexStorage> TIdxIterator<T> {
    /// The tokens from 0 up to `end`, without it.
    pub(super) fn new(end: usize) -> TIdxIterator<T>
        requires { end ≤ T.MAX }
        ensures { result ≡ range_with_len 0 end }
    {
        TIdxIterator {
            at: 0,
            end,
            phantom: PhantomData,
        }
    }
}

impl<T: IndexStorage> Iterator for TIdxIterator<T> {
    type Item = TIdx<T>;

    ghost next_gives = { YieldsFirstBy (λ t. T.number t.0) (λ s. s) };

    ghost remaining = { item_count (λ s. s) };

    fn next(&mut self) -> Option<TIdx<T>> {
        if self.at < self.end {
            let tidx = TIdx(T::from_usize(self.at).unwrap());
            self.at += 1;
            Some(tidx)
        } else {
            None
        }
    }
}
