//! Index types, each known by the number that it holds.

ghost use Rattle.std.specs.Prelude.{◌≡◌, ℕ, ◌<◌, ◌≤◌, ◌^◌, MatchOption, IsTrue, ◌↔◌};
ghost use Rattle.std.specs.Ordering.{nat_cmp};

mod laws;
mod storage;

use std::hash::Hash;

/// What stores an index: a type whose values are the numbers from 0 to `MAX`.
///
/// `MAX` is at least 255 and at most `u32::MAX`. Values are equal, stand in order and are hashed
/// as their numbers, and two values of one number are the same.
pub trait IndexStorage: Copy + Ord + Hash {
    ghost MAX: { ℕ };

    // The number of a value.
    ghost number: { Self → ℕ };

    // Holds of the values that there are, which are those with a number up to `MAX`.
    ghost IsIndex: { Self → Type 0 };

    /// The greatest number that a value has.
    const MAX: usize;

    /// The number of this value, at most `MAX`.
    fn to_usize(self) -> usize
        ensures number { result ≡ number self }
        ensures within { number self ≤ MAX }
        ensures index { IsIndex self };

    /// The value whose number is `n`; `None` exactly where `n` is above `MAX`.
    fn from_usize(n: usize) -> Option<Self>
        ensures { MatchOption result (MAX < n) (λ x. (n ≤ MAX) × (number x ≡ n)) };

    ghost least: { 255 ≤ MAX };

    ghost most: { MAX < 2 ^ 32 };

    ghost injective: { (x y : Self) → number x ≡ number y → x ≡ y };

    ghost ordered: { (x y : Self) → Self.cmp x y ≡ nat_cmp (number x) (number y) };

    ghost same: { (x y : Self) → IsTrue (Self.eq x y) ↔ (number x ≡ number y) };

    ghost copied: { (x y : Self) → Self.is_clone x y → y ≡ x };

    ghost bounded: { (x : Self) → IsIndex x ↔ (number x ≤ MAX) };

    // A hasher is fed alike exactly where the numbers are equal.
    ghost hashed: { (x y : Self) → IsIndex x → IsIndex y →
        (Self.hash_input x ≡ Self.hash_input y) ↔ (number x ≡ number y) };
}

/// A state, by its number.
#[derive(Clone, Copy, PartialEq, Eq, PartialOrd, Ord, Hash, Debug)]
pub struct StIdx<T>(pub T);

/// A rule, by its number.
#[derive(Clone, Copy, PartialEq, Eq, PartialOrd, Ord, Hash, Debug)]
pub struct RIdx<T>(pub T);

/// A production, by its number.
#[derive(Clone, Copy, PartialEq, Eq, PartialOrd, Ord, Hash, Debug)]
pub struct PIdx<T>(pub T);

/// A place in a production's body, counted from 0; the place after all symbols is the length.
#[derive(Clone, Copy, PartialEq, Eq, PartialOrd, Ord, Hash, Debug)]
pub struct SIdx<T>(pub T);

/// A token, by its number.
#[derive(Clone, Copy, PartialEq, Eq, PartialOrd, Ord, Hash, Debug)]
pub struct TIdx<T>(pub T);

/// What a production's body is made of.
///
/// All rules stand before all tokens, and then the numbers decide.
#[derive(Clone, Copy, PartialEq, Eq, PartialOrd, Ord, Hash, Debug)]
pub enum Symbol<T> {
    /// A rule.
    Rule(RIdx<T>),
    /// A token.
    Token(TIdx<T>),
}

impl<T: IndexStorage> StIdx<T> {
    /// The number of the state, as it is stored.
    pub fn as_storaget(&self) -> T
        ensures { result ≡ self.now.0 }
    {
        self.0
    }
}

impl<T: IndexStorage> From<StIdx<T>> for usize {
    ghost from_gives = { λ state n. n ≡ T.number state.0 };

    fn from(state: StIdx<T>) -> usize {
        state.0.to_usize()
    }
}

impl<T: IndexStorage> From<StIdx<T>> for u32 {
    ghost from_gives = { λ state n. n ≡ T.number state.0 };

    fn from(state: StIdx<T>) -> u32 {
        state.0.to_usize() as u32
    }
}

impl<T: IndexStorage> RIdx<T> {
    /// The number of the rule, as it is stored.
    pub fn as_storaget(&self) -> T
        ensures { result ≡ self.now.0 }
    {
        self.0
    }
}

impl<T: IndexStorage> From<RIdx<T>> for usize {
    ghost from_gives = { λ rule n. n ≡ T.number rule.0 };

    fn from(rule: RIdx<T>) -> usize {
        rule.0.to_usize()
    }
}

impl<T: IndexStorage> From<RIdx<T>> for u32 {
    ghost from_gives = { λ rule n. n ≡ T.number rule.0 };

    fn from(rule: RIdx<T>) -> u32 {
        rule.0.to_usize() as u32
    }
}

impl<T: IndexStorage> PIdx<T> {
    /// The number of the production, as it is stored.
    pub fn as_storaget(&self) -> T
        ensures { result ≡ self.now.0 }
    {
        self.0
    }
}

impl<T: IndexStorage> From<PIdx<T>> for usize {
    ghost from_gives = { λ production n. n ≡ T.number production.0 };

    fn from(production: PIdx<T>) -> usize {
        production.0.to_usize()
    }
}

impl<T: IndexStorage> From<PIdx<T>> for u32 {
    ghost from_gives = { λ production n. n ≡ T.number production.0 };

    fn from(production: PIdx<T>) -> u32 {
        production.0.to_usize() as u32
    }
}

impl<T: IndexStorage> SIdx<T> {
    /// The number of the place, as it is stored.
    pub fn as_storaget(&self) -> T
        ensures { result ≡ self.now.0 }
    {
        self.0
    }
}

impl<T: IndexStorage> From<SIdx<T>> for usize {
    ghost from_gives = { λ place n. n ≡ T.number place.0 };

    fn from(place: SIdx<T>) -> usize {
        place.0.to_usize()
    }
}

impl<T: IndexStorage> From<SIdx<T>> for u32 {
    ghost from_gives = { λ place n. n ≡ T.number place.0 };

    fn from(place: SIdx<T>) -> u32 {
        place.0.to_usize() as u32
    }
}

impl<T: IndexStorage> TIdx<T> {
    /// The number of the token, as it is stored.
    pub fn as_storaget(&self) -> T
        ensures { result ≡ self.now.0 }
    {
        self.0
    }
}

impl<T: IndexStorage> From<TIdx<T>> for usize {
    ghost from_gives = { λ token n. n ≡ T.number token.0 };

    fn from(token: TIdx<T>) -> usize {
        token.0.to_usize()
    }
}

impl<T: IndexStorage> From<TIdx<T>> for u32 {
    ghost from_gives = { λ token n. n ≡ T.number token.0 };

    fn from(token: TIdx<T>) -> u32 {
        token.0.to_usize() as u32
    }
}
