//! Charts, after Cocke, Younger and Kasami: between which places of a row of leaves a symbol may be derived.

ghost use Rattle.std.specs.Prelude.{◌≤◌};

use lrbits::vob::Vob;

/// How many places a row has at the most: one more than leaves. A chart has so many bits for each place and each symbol that is derived
/// from somewhere, which is 2 KB for a symbol in the longest row.
pub(crate) const MOST_PLACES: usize = 128;

/// The spans of a row: between which of its places each symbol is derived.
#[derive(Drop)]
pub(crate) struct Chart {
    /// How many places there are, one more than leaves.
    pub(crate) places: usize,
    /// How many of the leaves are symbols on the stack: no rule is derived up to a place before their end, since the machine reduces
    /// what is on top alone.
    pub(crate) top: usize,
    /// The spans of each token, and of each rule: the bit `from * MOST_PLACES + to` says whether it is derived between these. There
    /// are no bits where it is derived nowhere.
    pub(crate) tokens: Vec<Vob>,
    pub(crate) rules: Vec<Vob>,
    ghost small: { places ≤ 128 },
}
