//! Whether an entry is decided.

ghost use Rattle.std.specs.Prelude.{◌<◌, None, Some, length, IsTrue, IfOk, IfSome};
ghost use Rattle.lrspec.specs.merging.Graph.{IsGraphOf};
ghost use Rattle.lrsearches.specs.StoredWays.{AreWaysOf};
ghost use Rattle.lrgrammar.specs.Symbols.{number_of};
ghost use Rattle.lrdecided.specs.Entries.{entry_of, AreStarts, IsCertified, IsDecidedAt, IsDecidedAtBy};
ghost use Rattle.lrdecided.specs.StoredNodes.{nodes_of};

use crate::checking::{all_proceed, are_settled};
use crate::nodes::Node;
use crate::search::search;
use crate::starts::{sides_before, starts, states_with_core};
use lrconflicts::Move;
use lrgrammar::grammar::YaccGrammar;
use lrgrammar::idx::{StIdx, TIdx};
use lrgraphs::stategraph::StateGraph;
use lrsearches::Ways;
use std::alloc::AllocError;

/// An entry of a cell: two moves that meet there.
#[derive(Clone, Copy, Debug, PartialEq, Eq)]
pub struct Entry {
    /// The state.
    pub state: StIdx<u32>,
    /// The next token.
    pub token: TIdx<u32>,
    /// The one move.
    pub one: Move<u32>,
    /// The other move.
    pub other: Move<u32>,
}

/// How an entry is decided.
#[derive(Clone, Copy, Debug, PartialEq, Eq)]
pub struct Decided {
    /// So many tokens decide it, the next one among them; None where that isn't known.
    pub tokens: Option<usize>,
}

/// The nodes at which two ways begin that go on with the moves of the entry; None where one of these can't be made.
fn entry_starts(
    grm: &YaccGrammar<u32>,
    graph: &StateGraph<u32>,
    ways: &Ways<u32>,
    entry: &Entry,
    left: Option<usize>,
) -> Result<Option<Vec<Node>>, AllocError>
    requires graph { IsGraphOf grm.now graph.now }
    requires ways { AreWaysOf number_of grm.now graph.now ways.now }
    requires state { entry.now.state.0 < length graph.now }
    ensures { IfOk result (λ o. IfSome o (λ v. AreStarts grm.now graph.now
        (entry_of entry.now) left (nodes_of v.items))) }
{
    let Some(ones) = sides_before(grm, graph, entry.state, entry.token, entry.one)? else {
        return Ok(None);
    };
    let Some(others) = sides_before(grm, graph, entry.state, entry.token, entry.other)? else {
        return Ok(None);
    };
    let states = states_with_core(grm, graph, ways.fingerprints.as_slice(), entry.state)?;
    let starts = starts(
        grm.allocator(),
        ones.as_slice(),
        others.as_slice(),
        states.as_slice(),
        entry.token,
        left,
    )?;
    Ok(Some(starts))
}

/// Whether nodes are found and checked which certify that the entry is decided by so many tokens, or without a number by all
/// that come. Of what a way derives only so many symbols are kept.
fn is_certified(
    grm: &YaccGrammar<u32>,
    graph: &StateGraph<u32>,
    ways: &Ways<u32>,
    entry: &Entry,
    left: Option<usize>,
    most: usize,
    allowance: usize,
) -> Result<bool, AllocError>
    requires graph { IsGraphOf grm.now graph.now }
    requires ways { AreWaysOf number_of grm.now graph.now ways.now }
    requires state { entry.now.state.0 < length graph.now }
    ensures { IfOk result (λ b. IsTrue b
        → IsCertified grm.now graph.now (entry_of entry.now) left) }
{
    let Some(starts) = entry_starts(grm, graph, ways, entry, left)? else {
        return Ok(false);
    };
    let Some(listing) = search(grm, graph, ways, starts.as_slice(), most, allowance)? else {
        return Ok(false);
    };
    if !are_settled(grm, &ways.firsts, &listing, starts.as_slice(), most)? {
        return Ok(false);
    }
    if !all_proceed(grm, graph, ways, &listing, most)? {
        return Ok(false);
    }
    Ok(true)
}

/// Whether the entry is certified by all tokens that come, where first few and then more symbols are kept of what a way derives.
pub(crate) fn is_certified_by_all(
    grm: &YaccGrammar<u32>,
    graph: &StateGraph<u32>,
    ways: &Ways<u32>,
    entry: &Entry,
    allowance: usize,
) -> Result<bool, AllocError>
    requires graph { IsGraphOf grm.now graph.now }
    requires ways { AreWaysOf number_of grm.now graph.now ways.now }
    requires state { entry.now.state.0 < length graph.now }
    ensures { IfOk result (λ b. IsTrue b
        → IsCertified grm.now graph.now (entry_of entry.now) None) }
{
    for most in [2, 4, 8] {
        if is_certified(grm, graph, ways, entry, None, most, allowance)? {
            return Ok(true);
        }
    }
    Ok(false)
}

/// The least number of tokens, up to 3, by which the entry is certified.
fn least_tokens(
    grm: &YaccGrammar<u32>,
    graph: &StateGraph<u32>,
    ways: &Ways<u32>,
    entry: &Entry,
    allowance: usize,
) -> Result<Option<usize>, AllocError>
    requires graph { IsGraphOf grm.now graph.now }
    requires ways { AreWaysOf number_of grm.now graph.now ways.now }
    requires state { entry.now.state.0 < length graph.now }
    ensures { IfOk result (λ o. IfSome o (λ k.
        IsCertified grm.now graph.now (entry_of entry.now) (Some k))) }
{
    for tokens in 2..4 {
        if is_certified(grm, graph, ways, entry, Some(tokens), 8, allowance)? {
            return Ok(Some(tokens));
        }
    }
    Ok(None)
}

/// How the entry is decided; None where that isn't found by looking at so many nodes each time: it may be decided all the same.
pub fn decide(
    grm: &YaccGrammar<u32>,
    graph: &StateGraph<u32>,
    ways: &Ways<u32>,
    entry: &Entry,
    allowance: usize,
) -> Result<Option<Decided>, AllocError>
    requires graph { IsGraphOf grm.now graph.now }
    requires ways { AreWaysOf number_of grm.now graph.now ways.now }
    requires state { entry.now.state.0 < length graph.now }
    ensures decided { IfOk result (λ o. IfSome o (λ d.
        IsDecidedAt grm.now graph.now (entry_of entry.now))) }
    ensures by_tokens { IfOk result (λ o. IfSome o (λ d. IfSome d.tokens (λ k.
        IsDecidedAtBy grm.now graph.now (entry_of entry.now) k))) }
{
    grm.in_order();
    if !is_certified_by_all(grm, graph, ways, entry, allowance)? {
        return Ok(None);
    }
    let tokens = least_tokens(grm, graph, ways, entry, allowance)?;
    Ok(Some(Decided { tokens }))
}
