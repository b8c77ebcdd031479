//! Whether listed positions are a certificate.

ghost use Rattle.std.specs.Prelude.{◌<◌, length, IsTrue, IfOk};
ghost use Rattle.lrspec.specs.grammars.Grammar.{Grammar};
ghost use Rattle.lrspec.specs.merging.Graph.{Graph};
ghost use Rattle.lrsearches.specs.StoredWays.{AreWaysOf};
ghost use Rattle.lrconflicts.specs.StoredMoves.{move_of};
ghost use Rattle.lrgrammar.specs.Symbols.{number_of};
ghost use Rattle.lrexchange.specs.Asked.{AreListed, IsWonAt, AreWonBelow};
ghost use Rattle.lrexchange.specs.Exchanges.{IsListed, Proceeds, Retreats, AreWon, Begins};
ghost use Rattle.lrkept.specs.Keeping.{IsWon};
ghost use Rattle.lrexchange.specs.StoredPositions.{position_of, positions_of};

use lrconflicts::Move;
use lrexchange::beginning::beginning;
use lrexchange::proceeding::proceeding;
use lrexchange::retreating::retreating;
use lrexchange::{Answer, Listing, Position};
use lrgrammar::grammar::YaccGrammar;
use lrgrammar::idx::{StIdx, TIdx};
use lrgraphs::stategraph::StateGraph;
use lrsearches::Ways;
use std::alloc::{AllocError, Global};

/// Positions, and how each is won.
#[derive(Drop)]
pub struct Certificate {
    /// The positions.
    pub(crate) listing: Listing,
    /// For each how it is won.
    pub(crate) answers: Vec<Answer>,
}

impl Certificate {
    /// No positions: each of them is won.
    pub fn new(alloc: Global) -> Result<Certificate, AllocError>
        ensures { IfOk result (λ c. (g : Grammar) (h : Graph) → IsWon g h c) }
    {
        Ok(Certificate {
            listing: Listing::new(alloc)?,
            answers: Vec::new(alloc),
        })
    }
}

/// Whether all the positions are won at once, or are some of so many first ones.
fn are_listed(
    grm: &YaccGrammar<u32>,
    graph: &StateGraph<u32>,
    listing: &Listing,
    positions: &[Position],
    bound: usize,
) -> Result<bool, AllocError>
    ensures { IfOk result (λ b. IsTrue b → AreListed graph.now
        (positions_of listing.now.positions.items) bound (positions_of positions.now)) }
{
    for position in positions {
        if !listing.has(grm, graph, position, bound)? {
            return Ok(false);
        }
    }
    Ok(true)
}

/// Whether the position leads to listed ones as they go on.
fn proceeds(
    grm: &YaccGrammar<u32>,
    graph: &StateGraph<u32>,
    ways: &Ways<u32>,
    listing: &Listing,
    position: &Position,
    answer: Answer,
) -> Result<bool, AllocError>
    requires { AreWaysOf number_of grm.now graph.now ways.now }
    ensures { let positions = positions_of listing.now.positions.items in
        IfOk result (λ b. IsTrue b → Proceeds grm.now graph.now
        (IsListed graph.now positions (length positions)) (position_of position.now)) }
{
    match proceeding(grm, graph, ways, position, answer)? {
        Some(asked) => {
            let bound = listing.positions.len();
            are_listed(grm, graph, listing, asked.as_slice(), bound)
        }
        None => Ok(false),
    }
}

/// Whether the position, which is the one at this place, leads to earlier ones where we alone reduce.
fn retreats(
    grm: &YaccGrammar<u32>,
    graph: &StateGraph<u32>,
    ways: &Ways<u32>,
    listing: &Listing,
    place: usize,
    position: &Position,
    answer: Answer,
) -> Result<bool, AllocError>
    requires { AreWaysOf number_of grm.now graph.now ways.now }
    ensures { IfOk result (λ b. IsTrue b → Retreats grm.now graph.now
        (IsListed graph.now (positions_of listing.now.positions.items) place)
        (position_of position.now)) }
{
    match retreating(grm, graph, ways, position, answer)? {
        Some(asked) => are_listed(grm, graph, listing, asked.as_slice(), place),
        None => Ok(false),
    }
}

/// Whether the position at this place is won so.
fn is_won(
    grm: &YaccGrammar<u32>,
    graph: &StateGraph<u32>,
    ways: &Ways<u32>,
    listing: &Listing,
    place: usize,
    answer: Answer,
) -> Result<bool, AllocError>
    requires ways { AreWaysOf number_of grm.now graph.now ways.now }
    requires place { place < length listing.now.positions.items }
    ensures { IfOk result (λ b. IsTrue b → IsWonAt grm.now graph.now
        (positions_of listing.now.positions.items) place) }
{
    let position = &listing.positions[place];
    match answer {
        Answer::Own(_) | Answer::Unmark => {
            retreats(grm, graph, ways, listing, place, position, answer)
        }
        _ => proceeds(grm, graph, ways, listing, position, answer),
    }
}

/// Whether each listed position is won, where the first ones are.
pub(crate) fn are_won(
    grm: &YaccGrammar<u32>,
    graph: &StateGraph<u32>,
    ways: &Ways<u32>,
    certificate: &Certificate,
    first: usize,
) -> Result<bool, AllocError>
    requires ways { AreWaysOf number_of grm.now graph.now ways.now }
    requires first { AreWonBelow grm.now graph.now
        (positions_of certificate.now.listing.positions.items) first }
    ensures { IfOk result (λ b. IsTrue b → AreWon grm.now graph.now
        (positions_of certificate.now.listing.positions.items)) }
{
    let listing = &certificate.listing;
    let count = listing.positions.len();
    if certificate.answers.len() != count {
        return Ok(false);
    }
    for place in first..count {
        let answer = certificate.answers[place];
        if !is_won(grm, graph, ways, listing, place, answer)? {
            return Ok(false);
        }
    }
    Ok(true)
}

/// Whether what is asked of the cell is listed, for which they make the first move and we the second one.
pub(crate) fn begins(
    grm: &YaccGrammar<u32>,
    graph: &StateGraph<u32>,
    ways: &Ways<u32>,
    cell: (StIdx<u32>, TIdx<u32>),
    theirs: Move<u32>,
    ours: Move<u32>,
    listing: &Listing,
) -> Result<bool, AllocError>
    requires { AreWaysOf number_of grm.now graph.now ways.now }
    ensures { let positions = positions_of listing.now.positions.items in
        IfOk result (λ b. IsTrue b → Begins grm.now graph.now cell.0.0 cell.1.0
        (IsListed graph.now positions (length positions)) (move_of number_of theirs)
        (move_of number_of ours)) }
{
    match beginning(grm, graph, ways, cell, theirs, ours)? {
        Some(asked) => {
            let bound = listing.positions.len();
            are_listed(grm, graph, listing, asked.as_slice(), bound)
        }
        None => Ok(false),
    }
}
