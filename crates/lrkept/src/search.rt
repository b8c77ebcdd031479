//! The search for positions that are won, which are checked.

ghost use Rattle.std.specs.Prelude.{OnOk};
ghost use Rattle.lrsearches.specs.StoredWays.{AreWaysOf};
ghost use Rattle.lrgrammar.specs.Symbols.{number_of};
ghost use Rattle.lrexchange.specs.Asked.{AddsPositions};
ghost use Rattle.lrexchange.specs.StoredPositions.{positions_of};

use crate::checking::Certificate;
use crate::keeping::Automaton;
use lrconflicts::Move;
use lrexchange::beginning::beginning;
use lrexchange::{Board, Listing, Node, Won, open_ones, places_of, play};
use lrgrammar::idx::{StIdx, TIdx};
use std::alloc::{AllocError, Global};

/// At how many positions a search looks at the most.
const MOST: usize = 10_000;

/// Adds the position to the certificate, with its answer.
fn add_won(
    certificate: &mut Certificate,
    alloc: Global,
    listing: &Listing,
    nodes: &[Node],
    won: Won,
) -> Result<(), AllocError>
    ensures { OnOk result (AddsPositions (positions_of certificate.old.listing.positions.items)
        (positions_of certificate.new.listing.positions.items)) }
{
    let Some(position) = listing.positions.get(won.place) else {
        return Ok(());
    };
    let Some(node) = nodes.get(won.place) else {
        return Ok(());
    };
    let Some(tried) = node.tried.get(won.answer) else {
        return Ok(());
    };
    certificate
        .listing
        .add(position.with_turn(alloc, position.turn)?)?;
    certificate.answers.push(tried.answer)?;
    Ok(())
}

/// Adds the positions that are won to the certificate.
fn add_all_won(
    certificate: &mut Certificate,
    alloc: Global,
    listing: &Listing,
    nodes: &[Node],
    won: &[Won],
) -> Result<(), AllocError>
    ensures { OnOk result (AddsPositions (positions_of certificate.old.listing.positions.items)
        (positions_of certificate.new.listing.positions.items)) }
{
    for one in won {
        add_won(certificate, alloc, listing, nodes, *one)?;
    }
    Ok(())
}

/// Adds positions with their answers to the certificate which are to show that in the cell the second move may be made for the
/// first, if they are found by looking at as many as are left of those that are allowed, from which they are taken.
pub(crate) fn search(
    automaton: Automaton<'_>,
    cell: (StIdx<u32>, TIdx<u32>),
    theirs: Move<u32>,
    ours: Move<u32>,
    certificate: &mut Certificate,
    left: &mut usize,
) -> Result<(), AllocError>
    requires { AreWaysOf number_of automaton.grm.now automaton.graph.now automaton.ways.now }
    ensures { OnOk result (AddsPositions (positions_of certificate.old.listing.positions.items)
        (positions_of certificate.new.listing.positions.items)) }
{
    let grm = automaton.grm;
    let graph = automaton.graph;
    let ways = automaton.ways;
    let alloc = grm.allocator();
    let Some(asked) = beginning(grm, graph, ways, cell, theirs, ours)? else {
        return Ok(());
    };
    let board = Board {
        grm,
        graph,
        ways,
        won: &certificate.listing,
    };
    let mut listing = Listing::new(alloc)?;
    let mut nodes = Vec::new(alloc);
    let open = open_ones(board, asked)?;
    let roots = places_of(&mut listing, alloc, open)?;
    let most = MOST.min(*left);
    let found = play(&mut listing, &mut nodes, board, roots.as_slice(), most)?;
    *left = left.saturating_sub(nodes.len());
    let Some(won) = found else {
        return Ok(());
    };
    add_all_won(
        certificate,
        alloc,
        &listing,
        nodes.as_slice(),
        won.as_slice(),
    )
}
