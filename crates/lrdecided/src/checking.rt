//! Whether listed nodes are a certificate.

ghost use Rattle.std.specs.Prelude.{◌≡◌, List, Contains, IsTrue, IfOk};
ghost use Rattle.lrspec.specs.merging.Graph.{IsGraphOf};
ghost use Rattle.lrgrammar.specs.Firsts.{AreFirstsOf};
ghost use Rattle.lrsearches.specs.StoredWays.{AreWaysOf};
ghost use Rattle.lrgrammar.specs.Symbols.{number_of};
ghost use Rattle.lrdecided.specs.Moved.{AreSettled, AllProceed};
ghost use Rattle.lrdecided.specs.Rules.{IsSettled, Proceeds};
ghost use Rattle.lrdecided.specs.StoredNodes.{node_of, nodes_of};

use crate::listing::Listing;
use crate::moves::moves;
use crate::nodes::Node;
use crate::taking::normed;
use lrgrammar::firsts::YaccFirsts;
use lrgrammar::grammar::YaccGrammar;
use lrgraphs::stategraph::StateGraph;
use lrsearches::Ways;
use std::alloc::AllocError;

/// Whether the node is impossible, or comes to a listed one, where of what a way derives only so many symbols are kept.
fn is_settled(
    grm: &YaccGrammar<u32>,
    firsts: &YaccFirsts<u32>,
    listing: &Listing,
    node: &Node,
    most: usize,
) -> Result<bool, AllocError>
    requires { AreFirstsOf grm.now firsts.now }
    ensures { IfOk result (λ b. IsTrue b → IsSettled grm.now
        (nodes_of listing.now.nodes.items) (node_of node.now)) }
{
    match normed(grm, firsts, node, most)? {
        Some(to) => Ok(listing.has(&to)),
        None => Ok(true),
    }
}

/// Whether all the nodes are.
pub(crate) fn are_settled(
    grm: &YaccGrammar<u32>,
    firsts: &YaccFirsts<u32>,
    listing: &Listing,
    nodes: &[Node],
    most: usize,
) -> Result<bool, AllocError>
    requires { AreFirstsOf grm.now firsts.now }
    ensures { IfOk result (λ b. IsTrue b → AreSettled grm.now
        (nodes_of listing.now.nodes.items) (nodes_of nodes.now)) }
{
    for node in nodes {
        if !is_settled(grm, firsts, listing, node, most)? {
            return Ok(false);
        }
    }
    Ok(true)
}

/// Whether a move from the node is always there, and leads to what is settled.
fn proceeds(
    grm: &YaccGrammar<u32>,
    graph: &StateGraph<u32>,
    ways: &Ways<u32>,
    listing: &Listing,
    node: &Node,
    most: usize,
) -> Result<bool, AllocError>
    requires graph { IsGraphOf grm.now graph.now }
    requires ways { AreWaysOf number_of grm.now graph.now ways.now }
    ensures { IfOk result (λ b. IsTrue b → Proceeds grm.now graph.now
        (IsSettled grm.now (nodes_of listing.now.nodes.items))
        (node_of node.now)) }
{
    match moves(grm, graph, ways, node)? {
        Some(moves) => are_settled(grm, &ways.firsts, listing, moves.as_slice(), most),
        None => Ok(false),
    }
}

/// Whether a move from each listed node is always there, and leads to what is settled.
pub(crate) fn all_proceed(
    grm: &YaccGrammar<u32>,
    graph: &StateGraph<u32>,
    ways: &Ways<u32>,
    listing: &Listing,
    most: usize,
) -> Result<bool, AllocError>
    requires graph { IsGraphOf grm.now graph.now }
    requires ways { AreWaysOf number_of grm.now graph.now ways.now }
    ensures { IfOk result (λ b. IsTrue b
        → AllProceed grm.now graph.now (nodes_of listing.now.nodes.items)) }
{
    for node in &listing.nodes {
        if !proceeds(grm, graph, ways, listing, node, most)? {
            return Ok(false);
        }
    }
    Ok(true)
}
