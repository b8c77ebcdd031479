//! The search for nodes that certify that an entry is decided. What it finds is checked.

ghost use Rattle.lrspec.specs.merging.Graph.{IsGraphOf};
ghost use Rattle.lrgrammar.specs.Firsts.{AreFirstsOf};
ghost use Rattle.lrsearches.specs.StoredWays.{AreWaysOf};
ghost use Rattle.lrgrammar.specs.Symbols.{number_of};

use crate::listing::Listing;
use crate::moves::moves;
use crate::nodes::{Node, Side};
use crate::taking::normed;
use lrgrammar::firsts::YaccFirsts;
use lrgrammar::grammar::YaccGrammar;
use lrgraphs::stategraph::StateGraph;
use lrsearches::Ways;
use std::alloc::AllocError;

/// Whether it is not known how the side goes on.
fn is_unknown(side: &Side) -> bool {
    side.is_cut && side.symbols.is_empty()
}

/// Whether nothing is to be found from the node: something that is not known would be met, or no token is left to meet.
fn is_hopeless(node: &Node) -> bool {
    is_unknown(&node.one) || is_unknown(&node.other) || node.left == Some(0)
}

/// Adds to what the nodes come, where that isn't listed; answers whether something is to be found from all.
fn add_nodes(
    listing: &mut Listing,
    grm: &YaccGrammar<u32>,
    firsts: &YaccFirsts<u32>,
    nodes: &[Node],
    most: usize,
) -> Result<bool, AllocError>
    requires { AreFirstsOf grm.now firsts.now }
{
    for node in nodes {
        let Some(to) = normed(grm, firsts, node, most)? else {
            continue;
        };
        if is_hopeless(&to) {
            return Ok(false);
        }
        if !listing.has(&to) {
            listing.add(to)?;
        }
    }
    Ok(true)
}

/// The nodes to which the moves from these come, where of what a way derives only so many symbols are kept, and as many nodes
/// are looked at as are allowed; None where nothing is to be found from one.
pub(crate) fn search(
    grm: &YaccGrammar<u32>,
    graph: &StateGraph<u32>,
    ways: &Ways<u32>,
    starts: &[Node],
    most: usize,
    allowance: usize,
) -> Result<Option<Listing>, AllocError>
    requires graph { IsGraphOf grm.now graph.now }
    requires ways { AreWaysOf number_of grm.now graph.now ways.now }
{
    let mut listing = Listing::new(grm.allocator())?;
    if !add_nodes(&mut listing, grm, &ways.firsts, starts, most)? {
        return Ok(None);
    }
    for turn in 0..allowance {
        if turn >= listing.nodes.len() {
            return Ok(Some(listing));
        }
        let Some(moves) = moves(grm, graph, ways, &listing.nodes[turn])? else {
            return Ok(None);
        };
        if !add_nodes(&mut listing, grm, &ways.firsts, moves.as_slice(), most)? {
            return Ok(None);
        }
    }
    Ok(None)
}
