//! To what a node comes as its ways take the tokens that both have next.

ghost use Rattle.std.specs.Prelude.{◌≡◌, ◌<◌, ◌∷◌, List, drop, false, length, option_map, IsTrue, IfOk, IfSome};
ghost use Rattle.lrspec.specs.grammars.Grammar as math;
ghost use Rattle.lrgrammar.specs.Firsts.{AreFirstsOf};
ghost use Rattle.lrdecided.specs.Moved.{ComesTo};
ghost use Rattle.lrdecided.specs.Nodes as nodes;
ghost use Rattle.lrdecided.specs.Nodes.{SideCovers, Covers};
ghost use Rattle.lrdecided.specs.Rules.{IsSettled};
ghost use Rattle.lrdecided.specs.StoredNodes.{symbols_of, side_of, node_of};

use crate::impossibility::{is_impossible, spent};
use crate::nodes::{Node, Side};
use lrgrammar::firsts::YaccFirsts;
use lrgrammar::grammar::YaccGrammar;
use lrgrammar::idx::{Symbol, TIdx};
use std::alloc::AllocError;

/// The first of the symbols, if it is a token.
fn first_token(symbols: &[Symbol<u32>]) -> Option<TIdx<u32>>
    ensures { IfSome result (λ t. symbols_of symbols.now
        ≡ math.Token t.0 ∷ drop 1 (symbols_of symbols.now)) }
{
    if symbols.is_empty() {
        return None;
    }
    match symbols[0] {
        Symbol::Token(tidx) => Some(tidx),
        Symbol::Rule(_) => None,
    }
}

/// Takes the first symbol away.
fn drop_first(side: &mut Side)
    requires { 0 < length side.old.symbols.items }
    ensures side { side_of side.new ≡ nodes.with_symbols (side_of side.old)
        (drop 1 (side_of side.old).symbols) }
    ensures shorter { length side.new.symbols.items < length side.old.symbols.items }
{
    side.symbols.remove(0);
}

/// Takes the token that both ways have next, if there is one that they may take; answers whether.
fn take_token(node: &mut Node) -> bool
    ensures settled { IsTrue result → (g : math.Grammar) (listed : List nodes.Node)
        → IsSettled g listed (node_of node.new)
        → IsSettled g listed (node_of node.old) }
    ensures shorter { IsTrue result
        → length node.new.one.symbols.items < length node.old.one.symbols.items }
    ensures same { result ≡ false → node_of node.new ≡ node_of node.old }
{
    let Some(token) = first_token(node.one.symbols.as_slice()) else {
        return false;
    };
    let Some(met) = first_token(node.other.symbols.as_slice()) else {
        return false;
    };
    let first = usize::from(token);
    let second = usize::from(met);
    if first != second {
        return false;
    }
    let Some(left) = spent(node.left) else {
        return false;
    };
    drop_first(&mut node.one);
    drop_first(&mut node.other);
    node.next = None;
    node.left = left;
    true
}

/// Takes the tokens that both ways have next.
fn take_tokens(node: &mut Node)
    ensures { (g : math.Grammar) (listed : List nodes.Node)
        → IsSettled g listed (node_of node.new)
        → IsSettled g listed (node_of node.old) }
{
    while take_token(node) {}
}

/// Cuts the symbols to so many.
fn cut_side(side: &mut Side, most: usize)
    ensures { SideCovers (side_of side.new) (side_of side.old) }
{
    if side.symbols.len() > most {
        side.symbols.truncate(most);
        side.is_cut = true;
    }
}

/// Cuts the symbols of both ways to so many.
fn cut(node: &mut Node, most: usize)
    ensures { Covers (node_of node.new) (node_of node.old) }
{
    cut_side(&mut node.one, most);
    cut_side(&mut node.other, most);
}

/// To what the node comes, where of what a way derives only so many symbols are kept; None where no two ways stand so.
pub(crate) fn normed(
    grm: &YaccGrammar<u32>,
    firsts: &YaccFirsts<u32>,
    node: &Node,
    most: usize,
) -> Result<Option<Node>, AllocError>
    requires { AreFirstsOf grm.now firsts.now }
    ensures { IfOk result (λ o. ComesTo grm.now (node_of node.now) (option_map node_of o)) }
{
    let mut to = node.copied(grm.allocator())?;
    take_tokens(&mut to);
    if is_impossible(grm, firsts, &to)? {
        return Ok(None);
    }
    cut(&mut to, most);
    Ok(Some(to))
}
