//! The moves from a node.

ghost use Rattle.std.specs.Prelude.{◌≡◌, ◌<◌, ◌∷◌, suc, drop, length, option_map, IfOk, OnOk, IfSome};
ghost use Rattle.lrspec.specs.grammars.Grammar as math;
ghost use Rattle.lrspec.specs.merging.Graph.{IsGraphOf};
ghost use Rattle.lrsearches.specs.StoredUses.{keys_of, HasUsesOfRule};
ghost use Rattle.lrsearches.specs.StoredWays.{AreWaysOf};
ghost use Rattle.lrgrammar.specs.Symbols.{number_of};
ghost use Rattle.lrdecided.specs.Moved.{expanded, HasExpansions, HasOutside, HasAllOutside, HasNodes, AreMoves};
ghost use Rattle.lrdecided.specs.Nodes as nodes;
ghost use Rattle.lrdecided.specs.Nodes.{outside};
ghost use Rattle.lrdecided.specs.StoredNodes.{symbols_of, side_of, node_of, nodes_of};

use crate::nodes::{Node, Side, joined};
use crate::states::{states_before, states_with_item};
use lrclosing::items::dot_behind;
use lrgrammar::grammar::YaccGrammar;
use lrgrammar::idx::{IndexStorage, PIdx, RIdx, SIdx, Symbol};
use lrgraphs::stategraph::StateGraph;
use lrsearches::Ways;
use std::alloc::AllocError;

/// The side with the body of the production in place of its first symbol.
fn expanded_side(grm: &YaccGrammar<u32>, side: &Side, pidx: PIdx<u32>) -> Result<Side, AllocError>
    requires production { pidx.0 < length grm.now.productions }
    requires some { 0 < length side.now.symbols.items }
    ensures { IfOk result (λ x. side_of x ≡ expanded grm.now (side_of side.now) pidx.0) }
{
    let symbols = joined(grm.allocator(), grm.prod(pidx), &side.symbols[1..])?;
    Ok(Side {
        production: side.production,
        dot: side.dot,
        symbols,
        is_cut: side.is_cut,
    })
}

/// The nodes with each body of the rule in place of the first symbol of the one way.
fn expansions(grm: &YaccGrammar<u32>, node: &Node, rule: RIdx<u32>) -> Result<Vec<Node>, AllocError>
    requires rule { rule.0 < length grm.now.rule_names }
    requires some { 0 < length node.now.one.symbols.items }
    ensures { IfOk result (λ v. HasExpansions grm.now (node_of node.now)
        rule.0 (nodes_of v.items)) }
{
    let mut moves = Vec::new(grm.allocator());
    for pidx in grm.rule_to_prods(rule) {
        let one = expanded_side(grm, &node.one, *pidx)?;
        let states = node.states.as_slice();
        let made = node.with_one(grm.allocator(), one, states)?;
        moves.push(made)?;
    }
    Ok(moves)
}

/// The first of the symbols, if it is a rule.
fn first_rule(symbols: &[Symbol<u32>]) -> Option<RIdx<u32>>
    ensures { IfSome result (λ r. symbols_of symbols.now
        ≡ math.Rule r.0 ∷ drop 1 (symbols_of symbols.now)) }
{
    if symbols.is_empty() {
        return None;
    }
    match symbols[0] {
        Symbol::Rule(ridx) => Some(ridx),
        Symbol::Token(_) => None,
    }
}

/// The moves where the first symbol of the one way is a rule; None where it is not.
fn expand(
    grm: &YaccGrammar<u32>,
    graph: &StateGraph<u32>,
    node: &Node,
) -> Result<Option<Vec<Node>>, AllocError>
    ensures { IfOk result (λ o. AreMoves grm.now graph.now (node_of node.now)
        (option_map (λ v. nodes_of v.items) o)) }
{
    let Some(rule) = first_rule(node.one.symbols.as_slice()) else {
        return Ok(None);
    };
    if usize::from(rule) >= usize::from(grm.rules_len()) {
        return Ok(None);
    }
    let moves = expansions(grm, node, rule)?;
    Ok(Some(moves))
}

/// The dot before, if there is one.
fn dot_before(dot: SIdx<u32>) -> Option<SIdx<u32>>
    ensures { IfSome result (λ d. dot.0 ≡ suc d.0) }
{
    let place = dot.0.to_usize();
    if place == 0 {
        return None;
    }
    Some(SIdx(u32::from_usize(place - 1).unwrap()))
}

/// The side at this dot.
fn side_at(grm: &YaccGrammar<u32>, side: &Side, dot: SIdx<u32>) -> Result<Side, AllocError>
    ensures { IfOk result (λ x. side_of x ≡ record (side_of side.now) { dot = dot.0 }) }
{
    let symbols = Vec::from_slice(grm.allocator(), side.symbols.as_slice())?;
    Ok(Side {
        production: side.production,
        dot,
        symbols,
        is_cut: side.is_cut,
    })
}

/// The move where both go back over the symbol before their dots; None where there is none before one of these.
fn back(
    grm: &YaccGrammar<u32>,
    graph: &StateGraph<u32>,
    ways: &Ways<u32>,
    node: &Node,
) -> Result<Option<Vec<Node>>, AllocError>
    requires graph { IsGraphOf grm.now graph.now }
    requires ways { AreWaysOf number_of grm.now graph.now ways.now }
    ensures { IfOk result (λ o. AreMoves grm.now graph.now (node_of node.now)
        (option_map (λ v. nodes_of v.items) o)) }
{
    let Some(dot) = dot_before(node.one.dot) else {
        return Ok(None);
    };
    let Some(others) = dot_before(node.other.dot) else {
        return Ok(None);
    };
    let incoming = ways.incoming.as_slice();
    let after = node.states.as_slice();
    let states = states_before(grm, graph, incoming, after)?;
    let one = side_at(grm, &node.one, dot)?;
    let other = side_at(grm, &node.other, others)?;
    let mut moves = Vec::new(grm.allocator());
    moves.push(Node {
        one,
        other,
        states,
        next: node.next,
        left: node.left,
    })?;
    Ok(Some(moves))
}

/// The side at the dot of the item before a rule in which it stood, with these symbols behind its own, which are not known
/// where it is cut.
fn outside_side(
    grm: &YaccGrammar<u32>,
    side: &Side,
    item: (PIdx<u32>, SIdx<u32>),
    rest: &[Symbol<u32>],
) -> Result<Side, AllocError>
    ensures { IfOk result (λ x. side_of x ≡ outside (side_of side.now)
        item.0.0 item.1.0 (symbols_of rest.now)) }
{
    let behind = if side.is_cut { &rest[..0] } else { rest };
    let symbols = joined(grm.allocator(), side.symbols.as_slice(), behind)?;
    Ok(Side {
        production: item.0,
        dot: item.1,
        symbols,
        is_cut: side.is_cut,
    })
}

/// Adds the node with its one way out at the item, where that stands before the rule.
fn add_outside(
    moves: &mut Vec<Node>,
    grm: &YaccGrammar<u32>,
    graph: &StateGraph<u32>,
    node: &Node,
    item: (PIdx<u32>, SIdx<u32>),
    rule: RIdx<u32>,
) -> Result<(), AllocError>
    ensures kept { OnOk result (HasNodes (nodes_of moves.old.items) (nodes_of moves.new.items)) }
    ensures added { OnOk result (HasOutside graph.now grm.now (node_of node.now)
        rule.0 item.0.0 item.1.0
        (nodes_of moves.new.items)) }
{
    let production = usize::from(item.0);
    let count = usize::from(grm.prods_len());
    if production >= count {
        return Ok(());
    }
    let Some(next) = dot_behind(grm, item.0, item.1, &Symbol::Rule(rule)) else {
        return Ok(());
    };
    let body = grm.prod(item.0);
    let place = usize::from(next);
    let rest = &body[place..];
    let one = outside_side(grm, &node.one, item, rest)?;
    let all = node.states.as_slice();
    let states = states_with_item(grm, graph, all, item)?;
    let those = states.as_slice();
    let made = node.with_one(grm.allocator(), one, those)?;
    moves.push(made)?;
    Ok(())
}

/// The nodes with the one way out at each item before the rule, of which all are in the row.
fn outsides(
    grm: &YaccGrammar<u32>,
    graph: &StateGraph<u32>,
    node: &Node,
    rule: RIdx<u32>,
    row: &[(PIdx<u32>, SIdx<u32>)],
) -> Result<Vec<Node>, AllocError>
    requires { HasUsesOfRule grm.now rule.0 (keys_of number_of row.now) }
    ensures { IfOk result (λ v. HasAllOutside graph.now grm.now (node_of node.now)
        rule.0 (nodes_of v.items)) }
{
    let mut moves = Vec::new(grm.allocator());
    for item in row {
        add_outside(&mut moves, grm, graph, node, *item, rule)?;
    }
    Ok(moves)
}

/// The moves where the one way, its dot before its body, goes out to the items before its rule; None where it isn't before a
/// body, or is in the start item.
fn close(
    grm: &YaccGrammar<u32>,
    graph: &StateGraph<u32>,
    ways: &Ways<u32>,
    node: &Node,
) -> Result<Option<Vec<Node>>, AllocError>
    requires { AreWaysOf number_of grm.now graph.now ways.now }
    ensures { IfOk result (λ o. AreMoves grm.now graph.now (node_of node.now)
        (option_map (λ v. nodes_of v.items) o)) }
{
    let dot = usize::from(node.one.dot);
    if dot > 0 {
        return Ok(None);
    }
    let production = usize::from(node.one.production);
    let start = usize::from(grm.start_prod());
    if production == start {
        return Ok(None);
    }
    if production >= usize::from(grm.prods_len()) {
        return Ok(None);
    }
    let rule = grm.prod_to_rule(node.one.production);
    let uses = ways.uses.as_slice();
    let place = usize::from(rule);
    let row = uses[place].as_slice();
    let moves = outsides(grm, graph, node, rule, row)?;
    Ok(Some(moves))
}

/// The moves of the one way, or of both: where both derive something that the other has not met, its first symbol is replaced;
/// else both go back, or it goes out.
fn moves_of_one(
    grm: &YaccGrammar<u32>,
    graph: &StateGraph<u32>,
    ways: &Ways<u32>,
    node: &Node,
) -> Result<Option<Vec<Node>>, AllocError>
    requires graph { IsGraphOf grm.now graph.now }
    requires ways { AreWaysOf number_of grm.now graph.now ways.now }
    ensures { IfOk result (λ o. AreMoves grm.now graph.now (node_of node.now)
        (option_map (λ v. nodes_of v.items) o)) }
{
    if !node.one.symbols.is_empty() && !node.other.symbols.is_empty() {
        return expand(grm, graph, node);
    }
    match back(grm, graph, ways, node)? {
        Some(moves) => Ok(Some(moves)),
        None => close(grm, graph, ways, node),
    }
}

/// The moves of the other way.
fn moves_of_other(
    grm: &YaccGrammar<u32>,
    graph: &StateGraph<u32>,
    ways: &Ways<u32>,
    node: &Node,
) -> Result<Option<Vec<Node>>, AllocError>
    requires graph { IsGraphOf grm.now graph.now }
    requires ways { AreWaysOf number_of grm.now graph.now ways.now }
    ensures { IfOk result (λ o. AreMoves grm.now graph.now (node_of node.now)
        (option_map (λ v. nodes_of v.items) o)) }
{
    let swapped = node.swapped(grm.allocator())?;
    moves_of_one(grm, graph, ways, &swapped)
}

/// The nodes to one of which each two ways that stand as the node says proceed: those of a move that is always there. None where
/// there is no such move. A way of which nothing is left to meet goes out first.
pub(crate) fn moves(
    grm: &YaccGrammar<u32>,
    graph: &StateGraph<u32>,
    ways: &Ways<u32>,
    node: &Node,
) -> Result<Option<Vec<Node>>, AllocError>
    requires graph { IsGraphOf grm.now graph.now }
    requires ways { AreWaysOf number_of grm.now graph.now ways.now }
    ensures { IfOk result (λ o. AreMoves grm.now graph.now (node_of node.now)
        (option_map (λ v. nodes_of v.items) o)) }
{
    if node.one.symbols.is_empty() {
        return match moves_of_one(grm, graph, ways, node)? {
            Some(moves) => Ok(Some(moves)),
            None => moves_of_other(grm, graph, ways, node),
        };
    }
    match moves_of_other(grm, graph, ways, node)? {
        Some(moves) => Ok(Some(moves)),
        None => moves_of_one(grm, graph, ways, node),
    }
}
