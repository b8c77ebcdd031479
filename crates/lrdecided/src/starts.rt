//! How two ways may stand that go on with given moves.

ghost use Rattle.std.specs.Prelude.{◌≡◌, ◌<◌, length, Contains, IfOk, OnOk, IfSome};
ghost use Rattle.lrspec.specs.merging.Graph.{IsGraphOf};
ghost use Rattle.lrconflicts.specs.Moves.{Shift};
ghost use Rattle.lrconflicts.specs.StoredMoves.{move_of};
ghost use Rattle.lrsearches.specs.StoredWays.{AreFingerprints};
ghost use Rattle.lrgrammar.specs.Symbols.{number_of};
ghost use Rattle.lrdecided.specs.Moved.{HasNodes};
ghost use Rattle.lrdecided.specs.Starts.{reduced, HasCores, HasSide, HasSides, KeepsSides, HasStarts, HasStartsOf};
ghost use Rattle.lrdecided.specs.StoredNodes.{side_of, sides_of, states_of, nodes_of};

use crate::nodes::{Node, Side};
use lrclosing::items::dot_behind;
use lrconflicts::Move;
use lrgrammar::grammar::YaccGrammar;
use lrgrammar::idx::{IndexStorage, PIdx, SIdx, StIdx, Symbol, TIdx};
use lrgraphs::stategraph::StateGraph;
use std::alloc::{AllocError, Global};

/// The states with the core of the state, and those that can't be told from them.
pub(crate) fn states_with_core(
    grm: &YaccGrammar<u32>,
    graph: &StateGraph<u32>,
    fingerprints: &[u64],
    state: StIdx<u32>,
) -> Result<Vec<StIdx<u32>>, AllocError>
    requires fingerprints { AreFingerprints graph.now fingerprints.now }
    requires state { state.0 < length graph.now }
    ensures { IfOk result (λ v. HasCores graph.now state.0 (states_of v.items)) }
{
    let place = usize::from(state);
    let fingerprint = fingerprints[place];
    let mut states = Vec::new(grm.allocator());
    for number in 0..graph.all_states_len().0.to_usize() {
        let other = fingerprints[number];
        if other != fingerprint {
            continue;
        }
        states.push(StIdx(u32::from_usize(number).unwrap()))?;
    }
    Ok(states)
}

/// Adds the side at the dot of the item, if that stands before the token.
fn add_side(
    sides: &mut Vec<Side>,
    grm: &YaccGrammar<u32>,
    item: (PIdx<u32>, SIdx<u32>),
    token: TIdx<u32>,
) -> Result<(), AllocError>
    ensures kept { OnOk result (KeepsSides (sides_of sides.old.items) (sides_of sides.new.items)) }
    ensures added { OnOk result (HasSide grm.now item.0.0 item.1.0
        token.0 (sides_of sides.new.items)) }
{
    let production = usize::from(item.0);
    let count = usize::from(grm.prods_len());
    if production >= count {
        return Ok(());
    }
    let Some(_next) = dot_behind(grm, item.0, item.1, &Symbol::Token(token)) else {
        return Ok(());
    };
    let body = grm.prod(item.0);
    let place = usize::from(item.1);
    let rest = &body[place..];
    let symbols = Vec::from_slice(grm.allocator(), rest)?;
    sides.push(Side {
        production: item.0,
        dot: item.1,
        symbols,
        is_cut: false,
    })?;
    Ok(())
}

/// How a way may stand that goes on with the shift of the token in the state.
fn shifts(
    grm: &YaccGrammar<u32>,
    graph: &StateGraph<u32>,
    state: StIdx<u32>,
    token: TIdx<u32>,
) -> Result<Vec<Side>, AllocError>
    requires { state.0 < length graph.now }
    ensures { IfOk result (λ v. HasSides grm.now graph.now state.0 token.0
        Shift (sides_of v.items)) }
{
    let mut sides = Vec::new(grm.allocator());
    for (key, _ctx) in &graph.closed_state(state).items {
        add_side(&mut sides, grm, *key, token)?;
    }
    Ok(sides)
}

/// How a way stands that goes on with the reduction.
fn reduction(grm: &YaccGrammar<u32>, pidx: PIdx<u32>) -> Result<Vec<Side>, AllocError>
    requires { pidx.0 < length grm.now.productions }
    ensures { IfOk result (λ v. Contains (sides_of v.items) (reduced grm.now pidx.0)) }
{
    let dot = grm.prod_len(pidx);
    let symbols = Vec::new(grm.allocator());
    let mut sides = Vec::new(grm.allocator());
    sides.push(Side {
        production: pidx,
        dot,
        symbols,
        is_cut: false,
    })?;
    Ok(sides)
}

/// How a way may stand that goes on with the move in the state on the token; None where there is no such production.
pub(crate) fn sides_before(
    grm: &YaccGrammar<u32>,
    graph: &StateGraph<u32>,
    state: StIdx<u32>,
    token: TIdx<u32>,
    action: Move<u32>,
) -> Result<Option<Vec<Side>>, AllocError>
    requires { state.0 < length graph.now }
    ensures { IfOk result (λ o. IfSome o (λ v. HasSides grm.now graph.now state.0
        token.0 (move_of number_of action) (sides_of v.items))) }
{
    match action {
        Move::Shift => {
            let sides = shifts(grm, graph, state, token)?;
            Ok(Some(sides))
        }
        Move::Reduce(pidx) => {
            if usize::from(pidx) >= usize::from(grm.prods_len()) {
                return Ok(None);
            }
            let sides = reduction(grm, pidx)?;
            Ok(Some(sides))
        }
    }
}

/// Adds the nodes of the one side with each of the others.
fn add_starts(
    starts: &mut Vec<Node>,
    alloc: Global,
    one: &Side,
    others: &[Side],
    states: &[StIdx<u32>],
    token: TIdx<u32>,
    left: Option<usize>,
) -> Result<(), AllocError>
    ensures kept { OnOk result (HasNodes (nodes_of starts.old.items) (nodes_of starts.new.items)) }
    ensures added { OnOk result (HasStartsOf (side_of one.now)
        (sides_of others.now) (states_of states.now) token.0 left
        (nodes_of starts.new.items)) }
{
    for other in others {
        let first = one.copied(alloc)?;
        let second = other.copied(alloc)?;
        let all = Vec::from_slice(alloc, states)?;
        starts.push(Node {
            one: first,
            other: second,
            states: all,
            next: Some(token),
            left,
        })?;
    }
    Ok(())
}

/// The nodes of each of the first sides with each of the second.
pub(crate) fn starts(
    alloc: Global,
    ones: &[Side],
    others: &[Side],
    states: &[StIdx<u32>],
    token: TIdx<u32>,
    left: Option<usize>,
) -> Result<Vec<Node>, AllocError>
    ensures { IfOk result (λ v. HasStarts (sides_of ones.now)
        (sides_of others.now) (states_of states.now) token.0 left
        (nodes_of v.items)) }
{
    let mut starts = Vec::new(alloc);
    for one in ones {
        add_starts(&mut starts, alloc, one, others, states, token, left)?;
    }
    Ok(starts)
}
