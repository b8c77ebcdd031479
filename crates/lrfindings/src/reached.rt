//! To which states a parser can come where precedences take shifts away: a depth-first search from the start state, along the edges
//! that stay. As Bison does it, the other states are left out, with what meets in them.

ghost use Rattle.std.specs.Prelude.{◌≡◌, ◌==◌, ℕ, ◌<◌, filter, map, length, Some, IfOk, OnOk};
ghost use Rattle.std.specs.List.{list_any, range_with_len};
ghost use Rattle.lrspec.specs.grammars.Grammar as math;
ghost use Rattle.lrspec.specs.merging.Graph.{edge};
ghost use Rattle.lrgrammar.specs.Bits.{bit};
ghost use Rattle.lrgrammar.specs.declared.idx.Symbol.{Symbol};
ghost use Rattle.lrgrammar.specs.Symbols.{number_of, symbol_of};
ghost use Rattle.lrpager.specs.Collecting.{IsMarked, MarksOnly};
ghost use Rattle.lrfindings.specs.Cells.{has_cell};
ghost use Rattle.lrfindings.specs.ReachedStates.{is_taken_away, stays, StaysTo, AreMarked, is_unreduced};
ghost use Rattle.lrfindings.specs.StoredCells.{resolution};

use crate::cells::{Outcome, Resolved};
use lrgrammar::grammar::YaccGrammar;
use lrgrammar::idx::{StIdx, Symbol};
use lrgrammar::vob::Vob;
use lrgraphs::stategraph::StateGraph;
use lrverdicts::Entry;
use std::alloc::{AllocError, Global};
use std::collections::BTreeSet;

/// The states and tokens of the shifts that precedences take away.
fn taken_away(alloc: Global, resolved: &[Resolved]) -> Result<BTreeSet<(usize, usize)>, AllocError>
    ensures { IfOk result (λ cells. (s t : ℕ) →
        has_cell cells s t ≡ is_taken_away (map resolution resolved.now) s t) }
{
    let mut cells = BTreeSet::new(alloc);
    for one in resolved {
        if Outcome::Won(one.winner).leaves_shift() {
            continue;
        }
        cells.insert((one.entry.state, one.entry.token))?;
    }
    Ok(cells)
}

/// Whether the edge of a state on a symbol stays where these shifts are taken away.
fn stays(taken: &BTreeSet<(usize, usize)>, state: StIdx<u32>, symbol: Symbol<u32>) -> bool
    ensures { result ≡ stays (has_cell taken.now) state.0 (symbol_of number_of symbol) }
{
    match symbol {
        Symbol::Rule(_) => true,
        Symbol::Token(token) => !taken.contains(&(usize::from(state), usize::from(token))),
    }
}

/// Marks a state, whose edges are to be followed if it wasn't marked.
fn mark(marks: &mut Vob, todo: &mut Vec<StIdx<u32>>, state: StIdx<u32>) -> Result<(), AllocError>
    requires { state.0 < length marks.old }
    ensures marked { OnOk result (IsMarked marks.new state.0) }
    ensures only { OnOk result (MarksOnly (λ k. k ≡ state.0)
        marks.old (map (λ u. u.0) todo.old.items) marks.new (map (λ u. u.0) todo.new.items)) }
{
    if marks.set(usize::from(state), true) {
        todo.push(state)?;
    }
    Ok(())
}

/// Marks the states to which the edges of a state lead that stay.
fn mark_targets(
    marks: &mut Vob,
    todo: &mut Vec<StIdx<u32>>,
    taken: &BTreeSet<(usize, usize)>,
    graph: &StateGraph<u32>,
    from: StIdx<u32>,
) -> Result<(), AllocError>
    requires from { from.0 < length graph.now }
    requires states { length marks.old ≡ length graph.now }
    requires targets { (s u : ℕ) (x : math.Symbol) → edge graph.now s x ≡ Some u
        → u < length graph.now }
    ensures marked { OnOk result ((u : ℕ) → StaysTo (has_cell taken.now) graph.now from.0 u
        → IsMarked marks.new u) }
    ensures only { OnOk result (MarksOnly (StaysTo (has_cell taken.now) graph.now from.0)
        marks.old (map (λ u. u.0) todo.old.items) marks.new (map (λ u. u.0) todo.new.items)) }
{
    for (symbol, to) in graph.edges(from) {
        if stays(taken, from, *symbol) {
            mark(marks, todo, *to)?;
        }
    }
    Ok(())
}

/// Marks the states that are reached where these shifts are taken away.
fn mark_reached(
    alloc: Global,
    graph: &StateGraph<u32>,
    taken: &BTreeSet<(usize, usize)>,
) -> Result<Vob, AllocError>
    requires some { 0 < length graph.now }
    requires targets { (s u : ℕ) (x : math.Symbol) → edge graph.now s x ≡ Some u
        → u < length graph.now }
    ensures { IfOk result (λ marks. AreMarked (has_cell taken.now) graph.now marks) }
{
    let mut marks = Vob::from_elem(alloc, false, usize::from(graph.all_states_len()))?;
    let mut todo = Vec::new(alloc);
    mark(&mut marks, &mut todo, graph.start_state())?;
    while let Some(state) = todo.pop() {
        mark_targets(&mut marks, &mut todo, taken, graph, state)?;
    }
    Ok(marks)
}

/// The states of a graph that are reached by what precedences resolve in it: a bit for each.
pub(crate) fn reached(
    alloc: Global,
    graph: &StateGraph<u32>,
    resolved: &[Resolved],
) -> Result<Vob, AllocError>
    requires some { 0 < length graph.now }
    requires targets { (s u : ℕ) (x : math.Symbol) → edge graph.now s x ≡ Some u
        → u < length graph.now }
    ensures { IfOk result (λ marks.
        AreMarked (is_taken_away (map resolution resolved.now)) graph.now marks) }
{
    let taken = taken_away(alloc, resolved)?;
    let marks = mark_reached(alloc, graph, &taken)?;
    Ok(marks)
}

/// Whether a state is marked.
fn is_marked(marks: &Vob, state: usize) -> bool
    ensures { result ≡ bit marks.now state }
{
    state < marks.len() && marks.get(state)
}

/// The conflicts in the states that are marked.
pub(crate) fn left_in(
    alloc: Global,
    marks: &Vob,
    entries: &[Entry],
) -> Result<Vec<Entry>, AllocError>
    ensures { IfOk result (λ v. v.items ≡ filter (λ e. bit marks.now e.state) entries.now) }
{
    let mut left = Vec::new(alloc);
    for entry in entries {
        if is_marked(marks, entry.state) {
            left.push(*entry)?;
        }
    }
    Ok(left)
}

/// What is resolved in the states that are marked.
pub(crate) fn resolved_in(
    alloc: Global,
    marks: &Vob,
    resolved: &[Resolved],
) -> Result<Vec<Resolved>, AllocError>
    ensures { IfOk result (λ v.
        v.items ≡ filter (λ r. bit marks.now r.entry.state) resolved.now) }
{
    let mut kept = Vec::new(alloc);
    for one in resolved {
        if is_marked(marks, one.entry.state) {
            kept.push(*one)?;
        }
    }
    Ok(kept)
}

/// The states that are marked with the productions by which they reduce.
pub(crate) fn reduced_in(
    alloc: Global,
    marks: &Vob,
    reduced: &[(usize, usize)],
) -> Result<Vec<(usize, usize)>, AllocError>
    ensures { IfOk result (λ v. v.items ≡ filter (λ m. bit marks.now m.0) reduced.now) }
{
    let mut kept = Vec::new(alloc);
    for one in reduced {
        if is_marked(marks, one.0) {
            kept.push(*one)?;
        }
    }
    Ok(kept)
}

/// A bit for each production of a grammar: whether a state reduces by it.
fn reduced_bits(grm: &YaccGrammar<u32>, reduced: &[(usize, usize)]) -> Result<Vob, AllocError>
    ensures { IfOk result (λ v. (p : ℕ) → p < length grm.now.productions
        → bit v p ≡ list_any (λ m. m.1 == p) reduced.now) }
{
    let mut bits = Vob::from_elem(grm.allocator(), false, usize::from(grm.prods_len()))?;
    for one in reduced {
        if one.1 >= bits.len() {
            continue;
        }
        bits.set(one.1, true);
    }
    Ok(bits)
}

/// The productions of a grammar by which none of the states reduces, but for the start production.
pub(crate) fn unreduced_of(
    grm: &YaccGrammar<u32>,
    reduced: &[(usize, usize)],
) -> Result<Vec<usize>, AllocError>
    ensures { IfOk result (λ v. v.items
        ≡ filter (is_unreduced grm.now.start_production reduced.now)
        (range_with_len 0 (length grm.now.productions))) }
{
    let bits = reduced_bits(grm, reduced)?;
    let start = usize::from(grm.start_prod());
    let mut unreduced = Vec::new(grm.allocator());
    for production in 0..usize::from(grm.prods_len()) {
        if production == start {
            continue;
        }
        if is_marked(&bits, production) {
            continue;
        }
        unreduced.push(production)?;
    }
    Ok(unreduced)
}
