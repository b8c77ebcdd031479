//! The graph of the states that are reached.

ghost use Rattle.std.specs.Prelude.{◌≡◌, ℕ, ◌<◌, ◌≤◌, Bool, List, Some, length, count_by, sum_by, slice_get, slice_index, filter, IfOk, IfErr, OnOk};
ghost use Rattle.std.specs.BTreeMap.{btree_map_len};
ghost use Rattle.std.specs.List.{All};
ghost use Rattle.lrspec.specs.grammars.Grammar as math;
ghost use Rattle.lrspec.specs.merging.Graph.{Graph, IsInOrder};
ghost use Rattle.lrspec.specs.grammars.ItemSets.{Fits, AreUpwards};
ghost use Rattle.lrgrammar.specs.Firsts.{AreFirstsOf};
ghost use Rattle.lrclosing.specs.Closer.{IsCloserOf};
ghost use Rattle.lritems.specs.ItemsOf.{set_of, listed_of};
ghost use Rattle.lrplacing.specs.Construction.{core_at, draft_edges, edge_from, HasEdgesOnce};
ghost use Rattle.lrgraphs.specs.GraphOf.{edges_of, state_of, graph_of};
ghost use Rattle.lrplacing.specs.Refusals.{IsLargeOnly};
ghost use Rattle.lrpager.specs.Collecting.{ReachedAreMarked, IsCollected, LeadToStates, IsMarked, HasTarget, MarksOnly, AreNewNumbers, HaveDistinctTargets, AreRenumbered, OnlyStartsAtZero};
ghost use Rattle.lrpager.specs.Keeping.{is_complete, kept_closed, kept_core, kept_states, IsKeptClosure, IsKeptState};

use lrclosing::closer::Closer;
use lrclosing::listing::closed_items;
use lrgrammar::firsts::YaccFirsts;
use lrgrammar::grammar::YaccGrammar;
use lrgrammar::idx::{IndexStorage, PIdx, SIdx, StIdx, Symbol};
use lrgrammar::vob::Vob;
use lrgraphs::BuildError;
use lrgraphs::stategraph::{State, StateGraph};
use lritems::cores::Core;
use lritems::gotos::to_itemset;
use lritems::itemset::{Ctx, Itemset};
use lrplacing::draft::Draft;
use std::alloc::{AllocError, Global};
use std::collections::BTreeMap;

/// What is kept of the states that are reached.
#[derive(Clone, Copy)]
pub(crate) enum Kept {
    /// All of them, for a graph.
    Everything,
    /// Their complete items and their edges, for an outline.
    Outline,
}

/// Marks a state, whose edges are to be followed if it wasn't marked.
fn mark(marks: &mut Vob, todo: &mut Vec<usize>, state: usize) -> Result<(), AllocError>
    requires { state < length marks.old }
    ensures marked { OnOk result (IsMarked marks.new state) }
    ensures only { OnOk result
        (MarksOnly (λ k. k ≡ state) marks.old todo.old.items marks.new todo.new.items) }
{
    if marks.set(state, true) {
        todo.push(state)?;
    }
    Ok(())
}

/// Marks the states to which the edges lead.
fn mark_targets<T: IndexStorage>(
    marks: &mut Vob,
    todo: &mut Vec<usize>,
    edges: &[(Symbol<T>, usize)],
) -> Result<(), AllocError>
    requires once { HasEdgesOnce (edges_of T.number (λ u. u) edges.now) }
    requires below { (u : ℕ) → HasTarget (edges_of T.number (λ u. u) edges.now) u
        → u < length marks.old }
    ensures marked { OnOk result ((u : ℕ)
        → HasTarget (edges_of T.number (λ u. u) edges.now) u → IsMarked marks.new u) }
    ensures only { OnOk result (MarksOnly (HasTarget (edges_of T.number (λ u. u) edges.now))
        marks.old todo.old.items marks.new todo.new.items) }
{
    for (_symbol, target) in edges {
        mark(marks, todo, *target)?;
    }
    Ok(())
}

/// The edges of the state `k`.
fn edges_at<T: IndexStorage>(drafts: &[Draft<T>], k: usize) -> &[(Symbol<T>, usize)]
    requires { k < length drafts.now }
    ensures edges { edges_of T.number (λ u. u) result.now ≡ draft_edges (slice_get drafts.now k) }
    ensures once { HasEdgesOnce (edges_of T.number (λ u. u) result.now) }
{
    drafts[k].edges()
}

/// Marks the states that are reached from the first one.
fn mark_reached<T: IndexStorage>(alloc: Global, drafts: &[Draft<T>]) -> Result<Vob, AllocError>
    requires some { 0 < length drafts.now }
    requires below { LeadToStates drafts.now }
    ensures { IfOk result (λ marks. ReachedAreMarked drafts.now marks) }
{
    let mut marks = Vob::from_elem(alloc, false, drafts.len())?;
    let mut todo = Vec::new(alloc);
    mark(&mut marks, &mut todo, 0)?;
    while let Some(k) = todo.pop() {
        mark_targets(&mut marks, &mut todo, edges_at(drafts, k))?;
    }
    Ok(marks)
}

/// The new numbers of the states, and how many states are marked.
fn new_numbers(alloc: Global, marks: &Vob) -> Result<(Vec<usize>, usize), AllocError>
    ensures numbers { IfOk result (λ r. AreNewNumbers marks.now r.0.items) }
    ensures count { IfOk result (λ r. r.1 ≡ count_by (λ b. b) marks.now) }
{
    let mut numbers = Vec::new(alloc);
    let mut next: usize = 0;
    for k in 0..marks.len() {
        numbers.push(next)?;
        if marks.get(k) {
            next += 1;
        }
    }
    Ok((numbers, next))
}

/// The edges, which lead to the new numbers of the states: a map that is made at once, as it takes less time and memory than one
/// into which they are put one by one.
fn renumber_edges<T: IndexStorage>(
    alloc: Global,
    edges: &[(Symbol<T>, usize)],
    numbers: &[usize],
) -> Result<BTreeMap<Symbol<T>, StIdx<T>>, AllocError>
    requires once { HasEdgesOnce (edges_of T.number (λ u. u) edges.now) }
    requires apart { HaveDistinctTargets (length numbers.now)
        (edges_of T.number (λ u. u) edges.now) }
    requires most { (k : ℕ) → k < length numbers.now → slice_index numbers.now k ≤ T.MAX }
    ensures edges { IfOk result (λ es. AreRenumbered (slice_index numbers.now)
        (edges_of T.number (λ u. u) edges.now)
        (edges_of T.number (λ u. T.number u.0) es.entries)) }
    ensures len { IfOk result (λ es. btree_map_len es ≤ length numbers.now) }
{
    let mut pairs = Vec::with_capacity(alloc, edges.len())?;
    for (symbol, target) in edges {
        let number = StIdx(T::from_usize(numbers[*target]).unwrap());
        pairs.push((*symbol, number))?;
    }
    BTreeMap::from_iter(alloc, pairs)
}

/// The complete ones of the items.
fn complete_items<'a, T: IndexStorage>(
    grm: &YaccGrammar<T>,
    items: &[((PIdx<T>, SIdx<T>), &'a Ctx)],
) -> Result<Vec<((PIdx<T>, SIdx<T>), &'a Ctx)>, AllocError>
    requires fits { Fits grm.now (listed_of T.number items.now) }
    requires upwards { AreUpwards (listed_of T.number items.now) }
    ensures { IfOk result (λ v. listed_of T.number v.items
        ≡ filter (is_complete grm.now) (listed_of T.number items.now)) }
{
    let mut complete = Vec::new(grm.allocator());
    for (key, ctx) in items {
        if key.1 == grm.prod_len(key.0) {
            complete.push((*key, *ctx))?;
        }
    }
    Ok(complete)
}

/// What is kept of the items of a closed state.
fn kept_items<'a, T: IndexStorage>(
    kept: Kept,
    grm: &YaccGrammar<T>,
    closed: Vec<((PIdx<T>, SIdx<T>), &'a Ctx)>,
) -> Result<Vec<((PIdx<T>, SIdx<T>), &'a Ctx)>, AllocError>
    requires fits { Fits grm.now (listed_of T.number closed.items) }
    requires upwards { AreUpwards (listed_of T.number closed.items) }
    ensures { IfOk result (λ v. listed_of T.number v.items
        ≡ kept_closed kept grm.now (listed_of T.number closed.entry.items)) }
{
    match kept {
        Kept::Everything => Ok(closed),
        Kept::Outline => complete_items(grm, closed.as_slice()),
    }
}

/// What is kept of the closed state of a core. The error says that memory was refused.
fn closed_state<T: IndexStorage>(
    closer: &mut Closer,
    core: &Core<T>,
    grm: &YaccGrammar<T>,
    firsts: &YaccFirsts<T>,
    kept: Kept,
) -> Result<Itemset<T>, AllocError>
    requires fits { Fits grm.now core.now }
    requires of { AreFirstsOf grm.now firsts.now }
    requires closer { IsCloserOf grm.now closer.old }
    requires starts { OnlyStartsAtZero grm.now core.now }
    ensures closure { IfOk result (λ s. IsKeptClosure kept grm.now core.now (set_of T.number s)) }
    ensures closer { IsCloserOf grm.now closer.new }
{
    let given = core.items();
    closer.close(grm, firsts, given);
    let closed = closed_items(given, grm, closer)?;
    let items = kept_items(kept, grm, closed)?;
    to_itemset(grm.allocator(), items.as_slice())
}

/// What is kept of a core.
fn core_kept<T: IndexStorage>(
    alloc: Global,
    core: Core<T>,
    kept: Kept,
) -> Result<Itemset<T>, AllocError>
    ensures { IfOk result (λ s. set_of T.number s ≡ kept_core kept core) }
{
    match kept {
        Kept::Everything => core.into_itemset(alloc),
        Kept::Outline => Ok(Itemset {
            items: BTreeMap::new(alloc),
        }),
    }
}

/// What is kept of the state, with edges that lead to the new numbers of the states.
fn renumber_state<T: IndexStorage>(
    draft: Draft<T>,
    closer: &mut Closer,
    grm: &YaccGrammar<T>,
    firsts: &YaccFirsts<T>,
    numbers: &[usize],
    kept: Kept,
) -> Result<State<T>, AllocError>
    requires fits { Fits grm.now draft.core }
    requires starts { OnlyStartsAtZero grm.now draft.core }
    requires of { AreFirstsOf grm.now firsts.now }
    requires closer { IsCloserOf grm.now closer.old }
    requires apart { HaveDistinctTargets (length numbers.now) draft.edges }
    requires most { (k : ℕ) → k < length numbers.now → slice_index numbers.now k ≤ T.MAX }
    ensures renumbered { IfOk result (λ s.
        IsKeptState kept grm.now (slice_index numbers.now) draft (state_of T.number s)) }
    ensures order { IfOk result (λ s. IsInOrder (state_of T.number s)) }
    ensures len { IfOk result (λ s. btree_map_len s.edges ≤ length numbers.now) }
    ensures closer { IsCloserOf grm.now closer.new }
{
    let alloc = grm.allocator();
    let closed = closed_state(closer, draft.core(), grm, firsts, kept)?;
    let edges = renumber_edges(alloc, draft.edges(), numbers)?;
    let state = State {
        core: core_kept(alloc, draft.core, kept)?,
        closed,
        edges,
    };
    // for what the graph keeps of each state
    state.in_order();
    Ok(state)
}

/// What is kept of the marked states, in their order with new numbers, and how many edges they have.
fn marked_states<T: IndexStorage>(
    drafts: Vec<Draft<T>>,
    closer: &mut Closer,
    grm: &YaccGrammar<T>,
    firsts: &YaccFirsts<T>,
    marks: &Vob,
    numbers: &[usize],
    kept: Kept,
) -> Result<(Vec<State<T>>, usize), AllocError>
    requires below { LeadToStates drafts.items }
    requires one_symbol { (k u : ℕ) (x y : math.Symbol) → edge_from drafts.items k x ≡ Some u
        → edge_from drafts.items k y ≡ Some u → x ≡ y }
    requires fits { (k : ℕ) → k < length drafts.items → Fits grm.now (core_at drafts.items k) }
    requires starts { (k : ℕ) → k < length drafts.items
        → OnlyStartsAtZero grm.now (core_at drafts.items k) }
    requires of { AreFirstsOf grm.now firsts.now }
    requires closer { IsCloserOf grm.now closer.old }
    requires most { length drafts.items ≤ T.MAX }
    requires marks { length marks.now ≡ length drafts.items }
    requires numbers { AreNewNumbers marks.now numbers.now }
    ensures collected { IfOk result (λ r. (h : Graph) × IsCollected grm.now drafts.items marks.now h
        × (graph_of T.number r.0.items ≡ kept_states kept grm.now h)) }
    ensures len { IfOk result (λ r. length r.0.items ≡ count_by (λ b. b) marks.now) }
    ensures order { IfOk result (λ r. All IsInOrder (graph_of T.number r.0.items)) }
    ensures edges { IfOk result (λ r. r.1
        ≡ sum_by (λ s. length s.edges) (graph_of T.number r.0.items)) }
{
    let mut states = Vec::new(grm.allocator());
    let mut edges_len: usize = 0;
    let mut k: usize = 0;
    for draft in drafts {
        let is_marked = marks.get(k);
        k += 1;
        if !is_marked {
            continue;
        }
        let state = renumber_state(draft, closer, grm, firsts, numbers, kept)?;
        edges_len += state.edges.len();
        states.push(state)?;
    }
    Ok((states, edges_len))
}

/// The graph of what is kept of the states that are reached, in their order and numbered anew.
pub(crate) fn collect<T: IndexStorage>(
    drafts: Vec<Draft<T>>,
    closer: &mut Closer,
    grm: &YaccGrammar<T>,
    firsts: &YaccFirsts<T>,
    kept: Kept,
) -> Result<StateGraph<T>, BuildError<T>>
    requires some { 0 < length drafts.items }
    requires below { (k u : ℕ) (x : math.Symbol) → edge_from drafts.items k x ≡ Some u
        → u < length drafts.items }
    requires one_symbol { (k u : ℕ) (x y : math.Symbol) → edge_from drafts.items k x ≡ Some u
        → edge_from drafts.items k y ≡ Some u → x ≡ y }
    requires fits { (k : ℕ) → k < length drafts.items → Fits grm.now (core_at drafts.items k) }
    requires starts { (k : ℕ) → k < length drafts.items
        → OnlyStartsAtZero grm.now (core_at drafts.items k) }
    requires of { AreFirstsOf grm.now firsts.now }
    requires closer { IsCloserOf grm.now closer.old }
    requires most { length drafts.items ≤ T.MAX }
    ensures collected { IfOk result (λ k. (h : Graph) × (marks : List Bool)
        × ReachedAreMarked drafts.items marks × IsCollected grm.now drafts.items marks h
        × (k ≡ kept_states kept grm.now h)) }
    ensures states { IfOk result (λ h. length h < T.MAX) }
    ensures refused { IfErr result (IsLargeOnly (T.MAX ≤ length drafts.items)) }
    ensures large { IfErr result (IsLargeOnly ((marks : List Bool)
        × ReachedAreMarked drafts.items marks × (T.MAX ≤ count_by (λ b. b) marks))) }
{
    let alloc = *drafts.allocator();
    let marks = mark_reached(alloc, drafts.as_slice())?;
    let (numbers, count) = new_numbers(alloc, &marks)?;
    if count >= T::MAX {
        return Err(BuildError::TooLarge);
    }
    let (states, edges_len) = marked_states(
        drafts,
        closer,
        grm,
        firsts,
        &marks,
        numbers.as_slice(),
        kept,
    )?;
    Ok(StateGraph::new(states, edges_len))
}
