//! Pager's construction of the state graph of a grammar: states are closed one after another, and each goto of a closed
//! state is placed at an equal state, at one that takes it in, or at a new one.
//!
//! The rule by which states are merged is David Pager's (A practical general method for constructing LR(k) parsers, Acta
//! Informatica 7, 1977), in the form of Xin Chen's thesis (Measuring and extending LR(1) parser generation, University of
//! Hawaii, 2009).

ghost use Rattle.std.specs.Prelude.{◌≡◌, ℕ, ◌+◌, ◌*◌, ◌<◌, ◌≤◌, false, length, IfOk, IfErr, OnOk, MatchOption};
ghost use Rattle.lrspec.specs.grammars.Grammar.{item_count, token_count};
ghost use Rattle.lrgrammar.specs.Firsts.{AreFirstsOf};
ghost use Rattle.lrgrammar.specs.GrammarSizes.{IsWithin};
ghost use Rattle.lrplacing.specs.Construction.{core_at, closed_at};
ghost use Rattle.lrpager.specs.Choices.{NoneUnclosedFrom, IsFirstUnclosedFrom, IsNextUnclosed, ClosesAll};
ghost use Rattle.lrplacing.specs.Counts.{unclosed, weight};
ghost use Rattle.lrplacing.specs.Invariant.{Holds, HasGotos, AreClosed};
ghost use Rattle.lrplacing.specs.CandidatesOf.{AreCandidates};
ghost use Rattle.lrpager.specs.Closing.{IsTurn, StartsWith, AreToolsFor};
ghost use Rattle.lrspec.specs.merging.Merged.{IsMerged, AreCounts};
ghost use Rattle.lrspec.specs.merging.Chains.{HasChainOf};
ghost use Rattle.lrspec.specs.merging.Graph.{Graph};
ghost use Rattle.lrgraphs.specs.Outlines.{IsOutlineOf};
ghost use Rattle.lrpager.specs.Keeping.{kept_of, kept_states, IsBuiltOf};
ghost use Rattle.lrplacing.specs.Refusals.{IsLargeOnly};

mod collecting;
mod contested;

use crate::pager::collecting::{Kept, collect};
use crate::pager::contested::is_contested;
use lrclosing::closer::Closer;
use lrclosing::listing::closed_items;
use lrgrammar::firsts::YaccFirsts;
use lrgrammar::grammar::YaccGrammar;
use lrgrammar::idx::IndexStorage;
use lrgraphs::outline::Outline;
use lrgraphs::{BuildError, StateGraph};
use lritems::cores::Core;
use lritems::fingerprints::core_fingerprint;
use lritems::gotos::{PlacesBySymbol, gotos};
use lrplacing::candidates::Candidates;
use lrplacing::draft::Draft;
use lrplacing::placing::place_all;
use std::alloc::AllocError;

/// What all closings use.
#[derive(Drop)]
struct Tools {
    /// It keeps the rows of the last closing.
    closer: Closer,
    /// Places for the gotos of one state.
    places: PlacesBySymbol,
    /// Whether a contested state is sought and wasn't found.
    seeks_contested: bool,
}

impl Tools {
    /// Tools for the grammar. The error says that memory was refused.
    fn new<T: IndexStorage>(
        grm: &YaccGrammar<T>,
        firsts: &YaccFirsts<T>,
        seeks_contested: bool,
    ) -> Result<Tools, AllocError>
        requires of { AreFirstsOf grm.now firsts.now }
        ensures { IfOk result (AreToolsFor grm.now) }
    {
        Ok(Tools {
            closer: Closer::new(grm, firsts)?,
            places: PlacesBySymbol::new(grm)?,
            seeks_contested,
        })
    }
}

/// The first unclosed state from `from` on.
fn first_unclosed<T: IndexStorage>(drafts: &[Draft<T>], from: usize) -> Option<usize>
    ensures { MatchOption result (NoneUnclosedFrom drafts.now from)
        (IsFirstUnclosedFrom drafts.now from) }
{
    for i in from..drafts.len() {
        if !drafts[i].is_closed() {
            return Some(i);
        }
    }
    None
}

/// The next state to close: the first unclosed one from `from` on, or else the first unclosed one. So states are closed in
/// rounds, in the order in which they were made, and one that grows several times in a round is closed once more and not as
/// often. The states' numbers come from this order, which is that of the Rust crate.
fn next_unclosed<T: IndexStorage>(drafts: &[Draft<T>], from: usize) -> Option<usize>
    ensures { MatchOption result (AreClosed drafts.now) (IsNextUnclosed drafts.now from) }
{
    if let Some(i) = first_unclosed(drafts, from) {
        return Some(i);
    }
    first_unclosed(drafts, 0)
}

/// Closes a state, and places its gotos. Where that grows its own core, it is to be closed again.
fn close<T: IndexStorage>(
    drafts: &mut Vec<Draft<T>>,
    candidates: &mut Candidates,
    tools: &mut Tools,
    i: usize,
    grm: &YaccGrammar<T>,
    firsts: &YaccFirsts<T>,
) -> Result<(), BuildError<T>>
    requires below { i < length drafts.old.items }
    requires unclosed { closed_at drafts.old.items i ≡ false }
    requires most { length drafts.old.items ≤ T.MAX }
    requires holds { Holds grm.now drafts.old.items }
    requires of { AreFirstsOf grm.now firsts.now }
    requires candidates { AreCandidates drafts.old.items candidates.old }
    requires tools { AreToolsFor grm.now tools.old }
    ensures turn { OnOk result (IsTurn grm.now drafts.old.items i drafts.new.items) }
    ensures most { OnOk result (length drafts.new.items ≤ T.MAX) }
    ensures candidates { OnOk result (AreCandidates drafts.new.items candidates.new) }
    ensures tools { OnOk result (AreToolsFor grm.now tools.new) }
    ensures refused { IfErr result (IsLargeOnly (HasChainOf grm.now T.MAX)) }
{
    // A copy, since its own gotos may be merged into it.
    let core = drafts[i].core().copied(grm.allocator())?;
    let given = core.items();
    tools.closer.close(grm, firsts, given);
    let closed = closed_items(given, grm, &tools.closer)?;
    let successors = gotos(closed.as_slice(), grm, &mut tools.places)?;
    if tools.seeks_contested {
        tools.seeks_contested = !is_contested(grm, closed.as_slice(), successors.as_slice())?;
    }
    drafts[i].clear_edges(successors.len())?;
    let grew = place_all(drafts, candidates, grm, i, successors)?;
    if !grew {
        drafts[i].set_closed();
    }
    Ok(())
}

/// Closes states and places their gotos until all states are closed, and answers how often a state was closed.
fn construct<T: IndexStorage>(
    drafts: &mut Vec<Draft<T>>,
    candidates: &mut Candidates,
    tools: &mut Tools,
    grm: &YaccGrammar<T>,
    firsts: &YaccFirsts<T>,
) -> Result<u128, BuildError<T>>
    requires of { AreFirstsOf grm.now firsts.now }
    requires sizes { IsWithin T.MAX grm.now }
    requires most { length drafts.old.items ≤ T.MAX }
    requires holds { Holds grm.now drafts.old.items }
    requires gotos { (k : ℕ) → HasGotos grm.now drafts.old.items k }
    requires candidates { AreCandidates drafts.old.items candidates.old }
    requires tools { AreToolsFor grm.now tools.old }
    requires made { length drafts.old.items ≤ unclosed drafts.old.items }
    requires counted { unclosed drafts.old.items ≤ weight grm.now drafts.old.items }
    ensures most { OnOk result (length drafts.new.items ≤ T.MAX) }
    ensures holds { OnOk result (Holds grm.now drafts.new.items) }
    ensures gotos { OnOk result ((k : ℕ) → HasGotos grm.now drafts.new.items k) }
    ensures closed { OnOk result (AreClosed drafts.new.items) }
    ensures order { OnOk result (ClosesAll grm.now 0 drafts.old.items drafts.new.items) }
    ensures tools { OnOk result (AreToolsFor grm.now tools.new) }
    ensures made { IfOk result (λ n. length drafts.new.items ≤ n) }
    ensures closings { IfOk result (λ n. n
        ≤ length drafts.new.items * (1 + item_count grm.now * token_count grm.now)) }
    ensures refused { IfErr result (IsLargeOnly (HasChainOf grm.now T.MAX)) }
{
    let mut closings: u128 = 0;
    let mut from: usize = 0;
    while let Some(i) = next_unclosed(drafts.as_slice(), from) {
        close(drafts, candidates, tools, i, grm, firsts)?;
        closings += 1;
        from = i + 1;
    }
    Ok(closings)
}

/// The start state, which is to be closed, and the candidates with it.
fn begin<T: IndexStorage>(grm: &YaccGrammar<T>) -> Result<(Vec<Draft<T>>, Candidates), AllocError>
    ensures start { IfOk result (λ b. StartsWith grm.now b.0.items) }
    ensures candidates { IfOk result (λ b. AreCandidates b.0.items b.1) }
{
    let alloc = grm.allocator();
    let core = Core::of_start(grm)?;
    let mut candidates = Candidates::new(alloc)?;
    candidates.add(core_fingerprint(&core), 0)?;
    let mut drafts = Vec::new(alloc);
    drafts.push(Draft::new(alloc, core))?;
    Ok((drafts, candidates))
}

/// What a construction took.
#[derive(Clone, Copy, Debug, PartialEq, Eq)]
pub struct BuildCounts {
    /// How many states were made, those among them that no state leads to in the end.
    pub made: usize,
    /// How often a state was closed and its gotos placed. That each state that is left is closed once more in the end, for the
    /// graph's closed item sets, is not counted.
    pub closings: u128,
}

/// What is wanted of a state graph.
#[derive(Clone, Copy, PartialEq, Eq)]
enum Wanted {
    /// All of it.
    Graph,
    /// What its table needs.
    Outline,
    /// All of it, where a state is contested, and else what its table needs.
    GraphIfContested,
}

impl Wanted {
    /// What is kept of the states, where it is known whether one is contested.
    fn kept(self, is_contested: bool) -> Kept
        ensures { result ≡ kept_of self is_contested }
    {
        match self {
            Wanted::Graph => Kept::Everything,
            Wanted::Outline => Kept::Outline,
            Wanted::GraphIfContested if is_contested => Kept::Everything,
            Wanted::GraphIfContested => Kept::Outline,
        }
    }
}

/// The state graph of the grammar, merged by Pager's rule, as far as it is wanted; whether a contested state was found, which is
/// sought only where the rest depends on it; and what the construction took.
fn construct_kept<T: IndexStorage>(
    grm: &YaccGrammar<T>,
    wanted: Wanted,
) -> Result<(StateGraph<T>, bool, BuildCounts), BuildError<T>>
    ensures merged { IfOk result (λ b. (h : Graph) × IsMerged grm.now h
        × (b.0 ≡ kept_states (kept_of wanted b.1) grm.now h)) }
    ensures below { IfOk result (λ b. length b.0 < T.MAX) }
    ensures counts { IfOk result (λ b.
        AreCounts grm.now T.MAX (length b.0) b.2.made b.2.closings) }
    ensures refused { IfErr result (IsLargeOnly (HasChainOf grm.now T.MAX)) }
{
    grm.in_order();
    let firsts = grm.firsts()?;
    let (mut drafts, mut candidates) = begin(grm)?;
    let mut tools = Tools::new(grm, &firsts, wanted == Wanted::GraphIfContested)?;
    let closings = construct(&mut drafts, &mut candidates, &mut tools, grm, &firsts)?;
    let made = drafts.len();
    let is_contested = !tools.seeks_contested;
    let kept = wanted.kept(is_contested);
    let graph = collect(drafts, &mut tools.closer, grm, &firsts, kept)?;
    Ok((graph, is_contested, BuildCounts { made, closings }))
}

/// The state graph of the grammar, merged by Pager's rule, and what its construction took. `TooLarge` where more than the
/// index type's `MAX` states would be made, or `MAX` or more are left; never `Table`.
pub fn build<T: IndexStorage>(
    grm: &YaccGrammar<T>,
) -> Result<(StateGraph<T>, BuildCounts), BuildError<T>>
    ensures merged { IfOk result (λ b. IsMerged grm.now b.0) }
    ensures below { IfOk result (λ b. length b.0 < T.MAX) }
    ensures counts { IfOk result (λ b.
        AreCounts grm.now T.MAX (length b.0) b.1.made b.1.closings) }
    ensures refused { IfErr result (IsLargeOnly (HasChainOf grm.now T.MAX)) }
{
    let (graph, _, counts) = construct_kept(grm, Wanted::Graph)?;
    Ok((graph, counts))
}

/// The outline of that graph, and what its construction took, with the same refusals.
pub fn outline<T: IndexStorage>(
    grm: &YaccGrammar<T>,
) -> Result<(Outline<T>, BuildCounts), BuildError<T>>
    ensures merged { IfOk result (λ b. (h : Graph) × IsMerged grm.now h
        × IsOutlineOf grm.now h b.0.graph) }
    ensures below { IfOk result (λ b. length b.0.graph < T.MAX) }
    ensures counts { IfOk result (λ b.
        AreCounts grm.now T.MAX (length b.0.graph) b.1.made b.1.closings) }
    ensures refused { IfErr result (IsLargeOnly (HasChainOf grm.now T.MAX)) }
{
    let (graph, _, counts) = construct_kept(grm, Wanted::Outline)?;
    Ok((Outline { graph }, counts))
}

/// A state graph, or its outline.
#[derive(Drop)]
pub enum Built<T: IndexStorage> {
    /// The graph.
    Graph(StateGraph<T>),
    /// Its outline.
    Outline(Outline<T>),
}

/// That graph where a state is contested, so that it can be searched why; and else its outline, which takes less time and memory.
/// The refusals are the same.
pub fn build_if_contested<T: IndexStorage>(grm: &YaccGrammar<T>) -> Result<Built<T>, BuildError<T>>
    ensures merged { IfOk result (λ b. (h : Graph) × IsBuiltOf grm.now h b × IsMerged grm.now h
        × HasChainOf grm.now (length h)) }
    ensures refused { IfErr result (IsLargeOnly (HasChainOf grm.now T.MAX)) }
{
    let (graph, is_contested, _) = construct_kept(grm, Wanted::GraphIfContested)?;
    if is_contested {
        return Ok(Built::Graph(graph));
    }
    Ok(Built::Outline(Outline { graph }))
}
