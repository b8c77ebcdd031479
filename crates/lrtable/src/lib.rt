//! LR(1) state graphs and state tables of grammars, merged by Pager's rule.
#![tactic(auto)]

ghost use Rattle.std.specs.Prelude.{◌≡◌, ◌-◌, ◌<◌, length, Some, IfOk, IfErr, IfNone, IfSome, MatchResult};
ghost use Rattle.lrspec.specs.merging.Chains.{HasChainOf};
ghost use Rattle.lrspec.specs.merging.Graph.{Graph};
ghost use Rattle.lrspec.specs.merging.Merged.{AreCounts, IsMerged};
ghost use Rattle.lrspec.specs.tables.Built.{IsBuilt};
ghost use Rattle.lrspec.specs.tables.LrTables.{IsExactAnswer, ListsNothing};
ghost use Rattle.lrgraphs.specs.Outlines.{IsOutlineOf};
ghost use Rattle.lrpager.specs.Keeping.{IsBuiltOf};
ghost use Rattle.lrtable.specs.Refusals.{IsLargeOnly, IsBuildRefusal, IsExactError};

/// Item sets with lookaheads.
pub mod itemset {
    pub use lritems::itemset::{Ctx, Itemset};
}

/// State graphs.
pub mod stategraph {
    pub use lrgraphs::stategraph::{
        ClosedStatesIterator, CoreStatesIterator, StIdxIterator, StateGraph,
    };
}

/// Matrices of numbers.
pub mod sparsevec {
    pub use lrcells::sparsevec::SparseVec;
}

pub mod machine;

/// State tables.
pub mod statetable {
    pub use lrcells::statetable::{
        Action, Conflicts, CoreReducesIterator, StateActionsIterator, StateTable,
    };
    pub use lrgraphs::statetable::{StateTableError, StateTableErrorKind};
}

pub use crate::statetable::{Action, StateTable, StateTableError, StateTableErrorKind};
use lrcells::statetable::table_of_outline;
use lrgrammar::grammar::YaccGrammar;
use lrgrammar::idx::IndexStorage;
pub use lrgrammar::idx::StIdx;
use lrgraphs::outline::Outline;
pub use lrgraphs::{BuildError, StateGraph};
pub use lrpager::pager::BuildCounts;
use lrpager::pager::{self, Built};
use std::alloc::Global;

/// How a state graph is made smaller than that of the canonical states.
#[derive(Clone, Copy, Debug, PartialEq, Eq)]
pub enum Minimiser {
    /// By Pager's merging of states.
    Pager,
}

/// The table of a graph that was made by merging.
fn table_of<T: IndexStorage>(
    alloc: Global,
    grm: &YaccGrammar<T>,
    graph: &StateGraph<T>,
) -> Result<StateTable<T>, BuildError<T>>
    requires merged { IsMerged grm.now graph.now }
    requires chain { HasChainOf grm.now (length graph.now) }
    ensures built { IfOk result (IsBuilt grm.now graph.now) }
    ensures below { IfOk result (λ _. length graph.now < T.MAX - 1) }
    ensures headline { MatchResult result (λ b. IsExactAnswer grm.now (Some b))
        (IsExactError grm.now) }
    ensures refused { IfErr result (IsBuildRefusal T.number T.MAX grm.now) }
{
    grm.in_order();
    StateTable::new(alloc, grm, graph)
}

/// The table of the graph of which this is an outline, and which was made by merging.
fn table_of_its_outline<T: IndexStorage>(
    alloc: Global,
    grm: &YaccGrammar<T>,
    outline: &Outline<T>,
) -> Result<StateTable<T>, BuildError<T>>
    requires { (h : Graph) × IsOutlineOf grm.now h outline.now.graph × IsMerged grm.now h
        × HasChainOf grm.now (length h) }
    ensures built { IfOk result (λ b. (h : Graph) × IsBuilt grm.now h b) }
    ensures rows { IfOk result (λ b. length b.actions ≡ length outline.now.graph) }
    ensures below { IfOk result (λ _. length outline.now.graph < T.MAX - 1) }
    ensures headline { MatchResult result (λ b. IsExactAnswer grm.now (Some b))
        (IsExactError grm.now) }
    ensures refused { IfErr result (IsBuildRefusal T.number T.MAX grm.now) }
{
    grm.in_order();
    table_of_outline(alloc, grm, outline)
}

/// The state graph of the grammar and its table. `Table` where a state accepts and reduces at the end of the text;
/// `TooLarge` where the graph has too many states for the index type.
pub fn from_yacc<T: IndexStorage>(
    alloc: Global,
    grm: &YaccGrammar<T>,
    minimiser: Minimiser,
) -> Result<(StateGraph<T>, StateTable<T>), BuildError<T>>
    ensures built { IfOk result (λ b. IsBuilt grm.now b.0 b.1) }
    ensures below { IfOk result (λ b. length b.0 < T.MAX - 1) }
    ensures chain { IfOk result (λ b. HasChainOf grm.now (length b.0)) }
    ensures headline { MatchResult result (λ b. IsExactAnswer grm.now (Some b.1))
        (IsExactError grm.now) }
    ensures refused { IfErr result (IsBuildRefusal T.number T.MAX grm.now) }
{
    let (graph, table, _counts) = from_yacc_counted(alloc, grm, minimiser)?;
    Ok((graph, table))
}

/// The same, with what the construction took: how many states it made, and how often it closed one and placed its gotos. The
/// closed item sets of the states that are left are made once more in the end, and not counted.
pub fn from_yacc_counted<T: IndexStorage>(
    alloc: Global,
    grm: &YaccGrammar<T>,
    minimiser: Minimiser,
) -> Result<(StateGraph<T>, StateTable<T>, BuildCounts), BuildError<T>>
    ensures built { IfOk result (λ b. IsBuilt grm.now b.0 b.1) }
    ensures below { IfOk result (λ b. length b.0 < T.MAX - 1) }
    ensures counts { IfOk result (λ b.
        AreCounts grm.now T.MAX (length b.0) b.2.made b.2.closings) }
    ensures headline { MatchResult result (λ b. IsExactAnswer grm.now (Some b.1))
        (IsExactError grm.now) }
    ensures refused { IfErr result (IsBuildRefusal T.number T.MAX grm.now) }
{
    let Minimiser::Pager = minimiser;
    grm.in_order();
    let (graph, counts) = pager::build(grm)?;
    let table = table_of(alloc, grm, &graph)?;
    Ok((graph, table, counts))
}

/// The table alone, and what its construction took: those that `from_yacc_counted` answers, with the same refusals. No graph is
/// made, so that on large grammars it takes half the memory.
pub fn state_table<T: IndexStorage>(
    alloc: Global,
    grm: &YaccGrammar<T>,
    minimiser: Minimiser,
) -> Result<(StateTable<T>, BuildCounts), BuildError<T>>
    ensures built { IfOk result (λ b. (h : Graph) × IsBuilt grm.now h b.0) }
    ensures below { IfOk result (λ b. length b.0.actions < T.MAX - 1) }
    ensures counts { IfOk result (λ b.
        AreCounts grm.now T.MAX (length b.0.actions) b.1.made b.1.closings) }
    ensures headline { MatchResult result (λ b. IsExactAnswer grm.now (Some b.0))
        (IsExactError grm.now) }
    ensures refused { IfErr result (IsBuildRefusal T.number T.MAX grm.now) }
{
    let Minimiser::Pager = minimiser;
    grm.in_order();
    let (outline, counts) = pager::outline(grm)?;
    let table = table_of_its_outline(alloc, grm, &outline)?;
    Ok((table, counts))
}

/// The graph; made anew where there is its outline alone.
fn graph_of<T: IndexStorage>(
    grm: &YaccGrammar<T>,
    built: Built<T>,
) -> Result<StateGraph<T>, BuildError<T>>
    requires { (h : Graph) × IsBuiltOf grm.now h built × IsMerged grm.now h
        × HasChainOf grm.now (length h) }
    ensures merged { IfOk result (IsMerged grm.now) }
    ensures chain { IfOk result (λ h. HasChainOf grm.now (length h)) }
    ensures refused { IfErr result (IsLargeOnly (HasChainOf grm.now T.MAX)) }
{
    match built {
        Built::Graph(graph) => Ok(graph),
        Built::Outline(_) => Ok(pager::build(grm)?.0),
    }
}

/// The table that `from_yacc` answers, how many states it has, and where it has conflicts the graph too, in which it can be
/// searched why. Where no two entries meet in a cell no graph is made, so that it takes less time and half the memory. The
/// refusals are those of `from_yacc`.
pub fn from_yacc_if_contested<T: IndexStorage>(
    alloc: Global,
    grm: &YaccGrammar<T>,
    minimiser: Minimiser,
) -> Result<(Option<StateGraph<T>>, StateTable<T>, usize), BuildError<T>>
    ensures built { IfOk result (λ b. (h : Graph) × IsBuilt grm.now h b.1
        × IfSome b.0 (λ g. g ≡ h)) }
    ensures without { IfOk result (λ b. IfNone b.0 (ListsNothing b.1)) }
    ensures states { IfOk result (λ b. b.2 ≡ length b.1.actions) }
    ensures below { IfOk result (λ b. b.2 < T.MAX - 1) }
    ensures headline { MatchResult result (λ b. IsExactAnswer grm.now (Some b.1))
        (IsExactError grm.now) }
    ensures refused { IfErr result (IsBuildRefusal T.number T.MAX grm.now) }
{
    let Minimiser::Pager = minimiser;
    let built = pager::build_if_contested(grm)?;
    if let Built::Outline(outline) = &built {
        let table = table_of_its_outline(alloc, grm, outline)?;
        if table.conflicts().is_none() {
            let states = usize::from(outline.graph.all_states_len());
            return Ok((None, table, states));
        }
    }
    // An outline has no conflicts, as there would be a graph; but that is not proved.
    let graph = graph_of(grm, built)?;
    let table = table_of(alloc, grm, &graph)?;
    let states = usize::from(graph.all_states_len());
    Ok((Some(graph), table, states))
}
