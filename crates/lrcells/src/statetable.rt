//! State tables.

ghost use Rattle.std.specs.Prelude.{◌≡◌, ℕ, ◌<◌, ◌≤◌, ◌-◌, IsTrue, ◌↔◌, length, option_map, IfOk, IfErr, IfSome, IsSome, MatchOption};
ghost use Rattle.lrspec.specs.merging.Graph.{Graph, IsGraphOf};
ghost use Rattle.lrspec.specs.tables.Table as math;
ghost use Rattle.lrspec.specs.tables.Table.{IsTableOf, lists_of, goto_of};
ghost use Rattle.lrspec.specs.tables.Conflicts.{AreEntriesOf};
ghost use Rattle.lrspec.specs.tables.LrTables.{ListsNothing};
ghost use Rattle.lrspec.specs.tables.Rows.{AreActingTokens, AreShiftedTokens, AreReducedBy, ReducesOnly, ReducesApart};
ghost use Rattle.lrgraphs.specs.Outlines.{IsOutlineOf};
ghost use Rattle.lrrows.specs.ReadGraphs.{IsReadable};
ghost use Rattle.lrrows.specs.StoredActions.{stored_action};
ghost use Rattle.lrcells.specs.Refusals.{IsTableRefusal};

mod conflicts;
mod iterators;

pub use crate::statetable::conflicts::Conflicts;
pub use crate::statetable::iterators::{CoreReducesIterator, StateActionsIterator};
use lrgrammar::grammar::YaccGrammar;
use lrgrammar::idx::{IndexStorage, PIdx, RIdx, StIdx, TIdx};
use lrgraphs::BuildError;
use lrgraphs::outline::Outline;
use lrgraphs::stategraph::StateGraph;
pub use lrgraphs::statetable::{StateTableError, StateTableErrorKind};
use lrrows::accept_reduce::accept_reduce;
pub use lrrows::action::Action;
use lrrows::numbers::{action_of_number, goto_of_number};
use lrrows::rows::rows_of;
use lrsparse::sparsevec::SparseVec;
use std::alloc::Global;
use std::marker::Model;

/// The table of a state graph: for each state what it does on each token, and where each rule leads.
#[derive(Drop)]
pub struct StateTable<T: IndexStorage> {
    actions: SparseVec,
    gotos: SparseVec,
    tokens_len: usize,
    core_reduces: Vec<Vec<PIdx<T>>>,
    reduce_only: Vec<bool>,
    conflicts: Option<Conflicts<T>>,
}

impl<T: IndexStorage> Model for StateTable<T> {
    ghost use Rattle.lrspec.specs.tables.Table as math;

    ghost Value = { math.Table };

    ghost use Rattle.std.specs.Prelude.{◌≡◌, length};
    ghost use Rattle.lrcells.specs.StoredTable.{table_of, AreCells, AreGotos, AreKeptOfRows, AreKept};

    ghost view = { λ t. table_of (length t.core_reduces.items) t.actions t.gotos t.conflicts };

    ghost invariant = { λ t. (t.tokens_len ≡ t.actions.cols)
        × AreCells T.MAX (length t.core_reduces.items) t.actions
        × AreGotos T.MAX (length t.core_reduces.items) t.gotos
        × AreKeptOfRows T.number
        (table_of (length t.core_reduces.items) t.actions t.gotos t.conflicts)
        t.core_reduces.items t.reduce_only.items
        × AreKept t.conflicts };
}

impl<T: IndexStorage> StateTable<T> {
    /// The table of the graph, which is one of the grammar. `TooLarge` where the graph has `MAX - 1` states or more; or else
    /// `Table` where a state accepts and reduces at the end of the text.
    pub fn new(
        alloc: Global,
        grm: &YaccGrammar<T>,
        sg: &StateGraph<T>,
    ) -> Result<StateTable<T>, BuildError<T>>
        requires graph { IsGraphOf grm.now sg.now }
        ensures table { IfOk result (λ b. IsTableOf grm.now sg.now b) }
        ensures reduces { IfOk result (λ b. ReducesApart grm.now b) }
        ensures entries { IfOk result (λ b. AreEntriesOf grm.now (lists_of b)) }
        ensures below { IfOk result (λ _. length sg.now < T.MAX - 1) }
        ensures refused { IfErr result (IsTableRefusal T.number T.MAX grm.now sg.now) }
    {
        grm.in_order();
        StateTable::read(alloc, grm, sg)
    }

    /// The table that is read off complete items and edges alone, for graphs and for outlines.
    fn read(
        alloc: Global,
        grm: &YaccGrammar<T>,
        sg: &StateGraph<T>,
    ) -> Result<StateTable<T>, BuildError<T>>
        requires graph { IsReadable grm.now sg.now }
        ensures table { IfOk result (λ b. IsTableOf grm.now sg.now b) }
        ensures entries { IfOk result (λ b. AreEntriesOf grm.now (lists_of b)) }
        ensures below { IfOk result (λ _. length sg.now < T.MAX - 1) }
        ensures refused { IfErr result (IsTableRefusal T.number T.MAX grm.now sg.now) }
    {
        if usize::from(sg.all_states_len()) >= T::MAX - 1 {
            return Err(BuildError::TooLarge);
        }
        if let Some(least) = accept_reduce(grm, sg)? {
            return Err(BuildError::Table(StateTableError {
                kind: StateTableErrorKind::AcceptReduceConflict(Some(least)),
                pidx: grm.start_prod(),
            }));
        }
        let rows = rows_of(alloc, grm, sg)?;
        let tokens_len = usize::from(grm.tokens_len());
        let actions = rows.actions.finish();
        let gotos = rows.gotos.finish();
        Ok(StateTable {
            actions,
            gotos,
            tokens_len,
            core_reduces: rows.core_reduces,
            reduce_only: rows.reduce_only,
            conflicts: Conflicts::unless_none(rows.reduce_reduce, rows.shift_reduce),
        })
    }

    /// What the state does on the token; `Error` where the cell is empty.
    pub fn action(&self, stidx: StIdx<T>, tidx: TIdx<T>) -> Action<T>
        ensures cell { stored_action T.number result
            ≡ math.action_of self.now (T.number stidx.0) (T.number tidx.0) }
    {
        match self.actions.get(usize::from(stidx), usize::from(tidx)) {
            Some(number) => action_of_number(number),
            None => Action::Error,
        }
    }

    /// Where the rule leads from the state, if it leads anywhere.
    pub fn goto(&self, stidx: StIdx<T>, ridx: RIdx<T>) -> Option<StIdx<T>>
        ensures edge { option_map (λ s. T.number s.0) result
            ≡ goto_of self.now (T.number stidx.0) (T.number ridx.0) }
    {
        goto_of_number(self.gotos.get(usize::from(stidx), usize::from(ridx))?)
    }

    /// The tokens upwards on which the state does not err.
    pub fn state_actions(&self, stidx: StIdx<T>) -> StateActionsIterator<'_, T>
        ensures tokens { AreActingTokens self.now (T.number stidx.0) result }
    {
        StateActionsIterator::new(&self.actions, usize::from(stidx), self.tokens_len, false)
    }

    /// The tokens upwards that the state shifts.
    pub fn state_shifts(&self, stidx: StIdx<T>) -> StateActionsIterator<'_, T>
        ensures tokens { AreShiftedTokens self.now (T.number stidx.0) result }
    {
        StateActionsIterator::new(&self.actions, usize::from(stidx), self.tokens_len, true)
    }

    /// The productions upwards by which the state reduces on some token.
    pub fn core_reduces(&self, stidx: StIdx<T>) -> CoreReducesIterator<'_, T>
        ensures prods { AreReducedBy self.now (T.number stidx.0) result }
    {
        match self.core_reduces.get(usize::from(stidx)) {
            Some(prods) => CoreReducesIterator::new(prods.as_slice()),
            None => CoreReducesIterator::new(&[]),
        }
    }

    /// Whether the state reduces by exactly one production, and neither shifts nor accepts.
    pub fn reduce_only_state(&self, stidx: StIdx<T>) -> bool
        ensures only { IsTrue result ↔ ReducesOnly self.now (T.number stidx.0) }
    {
        self.reduce_only
            .get(usize::from(stidx))
            .copied()
            .unwrap_or(false)
    }

    /// The start state, which is state 0.
    pub fn start_state(&self) -> StIdx<T>
        ensures start { T.number result.0 ≡ self.now.start }
    {
        let _ = &self.actions;
        StIdx(T::from_usize(0).unwrap())
    }

    /// The conflicts; None where there are none.
    pub fn conflicts(&self) -> Option<&Conflicts<T>>
        ensures lists { IfSome result (λ c. c.now ≡ lists_of self.now) }
        ensures none { MatchOption result (ListsNothing self.now) (λ _. ¬ (ListsNothing self.now)) }
    {
        self.conflicts.as_ref()
    }
}

/// The table of the graph of which this is an outline. The refusals are those of `StateTable::new`. For the construction of
/// tables without a graph.
pub fn table_of_outline<T: IndexStorage>(
    alloc: Global,
    grm: &YaccGrammar<T>,
    outline: &Outline<T>,
) -> Result<StateTable<T>, BuildError<T>>
    requires outline { (h : Graph) × IsGraphOf grm.now h × IsOutlineOf grm.now h outline.now.graph }
    ensures table { IfOk result (λ b. (h : Graph) → IsOutlineOf grm.now h outline.now.graph
        → IsTableOf grm.now h b) }
    ensures reduces { IfOk result (λ b. ReducesApart grm.now b) }
    ensures entries { IfOk result (λ b. AreEntriesOf grm.now (lists_of b)) }
    ensures below { IfOk result (λ _. length outline.now.graph < T.MAX - 1) }
    ensures refused { IfErr result (λ e. (h : Graph) → IsOutlineOf grm.now h outline.now.graph
        → IsTableRefusal T.number T.MAX grm.now h e) }
{
    grm.in_order();
    StateTable::read(alloc, grm, &outline.graph)
}
