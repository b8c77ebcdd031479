//! The rows of a table, made state after state.

ghost use Rattle.std.specs.Prelude.{◌≡◌, ℕ, ◌+◌, ◌<◌, ◌≤◌, IsTrue, ◌↔◌, List, Contains, length, OnOk, IfOk};
ghost use Rattle.std.specs.List.{All};
ghost use Rattle.lrspec.specs.merging.Graph.{Graph};
ghost use Rattle.lrspec.specs.tables.Table as table;
ghost use Rattle.lrspec.specs.tables.Rows.{AreAllWith};
ghost use Rattle.lrrows.specs.ReadGraphs.{IsReadable};
ghost use Rattle.lrrows.specs.ReducingRows.{ReducesByOne};
ghost use Rattle.lrrows.specs.RowsOf.{AreRowsOf, HaveZeros};
ghost use Rattle.lrrows.specs.StoredActions.{action_numbered, actions_in, IsIndexed, NeitherShiftsNorAccepts};
ghost use Rattle.lrgrammar.specs.StoredGrammar.{numbers_of};

use crate::action::Action;
use crate::cells::{make_actions, make_gotos};
use crate::completes::{accepted, completes, least_by_token};
use crate::conflicts::{push_reduce_reduce, push_shift_reduce};
use crate::numbers::action_of_number;
use crate::used::used_tokens;
use lrgrammar::grammar::YaccGrammar;
use lrgrammar::idx::{IndexStorage, PIdx, StIdx, TIdx};
use lrgraphs::stategraph::StateGraph;
use lrsparse::builder::MatrixBuilder;
use std::alloc::{AllocError, Global};
use std::collections::BTreeSet;

/// What a table has of the states so far.
#[derive(Drop)]
pub struct Rows<T: IndexStorage> {
    pub actions: MatrixBuilder,
    pub gotos: MatrixBuilder,
    pub core_reduces: Vec<Vec<PIdx<T>>>,
    pub reduce_only: Vec<bool>,
    pub reduce_reduce: Vec<(TIdx<T>, PIdx<T>, PIdx<T>, StIdx<T>)>,
    pub shift_reduce: Vec<(TIdx<T>, PIdx<T>, StIdx<T>)>,
}

impl<T: IndexStorage> Rows<T> {
    /// No states.
    fn new(alloc: Global, grm: &YaccGrammar<T>) -> Rows<T>
        ensures rows { (h : Graph) → AreRowsOf T.number grm.now h 0 result }
        ensures zeros { HaveZeros result }
    {
        Rows {
            actions: MatrixBuilder::new(alloc, 0, usize::from(grm.tokens_len())),
            gotos: MatrixBuilder::new(alloc, 0, usize::from(grm.rules_len())),
            core_reduces: Vec::new(alloc),
            reduce_only: Vec::new(alloc),
            reduce_reduce: Vec::new(alloc),
            shift_reduce: Vec::new(alloc),
        }
    }

    /// Adds what the table has of the state; the entries of its rows come into the buffer first, one row after the other.
    fn push(
        &mut self,
        buffer: &mut Vec<(usize, usize)>,
        grm: &YaccGrammar<T>,
        sg: &StateGraph<T>,
        stidx: StIdx<T>,
    ) -> Result<(), AllocError>
        requires graph { IsReadable grm.now sg.now }
        requires below { T.number stidx.0 < length sg.now }
        requires states { length sg.now ≤ T.MAX }
        requires rows { AreRowsOf T.number grm.now sg.now (T.number stidx.0) self.old }
        requires zeros { HaveZeros self.old }
        ensures rows { OnOk result
            (AreRowsOf T.number grm.now sg.now (T.number stidx.0 + 1) self.new) }
        ensures zeros { OnOk result (HaveZeros self.new) }
    {
        grm.in_order();
        let closed = sg.closed_state(stidx);
        let complete = completes(grm, closed)?;
        let least = least_by_token(grm, complete.as_slice())?;
        let accepts = accepted(grm, closed);
        let used = used_tokens(grm, sg, stidx, complete.as_slice(), accepts)?;
        make_actions(buffer, grm, sg, stidx, &used, least.as_slice(), accepts)?;
        let row = buffer.as_slice();
        let reduces = reduces_of::<T>(grm.allocator(), row)?;
        self.reduce_only
            .push(reduces_by_one(reduces.as_slice(), row))?;
        self.core_reduces.push(reduces)?;
        self.actions.push_entries(row)?;
        make_gotos(buffer, grm, sg, stidx)?;
        self.gotos.push_entries(buffer.as_slice())?;
        push_reduce_reduce(
            &mut self.reduce_reduce,
            stidx,
            least.as_slice(),
            complete.as_slice(),
        )?;
        push_shift_reduce(&mut self.shift_reduce, grm, sg, stidx, least.as_slice())
    }
}

/// The productions by which a row of these entries reduces.
fn reduced<T: IndexStorage>(
    alloc: Global,
    row: &[(usize, usize)],
) -> Result<BTreeSet<PIdx<T>>, AllocError>
    requires { All (λ e. IsIndexed T.MAX (action_numbered e.1)) row.now }
    ensures { IfOk result (λ found. (p : ℕ) → Contains (numbers_of T.number found.keys) p
        ↔ Contains (actions_in row.now) (table.Action.Reduce p)) }
{
    let mut found = BTreeSet::new(alloc);
    let mut last = 0;
    for (_, number) in row {
        if *number != last {
            if let Action::Reduce(pidx) = action_of_number::<T>(*number) {
                found.insert(pidx)?;
                last = *number;
            }
        }
    }
    Ok(found)
}

/// The productions upwards by which a row of these entries reduces.
fn reduces_of<T: IndexStorage>(
    alloc: Global,
    row: &[(usize, usize)],
) -> Result<Vec<PIdx<T>>, AllocError>
    requires { All (λ e. IsIndexed T.MAX (action_numbered e.1)) row.now }
    ensures { IfOk result (λ v.
        AreAllWith (λ p. Contains (actions_in row.now) (table.Action.Reduce p))
        (numbers_of T.number v.items)) }
{
    let found = reduced::<T>(alloc, row)?;
    let mut reduces = Vec::new(alloc);
    for pidx in &found {
        reduces.push(*pidx)?;
    }
    Ok(reduces)
}

/// Whether a row of these entries reduces by one production, and else errs; `reduces` are those by which it reduces.
fn reduces_by_one<T: IndexStorage>(reduces: &[PIdx<T>], row: &[(usize, usize)]) -> bool
    requires indexed { All (λ e. IsIndexed T.MAX (action_numbered e.1)) row.now }
    requires reduces { AreAllWith
        (λ p. Contains (actions_in row.now) (table.Action.Reduce p))
        (numbers_of T.number reduces.now) }
    ensures { IsTrue result ↔ ReducesByOne (actions_in row.now) }
{
    reduces.len() == 1 && reduces_alone::<T>(row)
}

/// Whether a row of these entries neither shifts nor accepts.
fn reduces_alone<T: IndexStorage>(row: &[(usize, usize)]) -> bool
    requires { All (λ e. IsIndexed T.MAX (action_numbered e.1)) row.now }
    ensures { IsTrue result ↔ All (λ e. NeitherShiftsNorAccepts (action_numbered e.1)) row.now }
{
    for (_, number) in row {
        if matches!(
            action_of_number::<T>(*number),
            Action::Shift(_) | Action::Accept
        ) {
            return false;
        }
    }
    true
}

/// What a table has of the states of the graph.
pub fn rows_of<T: IndexStorage>(
    alloc: Global,
    grm: &YaccGrammar<T>,
    sg: &StateGraph<T>,
) -> Result<Rows<T>, AllocError>
    requires graph { IsReadable grm.now sg.now }
    requires states { length sg.now ≤ T.MAX }
    ensures { IfOk result (λ r. AreRowsOf T.number grm.now sg.now (length sg.now) r) }
{
    let mut rows = Rows::new(alloc, grm);
    let mut buffer = Vec::new(alloc);
    for stidx in sg.iter_stidxs() {
        rows.push(&mut buffer, grm, sg, stidx)?;
    }
    Ok(rows)
}
