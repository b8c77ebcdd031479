//! Sentences that the parser rejects.

ghost use Rattle.std.specs.Prelude.{◌≡◌, IsTrue, All, IfOk, IfSome, None, false};
ghost use Rattle.lrspec.specs.grammars.Grammar as math;
ghost use Rattle.lrspec.specs.merging.Graph.{edge, IsGraphOf};
ghost use Rattle.lrspec.specs.tables.Table.{IsTableOf};
ghost use Rattle.lrentries.specs.Cells.{HasCell, LacksCell};
ghost use Rattle.lrentries.specs.Losses.{AreApart, IsDoomedIn, IsFoundLoss, IsToldOf, cell_of, searched, ResolvesPairs};

use crate::numbers::{numbers_of, tokens_of};
use lrcharts::has_no_tree_left;
use lrconflicts::{Conflict, Move, Written};
use lrfindings::{Entry, Findings, Resolved};
use lrgrammar::idx::Symbol;
use lrlosses::{Candidate, Find, Losses, Place, check_lost};
use lrshown::{Loss, step_of, steps_of};
use lrtable::{Action, StateGraph};
use std::alloc::{AllocError, Global};
use std::collections::BTreeSet;
use std::marker::Model;

/// The cell of an entry: its state and token.
fn cell(entry: &Entry) -> (usize, usize)
    ensures { result ≡ cell_of entry.now }
{
    (entry.state, entry.token)
}

/// The cells in which precedences resolve something.
fn cells_of(alloc: Global, resolved: &[Resolved]) -> Result<BTreeSet<(usize, usize)>, AllocError>
    ensures { IfOk result (λ cells. All (λ r. HasCell cells (cell_of r.entry)) resolved.now) }
{
    let mut cells = BTreeSet::new(alloc);
    for one in resolved {
        cells.insert(cell(&one.entry))?;
    }
    Ok(cells)
}

/// Whether the cell of an entry is one of these.
fn has_any(cells: &BTreeSet<(usize, usize)>, entries: &[Entry]) -> bool
    ensures { result ≡ false → All (λ e. LacksCell cells.now (cell_of e)) entries.now }
{
    for entry in entries {
        if cells.contains(&cell(entry)) {
            return true;
        }
    }
    false
}

/// Whether a shift meets several reductions in a cell in which precedences resolve something: the table lists a conflict there too.
/// Bison tries each reduction by itself against the shift, so its table may do something else.
pub fn are_crowded(alloc: Global, found: &Findings) -> Result<bool, AllocError>
    ensures { IfOk result (λ are. are ≡ false → ResolvesPairs found.now) }
{
    let cells = cells_of(alloc, found.resolved.as_slice())?;
    Ok(has_any(&cells, found.conflicts.as_slice()))
}

/// Whether the table takes the candidate of the conflict.
fn is_taken(found: &Findings, conflict: Conflict<u32>, action: Move<u32>) -> bool {
    match found.table.action(conflict.state, conflict.token) {
        Action::Shift(_) => action == Move::Shift,
        Action::Reduce(production) => action == Move::Reduce(production),
        Action::Accept | Action::Error => false,
    }
}

/// What finds sentences that the parser rejects.
#[derive(Drop)]
pub struct LossSearch<'a> {
    found: &'a Findings,
    graph: &'a StateGraph<u32>,
    losses: Losses<'a>,
    /// Whether Bison's table may be another one; None until that is looked at.
    are_crowded: Option<bool>,
}

impl<'a> Model for LossSearch<'a> {
    ghost use Rattle.std.specs.Prelude.{◌≡◌, Some, false};
    ghost use Rattle.lrspec.specs.merging.Graph.{IsGraphOf};
    ghost use Rattle.lrspec.specs.tables.Table.{IsTableOf};
    ghost use Rattle.lrentries.specs.Losses.{Searched, searched, ResolvesPairs};

    ghost Value = { Searched };

    ghost view = { λ l. searched l.found.now l.graph.now };

    ghost invariant = { λ l. IsGraphOf l.found.now.grm l.graph.now
        × IsTableOf l.found.now.grm l.graph.now l.found.now.table
        × (l.are_crowded ≡ Some false → ResolvesPairs l.found.now) };
}

/// Whether the place is at the conflict.
fn is_at(place: Place<u32>, conflict: Conflict<u32>) -> bool
    ensures state { IsTrue result → place.state.0 ≡ conflict.state.0 }
    ensures token { IsTrue result → place.token.0 ≡ conflict.token.0 }
{
    place.state == conflict.state && place.token == conflict.token
}

impl<'a> LossSearch<'a> {
    /// In the table that was found, which is one of the graph, with so much work for all searches together.
    pub fn new(found: &'a Findings, graph: &'a StateGraph<u32>, work: usize) -> LossSearch<'a>
        requires graph { IsGraphOf found.now.grm graph.now }
        requires table { IsTableOf found.now.grm graph.now found.now.table }
        ensures { result ≡ searched found.entry.now graph.entry.now }
    {
        let losses = Losses::new(&found.grm, graph, &found.table);
        losses.allow(work);
        LossSearch {
            found,
            graph,
            losses,
            are_crowded: None,
        }
    }

    /// Looks whether Bison's table may be another one, where that isn't known yet: before, nothing is found.
    pub fn prepare(&mut self) -> Result<(), AllocError>
        ensures { self.new ≡ self.old }
    {
        if self.are_crowded.is_none() {
            self.are_crowded = Some(are_crowded(self.found.grm.allocator(), self.found)?);
        }
        Ok(())
    }

    /// Whether it is known that precedences resolve nothing where the table lists a conflict, so that Bison's table is the same.
    fn is_uncrowded(&self) -> bool
        ensures { IsTrue result → AreApart self.now.resolved self.now.listed }
    {
        self.are_crowded == Some(false)
    }

    /// Whether precedences make the cell of the place, which is an error, one, by `%nonassoc`: its token could be shifted there.
    fn has_shift(&self, place: Place<u32>) -> bool
        ensures { result ≡ false
            → edge self.now.graph place.state.0 (math.Token place.token.0) ≡ None }
    {
        let symbol = Symbol::Token(place.token);
        self.graph.edge(place.state, symbol).is_some()
    }

    /// A text that may be lost at the conflict by this candidate, behind so many others, where one is found; at most so many pairs of
    /// stacks are looked at.
    pub fn text_at(
        &self,
        conflict: Conflict<u32>,
        action: Move<u32>,
        passed_over: usize,
        pairs: usize,
    ) -> Result<Option<Written<u32>>, AllocError> {
        if !self.is_uncrowded() || is_taken(self.found, conflict, action) {
            return Ok(None);
        }
        let candidate = Candidate {
            state: conflict.state,
            token: conflict.token,
            action,
        };
        let Some(find) = self.losses.loss_at(candidate, passed_over, pairs)? else {
            return Ok(None);
        };
        let Find { text, loss } = find;
        loss.take_apart();
        Ok(Some(text))
    }

    /// The loss at the conflict that a text and the moves of its tree show. None where it is an error by `%nonassoc` that rejects the
    /// text, since that is what this is for; nor where Bison's table may be another one.
    pub fn loss_by(
        &self,
        conflict: Conflict<u32>,
        text: &Written<u32>,
        steps: usize,
    ) -> Result<Option<Loss>, AllocError>
        ensures { IfOk result (λ o.
            IfSome o (IsFoundLoss self.now conflict.state.0 conflict.token.0)) }
    {
        if !self.is_uncrowded() {
            return Ok(None);
        }
        let (grm, table) = (&self.found.grm, &self.found.table);
        let alloc = grm.allocator();
        let (tokens, moves) = (text.tokens.as_slice(), text.moves.as_slice());
        let Some(loss) = check_lost(alloc, grm, table, tokens, moves, steps)? else {
            return Ok(None);
        };
        let (parting, lost, rejected) = (loss.parting, loss.lost, loss.rejected);
        loss.take_apart();
        if !is_at(parting, conflict) {
            return Ok(None);
        }
        if self.has_shift(rejected) {
            return Ok(None);
        }
        let loss = Loss {
            tokens: numbers_of(alloc, tokens)?,
            steps: steps_of(alloc, moves)?,
            made: parting.steps,
            dot: parting.used,
            stop: rejected.used,
            lost: step_of(lost),
        };
        Ok(Some(loss))
    }

    /// Whether it is known that what the table does where the sentence goes wrong is to blame: behind that step no tree of it is left.
    fn is_doomed(&self, loss: &Loss) -> Result<bool, AllocError>
        ensures { IfOk result (λ b. IsTrue b → IsDoomedIn self.now loss.now) }
    {
        let (grm, table) = (&self.found.grm, &self.found.table);
        let Some(steps) = loss.made.checked_add(1) else {
            return Ok(false);
        };
        let Some(tokens) = tokens_of(grm.allocator(), loss.tokens.as_slice())? else {
            return Ok(false);
        };
        let is_known = has_no_tree_left(grm, self.graph, table, tokens.as_slice(), steps)?;
        Ok(is_known)
    }

    /// The sentence that is told of what was found, if anything: only one that is doomed, where that is asked.
    pub fn told_of(
        &self,
        found: Option<Loss>,
        must_be_doomed: bool,
    ) -> Result<Option<Loss>, AllocError>
        ensures { IfOk result (λ o. IfSome o (IsToldOf self.now found must_be_doomed)) }
    {
        let Some(loss) = found else {
            return Ok(None);
        };
        if !must_be_doomed {
            return Ok(Some(loss));
        }
        let is_known = self.is_doomed(&loss)?;
        if !is_known {
            return Ok(None);
        }
        Ok(Some(loss))
    }
}
