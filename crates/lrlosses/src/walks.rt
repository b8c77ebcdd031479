//! The machine on its way through a text, with or without given moves.

ghost use Rattle.std.specs.Prelude.{◌≡◌, ◌≢◌, ℕ, ◌<◌, ◌+◌, List, [], ◌∷◌, ◌++◌, length, IfOk, IfSome, IfNone, IsTrue, ◌↔◌};
ghost use Rattle.lrgrammar.specs.declared.idx.PIdx.{PIdx};
ghost use Rattle.lrgrammar.specs.declared.idx.TIdx.{TIdx};
ghost use Rattle.lrspec.specs.grammars.Grammar.{Grammar};
ghost use Rattle.lrspec.specs.tables.Table.{IsTableFor};
ghost use Rattle.lrspec.specs.tables.Machine as math;
ghost use Rattle.lrspec.specs.tables.Machine.{Goes, reduce_by};
ghost use Rattle.lrspec.specs.tables.Recognition.{AreNamed};
ghost use Rattle.lrrows.specs.StoredActions.{stored_action};
ghost use Rattle.lrtable.specs.Reached.{CanReduce};
ghost use Rattle.lrtable.specs.RunAnswers.{text_of};
ghost use Rattle.lrconflicts.specs.StoredMoves.{move_of, moves_stored};
ghost use Rattle.lrlosses.specs.Losses.{Takes, GoesAlong, PartsAt, StopsAt};
ghost use Rattle.lrlosses.specs.StoredLosses.{place_of};
ghost use Rattle.lrlosses.specs.Walks.{stack_of, left_of, config_of, cell_of, HasCome, GoesOn};

use lrconflicts::Move;
use lrgrammar::grammar::YaccGrammar;
use lrgrammar::idx::{IndexStorage, PIdx, StIdx, TIdx};
use lrtable::{Action, StateTable};
use std::alloc::{AllocError, Global};

/// A place in the run of a table's machine on a text.
#[derive(Clone, Copy, Debug, PartialEq, Eq)]
pub struct Place<T> {
    /// How many steps were made.
    pub steps: usize,
    /// How many tokens of the text were taken.
    pub used: usize,
    /// The state on top of the stack.
    pub state: StIdx<T>,
    /// The next token, or the end token where the text is used up.
    pub token: TIdx<T>,
}

/// Whether the cell says to make this move.
fn takes<T: IndexStorage>(cell: Action<T>, action: Move<T>) -> bool
    ensures { IsTrue result ↔ Takes (stored_action T.number cell) (move_of T.number action) }
{
    match (cell, action) {
        (Action::Shift(_), Move::Shift) => true,
        (Action::Reduce(one), Move::Reduce(other)) => one == other,
        _ => false,
    }
}

/// The machine on its way through a text.
#[derive(Drop)]
pub(crate) struct Walk<T> {
    /// The states that were pushed and not dropped, the last one on top.
    stack: Vec<StIdx<T>>,
    /// How many tokens of the text were taken.
    used: usize,
}

impl<T: IndexStorage> Walk<T> {
    /// The machine before its first step.
    pub(crate) fn new(alloc: Global, table: &StateTable<T>) -> Result<Walk<T>, AllocError>
        ensures { IfOk result (λ w. (g : Grammar) (text : List (TIdx T))
            → HasCome T.number g table.now text 0 w) }
    {
        let mut stack = Vec::new(alloc);
        stack.push(table.start_state())?;
        Ok(Walk { stack, used: 0 })
    }

    /// The state on top of the stack.
    fn top(&self) -> StIdx<T>
        requires { 0 < length self.now.stack.items }
        ensures { T.number result.0 ≡ math.top (stack_of T.number self.now.stack.items) }
    {
        self.stack[self.stack.len() - 1]
    }

    /// The next token, or the end token where the text is used up.
    fn next_token(&self, grm: &YaccGrammar<T>, text: &[TIdx<T>]) -> TIdx<T>
        ensures { T.number result.0 ≡ math.next_token grm.now (left_of T.number self.now text.now) }
    {
        match text.get(self.used) {
            Some(token) => *token,
            None => grm.eof_token_idx(),
        }
    }

    /// Where it is, after so many steps.
    fn place(&self, grm: &YaccGrammar<T>, text: &[TIdx<T>], steps: usize) -> Place<T>
        requires { 0 < length self.now.stack.items }
        ensures steps { result.steps ≡ steps }
        ensures used { result.used ≡ self.now.used }
        ensures state { T.number result.state.0
            ≡ math.top (stack_of T.number self.now.stack.items) }
        ensures token { T.number result.token.0
            ≡ math.next_token grm.now (left_of T.number self.now text.now) }
    {
        Place {
            steps,
            used: self.used,
            state: self.top(),
            token: self.next_token(grm, text),
        }
    }

    /// Drops as many states as the body of the production is long, and pushes the one to which its rule leads.
    fn reduce(
        &mut self,
        grm: &YaccGrammar<T>,
        table: &StateTable<T>,
        pidx: PIdx<T>,
    ) -> Result<(), AllocError>
        requires { CanReduce grm.now table.now (T.number pidx.0)
            (stack_of T.number self.old.stack.items) }
        ensures step { IfOk result (λ _. (text : List (TIdx T)) (rs : List (PIdx T)) →
            reduce_by grm.now table.now (T.number pidx.0) (config_of T.number self.old text rs)
            ≡ Goes (config_of T.number self.new text (rs ++ pidx ∷ []))) }
        ensures used { self.new.used ≡ self.old.used }
    {
        let kept = self.stack.len() - usize::from(grm.prod_len(pidx));
        self.stack.truncate(kept);
        let stidx = table.goto(self.top(), grm.prod_to_rule(pidx)).unwrap();
        self.stack.push(stidx)?;
        Ok(())
    }

    /// Makes the step that the cell says; where that is to accept or an error, there is none.
    fn go(
        &mut self,
        grm: &YaccGrammar<T>,
        table: &StateTable<T>,
        text: &[TIdx<T>],
        cell: Action<T>,
    ) -> Result<(), AllocError>
        requires table_for { IsTableFor grm.now table.now }
        requires named { AreNamed grm.now (text_of T.number text.now) }
        requires come { (n : ℕ) × HasCome T.number grm.now table.now text.now n self.old }
        requires cell { stored_action T.number cell
            ≡ cell_of T.number grm.now table.now self.old text.now }
        ensures { IfOk result (λ _. GoesOn (stored_action T.number cell) → (n : ℕ)
            → HasCome T.number grm.now table.now text.now n self.old
            → HasCome T.number grm.now table.now text.now (n + 1) self.new) }
    {
        grm.in_order();
        match cell {
            Action::Shift(stidx) => {
                // the end token is never shifted
                prove!(self.used < text.len());
                self.stack.push(stidx)?;
                self.used += 1;
                Ok(())
            }
            Action::Reduce(pidx) => self.reduce(grm, table, pidx),
            Action::Accept | Action::Error => Ok(()),
        }
    }

    /// Goes as long as the cells take the moves; where one doesn't take its move, the place and the move.
    pub(crate) fn follow(
        &mut self,
        grm: &YaccGrammar<T>,
        table: &StateTable<T>,
        text: &[TIdx<T>],
        moves: &[Move<T>],
    ) -> Result<Option<(Place<T>, Move<T>)>, AllocError>
        requires table_for { IsTableFor grm.now table.now }
        requires named { AreNamed grm.now (text_of T.number text.now) }
        requires come { HasCome T.number grm.now table.now text.now 0 self.old }
        ensures parts { IfOk result (λ o. IfSome o (λ x. PartsAt grm.now table.now
            (text_of T.number text.now) (moves_stored T.number moves.now)
            (place_of T.number x.0) (move_of T.number x.1))) }
        ensures come { IfOk result (λ o. IfSome o (λ x.
            HasCome T.number grm.now table.now text.now x.0.steps self.new)) }
        ensures along { IfOk result (λ o. IfNone o (GoesAlong grm.now table.now
            (text_of T.number text.now) (moves_stored T.number moves.now) (length moves.now))) }
    {
        grm.in_order();
        for (made, action) in moves.iter().enumerate() {
            let place = self.place(grm, text, made);
            let cell = table.action(place.state, place.token);
            if !takes(cell, *action) {
                return Ok(Some((place, *action)));
            }
            self.go(grm, table, text, cell)?;
        }
        Ok(None)
    }

    /// Goes on from so many steps until a cell is an error, and says where; None where the text is accepted, or so many steps
    /// in all don't end the run.
    pub(crate) fn go_on(
        &mut self,
        grm: &YaccGrammar<T>,
        table: &StateTable<T>,
        text: &[TIdx<T>],
        from: usize,
        steps: usize,
    ) -> Result<Option<Place<T>>, AllocError>
        requires table_for { IsTableFor grm.now table.now }
        requires named { AreNamed grm.now (text_of T.number text.now) }
        requires come { HasCome T.number grm.now table.now text.now from self.old }
        ensures stops { IfOk result (λ o. IfSome o (λ x. StopsAt grm.now table.now
            (text_of T.number text.now) (place_of T.number x))) }
        ensures none { IfOk result (λ o. IfNone o
            ((math.run grm.now table.now steps (text_of T.number text.now)).verdict
            ≢ math.Rejected)) }
    {
        grm.in_order();
        for made in from..steps {
            let place = self.place(grm, text, made);
            match table.action(place.state, place.token) {
                Action::Accept => return Ok(None),
                Action::Error => return Ok(Some(place)),
                cell => self.go(grm, table, text, cell)?,
            }
        }
        Ok(None)
    }
}
