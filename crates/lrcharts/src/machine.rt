//! The machine of a table on a text: the moves by which it accepts, and where it is after some steps.

ghost use Rattle.std.specs.Prelude.{◌≡◌, ℕ, ◌<◌, ◌+◌, List, [], ◌∷◌, ◌++◌, length, IfOk, IfSome, IsTrue};
ghost use Rattle.lrgrammar.specs.declared.idx.PIdx.{PIdx};
ghost use Rattle.lrgrammar.specs.declared.idx.TIdx.{TIdx};
ghost use Rattle.lrspec.specs.grammars.Grammar.{Grammar};
ghost use Rattle.lrspec.specs.tables.Machine as math;
ghost use Rattle.lrspec.specs.tables.Machine.{Goes, reduce_by};
ghost use Rattle.lrrows.specs.StoredActions.{stored_action};
ghost use Rattle.lrtable.specs.RunAnswers.{text_of};
ghost use Rattle.lrtable.specs.WorkingMachine.{stack_of};
ghost use Rattle.lrgrammar.specs.Symbols.{number_of};
ghost use Rattle.lrcharts.specs.Machines.{left_of, config_of, cell_of, HasCome};

use lrconflicts::Move;
use lrgrammar::grammar::YaccGrammar;
use lrgrammar::idx::{PIdx, StIdx, TIdx};
use lrtable::{Action, StateTable};
use std::alloc::{AllocError, Global};

/// The machine on its way through a text.
#[derive(Drop)]
pub(crate) struct Machine {
    /// The states that were pushed and not dropped, the last one on top.
    pub(crate) stack: Vec<StIdx<u32>>,
    /// How many tokens of the text were taken.
    pub(crate) used: usize,
}

impl Machine {
    /// Before its first step.
    fn new(alloc: Global, table: &StateTable<u32>) -> Result<Machine, AllocError>
        ensures { IfOk result (λ m. (g : Grammar) (text : List (TIdx ℕ))
            → HasCome g table.now text 0 m) }
    {
        let mut stack = Vec::new(alloc);
        stack.push(table.start_state())?;
        Ok(Machine { stack, used: 0 })
    }

    /// The state on top of the stack.
    pub(crate) fn top(&self, table: &StateTable<u32>) -> StIdx<u32>
        ensures { 0 < length self.now.stack.items
            → result.0 ≡ math.top (stack_of number_of self.now.stack.items) }
    {
        match self.stack.last() {
            Some(state) => *state,
            None => table.start_state(),
        }
    }

    /// The next token, or the end token where the text is used up.
    pub(crate) fn next_token(&self, grm: &YaccGrammar<u32>, text: &[TIdx<u32>]) -> TIdx<u32>
        ensures { result.0 ≡ math.next_token grm.now (left_of self.now text.now) }
    {
        match text.get(self.used) {
            Some(token) => *token,
            None => grm.eof_token_idx(),
        }
    }

    /// The cell at which it looks.
    fn cell(
        &self,
        grm: &YaccGrammar<u32>,
        table: &StateTable<u32>,
        text: &[TIdx<u32>],
    ) -> Action<u32>
        ensures { 0 < length self.now.stack.items
            → stored_action number_of result ≡ cell_of grm.now table.now self.now text.now }
    {
        table.action(self.top(table), self.next_token(grm, text))
    }

    /// Shifts the next token; false where there is none.
    fn shift(&mut self, text: &[TIdx<u32>], state: StIdx<u32>) -> Result<bool, AllocError>
        ensures stack { IfOk result (λ b. IsTrue b
            → self.new.stack.items ≡ self.old.stack.items ++ state ∷ []) }
        ensures used { IfOk result (λ b. IsTrue b → self.new.used ≡ self.old.used + 1) }
    {
        if self.used >= text.len() {
            return Ok(false);
        }
        self.stack.push(state)?;
        self.used += 1;
        Ok(true)
    }

    /// Drops as many states as the body of the production is long, and pushes the one to which its rule leads; false where that can't
    /// be done.
    fn reduce(
        &mut self,
        grm: &YaccGrammar<u32>,
        table: &StateTable<u32>,
        production: PIdx<u32>,
    ) -> Result<bool, AllocError>
        ensures deep { IfOk result (λ b. IsTrue b → 0 < length self.new.stack.items) }
        ensures step { IfOk result (λ b. IsTrue b → (text : List (TIdx ℕ)) (rs : List (PIdx ℕ)) →
            reduce_by grm.now table.now production.0 (config_of self.old text rs)
            ≡ Goes (config_of self.new text (rs ++ production ∷ []))) }
        ensures used { self.new.used ≡ self.old.used }
    {
        if usize::from(production) >= usize::from(grm.prods_len()) {
            return Ok(false);
        }
        let count = usize::from(grm.prod_len(production));
        if self.stack.len() <= count {
            return Ok(false);
        }
        self.stack.truncate(self.stack.len() - count);
        let Some(state) = table.goto(self.top(table), grm.prod_to_rule(production)) else {
            return Ok(false);
        };
        self.stack.push(state)?;
        Ok(true)
    }

    /// Makes the step that the cell says; false where there is none.
    fn go(
        &mut self,
        grm: &YaccGrammar<u32>,
        table: &StateTable<u32>,
        text: &[TIdx<u32>],
        cell: Action<u32>,
    ) -> Result<bool, AllocError>
        ensures { IfOk result (λ b. IsTrue b → (n : ℕ)
            → stored_action number_of cell ≡ cell_of grm.now table.now self.old text.now
            → HasCome grm.now table.now text.now n self.old
            → HasCome grm.now table.now text.now (n + 1) self.new) }
    {
        match cell {
            Action::Shift(state) => {
                let is_made = self.shift(text, state)?;
                Ok(is_made)
            }
            Action::Reduce(production) => {
                let is_made = self.reduce(grm, table, production)?;
                Ok(is_made)
            }
            Action::Accept | Action::Error => Ok(false),
        }
    }
}

/// The moves by which the machine comes to accept the text; None where it doesn't in so many steps. What they are worth is to be
/// checked.
pub fn accepting_moves(
    alloc: Global,
    grm: &YaccGrammar<u32>,
    table: &StateTable<u32>,
    text: &[TIdx<u32>],
    steps: usize,
) -> Result<Option<Vec<Move<u32>>>, AllocError> {
    let mut machine = Machine::new(alloc, table)?;
    let mut moves = Vec::new(alloc);
    for _ in 0..steps {
        let cell = machine.cell(grm, table, text);
        match cell {
            Action::Accept => return Ok(Some(moves)),
            Action::Error => return Ok(None),
            Action::Shift(_) => moves.push(Move::Shift)?,
            Action::Reduce(production) => moves.push(Move::Reduce(production))?,
        }
        if !machine.go(grm, table, text, cell)? {
            return Ok(None);
        }
    }
    Ok(None)
}

/// The machine after so many steps on the text; None where it doesn't come so far.
pub(crate) fn machine_after(
    alloc: Global,
    grm: &YaccGrammar<u32>,
    table: &StateTable<u32>,
    text: &[TIdx<u32>],
    steps: usize,
) -> Result<Option<Machine>, AllocError>
    ensures { IfOk result (λ o. IfSome o (HasCome grm.now table.now text.now steps)) }
{
    let mut machine = Machine::new(alloc, table)?;
    for _ in 0..steps {
        let cell = machine.cell(grm, table, text);
        if !machine.go(grm, table, text, cell)? {
            return Ok(None);
        }
    }
    Ok(Some(machine))
}
