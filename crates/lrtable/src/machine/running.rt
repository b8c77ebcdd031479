//! Runs of the machine.

ghost use Rattle.std.specs.Prelude.{◌≡◌, ℕ, ◌<◌, List, length, IfOk};
ghost use Rattle.lrgrammar.specs.declared.idx.TIdx.{TIdx};
ghost use Rattle.lrspec.specs.tables.Table.{IsTableFor, IsUncrowded};
ghost use Rattle.lrspec.specs.tables.Machine as math;
ghost use Rattle.lrspec.specs.tables.Machine.{Goes, reduce_by, start_config};
ghost use Rattle.lrspec.specs.tables.Recognition.{AreNamed, HasTreeIfAccepted, IsAcceptedIfSentence, ShiftedBeginsSentence, ShiftsWhatIsTaken, IsNeverStuck, IsUnambiguous, HasTrees};
ghost use Rattle.lrspec.specs.tables.LrTables.{HasNoPrecedences, ListsNothing, Recognises};
ghost use Rattle.lrtable.specs.RunAnswers.{text_of, answer_of};
ghost use Rattle.lrtable.specs.WorkingMachine.{stack_of, config_of, Tells};
ghost use Rattle.lrtable.specs.Reached.{IsReached, CanReduce};

use crate::machine::runs::{Run, Verdict};
use crate::statetable::{Action, StateTable};
use lrgrammar::grammar::YaccGrammar;
use lrgrammar::idx::{IndexStorage, PIdx, StIdx, TIdx};
use std::alloc::{AllocError, Global};

/// The machine at work on a text.
#[derive(Drop)]
struct Machine<T> {
    /// The states that were pushed and not dropped, the last one on top.
    stack: Vec<StIdx<T>>,
    /// How many tokens of the text were shifted.
    used: usize,
    /// The productions by which it reduced, in order.
    reductions: Vec<PIdx<T>>,
}

impl<T: IndexStorage> Machine<T> {
    /// The machine before its first step.
    fn new(alloc: Global, table: &StateTable<T>) -> Result<Machine<T>, AllocError>
        ensures { IfOk result (λ m. (text : List (TIdx T)) →
            config_of T.number m text ≡ start_config table.now (text_of T.number text)) }
    {
        let mut stack = Vec::new(alloc);
        stack.push(table.start_state())?;
        Ok(Machine {
            stack,
            used: 0,
            reductions: Vec::new(alloc),
        })
    }

    /// The state on top of the stack.
    fn top(&self) -> StIdx<T>
        requires { 0 < length self.now.stack.items }
        ensures { T.number result.0 ≡ math.top (stack_of T.number self.now.stack.items) }
    {
        self.stack[self.stack.len() - 1]
    }

    /// The next token, or the end token where the text is used up.
    fn next_token(&self, grm: &YaccGrammar<T>, text: &[TIdx<T>]) -> TIdx<T>
        ensures { T.number result.0
            ≡ math.next_token grm.now (config_of T.number self.now text.now).left }
    {
        match text.get(self.used) {
            Some(token) => *token,
            None => grm.eof_token_idx(),
        }
    }

    /// Drops as many states as the body of the production is long, and pushes the one to which its rule leads.
    fn reduce(
        &mut self,
        grm: &YaccGrammar<T>,
        table: &StateTable<T>,
        pidx: PIdx<T>,
    ) -> Result<(), AllocError>
        requires { CanReduce grm.now table.now (T.number pidx.0)
            (stack_of T.number self.old.stack.items) }
        ensures { IfOk result (λ _. (text : List (TIdx T)) →
            reduce_by grm.now table.now (T.number pidx.0) (config_of T.number self.old text)
            ≡ Goes (config_of T.number self.new text)) }
    {
        let kept = self.stack.len() - usize::from(grm.prod_len(pidx));
        self.stack.truncate(kept);
        let stidx = table.goto(self.top(), grm.prod_to_rule(pidx)).unwrap();
        self.stack.push(stidx)?;
        self.reductions.push(pidx)?;
        Ok(())
    }

    /// One step, by the cell of the top state and the next token; the verdict where that ends the run.
    fn step(
        &mut self,
        grm: &YaccGrammar<T>,
        table: &StateTable<T>,
        text: &[TIdx<T>],
    ) -> Result<Option<Verdict>, AllocError>
        requires table_for { IsTableFor grm.now table.now }
        requires named { AreNamed grm.now (text_of T.number text.now) }
        requires reached { IsReached grm.now table.now (text_of T.number text.now)
            (config_of T.number self.old text.now) }
        ensures { let before = config_of T.number self.old text.now in
            let after = config_of T.number self.new text.now in
            IfOk result (λ v. Tells v before after (math.step grm.now table.now before)) }
    {
        grm.in_order();
        match table.action(self.top(), self.next_token(grm, text)) {
            Action::Shift(stidx) => {
                // the end token is never shifted
                prove!(self.used < text.len());
                self.stack.push(stidx)?;
                self.used += 1;
                Ok(None)
            }
            Action::Reduce(pidx) => {
                self.reduce(grm, table, pidx)?;
                Ok(None)
            }
            Action::Accept => Ok(Some(Verdict::Accepted)),
            Action::Error => Ok(Some(Verdict::Rejected)),
        }
    }
}

/// The steps of `run`.
fn drive<T: IndexStorage>(
    alloc: Global,
    grm: &YaccGrammar<T>,
    table: &StateTable<T>,
    text: &[TIdx<T>],
    steps: usize,
) -> Result<Run<T>, AllocError>
    requires table_for { IsTableFor grm.now table.now }
    requires named { AreNamed grm.now (text_of T.number text.now) }
    ensures { IfOk result (λ r. answer_of T.number r
        ≡ math.run grm.now table.now steps (text_of T.number text.now)) }
{
    let mut machine = Machine::new(alloc, table)?;
    for made in 0..steps {
        if let Some(verdict) = machine.step(grm, table, text)? {
            return Ok(Run {
                verdict,
                steps: made + 1,
                reductions: machine.reductions,
            });
        }
    }
    Ok(Run {
        verdict: Verdict::Unfinished,
        steps,
        reductions: machine.reductions,
    })
}

/// Runs the machine of the table on the text, for at most so many steps, each of which looks at one cell.
///
/// The table is one of the grammar, and the tokens of the text are named ones. Where no cell has more than one to choose
/// from, exactly the sentences are accepted, each in as many steps as it has tokens and its tree has nodes, and one more.
pub fn run<T: IndexStorage>(
    alloc: Global,
    grm: &YaccGrammar<T>,
    table: &StateTable<T>,
    text: &[TIdx<T>],
    steps: usize,
) -> Result<Run<T>, AllocError>
    requires table_for { IsTableFor grm.now table.now }
    requires named { AreNamed grm.now (text_of T.number text.now) }
    ensures answer { IfOk result (λ r. answer_of T.number r
        ≡ math.run grm.now table.now steps (text_of T.number text.now)) }
    ensures never_stuck { IsNeverStuck grm.now table.now }
    ensures sound { IfOk result (λ r.
        HasTreeIfAccepted grm.now (text_of T.number text.now) (answer_of T.number r)) }
    ensures complete { IfOk result (λ r. IsUncrowded grm.now table.now →
        IsAcceptedIfSentence grm.now steps (text_of T.number text.now) (answer_of T.number r)) }
    ensures one_tree { IsUncrowded grm.now table.now → IsUnambiguous grm.now }
    ensures shifts { IfOk result (λ r. HasTrees grm.now →
        ShiftedBeginsSentence grm.now (text_of T.number text.now) (answer_of T.number r)) }
    ensures shifts_taken { ShiftsWhatIsTaken grm.now table.now }
    ensures recognises { HasNoPrecedences grm.now → ListsNothing table.now
        → Recognises grm.now table.now }
{
    grm.in_order();
    drive(alloc, grm, table, text, steps)
}
