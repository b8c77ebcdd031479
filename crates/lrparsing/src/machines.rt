//! The machine of a grammar's table.

ghost use Rattle.std.specs.Prelude.{◌≡◌, ◌<◌, ◌≤◌, ◌^◌, IfOk, length};
ghost use Rattle.lrspec.specs.grammars.Grammar.{end_token};
ghost use Rattle.lrspec.specs.tables.Recognition as recognition;
ghost use Rattle.lrspec.specs.tables.Recognition.{AreNamed, HasTrees, ShiftsBeginnings};
ghost use Rattle.lrspec.specs.tables.Table.{IsTableFor};
ghost use Rattle.lrtable.specs.RunAnswers.{answer_of};
ghost use Rattle.lrtree.specs.ParsedTexts.{HasTheTree, Tells};
ghost use Rattle.lrparsing.specs.Machines.{numbers, run_by};

use lrgrammar::grammar::YaccGrammar;
use lrgrammar::idx::TIdx;
use lrtable::StateTable;
use lrtable::machine::{Run, Verdict, run};
use lrtree::{Parsed, parse};
use std::alloc::{AllocError, Global};
use std::marker::Model;

/// The machine of a table, which makes so many steps on a text at the most.
#[derive(Drop)]
pub(crate) struct Machine {
    grm: YaccGrammar<u32>,
    table: StateTable<u32>,
    steps: usize,
}

impl Model for Machine {
    ghost use Rattle.lrspec.specs.tables.Table.{IsTableFor};
    ghost use Rattle.lrparsing.specs.Machines.{Tabled};

    ghost Value = { Tabled };

    ghost view = { λ m. record { grammar = m.grm; table = m.table; steps = m.steps } };

    ghost invariant = { λ m. IsTableFor m.grm m.table };
}

/// How many tokens a run has shifted.
fn shifted(ran: &Run<u32>) -> usize
    ensures { result ≡ recognition.shifted (answer_of (λ n. n) ran.now) }
{
    let last = match ran.verdict {
        Verdict::Unfinished => 0,
        Verdict::Accepted | Verdict::Rejected => 1,
    };
    ran.steps
        .saturating_sub(ran.reductions.len())
        .saturating_sub(last)
}

impl Machine {
    /// The machine of a table that is one of the grammar.
    pub(crate) fn new(grm: YaccGrammar<u32>, table: StateTable<u32>, steps: usize) -> Machine
        requires { IsTableFor grm table }
        ensures { result ≡ record { grammar = grm; table = table; steps = steps } }
    {
        Machine { grm, table, steps }
    }

    /// The allocator of its grammar.
    pub(crate) fn allocator(&self) -> Global {
        self.grm.allocator()
    }

    /// How many steps it makes at the most.
    pub(crate) fn steps(&self) -> usize
        ensures { result ≡ self.now.steps }
    {
        self.steps
    }

    /// How many tokens its grammar has, which have the numbers below that.
    pub(crate) fn tokens_len(&self) -> usize
        ensures count { result ≡ end_token self.now.grammar }
        ensures index { result < 2 ^ 32 }
    {
        usize::from(self.grm.eof_token_idx())
    }

    /// What a text comes to.
    pub(crate) fn parse(&self, text: &[TIdx<u32>]) -> Result<Parsed<u32>, AllocError>
        requires { AreNamed self.now.grammar (numbers text.now) }
        ensures verdict { IfOk result (λ r. Tells r (run_by self.now (numbers text.now)).verdict) }
        ensures tree { IfOk result (HasTheTree (λ n. n) self.now.grammar (numbers text.now)
            (run_by self.now (numbers text.now)).reductions) }
    {
        let alloc = self.grm.allocator();
        parse(alloc, &self.grm, &self.table, text, self.steps)
    }

    /// How many tokens of a text it shifts.
    pub(crate) fn shifted(&self, text: &[TIdx<u32>]) -> Result<usize, AllocError>
        requires { AreNamed self.now.grammar (numbers text.now) }
        ensures count { IfOk result (λ n.
            n ≡ recognition.shifted (run_by self.now (numbers text.now))) }
        ensures within { IfOk result (λ n. n ≤ length text.now) }
        ensures begins { HasTrees self.now.grammar
            → ShiftsBeginnings self.now.grammar self.now.table }
    {
        self.grm.in_order();
        let alloc = self.grm.allocator();
        let ran = run(alloc, &self.grm, &self.table, text, self.steps)?;
        Ok(shifted(&ran))
    }
}
