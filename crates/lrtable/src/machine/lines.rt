//! Lines that the machine answers.

ghost use Rattle.lrspec.specs.tables.Table.{IsTableFor};
ghost use Rattle.lrspec.specs.texts.MachineLines.{line_answer};
ghost use Rattle.lrtable.specs.Answered.{AreAnswered, AreFaultsTold};
ghost use Rattle.lrtable.specs.Labels.{AreLabels};

use crate::machine::answers::{line_tokens, production_labels, push_run};
use crate::machine::running::run;
use crate::statetable::StateTable;
use lrgrammar::grammar::YaccGrammar;
use lrgrammar::idx::IndexStorage;
use lrlines::{LineAnswers, LineError, LineRead, LineWrite, answer_lines};
use std::alloc::{AllocError, Global};

/// Answers a line by a run on the tokens that its words name.
#[derive(Drop)]
struct RunLines<'a, T: IndexStorage> {
    grm: &'a YaccGrammar<T>,
    table: &'a StateTable<T>,
    /// How many steps a run makes at most.
    steps: usize,
}

impl<'a, T: IndexStorage> LineAnswers for RunLines<'a, T> {
    /// The labels of the grammar's productions.
    type Prepared = Vec<String>;

    ghost answer = { λ r. line_answer r.grm.now r.table.now r.steps };

    ghost can_answer = { λ r. IsTableFor r.grm.now r.table.now };

    ghost is_prepared = { λ r labels. AreLabels r.grm.now labels.items };

    fn prepare(&self) -> Result<Vec<String>, AllocError> {
        production_labels(self.grm)
    }

    fn answer(
        &self,
        labels: &Vec<String>,
        line: &[u8],
        out: &mut Vec<u8>,
    ) -> Result<(), AllocError> {
        let alloc = self.grm.allocator();
        match line_tokens(self.grm, line)? {
            Ok(tokens) => {
                let ran = run(alloc, self.grm, self.table, &tokens, self.steps)?;
                push_run(self.grm, labels, &ran, out)
            }
            Err(word) => {
                out.extend_from_slice("unknown ".as_bytes())?;
                out.extend_from_slice(word)
            }
        }
    }
}

/// Answers all lines that a reader gives up to its end, each by a run of the machine on the tokens that its words name,
/// of at most so many steps. Words stand between spaces and tabs.
///
/// The answer is a line too: `accept`, the number of steps, and for each reduction its rule and its place among the
/// productions of the rule; or `reject` or `unfinished`, and the number of steps; or `unknown`, and the first word that
/// names no token. The table is one of the grammar.
pub fn run_lines<T: IndexStorage, R: LineRead, W: LineWrite>(
    alloc: Global,
    reader: &mut R,
    writer: &mut W,
    grm: &YaccGrammar<T>,
    table: &StateTable<T>,
    steps: usize,
) -> Result<(), LineError>
    requires { IsTableFor grm.now table.now }
    ensures answered { AreAnswered (line_answer grm.now table.now steps) result
        (R.left reader.old) (R.left reader.new) (W.written writer.old) (W.written writer.new) }
    ensures faults { AreFaultsTold result (R.left reader.old) (R.left reader.new)
        (R.failures reader.old) (R.failures reader.new)
        (W.failures writer.old) (W.failures writer.new) }
{
    let answers = RunLines { grm, table, steps };
    answer_lines(alloc, reader, writer, &answers)
}
