//! Lines that are answered by trees.

ghost use Rattle.lrspec.specs.tables.Table.{IsTableFor};
ghost use Rattle.lrspec.specs.texts.TreeTexts.{parse_text, tree_answer};
ghost use Rattle.lrspec.specs.tables.Recognition.{AreNamed};
ghost use Rattle.lrtable.specs.Answered.{AreAnswered, AreFaultsTold};
ghost use Rattle.lrtable.specs.RunAnswers.{text_of};
ghost use Rattle.lrtree.specs.StoredPieces.{ArePieces};
ghost use Rattle.std.specs.Prelude.{◌≡◌, ◌++◌, OnOk};

use crate::pieces::Pieces;
use lrgrammar::grammar::YaccGrammar;
use lrgrammar::idx::{IndexStorage, TIdx};
use lrtable::machine::{
    LineAnswers, LineError, LineRead, LineWrite, Verdict, answer_lines, line_tokens, run,
};
use lrtable::statetable::StateTable;
use std::alloc::{AllocError, Global};

/// Answers a line by the tree of the tokens that its words name.
#[derive(Drop)]
struct TreeLines<'a, T: IndexStorage> {
    grm: &'a YaccGrammar<T>,
    table: &'a StateTable<T>,
    /// How many steps a run makes at most.
    steps: usize,
}

impl<'a, T: IndexStorage> TreeLines<'a, T> {
    /// Writes what the text came to behind `out`, by the pieces of the grammar.
    fn push_parsed(
        &self,
        pieces: &Pieces,
        text: &[TIdx<T>],
        out: &mut Vec<u8>,
    ) -> Result<(), AllocError>
        requires table_for { IsTableFor self.now.grm.now self.now.table.now }
        requires pieces { ArePieces self.now.grm.now pieces.now.nodes.items }
        requires named { AreNamed self.now.grm.now (text_of T.number text.now) }
        ensures { OnOk result (out.new.items ≡ out.old.items
            ++ parse_text self.now.grm.now self.now.table.now self.now.steps
            (text_of T.number text.now)) }
    {
        let ran = run(self.grm.allocator(), self.grm, self.table, text, self.steps)?;
        match ran.verdict {
            Verdict::Accepted => {
                out.extend_from_slice("tree ".as_bytes())?;
                pieces.push_tree(self.grm, ran.reductions, out)
            }
            Verdict::Rejected => out.extend_from_slice("reject".as_bytes()),
            Verdict::Unfinished => out.extend_from_slice("unfinished".as_bytes()),
        }
    }
}

impl<'a, T: IndexStorage> LineAnswers for TreeLines<'a, T> {
    /// The pieces of the grammar.
    type Prepared = Pieces;

    ghost answer = { λ r. tree_answer r.grm.now r.table.now r.steps };

    ghost can_answer = { λ r. IsTableFor r.grm.now r.table.now };

    ghost is_prepared = { λ r pieces. ArePieces r.grm.now pieces.nodes.items };

    fn prepare(&self) -> Result<Pieces, AllocError> {
        Pieces::new(self.grm)
    }

    fn answer(&self, pieces: &Pieces, line: &[u8], out: &mut Vec<u8>) -> Result<(), AllocError> {
        match line_tokens(self.grm, line)? {
            Ok(tokens) => self.push_parsed(pieces, &tokens, out),
            Err(word) => {
                out.extend_from_slice("unknown ".as_bytes())?;
                out.extend_from_slice(word)
            }
        }
    }
}

/// Answers all lines that a reader gives up to its end, each by the tree of the tokens that its words name, where the machine
/// accepts them in at most so many steps. Words stand between spaces and tabs.
///
/// The answer is a line too: `tree` and the text of the tree, as `Tree::pp` tells it; or `reject` or `unfinished`; or
/// `unknown`, and the first word that names no token. The table is one of the grammar. After a fault the rest is as
/// `run_lines` has it.
pub fn tree_lines<T: IndexStorage, R: LineRead, W: LineWrite>(
    alloc: Global,
    reader: &mut R,
    writer: &mut W,
    grm: &YaccGrammar<T>,
    table: &StateTable<T>,
    steps: usize,
) -> Result<(), LineError>
    requires { IsTableFor grm.now table.now }
    ensures answered { AreAnswered (tree_answer grm.now table.now steps) result
        (R.left reader.old) (R.left reader.new) (W.written writer.old) (W.written writer.new) }
    ensures faults { AreFaultsTold result (R.left reader.old) (R.left reader.new)
        (R.failures reader.old) (R.failures reader.new)
        (W.failures writer.old) (W.failures writer.new) }
{
    let answers = TreeLines { grm, table, steps };
    answer_lines(alloc, reader, writer, &answers)
}
