//! The parser of a file's grammar.

ghost use Rattle.lrspec.specs.tables.Recognition.{AreNamed};
ghost use Rattle.lrparsing.specs.Machines.{numbers};
ghost use Rattle.lrparsing.specs.Lines.{AreSpelled};

use crate::machines::Machine;
use crate::spellings::Spelling;
use lrgrammar::idx::TIdx;
use lryacc::FileGrammar;

/// The parser of a file's grammar, of which lines of tokens are tried.
#[derive(Drop)]
pub struct Parser {
    /// The grammar, as it was read.
    pub file: FileGrammar,
    /// The machine of the same grammar, with its precedences unless they were left out or decide nothing.
    pub(crate) machine: Machine,
    /// The names of tokens.
    pub(crate) spellings: Vec<Spelling>,
    /// The token that stands before those of a line, where there are several start rules: that of the first one.
    pub(crate) front: Vec<TIdx<u32>>,
    /// The token that stands behind them.
    pub(crate) behind: Vec<TIdx<u32>>,
    ghost spelled: { AreSpelled machine.grammar spellings.items },
    ghost named_front: { AreNamed machine.grammar (numbers front.items) },
    ghost named_behind: { AreNamed machine.grammar (numbers behind.items) },
}
