//! Parsing: the tree of a text.

ghost use Rattle.std.specs.Prelude.{IfOk};
ghost use Rattle.lrspec.specs.tables.Table.{IsTableFor, IsUncrowded};
ghost use Rattle.lrspec.specs.tables.Machine as math;
ghost use Rattle.lrspec.specs.tables.Recognition.{AreNamed};
ghost use Rattle.lrspec.specs.tables.LrTables.{HasNoPrecedences, ListsNothing, Recognises};
ghost use Rattle.lrtable.specs.RunAnswers.{text_of};
ghost use Rattle.lrtree.specs.ParsedTexts.{Tells, HasTheTree, HasTheOnlyTree, HasPrintableTree};

use crate::building::build;
use crate::trees::Tree;
use lrgrammar::grammar::YaccGrammar;
use lrgrammar::idx::{IndexStorage, TIdx};
use lrtable::machine::{Verdict, run};
use lrtable::statetable::StateTable;
use std::alloc::{AllocError, Global};

/// What a text came to.
#[derive(Debug, PartialEq, Eq, Drop)]
pub enum Parsed<T> {
    /// The text is a sentence, and this is its tree.
    Tree(Tree<T>),
    /// The machine rejected the text.
    Rejected,
    /// The number of steps was made, and none of them ended the run.
    Unfinished,
}

/// The tree of the text, where the machine of the table accepts it in at most so many steps.
///
/// The table is one of the grammar, and the tokens of the text are named ones. The tree is for the start rule, its leaves are
/// the text, and its productions, those of the children of a node from left to right before its own, are the reductions that
/// `run` answers. Where no cell has more than one to choose from, the text has no other tree. The error says that memory was
/// refused.
pub fn parse<T: IndexStorage>(
    alloc: Global,
    grm: &YaccGrammar<T>,
    table: &StateTable<T>,
    text: &[TIdx<T>],
    steps: usize,
) -> Result<Parsed<T>, AllocError>
    requires table_for { IsTableFor grm.now table.now }
    requires named { AreNamed grm.now (text_of T.number text.now) }
    ensures verdict { IfOk result (λ r. Tells r
        (math.run grm.now table.now steps (text_of T.number text.now)).verdict) }
    ensures tree { IfOk result (HasTheTree T.number grm.now (text_of T.number text.now)
        (math.run grm.now table.now steps (text_of T.number text.now)).reductions) }
    ensures only_tree { IsUncrowded grm.now table.now →
        IfOk result (HasTheOnlyTree T.number grm.now (text_of T.number text.now)) }
    ensures printable { IfOk result (HasPrintableTree T.number grm.now) }
    ensures recognises { HasNoPrecedences grm.now → ListsNothing table.now
        → Recognises grm.now table.now }
{
    let ran = run(alloc, grm, table, text, steps)?;
    match ran.verdict {
        Verdict::Accepted => Ok(Parsed::Tree(build(alloc, grm, ran.reductions)?)),
        Verdict::Rejected => Ok(Parsed::Rejected),
        Verdict::Unfinished => Ok(Parsed::Unfinished),
    }
}
