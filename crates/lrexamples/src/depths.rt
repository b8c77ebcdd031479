//! How deep texts nest: the walk over a tree that the README shows.

ghost use Rattle.std.specs.Prelude.{◌≡◌, IfOk, IfSome};
ghost use Rattle.lrspec.specs.grammars.Trees.{IsSentence};
ghost use Rattle.lrspec.specs.tables.Table.{IsTableFor};
ghost use Rattle.lrspec.specs.tables.Recognition.{AreNamed};
ghost use Rattle.lrtable.specs.RunAnswers.{text_of};
ghost use Rattle.lrtree.specs.StoredTrees.{tree_of};
ghost use Rattle.lrexamples.specs.Depths.{depth};

use lrgrammar::grammar::YaccGrammar;
use lrgrammar::idx::{IndexStorage, TIdx};
use lrtable::StateTable;
use lrtree::{Parsed, Tree, Visit, parse};
use std::alloc::{AllocError, Global};

/// How many nodes of the tree stand above one another at most.
pub fn depth<T: IndexStorage>(alloc: Global, tree: &Tree<T>) -> Result<usize, AllocError>
    ensures { IfOk result (λ n. n ≡ depth (tree_of T.number tree.now)) }
{
    let mut open = Vec::new(alloc);
    let mut deepest = 0;
    let mut visits = tree.visits(alloc);
    while let Some(visit) = visits.next()? {
        match visit {
            Visit::Token(_) => {}
            Visit::Enter(pidx) => {
                open.push(pidx)?;
                deepest = deepest.max(open.len());
            }
            Visit::Leave(_) => {
                open.pop();
            }
        }
    }
    Ok(deepest)
}

/// How deep the text nests, by a tree of it; None where the machine does not accept it in so many steps.
pub fn text_depth<T: IndexStorage>(
    alloc: Global,
    grm: &YaccGrammar<T>,
    table: &StateTable<T>,
    text: &[TIdx<T>],
    steps: usize,
) -> Result<Option<usize>, AllocError>
    requires table_for { IsTableFor grm.now table.now }
    requires named { AreNamed grm.now (text_of T.number text.now) }
    ensures { IfOk result (λ found. IfSome found (λ n.
        (s : IsSentence grm.now (text_of T.number text.now)) × (depth s.tree ≡ n))) }
{
    match parse(alloc, grm, table, text, steps)? {
        Parsed::Tree(tree) => {
            let found = depth(alloc, &tree);
            tree.take_apart();
            Ok(Some(found?))
        }
        Parsed::Rejected | Parsed::Unfinished => Ok(None),
    }
}
