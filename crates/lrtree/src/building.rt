//! Trees built by walks.

ghost use Rattle.std.specs.Prelude.{◌≡◌, [], ◌∷◌, ◌++◌, Some, IfOk, OnOk, IsSome};
ghost use Rattle.lrspec.specs.grammars.Trees.{Bare, And};
ghost use Rattle.lrtree.specs.Built.{with_visit};
ghost use Rattle.lrtree.specs.StoredTrees.{tree_of, forests_of};
ghost use Rattle.lrtree.specs.StoredVisits.{visit_of};
ghost use Rattle.lrtree.specs.TreesOf.{HasTreeOf, IsOfTree};

use crate::trees::Tree;
use crate::visits::Visit;
use crate::walks::Walk;
use lrgrammar::grammar::YaccGrammar;
use lrgrammar::idx::{IndexStorage, PIdx};
use std::alloc::{AllocError, Global};

/// Adds a tree to the others, or takes it apart where memory is refused.
fn push_tree<T: IndexStorage>(trees: &mut Vec<Tree<T>>, tree: Tree<T>) -> Result<(), AllocError>
    ensures { OnOk result (trees.new.items ≡ trees.old.items ++ tree ∷ []) }
{
    match trees.push(tree) {
        Ok(()) => Ok(()),
        Err(refused) => {
            refused.value.take_apart();
            Err(AllocError)
        }
    }
}

/// Adds what a walk comes by to the children of the open nodes, the last child first; those of the innermost node come last.
fn add_visit<T: IndexStorage>(
    alloc: Global,
    rows: &mut Vec<Vec<Tree<T>>>,
    visit: Visit<T>,
) -> Result<(), AllocError>
    requires { IsSome (with_visit (forests_of T.number rows.old.items) (visit_of T.number visit)) }
    ensures { OnOk result (with_visit (forests_of T.number rows.old.items) (visit_of T.number visit)
        ≡ Some (forests_of T.number rows.new.items)) }
{
    match visit {
        Visit::Leave(_) => rows.push(Vec::new(alloc))?,
        Visit::Token(tidx) => {
            let last = rows.len() - 1;
            rows[last].push(Tree::Token(tidx))?;
        }
        Visit::Enter(pidx) => {
            let mut children = rows.pop().unwrap();
            children.as_mut_slice().reverse();
            let last = rows.len() - 1;
            push_tree(&mut rows[last], Tree::Node(pidx, children))?;
        }
    }
    Ok(())
}

/// Adds all that the walk over the tree of these productions comes by.
fn add_visits<T: IndexStorage>(
    alloc: Global,
    grm: &YaccGrammar<T>,
    productions: Vec<PIdx<T>>,
    rows: &mut Vec<Vec<Tree<T>>>,
) -> Result<(), AllocError>
    requires alone { forests_of T.number rows.old.items ≡ Bare ∷ [] }
    requires tree { HasTreeOf T.number grm.now productions.items }
    ensures { OnOk result (IsOfTree T.number grm.now productions.items (λ t.
        forests_of T.number rows.new.items ≡ And t Bare ∷ [])) }
{
    let mut walk = Walk::new(alloc, grm, productions)?;
    while let Some(visit) = walk.next(grm)? {
        add_visit(alloc, rows, visit)?;
    }
    Ok(())
}

/// The tree of these productions in order.
pub(crate) fn build<T: IndexStorage>(
    alloc: Global,
    grm: &YaccGrammar<T>,
    productions: Vec<PIdx<T>>,
) -> Result<Tree<T>, AllocError>
    requires { HasTreeOf T.number grm.now productions.items }
    ensures { IfOk result (λ v.
        IsOfTree T.number grm.now productions.items (λ t. tree_of T.number v ≡ t)) }
{
    let mut rows = Vec::new(alloc);
    rows.push(Vec::new(alloc))?;
    match add_visits(alloc, grm, productions, &mut rows) {
        Ok(()) => {
            let mut roots = rows.pop().unwrap();
            let root = roots.pop().unwrap();
            Ok(root)
        }
        Err(refused) => {
            take_all_apart(rows);
            Err(refused)
        }
    }
}

/// Takes trees apart.
fn take_all_apart<T: IndexStorage>(rows: Vec<Vec<Tree<T>>>) {
    for row in rows {
        for tree in row {
            tree.take_apart();
        }
    }
}
