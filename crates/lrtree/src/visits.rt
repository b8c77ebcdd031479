//! Visits of trees, from the first token to the last.

ghost use Rattle.std.specs.Prelude.{◌≡◌, [], ◌∷◌, IfOk, OnErr, MatchOption};
ghost use Rattle.lrtree.specs.Visits.{tree_visits, is_enter};
ghost use Rattle.lrtree.specs.StoredTrees.{tree_of};
ghost use Rattle.lrtree.specs.StoredVisits.{visit_of, next_trees};

use crate::trees::Tree;
use lrgrammar::idx::{IndexStorage, PIdx, TIdx};
use std::alloc::{AllocError, Global};
use std::marker::Model;

/// What is come by in going through a tree.
#[derive(Clone, Copy, Debug, PartialEq, Eq)]
pub enum Visit<T> {
    /// A token.
    Token(TIdx<T>),
    /// The beginning of a node of this production.
    Enter(PIdx<T>),
    /// The end of a node of this production.
    Leave(PIdx<T>),
}

impl<T: IndexStorage> Visit<T> {
    /// Whether it is the beginning of a node.
    pub(crate) fn is_enter(self) -> bool
        ensures { result ≡ is_enter (visit_of T.number self) }
    {
        matches!(self, Visit::Enter(_))
    }
}

/// A node that was entered and not left.
#[derive(Clone, Copy)]
struct Open<'a, T> {
    pidx: PIdx<T>,
    /// The trees behind it.
    behind: &'a [Tree<T>],
}

/// Goes through a tree from left to right, and comes to a node once before its children and once behind them.
#[derive(Drop)]
pub struct Visits<'a, T: IndexStorage> {
    /// The nodes that were entered and not left, the innermost one last.
    open: Vec<Open<'a, T>>,
    /// The tree itself, as long as it was not come by.
    root: Option<&'a Tree<T>>,
    /// The trees that come before the innermost node is left.
    trees: &'a [Tree<T>],
}

impl<'a, T: IndexStorage> Model for Visits<'a, T> {
    ghost use Rattle.std.specs.Prelude.{List};
    ghost use Rattle.lrtree.specs.Visits.{Visit};

    ghost Value = { List Visit };

    ghost use Rattle.lrtree.specs.StoredVisits.{visits_left};

    ghost view = { visits_left T.number };
}

impl<'a, T: IndexStorage> Visits<'a, T> {
    /// Before the first visit.
    pub(crate) fn new(alloc: Global, tree: &'a Tree<T>) -> Visits<'a, T>
        ensures { result ≡ tree_visits (tree_of T.number tree.entry.now) }
    {
        Visits {
            open: Vec::new(alloc),
            root: Some(tree),
            trees: &[],
        }
    }

    /// The next visit; None at the end. The error says that memory was refused; nothing is lost by that, and the call may
    /// be made again.
    pub fn next(&mut self) -> Result<Option<Visit<T>>, AllocError>
        ensures next { IfOk result (λ v. MatchOption v ((self.old ≡ []) × (self.new ≡ []))
            (λ visit. self.old ≡ visit_of T.number visit ∷ self.new)) }
        ensures refused { OnErr result (self.new ≡ self.old) }
    {
        let Some((tree, behind)) = split_first(self.root, self.trees) else {
            let Some(Open { pidx, behind }) = self.open.pop() else {
                return Ok(None);
            };
            self.trees = behind;
            return Ok(Some(Visit::Leave(pidx)));
        };
        match tree {
            Tree::Token(tidx) => {
                self.root = None;
                self.trees = behind;
                Ok(Some(Visit::Token(*tidx)))
            }
            Tree::Node(pidx, children) => {
                let pidx = *pidx;
                self.open.push(Open { pidx, behind })?;
                self.root = None;
                self.trees = children.as_slice();
                Ok(Some(Visit::Enter(pidx)))
            }
        }
    }
}

/// The tree that comes next, and the trees behind it.
fn split_first<'a, T>(
    root: Option<&'a Tree<T>>,
    trees: &'a [Tree<T>],
) -> Option<(&'a Tree<T>, &'a [Tree<T>])>
    ensures { MatchOption result (next_trees root.entry trees.entry.now ≡ [])
        (λ p. next_trees root.entry trees.entry.now ≡ p.0.now ∷ p.1.now) }
{
    match root {
        Some(root) => Some((root, trees)),
        None => trees.split_first(),
    }
}
