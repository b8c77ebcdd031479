//! Trees.

ghost use Rattle.std.specs.Prelude.{◌≡◌, ◌<◌, vec_len, vec_capacity, IfOk, map};
ghost use Rattle.std.specs.String.{string_bytes};
ghost use Rattle.lrspec.specs.grammars.Trees as math;
ghost use Rattle.lrspec.specs.grammars.Trees.{Bare, And, joined};
ghost use Rattle.lrspec.specs.texts.TreeTexts.{tree_text, IsPrintable};
ghost use Rattle.lrtable.specs.RunAnswers.{text_of};
ghost use Rattle.lrtree.specs.StoredTrees.{tree_of, forest_of};
ghost use Rattle.lrtree.specs.Visits.{tree_visits};
ghost use Rattle.lrtree.specs.Weights.{row_weight};

use crate::texts::push_visit;
use crate::visits::{Visit, Visits};
use lrgrammar::grammar::YaccGrammar;
use lrgrammar::idx::{IndexStorage, PIdx, TIdx};
use std::alloc::{AllocError, Global};
use std::mem;

/// A tree: a token, or a production over its children.
///
/// What is derived, letting go of a tree too, calls itself as deep as the tree is: on a stack of 8 MB this was measured to
/// serve trees 100,000 deep, and not 150,000. `take_apart` lets go of a tree of any depth, and `visits` goes through one.
#[derive(Debug, PartialEq, Eq, Drop)]
pub enum Tree<T> {
    /// A token of the text.
    Token(TIdx<T>),
    /// A production and its children, one for each symbol of its body, from left to right.
    Node(PIdx<T>, Vec<Tree<T>>),
}

impl<T: IndexStorage> Tree<T> {
    /// Goes through the tree, by a loop of the caller's.
    pub fn visits(&self, alloc: Global) -> Visits<'_, T>
        ensures { result ≡ tree_visits (tree_of T.number self.entry.now) }
    {
        Visits::new(alloc, self)
    }

    /// The tokens of the tree, from left to right.
    pub fn leaves(&self, alloc: Global) -> Result<Vec<TIdx<T>>, AllocError>
        ensures { IfOk result (λ v.
            text_of T.number v.items ≡ math.leaves (tree_of T.number self.now)) }
    {
        let mut tokens = Vec::new(alloc);
        let mut visits = self.visits(alloc);
        while let Some(visit) = visits.next()? {
            if let Visit::Token(tidx) = visit {
                tokens.push(tidx)?;
            }
        }
        Ok(tokens)
    }

    /// The productions of the tree, those of the children of a node from left to right before its own.
    pub fn productions(&self, alloc: Global) -> Result<Vec<PIdx<T>>, AllocError>
        ensures { IfOk result (λ v.
            map (λ p. T.number p.0) v.items ≡ math.order (tree_of T.number self.now)) }
    {
        let mut productions = Vec::new(alloc);
        let mut visits = self.visits(alloc);
        while let Some(visit) = visits.next()? {
            if let Visit::Leave(pidx) = visit {
                productions.push(pidx)?;
            }
        }
        Ok(productions)
    }

    /// The text of the tree: of a token its name between quotes, and of a node its rule's name, a dot, the place of its
    /// production among those of the rule, counted from 0, and in parentheses the texts of its children, with a space
    /// between. Its tokens and productions are those of the grammar.
    pub fn pp(&self, grm: &YaccGrammar<T>) -> Result<String, AllocError>
        requires { IsPrintable grm.now (tree_of T.number self.now) }
        ensures { IfOk result (λ s.
            string_bytes s ≡ tree_text grm.now (tree_of T.number self.now)) }
    {
        let alloc = grm.allocator();
        let mut text = String::new(alloc);
        let mut is_first = true;
        let mut visits = self.visits(alloc);
        while let Some(visit) = visits.next()? {
            push_visit(&mut text, grm, visit, is_first)?;
            is_first = visit.is_enter();
        }
        Ok(text)
    }

    /// Takes the tree apart, however deep it is, by a loop that takes no memory.
    pub fn take_apart(self) {
        let Tree::Node(_, mut left) = self else {
            return;
        };
        while let Some(tree) = left.pop() {
            if let Tree::Node(pidx, children) = tree {
                left = both(pidx, children, left);
            }
        }
    }
}

/// The trees of both lists in one, which takes no more room than the lists have: where there are some of either, those of
/// `left`, which has room for one more, and the first of the children stand under a node in the place of that child.
fn both<T: IndexStorage>(
    pidx: PIdx<T>,
    mut children: Vec<Tree<T>>,
    mut left: Vec<Tree<T>>,
) -> Vec<Tree<T>>
    requires { vec_len left < vec_capacity left }
    ensures { let node = math.Node (T.number pidx.0) (forest_of T.number children.items) in
        row_weight (forest_of T.number result.items)
        < row_weight (joined (forest_of T.number left.items) (And node Bare)) }
{
    if left.is_empty() {
        return children;
    }
    if children.is_empty() {
        return left;
    }
    let hollow = Tree::Node(pidx, Vec::new(*children.allocator()));
    let first = mem::replace(&mut children[0], hollow);
    left.push(first).unwrap();
    children[0] = Tree::Node(pidx, left);
    children
}
