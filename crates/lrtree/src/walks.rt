//! Walks over the tree of an accepted text, from its last token to its first.

ghost use Rattle.std.specs.Prelude.{◌<◌, List, IfOk, IsSome};
ghost use Rattle.lrtree.specs.Visits as math;
ghost use Rattle.lrtree.specs.Walks.{tree_visits_back, Remains};
ghost use Rattle.lrtree.specs.StoredWalks.{open_of, left_of, weight_of, HasRemaining, Follows};
ghost use Rattle.lrtree.specs.TreesOf.{IsOfTree};

use crate::visits::Visit;
use lrgrammar::grammar::YaccGrammar;
use lrgrammar::idx::{IndexStorage, PIdx, Symbol};
use std::alloc::{AllocError, Global};

/// A node whose end was come by, and not its beginning.
#[derive(Clone, Copy)]
struct Open<T> {
    pidx: PIdx<T>,
    /// How many of its children, the first ones, the walk hasn't come to yet.
    missing: usize,
}

/// A walk over a tree, by its productions in order. The last one is that of the root, and behind the end of a node, the
/// last one left is that of its last child that is a node, since its children stand in front of it.
#[derive(Drop)]
pub(crate) struct Walk<T> {
    /// The nodes that are open, the innermost one last; under them all the start production, whose child is the root.
    open: Vec<Open<T>>,
    /// The productions that the walk hasn't come to yet.
    left: Vec<PIdx<T>>,
}

impl<T: IndexStorage> Walk<T> {
    /// A walk over the tree of these productions.
    pub(crate) fn new(
        alloc: Global,
        grm: &YaccGrammar<T>,
        left: Vec<PIdx<T>>,
    ) -> Result<Walk<T>, AllocError>
        ensures { IfOk result (λ w. IsOfTree T.number grm.now left.items (λ t.
            Remains grm.now (open_of T.number w) (left_of T.number w) (tree_visits_back t))) }
    {
        let mut open = Vec::new(alloc);
        open.push(Open {
            pidx: grm.start_prod(),
            missing: 1,
        })?;
        Ok(Walk { open, left })
    }

    /// What the walk comes by next; None at its end.
    pub(crate) fn next(&mut self, grm: &YaccGrammar<T>) -> Result<Option<Visit<T>>, AllocError>
        requires { HasRemaining grm.now (open_of T.number self.old) (left_of T.number self.old) }
        ensures visit { (es : List math.Visit) →
            Remains grm.now (open_of T.number self.old) (left_of T.number self.old) es →
            IfOk result (λ e. Follows T.number e es
            (Remains grm.now (open_of T.number self.new) (left_of T.number self.new))) }
        ensures falls { IfOk result (λ e. IsSome e →
            weight_of T.MAX self.new < weight_of T.MAX self.old) }
    {
        let last = self.open.len() - 1;
        let Open { pidx, missing } = self.open[last];
        if missing == 0 {
            if last == 0 {
                return Ok(None);
            }
            self.open.truncate(last);
            return Ok(Some(Visit::Enter(pidx)));
        }
        self.open[last] = Open {
            pidx,
            missing: missing - 1,
        };
        match grm.prod(pidx)[missing - 1] {
            Symbol::Token(tidx) => Ok(Some(Visit::Token(tidx))),
            Symbol::Rule(_) => {
                // the last production that is left is that of this child
                let pidx = self.left.pop().unwrap();
                let missing = usize::from(grm.prod_len(pidx));
                self.open.push(Open { pidx, missing })?;
                Ok(Some(Visit::Leave(pidx)))
            }
        }
    }
}
