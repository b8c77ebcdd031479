//! Moves made again, one after the other.

ghost use Rattle.std.specs.Prelude.{◌≡◌, ℕ, ◌≤◌, false, List, [], ◌∷◌, ◌++◌, map, length, vec_len, drop, IfOk, OnOk, IfSome, IfNone, IsTrue, ◌↔◌};
ghost use Rattle.lrgrammar.specs.Symbols.{symbol_of};
ghost use Rattle.lrspec.specs.grammars.Grammar.{Grammar, IsGrammar, body_of};
ghost use Rattle.lrspec.specs.merging.Graph.{Leads};
ghost use Rattle.lrspec.specs.tables.Machine.{next_token};
ghost use Rattle.lrtable.specs.RunAnswers.{text_of};
ghost use Rattle.lrtree.specs.StoredTrees.{tree_of};
ghost use Rattle.lrconflicts.specs.Moves as plain;
ghost use Rattle.lrconflicts.specs.Moves.{IsTreeBy, HasNoTree};
ghost use Rattle.lrconflicts.specs.StoredMoves.{move_of, moves_stored};
ghost use Rattle.lrambiguity.specs.StoredReplays.{roots_of, AreRoots, HasMade, HasMadeSome, Makes, LeadsNowhere};

use lrconflicts::Move;
use lrgrammar::grammar::YaccGrammar;
use lrgrammar::idx::{IndexStorage, PIdx, StIdx, Symbol, TIdx};
use lrtable::StateGraph;
use lrtree::Tree;
use std::alloc::{AllocError, Global};

/// Takes the last trees off the others, so many of them.
fn split_off<T: IndexStorage>(
    alloc: Global,
    trees: &mut Vec<Tree<T>>,
    count: usize,
) -> Result<Vec<Tree<T>>, AllocError>
    requires { count ≤ vec_len trees.old }
    ensures count { IfOk result (λ v. vec_len v ≡ count) }
    ensures trees { IfOk result (λ v. trees.old.items ≡ trees.new.items ++ v.items) }
{
    let mut children = Vec::with_capacity(alloc, count)?;
    for _ in 0..count {
        let child = trees.pop().unwrap();
        children.push(child).unwrap();
    }
    children.reverse();
    Ok(children)
}

/// What moves have put together of a text: trees in a row.
#[derive(Drop)]
pub(crate) struct Replay<T> {
    /// The trees, from left to right.
    trees: Vec<Tree<T>>,
    /// The root of each.
    roots: Vec<Symbol<T>>,
    /// How many tokens of the text they have.
    used: usize,
}

impl<T: IndexStorage> Replay<T> {
    /// No moves made.
    pub(crate) fn new(alloc: Global) -> Replay<T>
        ensures { (m : Grammar) (text : List ℕ) → HasMade T.number m text [] result }
    {
        Replay {
            trees: Vec::new(alloc),
            roots: Vec::new(alloc),
            used: 0,
        }
    }

    /// Puts a tree behind the others, or takes it apart where memory is refused.
    fn push(&mut self, root: Symbol<T>, tree: Tree<T>) -> Result<(), AllocError>
        ensures trees { OnOk result (self.new.trees.items ≡ self.old.trees.items ++ tree ∷ []) }
        ensures roots { OnOk result (self.new.roots.items ≡ self.old.roots.items ++ root ∷ []) }
        ensures used { self.new.used ≡ self.old.used }
    {
        match self.trees.push(tree) {
            Ok(()) => {
                self.roots.push(root)?;
                Ok(())
            }
            Err(refused) => {
                refused.value.take_apart();
                Err(AllocError)
            }
        }
    }

    /// Makes a leaf of the next token; false where the text is used up.
    fn shift(&mut self, text: &[TIdx<T>]) -> Result<bool, AllocError>
        ensures made { IfOk result (λ made. IsTrue made → (m : Grammar) →
            Makes T.number m (text_of T.number text.now) (plain.Shift ∷ []) self.old self.new) }
        ensures nowhere { IfOk result (λ made. made ≡ false → (m : Grammar) → IsGrammar m →
            LeadsNowhere T.number m (text_of T.number text.now) (plain.Shift ∷ []) self.old) }
    {
        let Some(tidx) = text.get(self.used) else {
            return Ok(false);
        };
        self.push(Symbol::Token(*tidx), Tree::Token(*tidx))?;
        self.used += 1;
        Ok(true)
    }

    /// Puts a node of the production over the last trees; false where their roots aren't its body, or where it is the start
    /// production or none of the grammar.
    fn reduce(
        &mut self,
        alloc: Global,
        grm: &YaccGrammar<T>,
        pidx: PIdx<T>,
    ) -> Result<bool, AllocError>
        requires { AreRoots T.number grm.now self.old }
        ensures made { IfOk result (λ made. IsTrue made → (text : List ℕ) →
            Makes T.number grm.now text (plain.Reduce (T.number pidx.0) ∷ []) self.old self.new) }
        ensures nowhere { IfOk result (λ made. made ≡ false → (text : List ℕ) →
            LeadsNowhere T.number grm.now text (plain.Reduce (T.number pidx.0) ∷ []) self.old) }
    {
        grm.in_order();
        if usize::from(pidx) >= usize::from(grm.start_prod()) {
            return Ok(false);
        }
        let body = grm.prod(pidx);
        if !self.roots.ends_with(body) {
            return Ok(false);
        }
        let children = split_off(alloc, &mut self.trees, body.len())?;
        self.roots.truncate(self.roots.len() - body.len());
        self.push(
            Symbol::Rule(grm.prod_to_rule(pidx)),
            Tree::Node(pidx, children),
        )?;
        Ok(true)
    }

    /// Makes the move; false where it can't be made.
    fn make(
        &mut self,
        alloc: Global,
        grm: &YaccGrammar<T>,
        text: &[TIdx<T>],
        action: Move<T>,
    ) -> Result<bool, AllocError>
        requires { HasMadeSome T.number grm.now (text_of T.number text.now) self.old }
        ensures made { IfOk result (λ made. IsTrue made →
            Makes T.number grm.now (text_of T.number text.now)
            (move_of T.number action ∷ []) self.old self.new) }
        ensures nowhere { IfOk result (λ made. made ≡ false →
            LeadsNowhere T.number grm.now (text_of T.number text.now)
            (move_of T.number action ∷ []) self.old) }
    {
        grm.in_order();
        match action {
            Move::Shift => self.shift(text),
            Move::Reduce(pidx) => self.reduce(alloc, grm, pidx),
        }
    }

    /// Makes the moves, up to the first one that can't be made; false where there is such a one.
    pub(crate) fn make_all(
        &mut self,
        alloc: Global,
        grm: &YaccGrammar<T>,
        text: &[TIdx<T>],
        moves: &[Move<T>],
    ) -> Result<bool, AllocError>
        requires { HasMadeSome T.number grm.now (text_of T.number text.now) self.old }
        ensures made { IfOk result (λ made. IsTrue made →
            Makes T.number grm.now (text_of T.number text.now)
            (moves_stored T.number moves.now) self.old self.new) }
        ensures nowhere { IfOk result (λ made. made ≡ false →
            LeadsNowhere T.number grm.now (text_of T.number text.now)
            (moves_stored T.number moves.now) self.old) }
    {
        for action in moves {
            if !self.make(alloc, grm, text, *action)? {
                return Ok(false);
            }
        }
        Ok(true)
    }

    /// Whether all the text is used, and the roots are the body of the start production.
    fn is_whole(&self, grm: &YaccGrammar<T>, text: &[TIdx<T>]) -> bool
        ensures { IsTrue result ↔ ((length text.now ≤ self.now.used)
            × (roots_of T.number self.now ≡ body_of grm.now grm.now.start_production)) }
    {
        grm.in_order();
        self.used >= text.len() && self.roots.as_slice() == grm.prod(grm.start_prod())
    }

    /// Whether all the text is used, and the roots are the list.
    pub(crate) fn is_list(&self, list: &[Symbol<T>], text: &[TIdx<T>]) -> bool
        ensures { IsTrue result → ((length text.now ≤ self.now.used)
            × (roots_of T.number self.now ≡ map (symbol_of T.number) list.now)) }
    {
        self.used >= text.len() && self.roots.as_slice() == list
    }

    /// The tree, where there is one alone, for the start rule, of all the text; else the trees are taken apart.
    pub(crate) fn into_tree(mut self, grm: &YaccGrammar<T>, text: &[TIdx<T>]) -> Option<Tree<T>>
        ensures tree { IfSome result (λ tree. (ms : List plain.Move)
            → HasMade T.number grm.now (text_of T.number text.now) ms self
            → IsTreeBy grm.now ms (text_of T.number text.now) (tree_of T.number tree)) }
        ensures none { IfNone result ((ms : List plain.Move)
            → HasMade T.number grm.now (text_of T.number text.now) ms self
            → HasNoTree grm.now ms (text_of T.number text.now)) }
    {
        grm.in_order();
        if !self.is_whole(grm, text) {
            self.take_apart();
            return None;
        }
        self.trees.pop()
    }

    /// The next token, or the end token where the text is used up.
    pub(crate) fn next_token(&self, grm: &YaccGrammar<T>, text: &[TIdx<T>]) -> TIdx<T>
        ensures { T.number result.0
            ≡ next_token grm.now (drop self.now.used (text_of T.number text.now)) }
    {
        match text.get(self.used) {
            Some(token) => *token,
            None => grm.eof_token_idx(),
        }
    }

    /// The state to which the edges on the roots lead from the start state, if there are these edges.
    pub(crate) fn state_reached(&self, graph: &StateGraph<T>) -> Option<StIdx<T>>
        ensures { IfSome result (λ s. Leads graph.now (roots_of T.number self.now) (T.number s.0)) }
    {
        let mut state = graph.start_state();
        for root in &self.roots {
            state = graph.edge(state, *root)?;
        }
        Some(state)
    }

    /// Takes the trees apart.
    pub(crate) fn take_apart(self) {
        for tree in self.trees {
            tree.take_apart();
        }
    }
}
