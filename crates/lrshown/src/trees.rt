//! Trees of a file's productions.

ghost use Rattle.std.specs.Prelude.{◌≡◌, ℕ, ◌-◌, take, ◌++◌, List, [], ◌∷◌, true, length, map, reverse};
ghost use Rattle.std.specs.Prelude.{slice_index_or as get_or, slice_get, IfOk, OnOk};
ghost use Rattle.lrgrammar.specs.declared.grammar.PartSymbol.TheVariants.{Token};
ghost use Rattle.lrshown.specs.declared.trees.Node.{Node};
ghost use Rattle.lrshown.specs.declared.trees.Visit.TheVariants.{Enter};
ghost use Rattle.lrshown.specs.declared.steps.Step.TheVariants.{Reduce};
ghost use Rattle.lrshown.specs.DrawnTrees.{Row, Leaf, Bare, And, with_step, with_steps};
ghost use Rattle.lrshown.specs.DrawnTrees.{last_trees, trees_before, row_nodes, row_visits, size};
ghost use Rattle.lrshown.specs.StoredTrees.{ends, with_symbol, with_first, IsDrawn, IsLaid, IsBuilt};
ghost use Rattle.lrshown.specs.DrawnTrees.{is_accept};
ghost use Rattle.lrshown.specs.StoredTrees.{visit_of};
ghost use Rattle.lrshown.specs.DrawnTrees.{drawn_by, accepted, start_below, trees_by, row_lasts};
ghost use Rattle.lrshown.specs.StoredTrees.{is_over};

use crate::names::body_of;
use crate::steps::{Step, TwoTrees};
use lrgrammar::grammar::PartSymbol;
use lryacc::FileGrammar;
use std::alloc::{AllocError, Global};

/// What stands at a node.
#[derive(Clone, Copy, Debug, PartialEq, Eq)]
pub enum Node {
    /// A symbol, under which nothing stands.
    Leaf(PartSymbol),
    /// A production, with a node below for each symbol of its body.
    Inner(usize),
}

impl Node {
    /// What stands at a root that is one for a symbol: a leaf is that symbol.
    fn with_symbol(self, symbol: PartSymbol) -> Node
        ensures { result ≡ with_symbol symbol self }
    {
        match self {
            Node::Leaf(_) => Node::Leaf(symbol),
            Node::Inner(production) => Node::Inner(production),
        }
    }

    /// How one comes to a node, behind what stands below it.
    fn visit(self, number: usize) -> Visit
        ensures { result ≡ visit_of number self }
    {
        match self {
            Node::Leaf(_) => Visit::Leaf(number),
            Node::Inner(_) => Visit::Leave(number),
        }
    }
}

/// Where one comes to, going through a tree from left to right.
#[derive(Clone, Copy, Debug, PartialEq, Eq)]
pub enum Visit {
    /// A leaf.
    Leaf(usize),
    /// A production, before what stands below it.
    Enter(usize),
    /// A production, behind what stands below it.
    Leave(usize),
}

/// Whether a production is one of `$accept`.
fn is_accept(file: &FileGrammar, production: usize) -> bool
    ensures { result ≡ is_accept file.now production }
{
    match file.parts.prods.get(production) {
        Some(prod) => prod.rule == 0,
        None => false,
    }
}

/// The production of `$accept` that a step puts over what there is, if it is such a step.
fn accepted(file: &FileGrammar, step: Option<Step>) -> Option<usize>
    ensures { result ≡ accepted file.now step }
{
    match step {
        Some(Step::Reduce(production)) => {
            if is_accept(file, production) {
                Some(production)
            } else {
                None
            }
        }
        Some(Step::Shift) => None,
        None => None,
    }
}

/// The steps without the last two.
fn without_two(steps: &[Step]) -> &[Step]
    ensures { result.now ≡ take (length steps.now - 2) steps.now }
{
    steps.get(..steps.len().saturating_sub(2)).unwrap_or(&[])
}

/// The start rule that stands below a production of `$accept`: the last symbol of its body but one.
fn start_below(file: &FileGrammar, production: usize) -> Option<PartSymbol>
    ensures { result ≡ start_below file.now production }
{
    let body = body_of(file, production);
    match body.len().checked_sub(2) {
        Some(place) => body.get(place).copied(),
        None => None,
    }
}

/// Whether what comes next to a node is over it, by what is entered before that; or nothing comes.
fn is_over(next: Option<Node>, entered: &[usize]) -> bool
    ensures { result ≡ is_over next entered.now }
{
    match next {
        Some(Node::Inner(_)) => entered.is_empty(),
        Some(Node::Leaf(_)) => false,
        None => true,
    }
}

/// Adds that productions are entered, the last one of these first.
fn push_entered(visits: &mut Vec<Visit>, productions: &[usize]) -> Result<(), AllocError>
    ensures { OnOk result (visits.new.items
        ≡ visits.old.items ++ map Enter (reverse productions.now)) }
{
    for production in productions.iter().rev() {
        visits.push(Visit::Enter(*production))?;
    }
    Ok(())
}

/// A tree, by its nodes, each behind those below it.
#[derive(Debug, Drop)]
pub struct Tree {
    /// The nodes, of which the last one is the root.
    pub nodes: Vec<Node>,
    /// For each the productions that are entered before it, the last one of these first.
    entered: Vec<Vec<usize>>,
    /// For each tree that stands below no node yet, how many nodes there are with it.
    ends: Vec<usize>,
}

impl Tree {
    /// Adds a node that is a tree, before which nothing is entered.
    fn add(&mut self, alloc: Global, node: Node) -> Result<(), AllocError>
        ensures nodes { OnOk result (self.new.nodes.items ≡ self.old.nodes.items ++ node ∷ []) }
        ensures ends { OnOk result (self.new.ends.items
            ≡ self.old.ends.items ++ length (self.old.nodes.items ++ node ∷ []) ∷ []) }
        ensures entered { OnOk result (map (λ v. v.items) self.new.entered.items
            ≡ map (λ v. v.items) self.old.entered.items ++ [] ∷ []) }
    {
        self.nodes.push(node)?;
        self.entered.push(Vec::new(alloc))?;
        self.ends.push(self.nodes.len())?;
        Ok(())
    }

    /// Adds a leaf, whose symbol is not known until it stands below something.
    fn add_leaf(&mut self, alloc: Global) -> Result<(), AllocError>
        ensures { (ts : Row) → IsBuilt self.old ts
            → OnOk result (IsBuilt self.new (And ts (Leaf (Token 0)))) }
    {
        self.add(alloc, Node::Leaf(PartSymbol::Token(0)))
    }

    /// Takes the last tree away as one for a symbol, which it is if it is a leaf; its nodes stay.
    fn take_last(&mut self, symbol: PartSymbol)
        ensures laid { (ts : Row) (below : List Node) → IsLaid self.old ts below
            → IsLaid self.new (trees_before (symbol ∷ []) ts)
            (row_nodes (last_trees (symbol ∷ []) ts) ++ below) }
        ensures entered { self.new.entered ≡ self.old.entered }
    {
        if let Some(end) = self.ends.pop() {
            if let Some(root) = self.nodes.get_mut(end.saturating_sub(1)) {
                *root = root.with_symbol(symbol);
            }
        }
    }

    /// Takes the last trees away, one for each of the symbols.
    fn take(&mut self, symbols: &[PartSymbol])
        ensures laid { (ts : Row) (below : List Node) → IsLaid self.old ts below
            → IsLaid self.new (trees_before (reverse symbols.now) ts)
            (row_nodes (last_trees (reverse symbols.now) ts) ++ below) }
        ensures entered { self.new.entered ≡ self.old.entered }
    {
        for symbol in symbols.iter().rev() {
            self.take_last(*symbol);
        }
    }

    /// Adds that a production is entered before the node with the number `first`.
    fn enter(&mut self, first: usize, production: usize) -> Result<(), AllocError>
        ensures entered { (front behind : List (List ℕ))
            → map (λ v. v.items) self.old.entered.items ≡ front ++ behind → length front ≡ first
            → OnOk result (map (λ v. v.items) self.new.entered.items
            ≡ front ++ with_first production behind) }
        ensures nodes { self.new.nodes ≡ self.old.nodes }
        ensures ends { self.new.ends ≡ self.old.ends }
    {
        if let Some(list) = self.entered.get_mut(first) {
            list.push(production)?;
        }
        Ok(())
    }

    /// Where the next tree begins.
    fn end(&self) -> usize
        ensures { (ts : Row) → self.now.ends.items ≡ ends ts → result ≡ size ts }
    {
        self.ends.last().copied().unwrap_or(0)
    }

    /// Puts a node of the production over the last trees.
    fn add_inner(
        &mut self,
        alloc: Global,
        file: &FileGrammar,
        production: usize,
    ) -> Result<(), AllocError>
        ensures { (ts : Row) → IsBuilt self.old ts
            → OnOk result (IsBuilt self.new (with_step file.now ts (Reduce production))) }
    {
        let number = self.nodes.len();
        self.take(body_of(file, production));
        let first = self.end();
        self.add(alloc, Node::Inner(production))?;
        self.enter(first, number)
    }

    /// Adds a node for a step.
    fn add_step(&mut self, alloc: Global, file: &FileGrammar, step: Step) -> Result<(), AllocError>
        ensures { (ts : Row) → IsBuilt self.old ts
            → OnOk result (IsBuilt self.new (with_step file.now ts step)) }
    {
        match step {
            Step::Shift => self.add_leaf(alloc),
            Step::Reduce(production) => self.add_inner(alloc, file, production),
        }
    }

    /// Adds a node for each of the steps.
    fn add_all(
        &mut self,
        alloc: Global,
        file: &FileGrammar,
        steps: &[Step],
    ) -> Result<(), AllocError>
        ensures { (ts : Row) → IsBuilt self.old ts
            → OnOk result (IsBuilt self.new (with_steps file.now ts steps.now)) }
    {
        for step in steps {
            self.add_step(alloc, file, *step)?;
        }
        Ok(())
    }

    /// The tree that these steps put together, and those behind them.
    fn built(
        alloc: Global,
        file: &FileGrammar,
        before: &[Step],
        behind: &[Step],
    ) -> Result<Tree, AllocError>
        ensures { IfOk result (λ t.
            IsBuilt t (trees_by file.now before.now behind.now)) }
    {
        let mut tree = Tree {
            nodes: Vec::new(alloc),
            entered: Vec::new(alloc),
            ends: Vec::new(alloc),
        };
        tree.add_all(alloc, file, before)?;
        tree.add_all(alloc, file, behind)?;
        Ok(tree)
    }

    /// The tree that these steps put together, and those behind them.
    pub fn new(
        alloc: Global,
        file: &FileGrammar,
        before: &[Step],
        behind: &[Step],
    ) -> Result<Tree, AllocError>
        ensures { IfOk result (λ t.
            IsDrawn t (trees_by file.now before.now behind.now)) }
    {
        Tree::built(alloc, file, before, behind)
    }

    /// The node with this number.
    pub(crate) fn node(&self, number: usize) -> Option<Node>
        ensures { result ≡ slice_get self.now.nodes.items number }
    {
        self.nodes.get(number).copied()
    }

    /// The tree that the steps put together, without the node of `$accept` and the token that ends all.
    pub(crate) fn inner(
        alloc: Global,
        file: &FileGrammar,
        before: &[Step],
        behind: &[Step],
    ) -> Result<Tree, AllocError>
        ensures { IfOk result (λ t. IsDrawn t (drawn_by file.now before.now behind.now)) }
    {
        let Some(production) = accepted(file, behind.last().copied()) else {
            return Tree::new(alloc, file, before, behind);
        };
        let mut tree = Tree::built(alloc, file, before, without_two(behind))?;
        if let Some(start) = start_below(file, production) {
            tree.take_last(start);
        }
        Ok(tree)
    }

    /// Both trees, without the nodes of `$accept` and the token that ends all.
    pub fn both(
        alloc: Global,
        file: &FileGrammar,
        trees: &TwoTrees,
    ) -> Result<(Tree, Tree), AllocError>
        ensures one { IfOk result (λ r.
            IsDrawn r.0 (drawn_by file.now trees.now.before.items trees.now.one.items)) }
        ensures other { IfOk result (λ r.
            IsDrawn r.1 (drawn_by file.now trees.now.before.items trees.now.other.items)) }
    {
        let before = trees.before.as_slice();
        let one = Tree::inner(alloc, file, before, trees.one.as_slice())?;
        let other = Tree::inner(alloc, file, before, trees.other.as_slice())?;
        Ok((one, other))
    }

    /// The productions that are entered before a node, the last one first.
    pub(crate) fn entered_before(&self, number: usize) -> &[usize]
        ensures { result.now ≡ get_or (map (λ v. v.items) self.now.entered.items) number [] }
    {
        match self.entered.get(number) {
            Some(list) => list.as_slice(),
            None => &[],
        }
    }

    /// Goes through the tree: each node by its number, from left to right, a leaf once, and any other one before what stands below
    /// it and behind that.
    pub fn visits(&self, alloc: Global) -> Result<Vec<Visit>, AllocError>
        ensures { (ts : Row) → IsDrawn self.now ts
            → IfOk result (λ v. v.items ≡ row_visits 0 ts) }
    {
        let mut visits = Vec::new(alloc);
        for (number, node) in self.nodes.iter().enumerate() {
            push_entered(&mut visits, self.entered_before(number))?;
            visits.push(node.visit(number))?;
        }
        Ok(visits)
    }

    /// Whether a node is the last of those that stand below one, or is over all.
    pub fn is_last(&self, number: usize) -> bool
        ensures { (ts : Row) → IsDrawn self.now ts
            → result ≡ get_or (row_lasts true ts) number true }
    {
        match number.checked_add(1) {
            Some(next) => is_over(self.node(next), self.entered_before(next)),
            None => true,
        }
    }
}
