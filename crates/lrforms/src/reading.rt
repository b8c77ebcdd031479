//! The form to which a search came.

use crate::ambiguous::{Form, Ways};
use crate::nodes::{Node, Side, Step};
use crate::rules::Rules;
use crate::shared::Shared;
use crate::writing::Writer;
use lrconflicts::Move;
use lrgrammar::idx::{PIdx, RIdx, Symbol};
use std::alloc::{AllocError, Global};
use std::collections::VecDeque;

/// What one of the trees has still to do.
#[derive(Clone, Copy)]
enum Piece {
    /// To yield the symbol.
    Yield(Symbol<u32>),
    /// To put the rule of the production in the place of its body.
    Reduce(PIdx<u32>),
}

/// One of the trees: its moves from the dot on, and what it has still to do.
#[derive(Drop)]
struct Reading {
    moves: Vec<Move<u32>>,
    pieces: VecDeque<Piece>,
}

impl Reading {
    /// At the dot.
    fn new(alloc: Global) -> Reading {
        Reading {
            moves: Vec::new(alloc),
            pieces: VecDeque::new(alloc),
        }
    }

    /// Yields these symbols behind all else.
    fn put_behind(&mut self, symbols: &[Symbol<u32>]) -> Result<(), AllocError> {
        for symbol in symbols {
            self.pieces.push_back(Piece::Yield(*symbol))?;
        }
        Ok(())
    }

    /// Reduces by the production behind all else.
    fn reduce_behind(&mut self, production: PIdx<u32>) -> Result<(), AllocError> {
        self.pieces.push_back(Piece::Reduce(production))?;
        Ok(())
    }

    /// Goes on to the next symbol, and takes it.
    fn next(&mut self) -> Result<Option<Symbol<u32>>, AllocError> {
        for _ in 0..self.pieces.len() {
            match self.pieces.pop_front() {
                Some(Piece::Reduce(production)) => self.moves.push(Move::Reduce(production))?,
                Some(Piece::Yield(symbol)) => return Ok(Some(symbol)),
                None => break,
            }
        }
        Ok(None)
    }

    /// Yields the next symbol.
    fn meet(&mut self) -> Result<Option<Symbol<u32>>, AllocError> {
        let symbol = self.next()?;
        self.moves.push(Move::Shift)?;
        Ok(symbol)
    }

    /// Yields a body in place of the next symbol.
    fn expand(&mut self, rules: &Rules, production: PIdx<u32>) -> Result<(), AllocError> {
        let _expanded = self.next()?;
        self.pieces.push_front(Piece::Reduce(production))?;
        for symbol in rules.body(production).iter().rev() {
            self.pieces.push_front(Piece::Yield(*symbol))?;
        }
        Ok(())
    }

    /// Does all that is left, where the symbols yield nothing, and reduces by the production of the root.
    fn finish(
        &mut self,
        alloc: Global,
        shared: &Shared,
        root: PIdx<u32>,
    ) -> Result<(), AllocError> {
        for _ in 0..self.pieces.len() {
            if let Some(symbol) = self.next()? {
                let mut nothing = Writer::new(alloc, shared, None);
                nothing.push(symbol)?;
                self.moves.extend_from_slice(nothing.moves.as_slice())?;
            }
        }
        self.moves.push(Move::Reduce(root))?;
        Ok(())
    }
}

/// Both trees, as they are read from the dot outwards.
#[derive(Drop)]
struct Trees {
    first: Reading,
    second: Reading,
    /// The symbols left of the dot, the last one first.
    left: Vec<Symbol<u32>>,
    /// Those right of it.
    right: Vec<Symbol<u32>>,
}

impl Trees {
    /// Does the step by which a node comes of the one before it.
    fn step(&mut self, rules: &Rules, before: &Node, node: &Node) -> Result<(), AllocError> {
        match node.step {
            Step::Start => self.second.put_behind(rules.behind(node.place.second.item)),
            Step::Meet => self.meet(),
            Step::Expand(Side::First, production) => self.first.expand(rules, production),
            Step::Expand(Side::Second, production) => self.second.expand(rules, production),
            Step::Back => self.go_back(rules, node),
            Step::Close(Side::First) => {
                self.first
                    .reduce_behind(before.place.first.item.production)?;
                self.first.put_behind(rules.rest(node.place.first.item))
            }
            Step::Close(Side::Second) => {
                self.second
                    .reduce_behind(before.place.second.item.production)?;
                self.second.put_behind(rules.rest(node.place.second.item))
            }
        }
    }

    /// Both trees yield the same symbol.
    fn meet(&mut self) -> Result<(), AllocError> {
        let symbol = self.first.meet()?;
        let _same = self.second.meet()?;
        if let Some(symbol) = symbol {
            self.right.push(symbol)?;
        }
        Ok(())
    }

    /// Both dots are before the symbol.
    fn go_back(&mut self, rules: &Rules, node: &Node) -> Result<(), AllocError> {
        if let Some(symbol) = rules.symbol(node.place.first.item) {
            self.left.push(symbol)?;
        }
        Ok(())
    }

    /// The form of the rule.
    fn form(self, alloc: Global, rule: RIdx<u32>) -> Result<Form, AllocError> {
        let Trees {
            first,
            second,
            left,
            right,
        } = self;
        let dot = left.len();
        let mut symbols = left;
        symbols.as_mut_slice().reverse();
        symbols.extend_from_slice(right.as_slice())?;
        let ways = Ways {
            before: Vec::from_elem(alloc, Move::Shift, dot)?,
            first: first.moves,
            second: second.moves,
        };
        Ok(Form {
            rule,
            symbols,
            dot,
            ways,
        })
    }
}

/// The nodes that lead to one, the first one first.
fn path(alloc: Global, nodes: &[Node], number: u32) -> Result<Vec<Node>, AllocError> {
    let mut path = Vec::new(alloc);
    let mut last = number;
    for _ in 0..nodes.len() {
        let Some(node) = nodes.get(last as usize) else {
            break;
        };
        path.push(*node)?;
        if node.step == Step::Start {
            break;
        }
        last = node.from;
    }
    path.as_mut_slice().reverse();
    Ok(path)
}

/// The form of a rule to which a search came at the node with that number.
pub(crate) fn form_of(
    alloc: Global,
    shared: &Shared,
    nodes: &[Node],
    rule: RIdx<u32>,
    number: u32,
) -> Result<Form, AllocError> {
    let mut trees = Trees {
        first: Reading::new(alloc),
        second: Reading::new(alloc),
        left: Vec::new(alloc),
        right: Vec::new(alloc),
    };
    let path = path(alloc, nodes, number)?;
    let mut before = None;
    for node in &path {
        trees.step(&shared.rules, before.unwrap_or(node), node)?;
        before = Some(node);
    }
    if let Some(goal) = path.last() {
        let (first, second) = (goal.place.first.item, goal.place.second.item);
        trees.first.finish(alloc, shared, first.production)?;
        trees.second.finish(alloc, shared, second.production)?;
    }
    trees.form(alloc, rule)
}
