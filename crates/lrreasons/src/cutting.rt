//! The innermost node around the place where two trees of a sentence part: one of the same rule, over the same tokens and with the
//! same moves behind it in both trees. Nothing is proved of it: `ambiguities` checks what is cut out.

use crate::places::{body_len, shifts};
use lrambiguity::Move;
use lrforms::{Ambiguous, Form, Sentence, Ways};
use lrgrammar::grammar::YaccGrammar;
use lrgrammar::idx::{RIdx, Symbol, TIdx};
use std::alloc::{AllocError, Global};

/// A tree that moves put together.
#[derive(Clone, Copy)]
struct Root {
    /// The number of the first of these moves.
    begin: usize,
    symbol: Symbol<u32>,
}

impl Root {
    /// Its rule, if it is no leaf.
    fn rule(self) -> Option<RIdx<u32>> {
        match self.symbol {
            Symbol::Rule(rule) => Some(rule),
            Symbol::Token(_) => None,
        }
    }
}

/// The trees that moves have put together of tokens.
#[derive(Drop)]
struct Reading<'a> {
    grm: &'a YaccGrammar<u32>,
    tokens: &'a [TIdx<u32>],
    /// How many of these were taken.
    used: usize,
    roots: Vec<Root>,
}

impl<'a> Reading<'a> {
    /// Before the first move.
    fn new(alloc: Global, grm: &'a YaccGrammar<u32>, tokens: &'a [TIdx<u32>]) -> Reading<'a> {
        Reading {
            grm,
            tokens,
            used: 0,
            roots: Vec::new(alloc),
        }
    }

    /// The tree that a move with this number puts together of the last ones; None where it can't be made.
    fn tree_by(&mut self, number: usize, action: Move<u32>) -> Option<Root> {
        let Move::Reduce(production) = action else {
            let token = self.tokens.get(self.used).copied()?;
            self.used = self.used.saturating_add(1);
            return Some(Root {
                begin: number,
                symbol: Symbol::Token(token),
            });
        };
        if usize::from(production) >= usize::from(self.grm.prods_len()) {
            return None;
        }
        let kept = self
            .roots
            .len()
            .checked_sub(body_len(self.grm, production))?;
        let begin = match self.roots.get(kept) {
            Some(first) => first.begin,
            None => number,
        };
        self.roots.truncate(kept);
        Some(Root {
            begin,
            symbol: Symbol::Rule(self.grm.prod_to_rule(production)),
        })
    }

    /// The trees that these moves put together, one by each, where the first of them has this number.
    fn make(&mut self, number: usize, moves: &[Move<u32>]) -> Result<Vec<Root>, AllocError> {
        let mut made = Vec::new(*self.roots.allocator());
        for (at, action) in moves.iter().enumerate() {
            let Some(root) = self.tree_by(number.saturating_add(at), *action) else {
                break;
            };
            self.roots.push(root)?;
            made.push(root)?;
        }
        Ok(made)
    }
}

/// The trees by the moves behind the parting of both readings of the tokens.
fn trees_behind(
    alloc: Global,
    grm: &YaccGrammar<u32>,
    tokens: &[TIdx<u32>],
    before: &[Move<u32>],
    after: &[Move<u32>],
) -> Result<Vec<Root>, AllocError> {
    let mut reading = Reading::new(alloc, grm, tokens);
    let _ = reading.make(0, before)?;
    reading.make(before.len(), after)
}

/// With how many of the same moves both begin.
fn same_at_begin(one: &[Move<u32>], other: &[Move<u32>]) -> usize {
    let mut count: usize = 0;
    for (a, b) in one.iter().zip(other) {
        if a != b {
            break;
        }
        count = count.saturating_add(1);
    }
    count
}

/// With how many of the same moves both end.
fn same_at_end(one: &[Move<u32>], other: &[Move<u32>]) -> usize {
    let mut count: usize = 0;
    for (a, b) in one.iter().rev().zip(other.iter().rev()) {
        if a != b {
            break;
        }
        count = count.saturating_add(1);
    }
    count
}

/// The last element but so many.
fn before_rest(trees: &[Root], rest: usize) -> Option<Root> {
    trees
        .get(trees.len().checked_sub(rest)?.checked_sub(1)?)
        .copied()
}

/// The rule of the tree that stands before the same number of moves in both ways, if it is over the same tokens, and begins before
/// the parting, which so many moves are before.
fn node_at(one: &[Root], other: &[Root], parting: usize, rest: usize) -> Option<Node> {
    let first = before_rest(one, rest)?;
    let second = before_rest(other, rest)?;
    let rule = first.rule()?;
    if second.rule() == Some(rule) && first.begin == second.begin && first.begin <= parting {
        Some(Node {
            rule,
            begin: first.begin,
            rest,
        })
    } else {
        None
    }
}

/// A node that both trees have.
#[derive(Clone, Copy)]
struct Node {
    rule: RIdx<u32>,
    /// How many moves stand before those that put it together.
    begin: usize,
    /// How many stand behind them.
    rest: usize,
}

/// The innermost node that both trees have around their parting, behind which they may have so many moves in common.
fn innermost(one: &[Root], other: &[Root], parting: usize, same: usize) -> Option<Node> {
    for rest in (0..=same).rev() {
        if let Some(node) = node_at(one, other, parting, rest) {
            return Some(node);
        }
    }
    None
}

/// The moves but for the last ones, so many.
fn without_last(
    alloc: Global,
    moves: &[Move<u32>],
    rest: usize,
) -> Result<Vec<Move<u32>>, AllocError> {
    let (kept, _) = moves.split_at(moves.len().saturating_sub(rest));
    Vec::from_slice(alloc, kept)
}

/// The symbols of the trees that stand before the parting, from that on which a move with this number begins.
fn symbols_from(
    alloc: Global,
    roots: &[Root],
    begin: usize,
) -> Result<Vec<Symbol<u32>>, AllocError> {
    let mut symbols = Vec::new(alloc);
    for root in roots {
        if root.begin >= begin {
            symbols.push(root.symbol)?;
        }
    }
    Ok(symbols)
}

/// How many moves are compared to find a tree that both ways have.
const MOST: usize = 1_000;

/// What stands behind the parting in both ways alike: a token, or a tree with the same moves.
#[derive(Clone, Copy)]
struct Unit {
    symbol: Symbol<u32>,
    /// How many moves put it together.
    moves: usize,
}

/// By how many moves the largest tree is put together that begins with the first of these, if the others begin with the same; a
/// leaf takes one. The first move has this number.
fn common_moves(trees: &[Root], one: &[Move<u32>], other: &[Move<u32>], number: usize) -> usize {
    let mut largest: usize = 1;
    for (at, ((root, a), b)) in trees.iter().zip(one).zip(other).enumerate().take(MOST) {
        if a != b {
            break;
        }
        if root.begin == number {
            largest = at.saturating_add(1);
        }
    }
    largest
}

/// What stands behind the parting in both ways, in the making.
#[derive(Drop)]
struct Units<'a> {
    /// The trees by the moves of the first way, which begin with this number.
    trees: &'a [Root],
    number: usize,
    first: &'a [Move<u32>],
    second: &'a [Move<u32>],
    list: Vec<Unit>,
    /// How many moves of the first way stand before the next unit, and of the second one, at the least.
    next: usize,
    behind: usize,
}

impl Units<'_> {
    /// Adds the unit that begins with a shift, which is the move of the first way at this place. The first one is the conflict's
    /// token by itself.
    fn add(&mut self, at: usize) -> Result<(), AllocError> {
        let (_, second) = self.second.split_at(self.behind.min(self.second.len()));
        let before = second.iter().take_while(|it| **it != Move::Shift).count();
        let (_, second) = second.split_at(before.min(second.len()));
        let (_, first) = self.first.split_at(at.min(self.first.len()));
        let (_, trees) = self.trees.split_at(at.min(self.trees.len()));
        let mut moves = 1;
        if !self.list.is_empty() {
            moves = common_moves(trees, first, second, self.number.saturating_add(at));
        }
        if let Some(root) = trees.get(moves.saturating_sub(1)) {
            let symbol = root.symbol;
            self.list.push(Unit { symbol, moves })?;
        }
        self.next = at.saturating_add(moves);
        self.behind = self.behind.saturating_add(before).saturating_add(moves);
        Ok(())
    }

    /// Adds all.
    fn add_all(&mut self) -> Result<(), AllocError> {
        for (at, action) in self.first.iter().enumerate() {
            if at >= self.next && *action == Move::Shift {
                self.add(at)?;
            }
        }
        Ok(())
    }
}

/// The moves with a shift in the place of those of each unit.
fn folded(
    alloc: Global,
    moves: &[Move<u32>],
    units: &[Unit],
) -> Result<Vec<Move<u32>>, AllocError> {
    let mut list = Vec::new(alloc);
    let (mut next, mut used): (usize, usize) = (0, 0);
    for (at, action) in moves.iter().enumerate() {
        if at >= next {
            list.push(*action)?;
            if let (Move::Shift, Some(unit)) = (action, units.get(used)) {
                next = at.saturating_add(unit.moves);
                used = used.saturating_add(1);
            }
        }
    }
    Ok(list)
}

/// The units behind the parting, where the trees by the first way's moves from there on begin with this number.
fn units_of(
    alloc: Global,
    trees: &[Root],
    number: usize,
    first: &[Move<u32>],
    second: &[Move<u32>],
) -> Result<Vec<Unit>, AllocError> {
    let mut units = Units {
        trees,
        number,
        first,
        second,
        list: Vec::new(alloc),
        next: 0,
        behind: 0,
    };
    units.add_all()?;
    Ok(units.list)
}

/// The node cut out of the sentence. What both trees have in common is single symbols of it, but for the conflict's token.
fn form_of(
    alloc: Global,
    grm: &YaccGrammar<u32>,
    tokens: &[TIdx<u32>],
    ways: &Ways,
    trees: &[Root],
    node: Node,
) -> Result<Form, AllocError> {
    let mut reading = Reading::new(alloc, grm, tokens);
    let _ = reading.make(0, ways.before.as_slice())?;
    let mut symbols = symbols_from(alloc, reading.roots.as_slice(), node.begin)?;
    let dot = symbols.len();
    let first = without_last(alloc, ways.first.as_slice(), node.rest)?;
    let second = without_last(alloc, ways.second.as_slice(), node.rest)?;
    let number = ways.before.len();
    let units = units_of(alloc, trees, number, first.as_slice(), second.as_slice())?;
    for unit in &units {
        symbols.push(unit.symbol)?;
    }
    let units = units.as_slice();
    let ways = Ways {
        before: vec![in alloc; Move::Shift; dot]?,
        first: folded(alloc, first.as_slice(), units)?,
        second: folded(alloc, second.as_slice(), units)?,
    };
    Ok(Form {
        rule: node.rule,
        symbols,
        dot,
        ways,
    })
}

/// What two ways to read the tokens show, where they part: the sentence, and the innermost node around the parting. The way that
/// goes on by this move is the first one, if either does. None where they have no such node.
pub(crate) fn cut_out(
    alloc: Global,
    grm: &YaccGrammar<u32>,
    tokens: &[TIdx<u32>],
    one: &[Move<u32>],
    other: &[Move<u32>],
    action: Move<u32>,
) -> Result<Option<Ambiguous>, AllocError> {
    let parting = same_at_begin(one, other);
    let (before, one) = one.split_at(parting.min(one.len()));
    let (_, other) = other.split_at(parting.min(other.len()));
    let is_other = other.first() == Some(&action);
    let (first, second) = if is_other { (other, one) } else { (one, other) };
    let trees = trees_behind(alloc, grm, tokens, before, first)?;
    let others = trees_behind(alloc, grm, tokens, before, second)?;
    let same = same_at_end(first, second);
    let Some(node) = innermost(trees.as_slice(), others.as_slice(), parting, same) else {
        return Ok(None);
    };
    let ways = Ways {
        before: Vec::from_slice(alloc, before)?,
        first: Vec::from_slice(alloc, first)?,
        second: Vec::from_slice(alloc, second)?,
    };
    let form = form_of(alloc, grm, tokens, &ways, trees.as_slice(), node)?;
    let sentence = Sentence {
        tokens: Vec::from_slice(alloc, tokens)?,
        dot: shifts(ways.before.as_slice()),
        ways,
    };
    Ok(Some(Ambiguous { form, sentence }))
}
