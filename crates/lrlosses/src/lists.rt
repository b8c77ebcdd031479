//! Lists that bring the machine of a table to a cell, with contexts in which a candidate may go on: a breadth-first search back
//! from the candidate, as `lrsearches` goes back from a conflict, but along edges that the machine can use alone.

use crate::known::Known;
use crate::rules::{Item, START, body_of, closed_of, complete, rule_of};
use lrgrammar::idx::{PIdx, SIdx, StIdx, Symbol, TIdx};
use std::alloc::{AllocError, Global};
use std::collections::BTreeSet;

/// How many items in states are looked at.
const MOST_NODES: usize = 3_000;

/// An item in a state, which was come to.
#[derive(Clone, Copy)]
struct Node {
    state: StIdx<u32>,
    item: Item,
    /// The symbol over which the dot was moved back, if it was.
    over: Option<Symbol<u32>>,
    /// The number of the node of which it comes.
    from: Option<usize>,
}

/// A search back from a candidate.
#[derive(Drop)]
struct Search<'a> {
    known: &'a Known<'a>,
    token: TIdx<u32>,
    /// In the order in which they came.
    nodes: Vec<Node>,
    /// Their states and items.
    seen: BTreeSet<(StIdx<u32>, PIdx<u32>, SIdx<u32>)>,
    lists: Vec<Vec<Symbol<u32>>>,
}

impl<'a> Search<'a> {
    /// Adds a node, unless its item was come to in its state before.
    fn add(&mut self, node: Node) -> Result<(), AllocError> {
        let Item { production, dot } = node.item;
        if self.nodes.len() < MOST_NODES && self.seen.insert((node.state, production, dot))? {
            self.nodes.push(node)?;
        }
        Ok(())
    }

    /// The node with that number.
    fn node(&self, number: usize) -> Option<Node> {
        self.nodes.get(number).copied()
    }

    /// Adds the symbols over which dots were moved back from the candidate to the node.
    fn add_symbols(&self, list: &mut Vec<Symbol<u32>>, number: usize) -> Result<(), AllocError> {
        let mut last = number;
        for _ in 0..self.nodes.len() {
            let Some(node) = self.node(last) else {
                break;
            };
            if let Some(symbol) = node.over {
                list.push(symbol)?;
            }
            let Some(from) = node.from else {
                break;
            };
            last = from;
        }
        Ok(())
    }

    /// Keeps the shortest way to the state of the node, and from there to the cell.
    fn keep(&mut self, alloc: Global, number: usize, node: Node) -> Result<(), AllocError> {
        let Some(mut list) = self.known.ways.list_to(alloc, node.state)? else {
            return Ok(());
        };
        self.add_symbols(&mut list, number)?;
        if !self.lists.contains(&list) {
            self.lists.push(list)?;
        }
        Ok(())
    }

    /// Looks at a node.
    fn look_at(&mut self, alloc: Global, number: usize, node: Node) -> Result<(), AllocError> {
        if let Some(item) = node.item.moved_back() {
            return self.go_back(number, node, item);
        }
        let grm = self.known.grm;
        if node.item.production == grm.start_prod() {
            if self.token == grm.eof_token_idx() && node.state == START {
                self.keep(alloc, number, node)?;
            }
            return Ok(());
        }
        self.close(alloc, number, node)
    }

    /// Goes back over the symbol before the dot.
    fn go_back(&mut self, number: usize, node: Node, item: Item) -> Result<(), AllocError> {
        let known = self.known;
        let over = known.ways.symbol(node.state);
        for state in known.ways.before(node.state) {
            self.add(Node {
                state: *state,
                item,
                over,
                from: Some(number),
            })?;
        }
        Ok(())
    }

    /// Goes on from the beginning of a body to the items of the state that stand before its rule.
    fn close(&mut self, alloc: Global, number: usize, node: Node) -> Result<(), AllocError> {
        let known = self.known;
        let (Some(rule), Some(set)) = (
            rule_of(known.grm, node.item.production),
            closed_of(known.graph, node.state),
        ) else {
            return Ok(());
        };
        for item in known.rules.uses(rule) {
            if set.items.contains_key(&(item.production, item.dot)) {
                self.close_by(alloc, number, node, *item)?;
            }
        }
        Ok(())
    }

    /// Goes on to an item before the rule, or keeps a list where the token may come behind the rule.
    fn close_by(
        &mut self,
        alloc: Global,
        number: usize,
        node: Node,
        item: Item,
    ) -> Result<(), AllocError> {
        let known = self.known;
        let behind = usize::from(item.dot).saturating_add(1);
        let Some(rest) = body_of(known.grm, item.production).get(behind..) else {
            return Ok(());
        };
        if known.rules.begin(rest, self.token) {
            self.keep(alloc, number, node)?;
        }
        if known.rules.are_nullable(rest) {
            self.add(Node {
                state: node.state,
                item,
                over: None,
                from: Some(number),
            })?;
        }
        Ok(())
    }
}

/// Lists that lead to the state along edges that can be used, behind which the production may look at the token there; at most so
/// many.
pub(crate) fn lists_before<'a>(
    alloc: Global,
    known: &'a Known<'a>,
    state: StIdx<u32>,
    production: PIdx<u32>,
    token: TIdx<u32>,
    most: usize,
) -> Result<Vec<Vec<Symbol<u32>>>, AllocError> {
    let mut search = Search {
        known,
        token,
        nodes: Vec::new(alloc),
        seen: BTreeSet::new(alloc),
        lists: Vec::new(alloc),
    };
    if let Some(item) = complete(known.grm, production) {
        search.add(Node {
            state,
            item,
            over: None,
            from: None,
        })?;
    }
    for number in 0..MOST_NODES {
        let Some(node) = search.node(number) else {
            break;
        };
        if search.lists.len() >= most {
            break;
        }
        search.look_at(alloc, number, node)?;
    }
    search.lists.truncate(most);
    Ok(search.lists)
}

/// A state, and the symbols from it to another one.
#[derive(Drop)]
struct Stretch {
    state: StIdx<u32>,
    /// The last symbol first.
    symbols: Vec<Symbol<u32>>,
}

/// The stretches that are longer by a symbol, those from states that are nearest to the start state; at most so many.
fn longer(
    alloc: Global,
    known: &Known<'_>,
    stretches: &[Stretch],
    most: usize,
) -> Result<Vec<Stretch>, AllocError> {
    let mut longer = Vec::new(alloc);
    for stretch in stretches {
        add_longer(&mut longer, known, stretch)?;
    }
    longer.sort_by_key(|stretch: &Stretch| known.ways.tokens(stretch.state))?;
    longer.truncate(most);
    Ok(longer)
}

/// Adds the stretches that are longer than this one by a symbol.
fn add_longer(
    longer: &mut Vec<Stretch>,
    known: &Known<'_>,
    stretch: &Stretch,
) -> Result<(), AllocError> {
    let Some(symbol) = known.ways.symbol(stretch.state) else {
        return Ok(());
    };
    for state in known.ways.before(stretch.state) {
        let mut symbols = stretch.symbols.clone()?;
        symbols.push(symbol)?;
        longer.push(Stretch {
            state: *state,
            symbols,
        })?;
    }
    Ok(())
}

/// The list of a shortest way to where a stretch begins, and of the stretch.
fn list_over(
    alloc: Global,
    known: &Known<'_>,
    stretch: &Stretch,
) -> Result<Option<Vec<Symbol<u32>>>, AllocError> {
    let Some(mut list) = known.ways.list_to(alloc, stretch.state)? else {
        return Ok(None);
    };
    for symbol in stretch.symbols.iter().rev() {
        list.push(*symbol)?;
    }
    Ok(Some(list))
}

/// Stretches of so many symbols to the state, from those states that are nearest to the start state; at most so many.
fn stretches_to(
    alloc: Global,
    known: &Known<'_>,
    state: StIdx<u32>,
    symbols: usize,
    most: usize,
) -> Result<Vec<Stretch>, AllocError> {
    let mut stretches = Vec::new(alloc);
    stretches.push(Stretch {
        state,
        symbols: Vec::new(alloc),
    })?;
    for _ in 0..symbols {
        stretches = longer(alloc, known, &stretches, most)?;
    }
    Ok(stretches)
}

/// Lists that lead to the state over so many symbols from states that are near to the start state; at most so many.
pub(crate) fn nearest_lists(
    alloc: Global,
    known: &Known<'_>,
    state: StIdx<u32>,
    symbols: usize,
    most: usize,
) -> Result<Vec<Vec<Symbol<u32>>>, AllocError> {
    let mut lists = Vec::new(alloc);
    for stretch in &stretches_to(alloc, known, state, symbols, most)? {
        if let Some(list) = list_over(alloc, known, stretch)? {
            lists.push(list)?;
        }
    }
    Ok(lists)
}
