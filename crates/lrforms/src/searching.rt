//! The search for a form: a best-first search over pairs of partial derivations, as Isradisaikul and Myers (PLDI 2015) search
//! for counterexamples to LALR conflicts.
//!
//! The two trees are known from the dot outwards: to the left as far as both have the same symbols, and to the right as far as
//! what one yields was met by the other. They are whole where both end up at one rule. Other than theirs, the search starts at
//! the dot alone and not at a shortest path to the conflict: to the left it goes over sets of states at once; it uses no
//! lookaheads, since what is found is checked; and a queue of buckets gives the node that costs least.

use crate::ambiguous::{Ambiguous, Search};
use crate::items::Item;
use crate::nodes::{Branch, Node, Place, Side, Step};
use crate::numbers::Hash;
use crate::reading::form_of;
use crate::rests::Rest;
use crate::scratch::Scratch;
use crate::sentences::sentence_of;
use crate::shared::Shared;
use crate::states::START;
use crate::statesets::{Closing, StateSet};
use lrconflicts::Conflict;
use lrgrammar::idx::{PIdx, RIdx, SIdx, Symbol, TIdx};
use std::alloc::{AllocError, Global};

/// What a step costs that makes a body of a rule where both trees have that rule next.
const NEEDLESS: u32 = 3;

/// How many nodes are tried for each that may be made; most of those that are tried were made before.
const MOST_TRIES: usize = 50;

/// A search.
#[derive(Drop)]
pub(crate) struct Searching<'a> {
    shared: &'a Shared,
    conflict: Conflict<u32>,
    scratch: &'a mut Scratch,
    /// How many nodes may be made.
    steps: usize,
    /// How much work may be done, and how much was done: nodes that were tried, and what whole texts took.
    most: usize,
    work: usize,
    /// Whether more was to be made or done.
    is_out: bool,
    /// A node at which both trees are whole, and their rule.
    goal: Option<(u32, RIdx<u32>)>,
}

impl<'a> Searching<'a> {
    /// Before the first step, with so much work at the most. There are no nodes yet.
    pub(crate) fn new(
        shared: &'a Shared,
        conflict: Conflict<u32>,
        scratch: &'a mut Scratch,
        steps: usize,
        most: usize,
    ) -> Searching<'a> {
        Searching {
            shared,
            conflict,
            scratch,
            steps,
            most: most.min(steps.saturating_mul(MOST_TRIES)),
            work: 0,
            is_out: false,
            goal: None,
        }
    }

    /// How much work was done.
    pub(crate) fn work(&self) -> usize {
        self.work
    }

    /// Searches. These are the items of the conflict's state before the token.
    pub(crate) fn run(&mut self, alloc: Global, shifting: &[Item]) -> Result<Search, AllocError> {
        self.start(alloc, shifting)?;
        for _ in 0..=self.steps {
            if let Some((number, rule)) = self.goal.take() {
                if let Some(found) = self.found(alloc, number, rule)? {
                    return Ok(Search::Found(found));
                }
            }
            if self.is_out {
                break;
            }
            let Some(number) = self.scratch.queue.pop() else {
                return Ok(Search::Emptied);
            };
            self.look_at(number)?;
        }
        Ok(Search::OutOfSteps)
    }

    /// What is found at a node at which both trees are whole.
    fn found(
        &mut self,
        alloc: Global,
        number: u32,
        rule: RIdx<u32>,
    ) -> Result<Option<Ambiguous>, AllocError> {
        let (shared, token, mut work) = (self.shared, self.conflict.token, self.work);
        let scratch = &*self.scratch;
        let Some(node) = scratch.nodes.get(number as usize) else {
            return Ok(None);
        };
        let form = form_of(alloc, shared, scratch.nodes.as_slice(), rule, number)?;
        let states = scratch.sets.states(node.place.states);
        let found = sentence_of(alloc, shared, token, states, form, &mut work)?;
        self.work = work;
        Ok(found)
    }

    /// Makes the first nodes.
    fn start(&mut self, alloc: Global, shifting: &[Item]) -> Result<(), AllocError> {
        let alike = self.shared.states.alike(self.conflict.state);
        let Some(states) = self.scratch.sets.number(Vec::from_slice(alloc, alike)?)? else {
            return Ok(());
        };
        match self.conflict.other {
            Some(other) => match self.complete(other) {
                Some(item) => self.start_at(states, item, Rest::EMPTY),
                None => Ok(()),
            },
            None => self.start_shifts(states, shifting),
        }
    }

    /// The item of a production with its dot behind the body.
    fn complete(&self, production: PIdx<u32>) -> Option<Item> {
        let length = self.shared.rules.body(production).len();
        let dot = u32::try_from(length).ok()?;
        Some(Item {
            production,
            dot: SIdx(dot),
        })
    }

    /// Makes a node for each of the items before the token.
    fn start_shifts(&mut self, states: StateSet, shifting: &[Item]) -> Result<(), AllocError> {
        for item in shifting {
            let back = self.shared.rules.behind(*item);
            if let Some(rest) = self
                .scratch
                .rests
                .with_front(&self.shared.texts, back, Rest::EMPTY)?
            {
                self.start_at(states, *item, rest)?;
            }
        }
        Ok(())
    }

    /// Makes a first node.
    fn start_at(&mut self, states: StateSet, item: Item, rest: Rest) -> Result<(), AllocError> {
        let Some(complete) = self.complete(self.conflict.production) else {
            return Ok(());
        };
        let place = Place {
            states,
            first: Branch {
                item: complete,
                rest: Rest::EMPTY,
            },
            second: Branch { item, rest },
            has_begun: false,
        };
        self.add(place, Step::Start, 0, 0)
    }

    /// Makes the nodes that come of a node.
    fn look_at(&mut self, number: u32) -> Result<(), AllocError> {
        let Some(node) = self.scratch.nodes.get(number as usize).copied() else {
            return Ok(());
        };
        let first = self.scratch.rests.head(node.place.first.rest);
        let second = self.scratch.rests.head(node.place.second.rest);
        if let (Some(first), Some(second)) = (first, second) {
            return self.go_on(number, &node, first, second);
        }
        if node.place.first.item.dot() > 0 && node.place.second.item.dot() > 0 {
            return self.go_back(number, &node);
        }
        self.close(number, &node, Side::First)?;
        self.close(number, &node, Side::Second)
    }

    /// Both trees go on to the right, where these are the symbols that they have next.
    fn go_on(
        &mut self,
        number: u32,
        node: &Node,
        first: Symbol<u32>,
        second: Symbol<u32>,
    ) -> Result<(), AllocError> {
        let mut cost = 0;
        if first == second {
            self.meet(number, node, first)?;
            cost = NEEDLESS;
        }
        let spent = node.spent.saturating_add(cost);
        self.expand(number, node, Side::First, first, second, spent)?;
        self.expand(number, node, Side::Second, second, first, spent)
    }

    /// The token with which what one tree yields next has to begin, if not with nothing, where the other tree has this symbol
    /// next: that of the conflict, or that symbol.
    fn wanted(&self, node: &Node, opposite: Symbol<u32>) -> Option<TIdx<u32>> {
        if !node.place.has_begun {
            return Some(self.conflict.token);
        }
        match opposite {
            Symbol::Token(token) => Some(token),
            Symbol::Rule(_) => None,
        }
    }

    /// Whether the body of the production begins with another token than this.
    fn begins_otherwise(&self, production: PIdx<u32>, wanted: TIdx<u32>) -> bool {
        match self.shared.rules.body(production).first() {
            Some(Symbol::Token(token)) => *token != wanted,
            _ => false,
        }
    }

    /// Both trees yield the symbol that both have next.
    fn meet(&mut self, number: u32, node: &Node, symbol: Symbol<u32>) -> Result<(), AllocError> {
        let place = node.place;
        if !place.has_begun && !self.shared.firsts.begins(symbol, self.conflict.token) {
            return Ok(());
        }
        let met = Place {
            states: place.states,
            first: Branch {
                item: place.first.item,
                rest: self.scratch.rests.tail(place.first.rest),
            },
            second: Branch {
                item: place.second.item,
                rest: self.scratch.rests.tail(place.second.rest),
            },
            has_begun: true,
        };
        self.add(met, Step::Meet, number, node.spent)
    }

    /// The rule that one tree has next becomes the body of each of its productions. The other tree has the opposite symbol.
    fn expand(
        &mut self,
        number: u32,
        node: &Node,
        side: Side,
        symbol: Symbol<u32>,
        opposite: Symbol<u32>,
        spent: u32,
    ) -> Result<(), AllocError> {
        let Symbol::Rule(rule) = symbol else {
            return Ok(());
        };
        let wanted = self.wanted(node, opposite);
        for production in self.shared.rules.productions(rule) {
            if wanted.is_some_and(|wanted| self.begins_otherwise(*production, wanted)) {
                self.count_try();
            } else {
                self.expand_by(number, node, side, *production, spent)?;
            }
        }
        Ok(())
    }

    /// The rule that one tree has next becomes the body of the production.
    fn expand_by(
        &mut self,
        number: u32,
        node: &Node,
        side: Side,
        production: PIdx<u32>,
        spent: u32,
    ) -> Result<(), AllocError> {
        let branch = node.place.branch(side);
        let tail = self.scratch.rests.tail(branch.rest);
        let body = self.shared.rules.body(production);
        let Some(rest) = self
            .scratch
            .rests
            .with_front(&self.shared.texts, body, tail)?
        else {
            return Ok(());
        };
        let expanded = Branch {
            item: branch.item,
            rest,
        };
        let place = node.place.with_branch(side, expanded, node.place.states);
        self.add(place, Step::Expand(side, production), number, spent)
    }

    /// Both dots go back over one symbol.
    fn go_back(&mut self, number: u32, node: &Node) -> Result<(), AllocError> {
        let place = node.place;
        let Some(states) = self.scratch.sets.before(&self.shared.states, place.states)? else {
            return Ok(());
        };
        let (Some(first), Some(second)) = (
            place.first.item.moved_back(),
            place.second.item.moved_back(),
        ) else {
            return Ok(());
        };
        let back = Place {
            states,
            first: Branch {
                item: first,
                rest: place.first.rest,
            },
            second: Branch {
                item: second,
                rest: place.second.rest,
            },
            has_begun: place.has_begun,
        };
        self.add(back, Step::Back, number, node.spent.saturating_add(1))
    }

    /// The node of one tree, if its body begins here, is put below each node in which it may stand.
    fn close(&mut self, number: u32, node: &Node, side: Side) -> Result<(), AllocError> {
        let item = node.place.branch(side).item;
        if item.dot() > 0 {
            return Ok(());
        }
        let Some(rule) = self.shared.rules.rule(item.production) else {
            return Ok(());
        };
        let Scratch { sets, rests, .. } = &mut *self.scratch;
        for place in sets.closings(self.shared, rests, node.place.states, rule)? {
            if let Some(closing) = self.scratch.sets.closing(place) {
                self.close_by(number, node, side, closing)?;
            }
        }
        Ok(())
    }

    /// The node of one tree is put below one of an item.
    fn close_by(
        &mut self,
        number: u32,
        node: &Node,
        side: Side,
        closing: Closing,
    ) -> Result<(), AllocError> {
        let texts = &self.shared.texts;
        let branch = node.place.branch(side);
        let Some(rest) = self
            .scratch
            .rests
            .with_back(texts, branch.rest, closing.back)?
        else {
            return Ok(());
        };
        let closed = Branch {
            item: closing.item,
            rest,
        };
        let place = node.place.with_branch(side, closed, closing.states);
        self.add(place, Step::Close(side), number, node.spent)
    }

    /// Counts a node that is tried.
    fn count_try(&mut self) {
        self.is_out = self.is_out || self.work >= self.most;
        self.work = self.work.saturating_add(1);
    }

    /// Makes a node unless it leads nowhere or its place was come to before.
    fn add(&mut self, place: Place, step: Step, from: u32, spent: u32) -> Result<(), AllocError> {
        self.count_try();
        let hash = place.hash();
        if self.is_out || self.scratch.is_seen(hash, &place) || !self.is_open(&place) {
            return Ok(());
        }
        let node = Node {
            place,
            step,
            from,
            spent,
        };
        match u32::try_from(self.scratch.nodes.len()) {
            Ok(number) if self.scratch.nodes.len() < self.steps => self.make(hash, node, number),
            _ => {
                self.is_out = true;
                Ok(())
            }
        }
    }

    /// Makes a node, whose place has that hash, and which has this number.
    fn make(&mut self, hash: Hash, node: Node, number: u32) -> Result<(), AllocError> {
        self.scratch.push(hash, node, number)?;
        if self.goal.is_none() {
            if let Some(rule) = self.whole(&node.place) {
                self.goal = Some((number, rule));
            }
        }
        let cost = self.cost(&node.place, node.spent);
        self.scratch.queue.push(cost, number)
    }

    /// What the steps to a place cost, and what those from it cost at least, or so.
    fn cost(&self, place: &Place, spent: u32) -> usize {
        let dot = place.first.item.dot().max(place.second.item.dot());
        let first = self.scratch.rests.length(place.first.rest);
        let second = self.scratch.rests.length(place.second.rest);
        let length = first.max(second).saturating_mul(2);
        dot.saturating_add(length).saturating_add(spent as usize)
    }

    /// Whether the two rests may still yield the same text.
    fn is_open(&self, place: &Place) -> bool {
        let (first, second) = (place.first.rest, place.second.rest);
        if let (Some(Symbol::Token(first)), Some(Symbol::Token(second))) = (
            self.scratch.rests.head(first),
            self.scratch.rests.head(second),
        ) {
            if first != second {
                return false;
            }
        }
        if !place.has_begun && !(self.can_begin(first) && self.can_begin(second)) {
            return false;
        }
        self.scratch.rests.is_nullable(first)
            || self.scratch.rests.is_nullable(second)
            || self.scratch.rests.meet(&self.shared.firsts, first, second)
    }

    /// Whether a text of the rest may begin with the conflict's token, or be empty.
    fn can_begin(&self, rest: Rest) -> bool {
        let token = Symbol::Token(self.conflict.token);
        self.scratch.rests.is_nullable(rest)
            || self.scratch.rests.begins(&self.shared.firsts, rest, token)
    }

    /// The rule that both trees derive, where both are whole.
    fn whole(&self, place: &Place) -> Option<RIdx<u32>> {
        let rules = &self.shared.rules;
        let (first, second) = (place.first, place.second);
        if first.item.dot() > 0 || second.item.dot() > 0 {
            return None;
        }
        if !self.scratch.rests.is_nullable(first.rest)
            || !self.scratch.rests.is_nullable(second.rest)
        {
            return None;
        }
        let rule = rules.rule(first.item.production)?;
        if rules.rule(second.item.production) != Some(rule) {
            return None;
        }
        if place.has_begun || self.is_whole_text(place.states, rule) {
            Some(rule)
        } else {
            None
        }
    }

    /// Whether the conflict is at the end of the text, and the rule can be all of it.
    fn is_whole_text(&self, states: StateSet, rule: RIdx<u32>) -> bool {
        let rules = &self.shared.rules;
        self.conflict.token == rules.end
            && rules.body(rules.start).first().copied() == Some(Symbol::Rule(rule))
            && self.scratch.sets.states(states).first().copied() == Some(START)
    }
}
