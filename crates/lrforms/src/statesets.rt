//! Sets of states, each kept once and known by its number (hash consing), with the sets before them and their items before a
//! rule found once, when they are asked for first.

use crate::items::Item;
use crate::numbers::{Hash, Numbers};
use crate::rests::{Rest, Rests};
use crate::shared::Shared;
use crate::states::States;
use lrgrammar::idx::{RIdx, StIdx, Symbol};
use std::alloc::{AllocError, Global};
use std::ops::Range;

/// A set of states, by its number.
#[derive(Clone, Copy, PartialEq, Eq)]
pub(crate) struct StateSet(u32);

impl StateSet {
    /// The hash with the set's number.
    pub(crate) fn hashed(self, hash: Hash) -> Hash {
        hash.with(self.0)
    }
}

/// An item before a rule, the states of a set that have it, and what stands behind that rule.
#[derive(Clone, Copy)]
pub(crate) struct Closing {
    pub(crate) item: Item,
    pub(crate) states: StateSet,
    pub(crate) back: Rest,
}

/// Where the items of a set before a rule stand in `closings`.
#[derive(Clone, Copy)]
struct Span {
    set: StateSet,
    rule: RIdx<u32>,
    start: usize,
    end: usize,
}

/// Sets of states, and how one goes on from them.
#[derive(Drop)]
pub(crate) struct StateSets {
    /// The states of each set, upwards.
    sets: Vec<Vec<StIdx<u32>>>,
    numbers: Numbers,
    /// For each set from which states edges lead to its own, if that was asked for.
    before: Vec<Option<StateSet>>,
    spans: Vec<Span>,
    places: Numbers,
    closings: Vec<Closing>,
    /// How many states all sets have.
    size: usize,
}

/// The hash of a set.
fn hash_of(states: &[StIdx<u32>]) -> Hash {
    let mut hash = Hash::EMPTY;
    for state in states {
        hash = hash.with(state.0);
    }
    hash
}

impl StateSets {
    /// No sets.
    pub(crate) fn new(alloc: Global) -> StateSets {
        StateSets {
            sets: Vec::new(alloc),
            numbers: Numbers::new(alloc),
            before: Vec::new(alloc),
            spans: Vec::new(alloc),
            places: Numbers::new(alloc),
            closings: Vec::new(alloc),
            size: 0,
        }
    }

    /// How much is kept.
    pub(crate) fn size(&self) -> usize {
        let spans = self.spans.len().saturating_add(self.closings.len());
        self.size.saturating_add(spans)
    }

    /// The set with that hash that has these states, if it is there.
    fn known(&self, hash: Hash, states: &[StIdx<u32>]) -> Option<StateSet> {
        let mut probe = self.numbers.probe(hash);
        for _ in 0..self.sets.len() {
            let set = StateSet(self.numbers.next(&mut probe)?);
            if self.states(set) == states {
                return Some(set);
            }
        }
        None
    }

    /// The number of a set, whose states are given upwards. None where there are too many sets.
    pub(crate) fn number(
        &mut self,
        states: Vec<StIdx<u32>>,
    ) -> Result<Option<StateSet>, AllocError> {
        let hash = hash_of(states.as_slice());
        if let Some(set) = self.known(hash, states.as_slice()) {
            return Ok(Some(set));
        }
        let Ok(number) = u32::try_from(self.sets.len()) else {
            return Ok(None);
        };
        self.size = self.size.saturating_add(states.len());
        self.sets.push(states)?;
        self.before.push(None)?;
        self.numbers.add(hash, number)?;
        Ok(Some(StateSet(number)))
    }

    /// The states of a set, upwards.
    pub(crate) fn states(&self, set: StateSet) -> &[StIdx<u32>] {
        match self.sets.get(set.0 as usize) {
            Some(states) => states.as_slice(),
            None => &[],
        }
    }

    /// The states from which edges lead to those of a set.
    pub(crate) fn before(
        &mut self,
        graph: &States,
        set: StateSet,
    ) -> Result<Option<StateSet>, AllocError> {
        if let Some(before) = self.before.get(set.0 as usize).copied().flatten() {
            return Ok(Some(before));
        }
        let mut states = Vec::new(*self.sets.allocator());
        for state in self.states(set) {
            states.extend_from_slice(graph.before(*state))?;
        }
        states.sort_unstable();
        states.dedup();
        let before = self.number(states)?;
        if let Some(place) = self.before.get_mut(set.0 as usize) {
            *place = before;
        }
        Ok(before)
    }

    /// Where the items of the set before the rule stand, if they were asked for.
    fn span(&self, hash: Hash, set: StateSet, rule: RIdx<u32>) -> Option<Range<usize>> {
        let mut probe = self.places.probe(hash);
        for _ in 0..self.spans.len() {
            let number = self.places.next(&mut probe)?;
            let span = self.spans.get(number as usize)?;
            if span.set == set && span.rule == rule {
                return Some(span.start..span.end);
            }
        }
        None
    }

    /// The places of the items of a set that stand before a rule, but for those of the start production, and those that go on
    /// with what has no text or is too long.
    pub(crate) fn closings(
        &mut self,
        shared: &Shared,
        rests: &mut Rests,
        set: StateSet,
        rule: RIdx<u32>,
    ) -> Result<Range<usize>, AllocError> {
        let hash = set.hashed(Hash::EMPTY).with(rule.0);
        if let Some(span) = self.span(hash, set, rule) {
            return Ok(span);
        }
        let start = self.closings.len();
        let uses = shared.rules.uses(Symbol::Rule(rule));
        for (place, having) in self
            .having(&shared.states, uses.len(), set, rule)?
            .into_iter()
            .enumerate()
        {
            let item = uses.get(place).copied();
            if let (Some(item), false) = (item, having.is_empty()) {
                self.close(shared, rests, set, item, having)?;
            }
        }
        let end = self.closings.len();
        if let Ok(number) = u32::try_from(self.spans.len()) {
            self.spans.push(Span {
                set,
                rule,
                start,
                end,
            })?;
            self.places.add(hash, number)?;
        }
        Ok(start..end)
    }

    /// Adds an item that these states of a set have, if the search can go on by it.
    fn close(
        &mut self,
        shared: &Shared,
        rests: &mut Rests,
        set: StateSet,
        item: Item,
        having: Vec<StIdx<u32>>,
    ) -> Result<(), AllocError> {
        let rules = &shared.rules;
        let back = rests.with_front(&shared.texts, rules.rest(item), Rest::EMPTY)?;
        let states = self.part(set, having)?;
        if let (Some(back), Some(states), true) = (back, states, item.production != rules.start) {
            self.closings.push(Closing { item, states, back })?;
        }
        Ok(())
    }

    /// For each item before a rule, of which there are so many, the states of a set that have it, upwards.
    fn having(
        &self,
        graph: &States,
        count: usize,
        set: StateSet,
        rule: RIdx<u32>,
    ) -> Result<Vec<Vec<StIdx<u32>>>, AllocError> {
        let alloc = *self.sets.allocator();
        let mut having = Vec::new(alloc);
        having.resize_with(count, || Vec::new(alloc))?;
        for state in self.states(set) {
            for caller in graph.callers(*state, rule) {
                if let Some(states) = having.get_mut(caller.place) {
                    states.push(*state)?;
                }
            }
        }
        Ok(having)
    }

    /// The number of a set of some states of another one, given upwards.
    fn part(
        &mut self,
        whole: StateSet,
        states: Vec<StIdx<u32>>,
    ) -> Result<Option<StateSet>, AllocError> {
        if states.len() == self.states(whole).len() {
            return Ok(Some(whole));
        }
        self.number(states)
    }

    /// The item at a place.
    pub(crate) fn closing(&self, place: usize) -> Option<Closing> {
        self.closings.get(place).copied()
    }
}
