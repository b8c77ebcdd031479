//! What stands around a rule or an item in a whole text: Dijkstra's search, outwards from the rule to the start production,
//! over pairs of a place on the way and a rule that begins there.

use crate::behind::Behind;
use crate::costs::Cost;
use crate::items::Item;
use crate::layers::Layer;
use crate::numbers::{Hash, Numbers};
use crate::shared::Shared;
use crate::states::Way;
use lrgrammar::idx::{RIdx, Symbol, TIdx};
use std::alloc::{AllocError, Global};
use std::cmp::Reverse;
use std::collections::BinaryHeap;

/// After how many steps a search is given up.
const MOST_STEPS: usize = 1_000_000;

/// A rule whose text begins at a place of the way.
#[derive(Clone, Copy, PartialEq, Eq)]
struct Opening {
    place: usize,
    rule: RIdx<u32>,
    /// Whether the token that has to come next has come.
    has_met: bool,
}

impl Opening {
    /// The hash of the opening.
    fn hash(self) -> Hash {
        let place = u32::try_from(self.place).unwrap_or(u32::MAX);
        let hash = Hash::EMPTY.with(place).with(self.rule.0);
        hash.with(u32::from(self.has_met))
    }
}

/// What it costs to come to a rule: first the tokens behind the dots of the items, then the items, and then the reductions
/// behind the dots.
#[derive(Clone, Copy, Default, PartialEq, Eq, PartialOrd, Ord)]
struct Spent {
    tokens: usize,
    items: usize,
    reductions: usize,
}

impl Spent {
    /// With an item more, behind whose dot comes what costs this.
    fn and(self, behind: Cost) -> Spent {
        Spent {
            tokens: self.tokens.saturating_add(behind.tokens),
            items: self.items.saturating_add(1),
            reductions: self.reductions.saturating_add(behind.reductions),
        }
    }
}

/// How a rule was come to.
#[derive(Clone, Copy)]
struct Open {
    opening: Opening,
    /// The place of the opening in `least`.
    place: usize,
    spent: Spent,
    /// By which item, if not by none.
    layer: Option<Layer>,
    /// The number of the rule that stands behind the dot of that item; None for an item with which the search begins.
    inner: Option<usize>,
}

/// Rules that were come to, outwards, by what is least behind them.
#[derive(Drop)]
pub(crate) struct Around<'a> {
    shared: &'a Shared,
    way: &'a Way,
    token: TIdx<u32>,
    behind: Behind<'a>,
    opened: Vec<Open>,
    /// For each opening that was come to the number of the least way to it so far.
    least: Vec<usize>,
    /// The places in `least` by the hashes of the openings.
    places: Numbers,
    /// What is to be looked at next, the least first, and of equals the first one first.
    queue: BinaryHeap<Reverse<(Spent, usize)>>,
}

impl<'a> Around<'a> {
    /// Nothing is come to yet. Behind the way this token has to come.
    pub(crate) fn new(
        alloc: Global,
        shared: &'a Shared,
        way: &'a Way,
        token: TIdx<u32>,
    ) -> Result<Around<'a>, AllocError> {
        let behind = Behind::new(shared, token)?;
        Ok(Around {
            shared,
            way,
            token,
            behind,
            opened: Vec::new(alloc),
            least: Vec::new(alloc),
            places: Numbers::new(alloc),
            queue: BinaryHeap::new(alloc),
        })
    }

    /// How many rules were come to.
    pub(crate) fn len(&self) -> usize {
        self.opened.len()
    }

    /// Begins with a rule behind the way, with which the token comes.
    pub(crate) fn add_rule(&mut self, rule: RIdx<u32>) -> Result<(), AllocError> {
        let opening = Opening {
            place: self.way.symbols.len(),
            rule,
            has_met: true,
        };
        self.open(opening, Spent::default(), None, None)
    }

    /// Begins with an item whose dot is behind the way. Whether the token comes with the symbol behind the dot.
    pub(crate) fn add_item(&mut self, item: Item, has_met: bool) -> Result<(), AllocError> {
        let place = self.way.symbols.len();
        let Some(opening) = self.opening(item, place, has_met) else {
            return Ok(());
        };
        let spent = Spent::default().and(self.shared.body_costs.behind(item));
        let layer = Layer { item, begun: None };
        self.open(opening, spent, Some(layer), None)
    }

    /// The rule of an item whose dot is at the place.
    fn opening(&self, item: Item, place: usize, has_met: bool) -> Option<Opening> {
        Some(Opening {
            place: place.checked_sub(item.dot())?,
            rule: self.shared.rules.rule(item.production)?,
            has_met,
        })
    }

    /// The place in `least` of an opening that was come to and has that hash.
    fn known(&self, hash: Hash, opening: Opening) -> Option<usize> {
        let mut probe = self.places.probe(hash);
        for _ in 0..self.least.len() {
            let place = self.places.next(&mut probe)? as usize;
            let open = self.at(self.least.get(place).copied())?;
            if open.opening == opening {
                return Some(place);
            }
        }
        None
    }

    /// Comes to a rule, unless it was come to with as little.
    fn open(
        &mut self,
        opening: Opening,
        spent: Spent,
        layer: Option<Layer>,
        inner: Option<usize>,
    ) -> Result<(), AllocError> {
        let number = self.opened.len();
        let hash = opening.hash();
        let known = self.known(hash, opening);
        let least = known.and_then(|place| self.at(self.least.get(place).copied()));
        if least.is_some_and(|least| least.spent <= spent) {
            return Ok(());
        }
        let place = known.unwrap_or(self.least.len());
        match self.least.get_mut(place) {
            Some(least) => *least = number,
            None => self.add_opening(hash, number)?,
        }
        self.queue.push(Reverse((spent, number)))?;
        self.opened.push(Open {
            opening,
            place,
            spent,
            layer,
            inner,
        })?;
        Ok(())
    }

    /// Adds an opening with that hash, to which the way with that number leads.
    fn add_opening(&mut self, hash: Hash, number: usize) -> Result<(), AllocError> {
        if let Ok(place) = u32::try_from(self.least.len()) {
            self.places.add(hash, place)?;
        }
        self.least.push(number)?;
        Ok(())
    }

    /// The number of the rule that is looked at next.
    fn next(&mut self) -> Option<usize> {
        let Reverse((_, number)) = self.queue.pop()?;
        Some(number)
    }

    /// Adds the rules in whose bodies a rule may stand.
    fn go_on(&mut self, number: usize, open: Open) -> Result<(), AllocError> {
        let Some(state) = self.way.states.get(open.opening.place) else {
            return Ok(());
        };
        let rule = open.opening.rule;
        let uses = self.shared.rules.uses(Symbol::Rule(rule));
        for caller in self.shared.states.callers(*state, rule) {
            if let Some(item) = uses.get(caller.place) {
                self.cross(number, open, *item)?;
            }
        }
        Ok(())
    }

    /// Adds the rule of an item before a rule, if the token that has to come can come behind that, or further out.
    fn cross(&mut self, number: usize, open: Open, item: Item) -> Result<(), AllocError> {
        let rest = self.shared.rules.rest(item);
        if open.opening.has_met || self.behind.are_nullable(rest) {
            let behind = self.shared.body_costs.behind(item);
            self.put(number, open, Layer { item, begun: None }, behind)?;
        }
        if open.opening.has_met {
            return Ok(());
        }
        match self.behind.begun(rest) {
            Some(begun) => {
                let place = Some(begun.place);
                self.put(number, open, Layer { item, begun: place }, begun.cost)
            }
            None => Ok(()),
        }
    }

    /// Adds the rule of a layer around a rule, behind which comes what costs this.
    fn put(
        &mut self,
        number: usize,
        open: Open,
        layer: Layer,
        behind: Cost,
    ) -> Result<(), AllocError> {
        let has_met = open.opening.has_met || layer.begun.is_some();
        let Some(opening) = self.opening(layer.item, open.opening.place, has_met) else {
            return Ok(());
        };
        self.open(opening, open.spent.and(behind), Some(layer), Some(number))
    }

    /// Whether the rule is that of the start production, and nothing has to come behind it.
    fn is_goal(&self, opening: Opening) -> bool {
        let rules = &self.shared.rules;
        rules.rule(rules.start) == Some(opening.rule)
            && (opening.has_met || self.token == rules.end)
    }

    /// Goes outwards until the start production is come to; the number of its rule.
    fn run(&mut self) -> Result<Option<usize>, AllocError> {
        for _ in 0..MOST_STEPS {
            let Some(number) = self.next() else {
                break;
            };
            let Some(open) = self.at(Some(number)) else {
                break;
            };
            if self.is_goal(open.opening) {
                return Ok(Some(number));
            }
            if self.least.get(open.place).copied() == Some(number) {
                self.go_on(number, open)?;
            }
        }
        Ok(None)
    }

    /// How the rule with this number was come to.
    fn at(&self, number: Option<usize>) -> Option<Open> {
        self.opened.get(number?).copied()
    }

    /// The layers by which the rule with this number was come to, the outermost one first.
    fn layers(&self, alloc: Global, number: usize) -> Result<Vec<Layer>, AllocError> {
        let mut layers = Vec::new(alloc);
        let mut last = Some(number);
        for _ in 0..self.opened.len() {
            let Some(open) = self.at(last) else {
                break;
            };
            let Some(layer) = open.layer else {
                break;
            };
            layers.push(layer)?;
            last = open.inner;
        }
        Ok(layers)
    }

    /// Goes outwards from what was added: the layers around it, that of the start production first, with the fewest tokens
    /// behind the dots, and of such ones the fewest. None where there are none.
    pub(crate) fn find(&mut self, alloc: Global) -> Result<Option<Vec<Layer>>, AllocError> {
        match self.run()? {
            Some(number) => Ok(Some(self.layers(alloc, number)?)),
            None => Ok(None),
        }
    }
}
