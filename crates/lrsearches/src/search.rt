//! The search for a shortest list that serves one of the places at which it begins: an A* search, back from there to the start
//! state, by the length of the list so far and the distance that is left to that state.

ghost use Rattle.std.specs.Prelude.{◌≡◌, ◌<◌, not, [], length, map, ◌∷◌, option_map, All, IfOk, OnOk, MatchOption, ◌++◌};
ghost use Rattle.std.specs.Option.{option_to_list};
ghost use Rattle.std.specs.List.Sorted.{IsPermutation};
ghost use Rattle.std.specs.BTreeSet.{contains, insert_key};
ghost use Rattle.std.specs.BinaryHeap.{heap_items};
ghost use Rattle.lrspec.specs.grammars.Grammar as math;
ghost use Rattle.lrspec.specs.merging.Graph.{IsGraphOf};
ghost use Rattle.lrgrammar.specs.Symbols.{symbol_of};
ghost use Rattle.lrsearches.specs.Searches.{AreLooking, IsAnswer};
ghost use Rattle.lrsearches.specs.StoredPlaces.{place_of};
ghost use Rattle.lrsearches.specs.StoredWays.{AreWaysOf};
ghost use Rattle.lrsearches.specs.PlaceOrder.{need_cmp, place_cmp};
ghost use Rattle.lrsearches.specs.Trails.{visit_of, visits_of, turns_of, begin_of, next_of, AreKnown, Adds, AddsAll, AreEarlier, IsListOf};

use crate::places::{Need, Place, Step};
use crate::steps::{is_goal, steps};
use crate::ways::Ways;
use lrgrammar::grammar::YaccGrammar;
use lrgrammar::idx::{IndexStorage, Symbol, TIdx};
use lrgraphs::stategraph::StateGraph;
use std::alloc::{AllocError, Global};
use std::cmp::Reverse;
use std::collections::{BTreeSet, BinaryHeap};

/// A place that a search has come to.
#[derive(Clone, Copy)]
struct Visit<T> {
    place: Place<T>,
    /// The visit from which a step led there; None where the search began there.
    from: Option<usize>,
    /// The symbol of that step.
    symbol: Option<Symbol<T>>,
    /// How many steps back were made.
    length: usize,
}

/// When a visit is looked at: the one with the shortest list first, as far as can be told.
#[derive(Clone, Copy, PartialEq, Eq, PartialOrd, Ord)]
struct Turn {
    /// The length of the shortest list that there may be.
    estimate: usize,
    /// How far it is to the start state.
    distance: usize,
    /// The visit.
    visit: usize,
}

/// A search under way: what it has come to, and what it has not looked at.
#[derive(Drop)]
struct Search<T: IndexStorage> {
    visits: Vec<Visit<T>>,
    seen: BTreeSet<Place<T>>,
    waiting: BinaryHeap<Reverse<Turn>>,
}

/// Puts the place into the set, if it is not there, and answers whether it was put in. Places are in order by their numbers.
fn insert_place<T: IndexStorage>(
    seen: &mut BTreeSet<Place<T>>,
    place: Place<T>,
) -> Result<bool, AllocError>
    ensures needs { (x y : Need T) → ⟦<Need<T> as Ord>⟧.cmp x y ≡ need_cmp T.cmp x y }
    ensures order { (a b : Place T) → ⟦<Place<T> as Ord>⟧.cmp a b
        ≡ place_cmp T.cmp ⟦<Need<T> as Ord>⟧.cmp a b }
    ensures added { IfOk result (λ added.
        added ≡ not (contains ⟦<Place<T> as Ord>⟧.cmp seen.old place)) }
    ensures keys { OnOk result (seen.new.keys
        ≡ insert_key ⟦<Place<T> as Ord>⟧.cmp seen.old.keys place) }
{
    Ok(seen.insert(place)?)
}

impl<T: IndexStorage> Search<T> {
    /// A search that has not begun.
    fn new(alloc: Global) -> Search<T>
        ensures visits { result.visits.items ≡ [] }
        ensures waiting { heap_items result.waiting ≡ [] }
        ensures known { AreKnown T.number result.seen [] }
    {
        Search {
            visits: Vec::new(alloc),
            seen: BTreeSet::new(alloc),
            waiting: BinaryHeap::new(alloc),
        }
    }

    /// Comes to a place, if the search was not there.
    fn add(&mut self, visit: Visit<T>, distance: usize) -> Result<(), AllocError>
        requires { AreKnown T.number self.old.seen
            (visits_of T.number self.old.visits.items) }
        ensures known { OnOk result (AreKnown T.number self.new.seen
            (visits_of T.number self.new.visits.items)) }
        ensures added { OnOk result (Adds (visits_of T.number self.old.visits.items)
            (turns_of (heap_items self.old.waiting)) (visit_of T.number visit)
            (visits_of T.number self.new.visits.items) (turns_of (heap_items self.new.waiting))) }
    {
        if !insert_place(&mut self.seen, visit.place)? {
            return Ok(());
        }
        let turn = Turn {
            estimate: visit.length.saturating_add(distance),
            distance,
            visit: self.visits.len(),
        };
        self.visits.push(visit)?;
        self.waiting.push(Reverse(turn))?;
        Ok(())
    }

    /// The visit whose turn it is, which waits no more.
    fn next_turn(&mut self) -> Option<usize>
        ensures turn { MatchOption result (turns_of (heap_items self.old.waiting) ≡ [])
            (λ n. IsPermutation (turns_of (heap_items self.old.waiting))
            (n ∷ turns_of (heap_items self.new.waiting))) }
        ensures visits { self.new.visits ≡ self.old.visits }
        ensures seen { self.new.seen ≡ self.old.seen }
    {
        match self.waiting.pop() {
            Some(Reverse(turn)) => Some(turn.visit),
            None => None,
        }
    }

    /// Begins at the places.
    fn begin(&mut self, ways: &Ways<T>, places: &[Place<T>]) -> Result<(), AllocError>
        requires known { AreKnown T.number self.old.seen
            (visits_of T.number self.old.visits.items) }
        requires states { All (λ a.
            T.number a.state.0 < length ways.now.distances.items) places.now }
        ensures known { OnOk result (AreKnown T.number self.new.seen
            (visits_of T.number self.new.visits.items)) }
        ensures added { OnOk result (AddsAll (visits_of T.number self.old.visits.items)
            (turns_of (heap_items self.old.waiting)) (map (begin_of T.number) places.now)
            (visits_of T.number self.new.visits.items) (turns_of (heap_items self.new.waiting))) }
    {
        for place in places {
            let visit = Visit {
                place: *place,
                from: None,
                symbol: None,
                length: 0,
            };
            let distance = ways.distances[usize::from(place.state)].unwrap_or(0);
            self.add(visit, distance)?;
        }
        Ok(())
    }

    /// Makes the steps from the visit.
    fn go_on(&mut self, ways: &Ways<T>, from: usize, steps: &[Step<T>]) -> Result<(), AllocError>
        requires known { AreKnown T.number self.old.seen
            (visits_of T.number self.old.visits.items) }
        requires from { from < length self.old.visits.items }
        requires states { All (λ e. T.number e.place.state.0 < length ways.now.distances.items)
            steps.now }
        ensures known { OnOk result (AreKnown T.number self.new.seen
            (visits_of T.number self.new.visits.items)) }
        ensures added { OnOk result (AddsAll (visits_of T.number self.old.visits.items)
            (turns_of (heap_items self.old.waiting)) (map (next_of T.number from) steps.now)
            (visits_of T.number self.new.visits.items) (turns_of (heap_items self.new.waiting))) }
    {
        let length = self.visits[from].length;
        for step in steps {
            let back = usize::from(step.symbol.is_some());
            let visit = Visit {
                place: step.place,
                from: Some(from),
                symbol: step.symbol,
                length: length.saturating_add(back),
            };
            let distance = ways.distances[usize::from(step.place.state)].unwrap_or(0);
            self.add(visit, distance)?;
        }
        Ok(())
    }
}

/// Adds the symbol, if there is one.
fn push_symbol<T: IndexStorage>(
    list: &mut Vec<Symbol<T>>,
    symbol: Option<Symbol<T>>,
) -> Result<(), AllocError>
    ensures { OnOk result (list.new.items ≡ list.old.items ++ option_to_list symbol) }
{
    if let Some(symbol) = symbol {
        list.push(symbol)?;
    }
    Ok(())
}

/// The list of the steps back from the place at which the search began to the visit, the last step first.
fn list_of<T: IndexStorage>(
    alloc: Global,
    visits: &[Visit<T>],
    visit: usize,
) -> Result<Vec<Symbol<T>>, AllocError>
    requires within { visit < length visits.now }
    requires earlier { AreEarlier (visits_of T.number visits.now) }
    ensures { IfOk result (λ list. IsListOf (visits_of T.number visits.now) visit
        (map (symbol_of T.number) list.items)) }
{
    let mut list = Vec::new(alloc);
    let mut at = visit;
    loop {
        let here = visits[at];
        let Some(from) = here.from else {
            return Ok(list);
        };
        push_symbol(&mut list, here.symbol)?;
        at = from;
    }
}

/// A shortest list that serves one of the places; None where none does.
pub fn shortest_list<T: IndexStorage>(
    grm: &YaccGrammar<T>,
    graph: &StateGraph<T>,
    ways: &Ways<T>,
    places: &[Place<T>],
    token: TIdx<T>,
) -> Result<Option<Vec<Symbol<T>>>, AllocError>
    requires graph { IsGraphOf grm.now graph.now }
    requires ways { AreWaysOf T.number grm.now graph.now ways.now }
    requires looking { All (λ a.
        AreLooking graph.now (T.number token.0) (place_of T.number a)) places.now }
    requires states { All (λ a. T.number a.state.0 < length graph.now) places.now }
    requires token { T.number token.0 < math.token_count grm.now }
    ensures { IfOk result (λ o. IsAnswer grm.now graph.now (T.number token.0)
        (map (place_of T.number) places.now)
        (option_map (λ list. map (symbol_of T.number) list.items) o)) }
{
    let mut search = Search::new(grm.allocator());
    search.begin(ways, places)?;
    while let Some(number) = search.next_turn() {
        let visit = search.visits[number];
        if is_goal(grm, &visit.place, token) {
            let list = list_of(grm.allocator(), search.visits.as_slice(), number)?;
            return Ok(Some(list));
        }
        let steps = steps(grm, graph, ways, &visit.place, token)?;
        search.go_on(ways, number, steps.as_slice())?;
    }
    Ok(None)
}
