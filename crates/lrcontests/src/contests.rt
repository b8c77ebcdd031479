//! Lists of symbols after which conflicts are real.

ghost use Rattle.std.specs.Prelude.{◌≡◌, ◌<◌, ℕ, Contains, length, map, option_map, IsTrue, IfOk, ◌↔◌, ◌⊎◌};
ghost use Rattle.lrspec.specs.grammars.Grammar as math;
ghost use Rattle.lrspec.specs.grammars.ItemSets.{HasItem};
ghost use Rattle.lrspec.specs.merging.Graph.{IsGraphOf, core_of};
ghost use Rattle.lrspec.specs.merging.WeakCompatibility.{SameItems};
ghost use Rattle.lrspec.specs.tables.Table.{shift_reduce_of, reduce_reduce_of};
ghost use Rattle.lrspec.specs.tables.Conflicts.{AreReductionsContested};
ghost use Rattle.lrgrammar.specs.Symbols.{symbol_of};
ghost use Rattle.lritems.specs.ItemsOf.{set_of};
ghost use Rattle.lrsearches.specs.Searches as search;
ghost use Rattle.lrsearches.specs.Searches.{AreLooking};
ghost use Rattle.lrsearches.specs.StoredPlaces.{need_of, place_of};
ghost use Rattle.lrsearches.specs.StoredWays.{AreWaysOf};
ghost use Rattle.lrcontests.specs.Contests.{IsShiftContest, IsReductionContest, HasNoReductionContest, IsReasonIfAny, AreStartsBelow};

use lrgrammar::grammar::YaccGrammar;
use lrgrammar::idx::{IndexStorage, PIdx, StIdx, Symbol, TIdx};
use lrgraphs::stategraph::StateGraph;
use lritems::itemset::Itemset;
use lrsearches::{Need, Place, Ways, are_looking, shortest_list};
use std::alloc::AllocError;
use std::marker::Model;

/// What the conflicts of a grammar's graph are looked at with: what all searches share is made once.
#[derive(Drop)]
pub struct Contests<'a, T: IndexStorage> {
    grm: &'a YaccGrammar<T>,
    graph: &'a StateGraph<T>,
    ways: Ways<T>,
}

impl<'a, T: IndexStorage> Model for Contests<'a, T> {
    ghost use Rattle.std.specs.Prelude.{◌≡◌};
    ghost use Rattle.lrspec.specs.merging.Graph.{IsGraphOf, core_of};
    ghost use Rattle.lrcontests.specs.Contests.{Contested};
    ghost use Rattle.lrsearches.specs.StoredWays.{AreWaysOf};

    ghost Value = { Contested };

    ghost view = { λ c. record { grammar = c.grm.now; graph = c.graph.now } };

    ghost invariant = { λ c. IsGraphOf c.grm.now c.graph.now
        × AreWaysOf T.number c.grm.now c.graph.now c.ways };
}

/// Whether each item of the one item set is in the other.
fn is_within<T: IndexStorage>(one: &Itemset<T>, other: &Itemset<T>) -> bool
    ensures { IsTrue result ↔ ((p d : ℕ)
        → HasItem (set_of T.number one.now) p d → HasItem (set_of T.number other.now) p d) }
{
    for (key, _) in &one.items {
        if !other.items.contains_key(key) {
            return false;
        }
    }
    true
}

/// Whether both item sets have the same items.
fn has_same_items<T: IndexStorage>(one: &Itemset<T>, other: &Itemset<T>) -> bool
    ensures { IsTrue result ↔ SameItems (set_of T.number one.now) (set_of T.number other.now) }
{
    is_within(one, other) && is_within(other, one)
}

/// Whether a search begins at the place: the core of its state has these items, and what is needed looks at the token there.
fn is_start<T: IndexStorage>(
    grm: &YaccGrammar<T>,
    graph: &StateGraph<T>,
    core: &Itemset<T>,
    place: &Place<T>,
    token: TIdx<T>,
) -> bool
    requires graph { IsGraphOf grm.now graph.now }
    requires state { T.number place.now.state.0 < length graph.now }
    requires token { T.number token.0 < math.token_count grm.now }
    ensures { IsTrue result ↔ (AreLooking graph.now (T.number token.0) (place_of T.number place.now)
        × SameItems (set_of T.number core.now) (core_of graph.now (T.number place.now.state.0))) }
{
    are_looking(grm, graph, place, token) && has_same_items(core, graph.core_state(place.state))
}

/// The places with these needs at the states whose core has the items of that of the given state, but for those at which an
/// item does not look at the token.
fn start_places<T: IndexStorage>(
    grm: &YaccGrammar<T>,
    graph: &StateGraph<T>,
    ways: &Ways<T>,
    given: &Place<T>,
    token: TIdx<T>,
) -> Result<Vec<Place<T>>, AllocError>
    requires graph { IsGraphOf grm.now graph.now }
    requires ways { AreWaysOf T.number grm.now graph.now ways.now }
    requires state { T.number given.now.state.0 < length graph.now }
    requires token { T.number token.0 < math.token_count grm.now }
    ensures { IfOk result (λ v. AreStartsBelow graph.now (T.number token.0)
        (place_of T.number given.now) (length graph.now) (map (place_of T.number) v.items)) }
{
    let core = graph.core_state(given.state);
    let fingerprint = ways.fingerprints[usize::from(given.state)];
    let mut places = Vec::new(grm.allocator());
    for number in 0..graph.all_states_len().0.to_usize() {
        if ways.fingerprints[number] == fingerprint {
            let place = Place {
                state: StIdx(T::from_usize(number).unwrap()),
                first: given.first,
                second: given.second,
            };
            if is_start(grm, graph, core, &place, token) {
                places.push(place)?;
            }
        }
    }
    Ok(places)
}

/// A shortest list with the core of the place's state, after which what is needed there looks at the token; None where there
/// is none.
fn shortest_reason<T: IndexStorage>(
    grm: &YaccGrammar<T>,
    graph: &StateGraph<T>,
    ways: &Ways<T>,
    place: &Place<T>,
    token: TIdx<T>,
) -> Result<Option<Vec<Symbol<T>>>, AllocError>
    requires graph { IsGraphOf grm.now graph.now }
    requires ways { AreWaysOf T.number grm.now graph.now ways.now }
    requires state { T.number place.now.state.0 < length graph.now }
    requires first { (p : ℕ) × (d : ℕ) × (need_of T.number place.now.first ≡ search.Look p d) }
    requires token { T.number token.0 < math.token_count grm.now }
    ensures { IfOk result (λ o. IsReasonIfAny grm.now graph.now (T.number token.0)
        (place_of T.number place.now)
        (option_map (λ list. map (symbol_of T.number) list.items) o)) }
{
    let places = start_places(grm, graph, ways, place, token)?;
    shortest_list(grm, graph, ways, places.as_slice(), token)
}

/// What a reduction by the production needs.
fn complete<T: IndexStorage>(grm: &YaccGrammar<T>, pidx: PIdx<T>) -> Need<T>
    requires { T.number pidx.0 < length grm.now.productions }
    ensures { need_of T.number result
        ≡ search.Look (T.number pidx.0) (length (math.body_of grm.now (T.number pidx.0))) }
{
    Need::Look(pidx, grm.prod_len(pidx))
}

impl<'a, T: IndexStorage> Contests<'a, T> {
    /// Those of the grammar and its graph. The error says that memory was refused.
    pub fn new(
        grm: &'a YaccGrammar<T>,
        graph: &'a StateGraph<T>,
    ) -> Result<Contests<'a, T>, AllocError>
        requires { IsGraphOf grm.now graph.now }
        ensures grammar { IfOk result (λ c. c.grammar ≡ grm.entry.now) }
        ensures graph { IfOk result (λ c. c.graph ≡ graph.entry.now) }
    {
        let ways = Ways::new(grm, graph)?;
        Ok(Contests { grm, graph, ways })
    }

    /// The ways into the states of the graph, which all searches share.
    pub fn ways(&self) -> &Ways<T>
        ensures { AreWaysOf T.number self.now.grammar self.now.graph result.now }
    {
        &self.ways
    }

    /// A shortest list of symbols after which the shift/reduce conflict is real: it has the core of the state, and both to
    /// shift the token and to reduce by the production on it are candidates. The error says that memory was refused.
    pub fn of_shift(
        &self,
        token: TIdx<T>,
        pidx: PIdx<T>,
        stidx: StIdx<T>,
    ) -> Result<Vec<Symbol<T>>, AllocError>
        requires { Contains (shift_reduce_of self.now.grammar self.now.graph)
            (T.number token.0, T.number pidx.0, T.number stidx.0) }
        ensures { IfOk result (λ list. IsShiftContest self.now.grammar self.now.graph
            (T.number token.0) (T.number pidx.0) (T.number stidx.0)
            (map (symbol_of T.number) list.items)) }
    {
        let place = Place {
            state: stidx,
            first: complete(self.grm, pidx),
            second: Need::Met,
        };
        let list = shortest_reason(self.grm, self.graph, &self.ways, &place, token)?;
        Ok(list.unwrap())
    }

    /// A shortest list of symbols after which the reduce/reduce conflict is real, and the token at which it is: the list has
    /// the core of the state, and to reduce by either production on that token are candidates. The token is that of the
    /// conflict where there is such a list, and else the least one for which there is. The error says that memory was
    /// refused.
    pub fn of_reductions(
        &self,
        token: TIdx<T>,
        pidx: PIdx<T>,
        other: PIdx<T>,
        stidx: StIdx<T>,
    ) -> Result<(Vec<Symbol<T>>, TIdx<T>), AllocError>
        requires listed { Contains (reduce_reduce_of self.now.grammar self.now.graph)
            (T.number token.0, T.number pidx.0, T.number other.0, T.number stidx.0) }
        requires contested { AreReductionsContested self.now.grammar self.now.graph }
        ensures contest { IfOk result (λ r. IsReductionContest self.now.grammar self.now.graph
            (T.number r.1.0) (T.number pidx.0) (T.number other.0) (T.number stidx.0)
            (map (symbol_of T.number) r.0.items)) }
        ensures own { IfOk result (λ r. (T.number r.1.0 ≡ T.number token.0)
            ⊎ HasNoReductionContest self.now.grammar self.now.graph
            (T.number token.0) (T.number pidx.0) (T.number other.0) (T.number stidx.0)) }
        ensures least { IfOk result (λ r. (T.number r.1.0 ≡ T.number token.0)
            ⊎ ((t : ℕ) → t < T.number r.1.0
            → HasNoReductionContest self.now.grammar self.now.graph
            t (T.number pidx.0) (T.number other.0) (T.number stidx.0))) }
    {
        let place = Place {
            state: stidx,
            first: complete(self.grm, pidx),
            second: complete(self.grm, other),
        };
        if let Some(list) = shortest_reason(self.grm, self.graph, &self.ways, &place, token)? {
            return Ok((list, token));
        }
        for number in 0..usize::from(self.grm.tokens_len()) {
            let tidx = TIdx(T::from_usize(number).unwrap());
            if let Some(list) = shortest_reason(self.grm, self.graph, &self.ways, &place, tidx)? {
                return Ok((list, tidx));
            }
        }
        unreachable!()
    }
}
