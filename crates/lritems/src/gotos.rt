//! The gotos of an item set on all symbols, which aren't made before they are needed.

ghost use Rattle.std.specs.Prelude.{◌≡◌, ◌≢◌, ℕ, ◌<◌, [], ◌∷◌, Some, length, get_or, IfOk, OnOk, IfNone, IfSome, MatchOption, option_map, IsTrue, ◌↔◌};
ghost use Rattle.lrspec.specs.grammars.Grammar as math;
ghost use Rattle.lrspec.specs.grammars.ItemSets.{Fits, HasItem, AreUpwards};
ghost use Rattle.lrgrammar.specs.Symbols.{symbol_of};
ghost use Rattle.lritems.specs.ItemsOf.{set_of, listed_of, Agree};
ghost use Rattle.lritems.specs.Gotos.{AreGotosOf, item_of, items_in, listed_in, gotos_of, noted_at, HasPlaceFor, ArePlacesFor, ArePlacesOf, HasGotoOn, HasGotoAt, IsPutAt, IsPutOn};

use crate::cores::Core;
use crate::itemset::{Ctx, Itemset};
use lrclosing::items::{is_same_symbol, step_over};
use lrgrammar::grammar::YaccGrammar;
use lrgrammar::idx::{IndexStorage, PIdx, SIdx, Symbol};
use std::alloc::{AllocError, Global};
use std::collections::BTreeMap;

/// A goto that isn't made: its items, upwards, each with its lookaheads in the item set that it is a goto of.
#[derive(Drop)]
pub struct Goto<'a, T: IndexStorage> {
    /// The first item.
    pub(crate) first: ((PIdx<T>, SIdx<T>), &'a Ctx),
    /// The others. Most gotos have none, and so take no memory.
    pub(crate) others: Vec<((PIdx<T>, SIdx<T>), &'a Ctx)>,
}

/// Whether an item of a goto is an item of an item set, with the same lookaheads.
fn is_same_item<T: IndexStorage>(
    mine: &(PIdx<T>, SIdx<T>),
    own: &Ctx,
    key: &(PIdx<T>, SIdx<T>),
    ctx: &Ctx,
) -> bool
    ensures { IsTrue result
        ↔ (item_of T.number mine.now own.now ≡ item_of T.number key.now ctx.now) }
{
    mine == key && own == ctx
}

impl<'a, T: IndexStorage> Goto<'a, T> {
    /// One item.
    fn new(alloc: Global, pidx: PIdx<T>, dot: SIdx<T>, ctx: &'a Ctx) -> Goto<'a, T>
        ensures { items_in T.number result
            ≡ item_of T.number (pidx, dot) ctx.now ∷ [] }
    {
        Goto {
            first: ((pidx, dot), ctx),
            others: Vec::new(alloc),
        }
    }

    /// Whether there are so many items.
    pub(crate) fn has_len(&self, len: usize) -> bool
        ensures { IsTrue result ↔ (length (listed_in self.now) ≡ len) }
    {
        len > 0 && len - 1 == self.others.len()
    }

    /// The item at a place.
    pub(crate) fn item(&self, place: usize) -> &((PIdx<T>, SIdx<T>), &'a Ctx)
        requires { place < length (listed_in self.now) }
        ensures { result.now ≡ get_or (listed_in self.now) place result.now }
    {
        if place == 0 {
            &self.first
        } else {
            &self.others[place - 1]
        }
    }

    /// Whether the core has the items of the goto and no others, with the same lookaheads.
    pub fn is_equal(&self, core: &Core<T>) -> bool
        requires { AreUpwards (items_in T.number self.now) }
        ensures { IsTrue result ↔ Agree core.now (items_in T.number self.now) }
    {
        if !self.has_len(core.items.len()) {
            return false;
        }
        for k in 0..core.items.len() {
            let (mine, own) = self.item(k);
            let (key, ctx) = &core.items[k];
            if !is_same_item(mine, own, key, ctx) {
                return false;
            }
        }
        true
    }
}

/// By rule and by token the place of the goto on it, which is to be read only where there is one.
#[derive(Drop)]
pub struct PlacesBySymbol {
    rules: Vec<usize>,
    tokens: Vec<usize>,
}

impl PlacesBySymbol {
    /// Places for the symbols of the grammar. The error says that memory was refused.
    pub fn new<T: IndexStorage>(grm: &YaccGrammar<T>) -> Result<PlacesBySymbol, AllocError>
        ensures { IfOk result (ArePlacesFor grm.now) }
    {
        Ok(PlacesBySymbol {
            rules: vec![in grm.allocator(); 0; usize::from(grm.rules_len())]?,
            tokens: vec![in grm.allocator(); 0; usize::from(grm.tokens_len())]?,
        })
    }

    /// The place that is noted for the symbol.
    fn at<T: IndexStorage>(&self, symbol: Symbol<T>) -> usize
        requires { HasPlaceFor self.now (symbol_of T.number symbol) }
        ensures { Some result ≡ noted_at self.now (symbol_of T.number symbol) }
    {
        match symbol {
            Symbol::Rule(ridx) => self.rules[usize::from(ridx)],
            Symbol::Token(tidx) => self.tokens[usize::from(tidx)],
        }
    }

    /// Notes the place for the symbol.
    fn set<T: IndexStorage>(&mut self, symbol: Symbol<T>, place: usize)
        requires { HasPlaceFor self.old (symbol_of T.number symbol) }
        ensures here { noted_at self.new (symbol_of T.number symbol) ≡ Some place }
        ensures others { (x : math.Symbol) → x ≢ symbol_of T.number symbol
            → noted_at self.new x ≡ noted_at self.old x }
        ensures rules { length self.new.rules.items ≡ length self.old.rules.items }
        ensures tokens { length self.new.tokens.items ≡ length self.old.tokens.items }
    {
        match symbol {
            Symbol::Rule(ridx) => self.rules[usize::from(ridx)] = place,
            Symbol::Token(tidx) => self.tokens[usize::from(tidx)] = place,
        }
    }
}

/// The place of the goto on a symbol, if there is one.
fn known_place<T: IndexStorage>(
    gotos: &[(Symbol<T>, Goto<'_, T>)],
    places: &PlacesBySymbol,
    symbol: Symbol<T>,
) -> Option<usize>
    requires noted { HasPlaceFor places.now (symbol_of T.number symbol) }
    requires places { ArePlacesOf (gotos_of T.number gotos.now) places.now }
    ensures { MatchOption result
        (HasGotoOn (gotos_of T.number gotos.now) (symbol_of T.number symbol) → ⊥)
        (λ k. HasGotoAt (gotos_of T.number gotos.now) k (symbol_of T.number symbol)) }
{
    let place = places.at(symbol);
    if place < gotos.len() && is_same_symbol(gotos[place].0, symbol) {
        Some(place)
    } else {
        None
    }
}

/// Puts an item with its lookaheads at the end of the goto at a place.
fn put_at<'a, T: IndexStorage>(
    gotos: &mut Vec<(Symbol<T>, Goto<'a, T>)>,
    place: usize,
    pidx: PIdx<T>,
    dot: SIdx<T>,
    ctx: &'a Ctx,
) -> Result<(), AllocError>
    requires { place < length gotos.old.items }
    ensures { OnOk result (IsPutAt place (T.number pidx.0) (T.number dot.0) ctx.now
        (gotos_of T.number gotos.old.items) (gotos_of T.number gotos.new.items)) }
{
    gotos[place].1.others.push(((pidx, dot), ctx))?;
    Ok(())
}

/// Puts an item with its lookaheads at the end of the goto on a symbol, which it begins if there is none.
fn put<'a, T: IndexStorage>(
    gotos: &mut Vec<(Symbol<T>, Goto<'a, T>)>,
    places: &mut PlacesBySymbol,
    symbol: Symbol<T>,
    pidx: PIdx<T>,
    dot: SIdx<T>,
    ctx: &'a Ctx,
) -> Result<(), AllocError>
    requires noted { HasPlaceFor places.old (symbol_of T.number symbol) }
    requires places { ArePlacesOf (gotos_of T.number gotos.old.items) places.old }
    ensures fit { (g : math.Grammar) → ArePlacesFor g places.old → ArePlacesFor g places.new }
    ensures places { OnOk result (ArePlacesOf (gotos_of T.number gotos.new.items) places.new) }
    ensures put { OnOk result
        (IsPutOn (symbol_of T.number symbol) (T.number pidx.0) (T.number dot.0) ctx.now
        (gotos_of T.number gotos.old.items) (gotos_of T.number gotos.new.items)) }
{
    if let Some(place) = known_place(gotos.as_slice(), places, symbol) {
        return put_at(gotos, place, pidx, dot, ctx);
    }
    let place = gotos.len();
    gotos.push((symbol, Goto::new(*gotos.allocator(), pidx, dot, ctx)))?;
    places.set(symbol, place);
    Ok(())
}

/// The gotos on every symbol before which one of the items stands, in the order in which the items, upwards, first show
/// these symbols. None is made. The error says that memory was refused.
pub fn gotos<'a, T: IndexStorage>(
    closed: &[((PIdx<T>, SIdx<T>), &'a Ctx)],
    grm: &YaccGrammar<T>,
    places: &mut PlacesBySymbol,
) -> Result<Vec<(Symbol<T>, Goto<'a, T>)>, AllocError>
    requires fits { Fits grm.now (listed_of T.number closed.now) }
    requires upwards { AreUpwards (listed_of T.number closed.now) }
    requires places { ArePlacesFor grm.now places.old }
    ensures gotos { IfOk result (λ v.
        AreGotosOf grm.now (listed_of T.number closed.now) (gotos_of T.number v.items)) }
    ensures places { ArePlacesFor grm.now places.new }
{
    let mut gotos = Vec::with_capacity(grm.allocator(), closed.len())?;
    for (key, ctx) in closed {
        if let Some((symbol, dot)) = step_over(grm, key.0, key.1) {
            put(&mut gotos, places, symbol, key.0, dot, ctx)?;
        }
    }
    Ok(gotos)
}

/// The items as an item set, which is made at once: its nodes are full, where inserting one item behind the other leaves them
/// half empty. The error says that memory was refused.
pub fn to_itemset<T: IndexStorage>(
    alloc: Global,
    items: &[((PIdx<T>, SIdx<T>), &Ctx)],
) -> Result<Itemset<T>, AllocError>
    requires { AreUpwards (listed_of T.number items.now) }
    ensures { IfOk result (λ s. set_of T.number s ≡ listed_of T.number items.now) }
{
    let mut pairs = Vec::with_capacity(alloc, items.len())?;
    for (key, ctx) in items {
        pairs.push((*key, Ctx::clone(ctx)?))?;
    }
    Ok(Itemset {
        items: BTreeMap::from_iter(alloc, pairs)?,
    })
}
