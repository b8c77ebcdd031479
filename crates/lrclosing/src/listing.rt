//! The items of a closure, listed without copies of their lookaheads.

ghost use Rattle.std.specs.Prelude.{◌≡◌, ℕ, ◌+◌, ◌<◌, ◌≤◌, ◌++◌, length, IfOk, OnOk};
ghost use Rattle.lrgrammar.specs.GrammarSizes.{IsWithin};
ghost use Rattle.lrspec.specs.grammars.Grammar as math;
ghost use Rattle.lrspec.specs.grammars.ItemSets.{HasItem, Fits, AreUpwards};
ghost use Rattle.lrclosing.specs.ItemsOf.{items_of, listed_of};
ghost use Rattle.lrclosing.specs.Rows.{IsPutIn, AreWithRows};
ghost use Rattle.lrclosing.specs.Leads.{rows_in, AreKeptRows};
ghost use Rattle.lrclosing.specs.Closer.{IsCloserOf, rows_of};
ghost use Rattle.lrclosing.specs.Visits.{AreMarked};
ghost use Rattle.lrclosing.specs.Listing.{IsIn, ArePutIn, IsPlaceAmong, row_items, listed_items};

use crate::closer::{Closer, Row};
use crate::items::Ctx;
use lrgrammar::grammar::YaccGrammar;
use lrgrammar::idx::{IndexStorage, PIdx, RIdx, SIdx};
use lrgrammar::vob::Vob;
use std::alloc::AllocError;

/// The productions whose rules the last closing reached: one bit for each from the first of them to the last.
#[derive(Drop)]
struct Marked {
    /// The first.
    from: usize,
    bits: Vob,
}

/// The range with a place in it; it goes from its first place up to its last.
fn widened(range: (usize, usize), place: usize) -> (usize, usize)
    ensures here { IsIn result place }
    ensures kept { (q : ℕ) → IsIn range q → IsIn result q }
    ensures first { result.0 ≤ range.0 }
    ensures last { (n : ℕ) → range.1 < n → place < n → result.1 < n }
{
    (range.0.min(place), range.1.max(place))
}

/// The range with all productions of a rule in it.
fn with_productions<T: IndexStorage>(
    range: (usize, usize),
    grm: &YaccGrammar<T>,
    rule: RIdx<T>,
) -> (usize, usize)
    requires { T.number rule.0 < length grm.now.rule_names }
    ensures has { (q : ℕ) → math.IsProductionOf grm.now q (T.number rule.0) → IsIn result q }
    ensures kept { (q : ℕ) → IsIn range q → IsIn result q }
    ensures first { result.0 ≤ range.0 }
    ensures last { range.1 < length grm.now.productions → result.1 < length grm.now.productions }
{
    let mut found = range;
    for pidx in grm.rule_to_prods(rule) {
        found = widened(found, usize::from(*pidx));
    }
    found
}

/// A range with the productions whose rules the last closing reached, from the first to the last of them.
fn reached_range<T: IndexStorage>(grm: &YaccGrammar<T>, closer: &Closer) -> (usize, usize)
    requires { IsCloserOf grm.now closer.now }
    ensures has { (q : ℕ) → IsPutIn grm.now (rows_of closer.now) q → IsIn result q }
    ensures first { result.0 ≤ length grm.now.productions }
    ensures last { 0 < length grm.now.productions → result.1 < length grm.now.productions }
{
    let mut range = (usize::from(grm.prods_len()), 0);
    for place in closer.reached.as_slice() {
        range = with_productions(range, grm, RIdx(T::from_usize(*place).unwrap()));
    }
    range
}

/// How many productions the rules have that the last closing reached.
fn reached_len<T: IndexStorage>(grm: &YaccGrammar<T>, closer: &Closer) -> usize
    requires { IsCloserOf grm.now closer.now }
{
    // for the numbers of rules
    grm.in_order();
    let mut len: usize = 0;
    for place in closer.reached.as_slice() {
        let productions = grm.rule_to_prods(RIdx(T::from_usize(*place).unwrap()));
        len = len.saturating_add(productions.len());
    }
    len
}

/// How many places a range has below `most`, where the first one may be `most` itself.
fn places_in(range: (usize, usize), most: usize) -> usize
    requires first { range.0 ≤ most }
    requires last { 0 < most → range.1 < most }
    ensures most { range.0 + result ≤ most }
    ensures all { (q : ℕ) → q < most → IsIn range q → q < range.0 + result }
{
    if range.0 < most {
        range.1.saturating_sub(range.0) + 1
    } else {
        0
    }
}

/// Sets the bits of all productions of a rule, where the first bit is that of production `from`.
fn mark_from<T: IndexStorage>(bits: &mut Vob, from: usize, grm: &YaccGrammar<T>, rule: RIdx<T>)
    requires rule { T.number rule.0 < length grm.now.rule_names }
    requires within { (q : ℕ) → math.IsProductionOf grm.now q (T.number rule.0)
        → (from ≤ q) × (q < from + length bits.old) }
    ensures { AreMarked (λ k. math.IsProductionOf grm.now (from + k) (T.number rule.0))
        bits.old bits.new }
{
    for pidx in grm.rule_to_prods(rule) {
        bits.set(usize::from(*pidx) - from, true);
    }
}

/// The productions whose rules the last closing reached.
fn mark_reached<T: IndexStorage>(
    grm: &YaccGrammar<T>,
    closer: &Closer,
) -> Result<Marked, AllocError>
    requires { IsCloserOf grm.now closer.now }
    ensures { IfOk result (λ m. ArePutIn grm.now (rows_of closer.now) m.from m.bits) }
{
    let range = reached_range(grm, closer);
    let len = places_in(range, usize::from(grm.prods_len()));
    let mut bits = Vob::from_elem(grm.allocator(), false, len)?;
    for place in closer.reached.as_slice() {
        mark_from(
            &mut bits,
            range.0,
            grm,
            RIdx(T::from_usize(*place).unwrap()),
        );
    }
    Ok(Marked {
        from: range.0,
        bits,
    })
}

/// The place of a production's bit; the first place where it comes before all, and the end where it comes behind them.
fn place_of(productions: &Marked, production: usize) -> usize
    ensures { IsPlaceAmong productions.now.from (length productions.now.bits) production result }
{
    production
        .saturating_sub(productions.from)
        .min(productions.bits.len())
}

/// Adds the items at dot 0 of those productions from a place on and below another one whose rules have rows.
fn push_from<'a, T: IndexStorage>(
    items: &mut Vec<((PIdx<T>, SIdx<T>), &'a Ctx)>,
    grm: &YaccGrammar<T>,
    rows: &'a [Row],
    productions: &Marked,
    from: usize,
    end: usize,
) -> Result<(), AllocError>
    requires sizes { IsWithin T.MAX grm.now }
    requires rows { AreKeptRows grm.now rows.now }
    requires productions { ArePutIn grm.now (rows_in rows.now)
        productions.now.from productions.now.bits }
    requires order { from ≤ end }
    requires end { end ≤ length grm.now.productions }
    ensures { OnOk result (listed_of T.number items.new.items
        ≡ listed_of T.number items.old.items ++ row_items grm.now (rows_in rows.now) from end) }
{
    let zero = SIdx(T::from_usize(0).unwrap());
    let begin = place_of(productions, from);
    let behind = place_of(productions, end);
    for place in productions.bits.iter_set_bits(begin..behind) {
        let pidx = PIdx(T::from_usize(productions.from + place).unwrap());
        let row = &rows[usize::from(grm.prod_to_rule(pidx))];
        items.push(((pidx, zero), &row.ctx))?;
    }
    Ok(())
}

/// Adds the items of a closure, upwards: the given ones, and what the rows give.
fn push_closed<'a, T: IndexStorage>(
    items: &mut Vec<((PIdx<T>, SIdx<T>), &'a Ctx)>,
    given: &'a [((PIdx<T>, SIdx<T>), Ctx)],
    grm: &YaccGrammar<T>,
    rows: &'a [Row],
    productions: &Marked,
) -> Result<(), AllocError>
    requires fits { Fits grm.now (items_of T.number given.now) }
    requires upwards { AreUpwards (items_of T.number given.now) }
    requires rows { AreKeptRows grm.now rows.now }
    requires productions { ArePutIn grm.now (rows_in rows.now)
        productions.now.from productions.now.bits }
    ensures { OnOk result (listed_of T.number items.new.items
        ≡ listed_of T.number items.old.items
        ++ listed_items grm.now (rows_in rows.now) 0 (items_of T.number given.now)) }
{
    let end = usize::from(grm.prods_len());
    let mut from = 0;
    for (key, ctx) in given {
        // `to_usize` tells that one more fits
        let next = key.0.0.to_usize() + 1;
        push_from(items, grm, rows, productions, from, next)?;
        items.push((*key, ctx))?;
        from = next;
    }
    push_from(items, grm, rows, productions, from, end)?;
    Ok(())
}

/// The items of a closure, upwards: the given ones, and what the rows of the last closing give, where that gives none of
/// the given ones.
pub fn closed_items<'a, T: IndexStorage>(
    given: &'a [((PIdx<T>, SIdx<T>), Ctx)],
    grm: &YaccGrammar<T>,
    closer: &'a Closer,
) -> Result<Vec<((PIdx<T>, SIdx<T>), &'a Ctx)>, AllocError>
    requires fits { Fits grm.now (items_of T.number given.now) }
    requires upwards { AreUpwards (items_of T.number given.now) }
    requires is { IsCloserOf grm.now closer.now }
    requires apart { (q : ℕ) → IsPutIn grm.now (rows_of closer.now) q
        → HasItem (items_of T.number given.now) q 0 → ⊥ }
    ensures rows { IfOk result (λ v. AreWithRows grm.now (rows_of closer.now)
        (items_of T.number given.now) (listed_of T.number v.items)) }
    ensures fits { IfOk result (λ v. Fits grm.now (listed_of T.number v.items)) }
    ensures upwards { IfOk result (λ v. AreUpwards (listed_of T.number v.items)) }
{
    let rows = closer.rows.as_slice();
    let productions = mark_reached(grm, closer)?;
    let len = given.len().saturating_add(reached_len(grm, closer));
    let mut items = Vec::with_capacity(grm.allocator(), len)?;
    push_closed(&mut items, given, grm, rows, &productions)?;
    Ok(items)
}
