//! Closing a map of items: a work list of productions, each passed on again where what it is given has grown, until nothing
//! grows.

ghost use Rattle.std.specs.Prelude.{◌≡◌, ◌<◌, ◌≤◌, length, replicate, slice_set, IfOk, OnOk, IfNone, IfSome, IsTrue, Some, None, false, ℕ, []};
ghost use Rattle.lrspec.specs.grammars.Grammar as math;
ghost use Rattle.lrspec.specs.grammars.ItemSets.{Fits, FitsAt, IsClosure};
ghost use Rattle.lrbits.specs.Bits.{bit};
ghost use Rattle.lrgrammar.specs.Firsts.{AreFirstsOf};
ghost use Rattle.lrclosing.specs.ItemsOf.{items_of};
ghost use Rattle.lrclosing.specs.Rows.{row_at, AreClosingRows};
ghost use Rattle.lrclosing.specs.Visits.{HasNone, AreMarked, AreMarkedIf, IsToDo, IsVisited, AreShaped, IsUnderway, visits_left};

use crate::items::{Ctx, Items, rule_behind};
use crate::passing::passed_on;
use crate::rows::with_rows;
use lrgrammar::firsts::YaccFirsts;
use lrgrammar::grammar::YaccGrammar;
use lrgrammar::idx::{IndexStorage, PIdx, RIdx, SIdx};
use lrgrammar::vob::Vob;
use std::alloc::AllocError;

/// What a closing puts in. It gives all productions of a rule the same lookaheads at dot 0.
#[derive(Drop)]
struct Closing {
    /// By rule what its productions are given, one bit a token; None for a rule that isn't put in.
    rows: Vec<Option<Vob>>,
    /// One bit a production, set where what the production is given has changed since it was last passed on.
    todo: Vob,
}

/// No rows.
fn no_rows<T: IndexStorage>(grm: &YaccGrammar<T>) -> Result<Vec<Option<Vob>>, AllocError>
    ensures { IfOk result (λ v. v.items ≡ replicate (length grm.now.rule_names) None) }
{
    let rules = usize::from(grm.rules_len());
    let mut rows = Vec::with_capacity(grm.allocator(), rules)?;
    for _ in 0..rules {
        rows.push(None)?;
    }
    Ok(rows)
}

/// Sets the bits of all productions of a rule.
fn mark<T: IndexStorage>(todo: &mut Vob, grm: &YaccGrammar<T>, rule: RIdx<T>)
    requires rule { T.number rule.0 < length grm.now.rule_names }
    requires productions { length todo.old ≡ length grm.now.productions }
    ensures { AreMarked (λ q. math.IsProductionOf grm.now q (T.number rule.0)) todo.old todo.new }
{
    for pidx in grm.rule_to_prods(rule) {
        todo.set(usize::from(*pidx), true);
    }
}

/// The first set place of `from..end`, or else of those below it.
fn next_set(bits: &Vob, from: usize, end: usize) -> Option<usize>
    requires order { from ≤ end }
    requires end { end ≡ length bits.now }
    ensures none { IfNone result (HasNone bits.now) }
    ensures is_set { IfSome result (λ i. IsTrue (bit bits.now i)) }
{
    match bits.iter_set_bits(from..end).next() {
        Some(place) => Some(place),
        None => bits.iter_set_bits(0..from).next(),
    }
}

/// The next production that is to be done, at a place or above it, or else the first one. It is to be done no more.
fn take_next<T: IndexStorage>(todo: &mut Vob, grm: &YaccGrammar<T>, from: usize) -> Option<PIdx<T>>
    requires place { from ≤ length todo.old }
    requires productions { length todo.old ≡ length grm.now.productions }
    ensures none { IfNone result (HasNone todo.old) }
    ensures was { IfSome result (λ p. IsTrue (bit todo.old (T.number p.0))) }
    ensures taken { IfSome result (λ p. todo.new ≡ slice_set todo.old (T.number p.0) false) }
{
    let place = next_set(todo, from, usize::from(grm.prods_len()))?;
    todo.set(place, false);
    Some(PIdx(T::from_usize(place).unwrap()))
}

impl Closing {
    /// Gives a rule a row, and puts its productions among what is to be done where that changed it.
    fn put_row<T: IndexStorage>(
        &mut self,
        grm: &YaccGrammar<T>,
        rule: RIdx<T>,
        row: Vob,
        changed: bool,
    )
        requires rule { T.number rule.0 < length grm.now.rule_names }
        requires rows { length self.old.rows.items ≡ length grm.now.rule_names }
        requires productions { length self.old.todo ≡ length grm.now.productions }
        ensures row { self.new.rows.items
            ≡ slice_set self.old.rows.items (T.number rule.0) (Some row) }
        ensures todo { AreMarkedIf changed grm.now (T.number rule.0) self.old.todo self.new.todo }
    {
        self.rows[usize::from(rule)] = Some(row);
        if changed {
            mark(&mut self.todo, grm, rule);
        }
    }

    /// Passes on what an item looks at to the productions of the rule behind its dot.
    fn visit_item<T: IndexStorage>(
        &mut self,
        grm: &YaccGrammar<T>,
        firsts: &YaccFirsts<T>,
        pidx: PIdx<T>,
        dot: SIdx<T>,
        ctx: &Ctx,
    ) -> Result<(), AllocError>
        requires of { AreFirstsOf grm.now firsts.now }
        requires fits { FitsAt grm.now (T.number pidx.0) (T.number dot.0) ctx.now }
        requires shaped { AreShaped grm.now self.old.rows.items self.old.todo }
        ensures shaped { OnOk result (AreShaped grm.now self.new.rows.items self.new.todo) }
        ensures visited { OnOk result (IsVisited grm.now (T.number pidx.0) (T.number dot.0)
            (Some ctx.now) self.old.rows.items self.new.rows.items
            (IsToDo self.old.todo) (IsToDo self.new.todo)) }
    {
        if let Some(rule) = rule_behind(grm, pidx, dot) {
            let taken = self.rows[usize::from(rule)].take();
            let (row, changed) = passed_on(
                taken,
                grm,
                firsts,
                pidx,
                // `to_usize` tells that one more fits
                dot.0.to_usize() + 1,
                Some(ctx),
            )?;
            self.put_row(grm, rule, row, changed);
        }
        Ok(())
    }

    /// Passes on what the given items look at, where nothing is put in yet.
    fn visit_given<T: IndexStorage>(
        &mut self,
        given: &Items<T>,
        grm: &YaccGrammar<T>,
        firsts: &YaccFirsts<T>,
    ) -> Result<(), AllocError>
        requires fits { Fits grm.now (items_of T.number given.now.entries) }
        requires of { AreFirstsOf grm.now firsts.now }
        requires shaped { AreShaped grm.now self.old.rows.items self.old.todo }
        requires rows { (r : ℕ) → row_at self.old.rows.items r ≡ None }
        requires todo { HasNone self.old.todo }
        ensures shaped { OnOk result (AreShaped grm.now self.new.rows.items self.new.todo) }
        ensures underway { OnOk result (IsUnderway grm.now (items_of T.number given.now.entries)
            self.new.rows.items (IsToDo self.new.todo) []) }
    {
        for (key, ctx) in given {
            self.visit_item(grm, firsts, key.0, key.1, ctx)?;
        }
        Ok(())
    }

    /// Passes on what a production is given to the productions of the rule that comes first in its body.
    fn visit_production<T: IndexStorage>(
        &mut self,
        grm: &YaccGrammar<T>,
        firsts: &YaccFirsts<T>,
        pidx: PIdx<T>,
    ) -> Result<(), AllocError>
        requires of { AreFirstsOf grm.now firsts.now }
        requires production { T.number pidx.0 < length grm.now.productions }
        requires shaped { AreShaped grm.now self.old.rows.items self.old.todo }
        ensures shaped { OnOk result (AreShaped grm.now self.new.rows.items self.new.todo) }
        ensures visited { OnOk result ((r : ℕ)
            → math.IsProductionOf grm.now (T.number pidx.0) r
            → IsVisited grm.now (T.number pidx.0) 0 (row_at self.old.rows.items r)
            self.old.rows.items self.new.rows.items
            (IsToDo self.old.todo) (IsToDo self.new.todo)) }
        ensures left { OnOk result
            (visits_left (math.token_count grm.now) self.new.rows.items self.new.todo
            ≤ visits_left (math.token_count grm.now) self.old.rows.items self.old.todo) }
    {
        if let Some(rule) = rule_behind(grm, pidx, SIdx(T::from_usize(0).unwrap())) {
            let taken = self.rows[usize::from(rule)].take();
            // None where the rule is the production's own, to which it has nothing to pass on.
            let own = self.rows[usize::from(grm.prod_to_rule(pidx))].as_ref();
            let (row, changed) = passed_on(taken, grm, firsts, pidx, 1, own)?;
            self.put_row(grm, rule, row, changed);
        }
        Ok(())
    }
}

/// A closing that has put nothing in.
fn no_closing<T: IndexStorage>(grm: &YaccGrammar<T>) -> Result<Closing, AllocError>
    ensures shaped { IfOk result (λ c. AreShaped grm.now c.rows.items c.todo) }
    ensures rows { IfOk result (λ c. (r : ℕ) → row_at c.rows.items r ≡ None) }
    ensures todo { IfOk result (λ c. HasNone c.todo) }
{
    let rows = no_rows(grm)?;
    let todo = Vob::from_elem(grm.allocator(), false, usize::from(grm.prods_len()))?;
    Ok(Closing { rows, todo })
}

/// What the closure of the given items gives to the productions of each rule, and how many items were visited for it.
pub fn closing_rows<T: IndexStorage>(
    given: &Items<T>,
    grm: &YaccGrammar<T>,
    firsts: &YaccFirsts<T>,
) -> Result<(Vec<Option<Ctx>>, usize), AllocError>
    requires fits { Fits grm.now (items_of T.number given.now.entries) }
    requires of { AreFirstsOf grm.now firsts.now }
    ensures rows { IfOk result (λ x.
        AreClosingRows grm.now (items_of T.number given.now.entries) x.0.items) }
{
    let mut closing = no_closing(grm)?;
    closing.visit_given(given, grm, firsts)?;
    let mut visits = given.len();
    let mut from = 0;
    while let Some(pidx) = take_next(&mut closing.todo, grm, from) {
        closing.visit_production(grm, firsts, pidx)?;
        visits = visits.saturating_add(1);
        // `to_usize` tells that one more fits
        from = pidx.0.to_usize() + 1;
    }
    Ok((closing.rows, visits))
}

/// The closure of the given items, and how many items were visited for it.
pub fn close_counted<T: IndexStorage>(
    given: &Items<T>,
    grm: &YaccGrammar<T>,
    firsts: &YaccFirsts<T>,
) -> Result<(Items<T>, usize), AllocError>
    requires fits { Fits grm.now (items_of T.number given.now.entries) }
    requires of { AreFirstsOf grm.now firsts.now }
    ensures closure { IfOk result (λ x.
        IsClosure grm.now (items_of T.number given.now.entries) (items_of T.number x.0.entries)) }
    ensures fits { IfOk result (λ x. Fits grm.now (items_of T.number x.0.entries)) }
{
    let (rows, visits) = closing_rows(given, grm, firsts)?;
    let closed = with_rows(given, grm, rows.as_slice())?;
    Ok((closed, visits))
}
