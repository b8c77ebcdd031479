//! Closings by rows that stay from one closing to the next: for each rule the lookaheads of its productions. A work list has
//! the rules whose row has grown since it was passed on.

ghost use Rattle.std.specs.Prelude.{◌≡◌, ◌≢◌, ℕ, ◌<◌, ◌≤◌, ◌↔◌, ◌∷◌, ◌++◌, IsTrue, false, true, if◌then◌else◌, length, IfOk, MatchOption, slice_get, slice_set, replicate, None, Some, [], vec_capacity};
ghost use Rattle.std.specs.List.{All};
ghost use Rattle.lrspec.specs.grammars.Grammar as math;
ghost use Rattle.lrspec.specs.grammars.ItemSets.{IsBefore, Fits, FitsAt, AreUpwards};
ghost use Rattle.lrbits.specs.Bits.{bit, union};
ghost use Rattle.lrgrammar.specs.Firsts.{AreFirstsOf};
ghost use Rattle.lrclosing.specs.ItemsOf.{items_of};
ghost use Rattle.lrclosing.specs.Rows.{ArePassedOn, AreClosingRows};
ghost use Rattle.lrclosing.specs.Visits.{IsRuleToDo, IsVisited, IsUnderway};
ghost use Rattle.lrclosing.specs.Leads.{AreLeadsOf, IsLeadOf, AreLeadsByRule, row_in, reached_of, joined_row, IsRow, AreKeptRows, AreClearRows, IsLeadFor, IsLed};
ghost use Rattle.lrclosing.specs.declared.closer.Row.{Row};
ghost use Rattle.lrclosing.specs.Closer.{AreReached, AreWithin, NoneToDoFrom, IsPlaceToDo, IsWhole, IsClosing, IsNearer, IsCloserOf, AreVisited, rows_of};

use crate::items::{Ctx, rule_behind};
use crate::passing::put_firsts;
use lrgrammar::firsts::YaccFirsts;
use lrgrammar::grammar::YaccGrammar;
use lrgrammar::idx::{IndexStorage, PIdx, RIdx, SIdx, Symbol};
use lrgrammar::vob::Vob;
use std::alloc::AllocError;

/// What a production passes on to those of the rule that comes first in its body.
#[derive(Drop)]
struct Lead {
    /// That rule.
    rule: usize,
    /// The tokens that begin the rest of the body.
    begins: Vob,
    /// Whether the rest of the body is nullable: then the production's own lookaheads are passed on too.
    inherits: bool,
}

/// The lookaheads that a closure gives to the productions of a rule at dot 0.
#[derive(Drop)]
pub struct Row {
    /// One bit a token; none is set where the rule isn't reached.
    pub(crate) ctx: Ctx,
    /// Whether the closure has the rule's productions at dot 0.
    pub(crate) is_reached: bool,
}

/// Closes sets of items of one grammar, one after another, and keeps the rows of the last closing.
#[derive(Drop)]
pub struct Closer {
    /// By rule, what its productions pass on.
    leads: Vec<Vec<Lead>>,
    /// By rule.
    pub(crate) rows: Vec<Row>,
    /// The rules whose rows are reached, in the order in which they were reached first. It has room for all rules.
    pub(crate) reached: Vec<usize>,
    /// One bit a rule, set where its row has changed since it was last passed on.
    todo: Vob,
}

/// No tokens, one bit each. The error says that memory was refused.
fn no_tokens<T: IndexStorage>(grm: &YaccGrammar<T>) -> Result<Ctx, AllocError>
    ensures { IfOk result (λ v. v ≡ replicate (math.token_count grm.now) false) }
{
    Vob::from_elem(grm.allocator(), false, usize::from(grm.tokens_len()))
}

/// What the production passes on, which begins with the rule. The error says that memory was refused.
fn lead_of<T: IndexStorage>(
    grm: &YaccGrammar<T>,
    firsts: &YaccFirsts<T>,
    pidx: PIdx<T>,
    rule: RIdx<T>,
) -> Result<Lead, AllocError>
    requires of { AreFirstsOf grm.now firsts.now }
    requires first { IsBefore grm.now (T.number pidx.0) 0 (math.Rule (T.number rule.0)) }
    requires production { T.number pidx.0 < length grm.now.productions }
    ensures { IfOk result (λ l. (a : ℕ) → math.IsProductionOf grm.now (T.number pidx.0) a
        → IsLeadOf grm.now a (T.number pidx.0) l) }
{
    let mut begins = no_tokens(grm)?;
    let begun = put_firsts(&mut begins, grm, firsts, pidx, 1);
    Ok(Lead {
        rule: usize::from(rule),
        begins,
        inherits: begun.is_nullable,
    })
}

/// What the productions of the rule pass on. The error says that memory was refused.
fn leads_of<T: IndexStorage>(
    grm: &YaccGrammar<T>,
    firsts: &YaccFirsts<T>,
    rule: RIdx<T>,
) -> Result<Vec<Lead>, AllocError>
    requires of { AreFirstsOf grm.now firsts.now }
    requires rule { T.number rule.0 < length grm.now.rule_names }
    ensures { IfOk result (λ v. AreLeadsOf grm.now (T.number rule.0) v.items) }
{
    let mut leads = Vec::new(grm.allocator());
    let zero = SIdx(T::from_usize(0).unwrap());
    for pidx in grm.rule_to_prods(rule) {
        if let Some(first) = rule_behind(grm, *pidx, zero) {
            leads.push(lead_of(grm, firsts, *pidx, first)?)?;
        }
    }
    Ok(leads)
}

/// Sets in the row of one rule what is set in that of another, and says whether that changed it.
fn join_row(rows: &mut [Row], to: usize, from: usize) -> bool
    requires apart { to ≢ from }
    requires to { to < length rows.old }
    requires from { from < length rows.old }
    requires bits { (v w : Row) → slice_get rows.old to ≡ Some v → slice_get rows.old from ≡ Some w
        → length w.ctx ≡ length v.ctx }
    ensures joined { (v w : Row) → slice_get rows.old to ≡ Some v → slice_get rows.old from ≡ Some w
        → rows.new ≡ slice_set rows.old to (joined_row v w) }
    ensures changed { (v w : Row) → slice_get rows.old to ≡ Some v
        → slice_get rows.old from ≡ Some w
        → (IsTrue result ↔ (union v.ctx w.ctx ≢ v.ctx)) }
{
    if to < from {
        let (below, above) = rows.split_at_mut(from);
        below[to].ctx.or(&above[0].ctx)
    } else {
        let (below, above) = rows.split_at_mut(to);
        above[0].ctx.or(&below[from].ctx)
    }
}

/// By rule, what its productions pass on. The error says that memory was refused.
fn leads_by_rule<T: IndexStorage>(
    grm: &YaccGrammar<T>,
    firsts: &YaccFirsts<T>,
) -> Result<Vec<Vec<Lead>>, AllocError>
    requires of { AreFirstsOf grm.now firsts.now }
    ensures len { IfOk result (λ v. length v.items ≡ length grm.now.rule_names) }
    ensures leads { IfOk result (λ v. AreLeadsByRule grm.now v.items) }
{
    let rules = usize::from(grm.rules_len());
    let mut leads = Vec::with_capacity(grm.allocator(), rules)?;
    for place in 0..rules {
        leads.push(leads_of(grm, firsts, RIdx(T::from_usize(place).unwrap()))?)?;
    }
    Ok(leads)
}

/// A row for each rule, none of which is reached. The error says that memory was refused.
fn empty_rows<T: IndexStorage>(grm: &YaccGrammar<T>) -> Result<Vec<Row>, AllocError>
    ensures { IfOk result (λ v. AreClearRows grm.now v.items) }
{
    let rules = usize::from(grm.rules_len());
    let mut rows = Vec::with_capacity(grm.allocator(), rules)?;
    for _ in 0..rules {
        rows.push(Row {
            ctx: no_tokens(grm)?,
            is_reached: false,
        })?;
    }
    Ok(rows)
}

/// Takes from a row what an earlier closing gave it.
fn clear_row(row: &mut Row)
    ensures row { (g : math.Grammar) → IsRow g row.old → IsRow g row.new }
    ensures clear { row.new.is_reached ≡ false }
{
    row.ctx.set_all(false);
    row.is_reached = false;
}

/// Takes from the rows that are reached what an earlier closing gave them, so that none is.
fn clear_rows(rows: &mut [Row], reached: &mut Vec<usize>)
    requires { AreReached (reached_of rows.old) reached.old }
    ensures clear { (g : math.Grammar) → AreKeptRows g rows.old → AreClearRows g rows.new }
    ensures reached { AreReached (reached_of rows.new) reached.new }
{
    for place in reached.as_slice() {
        clear_row(&mut rows[*place]);
    }
    reached.clear();
}

/// Puts a rule behind those that are reached, unless its row was reached already.
fn reach(reached: &mut Vec<usize>, place: usize, was_reached: bool)
    requires { was_reached ≡ false → length reached.old.items < vec_capacity reached.old }
    ensures items { reached.new.items
        ≡ if was_reached then reached.old.items else reached.old.items ++ place ∷ [] }
    ensures capacity { vec_capacity reached.new ≡ vec_capacity reached.old }
{
    if !was_reached {
        reached.push_reserved(place);
    }
}

/// Sets in the row of the rule before place `from` what an item passes on to it.
fn put_ahead<T: IndexStorage>(
    row: &mut Row,
    grm: &YaccGrammar<T>,
    firsts: &YaccFirsts<T>,
    pidx: PIdx<T>,
    from: usize,
    ctx: &Ctx,
)
    requires of { AreFirstsOf grm.now firsts.now }
    requires production { T.number pidx.0 < length grm.now.productions }
    requires place { from ≤ length (math.body_of grm.now (T.number pidx.0)) }
    requires row { IsRow grm.now row.old }
    requires bits { length ctx.now ≡ math.token_count grm.now }
    ensures passed { ArePassedOn grm.now (math.rest grm.now (T.number pidx.0) from) (Some ctx.now)
        (row_in row.old) row.new.ctx }
    ensures reached { row.new.is_reached ≡ true }
{
    row.is_reached = true;
    let begun = put_firsts(&mut row.ctx, grm, firsts, pidx, from);
    if begun.is_nullable {
        row.ctx.or(ctx);
    }
}

/// Sets in the row of the rule of a lead what the lead passes on to it from that of another rule, and says whether that
/// changed it.
fn put_lead(rows: &mut [Row], lead: &Lead, from: usize) -> bool
    requires lead { IsLeadFor rows.old lead.now }
    requires from { from < length rows.old }
    ensures { IsLed lead.now from result rows.old rows.new }
{
    let row = &mut rows[lead.rule];
    let was = row.is_reached;
    row.is_reached = true;
    let changed = row.ctx.or(&lead.begins) | !was;
    if lead.inherits && lead.rule != from {
        join_row(rows, lead.rule, from) | changed
    } else {
        changed
    }
}

/// Passes on what all productions of a rule look at, by their leads. It is given no grammar: it holds for each whose leads
/// and rows these are.
fn visit_leads(
    rows: &mut [Row],
    reached: &mut Vec<usize>,
    todo: &mut Vob,
    leads: &[Lead],
    from: usize,
)
    requires leads { All (IsLeadFor rows.old) leads.now }
    requires from { from < length rows.old }
    requires todo { length todo.old ≡ length rows.old }
    requires reached { AreReached (reached_of rows.old) reached.old }
    requires within { AreWithin todo.old (reached_of rows.old) }
    ensures visited { (g : math.Grammar) → AreLeadsOf g from leads.now → AreKeptRows g rows.old
        → AreVisited g from (IsRuleToDo g todo.new) rows.old rows.new todo.old todo.new }
    ensures reached { AreReached (reached_of rows.new) reached.new }
    ensures within { AreWithin todo.new (reached_of rows.new) }
{
    for lead in leads {
        let was_reached = rows[lead.rule].is_reached;
        if put_lead(rows, lead, from) {
            reach(reached, lead.rule, was_reached);
            todo.set(lead.rule, true);
        }
    }
}

/// The first place in the list, from a place on, of a rule that is to be done.
fn first_to_do(reached: &[usize], todo: &Vob, from: usize) -> Option<usize>
    requires { All (λ a. a < length todo.now) reached.now }
    ensures { MatchOption result (NoneToDoFrom reached.now todo.now from)
        (IsPlaceToDo reached.now todo.now) }
{
    for k in from..reached.len() {
        if todo.get(reached[k]) {
            return Some(k);
        }
    }
    None
}

/// The first place in the list, from a place on, of a rule that is to be done, or else the first of all.
fn next_to_do(reached: &[usize], todo: &Vob, from: usize) -> Option<usize>
    requires { All (λ a. a < length todo.now) reached.now }
    ensures { MatchOption result (NoneToDoFrom reached.now todo.now 0)
        (IsPlaceToDo reached.now todo.now) }
{
    if let Some(k) = first_to_do(reached, todo, from) {
        return Some(k);
    }
    first_to_do(reached, todo, 0)
}

impl Closer {
    /// A closer for the grammar. The error says that memory was refused.
    pub fn new<T: IndexStorage>(
        grm: &YaccGrammar<T>,
        firsts: &YaccFirsts<T>,
    ) -> Result<Closer, AllocError>
        requires of { AreFirstsOf grm.now firsts.now }
        ensures { IfOk result (IsCloserOf grm.now) }
    {
        let leads = leads_by_rule(grm, firsts)?;
        let rows = empty_rows(grm)?;
        let rules = usize::from(grm.rules_len());
        let reached = Vec::with_capacity(grm.allocator(), rules)?;
        let todo = Vob::from_elem(grm.allocator(), false, rules)?;
        Ok(Closer {
            leads,
            rows,
            reached,
            todo,
        })
    }

    /// Passes on what an item looks at to the productions of the rule behind its dot.
    fn visit_item<T: IndexStorage>(
        &mut self,
        grm: &YaccGrammar<T>,
        firsts: &YaccFirsts<T>,
        pidx: PIdx<T>,
        dot: SIdx<T>,
        ctx: &Ctx,
    )
        requires of { AreFirstsOf grm.now firsts.now }
        requires fits { FitsAt grm.now (T.number pidx.0) (T.number dot.0) ctx.now }
        requires is { IsClosing grm.now self.old }
        ensures is { IsClosing grm.now self.new }
        ensures visited { IsVisited grm.now (T.number pidx.0) (T.number dot.0) (Some ctx.now)
            (rows_of self.old) (rows_of self.new)
            (IsRuleToDo grm.now self.old.todo) (IsRuleToDo grm.now self.new.todo) }
    {
        if let Some(rule) = rule_behind(grm, pidx, dot) {
            let place = usize::from(rule);
            let was_reached = self.rows[place].is_reached;
            put_ahead(
                &mut self.rows[place],
                grm,
                firsts,
                pidx,
                // `to_usize` tells that one more fits
                dot.0.to_usize() + 1,
                ctx,
            );
            reach(&mut self.reached, place, was_reached);
            self.todo.set(place, true);
        }
    }

    /// Passes on what the given items look at.
    fn visit_given<T: IndexStorage>(
        &mut self,
        grm: &YaccGrammar<T>,
        firsts: &YaccFirsts<T>,
        given: &[((PIdx<T>, SIdx<T>), Ctx)],
    )
        requires of { AreFirstsOf grm.now firsts.now }
        requires fits { Fits grm.now (items_of T.number given.now) }
        requires upwards { AreUpwards (items_of T.number given.now) }
        requires is { IsCloserOf grm.now self.old }
        requires clear { AreClearRows grm.now self.old.rows.items }
        ensures is { IsClosing grm.now self.new }
        ensures underway { IsUnderway grm.now (items_of T.number given.now)
            (rows_of self.new) (IsRuleToDo grm.now self.new.todo) [] }
    {
        for (key, ctx) in given {
            self.visit_item(grm, firsts, key.0, key.1, ctx);
        }
    }

    /// Passes on what all productions of a rule look at, which were to be done and are so no more.
    fn visit_rule(&mut self, place: usize)
        requires whole { IsWhole self.old }
        requires todo { IsTrue (bit self.old.todo place) }
        ensures { (g : math.Grammar) → IsClosing g self.old → IsNearer g self.old self.new }
    {
        self.todo.set(place, false);
        visit_leads(
            self.rows.as_mut_slice(),
            &mut self.reached,
            &mut self.todo,
            self.leads[place].as_slice(),
            place,
        );
    }

    /// Closes the given items: the rows are then those of their closure.
    pub fn close<T: IndexStorage>(
        &mut self,
        grm: &YaccGrammar<T>,
        firsts: &YaccFirsts<T>,
        given: &[((PIdx<T>, SIdx<T>), Ctx)],
    )
        requires of { AreFirstsOf grm.now firsts.now }
        requires fits { Fits grm.now (items_of T.number given.now) }
        requires upwards { AreUpwards (items_of T.number given.now) }
        requires is { IsCloserOf grm.now self.old }
        ensures is { IsCloserOf grm.now self.new }
        ensures closes { AreClosingRows grm.now (items_of T.number given.now) (rows_of self.new) }
    {
        clear_rows(self.rows.as_mut_slice(), &mut self.reached);
        self.visit_given(grm, firsts, given);
        let mut from = 0;
        while let Some(k) = next_to_do(self.reached.as_slice(), &self.todo, from) {
            let place = self.reached[k];
            self.visit_rule(place);
            from = k + 1;
        }
    }
}
