//! FIRST sets, by passes over the productions until nothing changes.

ghost use Rattle.std.specs.Prelude.{◌≡◌, ◌≢◌, ℕ, ◌<◌, false, length, replicate, slice_set, IfOk, IsTrue, ◌↔◌};
ghost use Rattle.lrspec.specs.grammars.Grammar as math;
ghost use Rattle.lrspec.specs.grammars.First.{Nullable};
ghost use Rattle.lrbits.specs.Bits.{bit, union};
ghost use Rattle.lrgrammar.specs.Symbols.{symbol_of};
ghost use Rattle.lrgrammar.specs.Firsts.{BeginsRule};
ghost use Rattle.lrgrammar.specs.NullableBits.{HoldsNullable};
ghost use Rattle.lrgrammar.specs.FirstRows.{row, vanishes, FitsRow, IsRuleBelow, Adds, AreRows, HoldBegins, IsProductionDone, AreDone, unset_rows};

use crate::grammar::YaccGrammar;
use crate::idx::{IndexStorage, PIdx, Symbol};
use crate::vob::Vob;
use std::alloc::{AllocError, Global};

/// For each rule one bit a token, set where the token begins a body of the rule.
pub(super) fn first_rows<T: IndexStorage>(
    grm: &YaccGrammar<T>,
    nullable: &Vob,
) -> Result<Vec<Vob>, AllocError>
    requires rules { length nullable.now ≡ length grm.now.rule_names }
    requires nullable { (r : ℕ) → IsTrue (bit nullable.now r) ↔ Nullable grm.now r }
    ensures shape { IfOk result (λ x. AreRows grm.now x.items) }
    ensures begins { IfOk result
        (λ x. (r t : ℕ) → IsTrue (bit (row x.items r) t) ↔ BeginsRule grm.now r t) }
{
    let mut rows = empty_rows(
        grm.allocator(),
        grm.rules_len().0.to_usize(),
        grm.tokens_len().0.to_usize(),
    )?;
    while grow_rows(grm, nullable, rows.as_mut_slice()) {}
    Ok(rows)
}

/// Rows without a set bit.
fn empty_rows(alloc: Global, rules: usize, tokens: usize) -> Result<Vec<Vob>, AllocError>
    ensures { IfOk result (λ x. x.items ≡ replicate rules (replicate tokens false)) }
{
    let mut rows = Vec::with_capacity(alloc, rules)?;
    for _ in 0..rules {
        rows.push(Vob::from_elem(alloc, false, tokens)?)?;
    }
    Ok(rows)
}

/// Sets in each rule's row what begins its bodies by what is known; says whether a bit was set.
///
/// It goes over the productions upwards and then downwards: what a row gains then reaches both the
/// rules that come later and those that came before in one pass, where a chain of rules against
/// the one direction would take a pass for each rule.
fn grow_rows<T: IndexStorage>(grm: &YaccGrammar<T>, nullable: &Vob, rows: &mut [Vob]) -> bool
    requires rules { length nullable.now ≡ length grm.now.rule_names }
    requires nullable { HoldsNullable grm.now nullable.now }
    requires shape { AreRows grm.now rows.old }
    ensures shape { AreRows grm.now rows.new }
    ensures sound { HoldBegins grm.now rows.old → HoldBegins grm.now rows.new }
    ensures grown { IsTrue result → unset_rows rows.new < unset_rows rows.old }
    ensures done { result ≡ false → AreDone grm.now nullable.now rows.new }
{
    let count = grm.prods_len().0.to_usize();
    let mut grown = false;
    for i in 0..2 * count {
        let at = if i < count { i } else { 2 * count - 1 - i };
        grown |= grow_row(grm, nullable, rows, PIdx(T::from_usize(at).unwrap()));
    }
    grown
}

/// Sets in the row of the production's rule what begins its body by what is known; says whether a
/// bit was set.
fn grow_row<T: IndexStorage>(
    grm: &YaccGrammar<T>,
    nullable: &Vob,
    rows: &mut [Vob],
    pidx: PIdx<T>,
) -> bool
    requires rules { length nullable.now ≡ length grm.now.rule_names }
    requires nullable { HoldsNullable grm.now nullable.now }
    requires shape { AreRows grm.now rows.old }
    requires exists { T.number pidx.0 < length grm.now.productions }
    ensures shape { AreRows grm.now rows.new }
    ensures sound { HoldBegins grm.now rows.old → HoldBegins grm.now rows.new }
    ensures grown { IsTrue result → unset_rows rows.new < unset_rows rows.old }
    ensures same { result ≡ false → rows.new ≡ rows.old }
    ensures done { result ≡ false
        → IsProductionDone grm.now nullable.now rows.new (T.number pidx.0) }
{
    let rule = grm.prod_to_rule(pidx).0.to_usize();
    let mut grown = false;
    for symbol in grm.prod(pidx) {
        grown |= add_symbol(rows, rule, *symbol);
        if !is_nullable(nullable, *symbol) {
            return grown;
        }
    }
    grown
}

/// Sets in a row what begins the symbol; says whether a bit was set.
fn add_symbol<T: IndexStorage>(rows: &mut [Vob], to: usize, symbol: Symbol<T>) -> bool
    requires to { to < length rows.old }
    requires fits { FitsRow rows.old to (symbol_of T.number symbol) }
    ensures { Adds rows.old rows.new to (symbol_of T.number symbol) result }
{
    match symbol {
        Symbol::Rule(r) => join(rows, to, r.0.to_usize()),
        Symbol::Token(t) => rows[to].set(t.0.to_usize(), true),
    }
}

/// Whether the symbol is a nullable rule.
fn is_nullable<T: IndexStorage>(nullable: &Vob, symbol: Symbol<T>) -> bool
    requires { IsRuleBelow (length nullable.now) (symbol_of T.number symbol) }
    ensures { result ≡ vanishes nullable.now (symbol_of T.number symbol) }
{
    match symbol {
        Symbol::Rule(r) => nullable.get(r.0.to_usize()),
        Symbol::Token(_) => false,
    }
}

/// Sets in one row what is set in another; says whether a bit was set.
fn join(rows: &mut [Vob], to: usize, from: usize) -> bool
    requires to { to < length rows.old }
    requires from { from < length rows.old }
    requires same { length (row rows.old from) ≡ length (row rows.old to) }
    ensures after { rows.new ≡ slice_set rows.old to (union (row rows.old to) (row rows.old from)) }
    ensures changed { IsTrue result ↔ (rows.new ≢ rows.old) }
{
    if to < from {
        let (low, high) = rows.split_at_mut(from);
        low[to].or(&high[0])
    } else if from < to {
        let (low, high) = rows.split_at_mut(to);
        high[0].or(&low[from])
    } else {
        false
    }
}
