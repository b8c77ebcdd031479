//! To which places symbols lead one behind another, by the spans of a chart.

ghost use Rattle.std.specs.Prelude.{◌≡◌, ℕ, ◌+◌, ◌*◌, ◌<◌, ◌≤◌, [], length, false, IsTrue, IfNone, IfSome, ◌↔◌};
ghost use Rattle.lrbits.specs.Bits.{bit};
ghost use Rattle.lrgrammar.specs.Symbols.{number_of, symbol_of};
ghost use Rattle.lrspec.specs.grammars.Grammar.{Rule};
ghost use Rattle.lrcharts.specs.Charts.{row_of, HasSpan, Laid, KeepsBits, symbols_of};

use crate::charts::{Chart, MOST_PLACES};
use lrbits::vob::Vob;
use lrgrammar::idx::Symbol;
use std::mem::swap;

/// The bits of the spans of a symbol, where it has some.
fn row(chart: &Chart, symbol: Symbol<u32>) -> Option<&Vob>
    ensures none { IfNone result (row_of chart.now (symbol_of number_of symbol) ≡ []) }
    ensures some { IfSome result (λ v. v.now ≡ row_of chart.now (symbol_of number_of symbol)) }
{
    match symbol {
        Symbol::Rule(rule) => chart.rules.get(usize::from(rule)),
        Symbol::Token(token) => chart.tokens.get(usize::from(token)),
    }
}

/// Whether the symbol is derived between the places.
pub(crate) fn has_span(chart: &Chart, symbol: Symbol<u32>, from: usize, to: usize) -> bool
    ensures { IsTrue result ↔ HasSpan chart.now (symbol_of number_of symbol) from to }
{
    let Some(row) = row(chart, symbol) else {
        return false;
    };
    if from > to || to >= chart.places {
        return false;
    }
    let at = from * MOST_PLACES + to;
    at < row.len() && row.get(at)
}

/// Whether the symbol is derived from somewhere.
pub(crate) fn is_derived(chart: &Chart, symbol: Symbol<u32>) -> bool
    ensures { result ≡ false → (from to : ℕ)
        → ¬ (HasSpan chart.now (symbol_of number_of symbol) from to) }
{
    match row(chart, symbol) {
        Some(row) => row.len() > 0,
        None => false,
    }
}

/// Which bits of a row say to where its symbol is derived from the place.
fn bits_from(chart: &Chart, row: &Vob, from: usize) -> (usize, usize)
    requires { from < chart.now.places }
    ensures order { result.0 ≤ result.1 }
    ensures within { result.1 ≤ length row.now }
    ensures start { result.0 < result.1 → result.0 ≡ from * 128 }
    ensures end { result.1 ≤ from * 128 + chart.now.places }
    ensures all { (to : ℕ) → to < chart.now.places → IsTrue (bit row.now (from * 128 + to))
        → (result.0 ≤ from * 128 + to) × (from * 128 + to < result.1) }
{
    let start = from * MOST_PLACES;
    let end = row.len().min(start + chart.places);
    (start.min(end), end)
}

/// Whether the symbol is derived from the place.
fn is_derived_from(chart: &Chart, symbol: Symbol<u32>, from: usize) -> bool
    ensures { result ≡ false → (to : ℕ)
        → ¬ (HasSpan chart.now (symbol_of number_of symbol) from to) }
{
    let Some(row) = row(chart, symbol) else {
        return false;
    };
    if from >= chart.places {
        return false;
    }
    let (start, end) = bits_from(chart, row, from);
    row.iter_set_bits(start..end).next().is_some()
}

/// Sets the bits of the places to which the symbol is derived from the place.
fn add_ends(chart: &Chart, symbol: Symbol<u32>, from: usize, ends: &mut Vob)
    requires places { length ends.old ≡ chart.now.places }
    ensures places { length ends.new ≡ chart.now.places }
    ensures kept { KeepsBits ends.old ends.new }
    ensures added { (to : ℕ) → HasSpan chart.now (symbol_of number_of symbol) from to
        → IsTrue (bit ends.new to) }
{
    let Some(row) = row(chart, symbol) else {
        return;
    };
    if from >= chart.places {
        return;
    }
    let (start, end) = bits_from(chart, row, from);
    for at in row.iter_set_bits(start..end) {
        ends.set(at - start, true);
    }
}

/// Makes the bits those of the places to which the symbol is derived from one of the ends.
fn follow(chart: &Chart, symbol: Symbol<u32>, ends: &Vob, next: &mut Vob)
    requires ends { length ends.now ≡ chart.now.places }
    requires next { length next.old ≡ chart.now.places }
    ensures places { length next.new ≡ chart.now.places }
    ensures added { (from to : ℕ) → IsTrue (bit ends.now from)
        → HasSpan chart.now (symbol_of number_of symbol) from to → IsTrue (bit next.new to) }
{
    next.set_all(false);
    for from in ends.iter_set_bits(0..ends.len()) {
        add_ends(chart, symbol, from, next);
    }
}

/// Makes the bits of the ends those of the places to which the symbols lead from the place, one behind another.
pub(crate) fn lay(
    chart: &Chart,
    symbols: &[Symbol<u32>],
    from: usize,
    ends: &mut Vob,
    next: &mut Vob,
)
    requires from { from < chart.now.places }
    requires ends { length ends.old ≡ chart.now.places }
    requires next { length next.old ≡ chart.now.places }
    ensures ends { length ends.new ≡ chart.now.places }
    ensures next { length next.new ≡ chart.now.places }
    ensures laid { (to : ℕ) → Laid chart.now (symbols_of symbols.now) from to
        → IsTrue (bit ends.new to) }
{
    ends.set_all(false);
    ends.set(from, true);
    for symbol in symbols {
        follow(chart, *symbol, ends, next);
        swap(ends, next);
    }
}

/// Whether symbols may lead somewhere from the place: the first one is derived from it.
pub(crate) fn may_lead(chart: &Chart, symbols: &[Symbol<u32>], from: usize) -> bool
    ensures { result ≡ false → (to : ℕ) → ¬ (Laid chart.now (symbols_of symbols.now) from to) }
{
    match symbols.first() {
        Some(first) => is_derived_from(chart, *first, from),
        None => true,
    }
}

/// Whether symbols may lead from some place to another: the first one is derived somewhere.
pub(crate) fn may_stand(chart: &Chart, symbols: &[Symbol<u32>]) -> bool
    ensures { result ≡ false → (from to : ℕ)
        → ¬ (Laid chart.now (symbols_of symbols.now) from to) }
{
    match symbols.first() {
        Some(first) => is_derived(chart, *first),
        None => true,
    }
}
