//! Whether a chart has all that its row and a grammar demand: so that it is sure that what it lacks is derived nowhere.

ghost use Rattle.std.specs.Prelude.{◌≡◌, ◌≢◌, ℕ, ◌+◌, ◌-◌, ◌<◌, ◌≤◌, length, map, IfOk, IsTrue};
ghost use Rattle.lrbits.specs.Bits.{bit};
ghost use Rattle.lrgrammar.specs.Symbols.{number_of, symbol_of};
ghost use Rattle.lrspec.specs.grammars.Grammar.{Rule};
ghost use Rattle.lrspec.specs.merging.Graph.{edge};
ghost use Rattle.lrtable.specs.RunAnswers.{text_of};
ghost use Rattle.lrcharts.specs.Charts.{HasSpan, Laid, IsClosed, IsClosedBy, HasEdges, HasStates, HasTokens, symbols_of};

use crate::charts::Chart;
use crate::laying::{has_span, lay, may_lead, may_stand};
use lrbits::vob::Vob;
use lrgrammar::grammar::YaccGrammar;
use lrgrammar::idx::{PIdx, RIdx, StIdx, Symbol, TIdx};
use lrtable::StateGraph;
use std::alloc::AllocError;

/// Whether the rule is derived from the place to the end, unless that is before the top of the stack.
fn has_end(chart: &Chart, rule: RIdx<u32>, from: usize, to: usize) -> bool
    ensures { IsTrue result → chart.now.top ≤ to → HasSpan chart.now (Rule rule.0) from to }
{
    if to < chart.top {
        return true;
    }
    has_span(chart, Symbol::Rule(rule), from, to)
}

/// Whether it is so for each of the ends.
fn has_ends(chart: &Chart, rule: RIdx<u32>, from: usize, ends: &Vob) -> bool
    ensures { IsTrue result → (to : ℕ) → IsTrue (bit ends.now to) → chart.now.top ≤ to
        → HasSpan chart.now (Rule rule.0) from to }
{
    for to in ends.iter_set_bits(0..ends.len()) {
        if !has_end(chart, rule, from, to) {
            return false;
        }
    }
    true
}

/// Whether the rule is derived from the place to wherever the body leads from it, unless that is before the top of the stack.
fn is_closed_from(
    chart: &Chart,
    rule: RIdx<u32>,
    body: &[Symbol<u32>],
    from: usize,
    ends: &mut Vob,
    next: &mut Vob,
) -> bool
    requires from { from < chart.now.places }
    requires ends { length ends.old ≡ chart.now.places }
    requires next { length next.old ≡ chart.now.places }
    ensures ends { length ends.new ≡ chart.now.places }
    ensures next { length next.new ≡ chart.now.places }
    ensures closed { IsTrue result → (to : ℕ) → chart.now.top ≤ to
        → Laid chart.now (symbols_of body.now) from to → HasSpan chart.now (Rule rule.0) from to }
{
    if !may_lead(chart, body, from) {
        return true;
    }
    lay(chart, body, from, ends, next);
    has_ends(chart, rule, from, ends)
}

/// Whether the chart is closed by the production: its rule is derived wherever its body is, unless that is before the top of the stack.
fn is_closed_by(
    chart: &Chart,
    grm: &YaccGrammar<u32>,
    production: PIdx<u32>,
    ends: &mut Vob,
    next: &mut Vob,
) -> bool
    requires production { production.0 < length grm.now.productions }
    requires ends { length ends.old ≡ chart.now.places }
    requires next { length next.old ≡ chart.now.places }
    ensures ends { length ends.new ≡ chart.now.places }
    ensures next { length next.new ≡ chart.now.places }
    ensures closed { IsTrue result → IsClosedBy grm.now chart.now production.0 }
{
    let body = grm.prod(production);
    if !may_stand(chart, body) {
        return true;
    }
    let rule = grm.prod_to_rule(production);
    for from in 0..chart.places {
        if !is_closed_from(chart, rule, body, from, ends, next) {
            return false;
        }
    }
    true
}

/// Whether the chart is closed by each production.
pub(crate) fn is_closed(chart: &Chart, grm: &YaccGrammar<u32>) -> Result<bool, AllocError>
    ensures { IfOk result (λ b. IsTrue b → IsClosed grm.now chart.now) }
{
    let mut ends = Vob::from_elem(grm.allocator(), false, chart.places)?;
    let mut next = Vob::from_elem(grm.allocator(), false, chart.places)?;
    for number in 0..grm.prods_len().0 {
        if !is_closed_by(chart, grm, PIdx(number), &mut ends, &mut next) {
            return Ok(false);
        }
    }
    Ok(true)
}

/// Whether each symbol on which an edge leads from the state to the other is derived from the place to the next one.
fn has_edges(
    chart: &Chart,
    graph: &StateGraph<u32>,
    from: StIdx<u32>,
    to: StIdx<u32>,
    place: usize,
) -> bool
    requires { place < chart.now.places }
    ensures { IsTrue result → HasEdges graph.now chart.now from.0 to.0 place }
{
    if from.0 >= graph.all_states_len().0 {
        return false;
    }
    for (symbol, target) in graph.edges(from) {
        if *target != to {
            continue;
        }
        if !has_span(chart, *symbol, place, place + 1) {
            return false;
        }
    }
    true
}

/// Whether the chart has what lies between the states of the stack.
pub(crate) fn has_states(chart: &Chart, graph: &StateGraph<u32>, stack: &[StIdx<u32>]) -> bool
    ensures { IsTrue result → HasStates graph.now chart.now (map (λ s. s.0) stack.now) }
{
    if stack.len() > chart.places {
        return false;
    }
    for place in 1..stack.len() {
        if !has_edges(chart, graph, stack[place - 1], stack[place], place - 1) {
            return false;
        }
    }
    true
}

/// Whether the chart has each token from the place on.
pub(crate) fn has_tokens(chart: &Chart, tokens: &[TIdx<u32>], from: usize) -> bool
    requires { from < chart.now.places }
    ensures { IsTrue result → HasTokens chart.now from (text_of number_of tokens.now) }
{
    let mut place = from;
    for token in tokens {
        if place >= chart.places || !has_span(chart, Symbol::Token(*token), place, place + 1) {
            return false;
        }
        place += 1;
    }
    true
}
