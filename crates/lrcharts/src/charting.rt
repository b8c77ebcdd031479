//! The chart of a row: its leaves lie between the states of a stack, and behind them are tokens. It is filled from the end of the row to
//! its beginning: from each place with the productions that a symbol may begin which was just derived from it, its left corner.
//!
//! Nothing is proved of what is filled in: whoever uses the chart makes sure that it is closed.

ghost use Rattle.std.specs.Prelude.{◌≡◌, ◌<◌, length, IfOk, IfSome, OnOk};

use crate::charts::{Chart, MOST_PLACES};
use crate::laying::lay;
use crate::machine::Machine;
use lrbits::vob::Vob;
use lrgrammar::grammar::YaccGrammar;
use lrgrammar::idx::{PIdx, RIdx, StIdx, Symbol, TIdx};
use lrtable::StateGraph;
use std::alloc::{AllocError, Global};

/// How many symbols at the most are looked at for a place: each was derived from it to somewhere to where it wasn't before.
const MOST_TURNS: usize = 20_000;

/// For how many rules and places together a chart is made at the most: for more it takes more than 8 MB.
const MOST_ROWS: usize = 500_000;

/// Which productions a symbol may begin.
#[derive(Drop)]
struct Corners {
    /// Of each rule whether it derives nothing.
    nullable: Vec<bool>,
    /// For each token, and for each rule, the productions in whose body nothing but what derives nothing stands before it.
    tokens: Vec<Vec<PIdx<u32>>>,
    rules: Vec<Vec<PIdx<u32>>>,
}

/// Whether the symbol is a rule that derives nothing.
fn is_nullable(nullable: &[bool], symbol: Symbol<u32>) -> bool {
    match symbol {
        Symbol::Rule(rule) => match nullable.get(usize::from(rule)) {
            Some(is) => *is,
            None => false,
        },
        Symbol::Token(_) => false,
    }
}

/// Of each rule whether it derives nothing.
fn nullable_rules(grm: &YaccGrammar<u32>) -> Result<Vec<bool>, AllocError> {
    let firsts = grm.firsts()?;
    let mut nullable = Vec::new(grm.allocator());
    for number in 0..grm.rules_len().0 {
        nullable.push(firsts.is_epsilon_set(RIdx(number)))?;
    }
    Ok(nullable)
}

/// Adds the production to one of the lists.
fn push_at(
    lists: &mut Vec<Vec<PIdx<u32>>>,
    number: usize,
    production: PIdx<u32>,
) -> Result<(), AllocError> {
    if let Some(list) = lists.get_mut(number) {
        list.push(production)?;
    }
    Ok(())
}

/// Adds the production to those that its symbols may begin.
fn add_corners(
    corners: &mut Corners,
    production: PIdx<u32>,
    body: &[Symbol<u32>],
) -> Result<(), AllocError> {
    for symbol in body {
        match *symbol {
            Symbol::Rule(rule) => push_at(&mut corners.rules, usize::from(rule), production)?,
            Symbol::Token(token) => push_at(&mut corners.tokens, usize::from(token), production)?,
        }
        if !is_nullable(corners.nullable.as_slice(), *symbol) {
            return Ok(());
        }
    }
    Ok(())
}

/// So many empty lists.
fn empty_lists(alloc: Global, count: usize) -> Result<Vec<Vec<PIdx<u32>>>, AllocError> {
    let mut lists = Vec::with_capacity(alloc, count)?;
    for _ in 0..count {
        lists.push(Vec::new(alloc))?;
    }
    Ok(lists)
}

/// Which productions each symbol may begin.
fn corners_of(grm: &YaccGrammar<u32>) -> Result<Corners, AllocError> {
    let alloc = grm.allocator();
    let mut corners = Corners {
        nullable: nullable_rules(grm)?,
        tokens: empty_lists(alloc, usize::from(grm.tokens_len()))?,
        rules: empty_lists(alloc, usize::from(grm.rules_len()))?,
    };
    for number in 0..grm.prods_len().0 {
        add_corners(&mut corners, PIdx(number), grm.prod(PIdx(number)))?;
    }
    Ok(corners)
}

/// The productions that the symbol may begin.
fn begun_by(corners: &Corners, symbol: Symbol<u32>) -> &[PIdx<u32>] {
    let list = match symbol {
        Symbol::Rule(rule) => corners.rules.get(usize::from(rule)),
        Symbol::Token(token) => corners.tokens.get(usize::from(token)),
    };
    match list {
        Some(list) => list.as_slice(),
        None => &[],
    }
}

/// So many rows without bits.
fn empty_rows(alloc: Global, count: usize) -> Result<Vec<Vob>, AllocError> {
    let mut rows = Vec::with_capacity(alloc, count)?;
    for _ in 0..count {
        rows.push(Vob::from_elem(alloc, false, 0)?)?;
    }
    Ok(rows)
}

/// Sets a bit of one of the rows, of which each may have so many; answers whether it was not set.
fn set_in(rows: &mut Vec<Vob>, number: usize, bits: usize, at: usize) -> Result<bool, AllocError> {
    let alloc = *rows.allocator();
    let Some(row) = rows.get_mut(number) else {
        return Ok(false);
    };
    if row.len() == 0 {
        *row = Vob::from_elem(alloc, false, bits)?;
    }
    Ok(at < row.len() && row.set(at, true))
}

/// Adds a span of the symbol; answers whether it is new.
fn add_span(
    chart: &mut Chart,
    symbol: Symbol<u32>,
    from: usize,
    to: usize,
) -> Result<bool, AllocError>
    ensures { chart.new.places ≡ chart.old.places }
{
    let places = chart.places;
    if from >= places || to >= places {
        return Ok(false);
    }
    let (bits, at) = (places * MOST_PLACES, from * MOST_PLACES + to);
    match symbol {
        Symbol::Rule(rule) => set_in(&mut chart.rules, usize::from(rule), bits, at),
        Symbol::Token(token) => set_in(&mut chart.tokens, usize::from(token), bits, at),
    }
}

/// Adds the spans of what derives nothing at the place.
fn add_nothing(
    chart: &mut Chart,
    grm: &YaccGrammar<u32>,
    corners: &Corners,
    place: usize,
) -> Result<(), AllocError>
    ensures { chart.new.places ≡ chart.old.places }
{
    for number in 0..grm.rules_len().0 {
        let rule = Symbol::Rule(RIdx(number));
        if is_nullable(corners.nullable.as_slice(), rule) {
            add_span(chart, rule, place, place)?;
        }
    }
    Ok(())
}

/// The symbols on which an edge leads from the state to the other.
fn symbols_between(
    alloc: Global,
    graph: &StateGraph<u32>,
    from: StIdx<u32>,
    to: StIdx<u32>,
) -> Result<Vec<Symbol<u32>>, AllocError> {
    let mut symbols = Vec::new(alloc);
    if from.0 >= graph.all_states_len().0 {
        return Ok(symbols);
    }
    for (symbol, target) in graph.edges(from) {
        if *target == to {
            symbols.push(*symbol)?;
        }
    }
    Ok(symbols)
}

/// The leaves between the place and the next one.
fn leaves_at(
    alloc: Global,
    graph: &StateGraph<u32>,
    stack: &[StIdx<u32>],
    left: &[TIdx<u32>],
    place: usize,
) -> Result<Vec<Symbol<u32>>, AllocError> {
    let states = stack.get(place).zip(stack.get(place.saturating_add(1)));
    if let Some((from, to)) = states {
        return symbols_between(alloc, graph, *from, *to);
    }
    let mut symbols = Vec::new(alloc);
    if let Some(token) = left.get(place.saturating_add(1).saturating_sub(stack.len())) {
        symbols.push(Symbol::Token(*token))?;
    }
    Ok(symbols)
}

/// Adds the spans of the leaves between the place and the next one.
fn add_leaves(chart: &mut Chart, leaves: &[Symbol<u32>], place: usize) -> Result<(), AllocError>
    ensures { chart.new.places ≡ chart.old.places }
{
    for symbol in leaves {
        add_span(chart, *symbol, place, place.saturating_add(1))?;
    }
    Ok(())
}

/// Adds the spans of the rule from the place to the ends but for those before the top of the stack; answers whether one is new.
fn add_ends_of(
    chart: &mut Chart,
    rule: RIdx<u32>,
    from: usize,
    ends: &Vob,
) -> Result<bool, AllocError>
    ensures { chart.new.places ≡ chart.old.places }
{
    let mut is_new = false;
    for to in ends.iter_set_bits(0..ends.len()) {
        if to >= chart.top && add_span(chart, Symbol::Rule(rule), from, to)? {
            is_new = true;
        }
    }
    Ok(is_new)
}

/// Whether the rule is one of the symbols.
fn has_rule(symbols: &[Symbol<u32>], rule: RIdx<u32>) -> bool {
    for symbol in symbols {
        if *symbol == Symbol::Rule(rule) {
            return true;
        }
    }
    false
}

/// Adds the spans that the productions bring from the place, and the rules that have new ones to the symbols that wait.
fn widen(
    chart: &mut Chart,
    waiting: &mut Vec<Symbol<u32>>,
    grm: &YaccGrammar<u32>,
    productions: &[PIdx<u32>],
    from: usize,
    ends: &mut Vob,
    next: &mut Vob,
) -> Result<(), AllocError>
    requires from { from < chart.old.places }
    requires ends { length ends.old ≡ chart.old.places }
    requires next { length next.old ≡ chart.old.places }
    ensures chart { chart.new.places ≡ chart.old.places }
    ensures ends { length ends.new ≡ chart.old.places }
    ensures next { length next.new ≡ chart.old.places }
{
    for production in productions {
        if production.0 >= grm.prods_len().0 {
            continue;
        }
        lay(chart, grm.prod(*production), from, ends, next);
        let rule = grm.prod_to_rule(*production);
        let is_new = add_ends_of(chart, rule, from, ends)?;
        if is_new && !has_rule(waiting.as_slice(), rule) {
            waiting.push(Symbol::Rule(rule))?;
        }
    }
    Ok(())
}

/// Fills in what is derived from the place, beginning with the leaves; false where that takes too long.
fn fill_from(
    chart: &mut Chart,
    grm: &YaccGrammar<u32>,
    corners: &Corners,
    leaves: Vec<Symbol<u32>>,
    from: usize,
    ends: &mut Vob,
    next: &mut Vob,
) -> Result<bool, AllocError>
    requires from { from < chart.old.places }
    requires ends { length ends.old ≡ chart.old.places }
    requires next { length next.old ≡ chart.old.places }
    ensures chart { chart.new.places ≡ chart.old.places }
    ensures ends { length ends.new ≡ chart.old.places }
    ensures next { length next.new ≡ chart.old.places }
{
    if from >= chart.top {
        add_nothing(chart, grm, corners, from)?;
    }
    add_leaves(chart, leaves.as_slice(), from)?;
    let mut waiting = leaves;
    for _ in 0..MOST_TURNS {
        let Some(symbol) = waiting.pop() else {
            return Ok(true);
        };
        let productions = begun_by(corners, symbol);
        widen(chart, &mut waiting, grm, productions, from, ends, next)?;
    }
    Ok(false)
}

/// The chart of the row of a stack and of the tokens behind it; None where that is too large, or takes too long.
pub(crate) fn chart_of(
    grm: &YaccGrammar<u32>,
    graph: &StateGraph<u32>,
    stack: &[StIdx<u32>],
    left: &[TIdx<u32>],
) -> Result<Option<Chart>, AllocError> {
    let alloc = grm.allocator();
    let places = stack.len().saturating_add(left.len());
    let rules = usize::from(grm.rules_len());
    if places > MOST_PLACES || rules.saturating_mul(places) > MOST_ROWS {
        return Ok(None);
    }
    let corners = corners_of(grm)?;
    let mut chart = Chart {
        places,
        top: stack.len().saturating_sub(1),
        tokens: empty_rows(alloc, usize::from(grm.tokens_len()))?,
        rules: empty_rows(alloc, rules)?,
    };
    let mut ends = Vob::from_elem(alloc, false, places)?;
    let mut next = Vob::from_elem(alloc, false, places)?;
    for from in (0..places).rev() {
        let leaves = leaves_at(alloc, graph, stack, left, from)?;
        if !fill_from(
            &mut chart, grm, &corners, leaves, from, &mut ends, &mut next,
        )? {
            return Ok(None);
        }
    }
    Ok(Some(chart))
}
