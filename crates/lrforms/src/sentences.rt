//! A whole text around a form.

use crate::ambiguous::{Ambiguous, Form, Sentence, Ways};
use crate::around::Around;
use crate::layers::{Layer, write_behind};
use crate::shared::Shared;
use crate::states::Way;
use crate::writing::Writer;
use lrconflicts::Move;
use lrgrammar::idx::{RIdx, StIdx, Symbol, TIdx};
use std::alloc::{AllocError, Global};

/// The state to which the shortest way leads.
fn nearest(shared: &Shared, states: &[StIdx<u32>]) -> Option<StIdx<u32>> {
    let mut nearest = *states.first()?;
    for state in states {
        if shared.states.length(*state) < shared.states.length(nearest) {
            nearest = *state;
        }
    }
    Some(nearest)
}

/// Writes what stands before the dot, behind the way.
fn write_before(writer: &mut Writer<'_>, way: &Way, form: &Form) -> Result<(), AllocError> {
    writer.push_all(way.symbols.as_slice())?;
    match form.symbols.as_slice().get(..form.dot) {
        Some(symbols) => writer.push_all(symbols),
        None => Ok(()),
    }
}

/// Writes the form from the dot on, as these moves read it.
fn write_form(writer: &mut Writer<'_>, form: &Form, moves: &[Move<u32>]) -> Result<(), AllocError> {
    let mut place = form.dot;
    for step in moves {
        match step {
            Move::Reduce(production) => writer.push_reduction(*production)?,
            Move::Shift => {
                if let Some(symbol) = form.symbols.get(place) {
                    write_symbol(writer, *symbol, place == form.dot)?;
                }
                place = place.saturating_add(1);
            }
        }
    }
    Ok(())
}

/// Writes a symbol, which may have to begin with the conflict's token.
fn write_symbol(
    writer: &mut Writer<'_>,
    symbol: Symbol<u32>,
    is_first: bool,
) -> Result<(), AllocError> {
    if is_first {
        writer.push_beginning(symbol)
    } else {
        writer.push(symbol)
    }
}

/// The text around a form that stands behind the way, in these layers. None where it gets too long. Adds to the work how many
/// moves were written.
fn write_text(
    alloc: Global,
    shared: &Shared,
    token: TIdx<u32>,
    form: &Form,
    way: &Way,
    layers: &[Layer],
    work: &mut usize,
) -> Result<Option<Sentence>, AllocError> {
    let beginnings = shared.beginnings(token)?;
    let mut before = Writer::new(alloc, shared, beginnings);
    let mut first = Writer::new(alloc, shared, beginnings);
    let mut second = Writer::new(alloc, shared, beginnings);
    write_before(&mut before, way, form)?;
    write_form(&mut first, form, form.ways.first.as_slice())?;
    write_form(&mut second, form, form.ways.second.as_slice())?;
    write_behind(&mut first, &shared.rules, layers)?;
    write_behind(&mut second, &shared.rules, layers)?;
    for writer in [&before, &first, &second] {
        *work = work.saturating_add(writer.moves.len());
    }
    if before.has_failed || first.has_failed || second.has_failed {
        return Ok(None);
    }
    let dot = before.tokens.len();
    let mut tokens = before.tokens;
    tokens.extend_from_slice(first.tokens.as_slice())?;
    let ways = Ways {
        before: before.moves,
        first: first.moves,
        second: second.moves,
    };
    Ok(Some(Sentence { tokens, dot, ways }))
}

/// The layers around a rule behind the way. Adds to the work how many rules were come to.
fn layers_around(
    alloc: Global,
    shared: &Shared,
    way: &Way,
    token: TIdx<u32>,
    rule: RIdx<u32>,
    work: &mut usize,
) -> Result<Option<Vec<Layer>>, AllocError> {
    let mut around = Around::new(alloc, shared, way, token)?;
    around.add_rule(rule)?;
    let layers = around.find(alloc)?;
    *work = work.saturating_add(around.len());
    Ok(layers)
}

/// What shows that the grammar is ambiguous: the form in a whole text, where it may stand behind each of the states. None where
/// that text gets too long. Adds to the work what this took.
pub(crate) fn sentence_of(
    alloc: Global,
    shared: &Shared,
    token: TIdx<u32>,
    states: &[StIdx<u32>],
    form: Form,
    work: &mut usize,
) -> Result<Option<Ambiguous>, AllocError> {
    let Some(state) = nearest(shared, states) else {
        return Ok(None);
    };
    let way = shared.states.way(alloc, state)?;
    let Some(layers) = layers_around(alloc, shared, &way, token, form.rule, work)? else {
        return Ok(None);
    };
    match write_text(alloc, shared, token, &form, &way, layers.as_slice(), work)? {
        Some(sentence) => Ok(Some(Ambiguous { form, sentence })),
        None => Ok(None),
    }
}
