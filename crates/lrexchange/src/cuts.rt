//! Stacks on which a rule is put in the place of symbols.

ghost use Rattle.std.specs.Prelude.{◌≡◌, ◌≤◌, ◌<◌, ◌↔◌, take, length, option_map, IfOk, IfSome, IsTrue};
ghost use Rattle.lrspec.specs.grammars.Grammar.{body_of};
ghost use Rattle.lrexchange.specs.Positions.{OursCut};
ghost use Rattle.lrexchange.specs.Asked.{IsCutTo, EndsWith};
ghost use Rattle.lrexchange.specs.StoredPositions.{symbols_of, ours_of};

use crate::positions::Ours;
use lrclosing::items::is_same_symbol;
use lrgrammar::grammar::YaccGrammar;
use lrgrammar::idx::{PIdx, SIdx, Symbol};
use std::alloc::AllocError;

/// Whether the symbols are the same.
pub(crate) fn are_same_symbols(a: &[Symbol<u32>], b: &[Symbol<u32>]) -> bool
    ensures { IsTrue result ↔ (symbols_of a.now ≡ symbols_of b.now) }
{
    if a.len() != b.len() {
        return false;
    }
    for i in 0..a.len() {
        if !is_same_symbol(a[i], b[i]) {
            return false;
        }
    }
    true
}

/// How many symbols are before those with which the stack ends; None where it doesn't end with these.
fn before_end(stack: &[Symbol<u32>], end: &[Symbol<u32>]) -> Option<usize>
    ensures ends { EndsWith (symbols_of stack.now) (symbols_of end.now) result }
    ensures within { IfSome result (λ n. n ≤ length stack.now) }
{
    if end.len() > stack.len() {
        return None;
    }
    let front = stack.len() - end.len();
    if !are_same_symbols(&stack[front..], end) {
        return None;
    }
    Some(front)
}

/// The symbols before the dot of the item.
fn before_dot<'a>(grm: &'a YaccGrammar<u32>, item: (PIdx<u32>, SIdx<u32>)) -> &'a [Symbol<u32>]
    requires { item.0.0 < length grm.now.productions }
    ensures { symbols_of result.now ≡ take item.1.0 (body_of grm.entry.now item.0.0) }
{
    let body = grm.prod(item.0);
    let dot = usize::from(item.1);
    if dot < body.len() { &body[..dot] } else { body }
}

/// The stack with the rule of the item in the place of the symbols before its dot; None where it doesn't end with these, or they
/// are among so many first ones.
pub(crate) fn cut(
    grm: &YaccGrammar<u32>,
    mut stack: Vec<Symbol<u32>>,
    item: (PIdx<u32>, SIdx<u32>),
    least: usize,
) -> Result<Option<Vec<Symbol<u32>>>, AllocError>
    ensures { IfOk result (λ o. IsCutTo grm.now item.0.0 item.1.0 least
        (symbols_of stack.items) (option_map (λ v. symbols_of v.items) o)) }
{
    if usize::from(item.0) >= usize::from(grm.prods_len()) {
        return Ok(None);
    }
    let Some(front) = before_end(stack.as_slice(), before_dot(grm, item)) else {
        return Ok(None);
    };
    if front < least {
        return Ok(None);
    }
    stack.truncate(front);
    stack.push(Symbol::Rule(grm.prod_to_rule(item.0)))?;
    Ok(Some(stack))
}

/// Ours cut so; None where that can't be.
pub(crate) fn ours_cut(
    grm: &YaccGrammar<u32>,
    ours: Ours,
    item: (PIdx<u32>, SIdx<u32>),
) -> Result<Option<Ours>, AllocError>
    ensures { IfOk result (λ o. IfSome o (λ y.
        OursCut grm.now item.0.0 item.1.0 (ours_of ours) (ours_of y))) }
{
    let least = ours.least();
    let Ours { symbols, mark } = ours;
    let Some(symbols) = cut(grm, symbols, item, least)? else {
        return Ok(None);
    };
    Ok(Some(Ours { symbols, mark }))
}
