//! After what a conflict is real, and how the text goes on.

ghost use Rattle.std.specs.Prelude.{◌≡◌, List, ◌∷◌, ◌++◌, [], ℕ, map, drop, option_map, IsTrue, IfOk, IfSome};
ghost use Rattle.lrspec.specs.grammars.Grammar as math;
ghost use Rattle.lrgrammar.specs.Symbols.{number_of, symbol_of};
ghost use Rattle.lrambiguity.specs.Nesting.{Nests};
ghost use Rattle.lrambiguity.specs.StoredItems.{items_of};
ghost use Rattle.lrconflicts.specs.StoredMoves.{move_of};
ghost use Rattle.lrreasons.specs.Examples.{IsTextOf, IsItemOf, IsLastItemOf, IsRestBehind, IsOutlook};

use lrambiguity::{Move, Written, goes_on, nests, reads_as};
use lrforms::{Forms, Outlook};
use lrgrammar::grammar::YaccGrammar;
use lrgrammar::idx::{PIdx, SIdx, Symbol, TIdx};
use std::alloc::AllocError;

/// After what a conflict is real.
#[derive(Debug, Drop)]
pub struct Example {
    /// A shortest list of symbols after which both candidates are real.
    pub list: Vec<Symbol<u32>>,
    /// The token on which they are: the conflict's own, but where two reductions share only others; then the least of these.
    pub token: TIdx<u32>,
    /// A text that the list derives; None where a rule of it has none.
    pub input: Option<Written<u32>>,
    /// How the text goes on by the reduction of the conflict's production.
    pub one: Option<Outlook>,
    /// How it goes on by the shift, or by the reduction of the other production.
    pub other: Option<Outlook>,
}

/// A text that the list derives, where one is found.
pub(crate) fn input(
    forms: &Forms<'_>,
    grm: &YaccGrammar<u32>,
    list: &[Symbol<u32>],
) -> Result<Option<Written<u32>>, AllocError>
    ensures { IfOk result (λ o.
        IfSome o (IsTextOf grm.now (map (symbol_of number_of) list.now))) }
{
    let Some(text) = forms.text_of(list)? else {
        return Ok(None);
    };
    if reads_as(grm.allocator(), grm, list, &text)? {
        Ok(Some(text))
    } else {
        Ok(None)
    }
}

/// Whether the token comes first behind the dot.
fn is_before(body: &[Symbol<u32>], dot: usize, token: TIdx<u32>) -> bool
    ensures { IsTrue result → (y : List math.Symbol)
        × (drop dot (map (symbol_of number_of) body.now) ≡ math.Token token.0 ∷ y) }
{
    match body.get(dot) {
        Some(Symbol::Token(found)) => *found == token,
        _ => false,
    }
}

/// Whether the item is that of the move on the token: complete for a reduction, before the token for a shift.
fn is_item_of(
    grm: &YaccGrammar<u32>,
    token: TIdx<u32>,
    action: Move<u32>,
    item: (PIdx<u32>, SIdx<u32>),
) -> bool
    ensures { IsTrue result → IsItemOf grm.now token.0 (move_of number_of action)
        item.0.0 item.1.0 }
{
    let (production, dot) = item;
    if usize::from(production) >= usize::from(grm.prods_len()) {
        return false;
    }
    match action {
        Move::Reduce(reduced) => reduced == production && dot == grm.prod_len(production),
        Move::Shift => is_before(grm.prod(production), usize::from(dot), token),
    }
}

/// Whether the items stand in one another after the list, and the last one is that of the move.
fn is_derivation(
    grm: &YaccGrammar<u32>,
    list: &[Symbol<u32>],
    token: TIdx<u32>,
    action: Move<u32>,
    items: &[(PIdx<u32>, SIdx<u32>)],
) -> bool
    ensures nests { IsTrue result
        → Nests grm.now (items_of number_of items.now) (map (symbol_of number_of) list.now) }
    ensures last { IsTrue result → IsLastItemOf grm.now token.0
        (move_of number_of action) (items_of number_of items.now) }
{
    match items.last() {
        Some(last) => is_item_of(grm, token, action, *last) && nests(grm, list, items),
        None => false,
    }
}

/// The rest, where it goes on behind the input by the move.
fn checked_rest(
    grm: &YaccGrammar<u32>,
    token: TIdx<u32>,
    action: Move<u32>,
    input: Option<&Written<u32>>,
    rest: Option<Written<u32>>,
) -> Result<Option<Written<u32>>, AllocError>
    ensures { IfOk result (IsRestBehind grm.now token.0
        (move_of number_of action) (option_map (λ x. x.now) input.entry)) }
{
    let (Some(input), Some(rest)) = (input, rest) else {
        return Ok(None);
    };
    if goes_on(grm.allocator(), grm, token, action, input, &rest)? {
        Ok(Some(rest))
    } else {
        Ok(None)
    }
}

/// How the text goes on by the move, where it is found.
pub(crate) fn outlook(
    forms: &Forms<'_>,
    grm: &YaccGrammar<u32>,
    list: &[Symbol<u32>],
    token: TIdx<u32>,
    action: Move<u32>,
    input: Option<&Written<u32>>,
) -> Result<Option<Outlook>, AllocError>
    ensures { IfOk result (λ o. IfSome o (IsOutlook grm.now
        (map (symbol_of number_of) list.now) token.0 (move_of number_of action)
        (option_map (λ x. x.now) input.entry))) }
{
    let Some(Outlook { items, rest }) = forms.outlook(list, token, action)? else {
        return Ok(None);
    };
    if !is_derivation(grm, list, token, action, items.as_slice()) {
        return Ok(None);
    }
    let rest = checked_rest(grm, token, action, input, rest)?;
    Ok(Some(Outlook { items, rest }))
}
