//! Items by production and dot, and what concerns a single one.

ghost use Rattle.std.specs.Prelude.{◌≡◌, ℕ, ◌+◌, ◌<◌, ◌≤◌, suc, length, IsTrue, ◌↔◌, IfNone, OnSome, IfSome};
ghost use Rattle.lrspec.specs.grammars.Grammar as math;
ghost use Rattle.lrspec.specs.grammars.ItemSets.{Fits, FitsAt, IsBefore};
ghost use Rattle.lrgrammar.specs.Symbols.{symbol_of};
ghost use Rattle.lrclosing.specs.ItemsOf.{items_of};

use lrgrammar::grammar::YaccGrammar;
use lrgrammar::idx::{IndexStorage, PIdx, RIdx, SIdx, Symbol};
use lrgrammar::vob::Vob;
use std::collections::BTreeMap;

/// The lookaheads of an item: one bit a token.
pub type Ctx = Vob;

/// Items by production and dot, each with its lookaheads.
pub type Items<T> = BTreeMap<(PIdx<T>, SIdx<T>), Ctx>;

/// Whether the symbols are the same.
pub fn is_same_symbol<T: IndexStorage>(a: Symbol<T>, b: Symbol<T>) -> bool
    ensures { IsTrue result ↔ (symbol_of T.number a ≡ symbol_of T.number b) }
{
    a == b
}

/// The symbol behind the dot, and the dot moved over it; None at the end of the body.
pub fn step_over<T: IndexStorage>(
    grm: &YaccGrammar<T>,
    pidx: PIdx<T>,
    dot: SIdx<T>,
) -> Option<(Symbol<T>, SIdx<T>)>
    requires { T.number pidx.0 < length grm.now.productions }
    ensures none { IfNone result
        ((x : math.Symbol) → IsBefore grm.now (T.number pidx.0) (T.number dot.0) x → ⊥) }
    ensures found { IfSome result (λ s.
        IsBefore grm.now (T.number pidx.0) (T.number dot.0) (symbol_of T.number s.0)) }
    ensures moved { IfSome result (λ s. T.number s.1.0 ≡ suc (T.number dot.0)) }
    ensures shape { math.IsGrammar grm.now }
{
    let body = grm.prod(pidx);
    let at = usize::from(dot);
    if at < body.len() {
        Some((body[at], SIdx(T::from_usize(at + 1).unwrap())))
    } else {
        None
    }
}

/// The dot behind the symbol, if the item stands before it.
pub fn dot_behind<T: IndexStorage>(
    grm: &YaccGrammar<T>,
    pidx: PIdx<T>,
    dot: SIdx<T>,
    sym: &Symbol<T>,
) -> Option<SIdx<T>>
    requires { T.number pidx.0 < length grm.now.productions }
    ensures none { IfNone result
        (IsBefore grm.now (T.number pidx.0) (T.number dot.0) (symbol_of T.number sym.now) → ⊥) }
    ensures found { OnSome result
        (IsBefore grm.now (T.number pidx.0) (T.number dot.0) (symbol_of T.number sym.now)) }
    ensures moved { IfSome result (λ e. T.number e.0 ≡ suc (T.number dot.0)) }
{
    let Some((symbol, next)) = step_over(grm, pidx, dot) else {
        return None;
    };
    is_same_symbol(symbol, *sym).then_some(next)
}

/// The rule behind the dot, if a rule stands there.
pub(crate) fn rule_behind<T: IndexStorage>(
    grm: &YaccGrammar<T>,
    pidx: PIdx<T>,
    dot: SIdx<T>,
) -> Option<RIdx<T>>
    requires { T.number pidx.0 < length grm.now.productions }
    ensures none { IfNone result ((r : ℕ)
        → IsBefore grm.now (T.number pidx.0) (T.number dot.0) (math.Rule r) → ⊥) }
    ensures found { IfSome result (λ r.
        IsBefore grm.now (T.number pidx.0) (T.number dot.0) (math.Rule (T.number r.0))) }
    ensures shape { math.IsGrammar grm.now }
{
    match step_over(grm, pidx, dot) {
        Some((Symbol::Rule(rule), _next)) => Some(rule),
        Some((Symbol::Token(_), _next)) => None,
        None => None,
    }
}

/// Whether the item exists in the grammar, and has one bit a token.
fn item_fits<T: IndexStorage>(grm: &YaccGrammar<T>, pidx: PIdx<T>, dot: SIdx<T>, ctx: &Ctx) -> bool
    ensures { IsTrue result ↔ FitsAt grm.now (T.number pidx.0) (T.number dot.0) ctx.now }
{
    usize::from(pidx) < usize::from(grm.prods_len())
        && usize::from(dot) <= usize::from(grm.prod_len(pidx))
        && ctx.len() == usize::from(grm.tokens_len())
}

/// Whether each item exists in the grammar, and has one bit a token.
pub fn items_fit<T: IndexStorage>(items: &Items<T>, grm: &YaccGrammar<T>) -> bool
    ensures { IsTrue result ↔ Fits grm.now (items_of T.number items.now.entries) }
{
    for (key, ctx) in items {
        if !item_fits(grm, key.0, key.1, ctx) {
            return false;
        }
    }
    true
}
