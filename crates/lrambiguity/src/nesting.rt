//! Items that stand in one another.

ghost use Rattle.std.specs.Prelude.{◌≡◌, ℕ, List, [], ◌∷◌, ◌++◌, map, drop, IfSome, IfNone, IsTrue, ◌↔◌};
ghost use Rattle.lrspec.specs.grammars.CanonicalItems.{Stands};
ghost use Rattle.lrgrammar.specs.Symbols.{symbol_of};
ghost use Rattle.lrambiguity.specs.Nesting.{Nests};
ghost use Rattle.lrambiguity.specs.StoredItems.{items_of, IsFirstRule, GoesInto, GoesNowhere};

use lrgrammar::grammar::YaccGrammar;
use lrgrammar::idx::{IndexStorage, PIdx, RIdx, SIdx, Symbol};

/// The rule behind the dot, if there is one.
fn rule_behind<T: IndexStorage>(body: &[Symbol<T>], dot: usize) -> Option<RIdx<T>>
    ensures { IsFirstRule T.number result (drop dot (map (symbol_of T.number) body.now)) }
{
    match body.get(dot)? {
        Symbol::Rule(ridx) => Some(*ridx),
        Symbol::Token(_) => None,
    }
}

/// What the list has behind the symbols before the dot of the item, and the rule behind the dot; None where the item is of
/// no production of the rule that is wanted, or the list doesn't begin with the symbols before its dot.
fn pass<'a, T: IndexStorage>(
    grm: &YaccGrammar<T>,
    list: &'a [Symbol<T>],
    wanted: Option<RIdx<T>>,
    item: (PIdx<T>, SIdx<T>),
) -> Option<(&'a [Symbol<T>], Option<RIdx<T>>)>
    ensures some { IfSome result (λ behind. GoesInto T.number grm.now wanted
        (T.number item.0.0) (T.number item.1.0) list.now behind.0.now behind.1) }
    ensures none { IfNone result (GoesNowhere T.number grm.now wanted
        (T.number item.0.0) (T.number item.1.0) list.now) }
{
    let (pidx, sidx) = item;
    let rule = wanted?;
    if usize::from(pidx) >= usize::from(grm.prods_len()) || grm.prod_to_rule(pidx) != rule {
        return None;
    }
    let body = grm.prod(pidx);
    let dot = usize::from(sidx);
    let start = body.get(..dot)?;
    let left = list.strip_prefix(start)?;
    Some((left, rule_behind(body, dot)))
}

/// Whether the items stand in one another, and the symbols before their dots are the list: the first is of the start
/// production, and each further one is of a production of the rule that stands behind the dot of the one before it.
pub fn nests<T: IndexStorage>(
    grm: &YaccGrammar<T>,
    list: &[Symbol<T>],
    items: &[(PIdx<T>, SIdx<T>)],
) -> bool
    ensures nests { IsTrue result
        ↔ Nests grm.now (items_of T.number items.now) (map (symbol_of T.number) list.now) }
    ensures stands { IsTrue result → (is : List (ℕ × ℕ)) (p d : ℕ)
        → items_of T.number items.now ≡ is ++ (p, d) ∷ []
        → Stands grm.now (map (symbol_of T.number) list.now) p d }
{
    grm.in_order();
    let mut left = list;
    let mut wanted = Some(grm.prod_to_rule(grm.start_prod()));
    for item in items {
        let Some((behind, rule)) = pass(grm, left, wanted, *item) else {
            return false;
        };
        left = behind;
        wanted = rule;
    }
    left.is_empty() && !items.is_empty()
}
