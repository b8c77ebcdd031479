//! The complete items of a closed state, by which it reduces or accepts.

ghost use Rattle.std.specs.Prelude.{◌≡◌, ℕ, ◌<◌, [], ◌∷◌, length, map, slice_index_or, option_map, IfOk, IfSome};
ghost use Rattle.std.specs.List.{All, range_with_len};
ghost use Rattle.std.specs.Option.{option_or};
ghost use Rattle.lrspec.specs.grammars.Grammar as math;
ghost use Rattle.lrspec.specs.grammars.ItemSets.{Fits};
ghost use Rattle.lrspec.specs.tables.Table.{accepts_at, bit_or_none};
ghost use Rattle.lritems.specs.ItemsOf.{set_of};
ghost use Rattle.lrrows.specs.StateRows.{complete_items, first_at};
ghost use Rattle.lrrows.specs.StoredLists.{least_of};

use crate::places::fill;
use lrgrammar::grammar::YaccGrammar;
use lrgrammar::idx::{IndexStorage, PIdx, SIdx};
use lritems::itemset::{Ctx, Itemset};
use std::alloc::AllocError;

/// The complete items but for that of the start production, upwards, each with its lookaheads.
pub(crate) fn completes<'a, T: IndexStorage>(
    grm: &YaccGrammar<T>,
    closed: &'a Itemset<T>,
) -> Result<Vec<(PIdx<T>, &'a Ctx)>, AllocError>
    requires { Fits grm.now (set_of T.number closed.now) }
    ensures items { IfOk result (λ v. map (λ c. (T.number c.0.0, c.1.now)) v.items
        ≡ complete_items grm.now (set_of T.number closed.now)) }
    ensures bits { IfOk result (λ v. All (λ c. length c.1.now ≡ math.token_count grm.now) v.items) }
{
    let mut completes = Vec::new(grm.allocator());
    for (key, ctx) in &closed.items {
        if key.1 == grm.prod_len(key.0) && key.0 != grm.start_prod() {
            completes.push((key.0, ctx))?;
        }
    }
    Ok(completes)
}

/// The lookaheads of the complete start production, if it is there.
pub(crate) fn accepted<'a, T: IndexStorage>(
    grm: &YaccGrammar<T>,
    closed: &'a Itemset<T>,
) -> Option<&'a Ctx>
    requires { Fits grm.now (set_of T.number closed.now) }
    ensures accepts { (t : ℕ) → bit_or_none (option_map (λ ctx. ctx.now) result) t
        ≡ accepts_at grm.now (set_of T.number closed.now) t }
    ensures bits { IfSome result (λ ctx. length ctx.now ≡ math.token_count grm.now) }
{
    let start = grm.start_prod();
    grm.in_order();
    closed.items.get(&(start, grm.prod_len(start)))
}

/// The first of the productions that looks at the token.
pub(crate) fn least_at<T: IndexStorage>(
    completes: &[(PIdx<T>, &Ctx)],
    token: usize,
) -> Option<PIdx<T>>
    requires bits { All (λ c. token < length c.1.now) completes.now }
    ensures { option_map (λ p. T.number p.0) result
        ≡ first_at (map (λ c. (T.number c.0.0, c.1.now)) completes.now) token }
{
    for (pidx, ctx) in completes {
        if ctx.get(token) {
            return Some(*pidx);
        }
    }
    None
}

/// Puts the production at each of its lookaheads at which none stands.
fn fill_lookaheads<T: IndexStorage>(least: &mut [Option<PIdx<T>>], pidx: PIdx<T>, ctx: &Ctx)
    ensures { (t : ℕ) → t < length least.old
        → option_map (λ p. T.number p.0) (slice_index_or least.new t None)
        ≡ option_or (option_map (λ p. T.number p.0) (slice_index_or least.old t None))
        (first_at ((T.number pidx.0, ctx.now) ∷ []) t) }
{
    for token in ctx.iter_set_bits(0..ctx.len()) {
        fill(least, token, pidx);
    }
}

/// The least production by which the state reduces on each token, if there is one.
pub(crate) fn least_by_token<T: IndexStorage>(
    grm: &YaccGrammar<T>,
    completes: &[(PIdx<T>, &Ctx)],
) -> Result<Vec<Option<PIdx<T>>>, AllocError>
    requires bits { All (λ c. length c.1.now ≡ math.token_count grm.now) completes.now }
    ensures { IfOk result (λ v. least_of T.number v.items
        ≡ map (first_at (map (λ c. (T.number c.0.0, c.1.now)) completes.now))
        (range_with_len 0 (math.token_count grm.now))) }
{
    let mut least = vec![in grm.allocator(); None; usize::from(grm.tokens_len())]?;
    for (pidx, ctx) in completes {
        fill_lookaheads(least.as_mut_slice(), *pidx, ctx);
    }
    Ok(least)
}
