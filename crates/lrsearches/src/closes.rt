//! What a need is closed by, and whether it is met.

ghost use Rattle.std.specs.Prelude.{◌≡◌, ◌≢◌, ◌<◌, length, IsTrue, IfOk, IfNone, IfSome, MatchOption, ◌↔◌};
ghost use Rattle.lrspec.specs.grammars.Grammar as math;
ghost use Rattle.lrspec.specs.grammars.ItemSets.{Fits, FitsAt};
ghost use Rattle.lrbits.specs.Bits.{bit};
ghost use Rattle.lrgrammar.specs.Firsts.{AreFirstsOf};
ghost use Rattle.lritems.specs.ItemsOf.{set_of};
ghost use Rattle.lrsearches.specs.Rests.{IsClosedBy};
ghost use Rattle.lrsearches.specs.Searches as search;
ghost use Rattle.lrsearches.specs.Searches.{GoesBack, IsSettled, IsMetAtStart, IsLooking, AreClosesOf};
ghost use Rattle.lrsearches.specs.StoredPlaces.{need_of, needs_of};
ghost use Rattle.lrsearches.specs.StoredUses.{keys_of, HasUsesOfRule, AreUses};

use crate::places::Need;
use crate::rests::{Rest, rest_behind};
use lrgrammar::firsts::YaccFirsts;
use lrgrammar::grammar::YaccGrammar;
use lrgrammar::idx::{IndexStorage, PIdx, RIdx, SIdx, TIdx};
use lritems::itemset::{Ctx, Itemset};
use std::alloc::AllocError;

/// The production of which an item at dot 0 is needed, but for the start item.
pub(crate) fn closable<T: IndexStorage>(grm: &YaccGrammar<T>, need: Need<T>) -> Option<PIdx<T>>
    ensures settled { IfNone result (IsSettled grm.now (need_of T.number need)) }
    ensures item { IfSome result (λ p. need_of T.number need ≡ search.Look (T.number p.0) 0) }
    ensures apart { IfSome result (λ p. T.number p.0 ≢ grm.now.start_production) }
{
    let Need::Look(pidx, dot) = need else {
        return None;
    };
    if usize::from(dot) > 0 {
        return None;
    }
    if pidx == grm.start_prod() {
        return None;
    }
    Some(pidx)
}

/// Whether the empty list has what is needed.
pub(crate) fn is_met_at_start<T: IndexStorage>(
    grm: &YaccGrammar<T>,
    need: Need<T>,
    token: TIdx<T>,
) -> bool
    ensures { IsTrue result ↔ IsMetAtStart grm.now (T.number token.0) (need_of T.number need) }
{
    match need {
        Need::Met => true,
        Need::Look(pidx, dot) => {
            pidx == grm.start_prod() && usize::from(dot) == 0 && token == grm.eof_token_idx()
        }
    }
}

/// Whether nothing is needed, or of an item that looks at the token in the closed state.
pub(crate) fn is_looking<T: IndexStorage>(
    grm: &YaccGrammar<T>,
    closed: &Itemset<T>,
    need: Need<T>,
    token: TIdx<T>,
) -> bool
    requires fits { Fits grm.now (set_of T.number closed.now) }
    requires token { T.number token.0 < math.token_count grm.now }
    ensures { IsTrue result
        ↔ IsLooking (set_of T.number closed.now) (T.number token.0) (need_of T.number need) }
{
    match need {
        Need::Met => true,
        Need::Look(pidx, dot) => match closed.items.get(&(pidx, dot)) {
            Some(ctx) => ctx.get(usize::from(token)),
            None => false,
        },
    }
}

/// What is needed with its dot moved back by one; None at dot 0.
pub(crate) fn moved_back<T: IndexStorage>(need: Need<T>) -> Option<Need<T>>
    ensures { MatchOption result
        ((z : search.Need) → GoesBack (need_of T.number need) z → ⊥)
        (λ z. GoesBack (need_of T.number need) (need_of T.number z)) }
{
    match need {
        Need::Met => Some(Need::Met),
        Need::Look(pidx, dot) => {
            let place = dot.0.to_usize();
            if place == 0 {
                return None;
            }
            Some(Need::Look(pidx, SIdx(T::from_usize(place - 1).unwrap())))
        }
    }
}

/// Adds what closes the need of a production of the rule by the item, which has these lookaheads; answers whether nothing more is
/// needed, and then that alone is left.
fn close_by<T: IndexStorage>(
    needs: &mut Vec<Need<T>>,
    grm: &YaccGrammar<T>,
    firsts: &YaccFirsts<T>,
    item: (PIdx<T>, SIdx<T>),
    ctx: &Ctx,
    rule: RIdx<T>,
    token: TIdx<T>,
) -> Result<bool, AllocError>
    requires of { AreFirstsOf grm.now firsts.now }
    requires fits { FitsAt grm.now (T.number item.0.0) (T.number item.1.0) ctx.now }
    requires token { T.number token.0 < math.token_count grm.now }
    ensures { IfOk result (IsClosedBy grm.now (T.number item.0.0) (T.number item.1.0)
        (T.number rule.0) (T.number token.0) (bit ctx.now (T.number token.0))
        (needs_of T.number needs.old.items) (needs_of T.number needs.new.items)) }
{
    match rest_behind(grm, firsts, item, rule, token) {
        Rest::Begins => {
            needs.clear();
            needs.push(Need::Met)?;
            return Ok(true);
        }
        Rest::Nullable => {
            if ctx.get(usize::from(token)) {
                needs.push(Need::Look(item.0, item.1))?;
            }
        }
        Rest::Neither => {}
    }
    Ok(false)
}

/// What closes the need of the production's item at dot 0, of all items of the closed state.
fn closes_by_items<T: IndexStorage>(
    grm: &YaccGrammar<T>,
    firsts: &YaccFirsts<T>,
    closed: &Itemset<T>,
    pidx: PIdx<T>,
    token: TIdx<T>,
) -> Result<Vec<Need<T>>, AllocError>
    requires of { AreFirstsOf grm.now firsts.now }
    requires fits { Fits grm.now (set_of T.number closed.now) }
    requires production { T.number pidx.0 < length grm.now.productions }
    requires token { T.number token.0 < math.token_count grm.now }
    ensures { IfOk result (λ v. AreClosesOf grm.now (set_of T.number closed.now)
        (T.number token.0) (T.number pidx.0) (needs_of T.number v.items)) }
{
    let rule = grm.prod_to_rule(pidx);
    let mut needs = Vec::new(grm.allocator());
    for (key, ctx) in &closed.items {
        if close_by(&mut needs, grm, firsts, *key, ctx, rule, token)? {
            return Ok(needs);
        }
    }
    Ok(needs)
}

/// The same, of those items of the row that the closed state has, where all that stand before the rule are in the row.
fn closes_by_row<T: IndexStorage>(
    grm: &YaccGrammar<T>,
    firsts: &YaccFirsts<T>,
    closed: &Itemset<T>,
    row: &[(PIdx<T>, SIdx<T>)],
    rule: RIdx<T>,
    pidx: PIdx<T>,
    token: TIdx<T>,
) -> Result<Vec<Need<T>>, AllocError>
    requires of { AreFirstsOf grm.now firsts.now }
    requires fits { Fits grm.now (set_of T.number closed.now) }
    requires rule { math.IsProductionOf grm.now (T.number pidx.0) (T.number rule.0) }
    requires row { HasUsesOfRule grm.now (T.number rule.0) (keys_of T.number row.now) }
    requires token { T.number token.0 < math.token_count grm.now }
    ensures { IfOk result (λ v. AreClosesOf grm.now (set_of T.number closed.now)
        (T.number token.0) (T.number pidx.0) (needs_of T.number v.items)) }
{
    let mut needs = Vec::new(grm.allocator());
    for key in row {
        let Some(ctx) = closed.items.get(key) else {
            continue;
        };
        if close_by(&mut needs, grm, firsts, *key, ctx, rule, token)? {
            return Ok(needs);
        }
    }
    Ok(needs)
}

/// What closes the need of the production's item at dot 0: nothing more is needed where an item before its rule goes on with
/// the token; else that such an item looks at the token, where what comes behind the rule is nullable. The items before each
/// rule are looked at, or those of the closed state where these are fewer.
pub(crate) fn closes<T: IndexStorage>(
    grm: &YaccGrammar<T>,
    firsts: &YaccFirsts<T>,
    uses: &[Vec<(PIdx<T>, SIdx<T>)>],
    closed: &Itemset<T>,
    pidx: PIdx<T>,
    token: TIdx<T>,
) -> Result<Vec<Need<T>>, AllocError>
    requires of { AreFirstsOf grm.now firsts.now }
    requires uses { AreUses T.number grm.now uses.now }
    requires fits { Fits grm.now (set_of T.number closed.now) }
    requires production { T.number pidx.0 < length grm.now.productions }
    requires token { T.number token.0 < math.token_count grm.now }
    ensures { IfOk result (λ v. AreClosesOf grm.now (set_of T.number closed.now)
        (T.number token.0) (T.number pidx.0) (needs_of T.number v.items)) }
{
    let rule = grm.prod_to_rule(pidx);
    let row = uses[usize::from(rule)].as_slice();
    if row.len() < closed.items.len() {
        closes_by_row(grm, firsts, closed, row, rule, pidx, token)
    } else {
        closes_by_items(grm, firsts, closed, pidx, token)
    }
}
