//! Rows: what a closing gives to the productions of each rule.

ghost use Rattle.std.specs.Prelude.{◌≡◌, ◌<◌, length, IfOk, OnOk};
ghost use Rattle.lrspec.specs.grammars.Grammar as math;
ghost use Rattle.lrspec.specs.grammars.ItemSets.{Fits};
ghost use Rattle.lrclosing.specs.ItemsOf.{items_of, HaveBits};
ghost use Rattle.lrclosing.specs.Rows.{ArePut, AreRows, AreWithRows};

use crate::items::{Ctx, Items};
use lrgrammar::grammar::YaccGrammar;
use lrgrammar::idx::{IndexStorage, PIdx, RIdx, SIdx};
use lrgrammar::vob::Vob;
use std::alloc::AllocError;

/// Adds lookaheads at dot 0 of a production.
fn put<T: IndexStorage>(closed: &mut Items<T>, pidx: PIdx<T>, ctx: &Ctx) -> Result<(), AllocError>
    requires { HaveBits (length ctx.now) (items_of T.number closed.old.entries) }
    ensures bits { OnOk result
        (HaveBits (length ctx.now) (items_of T.number closed.new.entries)) }
    ensures put { OnOk result (ArePut (λ q. q ≡ T.number pidx.0) ctx.now
        (items_of T.number closed.old.entries) (items_of T.number closed.new.entries)) }
{
    let key = (pidx, SIdx(T::from_usize(0).unwrap()));
    let own = ctx.clone()?;
    // One look-up for an item that isn't there, as most aren't.
    if let Some(mut old) = closed.insert(key, own)? {
        old.or(ctx);
        closed.insert(key, old)?;
    }
    Ok(())
}

/// Adds lookaheads at dot 0 of each production of a rule.
fn put_all<T: IndexStorage>(
    closed: &mut Items<T>,
    grm: &YaccGrammar<T>,
    rule: RIdx<T>,
    ctx: &Ctx,
) -> Result<(), AllocError>
    requires rule { T.number rule.0 < length grm.now.rule_names }
    requires bits { HaveBits (length ctx.now) (items_of T.number closed.old.entries) }
    ensures bits { OnOk result
        (HaveBits (length ctx.now) (items_of T.number closed.new.entries)) }
    ensures put { OnOk result (ArePut (λ q. math.IsProductionOf grm.now q (T.number rule.0))
        ctx.now (items_of T.number closed.old.entries) (items_of T.number closed.new.entries)) }
{
    for pidx in grm.rule_to_prods(rule) {
        put(closed, *pidx, ctx)?;
    }
    Ok(())
}

/// The given items, and what the rows give to the productions of each rule.
pub(crate) fn with_rows<T: IndexStorage>(
    given: &Items<T>,
    grm: &YaccGrammar<T>,
    rows: &[Option<Vob>],
) -> Result<Items<T>, AllocError>
    requires fits { Fits grm.now (items_of T.number given.now.entries) }
    requires rows { AreRows grm.now rows.now }
    ensures fits { IfOk result (λ s. Fits grm.now (items_of T.number s.entries)) }
    ensures rows { IfOk result (λ s.
        AreWithRows grm.now rows.now (items_of T.number given.now.entries)
        (items_of T.number s.entries)) }
{
    let mut closed = given.clone()?;
    for place in 0..usize::from(grm.rules_len()) {
        if let Some(row) = &rows[place] {
            put_all(&mut closed, grm, RIdx(T::from_usize(place).unwrap()), row)?;
        }
    }
    Ok(closed)
}
