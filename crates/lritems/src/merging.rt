//! Pager's weak compatibility (1977) of cores with gotos, and merging.

ghost use Rattle.std.specs.Prelude.{◌≡◌, ◌≢◌, ℕ, ◌<◌, Bool, List, true, false, length, Some, slice_get, slice_set, IsTrue, IsSomeAnd, ◌↔◌};
ghost use Rattle.lrspec.specs.grammars.ItemSets.{AreUpwards};
ghost use Rattle.lrspec.specs.merging.WeakCompatibility.{SameItems, IsWeaklyCompatible, Clash};
ghost use Rattle.lrbits.specs.Bits.{union};
ghost use Rattle.lritems.specs.ItemsOf.{Agree};
ghost use Rattle.lritems.specs.Gotos.{items_in};
ghost use Rattle.lritems.specs.Merging.{CanTakeIn, TookIn, HaveEquallyManyBits, HaveSameKeys, BitsPass, BitsClash, PassesWithLater, Gains};

use crate::cores::Core;
use crate::gotos::Goto;
use crate::itemset::Ctx;
use lrgrammar::idx::IndexStorage;

/// Whether a goto has the items of a core and no others, in the same order, whatever their lookaheads.
fn has_same_items<T: IndexStorage>(a: &Core<T>, b: &Goto<T>) -> bool
    ensures same { IsTrue result ↔ HaveSameKeys a.now (items_in T.number b.now) }
    ensures upwards { AreUpwards a.now }
{
    if !b.has_len(a.items.len()) {
        return false;
    }
    for k in 0..a.items.len() {
        if a.items[k].0 != b.item(k).0 {
            return false;
        }
    }
    true
}

/// Whether two items pass, by their lookaheads in the core and in the goto.
fn pair_passes(a_i: &Ctx, a_j: &Ctx, b_i: &Ctx, b_j: &Ctx) -> bool
    requires first { length a_j.now ≡ length a_i.now }
    requires second { length b_i.now ≡ length a_i.now }
    requires third { length b_j.now ≡ length a_i.now }
    ensures yes { IsTrue result → BitsPass a_i.now a_j.now b_i.now b_j.now }
    ensures no { result ≡ false → BitsClash a_i.now a_j.now b_i.now b_j.now }
{
    if !a_i.intersects(b_j) && !b_i.intersects(a_j) {
        return true;
    }
    a_i.intersects(a_j) || b_i.intersects(b_j)
}

/// Whether the item at a place passes with each item behind it, by their lookaheads in the core and in the goto, which
/// have the same items.
fn passes_with_later<T: IndexStorage>(a: &Core<T>, b: &Goto<T>, place: usize) -> bool
    requires place { place < length a.now }
    requires items { HaveSameKeys a.now (items_in T.number b.now) }
    requires upwards { AreUpwards (items_in T.number b.now) }
    requires bits { HaveEquallyManyBits a.now (items_in T.number b.now) }
    ensures yes { IsTrue result → PassesWithLater a.now (items_in T.number b.now) place }
    ensures no { result ≡ false → Clash a.now (items_in T.number b.now) }
{
    let a_i = &a.items[place].1;
    let b_i = b.item(place).1;
    for j in place + 1..a.items.len() {
        let a_j = &a.items[j].1;
        // Items that share a token in `a` pass, as most do that are many.
        if a_i.intersects(a_j) {
            continue;
        }
        if !pair_passes(a_i, a_j, b_i, b.item(j).1) {
            return false;
        }
    }
    true
}

/// Whether the goto may be merged into the core, by Pager's weak compatibility: they have the same items, and of every two
/// items no token of the one in `a` is one of the other in `b`, or they share a token in `a`, or in `b`. So two items meet in
/// the union only where they met already, and merging brings no conflict that the grammar hasn't.
pub fn weakly_compatible<T: IndexStorage>(a: &Core<T>, b: &Goto<T>) -> bool
    requires bits { HaveEquallyManyBits a.now (items_in T.number b.now) }
    requires upwards { AreUpwards (items_in T.number b.now) }
    ensures compatible { IsTrue result ↔ IsWeaklyCompatible a.now (items_in T.number b.now) }
    ensures clash { result ≡ false → SameItems a.now (items_in T.number b.now)
        → Clash a.now (items_in T.number b.now) }
{
    if !has_same_items(a, b) {
        return false;
    }
    for i in 0..a.items.len() {
        if !passes_with_later(a, b, i) {
            return false;
        }
    }
    true
}

/// Joins the lookaheads to those of the item at a place, and says whether that changed them.
fn merge_at<T: IndexStorage>(core: &mut Core<T>, place: usize, ctx: &Ctx) -> bool
    requires { IsSomeAnd (slice_get core.old place) (λ e. length ctx.now ≡ length e.1) }
    ensures here { (e : (ℕ × ℕ) × List Bool) → slice_get core.old place ≡ Some e
        → core.new ≡ slice_set core.old place (e.0, union e.1 ctx.now) }
    ensures changed { (e : (ℕ × ℕ) × List Bool) → slice_get core.old place ≡ Some e
        → (IsTrue result ↔ (union e.1 ctx.now ≢ e.1)) }
{
    core.items[place].1.or(ctx)
}

/// Makes the core its union with the goto, which has the same items, and says whether that changed it. Takes no
/// memory.
pub fn weakly_merge<T: IndexStorage>(core: &mut Core<T>, other: &Goto<T>) -> bool
    requires { CanTakeIn core.old (items_in T.number other.now) }
    ensures taken { TookIn core.old (items_in T.number other.now) core.new }
    ensures same { result ≡ false → Agree core.new core.old }
    ensures grew { result ≡ true → Gains core.old core.new }
{
    let mut changed = false;
    for k in 0..core.items.len() {
        changed |= merge_at(core, k, other.item(k).1);
    }
    changed
}
