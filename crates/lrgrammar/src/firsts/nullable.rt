//! Nullable rules, by passes over the productions until nothing changes.

ghost use Rattle.std.specs.Prelude.{◌≡◌, ℕ, ◌<◌, false, length, IfOk, IsTrue, ◌↔◌};
ghost use Rattle.lrspec.specs.grammars.Grammar as math;
ghost use Rattle.lrspec.specs.grammars.First.{Nullable};
ghost use Rattle.lrbits.specs.Bits.{bit};
ghost use Rattle.lrgrammar.specs.NullableBits.{all_set, HoldsNullable, IsClosedUnderBodies};
ghost use Rattle.lrbits.specs.Bits.{unset};

use crate::grammar::YaccGrammar;
use crate::idx::{IndexStorage, PIdx, Symbol};
use crate::vob::Vob;
use std::alloc::AllocError;

/// One bit a rule, set where the rule is nullable.
pub(super) fn nullable_rules<T: IndexStorage>(grm: &YaccGrammar<T>) -> Result<Vob, AllocError>
    ensures rules { IfOk result (λ v. length v ≡ length grm.now.rule_names) }
    ensures nullable { IfOk result (λ v. (r : ℕ) → IsTrue (bit v r) ↔ Nullable grm.now r) }
    ensures shape { math.IsGrammar grm.now }
{
    let mut known = Vob::from_elem(grm.allocator(), false, grm.rules_len().0.to_usize())?;
    while grow_nullable(grm, &mut known) {}
    Ok(known)
}

/// Sets the bits of the rules with a body of known rules; says whether a bit was set.
fn grow_nullable<T: IndexStorage>(grm: &YaccGrammar<T>, known: &mut Vob) -> bool
    requires { length known.old ≡ length grm.now.rule_names }
    ensures rules { length known.new ≡ length known.old }
    ensures sound { HoldsNullable grm.now known.old → HoldsNullable grm.now known.new }
    ensures grown { IsTrue result → unset known.new < unset known.old }
    ensures done { result ≡ false → IsClosedUnderBodies grm.now known.new }
{
    let mut grown = false;
    for i in 0..grm.prods_len().0.to_usize() {
        let pidx = PIdx(T::from_usize(i).unwrap());
        let rule = grm.prod_to_rule(pidx).0.to_usize();
        if !known.get(rule) && all_nullable(grm, known, pidx) {
            known.set(rule, true);
            grown = true;
        }
    }
    grown
}

/// Whether the body is of known rules alone.
fn all_nullable<T: IndexStorage>(grm: &YaccGrammar<T>, known: &Vob, pidx: PIdx<T>) -> bool
    requires rules { length known.now ≡ length grm.now.rule_names }
    requires exists { T.number pidx.0 < length grm.now.productions }
    ensures { result ≡ all_set known.now (math.body_of grm.now (T.number pidx.0)) }
{
    for symbol in grm.prod(pidx) {
        match symbol {
            Symbol::Rule(r) => {
                if !known.get(r.0.to_usize()) {
                    return false;
                }
            }
            Symbol::Token(_) => return false,
        }
    }
    true
}
