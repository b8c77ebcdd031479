//! Whether no rule of a grammar derives itself alone.

ghost use Rattle.std.specs.Prelude.{◌≡◌, false, ℕ, IfOk, IsTrue};
ghost use Rattle.lrkept.specs.Acyclicity.{DerivesAlone, IsAcyclic};
ghost use Rattle.lrkept.specs.Exactness.{IsExactWhereKept, IsExactWhereKeptButAtErrors};

use crate::alone::alone_pairs;
use crate::peeling::can_be_ranked;
use lrgrammar::grammar::YaccGrammar;
use lrgrammar::idx::IndexStorage;
use std::alloc::AllocError;

/// Whether no rule of the grammar derives itself alone, in one step or more: then rules have ranks that fall from each to those
/// that it derives alone, and else they have none. A table of such a grammar is exact if all is kept that its cells don't take.
pub fn is_acyclic(grm: &YaccGrammar<u32>) -> Result<bool, AllocError>
    ensures acyclic { IfOk result (λ b. IsTrue b → IsAcyclic grm.now) }
    ensures no_cycle { IfOk result (λ b. IsTrue b → (r : ℕ) → ¬ (DerivesAlone grm.now r r)) }
    ensures kept { IfOk result (λ b. IsTrue b → IsExactWhereKept grm.now) }
    ensures kept_but_at_errors { IfOk result (λ b. IsTrue b
        → IsExactWhereKeptButAtErrors grm.now) }
    ensures cyclic { IfOk result (λ b. b ≡ false → ¬ (IsAcyclic grm.now)) }
{
    let pairs = alone_pairs(grm)?;
    let is = can_be_ranked(
        grm.allocator(),
        pairs.as_slice(),
        grm.rules_len().0.to_usize(),
    )?;
    Ok(is)
}
