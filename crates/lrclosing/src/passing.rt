//! What an item passes on to the productions of the rule behind its dot.

ghost use Rattle.std.specs.Prelude.{◌≡◌, ◌<◌, ◌≤◌, ◌↔◌, length, IfOk, IfSome, IsTrue, None, Some};
ghost use Rattle.std.specs.Option.{option_copied};
ghost use Rattle.lrspec.specs.grammars.Grammar as math;
ghost use Rattle.lrspec.specs.grammars.First.{AllNullable};
ghost use Rattle.lrgrammar.specs.Firsts.{AreFirstsOf};
ghost use Rattle.lrclosing.specs.Rows.{ArePassedOn, HasGrown};

use crate::items::Ctx;
use lrgrammar::firsts::YaccFirsts;
use lrgrammar::grammar::YaccGrammar;
use lrgrammar::idx::{IndexStorage, PIdx, Symbol};
use lrgrammar::vob::Vob;
use std::alloc::AllocError;

/// What came of setting in a row the tokens that begin the rest of a body.
#[derive(Clone, Copy)]
pub(crate) struct Begun {
    /// Whether that changed a bit.
    pub(crate) changed: bool,
    /// Whether all of the rest is nullable.
    pub(crate) is_nullable: bool,
}

/// Sets the tokens that begin the body of the production from a place on.
pub(crate) fn put_firsts<T: IndexStorage>(
    row: &mut Ctx,
    grm: &YaccGrammar<T>,
    firsts: &YaccFirsts<T>,
    pidx: PIdx<T>,
    from: usize,
) -> Begun
    requires of { AreFirstsOf grm.now firsts.now }
    requires production { T.number pidx.0 < length grm.now.productions }
    requires place { from ≤ length (math.body_of grm.now (T.number pidx.0)) }
    requires len { length row.old ≡ math.token_count grm.now }
    ensures put { ArePassedOn grm.now (math.rest grm.now (T.number pidx.0) from) None
        (Some row.old) row.new }
    ensures changed { HasGrown (math.token_count grm.now) result.changed (Some row.old) row.new }
    ensures nullable { IsTrue result.is_nullable
        ↔ AllNullable grm.now (math.rest grm.now (T.number pidx.0) from) }
{
    let mut changed = false;
    for symbol in &grm.prod(pidx)[from..] {
        match symbol {
            Symbol::Token(token) => {
                return Begun {
                    changed: row.set(usize::from(*token), true) | changed,
                    is_nullable: false,
                };
            }
            Symbol::Rule(rule) => {
                changed |= row.or(firsts.firsts(*rule));
                if !firsts.is_epsilon_set(*rule) {
                    return Begun {
                        changed,
                        is_nullable: false,
                    };
                }
            }
        }
    }
    Begun {
        changed,
        is_nullable: true,
    }
}

/// Sets the tokens that an item passes on to the productions of the rule before place `from`: those that begin the
/// rest of its body, and where that is nullable those of `ctx`, if there are any. Answers whether that changed a bit.
fn pass_on<T: IndexStorage>(
    row: &mut Ctx,
    grm: &YaccGrammar<T>,
    firsts: &YaccFirsts<T>,
    pidx: PIdx<T>,
    from: usize,
    ctx: Option<&Ctx>,
) -> bool
    requires of { AreFirstsOf grm.now firsts.now }
    requires production { T.number pidx.0 < length grm.now.productions }
    requires place { from ≤ length (math.body_of grm.now (T.number pidx.0)) }
    requires len { length row.old ≡ math.token_count grm.now }
    requires ctx_len { IfSome (option_copied ctx) (λ v. length v ≡ math.token_count grm.now) }
    ensures passed { ArePassedOn grm.now (math.rest grm.now (T.number pidx.0) from)
        (option_copied ctx.entry) (Some row.old) row.new }
    ensures changed { HasGrown (math.token_count grm.now) result (Some row.old) row.new }
{
    let begun = put_firsts(row, grm, firsts, pidx, from);
    if !begun.is_nullable {
        return begun.changed;
    }
    match ctx {
        Some(own) => row.or(own) | begun.changed,
        None => begun.changed,
    }
}

/// The row of a rule with what an item before the rule passes on, and whether that changed the row or made it.
pub(crate) fn passed_on<T: IndexStorage>(
    row: Option<Ctx>,
    grm: &YaccGrammar<T>,
    firsts: &YaccFirsts<T>,
    pidx: PIdx<T>,
    from: usize,
    ctx: Option<&Ctx>,
) -> Result<(Ctx, bool), AllocError>
    requires of { AreFirstsOf grm.now firsts.now }
    requires production { T.number pidx.0 < length grm.now.productions }
    requires place { from ≤ length (math.body_of grm.now (T.number pidx.0)) }
    requires len { IfSome row (λ v. length v ≡ math.token_count grm.now) }
    requires ctx_len { IfSome (option_copied ctx) (λ v. length v ≡ math.token_count grm.now) }
    ensures passed { IfOk result (λ x. ArePassedOn grm.now
        (math.rest grm.now (T.number pidx.0) from) (option_copied ctx.entry) row x.0) }
    ensures changed { IfOk result (λ x. HasGrown (math.token_count grm.now) x.1 row x.0) }
{
    match row {
        Some(mut old) => {
            let changed = pass_on(&mut old, grm, firsts, pidx, from, ctx);
            Ok((old, changed))
        }
        None => {
            let mut made = Vob::from_elem(grm.allocator(), false, usize::from(grm.tokens_len()))?;
            pass_on(&mut made, grm, firsts, pidx, from, ctx);
            Ok((made, true))
        }
    }
}
