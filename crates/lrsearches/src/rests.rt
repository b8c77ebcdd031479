//! What comes behind a rule in a body.

ghost use Rattle.std.specs.Prelude.{◌≡◌, ◌<◌, ◌≤◌, length};
ghost use Rattle.lrspec.specs.grammars.Grammar as math;
ghost use Rattle.lrgrammar.specs.Firsts.{AreFirstsOf};
ghost use Rattle.lrsearches.specs.Rests.{IsRest, IsRestBehind};

use lrclosing::items::dot_behind;
use lrgrammar::firsts::YaccFirsts;
use lrgrammar::grammar::YaccGrammar;
use lrgrammar::idx::{IndexStorage, PIdx, RIdx, SIdx, Symbol, TIdx};

/// What the symbols behind a rule are to a token.
#[derive(Clone, Copy)]
pub(crate) enum Rest {
    /// They can begin with it.
    Begins,
    /// They cannot, but are nullable.
    Nullable,
    /// Neither.
    Neither,
}

/// What the symbols from place `from` on are to the token.
fn rest_from<T: IndexStorage>(
    grm: &YaccGrammar<T>,
    firsts: &YaccFirsts<T>,
    pidx: PIdx<T>,
    from: usize,
    token: TIdx<T>,
) -> Rest
    requires of { AreFirstsOf grm.now firsts.now }
    requires production { T.number pidx.0 < length grm.now.productions }
    requires place { from ≤ length (math.body_of grm.now (T.number pidx.0)) }
    requires token { T.number token.0 < math.token_count grm.now }
    ensures { IsRest grm.now (math.rest grm.now (T.number pidx.0) from) (T.number token.0) result }
{
    for symbol in &grm.prod(pidx)[from..] {
        match symbol {
            Symbol::Token(tidx) => {
                return if *tidx == token {
                    Rest::Begins
                } else {
                    Rest::Neither
                };
            }
            Symbol::Rule(ridx) => {
                if firsts.firsts(*ridx).get(usize::from(token)) {
                    return Rest::Begins;
                }
                if !firsts.is_epsilon_set(*ridx) {
                    return Rest::Neither;
                }
            }
        }
    }
    Rest::Nullable
}

/// What the symbols behind the rule are to the token, where the item stands before the rule; neither where it does not.
pub(crate) fn rest_behind<T: IndexStorage>(
    grm: &YaccGrammar<T>,
    firsts: &YaccFirsts<T>,
    item: (PIdx<T>, SIdx<T>),
    rule: RIdx<T>,
    token: TIdx<T>,
) -> Rest
    requires of { AreFirstsOf grm.now firsts.now }
    requires production { T.number item.0.0 < length grm.now.productions }
    requires token { T.number token.0 < math.token_count grm.now }
    ensures { IsRestBehind grm.now (T.number item.0.0) (T.number item.1.0) (T.number rule.0)
        (T.number token.0) result }
{
    match dot_behind(grm, item.0, item.1, &Symbol::Rule(rule)) {
        Some(next) => rest_from(grm, firsts, item.0, usize::from(next), token),
        None => Rest::Neither,
    }
}
