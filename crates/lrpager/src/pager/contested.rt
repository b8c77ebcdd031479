//! Whether a closed state is contested.

ghost use Rattle.lrspec.specs.grammars.ItemSets.{Fits, AreUpwards};
ghost use Rattle.lritems.specs.ItemsOf.{listed_of};

use lrgrammar::grammar::YaccGrammar;
use lrgrammar::idx::{IndexStorage, PIdx, SIdx, Symbol};
use lrgrammar::vob::Vob;
use lritems::gotos::Goto;
use lritems::itemset::Ctx;
use std::alloc::AllocError;

/// Whether a state with these gotos leads on by one of the tokens.
fn is_shifted<T: IndexStorage>(tokens: &Vob, gotos: &[(Symbol<T>, Goto<'_, T>)]) -> bool {
    for (symbol, _goto) in gotos {
        if let Symbol::Token(tidx) = symbol {
            let token = usize::from(*tidx);
            if token < tokens.len() && tokens.get(token) {
                return true;
            }
        }
    }
    false
}

/// Whether a closed state with these items and gotos is contested: at some token two of its complete items look, or one does and
/// the state leads on by it. It stays so where lookaheads are added to its items.
pub(crate) fn is_contested<T: IndexStorage>(
    grm: &YaccGrammar<T>,
    closed: &[((PIdx<T>, SIdx<T>), &Ctx)],
    gotos: &[(Symbol<T>, Goto<'_, T>)],
) -> Result<bool, AllocError>
    requires fits { Fits grm.now (listed_of T.number closed.now) }
    requires upwards { AreUpwards (listed_of T.number closed.now) }
{
    let mut tokens = Vob::from_elem(grm.allocator(), false, usize::from(grm.tokens_len()))?;
    for (key, ctx) in closed {
        if key.1 == grm.prod_len(key.0) {
            if tokens.intersects(ctx) {
                return Ok(true);
            }
            tokens.or(ctx);
        }
    }
    Ok(is_shifted(&tokens, gotos))
}
