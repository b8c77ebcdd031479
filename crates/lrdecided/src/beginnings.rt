//! With what symbols begin.

ghost use Rattle.std.specs.Prelude.{◌≡◌, IfOk, IfSome};
ghost use Rattle.lrgrammar.specs.Firsts.{AreFirstsOf};
ghost use Rattle.lrdecided.specs.Beginnings.{BeginsWithin};
ghost use Rattle.lrdecided.specs.StoredNodes.{symbols_of};

use lrgrammar::firsts::YaccFirsts;
use lrgrammar::grammar::YaccGrammar;
use lrgrammar::idx::Symbol;
use lrgrammar::vob::Vob;
use std::alloc::AllocError;

/// The tokens with which texts of the symbols begin, one bit a token; None where such a text may be empty, or where a symbol
/// isn't one of the grammar.
pub(crate) fn beginning(
    grm: &YaccGrammar<u32>,
    firsts: &YaccFirsts<u32>,
    symbols: &[Symbol<u32>],
) -> Result<Option<Vob>, AllocError>
    requires { AreFirstsOf grm.now firsts.now }
    ensures { IfOk result (λ o. IfSome o (λ v. BeginsWithin grm.now (symbols_of symbols.now) v)) }
{
    let rules = usize::from(grm.rules_len());
    let mut tokens = Vob::from_elem(grm.allocator(), false, usize::from(grm.tokens_len()))?;
    for symbol in symbols {
        match symbol {
            Symbol::Token(tidx) => {
                let token = usize::from(*tidx);
                if token >= tokens.len() {
                    return Ok(None);
                }
                tokens.set(token, true);
                return Ok(Some(tokens));
            }
            Symbol::Rule(ridx) => {
                let rule = usize::from(*ridx);
                if rule >= rules {
                    return Ok(None);
                }
                tokens.or(firsts.firsts(*ridx));
                if !firsts.is_epsilon_set(*ridx) {
                    return Ok(Some(tokens));
                }
            }
        }
    }
    Ok(None)
}
