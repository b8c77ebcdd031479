//! The precedences of tokens and productions.

ghost use Rattle.std.specs.Prelude.{◌≡◌, ℕ, ◌<◌, IsTrue, ◌↔◌, IsSome, None, Any, length, map};
ghost use Rattle.std.specs.Option.{option_map};
ghost use Rattle.lrspec.specs.grammars.Grammar as math;
ghost use Rattle.lrtext.specs.StoredParts.{precedence_of};
ghost use Rattle.lrgrammar.specs.Symbols.{symbol_of};

use crate::grammar::{Precedence, YaccGrammar};
use crate::idx::{IndexStorage, PIdx, Symbol, TIdx};

/// The last token of a body.
fn last_token<T: IndexStorage>(body: &[Symbol<T>]) -> Option<TIdx<T>>
    ensures { option_map (λ t. T.number t.0) result
        ≡ math.last_token_or None (map (symbol_of T.number) body.now) }
{
    let mut last = None;
    for symbol in body {
        match symbol {
            Symbol::Rule(_) => {}
            Symbol::Token(tidx) => last = Some(*tidx),
        }
    }
    last
}

impl<T: IndexStorage> YaccGrammar<T> {
    /// The precedence at a place, None past the end.
    fn precedence_at(&self, place: usize) -> Option<Precedence>
        ensures { option_map precedence_of result ≡ math.token_precedence self.now place }
    {
        match self.token_precedences.get(place) {
            Some(precedence) => *precedence,
            None => None,
        }
    }

    /// The token that gives a production its precedence: the one that it names, or else the last
    /// one of its body.
    fn precedence_token(&self, pidx: PIdx<T>) -> Option<TIdx<T>>
        requires { T.number pidx.0 < length self.now.productions }
        ensures { let p = T.number pidx.0 in option_map (λ t. T.number t.0) result
            ≡ math.named_or_last (math.named_token_of self.now p) (math.body_of self.now p) }
    {
        match self.prods[pidx.0.to_usize()].precedence {
            Some(named) => Some(named),
            None => last_token(self.prod(pidx)),
        }
    }

    /// The precedence of a token, if it has one. The end token has none.
    pub fn token_precedence(&self, tidx: TIdx<T>) -> Option<Precedence>
        requires { T.number tidx.0 < math.token_count self.now }
        ensures { option_map precedence_of result
            ≡ math.token_precedence self.now (T.number tidx.0) }
    {
        self.precedence_at(tidx.0.to_usize())
    }

    /// The precedence of a production, which is that of the token that it names by `%prec`, or else
    /// of the last token in its body. It has none where that token has none, or where it names none
    /// and its body has no token.
    pub fn prod_precedence(&self, pidx: PIdx<T>) -> Option<Precedence>
        requires { T.number pidx.0 < length self.now.productions }
        ensures { option_map precedence_of result
            ≡ math.production_precedence self.now (T.number pidx.0) }
    {
        match self.precedence_token(pidx) {
            Some(tidx) => self.precedence_at(tidx.0.to_usize()),
            None => None,
        }
    }

    /// Whether some token has a precedence.
    pub fn has_precedences(&self) -> bool
        ensures { IsTrue result ↔ Any IsSome self.now.token_precedences }
    {
        for precedence in &self.token_precedences {
            if precedence.is_some() {
                return true;
            }
        }
        false
    }
}
