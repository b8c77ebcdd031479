//! Grammars.

ghost use Rattle.std.specs.Prelude.{◌≡◌, ℕ, ◌+◌, ◌<◌, ◌≤◌, Bool, List, length, map, slice_get, option_map, Some, Contains, IfSome, IfNone};
ghost use Rattle.std.specs.List.{All, range_with_len};
ghost use Rattle.std.specs.Str.{IsUtf8};
ghost use Rattle.lrspec.specs.texts.Parts.{HasDouble};
ghost use Rattle.lrspec.specs.grammars.Grammar as math;
ghost use Rattle.lrgrammar.specs.Symbols.{symbol_of};
ghost use Rattle.lrgrammar.specs.GrammarSizes.{IsWithin};

mod lists;
mod make;
mod precedences;
mod texts;
mod tidxs;

use crate::idx::{IndexStorage, PIdx, RIdx, SIdx, Symbol, TIdx};
pub use lrparts::errors::{GrammarError, TextError};
pub use lrtext::parts::{AssocKind, GrammarParts, PartProd, PartSymbol, PartToken, Precedence};
use std::alloc::Global;
use std::collections::HashMap;
use std::marker::Model;
pub use tidxs::TIdxIterator;

/// A production: its rule, its body, and the token that it names for its precedence.
#[derive(Drop)]
struct Production<T> {
    rule: RIdx<T>,
    body: Vec<Symbol<T>>,
    precedence: Option<TIdx<T>>,
}

/// A grammar. Rule 0 is `^`, whose one production comes last and has the start rule as its body;
/// the end token comes last of the tokens.
#[derive(Drop)]
pub struct YaccGrammar<T: IndexStorage> {
    rule_names: Vec<String>,
    token_names: Vec<String>,
    token_precedences: Vec<Option<Precedence>>,
    prods: Vec<Production<T>>,
    start: PIdx<T>,
    rule_prods: Vec<Vec<PIdx<T>>>,
    rule_places: HashMap<String, usize>,
    token_places: HashMap<String, usize>,
}

impl<T: IndexStorage> Model for YaccGrammar<T> {
    ghost use Rattle.std.specs.Prelude.{◌≡◌};
    ghost use Rattle.lrspec.specs.grammars.Grammar.{Grammar};

    ghost Value = { Grammar };

    ghost use Rattle.lrgrammar.specs.StoredGrammar.{grammar_of, IsStored};

    ghost view = { grammar_of T.number };

    ghost invariant = { IsStored T.number T.MAX };
}

impl<T: IndexStorage> YaccGrammar<T> {
    /// The memory in which the grammar lies, for what is made beside it.
    pub fn allocator(&self) -> Global
        ensures shape { math.IsGrammar self.now }
        ensures texts { All IsUtf8 self.now.token_names }
    {
        *self.prods.allocator()
    }

    /// What a grammar keeps: it is one, and the numbers of its parts fit into the index type. It does nothing, and is there for
    /// proofs.
    pub fn in_order(&self)
        ensures shape { math.IsGrammar self.now }
        ensures sizes { IsWithin T.MAX self.now }
    {
        let _ = self.prods.len();
    }

    /// The number of rules, `^` among them.
    pub fn rules_len(&self) -> RIdx<T>
        ensures value { T.number result.0 ≡ length self.now.rule_names }
        ensures shape { math.IsGrammar self.now }
        ensures sizes { IsWithin T.MAX self.now }
    {
        RIdx(T::from_usize(self.rule_names.len()).unwrap())
    }

    /// The number of tokens, the end token among them.
    pub fn tokens_len(&self) -> TIdx<T>
        ensures value { T.number result.0 ≡ math.token_count self.now }
        ensures shape { math.IsGrammar self.now }
        ensures sizes { IsWithin T.MAX self.now }
    {
        TIdx(T::from_usize(self.token_names.len() + 1).unwrap())
    }

    /// The number of productions, the start production among them.
    pub fn prods_len(&self) -> PIdx<T>
        ensures value { T.number result.0 ≡ length self.now.productions }
        ensures shape { math.IsGrammar self.now }
        ensures sizes { IsWithin T.MAX self.now }
    {
        PIdx(T::from_usize(self.prods.len()).unwrap())
    }

    /// The body of a production.
    pub fn prod(&self, pidx: PIdx<T>) -> &[Symbol<T>]
        requires { T.number pidx.0 < length self.now.productions }
        ensures body { map (symbol_of T.number) result.now
            ≡ math.body_of self.now (T.number pidx.0) }
        ensures shape { math.IsGrammar self.now }
        ensures sizes { IsWithin T.MAX self.now }
    {
        self.prods[pidx.0.to_usize()].body.as_slice()
    }

    /// The number of symbols in the body of a production.
    pub fn prod_len(&self, pidx: PIdx<T>) -> SIdx<T>
        requires { T.number pidx.0 < length self.now.productions }
        ensures { T.number result.0 ≡ length (math.body_of self.now (T.number pidx.0)) }
    {
        SIdx(T::from_usize(self.prod(pidx).len()).unwrap())
    }

    /// The rule of a production.
    pub fn prod_to_rule(&self, pidx: PIdx<T>) -> RIdx<T>
        requires { T.number pidx.0 < length self.now.productions }
        ensures rule { math.IsProductionOf self.now (T.number pidx.0) (T.number result.0) }
        ensures shape { math.IsGrammar self.now }
    {
        self.prods[pidx.0.to_usize()].rule
    }

    /// The productions of a rule, upwards; of rule 0 the start production alone.
    pub fn rule_to_prods(&self, ridx: RIdx<T>) -> &[PIdx<T>]
        requires { T.number ridx.0 < length self.now.rule_names }
        ensures prods { map (λ p. T.number p.0) result.now
            ≡ math.productions_of self.now (T.number ridx.0) }
        ensures shape { math.IsGrammar self.now }
        ensures sizes { IsWithin T.MAX self.now }
    {
        self.rule_prods[ridx.0.to_usize()].as_slice()
    }

    /// The start production.
    pub fn start_prod(&self) -> PIdx<T>
        ensures { T.number result.0 ≡ self.now.start_production }
    {
        self.start
    }

    /// The end token, which comes last and has no name.
    pub fn eof_token_idx(&self) -> TIdx<T>
        ensures { T.number result.0 ≡ math.end_token self.now }
    {
        TIdx(T::from_usize(self.token_names.len()).unwrap())
    }

    /// The name of a rule.
    pub fn rule_name_str(&self, ridx: RIdx<T>) -> &str
        requires { T.number ridx.0 < length self.now.rule_names }
        ensures { Some result.now ≡ slice_get self.now.rule_names (T.number ridx.0) }
    {
        self.rule_names[ridx.0.to_usize()].as_str()
    }

    /// The name of a token; None for the end token.
    pub fn token_name(&self, tidx: TIdx<T>) -> Option<&str>
        requires { T.number tidx.0 < math.token_count self.now }
        ensures { option_map (λ s. s.now) result
            ≡ slice_get self.now.token_names (T.number tidx.0) }
    {
        match self.token_names.get(tidx.0.to_usize()) {
            Some(name) => Some(name.as_str()),
            None => None,
        }
    }

    /// The rule of a name; None where there is none.
    pub fn rule_idx(&self, name: &str) -> Option<RIdx<T>>
        ensures place { IfSome result
            (λ r. slice_get self.now.rule_names (T.number r.0) ≡ Some name.now) }
        ensures missing { IfNone result (¬ (Contains self.now.rule_names name.now)) }
        ensures apart { ¬ (HasDouble self.now.rule_names) }
    {
        match self.rule_places.get(name) {
            Some(place) => Some(RIdx(T::from_usize(*place).unwrap())),
            None => None,
        }
    }

    /// The token of a name; None where there is none. A rule and a token may share a name.
    pub fn token_idx(&self, name: &str) -> Option<TIdx<T>>
        ensures place { IfSome result
            (λ t. slice_get self.now.token_names (T.number t.0) ≡ Some name.now) }
        ensures missing { IfNone result (¬ (Contains self.now.token_names name.now)) }
        ensures apart { ¬ (HasDouble self.now.token_names) }
    {
        match self.token_places.get(name) {
            Some(place) => Some(TIdx(T::from_usize(*place).unwrap())),
            None => None,
        }
    }

    /// All tokens upwards, the end token last.
    pub fn iter_tidxs(&self) -> TIdxIterator<T>
        ensures { result ≡ range_with_len 0 (math.token_count self.now) }
    {
        TIdxIterator::new(self.token_names.len() + 1)
    }
}
