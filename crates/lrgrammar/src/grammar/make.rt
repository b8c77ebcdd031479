//! A grammar from its parts or from a text.

ghost use Rattle.std.specs.Prelude.{◌≡◌, ℕ, ◌+◌, ◌<◌, ◌≤◌, ◌∷◌, Err, IfOk, OnOk, IfErr, IfSome, map, codes, All};
ghost use Rattle.std.specs.String.{string_bytes};
ghost use Rattle.std.specs.Option.{option_map};
ghost use Rattle.lrspec.specs.texts.Parts as part;
ghost use Rattle.lrtext.specs.StoredParts.{parts_of, part_symbol_of, precedence_of};
ghost use Rattle.lrparts.specs.Refusals.{IsRefusedBy, NoEarlyCause};
ghost use Rattle.lrparts.specs.declared.errors.GrammarError.TheVariants.{Memory};
ghost use Rattle.lrgrammar.specs.PartNumbers.{part_number, AreSmall};
ghost use Rattle.lrgrammar.specs.Symbols.{symbol_of};
ghost use Rattle.lrgrammar.specs.StoredGrammar.{production_of};
ghost use Rattle.lrparts.specs.TextErrors.{IsGrammarOf, IsTextError};

use crate::grammar::lists::{places, production_lists};
use crate::grammar::{
    GrammarError, GrammarParts, PartProd, PartSymbol, Precedence, Production, TextError,
    YaccGrammar,
};
use crate::idx::{IndexStorage, PIdx, RIdx, Symbol, TIdx};
use lrparts::causes::refuse;
use lrtext::reader::read_parts;
use std::alloc::{AllocError, Global};

/// The names of the rules, `^` first.
fn rule_names(alloc: Global, parts: &GrammarParts) -> Result<Vec<String>, AllocError>
    ensures { IfOk result
        (λ v. map string_bytes v.items ≡ codes "^" ∷ (parts_of parts.now).rules) }
{
    let mut names = Vec::new(alloc);
    names.push(String::from_str(alloc, "^")?)?;
    for name in &parts.rules {
        names.push(name.clone()?)?;
    }
    Ok(names)
}

/// The names of the tokens.
fn token_names(alloc: Global, parts: &GrammarParts) -> Result<Vec<String>, AllocError>
    ensures { IfOk result
        (λ v. map string_bytes v.items ≡ part.names_of (parts_of parts.now).tokens) }
{
    let mut names = Vec::new(alloc);
    for token in &parts.tokens {
        names.push(token.name.clone()?)?;
    }
    Ok(names)
}

/// The precedences of the tokens.
fn token_precedences(
    alloc: Global,
    parts: &GrammarParts,
) -> Result<Vec<Option<Precedence>>, AllocError>
    ensures { IfOk result (λ v. map (option_map precedence_of) v.items
        ≡ part.precedences_of (parts_of parts.now).tokens) }
{
    let mut precedences = Vec::new(alloc);
    for token in &parts.tokens {
        precedences.push(token.precedence)?;
    }
    Ok(precedences)
}

/// A symbol by its number: rules are one further on, after `^`.
fn numbered<T: IndexStorage>(symbol: &PartSymbol) -> Symbol<T>
    requires { part_number symbol.now ≤ T.MAX }
    ensures { symbol_of T.number result ≡ part.shifted (part_symbol_of symbol.now) }
{
    match symbol {
        PartSymbol::Rule(r) => Symbol::Rule(RIdx(T::from_usize(*r + 1).unwrap())),
        PartSymbol::Token(t) => Symbol::Token(TIdx(T::from_usize(*t).unwrap())),
    }
}

/// The body of a production.
fn body<T: IndexStorage>(alloc: Global, prod: &PartProd) -> Result<Vec<Symbol<T>>, AllocError>
    requires { All (λ s. part_number s ≤ T.MAX) prod.now.symbols.items }
    ensures { IfOk result (λ v. map (symbol_of T.number) v.items
        ≡ map part.shifted (map part_symbol_of prod.now.symbols.items)) }
{
    let mut symbols = Vec::new(alloc);
    for symbol in &prod.symbols {
        symbols.push(numbered(symbol))?;
    }
    Ok(symbols)
}

/// The start production: `^` is the start rule.
fn start_production<T: IndexStorage>(
    alloc: Global,
    parts: &GrammarParts,
) -> Result<Production<T>, AllocError>
    requires { parts.now.start + 1 ≤ T.MAX }
    ensures { IfOk result
        (λ p. production_of T.number p ≡ part.start_production_of (parts_of parts.now)) }
{
    let rule = RIdx(T::from_usize(0).unwrap());
    let mut body = Vec::new(alloc);
    body.push(Symbol::Rule(RIdx(T::from_usize(parts.start + 1).unwrap())))?;
    Ok(Production {
        rule,
        body,
        precedence: None,
    })
}

/// The token that a production names for its precedence.
fn named_token<T: IndexStorage>(prod: &PartProd) -> Option<TIdx<T>>
    requires { IfSome prod.now.precedence (λ t. t ≤ T.MAX) }
    ensures { option_map (λ t. T.number t.0) result ≡ prod.now.precedence }
{
    match prod.precedence {
        Some(t) => Some(TIdx(T::from_usize(t).unwrap())),
        None => None,
    }
}

/// The productions, the start production last.
fn productions<T: IndexStorage>(
    alloc: Global,
    parts: &GrammarParts,
) -> Result<Vec<Production<T>>, AllocError>
    requires { AreSmall T.MAX parts.now }
    ensures { IfOk result (λ v. map (production_of T.number) v.items
        ≡ (part.grammar_of_parts (parts_of parts.now)).productions) }
{
    let mut prods = Vec::new(alloc);
    for prod in &parts.prods {
        let rule = RIdx(T::from_usize(prod.rule + 1).unwrap());
        let body = body(alloc, prod)?;
        let precedence = named_token(prod);
        prods.push(Production {
            rule,
            body,
            precedence,
        })?;
    }
    prods.push(start_production(alloc, parts)?)?;
    Ok(prods)
}

/// The grammar of parts that nothing stands against.
fn grammar_from<T: IndexStorage>(
    alloc: Global,
    parts: &GrammarParts,
) -> Result<YaccGrammar<T>, AllocError>
    requires { part.NoCause T.MAX (parts_of parts.now) }
    ensures { IfOk result (λ g. g ≡ part.grammar_of_parts (parts_of parts.now)) }
{
    let rule_names = rule_names(alloc, parts)?;
    let token_names = token_names(alloc, parts)?;
    let token_precedences = token_precedences(alloc, parts)?;
    let prods = productions(alloc, parts)?;
    let start = PIdx(T::from_usize(parts.prods.len()).unwrap());
    let rule_prods = production_lists(alloc, &prods, rule_names.len())?;
    let rule_places = places(alloc, &rule_names)?;
    let token_places = places(alloc, &token_names)?;
    Ok(YaccGrammar {
        rule_names,
        token_names,
        token_precedences,
        prods,
        start,
        rule_prods,
        rule_places,
        token_places,
    })
}

impl<T: IndexStorage> YaccGrammar<T> {
    /// The grammar of the parts: rule 0 is `^`, rule `k + 1` is place `k` of the rules, tokens and
    /// productions have the numbers of their places, and the end token and the start production
    /// come last. Where a cause of refusal holds, the first one is answered. `Memory` says that
    /// memory was refused, and may come in place of any answer but the first five causes, which
    /// are found before memory is asked for.
    pub fn from_parts(alloc: Global, parts: &GrammarParts) -> Result<YaccGrammar<T>, GrammarError>
        ensures made { IfOk result (λ g. g ≡ part.grammar_of_parts (parts_of parts.now)) }
        ensures free { OnOk result (part.NoCause T.MAX (parts_of parts.now)) }
        ensures refused { IfErr result (IsRefusedBy T.MAX (parts_of parts.now)) }
        ensures memory { result ≡ Err Memory → NoEarlyCause T.MAX (parts_of parts.now) }
    {
        refuse(alloc, parts, T::MAX)?;
        let grammar = grammar_from(alloc, parts)?;
        Ok(grammar)
    }

    /// The grammar of a text. The error is `Syntax` where the text is no document, with the place
    /// of its first lexeme that may not come, in bytes from 0, or else its length where it ends too
    /// early; or else `UnknownSymbol` of the first name that nothing defines; or else
    /// `DuplicatePrecedence` of the first name that comes again in precedence lines; or else
    /// `Grammar` with the first cause for which `from_parts` refuses the parts; or `Memory` where
    /// memory was refused, which may come in place of any.
    pub fn from_text(alloc: Global, text: &str) -> Result<YaccGrammar<T>, TextError>
        ensures ok { IfOk result (IsGrammarOf T.MAX text.now) }
        ensures err { IfErr result (IsTextError T.MAX text.now) }
    {
        let parts = read_parts(alloc, text)?;
        Ok(YaccGrammar::from_parts(alloc, &parts)?)
    }
}
