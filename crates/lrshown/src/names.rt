//! The names of a file's symbols.

ghost use Rattle.std.specs.Prelude.{◌≡◌, map, IfOk};
ghost use Rattle.lrshown.specs.ShownTexts.{chosen_in_body, chosen_by, shown_list};
ghost use Rattle.lrshown.specs.ShownTexts.{behind_choice, without_end, shown_text};
ghost use Rattle.lrshown.specs.DrawnTrees.{body};
ghost use Rattle.lrshown.specs.BracketTexts.{token_text, rule_text, symbol_text, production_text};

use lrgrammar::grammar::PartSymbol;
use lryacc::FileGrammar;
use std::alloc::{AllocError, Global};

/// The name of a token; `$end` for the one behind all of the file.
pub fn token_name(file: &FileGrammar, token: usize) -> &str
    ensures { result.now ≡ token_text file.now token }
{
    match file.parts.tokens.get(token) {
        Some(token) => token.name.as_str(),
        None => "$end",
    }
}

/// The name of a rule; empty for what is none.
pub fn rule_name(file: &FileGrammar, rule: usize) -> &str
    ensures { result.now ≡ rule_text file.now rule }
{
    match file.parts.rules.get(rule) {
        Some(name) => name.as_str(),
        None => "",
    }
}

/// The name of a symbol.
pub fn symbol_name(file: &FileGrammar, symbol: PartSymbol) -> &str
    ensures { result.now ≡ symbol_text file.now symbol }
{
    match symbol {
        PartSymbol::Rule(rule) => rule_name(file, rule),
        PartSymbol::Token(token) => token_name(file, token),
    }
}

/// The symbols of the body of a production.
pub fn body_of(file: &FileGrammar, production: usize) -> &[PartSymbol]
    ensures { result.now ≡ body file.now production }
{
    match file.parts.prods.get(production) {
        Some(prod) => prod.symbols.as_slice(),
        None => &[],
    }
}

/// The names of symbols, one for each, in their order.
pub fn names_of<'a>(
    alloc: Global,
    file: &'a FileGrammar,
    symbols: &[PartSymbol],
) -> Result<Vec<&'a str>, AllocError>
    ensures names { IfOk result (λ v.
        map (λ n. n.now) v.items ≡ map (symbol_text file.now) symbols.now) }
{
    let mut names = Vec::new(alloc);
    for symbol in symbols {
        names.push(symbol_name(file, *symbol))?;
    }
    Ok(names)
}

/// The names of tokens, one for each, in their order.
pub fn names_of_tokens<'a>(
    alloc: Global,
    file: &'a FileGrammar,
    tokens: &[usize],
) -> Result<Vec<&'a str>, AllocError>
    ensures names { IfOk result (λ v.
        map (λ n. n.now) v.items ≡ map (token_text file.now) tokens.now) }
{
    let mut names = Vec::new(alloc);
    for token in tokens {
        names.push(token_name(file, *token))?;
    }
    Ok(names)
}

/// The name of the rule of a production; empty for what is none.
pub fn name_of_rule(file: &FileGrammar, production: usize) -> &str
    ensures { result.now ≡ production_text file.now production }
{
    match file.parts.prods.get(production) {
        Some(prod) => rule_name(file, prod.rule),
        None => "",
    }
}

/// The start rule in a body of `$accept` that begins with this symbol, where the rule has a token of its own.
fn start_in(symbols: &[PartSymbol], symbol: Option<PartSymbol>) -> Option<PartSymbol>
    ensures { result ≡ chosen_in_body symbols.now symbol }
{
    match symbols {
        [first, rule, _] if symbol == Some(*first) => Some(*rule),
        _ => None,
    }
}

/// The start rule that has a token of its own, where there are several: the one that has this symbol. `chosen_by` says which one
/// that is by the productions of the file.
pub fn start_of(file: &FileGrammar, symbol: Option<PartSymbol>) -> Option<PartSymbol>
    ensures { result ≡ chosen_by file.now symbol }
{
    for prod in &file.parts.prods {
        if prod.rule != 0 {
            return None;
        }
        let start = start_in(prod.symbols.as_slice(), symbol);
        if start.is_some() {
            return start;
        }
    }
    None
}

/// The symbols of a list that stand in the file: not the token of the start rule, which comes first where there are several. No
/// other is left out.
pub fn list_of<'a>(file: &FileGrammar, list: &'a [PartSymbol]) -> &'a [PartSymbol]
    ensures { result.now ≡ shown_list file.now list.now }
{
    match list.split_first() {
        Some((first, behind)) if start_of(file, Some(*first)).is_some() => behind,
        _ => list,
    }
}

/// The tokens of a text behind the one that chooses its start rule, if its first one does.
fn behind_start<'a>(file: &FileGrammar, tokens: &'a [usize]) -> &'a [usize]
    ensures { result.now ≡ behind_choice file.now tokens.now }
{
    match tokens.split_first() {
        Some((first, behind)) if start_of(file, Some(PartSymbol::Token(*first))).is_some() =>
            behind,
        _ => tokens,
    }
}

/// The tokens of a text before the one that ends it, if its last one does.
#[tactic(auto, using(crate::proofs::TextEnds::ended, crate::proofs::TextEnds::not_ended))]
fn before_end(tokens: &[usize]) -> &[usize]
    ensures { result.now ≡ without_end tokens.now }
{
    match tokens.split_last() {
        Some((last, text)) if *last == 0 => text,
        _ => tokens,
    }
}

/// The tokens of a text that stand in the file: neither that of the start rule, which comes first where there are several, nor
/// the one that ends the text. No other is left out: what is shown is the text but for these two.
pub fn text_of<'a>(file: &FileGrammar, tokens: &'a [usize]) -> &'a [usize]
    ensures { result.now ≡ shown_text file.now tokens.now }
{
    before_end(behind_start(file, tokens))
}
