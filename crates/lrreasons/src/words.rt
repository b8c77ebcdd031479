//! The words of texts.

ghost use Rattle.std.specs.Prelude.{◌≡◌, ◌++◌, ◌∷◌, [], map, IfOk, OnOk};
ghost use Rattle.std.specs.String.{string_bytes};
ghost use Rattle.lrspec.specs.grammars.Grammar as math;
ghost use Rattle.lrspec.specs.texts.PrintedTexts as printed;
ghost use Rattle.lrgrammar.specs.Symbols.{number_of, symbol_of};
ghost use Rattle.lrreasons.specs.Words.{words_of, first_words, last_words, with_dot};

use crate::names::{rule_name, token_name};
use lrgrammar::grammar::YaccGrammar;
use lrgrammar::idx::{Symbol, TIdx};
use std::alloc::{AllocError, Global};

/// On either side of a dot so many words are shown at the most.
const MOST: usize = 24;

/// A rule's name, or a token's between quotes.
pub(crate) fn symbol_word(grm: &YaccGrammar<u32>, symbol: Symbol<u32>) -> Result<String, AllocError>
    ensures { IfOk result
        (λ s. string_bytes s ≡ printed.symbol_text grm.now (symbol_of number_of symbol)) }
{
    match symbol {
        Symbol::Rule(rule) => String::from_str(grm.allocator(), rule_name(grm, rule)),
        Symbol::Token(token) => {
            let name = token_name(grm, token);
            format!(in grm.allocator(); "'{name}'")
        }
    }
}

/// Adds a word.
pub(crate) fn push_word(words: &mut Vec<String>, word: &str) -> Result<(), AllocError>
    ensures { OnOk result (map string_bytes words.new.items
        ≡ map string_bytes words.old.items ++ word.now ∷ []) }
{
    let added = String::from_str(*words.allocator(), word)?;
    words.push(added)?;
    Ok(())
}

/// Adds the words of symbols.
pub(crate) fn push_symbols(
    words: &mut Vec<String>,
    grm: &YaccGrammar<u32>,
    symbols: &[Symbol<u32>],
) -> Result<(), AllocError>
    ensures { OnOk result (map string_bytes words.new.items ≡ map string_bytes words.old.items
        ++ words_of grm.now (map (symbol_of number_of) symbols.now)) }
{
    for symbol in symbols {
        let word = symbol_word(grm, *symbol)?;
        words.push(word)?;
    }
    Ok(())
}

/// Adds the last words of symbols, behind three points where there are more.
fn push_last(
    words: &mut Vec<String>,
    grm: &YaccGrammar<u32>,
    symbols: &[Symbol<u32>],
) -> Result<(), AllocError>
    ensures { OnOk result (map string_bytes words.new.items ≡ map string_bytes words.old.items
        ++ last_words (words_of grm.now (map (symbol_of number_of) symbols.now))) }
{
    if symbols.len() <= MOST {
        return push_symbols(words, grm, symbols);
    }
    let (_, shown) = symbols.split_at(symbols.len() - MOST);
    push_word(words, "...")?;
    push_symbols(words, grm, shown)
}

/// Adds the first words of symbols, before three points where there are more.
pub(crate) fn push_first(
    words: &mut Vec<String>,
    grm: &YaccGrammar<u32>,
    symbols: &[Symbol<u32>],
) -> Result<(), AllocError>
    ensures { OnOk result (map string_bytes words.new.items ≡ map string_bytes words.old.items
        ++ first_words (words_of grm.now (map (symbol_of number_of) symbols.now))) }
{
    if symbols.len() <= MOST {
        return push_symbols(words, grm, symbols);
    }
    let (shown, _) = symbols.split_at(MOST);
    push_symbols(words, grm, shown)?;
    push_word(words, "...")
}

/// The words of symbols with a dot behind so many of them.
pub(crate) fn words_with_dot(
    grm: &YaccGrammar<u32>,
    symbols: &[Symbol<u32>],
    dot: usize,
) -> Result<Vec<String>, AllocError>
    ensures { IfOk result (λ ws. map string_bytes ws.items
        ≡ with_dot dot (words_of grm.now (map (symbol_of number_of) symbols.now))) }
{
    let (before, behind) = symbols.split_at(dot.min(symbols.len()));
    let mut words = Vec::new(grm.allocator());
    push_last(&mut words, grm, before)?;
    push_word(&mut words, ".")?;
    push_first(&mut words, grm, behind)?;
    Ok(words)
}

/// Tokens as symbols.
pub(crate) fn symbols_of(
    alloc: Global,
    tokens: &[TIdx<u32>],
) -> Result<Vec<Symbol<u32>>, AllocError>
    ensures { IfOk result (λ v. map (symbol_of number_of) v.items
        ≡ map (λ t. math.Token t.0) tokens.now) }
{
    let mut symbols = Vec::new(alloc);
    for token in tokens {
        symbols.push(Symbol::Token(*token))?;
    }
    Ok(symbols)
}
