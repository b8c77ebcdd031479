//! From what a document says to the parts of its grammar.

ghost use Rattle.std.specs.Prelude.{◌≡◌, [], map, option_map, string_bytes, IfOk, OnOk, IfErr};
ghost use Rattle.lrspec.specs.texts.Meaning.{token_in, symbol_in, production_in, start_in, named_precedence, rule_names, unknown_names};
ghost use Rattle.lrspec.specs.texts.Names.{place_of};
ghost use Rattle.lrtext.specs.NumberedNames.{names_of};
ghost use Rattle.lrtext.specs.StoredParts.{token_of, part_symbol_of, part_production_of, parts_of};
ghost use Rattle.lrtext.specs.StoredContents.{name_text_of, alternative_of, starts_of, plain_contents};
ghost use Rattle.lrtext.specs.StoredLevels.{leveled_of, leveled_names};
ghost use Rattle.lrtext.specs.MeantParts.{numbered_parts, AreMeant, IsCauseIn};
ghost use Rattle.lrtext.specs.declared.reader.ReadError.TheVariants.{Memory};

mod numbering;
mod numbers;
mod precedences;
mod unknown;

use crate::contents::{Alternative, Contents, NameText};
use crate::meaning::numbering::{declared, named, rules, tokens};
use crate::meaning::numbers::Numbers;
use crate::meaning::precedences::{Leveled, distinct, find_precedence, levels};
use crate::meaning::unknown::first_unknown;
use crate::parts::{GrammarParts, PartProd, PartSymbol, PartToken};
use crate::reader::ReadError;
use std::alloc::{AllocError, Global};

/// The names as text of their own.
fn own_names(alloc: Global, names: &[&str]) -> Result<Vec<String>, AllocError>
    ensures { IfOk result (λ v. map string_bytes v.items ≡ names_of names.now) }
{
    let mut own = Vec::with_capacity(alloc, names.len())?;
    for name in names {
        own.push(String::from_str(alloc, name)?)?;
    }
    Ok(own)
}

/// The tokens with their precedences.
fn part_tokens<'a>(
    alloc: Global,
    names: &[&'a str],
    numbers: &Numbers<'a>,
    leveled: &[Leveled<'a>],
) -> Result<Vec<PartToken>, AllocError>
    requires { numbers.now ≡ leveled_names leveled.now }
    ensures { let meant = map (token_in (map leveled_of leveled.now)) (names_of names.now) in
        IfOk result (λ v. map token_of v.items ≡ meant) }
{
    let mut tokens = Vec::with_capacity(alloc, names.len())?;
    for token in names {
        let name = String::from_str(alloc, token)?;
        let precedence = find_precedence(numbers, leveled, token);
        tokens.push(PartToken { name, precedence })?;
    }
    Ok(tokens)
}

/// The symbol that a name in a body means.
fn symbol<'a>(rules: &Numbers<'a>, tokens: &Numbers<'a>, name: NameText<'a>) -> PartSymbol
    ensures { part_symbol_of result ≡ symbol_in rules.now tokens.now (name_text_of name.entry) }
{
    match name {
        NameText::Plain(name) => match rules.find(name) {
            Some(rule) => PartSymbol::Rule(rule),
            None => PartSymbol::Token(tokens.place(name)),
        },
        NameText::InQuotes(name) => PartSymbol::Token(tokens.place(name)),
    }
}

/// The symbols of a body.
fn symbols<'a>(
    alloc: Global,
    rules: &Numbers<'a>,
    tokens: &Numbers<'a>,
    body: &[NameText<'a>],
) -> Result<Vec<PartSymbol>, AllocError>
    ensures { let meant = map (symbol_in rules.now tokens.now) (map name_text_of body.now) in
        IfOk result (λ v. map part_symbol_of v.items ≡ meant) }
{
    let mut symbols = Vec::with_capacity(alloc, body.len())?;
    for name in body {
        symbols.push(symbol(rules, tokens, *name))?;
    }
    Ok(symbols)
}

/// The place of the token that an alternative names for its precedence, if it names one.
fn precedence<'a>(tokens: &Numbers<'a>, alternative: &Alternative<'a>) -> Option<usize>
    ensures { let said = named_precedence (alternative_of alternative.now) in
        result ≡ option_map (place_of tokens.now) said }
{
    match named(alternative) {
        Some(token) => Some(tokens.place(token)),
        None => None,
    }
}

/// The productions, one for each alternative.
fn prods<'a>(
    alloc: Global,
    rules: &Numbers<'a>,
    tokens: &Numbers<'a>,
    alternatives: &[Alternative<'a>],
) -> Result<Vec<PartProd>, AllocError>
    ensures { let said = map alternative_of alternatives.now in
        let meant = map (production_in rules.now tokens.now) said in
        IfOk result (λ v. map part_production_of v.items ≡ meant) }
{
    let mut prods = Vec::with_capacity(alloc, alternatives.len())?;
    for alternative in alternatives {
        let rule = rules.place(alternative.rule);
        let symbols = symbols(alloc, rules, tokens, alternative.body.as_slice())?;
        let precedence = precedence(tokens, alternative);
        prods.push(PartProd {
            rule,
            symbols,
            precedence,
        })?;
    }
    Ok(prods)
}

/// The rule of `%start`, or else the first.
fn start<'a>(rules: &Numbers<'a>, name: Option<&'a str>) -> usize
    ensures { result ≡ start_in rules.now (starts_of name.entry) }
{
    match name {
        Some(name) => rules.place(name),
        None => 0,
    }
}

/// Refuses a document with a name that nothing defines: `UnknownSymbol` of the first; or `Memory`
/// where memory was refused.
fn refuse_unknown<'a>(
    alloc: Global,
    contents: &Contents<'a>,
    rules: &Numbers<'a>,
) -> Result<(), ReadError>
    requires { rules.now ≡ rule_names (plain_contents contents.now) }
    ensures ok { OnOk result (unknown_names (plain_contents contents.now) ≡ []) }
    ensures err { IfErr result (IsCauseIn (plain_contents contents.now)) }
{
    let declared = declared(alloc, contents)?;
    match first_unknown(rules, &declared, contents) {
        Some(name) => Err(ReadError::UnknownSymbol(String::from_str(alloc, name)?)),
        None => Ok(()),
    }
}

/// The parts, by the rules and tokens, and by the names that have a level, with their numbers.
fn numbered_parts<'a>(
    alloc: Global,
    contents: &Contents<'a>,
    rules: &Numbers<'a>,
    tokens: &Numbers<'a>,
    numbers: &Numbers<'a>,
    leveled: &[Leveled<'a>],
) -> Result<GrammarParts, ReadError>
    requires { numbers.now ≡ leveled_names leveled.now }
    ensures ok { let levels = map leveled_of leveled.now in
        let meant = numbered_parts (plain_contents contents.now) rules.now tokens.now levels in
        IfOk result (λ p. parts_of p ≡ meant) }
    ensures err { IfErr result (λ e. e ≡ Memory) }
{
    Ok(GrammarParts {
        rules: own_names(alloc, rules.names())?,
        tokens: part_tokens(alloc, tokens.names(), numbers, leveled)?,
        prods: prods(alloc, rules, tokens, contents.alternatives.as_slice())?,
        start: start(rules, contents.start),
    })
}

/// The parts of the grammar that a document means. The error is `UnknownSymbol` of the first name
/// that nothing defines; or else `DuplicatePrecedence` of the first name that comes again in
/// precedence lines; or `Memory` where memory was refused.
pub(crate) fn grammar_parts(
    alloc: Global,
    contents: &Contents<'_>,
) -> Result<GrammarParts, ReadError>
    ensures ok { IfOk result (λ p. AreMeant (plain_contents contents.now) (parts_of p)) }
    ensures err { IfErr result (IsCauseIn (plain_contents contents.now)) }
{
    let rules = rules(alloc, contents)?;
    refuse_unknown(alloc, contents, &rules)?;
    let leveled = levels(alloc, contents)?;
    let numbers = distinct(alloc, leveled.as_slice())?;
    let tokens = tokens(alloc, contents, &rules)?;
    numbered_parts(
        alloc,
        contents,
        &rules,
        &tokens,
        &numbers,
        leveled.as_slice(),
    )
}
