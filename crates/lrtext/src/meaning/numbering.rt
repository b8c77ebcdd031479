//! The numbers of the rules and tokens of a document.

ghost use Rattle.std.specs.Prelude.{◌≡◌, map, option_map, filter_map, flat_map, IfOk, OnOk};
ghost use Rattle.lrspec.specs.texts.Names.{first_appearances};
ghost use Rattle.lrtext.specs.NumberedNames.{with_names};
ghost use Rattle.lrspec.specs.texts.Meaning.{rule_names, token_names, declared_names, token_in_body, named_precedence};
ghost use Rattle.lrtext.specs.StoredContents.{name_text_of, line_names_of, body_of, alternative_of, plain_contents};

use crate::contents::{Alternative, Contents, KindLine, NameText};
use crate::meaning::numbers::Numbers;
use std::alloc::{AllocError, Global};

/// The rules by first definition.
pub(super) fn rules<'a>(alloc: Global, contents: &Contents<'a>) -> Result<Numbers<'a>, AllocError>
    ensures { IfOk result (λ n. n ≡ rule_names (plain_contents contents.now)) }
{
    let mut rules = Numbers::new(alloc);
    for alternative in &contents.alternatives {
        rules.add(alternative.rule)?;
    }
    Ok(rules)
}

/// Adds the names of precedence lines.
fn add_lines<'a>(numbers: &mut Numbers<'a>, lines: &[KindLine<'a>]) -> Result<(), AllocError>
    ensures { let names = flat_map line_names_of lines.now in
        OnOk result (numbers.new ≡ with_names numbers.old names) }
{
    for line in lines {
        numbers.add_all(line.names.as_slice())?;
    }
    Ok(())
}

/// The names that the declarations make tokens.
pub(super) fn declared<'a>(
    alloc: Global,
    contents: &Contents<'a>,
) -> Result<Numbers<'a>, AllocError>
    ensures { let names = declared_names (plain_contents contents.now) in
        IfOk result (λ n. n ≡ first_appearances names) }
{
    let mut declared = Numbers::new(alloc);
    declared.add_all(contents.declared.as_slice())?;
    add_lines(&mut declared, contents.kind_lines.as_slice())?;
    Ok(declared)
}

/// The token that a name in a body is, if it is one.
fn token_name<'a>(rules: &Numbers<'a>, name: NameText<'a>) -> Option<&'a str>
    ensures { option_map (λ w. w.now) result ≡ token_in_body rules.now (name_text_of name.entry) }
{
    match name {
        NameText::Plain(name) => {
            if rules.has(name) {
                return None;
            }
            Some(name)
        }
        NameText::InQuotes(name) => Some(name),
    }
}

/// Adds the tokens of a body.
fn add_body<'a>(
    tokens: &mut Numbers<'a>,
    rules: &Numbers<'a>,
    body: &[NameText<'a>],
) -> Result<(), AllocError>
    ensures { let used = filter_map (token_in_body rules.now) (map name_text_of body.now) in
        OnOk result (tokens.new ≡ with_names tokens.old used) }
{
    for name in body {
        if let Some(token) = token_name(rules, *name) {
            tokens.add(token)?;
        }
    }
    Ok(())
}

/// Adds the tokens of all bodies.
fn add_bodies<'a>(
    tokens: &mut Numbers<'a>,
    rules: &Numbers<'a>,
    alternatives: &[Alternative<'a>],
) -> Result<(), AllocError>
    ensures { let used = filter_map (token_in_body rules.now) (flat_map body_of alternatives.now) in
        OnOk result (tokens.new ≡ with_names tokens.old used) }
{
    for alternative in alternatives {
        add_body(tokens, rules, alternative.body.as_slice())?;
    }
    Ok(())
}

/// The name behind the `%prec` of an alternative, if it has one.
pub(super) fn named<'a>(alternative: &Alternative<'a>) -> Option<&'a str>
    ensures { option_map (λ w. w.now) result ≡ named_precedence (alternative_of alternative.now) }
{
    match alternative.precedence {
        Some(NameText::Plain(name) | NameText::InQuotes(name)) => Some(name),
        None => None,
    }
}

/// Adds the names behind `%prec`.
fn add_named<'a>(
    tokens: &mut Numbers<'a>,
    alternatives: &[Alternative<'a>],
) -> Result<(), AllocError>
    ensures { let names = filter_map named_precedence (map alternative_of alternatives.now) in
        OnOk result (tokens.new ≡ with_names tokens.old names) }
{
    for alternative in alternatives {
        if let Some(token) = named(alternative) {
            tokens.add(token)?;
        }
    }
    Ok(())
}

/// The tokens: those of the `%token` lines, then those of bodies, then those of precedence lines,
/// then those behind `%prec`.
pub(super) fn tokens<'a>(
    alloc: Global,
    contents: &Contents<'a>,
    rules: &Numbers<'a>,
) -> Result<Numbers<'a>, AllocError>
    requires { rules.now ≡ rule_names (plain_contents contents.now) }
    ensures { IfOk result (λ n. n ≡ token_names (plain_contents contents.now)) }
{
    let mut tokens = Numbers::new(alloc);
    tokens.add_all(contents.declared.as_slice())?;
    add_bodies(&mut tokens, rules, contents.alternatives.as_slice())?;
    add_lines(&mut tokens, contents.kind_lines.as_slice())?;
    add_named(&mut tokens, contents.alternatives.as_slice())?;
    Ok(tokens)
}
