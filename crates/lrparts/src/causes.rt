//! The causes of refusal, one test each. Of those that depend on the greatest index it is `most`.

ghost use Rattle.std.specs.Prelude.{◌≡◌, ◌≢◌, ℕ, false, IsTrue, ◌↔◌, Err, IfOk, OnOk, IfErr, Any, map};
ghost use Rattle.lrspec.specs.texts.Parts as part;
ghost use Rattle.lrtext.specs.StoredParts.{parts_of, part_production_of};
ghost use Rattle.lrparts.specs.UsedRules.{AreUsed};
ghost use Rattle.lrparts.specs.Refusals.{IsRefusedBy, NoEarlyCause};
ghost use Rattle.lrparts.specs.declared.errors.GrammarError.TheVariants.{Memory};

use crate::doubles::{duplicate_name, mixed_level};
use crate::errors::GrammarError;
use lrtext::parts::{GrammarParts, PartProd, PartSymbol};
use std::alloc::{AllocError, Global};

/// Whether the rules and `^` are too many.
fn too_many_rules(parts: &GrammarParts, most: usize) -> bool
    ensures { IsTrue result ↔ part.TooManyRules most (parts_of parts.now) }
{
    parts.rules.len() >= most
}

/// Whether the tokens and the end token are too many.
fn too_many_tokens(parts: &GrammarParts, most: usize) -> bool
    ensures { IsTrue result ↔ part.TooManyTokens most (parts_of parts.now) }
{
    parts.tokens.len() >= most
}

/// Whether the productions and the start production are too many.
fn too_many_productions(parts: &GrammarParts, most: usize) -> bool
    ensures { IsTrue result ↔ part.TooManyProductions most (parts_of parts.now) }
{
    parts.prods.len() >= most
}

/// Whether a body has too many symbols.
fn body_too_long(parts: &GrammarParts, most: usize) -> bool
    ensures { IsTrue result ↔ part.BodyTooLong most (parts_of parts.now) }
{
    for prod in &parts.prods {
        if prod.symbols.len() > most {
            return true;
        }
    }
    false
}

/// Whether a production names a rule or a token that is in no list.
fn symbol_out_of_range(parts: &GrammarParts) -> bool
    ensures { IsTrue result ↔ part.SymbolOutOfRange (parts_of parts.now) }
{
    for prod in &parts.prods {
        if has_out_of_range(parts, prod) {
            return true;
        }
    }
    false
}

/// Whether the rule of the production, a symbol of its body or the token that it names for its
/// precedence is in no list.
fn has_out_of_range(parts: &GrammarParts, prod: &PartProd) -> bool
    ensures { IsTrue result
        ↔ part.HasOutOfRange (parts_of parts.now) (part_production_of prod.now) }
{
    prod.rule >= parts.rules.len()
        || has_symbol_out_of_range(parts, prod)
        || is_named_out_of_range(parts, prod.precedence)
}

/// Whether the token that is named for a precedence, if one is, is in no list.
fn is_named_out_of_range(parts: &GrammarParts, named: Option<usize>) -> bool
    ensures { IsTrue result ↔ part.IsNamedOutOfRange (parts_of parts.now) named }
{
    match named {
        Some(t) => t >= parts.tokens.len(),
        None => false,
    }
}

/// Whether a symbol of the body is in no list.
fn has_symbol_out_of_range(parts: &GrammarParts, prod: &PartProd) -> bool
    ensures { IsTrue result
        ↔ Any (part.IsOutOfRange (parts_of parts.now)) (part_production_of prod.now).body }
{
    for symbol in &prod.symbols {
        let outside = match symbol {
            PartSymbol::Rule(r) => *r >= parts.rules.len(),
            PartSymbol::Token(t) => *t >= parts.tokens.len(),
        };
        if outside {
            return true;
        }
    }
    false
}

/// For each rule whether it has a production.
fn used_rules(alloc: Global, parts: &GrammarParts) -> Result<Vec<bool>, AllocError>
    ensures { IfOk result (λ v. AreUsed parts.now v.items) }
{
    let mut used = vec![in alloc; false; parts.rules.len()]?;
    for prod in &parts.prods {
        if prod.rule < used.len() {
            used[prod.rule] = true;
        }
    }
    Ok(used)
}

/// Whether a rule has no production.
fn empty_rule(alloc: Global, parts: &GrammarParts) -> Result<bool, AllocError>
    ensures { IfOk result (λ b. IsTrue b ↔ part.EmptyRule (parts_of parts.now)) }
{
    let used = used_rules(alloc, parts)?;
    for is_used in &used {
        if !*is_used {
            return Ok(true);
        }
    }
    Ok(false)
}

/// Whether a rule is named `^`.
fn reserved_name(parts: &GrammarParts) -> bool
    ensures { IsTrue result ↔ part.ReservedName (parts_of parts.now) }
{
    for name in &parts.rules {
        if name.as_str() == "^" {
            return true;
        }
    }
    false
}

/// Whether the start rule is in no list.
fn no_start(parts: &GrammarParts) -> bool
    ensures { IsTrue result ↔ part.NoStart (parts_of parts.now) }
{
    parts.start >= parts.rules.len()
}

/// Answers the first of the causes that are found without memory, if one of them holds.
fn refuse_before_memory(parts: &GrammarParts, most: usize) -> Result<(), GrammarError>
    ensures free { OnOk result (NoEarlyCause most (parts_of parts.now)) }
    ensures refused { IfErr result (IsRefusedBy most (parts_of parts.now)) }
    ensures no_memory { result ≢ Err Memory }
{
    if too_many_rules(parts, most) {
        return Err(GrammarError::TooManyRules);
    }
    if too_many_tokens(parts, most) {
        return Err(GrammarError::TooManyTokens);
    }
    if too_many_productions(parts, most) {
        return Err(GrammarError::TooManyProductions);
    }
    if body_too_long(parts, most) {
        return Err(GrammarError::BodyTooLong);
    }
    if symbol_out_of_range(parts) {
        return Err(GrammarError::SymbolOutOfRange);
    }
    Ok(())
}

/// Answers the first cause of refusal that holds, if one does, where `most` is the greatest index.
/// `Memory` says that memory was refused, and may come in place of any answer but the first five
/// causes, which are found before memory is asked for.
pub fn refuse(alloc: Global, parts: &GrammarParts, most: usize) -> Result<(), GrammarError>
    ensures free { OnOk result (part.NoCause most (parts_of parts.now)) }
    ensures refused { IfErr result (IsRefusedBy most (parts_of parts.now)) }
    ensures memory { result ≡ Err Memory → NoEarlyCause most (parts_of parts.now) }
{
    refuse_before_memory(parts, most)?;
    let is_empty = empty_rule(alloc, parts)?;
    if is_empty {
        return Err(GrammarError::EmptyRule);
    }
    if reserved_name(parts) {
        return Err(GrammarError::ReservedName);
    }
    let is_double = duplicate_name(alloc, parts)?;
    if is_double {
        return Err(GrammarError::DuplicateName);
    }
    let is_mixed = mixed_level(alloc, parts)?;
    if is_mixed {
        return Err(GrammarError::MixedLevel);
    }
    if no_start(parts) {
        return Err(GrammarError::NoStart);
    }
    Ok(())
}
