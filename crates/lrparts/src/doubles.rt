//! Names that are there twice, and levels with two kinds.

ghost use Rattle.std.specs.Prelude.{◌≡◌, ℕ, false, IsTrue, ◌↔◌, IfOk, map};
ghost use Rattle.lrspec.specs.texts.Parts as part;
ghost use Rattle.lrparts.specs.LookUps.{IsOtherKind, IsSameKind};
ghost use Rattle.lrtext.specs.StoredParts.{parts_of};

use lrtext::parts::{AssocKind, GrammarParts};
use std::alloc::{AllocError, Global};
use std::collections::{BTreeMap, HashMap};

/// Whether two names are the same.
fn has_double(alloc: Global, names: &[&str]) -> Result<bool, AllocError>
    ensures { IfOk result (λ b. IsTrue b ↔ part.HasDouble (map (λ n. n.now) names.now)) }
{
    let mut places: HashMap<&str, usize> = HashMap::with_capacity(alloc, names.len())?;
    for i in 0..names.len() {
        if places.insert(names[i], i)?.is_some() {
            return Ok(true);
        }
    }
    Ok(false)
}

/// The names of the rules, without `^`.
fn rule_names<'a>(alloc: Global, parts: &'a GrammarParts) -> Result<Vec<&'a str>, AllocError>
    ensures { IfOk result (λ v. map (λ n. n.now) v.items ≡ (parts_of parts.now).rules) }
{
    let mut names = Vec::new(alloc);
    for name in &parts.rules {
        names.push(name.as_str())?;
    }
    Ok(names)
}

/// The names of the tokens, without the end token.
fn token_names<'a>(alloc: Global, parts: &'a GrammarParts) -> Result<Vec<&'a str>, AllocError>
    ensures { IfOk result
        (λ v. map (λ n. n.now) v.items ≡ part.names_of (parts_of parts.now).tokens) }
{
    let mut names = Vec::new(alloc);
    for token in &parts.tokens {
        names.push(token.name.as_str())?;
    }
    Ok(names)
}

/// Whether two rules or two tokens share a name.
pub(super) fn duplicate_name(alloc: Global, parts: &GrammarParts) -> Result<bool, AllocError>
    ensures { IfOk result (λ b. IsTrue b ↔ part.DuplicateName (parts_of parts.now)) }
{
    let rules = rule_names(alloc, parts)?;
    let in_rules = has_double(alloc, &rules)?;
    if in_rules {
        return Ok(true);
    }
    let tokens = token_names(alloc, parts)?;
    let in_tokens = has_double(alloc, &tokens)?;
    Ok(in_tokens)
}

/// Whether there was a kind, and another one.
fn is_other(old: Option<AssocKind>, kind: AssocKind) -> bool
    ensures other { IsTrue result → IsOtherKind old kind }
    ensures same { result ≡ false → IsSameKind old kind }
{
    match old {
        Some(was) => was != kind,
        None => false,
    }
}

/// Whether two tokens of one level have different kinds.
pub(super) fn mixed_level(alloc: Global, parts: &GrammarParts) -> Result<bool, AllocError>
    ensures { IfOk result (λ b. IsTrue b ↔ part.MixedLevel (parts_of parts.now)) }
{
    let mut kinds: BTreeMap<u64, AssocKind> = BTreeMap::new(alloc);
    for token in &parts.tokens {
        if let Some(precedence) = token.precedence {
            let old = kinds.insert(precedence.level, precedence.kind)?;
            if is_other(old, precedence.kind) {
                return Ok(true);
            }
        }
    }
    Ok(false)
}
