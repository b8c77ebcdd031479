//! The grammar of a file by its parts, with its precedences or without them.

ghost use Rattle.std.specs.Prelude.{◌≡◌, ◌-◌, ◌^◌, map, IfOk, IfErr};
ghost use Rattle.std.specs.String.{string_bytes};
ghost use Rattle.lrtext.specs.StoredParts.{parts_of, token_of, part_production_of};
ghost use Rattle.lrparts.specs.Refusals.{IsRefusedBy};
ghost use Rattle.lrfindings.specs.FileGrammars.{IsGrammarOfFile, parts_in_force, without_precedence, without_precedences};

use lrgrammar::grammar::{GrammarError, GrammarParts, PartProd, PartToken, YaccGrammar};
use lryacc::FileGrammar;
use std::alloc::{AllocError, Global};

/// The names of the rules.
fn rules(alloc: Global, names: &[String]) -> Result<Vec<String>, AllocError>
    ensures { IfOk result (λ v. map string_bytes v.items ≡ map string_bytes names.now) }
{
    let mut rules = Vec::new(alloc);
    for name in names {
        rules.push(name.clone()?)?;
    }
    Ok(rules)
}

/// The tokens without their precedences.
fn tokens(alloc: Global, parts: &[PartToken]) -> Result<Vec<PartToken>, AllocError>
    ensures { IfOk result (λ v. map token_of v.items
        ≡ map without_precedence (map token_of parts.now)) }
{
    let mut tokens = Vec::new(alloc);
    for token in parts {
        tokens.push(PartToken {
            name: token.name.clone()?,
            precedence: None,
        })?;
    }
    Ok(tokens)
}

/// The productions.
fn productions(alloc: Global, parts: &[PartProd]) -> Result<Vec<PartProd>, AllocError>
    ensures { IfOk result (λ v. map part_production_of v.items
        ≡ map part_production_of parts.now) }
{
    let mut productions = Vec::new(alloc);
    for prod in parts {
        productions.push(PartProd {
            rule: prod.rule,
            symbols: prod.symbols.iter().copied().collect(alloc)?,
            precedence: prod.precedence,
        })?;
    }
    Ok(productions)
}

/// The same parts, but no token has a precedence.
fn bare(alloc: Global, parts: &GrammarParts) -> Result<GrammarParts, AllocError>
    ensures { IfOk result (λ p. parts_of p ≡ without_precedences (parts_of parts.now)) }
{
    Ok(GrammarParts {
        rules: rules(alloc, parts.rules.as_slice())?,
        tokens: tokens(alloc, parts.tokens.as_slice())?,
        prods: productions(alloc, parts.prods.as_slice())?,
        start: parts.start,
    })
}

/// The grammar of a file, with its precedences or without them.
pub(crate) fn grammar_of(
    alloc: Global,
    file: &FileGrammar,
    has_precedences: bool,
) -> Result<YaccGrammar<u32>, GrammarError>
    ensures made { IfOk result (IsGrammarOfFile (2 ^ 32 - 1) file.now has_precedences) }
    ensures refused { IfErr result
        (IsRefusedBy (2 ^ 32 - 1) (parts_in_force file.now has_precedences)) }
{
    if has_precedences {
        return YaccGrammar::from_parts(alloc, &file.parts);
    }
    match bare(alloc, &file.parts) {
        Ok(parts) => YaccGrammar::from_parts(alloc, &parts),
        Err(_) => Err(GrammarError::Memory),
    }
}
