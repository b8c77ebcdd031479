//! The names that texts have for what a grammar is made of, and for what it doesn't have.

ghost use Rattle.std.specs.Prelude.{◌≡◌, map, IfOk};
ghost use Rattle.std.specs.String.{string_bytes};
ghost use Rattle.lrspec.specs.grammars.Grammar as math;
ghost use Rattle.lrspec.specs.texts.PrintedTexts as printed;
ghost use Rattle.lrgrammar.specs.Symbols.{number_of, symbol_of};

use lrgrammar::grammar::YaccGrammar;
use lrgrammar::idx::{PIdx, RIdx, Symbol, TIdx};
use std::alloc::AllocError;

/// The name of a token; `$` for the end token, and for what is none.
pub(crate) fn token_name(grm: &YaccGrammar<u32>, token: TIdx<u32>) -> &str
    ensures { result.now ≡ printed.token_name grm.now token.0 }
{
    if usize::from(token) < usize::from(grm.tokens_len()) {
        grm.token_name(token).unwrap_or("$")
    } else {
        "$"
    }
}

/// The name of a rule; empty for what is none.
pub(crate) fn rule_name(grm: &YaccGrammar<u32>, rule: RIdx<u32>) -> &str
    ensures { result.now ≡ printed.rule_name grm.now rule.0 }
{
    if usize::from(rule) < usize::from(grm.rules_len()) {
        grm.rule_name_str(rule)
    } else {
        ""
    }
}

/// The name of a production's rule; that of rule 0 for what is none.
pub(crate) fn name_of_rule(grm: &YaccGrammar<u32>, production: PIdx<u32>) -> &str
    ensures { result.now
        ≡ printed.rule_name grm.now (math.rule_of grm.now production.0) }
{
    if usize::from(production) < usize::from(grm.prods_len()) {
        grm.rule_name_str(grm.prod_to_rule(production))
    } else {
        "^"
    }
}

/// The body of a production; empty for what is none.
pub(crate) fn body(grm: &YaccGrammar<u32>, production: PIdx<u32>) -> &[Symbol<u32>]
    ensures { map (symbol_of number_of) result.now
        ≡ math.body_of grm.now production.0 }
{
    if usize::from(production) < usize::from(grm.prods_len()) {
        grm.prod(production)
    } else {
        &[]
    }
}

/// The text of a production, as that of conflicts has it; of what is none that of rule 0 with nothing behind it.
pub(crate) fn production_text(
    grm: &YaccGrammar<u32>,
    production: PIdx<u32>,
) -> Result<String, AllocError>
    ensures { IfOk result
        (λ s. string_bytes s ≡ printed.production_text grm.now production.0) }
{
    if usize::from(production) < usize::from(grm.prods_len()) {
        grm.pp_prod(production)
    } else {
        String::from_str(grm.allocator(), "^:")
    }
}
