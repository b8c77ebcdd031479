//! The rules that a rule derives alone in one step: each stands in a body among nullable rules.

ghost use Rattle.std.specs.Prelude.{◌≡◌, ◌<◌, ◌↔◌, [], ◌∷◌, length, map, IfOk, IfSome, IfNone, IsTrue, OnOk, ℕ};
ghost use Rattle.lrspec.specs.grammars.First.{AllNullable};
ghost use Rattle.lrgrammar.specs.Firsts.{AreFirstsOf};
ghost use Rattle.lrgrammar.specs.Symbols.{number_of, symbol_of};
ghost use Rattle.lrkept.specs.Pairs.{StandsAlone, AreAlone, HasAloneOf, KeepsPairs, ArePairsOf, IsAddedAt};

use lrgrammar::firsts::YaccFirsts;
use lrgrammar::grammar::YaccGrammar;
use lrgrammar::idx::{IndexStorage, PIdx, Symbol};
use std::alloc::AllocError;

/// Whether the symbol is a nullable rule.
fn is_nullable(grm: &YaccGrammar<u32>, firsts: &YaccFirsts<u32>, symbol: Symbol<u32>) -> bool
    requires { AreFirstsOf grm.now firsts.now }
    ensures { IsTrue result ↔ AllNullable grm.now (symbol_of number_of symbol ∷ []) }
{
    match symbol {
        Symbol::Token(_) => false,
        Symbol::Rule(ridx) => {
            usize::from(ridx) < usize::from(grm.rules_len()) && firsts.is_epsilon_set(ridx)
        }
    }
}

/// Whether all of the symbols are nullable rules.
fn are_nullable(grm: &YaccGrammar<u32>, firsts: &YaccFirsts<u32>, symbols: &[Symbol<u32>]) -> bool
    requires { AreFirstsOf grm.now firsts.now }
    ensures { IsTrue result ↔ AllNullable grm.now (map (symbol_of number_of) symbols.now) }
{
    for symbol in symbols {
        if !is_nullable(grm, firsts, *symbol) {
            return false;
        }
    }
    true
}

/// The rule that stands at the place in the body among nullable rules, if one does.
fn alone_at(
    grm: &YaccGrammar<u32>,
    firsts: &YaccFirsts<u32>,
    body: &[Symbol<u32>],
    place: usize,
) -> Option<usize>
    requires firsts { AreFirstsOf grm.now firsts.now }
    requires within { place < length body.now }
    ensures some { IfSome result (StandsAlone grm.now (map (symbol_of number_of) body.now) place) }
    ensures none { IfNone result ((s : ℕ)
        → ¬ (StandsAlone grm.now (map (symbol_of number_of) body.now) place s)) }
{
    let Symbol::Rule(ridx) = body[place] else {
        return None;
    };
    if !are_nullable(grm, firsts, &body[..place]) {
        return None;
    }
    if !are_nullable(grm, firsts, &body[place + 1..]) {
        return None;
    }
    Some(usize::from(ridx))
}

/// Adds the rule with the one that stands alone at the place in the body, if one does.
fn add_pair_at(
    pairs: &mut Vec<(usize, usize)>,
    grm: &YaccGrammar<u32>,
    firsts: &YaccFirsts<u32>,
    rule: usize,
    body: &[Symbol<u32>],
    place: usize,
) -> Result<(), AllocError>
    requires firsts { AreFirstsOf grm.now firsts.now }
    requires within { place < length body.now }
    ensures { OnOk result (IsAddedAt grm.now (map (symbol_of number_of) body.now) place rule
        pairs.old.items pairs.new.items) }
{
    let Some(other) = alone_at(grm, firsts, body, place) else {
        return Ok(());
    };
    pairs.push((rule, other))?;
    Ok(())
}

/// Adds the rule of the production with each rule that stands alone in its body.
fn add_pairs(
    pairs: &mut Vec<(usize, usize)>,
    grm: &YaccGrammar<u32>,
    firsts: &YaccFirsts<u32>,
    pidx: PIdx<u32>,
) -> Result<(), AllocError>
    requires firsts { AreFirstsOf grm.now firsts.now }
    requires production { pidx.0 < length grm.now.productions }
    ensures alone { OnOk result
        (AreAlone grm.now pairs.old.items → AreAlone grm.now pairs.new.items) }
    ensures kept { OnOk result (KeepsPairs pairs.old.items pairs.new.items) }
    ensures added { OnOk result (HasAloneOf grm.now pidx.0 pairs.new.items) }
{
    let rule = usize::from(grm.prod_to_rule(pidx));
    let body = grm.prod(pidx);
    for place in 0..body.len() {
        add_pair_at(pairs, grm, firsts, rule, body, place)?;
    }
    Ok(())
}

/// Each rule with each that it derives alone in one step, by their numbers.
pub(crate) fn alone_pairs(grm: &YaccGrammar<u32>) -> Result<Vec<(usize, usize)>, AllocError>
    ensures { IfOk result (λ v. ArePairsOf grm.now v.items) }
{
    let firsts = grm.firsts()?;
    let mut pairs = Vec::new(grm.allocator());
    for number in 0..grm.prods_len().0.to_usize() {
        add_pairs(
            &mut pairs,
            grm,
            &firsts,
            PIdx(u32::from_usize(number).unwrap()),
        )?;
    }
    Ok(pairs)
}
