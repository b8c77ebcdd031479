//! The texts of items.

ghost use Rattle.std.specs.Prelude.{◌≡◌, ◌<◌, ◌++◌, OnOk, length, map};
ghost use Rattle.std.specs.List.{join_by};
ghost use Rattle.std.specs.String.{string_bytes};
ghost use Rattle.lrspec.specs.grammars.Grammar as math;
ghost use Rattle.lrspec.specs.grammars.ItemSets.{FitsAt, Fits, AreUpwards};
ghost use Rattle.lrspec.specs.texts.PrintedTexts.{token_text, symbol_text, spaced, looks_text, item_text};
ghost use Rattle.lrgrammar.specs.Symbols.{symbol_of};
ghost use Rattle.lritems.specs.ItemsOf.{set_of};

use crate::itemset::{Ctx, Itemset};
use lrgrammar::grammar::YaccGrammar;
use lrgrammar::idx::{IndexStorage, PIdx, SIdx, Symbol, TIdx};
use std::alloc::AllocError;

/// Adds a token's name between quotes; `$` is that of the end token.
fn push_token<T: IndexStorage>(
    text: &mut String,
    grm: &YaccGrammar<T>,
    tidx: TIdx<T>,
) -> Result<(), AllocError>
    requires { T.number tidx.0 < math.token_count grm.now }
    ensures { OnOk result (string_bytes text.new
        ≡ string_bytes text.old ++ token_text grm.now (T.number tidx.0)) }
{
    text.push('\'')?;
    text.push_str(grm.token_name(tidx).unwrap_or("$"))?;
    text.push('\'')
}

/// Adds a rule's name as it is, or a token's between quotes.
pub fn push_symbol<T: IndexStorage>(
    text: &mut String,
    grm: &YaccGrammar<T>,
    symbol: Symbol<T>,
) -> Result<(), AllocError>
    requires { math.IsBodySymbol grm.now (symbol_of T.number symbol) }
    ensures { OnOk result (string_bytes text.new
        ≡ string_bytes text.old ++ symbol_text grm.now (symbol_of T.number symbol)) }
{
    match symbol {
        Symbol::Rule(ridx) => text.push_str(grm.rule_name_str(ridx)),
        Symbol::Token(tidx) => push_token(text, grm, tidx),
    }
}

/// Adds symbols, each behind a space.
fn push_spaced<T: IndexStorage>(
    text: &mut String,
    grm: &YaccGrammar<T>,
    symbols: &[Symbol<T>],
) -> Result<(), AllocError>
    requires { math.AreBodySymbols grm.now (map (symbol_of T.number) symbols.now) }
    ensures { OnOk result (string_bytes text.new
        ≡ string_bytes text.old ++ spaced grm.now (map (symbol_of T.number) symbols.now)) }
{
    for symbol in symbols {
        text.push(' ')?;
        push_symbol(text, grm, *symbol)?;
    }
    Ok(())
}

/// Adds the tokens whose bits are set, upwards, with commas between.
fn push_looks<T: IndexStorage>(
    text: &mut String,
    grm: &YaccGrammar<T>,
    ctx: &Ctx,
) -> Result<(), AllocError>
    requires { length ctx.now ≡ math.token_count grm.now }
    ensures { OnOk result (string_bytes text.new
        ≡ string_bytes text.old ++ looks_text grm.now ctx.now) }
{
    let mut between = "";
    for token in 0..usize::from(grm.tokens_len()) {
        if ctx.get(token) {
            text.push_str(between)?;
            push_token(text, grm, TIdx(T::from_usize(token).unwrap()))?;
            between = ", ";
        }
    }
    Ok(())
}

/// Adds the text of an item.
fn push_item<T: IndexStorage>(
    text: &mut String,
    grm: &YaccGrammar<T>,
    pidx: PIdx<T>,
    dot: SIdx<T>,
    ctx: &Ctx,
) -> Result<(), AllocError>
    requires { FitsAt grm.now (T.number pidx.0) (T.number dot.0) ctx.now }
    ensures { OnOk result (string_bytes text.new
        ≡ string_bytes text.old ++ item_text grm.now ((T.number pidx.0, T.number dot.0), ctx.now)) }
{
    let (before, behind) = grm.prod(pidx).split_at(usize::from(dot));
    text.push('[')?;
    text.push_str(grm.rule_name_str(grm.prod_to_rule(pidx)))?;
    text.push_str(" ->")?;
    push_spaced(text, grm, before)?;
    text.push_str(" .")?;
    push_spaced(text, grm, behind)?;
    text.push_str(", {")?;
    push_looks(text, grm, ctx)?;
    text.push_str("}]")
}

/// Adds the texts of the items by production and then dot, with `parting` between.
pub fn push_items<T: IndexStorage>(
    text: &mut String,
    grm: &YaccGrammar<T>,
    items: &Itemset<T>,
    parting: &str,
) -> Result<(), AllocError>
    requires { Fits grm.now (set_of T.number items.now) }
    ensures text { OnOk result (string_bytes text.new ≡ string_bytes text.old
        ++ join_by (item_text grm.now) parting.now (set_of T.number items.now)) }
    ensures upwards { AreUpwards (set_of T.number items.now) }
{
    let mut between = "";
    for (key, ctx) in &items.items {
        text.push_str(between)?;
        push_item(text, grm, key.0, key.1, ctx)?;
        between = parting;
    }
    Ok(())
}
