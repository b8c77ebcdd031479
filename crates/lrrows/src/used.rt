//! The tokens on which a state may do something: on the others it errs.

ghost use Rattle.std.specs.Prelude.{◌≡◌, ℕ, ◌<◌, ◌||◌, length, map, option_map, is_some, IfOk, IfSome};
ghost use Rattle.std.specs.List.{All};
ghost use Rattle.lrspec.specs.grammars.Grammar as math;
ghost use Rattle.lrspec.specs.merging.Graph.{edge};
ghost use Rattle.lrspec.specs.tables.Table.{bit_or_none};
ghost use Rattle.lrgrammar.specs.Bits.{bit};
ghost use Rattle.lrrows.specs.ReadGraphs.{IsReadable};
ghost use Rattle.lrrows.specs.StateRows.{first_at};

use lrgrammar::grammar::YaccGrammar;
use lrgrammar::idx::{IndexStorage, PIdx, StIdx, Symbol};
use lrgraphs::stategraph::StateGraph;
use lritems::itemset::Ctx;
use std::alloc::AllocError;

/// The tokens at which a complete item looks, or at which the text may end.
fn looked_at<T: IndexStorage>(
    grm: &YaccGrammar<T>,
    completes: &[(PIdx<T>, &Ctx)],
    accepted: Option<&Ctx>,
) -> Result<Ctx, AllocError>
    requires bits { All (λ c. length c.1.now ≡ math.token_count grm.now) completes.now }
    requires accepted_bits { IfSome accepted (λ ctx. length ctx.now ≡ math.token_count grm.now) }
    ensures bits { IfOk result (λ v. length v ≡ math.token_count grm.now) }
    ensures each { IfOk result (λ v. (t : ℕ) → bit v t
        ≡ (bit_or_none (option_map (λ ctx. ctx.now) accepted.entry) t
        || is_some (first_at (map (λ c. (T.number c.0.0, c.1.now)) completes.now) t))) }
{
    let mut looked = Ctx::from_elem(grm.allocator(), false, usize::from(grm.tokens_len()))?;
    if let Some(ctx) = accepted {
        looked.or(ctx);
    }
    for (_, ctx) in completes {
        looked.or(ctx);
    }
    Ok(looked)
}

/// The tokens at which a complete item of the state looks, at which the text may end there, or on which it has an edge.
pub(crate) fn used_tokens<T: IndexStorage>(
    grm: &YaccGrammar<T>,
    sg: &StateGraph<T>,
    stidx: StIdx<T>,
    completes: &[(PIdx<T>, &Ctx)],
    accepted: Option<&Ctx>,
) -> Result<Ctx, AllocError>
    requires graph { IsReadable grm.now sg.now }
    requires below { T.number stidx.0 < length sg.now }
    requires bits { All (λ c. length c.1.now ≡ math.token_count grm.now) completes.now }
    requires accepted_bits { IfSome accepted (λ ctx. length ctx.now ≡ math.token_count grm.now) }
    ensures bits { IfOk result (λ v. length v ≡ math.token_count grm.now) }
    ensures each { IfOk result (λ v. (t : ℕ) → bit v t
        ≡ ((bit_or_none (option_map (λ ctx. ctx.now) accepted.entry) t
        || is_some (first_at (map (λ c. (T.number c.0.0, c.1.now)) completes.now) t))
        || is_some (edge sg.now (T.number stidx.0) (math.Token t)))) }
{
    let mut used = looked_at(grm, completes, accepted)?;
    let edges = sg.edges(stidx);
    // `len` says of a map that its keys come upwards
    let _ = edges.len();
    for (symbol, _target) in edges {
        if let Symbol::Token(tidx) = symbol {
            used.set(usize::from(*tidx), true);
        }
    }
    Ok(used)
}
