//! The conflicts of one state of a graph.

ghost use Rattle.std.specs.Prelude.{◌≡◌, ℕ, ◌<◌, ◌≤◌, ◌++◌, List, length, map, option_map, OnOk, IfSome};
ghost use Rattle.std.specs.List.{All};
ghost use Rattle.lrspec.specs.grammars.Grammar as math;
ghost use Rattle.lrspec.specs.merging.Graph.{closed_of};
ghost use Rattle.lrspec.specs.tables.Table.{shift_reduce_entry};
ghost use Rattle.lrrows.specs.ReadGraphs.{IsReadable};
ghost use Rattle.lrrows.specs.StateRows.{first_of, least_reductions, shift_reduce_at};
ghost use Rattle.lrrows.specs.ReduceReduce.{reduce_reduce_by_least, reduce_reduce_by_item, reduce_reduce_by};
ghost use Rattle.lrrows.specs.StoredLists.{stored_reduce_reduce, stored_shift_reduce, stored_reduce_reduces, stored_shift_reduces, least_of};

use lrgrammar::grammar::YaccGrammar;
use lrgrammar::idx::{IndexStorage, PIdx, StIdx, Symbol, TIdx};
use lrgraphs::stategraph::StateGraph;
use lritems::itemset::Ctx;
use std::alloc::AllocError;

/// The entry for the token, where `least` is the least production by which the state reduces there, and `pidx` another one.
fn reduce_reduce_on<T: IndexStorage>(
    least: Option<PIdx<T>>,
    stidx: StIdx<T>,
    pidx: PIdx<T>,
    token: usize,
) -> Option<(TIdx<T>, PIdx<T>, PIdx<T>, StIdx<T>)>
    requires token { token ≤ T.MAX }
    ensures entry { option_map (stored_reduce_reduce T.number) result
        ≡ reduce_reduce_by_least (option_map (λ p. T.number p.0) least)
        (T.number pidx.0) (T.number stidx.0) token }
{
    let first = least?;
    if first == pidx {
        return None;
    }
    Some((TIdx(T::from_usize(token).unwrap()), first, pidx, stidx))
}

/// Adds the reduce/reduce conflicts of the state in which `pidx` is the other production, a token after the other.
fn push_reduce_reduce_with<T: IndexStorage>(
    conflicts: &mut Vec<(TIdx<T>, PIdx<T>, PIdx<T>, StIdx<T>)>,
    stidx: StIdx<T>,
    least: &[Option<PIdx<T>>],
    pidx: PIdx<T>,
    ctx: &Ctx,
) -> Result<(), AllocError>
    requires bits { length ctx.now ≡ length least.now }
    requires tokens { length least.now ≤ T.MAX }
    ensures entries { OnOk result (stored_reduce_reduces T.number conflicts.new.items
        ≡ stored_reduce_reduces T.number conflicts.old.items
        ++ reduce_reduce_by_item (least_of T.number least.now) (T.number stidx.0)
        (T.number pidx.0, ctx.now)) }
{
    for token in ctx.iter_set_bits(0..ctx.len()) {
        if let Some(entry) = reduce_reduce_on(least[token], stidx, pidx, token) {
            conflicts.push(entry)?;
        }
    }
    Ok(())
}

/// Adds the reduce/reduce conflicts of the state, by other production and then token.
pub(crate) fn push_reduce_reduce<T: IndexStorage>(
    conflicts: &mut Vec<(TIdx<T>, PIdx<T>, PIdx<T>, StIdx<T>)>,
    stidx: StIdx<T>,
    least: &[Option<PIdx<T>>],
    completes: &[(PIdx<T>, &Ctx)],
) -> Result<(), AllocError>
    requires bits { All (λ c. length c.1.now ≡ length least.now) completes.now }
    requires tokens { length least.now ≤ T.MAX }
    ensures entries { OnOk result (stored_reduce_reduces T.number conflicts.new.items
        ≡ stored_reduce_reduces T.number conflicts.old.items
        ++ reduce_reduce_by (least_of T.number least.now) (T.number stidx.0)
        (map (λ c. (T.number c.0.0, c.1.now)) completes.now)) }
{
    for (pidx, ctx) in completes {
        push_reduce_reduce_with(conflicts, stidx, least, *pidx, ctx)?;
    }
    Ok(())
}

/// The entry for a token that the state shifts, where `least` is the least production by which it reduces there: if the token or
/// the production has no precedence.
fn shift_reduce_on<T: IndexStorage>(
    grm: &YaccGrammar<T>,
    stidx: StIdx<T>,
    tidx: TIdx<T>,
    least: Option<PIdx<T>>,
) -> Option<(TIdx<T>, PIdx<T>, StIdx<T>)>
    requires token { T.number tidx.0 < math.token_count grm.now }
    requires prod { IfSome least (λ p. T.number p.0 < length grm.now.productions) }
    ensures entry { (rs : List ℕ) (u : ℕ) → option_map (λ p. T.number p.0) least ≡ first_of rs
        → option_map (stored_shift_reduce T.number) result
        ≡ shift_reduce_entry grm.now rs (Some u) (T.number stidx.0) (T.number tidx.0) }
{
    let pidx = least?;
    if grm.token_precedence(tidx).is_some() && grm.prod_precedence(pidx).is_some() {
        return None;
    }
    Some((tidx, pidx, stidx))
}

/// Adds the shift/reduce conflicts of the state, by token: those of a shift and a reduction where the token or the production
/// has no precedence.
pub(crate) fn push_shift_reduce<T: IndexStorage>(
    conflicts: &mut Vec<(TIdx<T>, PIdx<T>, StIdx<T>)>,
    grm: &YaccGrammar<T>,
    sg: &StateGraph<T>,
    stidx: StIdx<T>,
    least: &[Option<PIdx<T>>],
) -> Result<(), AllocError>
    requires graph { IsReadable grm.now sg.now }
    requires below { T.number stidx.0 < length sg.now }
    requires least { least_of T.number least.now
        ≡ least_reductions grm.now (closed_of sg.now (T.number stidx.0)) }
    ensures entries { OnOk result (stored_shift_reduces T.number conflicts.new.items
        ≡ stored_shift_reduces T.number conflicts.old.items
        ++ shift_reduce_at grm.now sg.now (T.number stidx.0)) }
{
    let edges = sg.edges(stidx);
    // `len` says of a map that its keys come upwards
    let _ = edges.len();
    for (symbol, _target) in edges {
        if let Symbol::Token(tidx) = symbol {
            let least_here = least[usize::from(*tidx)];
            if let Some(entry) = shift_reduce_on(grm, stidx, *tidx, least_here) {
                conflicts.push(entry)?;
            }
        }
    }
    Ok(())
}
