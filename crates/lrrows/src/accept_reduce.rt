//! States that accept and reduce at the end of the text.

ghost use Rattle.std.specs.Prelude.{◌≡◌, ℕ, option_map, IfOk, MatchOption};
ghost use Rattle.lrspec.specs.grammars.ItemSets.{Fits, AreUpwards};
ghost use Rattle.lrspec.specs.tables.Table.{AcceptsAndReduces};
ghost use Rattle.lrspec.specs.tables.Conflicts.{IsLeastAcceptReduce};
ghost use Rattle.lritems.specs.ItemsOf.{set_of};
ghost use Rattle.lrrows.specs.ReadGraphs.{IsReadable};
ghost use Rattle.lrrows.specs.StateRows.{least_accept_reduce};

use crate::completes::{accepted, completes, least_at};
use lrgrammar::grammar::YaccGrammar;
use lrgrammar::idx::{IndexStorage, PIdx};
use lrgraphs::stategraph::StateGraph;
use lritems::itemset::Itemset;
use std::alloc::AllocError;

/// The least production by which a state reduces at the end of the text at which it also accepts.
fn accept_reduce_at<T: IndexStorage>(
    grm: &YaccGrammar<T>,
    closed: &Itemset<T>,
) -> Result<Option<PIdx<T>>, AllocError>
    requires fits { Fits grm.now (set_of T.number closed.now) }
    requires upwards { AreUpwards (set_of T.number closed.now) }
    ensures { IfOk result (λ o. option_map (λ p. T.number p.0) o
        ≡ least_accept_reduce grm.now (set_of T.number closed.now)) }
{
    let end = usize::from(grm.eof_token_idx());
    if !accepted(grm, closed).is_some_and(|ctx| ctx.get(end)) {
        return Ok(None);
    }
    Ok(least_at(completes(grm, closed)?.as_slice(), end))
}

/// The least production by which some state reduces at the end of the text at which it also accepts, if there is one.
pub fn accept_reduce<T: IndexStorage>(
    grm: &YaccGrammar<T>,
    sg: &StateGraph<T>,
) -> Result<Option<PIdx<T>>, AllocError>
    requires graph { IsReadable grm.now sg.now }
    ensures { IfOk result (λ o. MatchOption o
        ((s p : ℕ) → AcceptsAndReduces grm.now sg.now s p → ⊥)
        (λ p. IsLeastAcceptReduce grm.now sg.now (T.number p.0))) }
{
    let mut least: Option<PIdx<T>> = None;
    for stidx in sg.iter_stidxs() {
        if let Some(pidx) = accept_reduce_at(grm, sg.closed_state(stidx))? {
            least = Some(match least {
                Some(before) if before < pidx => before,
                _ => pidx,
            });
        }
    }
    Ok(least)
}
