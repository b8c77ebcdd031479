//! The cells and gotos of one state of a graph.

ghost use Rattle.std.specs.Prelude.{◌≡◌, ℕ, ◌<◌, ◌≤◌, false, List, length, option_map, IfSome, OnOk};
ghost use Rattle.lrspec.specs.grammars.Grammar as math;
ghost use Rattle.lrspec.specs.merging.Graph.{closed_of};
ghost use Rattle.lrspec.specs.tables.Table as table;
ghost use Rattle.lrspec.specs.tables.Table.{accepts_at, bit_or_none, cell_by, cell_of, decide};
ghost use Rattle.lrgrammar.specs.Bits.{bit};
ghost use Rattle.lrsparse.specs.Entries.{row_with, AreEntries};
ghost use Rattle.lrrows.specs.ReadGraphs.{IsReadable};
ghost use Rattle.lrrows.specs.StateRows.{action_row, goto_row, first_of, least_reductions};
ghost use Rattle.lrrows.specs.StoredActions.{stored_action, action_number};
ghost use Rattle.lrrows.specs.StoredLists.{least_of};

use crate::action::Action;
use crate::numbers::{number_of_action, number_of_goto};
use crate::targets::token_targets;
use lrgrammar::grammar::{AssocKind, YaccGrammar};
use lrgrammar::idx::{IndexStorage, PIdx, StIdx, Symbol, TIdx};
use lrgraphs::stategraph::StateGraph;
use lritems::itemset::Ctx;
use std::alloc::AllocError;
use std::cmp::Ordering;

/// A shift against a reduction, by the precedences of the token and of the production: the higher level wins, and of one
/// level the token's kind decides; the shift wins where one of them has none. These are the rules of Yacc, which Bison's manual
/// tells under "How Precedence Works".
fn resolved<T: IndexStorage>(
    grm: &YaccGrammar<T>,
    tidx: TIdx<T>,
    pidx: PIdx<T>,
    target: StIdx<T>,
) -> Action<T>
    requires token { T.number tidx.0 < math.token_count grm.now }
    requires prod { T.number pidx.0 < length grm.now.productions }
    ensures { stored_action T.number result
        ≡ decide (math.token_precedence grm.now (T.number tidx.0))
        (math.production_precedence grm.now (T.number pidx.0))
        (T.number target.0) (T.number pidx.0) }
{
    let (Some(token), Some(prod)) = (grm.token_precedence(tidx), grm.prod_precedence(pidx)) else {
        return Action::Shift(target);
    };
    match token.level.cmp(&prod.level) {
        Ordering::Greater => Action::Shift(target),
        Ordering::Less => Action::Reduce(pidx),
        Ordering::Equal => match token.kind {
            AssocKind::Left => Action::Reduce(pidx),
            AssocKind::Right => Action::Shift(target),
            AssocKind::Nonassoc => Action::Error,
        },
    }
}

/// The cell of a token, by the least production that reduces on it, the edge on it, and whether the text may end there. Where
/// no precedence decides, these are the two rules of S. C. Johnson's paper (Yacc: Yet Another Compiler-Compiler, 1975): shift
/// rather than reduce, and reduce by the production that comes first.
fn cell<T: IndexStorage>(
    grm: &YaccGrammar<T>,
    tidx: TIdx<T>,
    least: Option<PIdx<T>>,
    edge: Option<StIdx<T>>,
    accepts: bool,
) -> Action<T>
    requires token { T.number tidx.0 < math.token_count grm.now }
    requires prod { IfSome least (λ p. T.number p.0 < length grm.now.productions) }
    ensures { (ps : List ℕ) → first_of ps ≡ option_map (λ p. T.number p.0) least
        → stored_action T.number result
        ≡ cell_by grm.now (T.number tidx.0) ps (option_map (λ s. T.number s.0) edge) accepts }
{
    match (least, edge) {
        (None, None) if accepts => Action::Accept,
        (None, None) => Action::Error,
        (None, Some(target)) => Action::Shift(target),
        (Some(pidx), None) => Action::Reduce(pidx),
        (Some(pidx), Some(target)) => resolved(grm, tidx, pidx, target),
    }
}

/// The number that keeps the cell of a token, by the same as the cell.
fn cell_number<T: IndexStorage>(
    grm: &YaccGrammar<T>,
    token: usize,
    least: Option<PIdx<T>>,
    edge: Option<StIdx<T>>,
    accepts: bool,
) -> usize
    requires token { token < math.token_count grm.now }
    requires small { token ≤ T.MAX }
    requires prod { IfSome least (λ p. T.number p.0 < length grm.now.productions) }
    ensures { (ps : List ℕ) → first_of ps ≡ option_map (λ p. T.number p.0) least
        → result
        ≡ action_number (cell_by grm.now token ps (option_map (λ s. T.number s.0) edge) accepts) }
{
    if least.is_none() && edge.is_none() && !accepts {
        return 0;
    }
    let tidx = TIdx(T::from_usize(token).unwrap());
    number_of_action(cell(grm, tidx, least, edge, accepts))
}

/// Whether the lookaheads, if there are any, have the token.
fn has_token(lookaheads: Option<&Ctx>, token: usize) -> bool
    requires { IfSome lookaheads (λ ctx. token < length ctx.now) }
    ensures { result ≡ bit_or_none (option_map (λ ctx. ctx.now) lookaheads.entry) token }
{
    lookaheads.is_some_and(|ctx| ctx.get(token))
}

/// Makes the entries those of the state's cells, by token: its errors have none, and it errs on all but the used tokens.
pub(crate) fn make_actions<T: IndexStorage>(
    entries: &mut Vec<(usize, usize)>,
    grm: &YaccGrammar<T>,
    sg: &StateGraph<T>,
    stidx: StIdx<T>,
    used: &Ctx,
    least: &[Option<PIdx<T>>],
    accepted: Option<&Ctx>,
) -> Result<(), AllocError>
    requires tokens { math.token_count grm.now ≤ T.MAX }
    requires used { length used.now ≡ math.token_count grm.now }
    requires errs { (t : ℕ) → t < math.token_count grm.now → bit used.now t ≡ false
        → cell_of grm.now sg.now (T.number stidx.0) t ≡ table.Action.Error }
    requires least { least_of T.number least.now
        ≡ least_reductions grm.now (closed_of sg.now (T.number stidx.0)) }
    requires accepts { (t : ℕ) → bit_or_none (option_map (λ ctx. ctx.now) accepted) t
        ≡ accepts_at grm.now (closed_of sg.now (T.number stidx.0)) t }
    requires bits { IfSome accepted (λ ctx. length ctx.now ≡ math.token_count grm.now) }
    ensures entries { OnOk result (AreEntries 0 (math.token_count grm.now) entries.new.items) }
    ensures row { OnOk result (row_with 0 (math.token_count grm.now) entries.new.items
        ≡ action_row grm.now sg.now (T.number stidx.0)) }
{
    let targets = token_targets(grm, sg, stidx)?;
    entries.clear();
    for token in used.iter_set_bits(0..used.len()) {
        let accepts = has_token(accepted, token);
        let number = cell_number(grm, token, least[token], targets[token], accepts);
        if number != 0 {
            entries.push((token, number))?;
        }
    }
    Ok(())
}

/// Makes the entries those of the state's gotos, by rule: a rule without goto has none.
pub(crate) fn make_gotos<T: IndexStorage>(
    entries: &mut Vec<(usize, usize)>,
    grm: &YaccGrammar<T>,
    sg: &StateGraph<T>,
    stidx: StIdx<T>,
) -> Result<(), AllocError>
    requires graph { IsReadable grm.now sg.now }
    requires below { T.number stidx.0 < length sg.now }
    ensures entries { OnOk result (AreEntries 0 (length grm.now.rule_names) entries.new.items) }
    ensures row { OnOk result (row_with 0 (length grm.now.rule_names) entries.new.items
        ≡ goto_row grm.now sg.now (T.number stidx.0)) }
{
    let edges = sg.edges(stidx);
    // `len` says of a map that its keys come upwards
    let _ = edges.len();
    entries.clear();
    for (symbol, target) in edges {
        if let Symbol::Rule(ridx) = symbol {
            entries.push((usize::from(*ridx), number_of_goto(Some(*target))))?;
        }
    }
    Ok(())
}
