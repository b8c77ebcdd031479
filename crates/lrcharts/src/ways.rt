//! Whether a text can still be read from where the machine of a table is: whether the start rule is derived from the symbols on its
//! stack and the tokens that are left, by reductions on top of the stack. A closed chart tells that (Cocke, Younger, Kasami).

ghost use Rattle.std.specs.Prelude.{◌≡◌, map, IfOk, IsTrue};
ghost use Rattle.lrspec.specs.grammars.Grammar as math;
ghost use Rattle.lrspec.specs.grammars.Grammar.{IsGrammar};
ghost use Rattle.lrspec.specs.merging.Graph.{IsGraphOf};
ghost use Rattle.lrtable.specs.RunAnswers.{text_of};
ghost use Rattle.lrgrammar.specs.Symbols.{number_of};
ghost use Rattle.lrspec.specs.tables.Table.{IsTableOf};
ghost use Rattle.lrcharts.specs.Machines.{left_of};
ghost use Rattle.lrcharts.specs.Charts.{HasSpan, LacksWhole};
ghost use Rattle.lrcharts.specs.Ways.{reading, HasNoTreeLeft, IsDeadEnd};

use crate::charting::chart_of;
use crate::charts::Chart;
use crate::closedness::{has_states, has_tokens, is_closed};
use crate::laying::has_span;
use crate::machine::{Machine, machine_after};
use lrgrammar::grammar::YaccGrammar;
use lrgrammar::idx::TIdx;
use lrtable::{StateGraph, StateTable};
use std::alloc::AllocError;

/// The tokens that are left of the text.
fn tokens_left<'t>(machine: &Machine, text: &'t [TIdx<u32>]) -> &'t [TIdx<u32>]
    ensures { text_of number_of result.now ≡ left_of machine.now text.now }
{
    if machine.used >= text.len() {
        return &[];
    }
    &text[machine.used..]
}

/// Whether the chart lacks the start rule from the beginning of its row to the place, which it has.
fn lacks_start(chart: &Chart, grm: &YaccGrammar<u32>, end: usize) -> bool
    ensures { IsTrue result → (shape : IsGrammar grm.now)
        → ¬ (HasSpan chart.now (math.Rule shape.start.0) 0 end) }
{
    grm.in_order();
    match grm.prod(grm.start_prod()).first() {
        Some(rule) => !has_span(chart, *rule, 0, end),
        None => false,
    }
}

/// Whether the chart has all leaves of the row, which are the symbols on the stack of the machine and the tokens that are left, and lacks
/// the start rule from its beginning to its end.
fn lacks_whole(
    chart: &Chart,
    grm: &YaccGrammar<u32>,
    graph: &StateGraph<u32>,
    machine: &Machine,
    left: &[TIdx<u32>],
) -> bool
    ensures { IsTrue result → LacksWhole grm.now graph.now chart.now
        (map (λ s. s.0) machine.now.stack.items) (text_of number_of left.now) }
{
    let states = machine.stack.len();
    let tokens = left.len();
    if states == 0 || states > chart.places || tokens > chart.places - states {
        return false;
    }
    if chart.top >= states {
        return false;
    }
    if !lacks_start(chart, grm, states - 1 + tokens) {
        return false;
    }
    if !has_states(chart, graph, machine.stack.as_slice()) {
        return false;
    }
    has_tokens(chart, left, states - 1)
}

/// Whether it is known that the machine can't read what is left of the text by any moves: a closed chart lacks the start rule over the
/// symbols on its stack and these tokens.
fn is_dead_end(
    machine: Machine,
    grm: &YaccGrammar<u32>,
    graph: &StateGraph<u32>,
    text: &[TIdx<u32>],
) -> Result<bool, AllocError>
    requires graph { IsGraphOf grm.now graph.now }
    ensures { IfOk result (λ b. IsTrue b
        → IsDeadEnd (reading grm.now graph.now text.now) machine) }
{
    grm.in_order();
    let left = tokens_left(&machine, text);
    let Some(chart) = chart_of(grm, graph, machine.stack.as_slice(), left)? else {
        return Ok(false);
    };
    if !lacks_whole(&chart, grm, graph, &machine, left) {
        return Ok(false);
    }
    let is_known = is_closed(&chart, grm)?;
    Ok(is_known)
}

/// Whether it is known that the moves of no tree of the text begin with so many steps of the machine.
pub fn has_no_tree_left(
    grm: &YaccGrammar<u32>,
    graph: &StateGraph<u32>,
    table: &StateTable<u32>,
    text: &[TIdx<u32>],
    steps: usize,
) -> Result<bool, AllocError>
    requires graph { IsGraphOf grm.now graph.now }
    requires table { IsTableOf grm.now graph.now table.now }
    ensures { IfOk result (λ b. IsTrue b
        → HasNoTreeLeft grm.now table.now (text_of number_of text.now) steps) }
{
    grm.in_order();
    let Some(machine) = machine_after(grm.allocator(), grm, table, text, steps)? else {
        return Ok(false);
    };
    let is_known = is_dead_end(machine, grm, graph, text)?;
    Ok(is_known)
}
