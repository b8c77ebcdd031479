//! Whether each cell of a table takes all that contends for it.

ghost use Rattle.std.specs.Prelude.{◌<◌, ◌↔◌, length, IsTrue};
ghost use Rattle.lrspec.specs.merging.Graph.{IsGraphOf};
ghost use Rattle.lrspec.specs.tables.Table.{action_of};
ghost use Rattle.lrbits.specs.Bits.{bit};
ghost use Rattle.lrrows.specs.StoredActions.{stored_action};
ghost use Rattle.lrconflicts.specs.StoredMoves.{move_of};
ghost use Rattle.lrlosses.specs.Losses.{Takes};
ghost use Rattle.lrgrammar.specs.Symbols.{number_of};
ghost use Rattle.lrkept.specs.Choices.{TakesReductions, TakesShift, TakesAll, TakesAllIn, TakesAllOfItem};

use lrcells::statetable::StateTable;
use lrconflicts::Move;
use lrgrammar::grammar::YaccGrammar;
use lrgrammar::idx::{IndexStorage, PIdx, SIdx, StIdx, Symbol, TIdx};
use lrgraphs::stategraph::StateGraph;
use lritems::itemset::Ctx;
use lrrows::action::Action;

/// Whether what the cell says is this move.
pub(crate) fn takes(cell: Action<u32>, action: Move<u32>) -> bool
    ensures { IsTrue result ↔ Takes (stored_action number_of cell) (move_of number_of action) }
{
    match (cell, action) {
        (Action::Shift(_), Move::Shift) => true,
        (Action::Reduce(one), Move::Reduce(other)) => one == other,
        _ => false,
    }
}

/// Whether the cell of the table takes the move.
fn takes_at(table: &StateTable<u32>, state: StIdx<u32>, token: TIdx<u32>, action: Move<u32>) -> bool
    ensures { IsTrue result ↔ Takes (action_of table.now state.0 token.0)
        (move_of number_of action) }
{
    takes(table.action(state, token), action)
}

/// Whether there is no edge on the token, or the cell says to shift.
fn takes_shift(
    graph: &StateGraph<u32>,
    table: &StateTable<u32>,
    state: StIdx<u32>,
    token: TIdx<u32>,
) -> bool
    ensures { IsTrue result ↔ TakesShift graph.now table.now state.0 token.0 }
{
    match graph.edge(state, Symbol::Token(token)) {
        None => true,
        Some(_) => takes_at(table, state, token, Move::Shift),
    }
}

/// Whether the token is one of these.
fn looks_at(tokens: &Ctx, token: TIdx<u32>) -> bool
    ensures { IsTrue result ↔ IsTrue (bit tokens.now token.0) }
{
    let place = usize::from(token);
    if place >= tokens.len() {
        return false;
    }
    tokens.get(place)
}

/// Whether the cell takes the reduction by the item, unless that is not complete, is of the start production or doesn't look at
/// the token.
fn takes_item(
    grm: &YaccGrammar<u32>,
    table: &StateTable<u32>,
    cell: (StIdx<u32>, TIdx<u32>),
    item: (PIdx<u32>, SIdx<u32>),
    tokens: &Ctx,
) -> bool
    requires { item.0.0 < length grm.now.productions }
    ensures { IsTrue result ↔ TakesAllOfItem grm.now table.now cell.0.0 cell.1.0
        item.0.0 item.1.0 tokens.now }
{
    if usize::from(item.1) != usize::from(grm.prod_len(item.0)) {
        return true;
    }
    if usize::from(item.0) == usize::from(grm.start_prod()) {
        return true;
    }
    if !looks_at(tokens, cell.1) {
        return true;
    }
    takes_at(table, cell.0, cell.1, Move::Reduce(item.0))
}

/// Whether the cell takes each reduction that contends for it.
fn takes_reductions(
    grm: &YaccGrammar<u32>,
    graph: &StateGraph<u32>,
    table: &StateTable<u32>,
    state: StIdx<u32>,
    token: TIdx<u32>,
) -> bool
    requires graph { IsGraphOf grm.now graph.now }
    requires state { state.0 < length graph.now }
    ensures { IsTrue result ↔ TakesReductions grm.now graph.now table.now state.0 token.0 }
{
    for (key, tokens) in &graph.closed_state(state).items {
        if !takes_item(grm, table, (state, token), *key, tokens) {
            return false;
        }
    }
    true
}

/// Whether each cell of the state takes all that contends for it.
fn takes_all_in(
    grm: &YaccGrammar<u32>,
    graph: &StateGraph<u32>,
    table: &StateTable<u32>,
    state: StIdx<u32>,
) -> bool
    requires graph { IsGraphOf grm.now graph.now }
    requires state { state.0 < length graph.now }
    ensures { IsTrue result ↔ TakesAllIn grm.now graph.now table.now state.0 }
{
    for number in 0..grm.tokens_len().0.to_usize() {
        let token = TIdx(u32::from_usize(number).unwrap());
        if !takes_shift(graph, table, state, token) {
            return false;
        }
        if !takes_reductions(grm, graph, table, state, token) {
            return false;
        }
    }
    true
}

/// Whether each cell of the table takes all that contends for it.
pub(crate) fn takes_all(
    grm: &YaccGrammar<u32>,
    graph: &StateGraph<u32>,
    table: &StateTable<u32>,
) -> bool
    requires { IsGraphOf grm.now graph.now }
    ensures { IsTrue result ↔ TakesAll grm.now graph.now table.now }
{
    for number in 0..graph.all_states_len().0.to_usize() {
        let state = StIdx(u32::from_usize(number).unwrap());
        if !takes_all_in(grm, graph, table, state) {
            return false;
        }
    }
    true
}
