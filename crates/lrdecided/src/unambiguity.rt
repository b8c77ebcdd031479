//! Whether each two moves that contend for a cell are decided, so that the grammar is unambiguous.

ghost use Rattle.std.specs.Prelude.{◌≡◌, ◌≢◌, ◌<◌, ℕ, length, IfOk, IsTrue};
ghost use Rattle.lrspec.specs.merging.Graph.{IsGraphOf};
ghost use Rattle.lrspec.specs.tables.Recognition.{IsUnambiguous};
ghost use Rattle.lrconflicts.specs.StoredMoves.{move_of, moves_stored};
ghost use Rattle.lrsearches.specs.StoredWays.{AreWaysOf};
ghost use Rattle.lrgrammar.specs.Symbols.{number_of};
ghost use Rattle.lrdecided.specs.Contenders.{AcceptsAlone, IsDecidedAgainst, ArePairsDecided, IsStateDecided};
ghost use Rattle.lrdecided.specs.Decided.{AreDecided};
ghost use Rattle.lrdecided.specs.Entries.{entry_of, IsDecidedAt};

use crate::contending::{completes, contenders};
use crate::decided::{Entry, is_certified_by_all};
use lrconflicts::Move;
use lrgrammar::grammar::YaccGrammar;
use lrgrammar::idx::{IndexStorage, StIdx, TIdx};
use lrgraphs::stategraph::StateGraph;
use lrsearches::Ways;
use std::alloc::AllocError;

/// Where it is searched, and how long.
#[derive(Clone, Copy)]
struct Search<'a> {
    grm: &'a YaccGrammar<u32>,
    graph: &'a StateGraph<u32>,
    ways: &'a Ways<u32>,
    /// How many nodes are looked at each time.
    allowance: usize,
}

/// Whether both moves are the same.
fn is_same_move(one: Move<u32>, other: Move<u32>) -> bool
    ensures { IsTrue result → move_of number_of one ≡ move_of number_of other }
{
    match (one, other) {
        (Move::Shift, Move::Shift) => true,
        (Move::Reduce(one), Move::Reduce(other)) => usize::from(one) == usize::from(other),
        _ => false,
    }
}

/// Whether the moves of the entry are the same, or it is found to be decided.
fn is_decided(search: Search<'_>, entry: &Entry) -> Result<bool, AllocError>
    requires graph { IsGraphOf search.grm.now search.graph.now }
    requires ways { AreWaysOf number_of search.grm.now search.graph.now search.ways.now }
    requires state { entry.now.state.0 < length search.graph.now }
    ensures { IfOk result (λ b. IsTrue b
        → move_of number_of entry.now.one ≢ move_of number_of entry.now.other
        → IsDecidedAt search.entry.grm.now search.entry.graph.now (entry_of entry.now)) }
{
    if is_same_move(entry.one, entry.other) {
        return Ok(true);
    }
    let grm = search.grm;
    grm.in_order();
    let is = is_certified_by_all(grm, search.graph, search.ways, entry, search.allowance)?;
    Ok(is)
}

/// Whether the move and each of the others are the same, or found to be decided in the cell.
fn is_decided_against(
    search: Search<'_>,
    state: StIdx<u32>,
    token: TIdx<u32>,
    one: Move<u32>,
    others: &[Move<u32>],
) -> Result<bool, AllocError>
    requires graph { IsGraphOf search.grm.now search.graph.now }
    requires ways { AreWaysOf number_of search.grm.now search.graph.now search.ways.now }
    requires state { state.0 < length search.graph.now }
    ensures { IfOk result (λ b. IsTrue b → IsDecidedAgainst search.entry.grm.now
        search.entry.graph.now state.0 token.0 (move_of number_of one)
        (moves_stored number_of others.now)) }
{
    for other in others {
        let entry = Entry {
            state,
            token,
            one,
            other: *other,
        };
        if !is_decided(search, &entry)? {
            return Ok(false);
        }
    }
    Ok(true)
}

/// Whether each two of the moves are the same, or found to be decided in the cell.
fn are_pairs_decided(
    search: Search<'_>,
    state: StIdx<u32>,
    token: TIdx<u32>,
    moves: &[Move<u32>],
) -> Result<bool, AllocError>
    requires graph { IsGraphOf search.grm.now search.graph.now }
    requires ways { AreWaysOf number_of search.grm.now search.graph.now search.ways.now }
    requires state { state.0 < length search.graph.now }
    ensures { IfOk result (λ b. IsTrue b → ArePairsDecided search.entry.grm.now
        search.entry.graph.now state.0 token.0
        (moves_stored number_of moves.now)) }
{
    for place in 0..moves.len() {
        if !is_decided_against(search, state, token, moves[place], &moves[..place])? {
            return Ok(false);
        }
    }
    Ok(true)
}

/// Whether each two contenders of each cell of the state are found to be decided.
fn is_state_decided(search: Search<'_>, state: StIdx<u32>) -> Result<bool, AllocError>
    requires graph { IsGraphOf search.grm.now search.graph.now }
    requires ways { AreWaysOf number_of search.grm.now search.graph.now search.ways.now }
    requires state { state.0 < length search.graph.now }
    ensures { IfOk result (λ b. IsTrue b → IsStateDecided search.entry.grm.now
        search.entry.graph.now state.0) }
{
    let grm = search.grm;
    let completes = completes(grm, search.graph, state)?;
    for number in 0..grm.tokens_len().0.to_usize() {
        let token = TIdx(u32::from_usize(number).unwrap());
        let moves = contenders(grm, search.graph, state, completes.as_slice(), token)?;
        if !are_pairs_decided(search, state, token, moves.as_slice())? {
            return Ok(false);
        }
    }
    Ok(true)
}

/// The same of each state of the graph.
fn are_states_decided(search: Search<'_>) -> Result<bool, AllocError>
    requires graph { IsGraphOf search.grm.now search.graph.now }
    requires ways { AreWaysOf number_of search.grm.now search.graph.now search.ways.now }
    ensures { IfOk result (λ b. IsTrue b → (s : ℕ) → s < length search.entry.graph.now
        → IsStateDecided search.entry.grm.now search.entry.graph.now s) }
{
    for number in 0..search.graph.all_states_len().0.to_usize() {
        let state = StIdx(u32::from_usize(number).unwrap());
        if !is_state_decided(search, state)? {
            return Ok(false);
        }
    }
    Ok(true)
}

/// Whether each two contenders of each cell of the graph are found to be decided, by looking at so many nodes each time: then the
/// grammar is unambiguous.
pub fn are_all_decided(
    grm: &YaccGrammar<u32>,
    graph: &StateGraph<u32>,
    ways: &Ways<u32>,
    allowance: usize,
) -> Result<bool, AllocError>
    requires graph { IsGraphOf grm.now graph.now }
    requires ways { AreWaysOf number_of grm.now graph.now ways.now }
    requires accepts { AcceptsAlone grm.now }
    ensures decided { IfOk result (λ b. IsTrue b → AreDecided grm.now graph.now) }
    ensures unambiguous { IfOk result (λ b. IsTrue b → IsUnambiguous grm.now) }
{
    grm.in_order();
    let search = Search {
        grm,
        graph,
        ways,
        allowance,
    };
    let are = are_states_decided(search)?;
    Ok(are)
}
