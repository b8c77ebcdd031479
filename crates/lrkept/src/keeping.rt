//! Whether what the cells of a table refuse is kept.

ghost use Rattle.std.specs.Prelude.{◌≡◌, ◌≢◌, ◌<◌, ℕ, length, IfOk, IfSome, IsTrue, OnOk};
ghost use Rattle.lrspec.specs.merging.Graph.{IsGraphOf};
ghost use Rattle.lrspec.specs.tables.Table.{action_of, IsTableOf};
ghost use Rattle.lrspec.specs.tables.Table as math;
ghost use Rattle.lrrows.specs.StoredActions.{stored_action};
ghost use Rattle.lrconflicts.specs.Moves.{Reduce};
ghost use Rattle.lrconflicts.specs.StoredMoves.{move_of, moves_stored};
ghost use Rattle.lrsearches.specs.StoredWays.{AreWaysOf};
ghost use Rattle.lrlosses.specs.Losses.{Takes};
ghost use Rattle.lrgrammar.specs.Symbols.{number_of};
ghost use Rattle.lrlosses.specs.declared.exactness.Exactness.TheVariants as known;
ghost use Rattle.lrkept.specs.Keeping.{IsWon, IsCertified, IsKeptAs, IsKnownOf, AreKnownOf, IsStateKeptAs, IsKnownOfBoth};

use crate::checking::{Certificate, are_won, begins};
use crate::choices::takes;
use crate::search::search;
use lrcells::statetable::StateTable;
use lrconflicts::Move;
use lrdecided::{completes, contenders};
use lrgrammar::grammar::YaccGrammar;
use lrgrammar::idx::{IndexStorage, StIdx, TIdx};
use lrgraphs::stategraph::StateGraph;
use lrlosses::Exactness;
use lrrows::action::Action;
use lrsearches::Ways;
use std::alloc::AllocError;

/// The table of a grammar, with its graph and the ways into the states of that.
#[derive(Clone, Copy)]
pub struct Automaton<'a> {
    pub grm: &'a YaccGrammar<u32>,
    pub graph: &'a StateGraph<u32>,
    pub table: &'a StateTable<u32>,
    pub ways: &'a Ways<u32>,
}

/// The move that the cell takes, if it takes one.
fn taken(cell: Action<u32>) -> Option<Move<u32>>
    ensures { IfSome result (λ m. Takes (stored_action number_of cell) (move_of number_of m)) }
{
    match cell {
        Action::Shift(_) => Some(Move::Shift),
        Action::Reduce(pidx) => Some(Move::Reduce(pidx)),
        _ => None,
    }
}

/// What is known where the cell takes no move: it may be an error.
fn known_without(cell: Action<u32>) -> Exactness
    ensures error { result ≡ known.ButAtErrors → stored_action number_of cell ≡ math.Action.Error }
    ensures not_exact { result ≢ known.Exact }
{
    match cell {
        Action::Error => Exactness::ButAtErrors,
        _ => Exactness::Open,
    }
}

/// Whether positions are found and checked which show that in the cell the second move may be made for the first: they are added
/// to the certificate. The search looks at as many positions as are left of those that are allowed, and takes them from these.
fn is_certified(
    automaton: Automaton<'_>,
    cell: (StIdx<u32>, TIdx<u32>),
    theirs: Move<u32>,
    ours: Move<u32>,
    certificate: &mut Certificate,
    left: &mut usize,
) -> Result<bool, AllocError>
    requires graph { IsGraphOf automaton.grm.now automaton.graph.now }
    requires ways { AreWaysOf number_of automaton.grm.now automaton.graph.now automaton.ways.now }
    requires state { cell.0.0 < length automaton.graph.now }
    requires won { IsWon automaton.grm.now automaton.graph.now certificate.old }
    ensures won { OnOk result (IsWon automaton.entry.grm.now automaton.entry.graph.now
        certificate.new) }
    ensures certified { IfOk result (λ b. IsTrue b → IsCertified automaton.entry.grm.now
        automaton.entry.graph.now cell.0.0 cell.1.0 (move_of number_of theirs)
        (move_of number_of ours)) }
{
    let grm = automaton.grm;
    let graph = automaton.graph;
    let ways = automaton.ways;
    let first = certificate.listing.positions.len();
    search(automaton, cell, theirs, ours, certificate, left)?;
    if !are_won(grm, graph, ways, certificate, first)? {
        *certificate = Certificate::new(grm.allocator())?;
        return Ok(false);
    }
    let begins = begins(grm, graph, ways, cell, theirs, ours, &certificate.listing)?;
    Ok(begins)
}

/// What is known of the move in the cell.
pub(crate) fn kept_as(
    automaton: Automaton<'_>,
    cell: (StIdx<u32>, TIdx<u32>),
    theirs: Move<u32>,
    certificate: &mut Certificate,
    left: &mut usize,
) -> Result<Exactness, AllocError>
    requires graph { IsGraphOf automaton.grm.now automaton.graph.now }
    requires table { IsTableOf automaton.grm.now automaton.graph.now automaton.table.now }
    requires ways { AreWaysOf number_of automaton.grm.now automaton.graph.now automaton.ways.now }
    requires state { cell.0.0 < length automaton.graph.now }
    requires won { IsWon automaton.grm.now automaton.graph.now certificate.old }
    ensures won { OnOk result (IsWon automaton.entry.grm.now automaton.entry.graph.now
        certificate.new) }
    ensures known { IfOk result (λ e. IsKeptAs e automaton.entry.grm.now automaton.entry.graph.now
        automaton.entry.table.now cell.0.0 cell.1.0 (move_of number_of theirs)) }
{
    let grm = automaton.grm;
    grm.in_order();
    let action = automaton.table.action(cell.0, cell.1);
    if takes(action, theirs) {
        return Ok(Exactness::Exact);
    }
    let Some(ours) = taken(action) else {
        return Ok(known_without(action));
    };
    if is_certified(automaton, cell, theirs, ours, certificate, left)? {
        return Ok(Exactness::Exact);
    }
    Ok(Exactness::Open)
}

/// Whether the move is the reduction by the start production, which is no move: where it would be, the text is accepted.
fn is_by_start(grm: &YaccGrammar<u32>, action: Move<u32>) -> bool
    ensures { IsTrue result → move_of number_of action ≡ Reduce grm.now.start_production }
{
    match action {
        Move::Shift => false,
        Move::Reduce(pidx) => usize::from(pidx) == usize::from(grm.start_prod()),
    }
}

/// What is known of the move in the cell, if it contends for that.
fn known_of(
    automaton: Automaton<'_>,
    cell: (StIdx<u32>, TIdx<u32>),
    theirs: Move<u32>,
    certificate: &mut Certificate,
    left: &mut usize,
) -> Result<Exactness, AllocError>
    requires graph { IsGraphOf automaton.grm.now automaton.graph.now }
    requires table { IsTableOf automaton.grm.now automaton.graph.now automaton.table.now }
    requires ways { AreWaysOf number_of automaton.grm.now automaton.graph.now automaton.ways.now }
    requires state { cell.0.0 < length automaton.graph.now }
    requires won { IsWon automaton.grm.now automaton.graph.now certificate.old }
    ensures won { OnOk result (IsWon automaton.entry.grm.now automaton.entry.graph.now
        certificate.new) }
    ensures known { IfOk result (λ e. IsKnownOf e automaton.entry.grm.now automaton.entry.graph.now
        automaton.entry.table.now cell.0.0 cell.1.0 (move_of number_of theirs)) }
{
    if is_by_start(automaton.grm, theirs) {
        return Ok(Exactness::Exact);
    }
    kept_as(automaton, cell, theirs, certificate, left)
}

/// What is known of all, where this is known of some of them, and the other of the rest.
fn known_of_both(this: Exactness, other: Exactness) -> Exactness
    ensures { IsKnownOfBoth this other result }
{
    match this {
        Exactness::Exact => other,
        Exactness::ButAtErrors => match other {
            Exactness::Open => Exactness::Open,
            _ => Exactness::ButAtErrors,
        },
        Exactness::Open => Exactness::Open,
    }
}

/// What is known of all the moves in the cell.
fn all_known_of(
    automaton: Automaton<'_>,
    cell: (StIdx<u32>, TIdx<u32>),
    moves: &[Move<u32>],
    certificate: &mut Certificate,
    left: &mut usize,
) -> Result<Exactness, AllocError>
    requires graph { IsGraphOf automaton.grm.now automaton.graph.now }
    requires table { IsTableOf automaton.grm.now automaton.graph.now automaton.table.now }
    requires ways { AreWaysOf number_of automaton.grm.now automaton.graph.now automaton.ways.now }
    requires state { cell.0.0 < length automaton.graph.now }
    requires won { IsWon automaton.grm.now automaton.graph.now certificate.old }
    ensures won { OnOk result (IsWon automaton.entry.grm.now automaton.entry.graph.now
        certificate.new) }
    ensures known { IfOk result (λ e. AreKnownOf e automaton.entry.grm.now automaton.entry.graph.now
        automaton.entry.table.now cell.0.0 cell.1.0 (moves_stored number_of moves.now)) }
{
    let mut known = Exactness::Exact;
    for theirs in moves {
        let of_this = known_of(automaton, cell, *theirs, certificate, left)?;
        known = known_of_both(known, of_this);
    }
    Ok(known)
}

/// What is known of all moves in each cell of the state.
fn state_kept_as(
    automaton: Automaton<'_>,
    state: StIdx<u32>,
    certificate: &mut Certificate,
    left: &mut usize,
) -> Result<Exactness, AllocError>
    requires graph { IsGraphOf automaton.grm.now automaton.graph.now }
    requires table { IsTableOf automaton.grm.now automaton.graph.now automaton.table.now }
    requires ways { AreWaysOf number_of automaton.grm.now automaton.graph.now automaton.ways.now }
    requires state { state.0 < length automaton.graph.now }
    requires won { IsWon automaton.grm.now automaton.graph.now certificate.old }
    ensures won { OnOk result (IsWon automaton.entry.grm.now automaton.entry.graph.now
        certificate.new) }
    ensures known { IfOk result (λ e. IsStateKeptAs e automaton.entry.grm.now
        automaton.entry.graph.now automaton.entry.table.now state.0) }
{
    let grm = automaton.grm;
    let completes = completes(grm, automaton.graph, state)?;
    let mut known = Exactness::Exact;
    for number in 0..grm.tokens_len().0.to_usize() {
        let token = TIdx(u32::from_usize(number).unwrap());
        let moves = contenders(grm, automaton.graph, state, completes.as_slice(), token)?;
        let of_this = all_known_of(
            automaton,
            (state, token),
            moves.as_slice(),
            certificate,
            left,
        )?;
        known = known_of_both(known, of_this);
        if known == Exactness::Open {
            return Ok(Exactness::Open);
        }
    }
    Ok(known)
}

/// What is known of all moves in each cell of the table.
pub(crate) fn table_kept_as(
    automaton: Automaton<'_>,
    certificate: &mut Certificate,
    left: &mut usize,
) -> Result<Exactness, AllocError>
    requires graph { IsGraphOf automaton.grm.now automaton.graph.now }
    requires table { IsTableOf automaton.grm.now automaton.graph.now automaton.table.now }
    requires ways { AreWaysOf number_of automaton.grm.now automaton.graph.now automaton.ways.now }
    requires won { IsWon automaton.grm.now automaton.graph.now certificate.old }
    ensures won { OnOk result (IsWon automaton.entry.grm.now automaton.entry.graph.now
        certificate.new) }
    ensures known { IfOk result (λ e. (s : ℕ) → s < length automaton.entry.graph.now
        → IsStateKeptAs e automaton.entry.grm.now automaton.entry.graph.now
        automaton.entry.table.now s) }
{
    let mut known = Exactness::Exact;
    for number in 0..automaton.graph.all_states_len().0.to_usize() {
        let state = StIdx(u32::from_usize(number).unwrap());
        let of_this = state_kept_as(automaton, state, certificate, left)?;
        known = known_of_both(known, of_this);
        if known == Exactness::Open {
            return Ok(Exactness::Open);
        }
    }
    Ok(known)
}
