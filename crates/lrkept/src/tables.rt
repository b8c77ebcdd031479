//! Whether the machine of a table accepts exactly the sentences of the grammar: by certificates that what its cells refuse is kept.

ghost use Rattle.std.specs.Prelude.{◌≡◌, ◌<◌, length, IfOk, IsTrue, OnOk};
ghost use Rattle.lrspec.specs.merging.Graph.{IsGraphOf};
ghost use Rattle.lrspec.specs.tables.Table.{IsTableOf};
ghost use Rattle.lrconflicts.specs.StoredMoves.{move_of};
ghost use Rattle.lrsearches.specs.StoredWays.{AreWaysOf};
ghost use Rattle.lrgrammar.specs.Symbols.{number_of};
ghost use Rattle.lrlosses.specs.declared.exactness.Exactness.TheVariants as known;
ghost use Rattle.lrkept.specs.Acyclicity.{IsAcyclic};
ghost use Rattle.lrkept.specs.Choices.{TakesAll};
ghost use Rattle.lrlosses.specs.Exactness.{IsExact, IsExactButAtErrors};
ghost use Rattle.lrkept.specs.Keeping.{IsWon};
ghost use Rattle.lrkept.specs.Kept.{IsKept};

use crate::acyclicity::is_acyclic;
use crate::checking::Certificate;
use crate::choices::takes_all;
use crate::keeping::{Automaton, kept_as, table_kept_as};
use lrconflicts::Move;
use lrgrammar::idx::{StIdx, TIdx};
use lrlosses::Exactness;
use std::alloc::AllocError;

/// What is known of the texts that the machine of the table accepts. Searches look at as many positions as are left, and take them
/// from these; what they find is added to the certificate. Where a rule of the grammar derives itself alone nothing is shown; else
/// it is exact where each cell takes all that contends for it.
pub fn exactness(
    automaton: Automaton<'_>,
    certificate: &mut Certificate,
    left: &mut usize,
) -> Result<Exactness, AllocError>
    requires graph { IsGraphOf automaton.grm.now automaton.graph.now }
    requires table { IsTableOf automaton.grm.now automaton.graph.now automaton.table.now }
    requires ways { AreWaysOf number_of automaton.grm.now automaton.graph.now automaton.ways.now }
    requires won { IsWon automaton.grm.now automaton.graph.now certificate.old }
    ensures won { OnOk result (IsWon automaton.entry.grm.now automaton.entry.graph.now
        certificate.new) }
    ensures exact { IfOk result (λ e. e ≡ known.Exact
        → IsExact automaton.entry.grm.now automaton.entry.table.now) }
    ensures but_at_errors { IfOk result (λ e. e ≡ known.ButAtErrors → IsExactButAtErrors
        automaton.entry.grm.now automaton.entry.graph.now automaton.entry.table.now) }
    ensures no_choice { IsAcyclic automaton.entry.grm.now → TakesAll automaton.entry.grm.now
        automaton.entry.graph.now automaton.entry.table.now → IfOk result (λ e. e ≡ known.Exact) }
{
    let grm = automaton.grm;
    grm.in_order();
    if !is_acyclic(grm)? {
        return Ok(Exactness::Open);
    }
    if takes_all(grm, automaton.graph, automaton.table) {
        return Ok(Exactness::Exact);
    }
    let known = table_kept_as(automaton, certificate, left)?;
    Ok(known)
}

/// Whether the move is found to be kept in the cell: each sentence that goes on with it can go on with what the cell takes. The
/// search looks at as many positions as are left, and takes them from these; what it finds is added to the certificate, for later
/// searches of the same table.
pub fn is_kept(
    automaton: Automaton<'_>,
    cell: (StIdx<u32>, TIdx<u32>),
    refused: Move<u32>,
    certificate: &mut Certificate,
    left: &mut usize,
) -> Result<bool, AllocError>
    requires graph { IsGraphOf automaton.grm.now automaton.graph.now }
    requires table { IsTableOf automaton.grm.now automaton.graph.now automaton.table.now }
    requires ways { AreWaysOf number_of automaton.grm.now automaton.graph.now automaton.ways.now }
    requires state { cell.0.0 < length automaton.graph.now }
    requires won { IsWon automaton.grm.now automaton.graph.now certificate.old }
    ensures won { OnOk result (IsWon automaton.entry.grm.now automaton.entry.graph.now
        certificate.new) }
    ensures kept { IfOk result (λ b. IsTrue b → IsKept automaton.entry.grm.now
        automaton.entry.graph.now automaton.entry.table.now cell.0.0 cell.1.0
        (move_of number_of refused)) }
{
    let known = kept_as(automaton, cell, refused, certificate, left)?;
    Ok(known == Exactness::Exact)
}
