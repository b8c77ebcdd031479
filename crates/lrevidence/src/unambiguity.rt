//! Whether a grammar is unambiguous although there are conflicts.

ghost use Rattle.std.specs.Prelude.{IfOk, IfSome, IsTrue};
ghost use Rattle.lrspec.specs.merging.Graph.{IsGraphOf};
ghost use Rattle.lrspec.specs.tables.Recognition.{IsUnambiguous};
ghost use Rattle.lrspec.specs.tables.Table.{IsTableFor};

use crate::evidence::Effort;
use lrdecided::are_all_decided;
use lrfindings::Findings;
use lrsearches::Ways;
use lrshown::Evidence;
use std::alloc::AllocError;

/// Whether there are conflicts, each of which is decided, and no more entries with those that precedences resolve than may be asked.
fn may_be_unambiguous(found: &Findings, evidence: &[Evidence], effort: Effort) -> bool {
    let entries = evidence.len().saturating_add(found.resolved.len());
    !evidence.is_empty() && entries <= effort.decisions && evidence.iter().all(|it| it.is_decided())
}

/// Whether it is found that no sentence has two trees although there are these conflicts: each two moves that contend for a cell are
/// decided, also where precedences resolve what meets.
pub fn shows_unambiguous(
    found: &Findings,
    evidence: &[Evidence],
    effort: Effort,
) -> Result<bool, AllocError>
    requires graph { IfSome found.now.graph (IsGraphOf found.now.grm) }
    requires table { IsTableFor found.now.grm found.now.table }
    ensures { IfOk result (λ b. IsTrue b → IsUnambiguous found.now.grm) }
{
    let (Some(graph), true) = (&found.graph, may_be_unambiguous(found, evidence, effort)) else {
        return Ok(false);
    };
    let grm = &found.grm;
    let ways = Ways::new(grm, graph)?;
    let are = are_all_decided(grm, graph, &ways, effort.nodes)?;
    Ok(are)
}
