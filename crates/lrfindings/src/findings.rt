//! What is found in the grammar of a file.

ghost use Rattle.std.specs.Prelude.{◌≡◌, ◌≢◌, ◌⊎◌, ◌-◌, ◌^◌, [], length, map, Bool, IsTrue, IfOk, IfErr, IfNone, IfSome, false};
ghost use Rattle.lrspec.specs.merging.Graph.{Graph, IsGraphOf};
ghost use Rattle.lrspec.specs.tables.Built.{IsBuilt};
ghost use Rattle.lrspec.specs.tables.LrTables.{HasNoPrecedences, ListsNothing};
ghost use Rattle.lrtable.specs.Refusals.{IsBuildRefusal};
ghost use Rattle.lrverdicts.specs.Listed.{told};
ghost use Rattle.lrgrammar.specs.Symbols.{number_of};
ghost use Rattle.lrfindings.specs.ReachedStates.{AreLeft, AreNeverReduced, AreResolved};
ghost use Rattle.lrfindings.specs.StoredCells.{resolution};
ghost use Rattle.lrfindings.specs.declared.findings.FindError.TheVariants.{Memory};
ghost use Rattle.lrfindings.specs.Findings.{AreFindings, FindNothing, DecidesNothing};
ghost use Rattle.lrfindings.specs.FindErrors.{IsNothingFound};

use crate::cells::{CellFindings, Resolved, cells_of};
use crate::parts::grammar_of;
use crate::useless::UselessPrecedences;
use lrgrammar::grammar::{GrammarError, YaccGrammar};
use lrtable::{BuildError, Minimiser, StateGraph, StateTable, from_yacc, from_yacc_if_contested};
use lrverdicts::{Entry, entries_of, is_unambiguous};
use lryacc::FileGrammar;
use std::alloc::{AllocError, Global};

/// What is found in the grammar of a file.
#[derive(Drop)]
pub struct Findings {
    /// Whether the grammar has the precedences of the file.
    pub has_precedences: bool,
    /// The grammar.
    pub grm: YaccGrammar<u32>,
    /// The state graph of the grammar. None where it wasn't wanted, no token has a precedence and no entries meet in a cell of its
    /// table, so that nothing is searched in it.
    pub graph: Option<StateGraph<u32>>,
    /// The table of the graph.
    pub table: StateTable<u32>,
    /// How many states they have.
    pub states: usize,
    /// The conflicts of the table, in the order of the file.
    pub conflicts: Vec<Entry>,
    /// The conflicts that are left open where each reduction is tried by itself against a shift, as Bison does, in the order of the
    /// file: those of the table where no token has a precedence, and else those in states to which a shift or a goto still leads.
    pub left: Vec<Entry>,
    /// What precedences resolve in such states, in the order of the file.
    pub resolved: Vec<Resolved>,
    /// The productions by which no such state reduces, in their order: conflicts, and what precedences resolve, have other actions.
    pub unreduced: Vec<usize>,
    /// Which precedences resolve nothing, all of them where none is in force; and which tokens are in no rule.
    pub useless: UselessPrecedences,
    /// Whether the table shows that no sentence has two trees.
    pub is_unambiguous: bool,
}

impl Findings {
    /// Whether nothing meets in a cell, whatever precedences say.
    fn is_nothing(&self) -> bool
        ensures { IsTrue result → FindNothing self.now }
    {
        self.conflicts.is_empty() && self.left.is_empty() && self.resolved.is_empty()
    }
}

/// Why nothing is found in the grammar of a file.
#[derive(Debug, Drop, thiserror::Error)]
pub enum FindError {
    /// The grammar, or its graph, is too large for a `u32`.
    #[error("the grammar is too large")]
    TooLarge,
    /// The grammar is refused.
    #[error(transparent)]
    Refused(GrammarError),
    /// A state accepts and reduces at the end of the text, so that there is no table.
    #[error("a state accepts and reduces at the end of the input")]
    NoTable,
    /// Memory was refused.
    #[error("out of memory")]
    Memory,
}

impl From<AllocError> for FindError {
    ghost from_gives = { λ _ e. e ≡ Memory };

    fn from(_refused: AllocError) -> FindError {
        FindError::Memory
    }
}

impl From<GrammarError> for FindError {
    ghost use Rattle.lrfindings.specs.FindErrors.{parts_error};

    ghost from_gives = { λ error e. e ≡ parts_error error };

    fn from(error: GrammarError) -> FindError {
        match error {
            GrammarError::TooManyRules
            | GrammarError::TooManyTokens
            | GrammarError::TooManyProductions
            | GrammarError::BodyTooLong => FindError::TooLarge,
            GrammarError::Memory => FindError::Memory,
            error => FindError::Refused(error),
        }
    }
}

impl From<BuildError<u32>> for FindError {
    ghost use Rattle.lrfindings.specs.FindErrors.{build_error};

    ghost from_gives = { λ error e. e ≡ build_error error };

    fn from(error: BuildError<u32>) -> FindError {
        match error {
            BuildError::Table(_) => FindError::NoTable,
            BuildError::TooLarge => FindError::TooLarge,
            BuildError::Memory => FindError::Memory,
        }
    }
}

/// The graph of a grammar, where it is wanted, a token has a precedence, or entries meet in a cell of the table; the table; and
/// how many states they have. The error is that of `from_yacc`.
fn tabled(
    grm: &YaccGrammar<u32>,
    wants_graph: bool,
) -> Result<(Option<StateGraph<u32>>, StateTable<u32>, usize), BuildError<u32>>
    ensures built { IfOk result (λ b. (h : Graph) × IsBuilt grm.now h b.1
        × IfSome b.0 (λ g. g ≡ h)) }
    ensures plain { IfOk result (λ b. IfNone b.0 (HasNoPrecedences grm.now)) }
    ensures without { IfOk result (λ b. IfNone b.0 (ListsNothing b.1)) }
    ensures states { IfOk result (λ b. b.2 ≡ length b.1.actions) }
    ensures refused { IfErr result (IsBuildRefusal number_of (2 ^ 32 - 1) grm.now) }
{
    if !wants_graph && !grm.has_precedences() {
        return from_yacc_if_contested(grm.allocator(), grm, Minimiser::Pager);
    }
    let (graph, table) = from_yacc(grm.allocator(), grm, Minimiser::Pager)?;
    let states = usize::from(graph.all_states_len());
    Ok((Some(graph), table, states))
}

/// What is found in the cells of a table with these conflicts, where precedences may decide in them.
fn found_in_cells(
    alloc: Global,
    file: &FileGrammar,
    grm: &YaccGrammar<u32>,
    graph: Option<&StateGraph<u32>>,
    conflicts: &[Entry],
    may_decide: bool,
) -> Result<CellFindings, AllocError>
    requires { IfSome graph (λ h. IsGraphOf grm.now h.now) }
    ensures left { IsTrue may_decide → IfSome graph.entry (λ h. IfOk result (λ c.
        AreLeft grm.now h.now (map told c.left.items))) }
    ensures resolved { IsTrue may_decide → IfSome graph.entry (λ h. IfOk result (λ c.
        AreResolved grm.now h.now (map resolution c.resolved.items))) }
    ensures all_left { may_decide ≡ false → IfOk result (λ c. c.left.items ≡ conflicts.now) }
    ensures none_resolved { may_decide ≡ false → IfOk result (λ c. c.resolved.items ≡ []) }
    ensures unreduced { IfSome graph.entry (λ h. (may_decide ≡ false → conflicts.now ≢ [])
        → IfOk result (λ c. AreNeverReduced grm.now h.now c.unreduced.items)) }
    ensures plain { may_decide ≡ false → conflicts.now ≡ []
        → IfOk result (λ c. c.unreduced.items ≡ []) }
{
    match graph {
        Some(graph) if may_decide => cells_of(alloc, file, grm, graph),
        Some(graph) if !conflicts.is_empty() => {
            let mut cells = CellFindings::without_decisions(alloc, file, conflicts)?;
            cells.unreduced = cells_of(alloc, file, grm, graph)?.unreduced;
            Ok(cells)
        }
        _ => CellFindings::without_decisions(alloc, file, conflicts),
    }
}

/// What is found in the grammar of a file, with its precedences or without them.
fn find_with(
    alloc: Global,
    file: &FileGrammar,
    has_precedences: bool,
    wants_graph: bool,
) -> Result<Findings, FindError>
    ensures found { IfOk result (AreFindings (2 ^ 32 - 1) file.now) }
    ensures asked { IfOk result (λ f. f.has_precedences ≡ has_precedences) }
    ensures refused { IfErr result (IsNothingFound (2 ^ 32 - 1) file.now has_precedences) }
{
    let grm = grammar_of(alloc, file, has_precedences)?;
    let may_decide = grm.has_precedences();
    let (graph, table, states) = tabled(&grm, wants_graph)?;
    let is_unambiguous = is_unambiguous(&grm, &table);
    let conflicts = entries_of(alloc, file, &table)?;
    let listed = conflicts.as_slice();
    let cells = found_in_cells(alloc, file, &grm, graph.as_ref(), listed, may_decide)?;
    let CellFindings {
        resolved,
        left,
        unreduced,
        useless,
    } = cells;
    Ok(Findings {
        has_precedences,
        grm,
        graph,
        table,
        states,
        conflicts,
        left,
        resolved,
        unreduced,
        useless,
        is_unambiguous,
    })
}

/// What is found in the grammar of a file, with its precedences or without them; without them also where there are no
/// conflicts and they resolve nothing. There is a graph where it is wanted, and where there are conflicts or some are resolved.
/// `TooLarge` where a `u32` is too small for the grammar or its graph.
pub fn find(
    alloc: Global,
    file: &FileGrammar,
    has_precedences: bool,
    wants_graph: bool,
) -> Result<Findings, FindError>
    ensures found { IfOk result (AreFindings (2 ^ 32 - 1) file.now) }
    ensures kept { IfOk result (λ f.
        (f.has_precedences ≡ has_precedences) ⊎ DecidesNothing (2 ^ 32 - 1) file.now) }
    ensures left_out { has_precedences ≡ false → IfOk result (λ f. f.has_precedences ≡ false) }
    ensures refused { IfErr result (λ e. (b : Bool) × IsNothingFound (2 ^ 32 - 1) file.now b e) }
{
    let found = find_with(alloc, file, has_precedences, wants_graph)?;
    if !found.is_unambiguous && found.is_nothing() {
        return find_with(alloc, file, false, wants_graph);
    }
    Ok(found)
}
