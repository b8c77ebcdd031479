//! Entries at which no text has two trees that part.

ghost use Rattle.std.specs.Prelude.{◌≡◌, IfOk, IfSome};
ghost use Rattle.lrspec.specs.merging.Graph.{IsGraphOf};
ghost use Rattle.lrconflicts.specs.StoredMoves.{move_of};
ghost use Rattle.lrdecided.specs.Entries.{entry_of};
ghost use Rattle.lrgrammar.specs.Symbols.{number_of};
ghost use Rattle.lrsearches.specs.StoredWays.{AreWaysOf};
ghost use Rattle.lrshown.specs.Ambiguities.{against};
ghost use Rattle.lrshown.specs.Steps.{move_by};
ghost use Rattle.lrshown.specs.DecidedEntries.{IsDecidedEntry, meeting_of};

use lrconflicts::Move;
use lrdecided::decide;
use lrfindings::Entry;
use lrgrammar::grammar::YaccGrammar;
use lrgrammar::idx::{IndexStorage, PIdx, StIdx, TIdx};
use lrsearches::Ways;
use lrshown::Decided;
use lrtable::StateGraph;
use std::alloc::AllocError;
use std::cell::Cell;
use std::marker::Model;

/// What tells that entries are decided.
#[derive(Drop)]
pub struct Decisions<'a> {
    grm: &'a YaccGrammar<u32>,
    graph: &'a StateGraph<u32>,
    /// How many nodes a search looks at.
    nodes: usize,
    /// For how many more entries it is searched.
    left: Cell<usize>,
}

impl<'a> Model for Decisions<'a> {
    ghost use Rattle.lrspec.specs.merging.Graph.{IsGraphOf};
    ghost use Rattle.lrcontests.specs.Contests.{Contested};

    ghost Value = { Contested };

    ghost view = { λ d. record { grammar = d.grm.now; graph = d.graph.now } };

    ghost invariant = { λ d. IsGraphOf d.grm.now d.graph.now };
}

/// What meets the reduction of an entry; None where its number is too large for 32 bits.
fn move_against(other: Option<usize>) -> Option<Move<u32>>
    ensures { IfSome result (λ m. move_of number_of m ≡ move_by (against other)) }
{
    match other {
        Some(production) => Some(Move::Reduce(PIdx(u32::from_usize(production)?))),
        None => Some(Move::Shift),
    }
}

/// The two moves that meet in an entry; None where its numbers are too large for 32 bits.
pub fn meeting(entry: Entry) -> Option<lrdecided::Entry>
    ensures { IfSome result (λ e. entry_of e ≡ meeting_of entry) }
{
    let other = move_against(entry.other)?;
    let production = u32::from_usize(entry.production)?;
    Some(lrdecided::Entry {
        state: StIdx(u32::from_usize(entry.state)?),
        token: TIdx(u32::from_usize(entry.token)?),
        one: Move::Reduce(PIdx(production)),
        other,
    })
}

impl<'a> Decisions<'a> {
    /// Those of the grammar and its graph, for so many entries, where searches look at so many nodes.
    pub fn new(
        grm: &'a YaccGrammar<u32>,
        graph: &'a StateGraph<u32>,
        entries: usize,
        nodes: usize,
    ) -> Decisions<'a>
        requires { IsGraphOf grm.now graph.now }
        ensures grammar { result.grammar ≡ grm.entry.now }
        ensures graph { result.graph ≡ graph.entry.now }
    {
        Decisions {
            grm,
            graph,
            nodes,
            left: Cell::new(entries),
        }
    }

    /// How the entry is decided, if that is found. These are the ways into the states of the graph.
    pub fn of(&self, ways: &Ways<u32>, entry: Entry) -> Result<Option<Decided>, AllocError>
        requires { AreWaysOf number_of self.now.grammar self.now.graph ways.now }
        ensures { IfOk result (λ o.
            IfSome o (IsDecidedEntry self.now.grammar self.now.graph entry)) }
    {
        let left = self.left.get();
        let Some(meeting) = meeting(entry) else {
            return Ok(None);
        };
        if left == 0 {
            return Ok(None);
        }
        if usize::from(meeting.state) >= usize::from(self.graph.all_states_len()) {
            return Ok(None);
        }
        self.left.set(left - 1);
        let decided = decide(self.grm, self.graph, ways, &meeting, self.nodes)?;
        Ok(decided)
    }
}
