//! Where both trees of an ambiguity part.

ghost use Rattle.std.specs.Prelude.{◌≡◌, ℕ, ◌<◌, length, drop, IfOk, IsTrue};
ghost use Rattle.lrspec.specs.grammars.ItemSets.{HasItem};
ghost use Rattle.lrspec.specs.merging.Cores.{HasCoreAfter};
ghost use Rattle.lrspec.specs.merging.Graph.{core_of, IsGraphOf};
ghost use Rattle.lrspec.specs.merging.WeakCompatibility.{SameItems};
ghost use Rattle.lrspec.specs.tables.Machine.{next_token};
ghost use Rattle.lritems.specs.ItemsOf.{set_of};
ghost use Rattle.lrtable.specs.RunAnswers.{text_of};
ghost use Rattle.lrambiguity.specs.Partings.{BeginsWith, Contend};
ghost use Rattle.lrconflicts.specs.StoredMoves.{move_of, moves_stored};
ghost use Rattle.lrambiguity.specs.StoredReplays.{roots_of};
ghost use Rattle.lrambiguity.specs.StoredAmbiguities.{IsAmbiguity, AmbiguityPartsAt};

use crate::ambiguities::Ambiguity;
use crate::replays::Replay;
use lrconflicts::Move;
use lrgrammar::grammar::YaccGrammar;
use lrgrammar::idx::{IndexStorage, StIdx, TIdx};
use lrtable::StateGraph;
use lrtable::itemset::Itemset;
use std::alloc::{AllocError, Global};

/// Two moves of a state on a token.
#[derive(Clone, Copy, Debug, PartialEq, Eq)]
pub struct Contest<T> {
    /// The state.
    pub state: StIdx<T>,
    /// The token.
    pub token: TIdx<T>,
    /// The one move.
    pub one: Move<T>,
    /// The other move.
    pub other: Move<T>,
}

/// Whether the one has all items of the other.
fn has_items_of<T: IndexStorage>(one: &Itemset<T>, other: &Itemset<T>) -> bool
    ensures { IsTrue result → (p d : ℕ) → HasItem (set_of T.number other.now) p d
        → HasItem (set_of T.number one.now) p d }
{
    for key in other.items.keys() {
        if !one.items.contains_key(key) {
            return false;
        }
    }
    true
}

/// Whether the cores of both states have the same items.
fn have_same_items<T: IndexStorage>(graph: &StateGraph<T>, one: StIdx<T>, other: StIdx<T>) -> bool
    requires one { T.number one.0 < length graph.now }
    requires other { T.number other.0 < length graph.now }
    ensures { IsTrue result
        → SameItems (core_of graph.now (T.number one.0)) (core_of graph.now (T.number other.0)) }
{
    if one == other {
        return true;
    }
    let core = graph.core_state(one);
    let core_other = graph.core_state(other);
    has_items_of(core, core_other) && has_items_of(core_other, core)
}

/// Whether the moves begin with this one.
pub fn begins_with<T: IndexStorage>(moves: &[Move<T>], first: Move<T>) -> bool
    ensures { IsTrue result
        → BeginsWith (moves_stored T.number moves.now) (move_of T.number first) }
{
    moves.first().copied() == Some(first)
}

/// Whether the roots of the trees are a list with the core of the state, and the token comes next.
fn stands_at<T: IndexStorage>(
    grm: &YaccGrammar<T>,
    graph: &StateGraph<T>,
    replay: &Replay<T>,
    text: &[TIdx<T>],
    contest: Contest<T>,
) -> bool
    requires graph_of { IsGraphOf grm.now graph.now }
    requires state { T.number contest.state.0 < length graph.now }
    ensures core { IsTrue result
        → HasCoreAfter grm.now (roots_of T.number replay.now)
        (core_of graph.now (T.number contest.state.0)) }
    ensures token { IsTrue result
        → next_token grm.now (drop replay.now.used (text_of T.number text.now))
        ≡ T.number contest.token.0 }
{
    grm.in_order();
    let Some(reached) = replay.state_reached(graph) else {
        return false;
    };
    replay.next_token(grm, text) == contest.token && have_same_items(graph, reached, contest.state)
}

/// Whether the trees of the ambiguity part where these two moves contend: what was put together before has roots that lead
/// to a state with the items of the contest's state, its token comes next, and the next moves are its moves.
///
/// Where it says so, both moves are candidates on the token by the canonical items.
pub fn parts_at<T: IndexStorage>(
    alloc: Global,
    grm: &YaccGrammar<T>,
    graph: &StateGraph<T>,
    ambiguity: &Ambiguity<T>,
    contest: Contest<T>,
) -> Result<bool, AllocError>
    requires graph_of { IsGraphOf grm.now graph.now }
    requires state { T.number contest.state.0 < length graph.now }
    requires ambiguity { IsAmbiguity T.number grm.now ambiguity.now }
    ensures parts { IfOk result (λ parts. IsTrue parts
        → AmbiguityPartsAt T.number grm.now graph.now ambiguity.now contest) }
    ensures contend { IfOk result (λ parts. IsTrue parts → Contend grm.now graph.now
        (T.number contest.state.0) (T.number contest.token.0)
        (move_of T.number contest.one) (move_of T.number contest.other)) }
{
    grm.in_order();
    if !begins_with(&ambiguity.one, contest.one) || !begins_with(&ambiguity.other, contest.other) {
        return Ok(false);
    }
    let text = &ambiguity.text;
    let mut replay = Replay::new(alloc);
    let made = replay.make_all(alloc, grm, text, &ambiguity.before);
    let stands = stands_at(grm, graph, &replay, text, contest);
    replay.take_apart();
    if !made? {
        return Ok(false);
    }
    Ok(stands)
}
