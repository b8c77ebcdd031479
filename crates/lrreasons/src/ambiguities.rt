//! Ambiguities of conflicts: what a search finds, checked.

ghost use Rattle.std.specs.Prelude.{◌≡◌, ◌<◌, ◌++◌, length, IsTrue, IfOk, IfSome, map};
ghost use Rattle.lrspec.specs.merging.Graph.{IsGraphOf};
ghost use Rattle.lrambiguity.specs.StoredAmbiguities.{IsAmbiguity, AmbiguityPartsAt};
ghost use Rattle.lrreasons.specs.Ambiguities.{IsWayOf, IsAmbiguousForm, FormPartsBy, IsPart, ways_to, IsProofOf};
ghost use Rattle.lrgrammar.specs.Symbols.{number_of};

use crate::candidates::{Pair, pairs};
use crate::cutting::cut_out;
use crate::parts::is_part;
use lrambiguity::{Ambiguity, Contest, Move, begins_with, check_ambiguity, derives, parts_at};
use lrconflicts::{Conflict, differ_at_once};
use lrforms::{Ambiguous, Form, Forms, Search, Sentence};
use lrgrammar::grammar::YaccGrammar;
use lrgrammar::idx::TIdx;
use lrtable::StateGraph;
use std::alloc::{AllocError, Global};

/// That a grammar is ambiguous, at a conflict.
///
/// What is derived, letting go of it too, calls itself as deep as the trees are; `take_apart` lets go of any.
#[derive(Debug, Drop)]
pub struct ProvedAmbiguity {
    /// Where both trees part: the conflict's own candidates, or, in a cell with more, two others.
    pub contest: Contest<u32>,
    /// The rule that derives a form in two ways, and both of them.
    pub form: Form,
    /// A text in which it stands, with its two trees.
    pub ambiguity: Ambiguity<u32>,
}

impl ProvedAmbiguity {
    /// Takes both trees apart, however deep they are, by a loop that takes no memory.
    pub fn take_apart(self) {
        self.ambiguity.take_apart();
    }
}

/// Whether the form is derived by the moves before and those behind them.
fn derives_by(
    alloc: Global,
    grm: &YaccGrammar<u32>,
    form: &Form,
    after: &[Move<u32>],
) -> Result<bool, AllocError>
    ensures { IfOk result (λ derives. IsTrue derives
        → IsWayOf grm.now form.now after.now) }
{
    let mut moves = Vec::from_slice(alloc, form.ways.before.as_slice())?;
    moves.extend_from_slice(after)?;
    derives(
        alloc,
        grm,
        form.rule,
        form.symbols.as_slice(),
        moves.as_slice(),
    )
}

/// Whether the form is derived in both ways, and these part at the dot by the moves of the contest.
fn derives_twice(
    alloc: Global,
    grm: &YaccGrammar<u32>,
    form: &Form,
    contest: Contest<u32>,
) -> Result<bool, AllocError>
    ensures form { IfOk result (λ derives. IsTrue derives → IsAmbiguousForm grm.now form.now) }
    ensures parts { IfOk result (λ derives. IsTrue derives → FormPartsBy form.now contest) }
{
    let (first, second) = (form.ways.first.as_slice(), form.ways.second.as_slice());
    Ok(
        begins_with(first, contest.one)
            && begins_with(second, contest.other)
            && differ_at_once(first, second)
            && derives_by(alloc, grm, form, first)?
            && derives_by(alloc, grm, form, second)?,
    )
}

/// The ambiguity, where its trees part at the contest; else they are taken apart.
fn parting(
    alloc: Global,
    grm: &YaccGrammar<u32>,
    graph: &StateGraph<u32>,
    contest: Contest<u32>,
    ambiguity: Ambiguity<u32>,
) -> Result<Option<Ambiguity<u32>>, AllocError>
    requires graph { IsGraphOf grm.now graph.now }
    requires state { contest.state.0 < length graph.now }
    requires ambiguity { IsAmbiguity number_of grm.now ambiguity }
    ensures given { IfOk result (λ o. IfSome o (λ a. a ≡ ambiguity)) }
    ensures parts { IfOk result (λ o. IfSome o (λ a.
        AmbiguityPartsAt number_of grm.now graph.now a contest)) }
{
    match parts_at(alloc, grm, graph, &ambiguity, contest) {
        Ok(true) => Ok(Some(ambiguity)),
        Ok(false) => {
            ambiguity.take_apart();
            Ok(None)
        }
        Err(refused) => {
            ambiguity.take_apart();
            Err(refused)
        }
    }
}

/// What was found, where it is so.
fn checked(
    alloc: Global,
    grm: &YaccGrammar<u32>,
    graph: &StateGraph<u32>,
    contest: Contest<u32>,
    found: Ambiguous,
) -> Result<Option<ProvedAmbiguity>, AllocError>
    requires graph { IsGraphOf grm.now graph.now }
    requires state { contest.state.0 < length graph.now }
    ensures contest { IfOk result (λ o. IfSome o (λ a. a.contest ≡ contest)) }
    ensures form { IfOk result (λ o. IfSome o (λ a. IsAmbiguousForm grm.now a.form)) }
    ensures form_parts { IfOk result (λ o. IfSome o (λ a. FormPartsBy a.form contest)) }
    ensures trees { IfOk result (λ o. IfSome o (λ a. IsAmbiguity number_of grm.now a.ambiguity)) }
    ensures parts { IfOk result (λ o. IfSome o (λ a.
        AmbiguityPartsAt number_of grm.now graph.now a.ambiguity contest)) }
    ensures part { IfOk result (λ o. IfSome o (λ a.
        IsPart grm.now a.form (ways_to a.ambiguity))) }
{
    let Ambiguous { form, sentence } = found;
    if !derives_twice(alloc, grm, &form, contest)? || !is_part(alloc, grm, &form, &sentence)? {
        return Ok(None);
    }
    let Sentence { tokens, ways, .. } = sentence;
    let checked = check_ambiguity(alloc, grm, tokens, ways.before, ways.first, ways.second)?;
    let Some(ambiguity) = checked else {
        return Ok(None);
    };
    match parting(alloc, grm, graph, contest, ambiguity)? {
        Some(ambiguity) => Ok(Some(ProvedAmbiguity {
            contest,
            form,
            ambiguity,
        })),
        None => Ok(None),
    }
}

/// Searches where these two candidates of the conflict's cell contend.
fn prove_pair(
    forms: &Forms<'_>,
    grm: &YaccGrammar<u32>,
    graph: &StateGraph<u32>,
    conflict: &Conflict<u32>,
    pair: Pair,
    steps: usize,
) -> Result<Option<ProvedAmbiguity>, AllocError>
    requires graph { IsGraphOf grm.now graph.now }
    requires state { conflict.now.state.0 < length graph.now }
    ensures { IfOk result (λ o. IfSome o (IsProofOf grm.now graph.now conflict.now)) }
{
    let (production, other) = pair;
    let searched = Conflict {
        state: conflict.state,
        token: conflict.token,
        production,
        other,
    };
    let contest = Contest {
        state: conflict.state,
        token: conflict.token,
        one: Move::Reduce(production),
        other: match other {
            Some(other) => Move::Reduce(other),
            None => Move::Shift,
        },
    };
    match forms.search(searched, steps)? {
        Search::Found(found) => checked(grm.allocator(), grm, graph, contest, found),
        Search::OutOfSteps | Search::Emptied => Ok(None),
    }
}

/// Searches where any two candidates of the conflict's cell contend, as long as work is allowed: with so many steps for its own,
/// and as many for all others together.
pub(crate) fn prove(
    forms: &Forms<'_>,
    grm: &YaccGrammar<u32>,
    graph: &StateGraph<u32>,
    conflict: &Conflict<u32>,
    steps: usize,
) -> Result<Option<ProvedAmbiguity>, AllocError>
    requires graph { IsGraphOf grm.now graph.now }
    requires state { conflict.now.state.0 < length graph.now }
    ensures { IfOk result (λ o. IfSome o (IsProofOf grm.now graph.now conflict.now)) }
{
    if forms.is_used_up() {
        return Ok(None);
    }
    let pairs = pairs(grm.allocator(), grm, graph, conflict)?;
    forms.charge(graph.closed_state(conflict.state).items.len());
    let mut allowed = steps;
    for pair in &pairs {
        if let Some(proved) = prove_pair(forms, grm, graph, conflict, *pair, allowed)? {
            return Ok(Some(proved));
        }
        allowed = steps / pairs.len().max(1);
    }
    Ok(None)
}

/// What two trees of the tokens show, by their moves, if they part at the conflict's state and token.
pub(crate) fn prove_by(
    grm: &YaccGrammar<u32>,
    graph: &StateGraph<u32>,
    conflict: &Conflict<u32>,
    tokens: &[TIdx<u32>],
    one: &[Move<u32>],
    other: &[Move<u32>],
) -> Result<Option<ProvedAmbiguity>, AllocError>
    requires graph { IsGraphOf grm.now graph.now }
    requires state { conflict.now.state.0 < length graph.now }
    ensures { IfOk result (λ o. IfSome o (IsProofOf grm.now graph.now conflict.now)) }
{
    let reduce = Move::Reduce(conflict.production);
    let Some(found) = cut_out(grm.allocator(), grm, tokens, one, other, reduce)? else {
        return Ok(None);
    };
    let ways = &found.sentence.ways;
    let (Some(first), Some(second)) = (ways.first.first(), ways.second.first()) else {
        return Ok(None);
    };
    let contest = Contest {
        state: conflict.state,
        token: conflict.token,
        one: *first,
        other: *second,
    };
    checked(grm.allocator(), grm, graph, contest, found)
}
