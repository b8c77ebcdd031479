//! Placing gotos: at an equal state, at the first one that is weakly compatible by Pager's rule (1977), or at a new one.

ghost use Rattle.std.specs.Prelude.{◌≡◌, ◌≢◌, ℕ, true, false, IsTrue, ◌↔◌, ◌+◌, ◌<◌, ◌≤◌, ◌==◌, ◌&&◌, if◌then◌else◌, length, slice_get, slice_index, None, Some, IfOk, IfErr, OnOk, MatchOption, ◌⊎◌};
ghost use Rattle.std.specs.List.{All};
ghost use Rattle.lrspec.specs.grammars.Grammar as math;
ghost use Rattle.lrspec.specs.grammars.ItemSets.{AreUpwards};
ghost use Rattle.lrspec.specs.merging.WeakCompatibility.{SameItems, IsWeaklyCompatible, Clash};
ghost use Rattle.lrspec.specs.merging.Graph.{same_symbol};
ghost use Rattle.lrgrammar.specs.Symbols.{symbol_of};
ghost use Rattle.lrplacing.specs.Construction.{core_at, closed_at, edge_from, with_closed, closed_unless, TellsGrowth, Stays, IsUnclosedIfGrown, PlacesOne, PlacesAll};
ghost use Rattle.lrplacing.specs.Invariant.{MayBePlaced, AllMayBePlaced, Holds};
ghost use Rattle.lrspec.specs.merging.Chains.{HasChainOf};
ghost use Rattle.lrplacing.specs.CandidatesOf.{AreCandidates, listed_at};
ghost use Rattle.lrplacing.specs.ChosenPlaces.{HoldsOfNone, IsFirstWith, IsEqual, IsCompatible, IsPlaceOf};
ghost use Rattle.lrplacing.specs.Refusals.{IsLargeOnly};
ghost use Rattle.lritems.specs.Fingerprints.{fingerprint_of};
ghost use Rattle.lritems.specs.Gotos.{items_in, gotos_of, AllUpwards, AreOnDistinctSymbols};
ghost use Rattle.lritems.specs.Merging.{CanTakeIn, TookIn, HaveEquallyManyBits};

use crate::candidates::Candidates;
use crate::draft::Draft;
use lrgrammar::grammar::YaccGrammar;
use lrgrammar::idx::{IndexStorage, Symbol};
use lrgraphs::BuildError;
use lritems::cores::Core;
use lritems::fingerprints::goto_fingerprint;
use lritems::gotos::Goto;
use lritems::merging::weakly_compatible;
use std::alloc::AllocError;

/// The first candidate whose core is equal to the goto.
fn find_equal<T: IndexStorage>(
    drafts: &[Draft<T>],
    candidates: &[usize],
    goto: &Goto<T>,
) -> Option<usize>
    requires below { All (λ k. k < length drafts.now) candidates.now }
    requires upwards { AreUpwards (items_in T.number goto.now) }
    ensures { MatchOption result
        (HoldsOfNone (IsEqual drafts.now (items_in T.number goto.now)) candidates.now)
        (IsFirstWith (IsEqual drafts.now (items_in T.number goto.now)) candidates.now) }
{
    for k in candidates {
        if goto.is_equal(drafts[*k].core()) {
            return Some(*k);
        }
    }
    None
}

/// The first candidate whose core is weakly compatible with the goto.
fn find_compatible<T: IndexStorage>(
    drafts: &[Draft<T>],
    candidates: &[usize],
    goto: &Goto<T>,
) -> Option<usize>
    requires below { All (λ k. k < length drafts.now) candidates.now }
    requires bits { (k : ℕ) → k < length drafts.now
        → HaveEquallyManyBits (core_at drafts.now k) (items_in T.number goto.now) }
    requires upwards { AreUpwards (items_in T.number goto.now) }
    ensures compatible { MatchOption result
        (All (λ k. SameItems (core_at drafts.now k) (items_in T.number goto.now)
        → Clash (core_at drafts.now k) (items_in T.number goto.now)) candidates.now)
        (λ k. (k < length drafts.now)
        × IsWeaklyCompatible (core_at drafts.now k) (items_in T.number goto.now)) }
    ensures first { MatchOption result
        (HoldsOfNone (IsCompatible drafts.now (items_in T.number goto.now)) candidates.now)
        (IsFirstWith (IsCompatible drafts.now (items_in T.number goto.now)) candidates.now) }
{
    for k in candidates {
        if weakly_compatible(drafts[*k].core(), goto) {
            return Some(*k);
        }
    }
    None
}

/// Adds an edge of the state on the symbol, on which it has none.
fn link<T: IndexStorage>(
    drafts: &mut Vec<Draft<T>>,
    from: usize,
    symbol: Symbol<T>,
    to: usize,
) -> Result<(), AllocError>
    requires from { from < length drafts.old.items }
    requires free { edge_from drafts.old.items from (symbol_of T.number symbol) ≡ None }
    ensures len { length drafts.new.items ≡ length drafts.old.items }
    ensures stays { (j : ℕ) → Stays drafts.old.items drafts.new.items j }
    ensures edges { OnOk result ((j : ℕ) (y : math.Symbol) → edge_from drafts.new.items j y
        ≡ if ((j == from) && same_symbol y (symbol_of T.number symbol)) then Some to
        else edge_from drafts.old.items j y) }
{
    drafts[from].add_edge(symbol, to)
}

/// Merges the goto into the core of the state `k`, and says whether that grew it.
fn merge_at<T: IndexStorage>(drafts: &mut Vec<Draft<T>>, k: usize, goto: &Goto<T>) -> bool
    requires below { k < length drafts.old.items }
    requires can { CanTakeIn (core_at drafts.old.items k) (items_in T.number goto.now) }
    ensures len { length drafts.new.items ≡ length drafts.old.items }
    ensures others { (j : ℕ) → j ≢ k → slice_get drafts.new.items j ≡ slice_get drafts.old.items j }
    ensures edges { (y : math.Symbol)
        → edge_from drafts.new.items k y ≡ edge_from drafts.old.items k y }
    ensures taken { TookIn (core_at drafts.old.items k) (items_in T.number goto.now)
        (core_at drafts.new.items k) }
    ensures closed { IsUnclosedIfGrown (core_at drafts.old.items k) (core_at drafts.new.items k)
        (closed_at drafts.old.items k) (closed_at drafts.new.items k) }
    ensures grew { TellsGrowth result (core_at drafts.old.items k) (core_at drafts.new.items k) }
{
    drafts[k].merge(goto)
}

/// Makes a state, and answers its number.
fn make<T: IndexStorage>(drafts: &mut Vec<Draft<T>>, core: Core<T>) -> Result<usize, BuildError<T>>
    requires { length drafts.old.items ≤ T.MAX }
    ensures refused { IfErr result (IsLargeOnly (T.MAX ≤ length drafts.old.items)) }
    ensures number { IfOk result (λ k. k ≡ length drafts.old.items) }
    ensures most { OnOk result (length drafts.new.items ≤ T.MAX) }
    ensures len { OnOk result (length drafts.new.items ≡ length drafts.old.items + 1) }
    ensures others { OnOk result ((j : ℕ) → j ≢ length drafts.old.items
        → slice_get drafts.new.items j ≡ slice_get drafts.old.items j) }
    ensures core { OnOk result (core_at drafts.new.items (length drafts.old.items)
        ≡ core) }
    ensures closed { OnOk result (closed_at drafts.new.items (length drafts.old.items) ≡ false) }
    ensures edges { OnOk result ((y : math.Symbol)
        → edge_from drafts.new.items (length drafts.old.items) y ≡ None) }
{
    let number = drafts.len();
    if number >= T::MAX {
        return Err(BuildError::TooLarge);
    }
    let alloc = *drafts.allocator();
    drafts.push(Draft::new(alloc, core))?;
    Ok(number)
}

/// Where a goto was placed.
#[derive(Drop)]
struct Placed {
    /// The state.
    state: usize,
    /// Whether the core of the state grew, which the core of one that was made didn't.
    grew: bool,
}

impl Placed {
    /// Whether the core of this state grew.
    fn has_grown(&self, state: usize) -> bool
        ensures { IsTrue result ↔ ((self.now.state ≡ state) × (self.now.grew ≡ true)) }
    {
        self.state == state && self.grew
    }
}

/// Places a goto: at the first candidate that is equal to it, or else at the first one that can be merged with it, or
/// else at a new state. Answers the state, to which the edge of `from` on the symbol then leads.
///
/// Equality is tried with all candidates first: a state that is equal takes the goto in without growing, and so is not
/// closed again, where one before it that is only weakly compatible would grow.
fn place<T: IndexStorage>(
    drafts: &mut Vec<Draft<T>>,
    candidates: &mut Candidates,
    from: usize,
    symbol: Symbol<T>,
    goto: &Goto<T>,
) -> Result<Placed, BuildError<T>>
    requires from { from < length drafts.old.items }
    requires most { length drafts.old.items ≤ T.MAX }
    requires free { edge_from drafts.old.items from (symbol_of T.number symbol) ≡ None }
    requires upwards { AreUpwards (items_in T.number goto.now) }
    requires bits { (k : ℕ) → k < length drafts.old.items
        → HaveEquallyManyBits (core_at drafts.old.items k) (items_in T.number goto.now) }
    requires candidates { AreCandidates drafts.old.items candidates.old }
    ensures placed { IfOk result (λ r. PlacesOne drafts.old.items from (symbol_of T.number symbol)
        (items_in T.number goto.now) r.state drafts.new.items) }
    ensures grew { IfOk result (λ r. r.state < length drafts.old.items → TellsGrowth r.grew
        (core_at drafts.old.items r.state) (core_at drafts.new.items r.state)) }
    ensures choice { IfOk result (λ r. IsPlaceOf drafts.old.items
        (listed_at candidates.old (fingerprint_of (items_in T.number goto.now)))
        (items_in T.number goto.now) (length drafts.old.items) r.state) }
    ensures most { OnOk result (length drafts.new.items ≤ T.MAX) }
    ensures candidates { OnOk result (AreCandidates drafts.new.items candidates.new) }
    ensures refused { IfErr result (IsLargeOnly (T.MAX ≤ length drafts.old.items)) }
{
    let fingerprint = goto_fingerprint(goto);
    let listed = candidates.at(fingerprint);
    if let Some(k) = find_equal(drafts.as_slice(), listed, goto) {
        link(drafts, from, symbol, k)?;
        return Ok(Placed {
            state: k,
            grew: false,
        });
    }
    if let Some(k) = find_compatible(drafts.as_slice(), listed, goto) {
        let grew = merge_at(drafts, k, goto);
        link(drafts, from, symbol, k)?;
        return Ok(Placed { state: k, grew });
    }
    let core = Core::from_goto(*drafts.allocator(), goto)?;
    let k = make(drafts, core)?;
    candidates.add(fingerprint, k)?;
    link(drafts, from, symbol, k)?;
    Ok(Placed {
        state: k,
        grew: false,
    })
}

/// Places the gotos of the state `from`, one after another, and says whether its own core grew by that. The state was
/// to be closed and is not noted as closed yet; the grammar is the one of whose states these are, and the gotos are
/// those of what the state's core closes to.
pub fn place_all<T: IndexStorage>(
    drafts: &mut Vec<Draft<T>>,
    candidates: &mut Candidates,
    _grm: &YaccGrammar<T>,
    from: usize,
    gotos: Vec<(Symbol<T>, Goto<T>)>,
) -> Result<bool, BuildError<T>>
    requires from { from < length drafts.old.items }
    requires most { length drafts.old.items ≤ T.MAX }
    requires unclosed { closed_at drafts.old.items from ≡ false }
    requires holds { Holds _grm.now (with_closed drafts.old.items from) }
    requires gotos { AllMayBePlaced _grm.now (with_closed drafts.old.items from) from
        (gotos_of T.number gotos.items) }
    requires upwards { AllUpwards (gotos_of T.number gotos.items) }
    requires distinct { AreOnDistinctSymbols (gotos_of T.number gotos.items) }
    requires free { (x : math.Symbol) → edge_from drafts.old.items from x ≡ None }
    requires candidates { AreCandidates drafts.old.items candidates.old }
    ensures placed { IfOk result (λ grew. PlacesAll from
        (with_closed drafts.old.items from) (gotos_of T.number gotos.entry.items)
        (closed_unless grew drafts.new.items from)) }
    ensures from { OnOk result (from < length drafts.new.items) }
    ensures most { OnOk result (length drafts.new.items ≤ T.MAX) }
    ensures candidates { OnOk result (AreCandidates drafts.new.items candidates.new) }
    ensures refused { IfErr result (IsLargeOnly (HasChainOf _grm.now T.MAX)) }
{
    let mut grew = false;
    for (symbol, goto) in gotos {
        let placed = place(drafts, candidates, from, symbol, &goto)?;
        grew |= placed.has_grown(from);
    }
    Ok(grew)
}
