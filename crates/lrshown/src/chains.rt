//! Trees without the middle of their chains: of productions each of which alone stands below the one above it, the first one and
//! the last one are shown.

ghost use Rattle.std.specs.Prelude.{◌≡◌, ◌+◌, ◌++◌, ◌∷◌, drop, false, map};
ghost use Rattle.std.specs.Prelude.{slice_index_or as get_or, IfOk};
ghost use Rattle.lrshown.specs.Chains.{is_unit, others, units, all_but_last, left_out_behind};
ghost use Rattle.lrshown.specs.Chains.{kept, kept_by, steps_kept, cuts_of};
ghost use Rattle.lrshown.specs.ShownTrees.{IsCut, IsWhole};

use crate::names::body_of;
use crate::steps::Step;
use crate::trees::Tree;
use lryacc::FileGrammar;
use std::alloc::{AllocError, Global};

/// A step of a tree without the middle of its chains.
#[derive(Clone, Copy, Debug, PartialEq, Eq)]
struct Kept {
    step: Step,
    /// Whether nodes are left out between its node and the one below that.
    is_cut: bool,
}

/// How steps go on.
#[derive(Clone, Copy, Debug, PartialEq, Eq)]
struct Cutting {
    /// How many of the next ones are left out.
    left: usize,
    /// Whether some before them are, behind the last one that is kept.
    is_cut: bool,
}

/// Whether a step puts a node over one tree alone.
fn is_unit(file: &FileGrammar, step: Step) -> bool
    ensures { result ≡ is_unit file.now step }
{
    match step {
        Step::Shift => false,
        Step::Reduce(production) => body_of(file, production).len() == 1,
    }
}

/// How many such steps come first.
fn units(file: &FileGrammar, steps: &[Step]) -> usize
    ensures { result ≡ units file.now steps.now }
{
    steps
        .iter()
        .take_while(|step| is_unit(file, **step))
        .count()
}

/// How many of so many nodes, each over the one before it, are left out: all but the last, if these are two at the least.
fn all_but_last(count: usize) -> usize
    ensures { result ≡ all_but_last count }
{
    if count > 2 { count - 1 } else { 0 }
}

/// How many steps are left out behind one: of nodes each of which is put over the one before it, all but the last, if there are
/// more than two.
fn left_out_behind(file: &FileGrammar, step: Step, behind: &[Step]) -> usize
    ensures { result ≡ left_out_behind file.now step behind.now }
{
    match step {
        Step::Shift => 0,
        Step::Reduce(_) => all_but_last(units(file, behind)),
    }
}

/// The steps behind the one at a place.
fn steps_behind(steps: &[Step], place: usize) -> &[Step]
    ensures { result.now ≡ drop (place + 1) steps.now }
{
    match place.checked_add(1) {
        Some(next) => steps.get(next..).unwrap_or(&[]),
        None => &[],
    }
}

/// Adds a step, unless it is left out, and answers how those behind it go on.
fn add_kept(
    list: &mut Vec<Kept>,
    file: &FileGrammar,
    step: Step,
    behind: &[Step],
    cutting: Cutting,
) -> Result<Cutting, AllocError>
    ensures { IfOk result (λ after.
        list.old.items ++ kept_by file.now cutting (step ∷ behind.now)
        ≡ list.new.items ++ kept_by file.now after behind.now) }
{
    if cutting.left > 0 {
        return Ok(Cutting {
            left: cutting.left - 1,
            is_cut: true,
        });
    }
    list.push(Kept {
        step,
        is_cut: cutting.is_cut,
    })?;
    Ok(Cutting {
        left: left_out_behind(file, step, behind),
        is_cut: false,
    })
}

/// The steps that are kept.
fn kept_steps(alloc: Global, file: &FileGrammar, steps: &[Step]) -> Result<Vec<Kept>, AllocError>
    ensures kept { IfOk result (λ v. v.items ≡ kept file.now steps.now) }
    ensures others { IfOk result (λ v.
        others file.now (map (λ k. k.step) v.items) ≡ others file.now steps.now) }
{
    let mut list = Vec::new(alloc);
    let mut cutting = Cutting {
        left: 0,
        is_cut: false,
    };
    for (place, step) in steps.iter().enumerate() {
        cutting = add_kept(&mut list, file, *step, steps_behind(steps, place), cutting)?;
    }
    Ok(list)
}

/// The steps of a tree without the middle of its chains, and whether others are left out before each.
#[derive(Debug, Drop)]
struct Short {
    steps: Vec<Step>,
    cuts: Vec<bool>,
}

/// The steps by themselves.
fn steps_in(alloc: Global, list: &[Kept]) -> Result<Vec<Step>, AllocError>
    ensures { IfOk result (λ v. v.items ≡ map (λ k. k.step) list.now) }
{
    list.iter().map(|it| it.step).collect(alloc)
}

/// Whether others are left out before each.
fn cuts_in(alloc: Global, list: &[Kept]) -> Result<Vec<bool>, AllocError>
    ensures { IfOk result (λ v. v.items ≡ map (λ k. k.is_cut) list.now) }
{
    list.iter().map(|it| it.is_cut).collect(alloc)
}

/// The steps that are kept, and whether others are left out before each.
fn short_steps(alloc: Global, file: &FileGrammar, steps: &[Step]) -> Result<Short, AllocError>
    ensures steps { IfOk result (λ s. s.steps.items ≡ steps_kept file.now steps.now) }
    ensures cuts { IfOk result (λ s. s.cuts.items ≡ cuts_of file.now steps.now) }
{
    let list = kept_steps(alloc, file, steps)?;
    Ok(Short {
        steps: steps_in(alloc, list.as_slice())?,
        cuts: cuts_in(alloc, list.as_slice())?,
    })
}

/// A tree, maybe without the middle of its chains.
#[derive(Debug, Drop)]
pub struct ShownTree {
    /// The tree without what is left out.
    pub tree: Tree,
    /// For each of its nodes whether others are left out between it and the one below it; not, where there is nothing.
    cuts: Vec<bool>,
}

impl ShownTree {
    /// The whole tree that steps put together, without the node of `$accept` and the token that ends all.
    pub fn whole(
        alloc: Global,
        file: &FileGrammar,
        before: &[Step],
        behind: &[Step],
    ) -> Result<ShownTree, AllocError>
        ensures { IfOk result (λ t. IsWhole file.now before.now behind.now t) }
    {
        Ok(ShownTree {
            tree: Tree::inner(alloc, file, before, behind)?,
            cuts: Vec::new(alloc),
        })
    }

    /// The same without the middle of its chains, none of which goes over the place where the steps part.
    pub(crate) fn cut(
        alloc: Global,
        file: &FileGrammar,
        before: &[Step],
        behind: &[Step],
    ) -> Result<ShownTree, AllocError>
        ensures { IfOk result (λ t. IsCut file.now before.now behind.now t) }
    {
        let first = short_steps(alloc, file, before)?;
        let then = short_steps(alloc, file, behind)?;
        let tree = Tree::inner(alloc, file, first.steps.as_slice(), then.steps.as_slice())?;
        let mut cuts = first.cuts;
        cuts.extend_from_slice(then.cuts.as_slice())?;
        Ok(ShownTree { tree, cuts })
    }

    /// Whether nodes are left out between a node and the one below it.
    pub fn is_cut(&self, number: usize) -> bool
        ensures { result ≡ get_or self.now.cuts.items number false }
    {
        self.cuts.get(number).copied().unwrap_or(false)
    }
}
