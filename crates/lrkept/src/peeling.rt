//! Whether numbers can be ranked so that ranks fall along pairs: those without a pair are taken away, again and again.

ghost use Rattle.std.specs.Prelude.{◌≡◌, ◌<◌, ◌↔◌, false, ℕ, Contains, IfOk, IsTrue, OnOk};
ghost use Rattle.lrkept.specs.Pairs.{LeadsInto, IsLeftIf, AreLeft, CanBeRanked, LeadFromBelow};

use std::alloc::{AllocError, Global};

/// Whether the number is among the others.
fn is_among(numbers: &[usize], number: usize) -> bool
    ensures { IsTrue result ↔ Contains numbers.now number }
{
    numbers.contains(&number)
}

/// Whether the pair leads from the number to one of the others.
fn leads_by(pair: (usize, usize), number: usize, numbers: &[usize]) -> bool
    ensures { IsTrue result ↔ ((pair.0 ≡ number) × Contains numbers.now pair.1) }
{
    if pair.0 != number {
        return false;
    }
    is_among(numbers, pair.1)
}

/// Whether a pair leads from the number to one of the others.
fn leads_into(pairs: &[(usize, usize)], number: usize, numbers: &[usize]) -> bool
    ensures { IsTrue result ↔ LeadsInto pairs.now number numbers.now }
{
    for pair in pairs {
        if leads_by(*pair, number, numbers) {
            return true;
        }
    }
    false
}

/// Adds the number, if a pair leads from it to one of the others.
fn add_if_left(
    left: &mut Vec<usize>,
    pairs: &[(usize, usize)],
    number: usize,
    numbers: &[usize],
) -> Result<(), AllocError>
    ensures { OnOk result
        (IsLeftIf pairs.now number numbers.now left.old.items left.new.items) }
{
    if !leads_into(pairs, number, numbers) {
        return Ok(());
    }
    left.push(number)?;
    Ok(())
}

/// Those of the numbers from which a pair leads to one of them.
fn left_of(
    alloc: Global,
    pairs: &[(usize, usize)],
    numbers: &[usize],
) -> Result<Vec<usize>, AllocError>
    ensures { IfOk result (λ v. AreLeft pairs.now numbers.now v.items) }
{
    let mut left = Vec::new(alloc);
    for number in numbers {
        add_if_left(&mut left, pairs, *number, numbers)?;
    }
    Ok(left)
}

/// All numbers below the count.
fn all_below(alloc: Global, count: usize) -> Result<Vec<usize>, AllocError>
    ensures { IfOk result (λ v. (n : ℕ) → n < count → Contains v.items n) }
{
    let mut numbers = Vec::new(alloc);
    for number in 0..count {
        numbers.push(number)?;
    }
    Ok(numbers)
}

/// Whether numbers can be ranked so that ranks fall along the pairs, which lead from numbers below the count.
pub(crate) fn can_be_ranked(
    alloc: Global,
    pairs: &[(usize, usize)],
    count: usize,
) -> Result<bool, AllocError>
    requires { LeadFromBelow pairs.now count }
    ensures ranked { IfOk result (λ b. IsTrue b → CanBeRanked pairs.now) }
    ensures not_ranked { IfOk result (λ b. b ≡ false → ¬ (CanBeRanked pairs.now)) }
{
    let mut numbers = all_below(alloc, count)?;
    while !numbers.is_empty() {
        let left = left_of(alloc, pairs, numbers.as_slice())?;
        if left.len() == numbers.len() {
            return Ok(false);
        }
        numbers = left;
    }
    Ok(true)
}
