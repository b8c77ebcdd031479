//! Tokens by their numbers.

ghost use Rattle.std.specs.Prelude.{◌≡◌, IfOk, IfSome};
ghost use Rattle.lrtable.specs.RunAnswers.{text_of};
ghost use Rattle.lrgrammar.specs.Symbols.{number_of};

use lrgrammar::idx::{IndexStorage, TIdx};
use std::alloc::{AllocError, Global};

/// The numbers of tokens.
pub fn numbers_of(alloc: Global, tokens: &[TIdx<u32>]) -> Result<Vec<usize>, AllocError>
    ensures { IfOk result (λ v. v.items ≡ text_of number_of tokens.now) }
{
    let mut numbers = Vec::new(alloc);
    for token in tokens {
        numbers.push(usize::from(*token))?;
    }
    Ok(numbers)
}

/// The tokens of these numbers; None where one is too large.
pub(crate) fn tokens_of(
    alloc: Global,
    numbers: &[usize],
) -> Result<Option<Vec<TIdx<u32>>>, AllocError>
    ensures { IfOk result (λ o. IfSome o (λ v. text_of number_of v.items ≡ numbers.now)) }
{
    let mut tokens = Vec::new(alloc);
    for number in numbers {
        let Some(token) = u32::from_usize(*number) else {
            return Ok(None);
        };
        tokens.push(TIdx(token))?;
    }
    Ok(Some(tokens))
}
