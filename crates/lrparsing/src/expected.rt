//! The tokens that could stand behind others.

ghost use Rattle.std.specs.Prelude.{◌<◌, ◌↔◌, IfOk, IsTrue};
ghost use Rattle.lrspec.specs.grammars.Grammar.{end_token};
ghost use Rattle.lrspec.specs.tables.Recognition.{AreNamed, HasTrees, ShiftsBeginnings};
ghost use Rattle.lrparsing.specs.Expected.{AreShiftedBehind, BeginSentences, IsShiftedBehind};
ghost use Rattle.lrparsing.specs.Machines.{numbers};

use crate::machines::Machine;
use lrgrammar::idx::{IndexStorage, TIdx};
use std::alloc::AllocError;

/// Whether the machine shifts a token behind a text.
fn shifts_behind(
    machine: &Machine,
    text: &[TIdx<u32>],
    token: TIdx<u32>,
) -> Result<bool, AllocError>
    requires named { AreNamed machine.now.grammar (numbers text.now) }
    requires token { token.0 < end_token machine.now.grammar }
    ensures { IfOk result (λ b.
        IsTrue b ↔ IsShiftedBehind machine.now (numbers text.now) token.0) }
{
    let mut tried = text.to_vec(machine.allocator())?;
    tried.push(token)?;
    Ok(machine.shifted(tried.as_slice())? == tried.len())
}

/// The tokens that the machine shifts behind a text, by their numbers.
pub(crate) fn tokens_behind(machine: &Machine, text: &[TIdx<u32>]) -> Result<Vec<usize>, AllocError>
    requires { AreNamed machine.now.grammar (numbers text.now) }
    ensures { IfOk result (λ v. AreShiftedBehind machine.now (numbers text.now)
        (end_token machine.now.grammar) v.items) }
{
    let mut tokens = Vec::new(machine.allocator());
    for number in 0..machine.tokens_len() {
        let token = TIdx(u32::from_usize(number).unwrap());
        if shifts_behind(machine, text, token)? {
            tokens.push(number)?;
        }
    }
    Ok(tokens)
}
