//! Calls for C, and for languages that call C: the report on a grammar text, the table of its grammar as numbers, and the names
//! of its tokens and rules. A call takes slices, in C a pointer and a length each, and hands out no pointer.
#![tactic(auto)]

mod answers;
mod reports;
mod tables;

ghost use Rattle.std.specs.Prelude.{◌≡◌, ◌⊎◌, ◌^◌, ◌-◌};
ghost use Rattle.lrc.specs.Told.{IsTold, IsTable};

use crate::answers::answer;
use crate::reports::report_of;
use crate::tables::{names_of, table_of};
use std::alloc::Global;

/// Writes the report on a grammar text as far as there is room for it, and answers how many bytes it has. The kinds are 0 for the
/// report of `lrcheck`, 1 for the verdict alone, 2 for JSON with the grammar, and 3 for a page. The answer is 0 where there is no
/// such kind, or no page since the text is no grammar, as its other reports tell; and the greatest number where memory was
/// refused: nothing is written then.
#[unsafe(no_mangle)]
pub extern "C" fn lrc_report(alloc: Global, text: &[u8], kind: u32, out: &mut [u8]) -> usize
    ensures kept { (result ≡ 0) ⊎ (result ≡ 2 ^ 64 - 1) → out.new ≡ out.old }
    ensures told { (result ≡ 0) ⊎ ((result ≡ 2 ^ 64 - 1) ⊎ IsTold result out.old out.new) }
{
    answer(report_of(alloc, text, kind), out)
}

/// Writes the table of the grammar of a text as far as there is room for it, in the form of `lrflat::flat_table`, and answers how
/// many numbers it has. The answer is 0 where the text is no grammar or its grammar has no table, of which `lrc_report` tells why;
/// and the greatest number where memory was refused, or a number has more than 32 bits: nothing is written then.
#[unsafe(no_mangle)]
pub extern "C" fn lrc_table(alloc: Global, text: &[u8], out: &mut [u32]) -> usize
    ensures kept { (result ≡ 0) ⊎ (result ≡ 2 ^ 64 - 1) → out.new ≡ out.old }
    ensures told { (result ≡ 0)
        ⊎ ((result ≡ 2 ^ 64 - 1) ⊎ IsTable text.now result out.old out.new) }
{
    answer(table_of(alloc, text), out)
}

/// Writes the names of the tokens and then of the rules of a grammar text, a line each, in the order of the numbers that the table
/// has for them, as far as there is room for them, and answers how many bytes that are. The answer is 0 where the text is no
/// grammar, and the greatest number where memory was refused: nothing is written then.
#[unsafe(no_mangle)]
pub extern "C" fn lrc_names(alloc: Global, text: &[u8], out: &mut [u8]) -> usize
    ensures kept { (result ≡ 0) ⊎ (result ≡ 2 ^ 64 - 1) → out.new ≡ out.old }
    ensures told { (result ≡ 0) ⊎ ((result ≡ 2 ^ 64 - 1) ⊎ IsTold result out.old out.new) }
{
    answer(names_of(alloc, text), out)
}
