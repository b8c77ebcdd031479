//! Lines that the machine of a grammar answers.

ghost use Rattle.std.specs.Prelude.{◌≡◌, ◌⊎◌, IfOk, IfErr, OnOk, OnErr};
ghost use Rattle.std.specs.Option.{IsSomeAnd};
ghost use Rattle.lrspec.specs.tables.Table.{IsTableFor};
ghost use Rattle.lrcommand.specs.Requests.{bytes_of, name_of};
ghost use Rattle.lrcommand.specs.Lines.{HasTable, HasMachine, AnswersAll, AnswersBeginning};
ghost use Rattle.lrcommand.specs.Lines.{reply_text, IsTableFault, IsLinesFault};

use crate::faults::Fault;
use crate::printing::grammar_of;
use crate::requests::{Reply, Source};
use lrgrammar::grammar::YaccGrammar;
use lrtable::machine::{Counted, LineError, LineRead, LineWrite, run_lines};
use lrtable::{Minimiser, StateTable, from_yacc};
use lrtree::tree_lines;
use std::alloc::Global;
use std::io::{Read, Write};

/// Answers the lines of a reader by the machine of a grammar, each by such a reply in at most so many steps; `file`
/// holds the bytes of the grammar's source, and is None where they could not be read. The answers go to `out`, which is
/// given back.
pub fn answer_input<'a, R: Read + Drop, W: Write>(
    alloc: Global,
    reply: Reply,
    steps: usize,
    source: Source<'a>,
    file: Option<&[u8]>,
    reader: R,
    out: W,
) -> (Result<(), Fault<'a>>, W)
    ensures all { OnOk result.0 (
        HasMachine (bytes_of file.entry) reply steps (λ answer.
        AnswersAll answer (R.remaining reader) (W.contents out) (W.contents result.1))) }
    ensures fault { IfErr result.0 (IsLinesFault (bytes_of file.entry)
        (name_of source.entry)) }
    ensures beginning { OnErr result.0 ((result.1 ≡ out)
        ⊎ HasMachine (bytes_of file.entry) reply steps (λ answer.
        AnswersBeginning answer (R.remaining reader) (W.contents out) (W.contents result.1))) }
{
    let (grm, table) = match machine_of(alloc, source, file) {
        Ok(machine) => machine,
        Err(fault) => return (Err(fault), out),
    };
    let (answered, out) = answer_and_flush(&grm, &table, reply, steps, reader, out);
    (answered.map_err(|error| Fault::Lines(error)), out)
}

/// The grammar that the source means, and its table.
fn machine_of<'a>(
    alloc: Global,
    source: Source<'a>,
    file: Option<&[u8]>,
) -> Result<(YaccGrammar<u32>, StateTable<u32>), Fault<'a>>
    ensures machine { IfOk result (λ m. IsSomeAnd (bytes_of file.entry)
        (λ bytes. HasTable bytes m.0 m.1)) }
    ensures table { IfOk result (λ m. IsTableFor m.0 m.1) }
    ensures fault { IfErr result (IsTableFault (bytes_of file.entry)
        (name_of source.entry)) }
{
    let grm = grammar_of(alloc, source, file)?;
    let (_graph, table) = from_yacc(alloc, &grm, Minimiser::Pager)?;
    Ok((grm, table))
}

/// Answers all lines of a reader on a writer, which is flushed and given back.
fn answer_and_flush<R: Read + Drop, W: Write>(
    grm: &YaccGrammar<u32>,
    table: &StateTable<u32>,
    reply: Reply,
    steps: usize,
    reader: R,
    out: W,
) -> (Result<(), LineError>, W)
    requires { IsTableFor grm.now table.now }
    ensures all { OnOk result.0 (AnswersAll (reply_text reply grm.now table.now steps)
        (R.remaining reader) (W.contents out) (W.contents result.1)) }
    ensures beginning { AnswersBeginning (reply_text reply grm.now table.now steps)
        (R.remaining reader) (W.contents out) (W.contents result.1) }
{
    let mut reader = Counted::new(reader);
    let mut writer = Counted::new(out);
    let answered = reply_lines(grm, table, reply, steps, &mut reader, &mut writer);
    let mut out = writer.into_inner();
    let flushed = out.flush().map_err(|_| LineError::Write);
    (answered.and(flushed), out)
}

/// Answers all lines of a reader on a writer, as the reply says.
fn reply_lines<R: LineRead, W: LineWrite>(
    grm: &YaccGrammar<u32>,
    table: &StateTable<u32>,
    reply: Reply,
    steps: usize,
    reader: &mut R,
    writer: &mut W,
) -> Result<(), LineError>
    requires { IsTableFor grm.now table.now }
    ensures all { OnOk result (AnswersAll (reply_text reply grm.now table.now steps)
        (R.left reader.old) (W.written writer.old) (W.written writer.new)) }
    ensures beginning { AnswersBeginning (reply_text reply grm.now table.now steps)
        (R.left reader.old) (W.written writer.old) (W.written writer.new) }
{
    let alloc = grm.allocator();
    match reply {
        Reply::Run => run_lines(alloc, reader, writer, grm, table, steps),
        Reply::Tree => tree_lines(alloc, reader, writer, grm, table, steps),
    }
}
