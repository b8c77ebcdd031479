//! One command, from its arguments to its exit status.

ghost use Rattle.std.specs.Prelude.{◌≡◌, ◌≢◌, ◌≤◌, ◌↔◌, ◌++◌, ◌⊎◌};
ghost use Rattle.std.specs.Prelude.{OnOk, OnErr, IfErr, IfSome, codes, map};
ghost use Rattle.std.specs.Io.KnownBytes.{Appends};
ghost use Rattle.std.specs.String.{string_bytes};
ghost use Rattle.lrcommand.specs.declared.faults.Fault.TheVariants as fault;
ghost use Rattle.lrcommand.specs.Requests.{bytes_of, name_of, AsksSome, AsksNothing, IfPrint, IfAnswer};
ghost use Rattle.lrcommand.specs.Printing.{PrintsSome, AppendsPrinted, IsPrintFault, fault_text};
ghost use Rattle.lrcommand.specs.Lines.{HasMachine, AnswersAll, AnswersBeginning};

use crate::faults::Fault;
use crate::lines::answer_input;
use crate::printing::listing_text;
use crate::requests::{Command, Listing, Request, Source, USAGE, requested};
use std::alloc::Global;
use std::io::{self, Read, Write};

/// Carries out the command that the arguments, without the program's name, ask for, and answers the exit status: 0 is
/// success, 1 a fault, 2 wrong usage.
///
/// `file` is what was read of the file that the arguments name, or of standard input where there are no arguments; None
/// where it could not be read, or no argument names a file. The answer goes to `out`, and a fault as one line to
/// `faults`; both are given back. `reader` is standard input, whose lines `run` and `tree` answer; no other command
/// reads it.
pub fn command<R: Read + Drop, W: Write, F: Write>(
    alloc: Global,
    args: &[String],
    file: Option<&[u8]>,
    reader: R,
    out: W,
    mut faults: F,
) -> (u8, W, F)
    ensures status { result.0 ≤ 2 }
    ensures printed { result.0 ≡ 0 → AsksSome (map string_bytes args.now) (λ command.
        IfPrint command (λ listing. AppendsPrinted (W.contents out) (W.contents result.1)
        (bytes_of file.entry) listing)) }
    // The reader is read to its end, and `out` grows by the answers to its lines.
    ensures ran { result.0 ≡ 0 → AsksSome (map string_bytes args.now) (λ command.
        IfAnswer command (λ reply steps.
        HasMachine (bytes_of file.entry) reply steps (λ answer.
        AnswersAll answer (R.remaining reader) (W.contents out) (W.contents result.1)))) }
    ensures silent { result.0 ≡ 0 → result.2 ≡ faults }
    // Only an answer that could not be written whole changes what `out` holds.
    ensures fault { result.0 ≡ 1 → AsksSome (map string_bytes args.now) (λ command.
        IfPrint command (λ listing.
        (result.1 ≡ out) ⊎ PrintsSome (bytes_of file.entry) listing)) }
    // Answering that has begun leaves a beginning of the answers.
    ensures run_fault { result.0 ≡ 1 → AsksSome (map string_bytes args.now) (λ command.
        IfAnswer command (λ reply steps. (result.1 ≡ out)
        ⊎ HasMachine (bytes_of file.entry) reply steps (λ answer.
        AnswersBeginning answer (R.remaining reader) (W.contents out) (W.contents result.1)))) }
    ensures usage { (result.0 ≡ 2) ↔ AsksNothing (map string_bytes args.now) }
    ensures untouched { result.0 ≡ 2 → result.1 ≡ out }
{
    let Some(request) = requested(args) else {
        let _ = tell_usage(&mut faults);
        return (2, out, faults);
    };
    let (done, out) = carry_out(alloc, &request, file, reader, out);
    match done {
        Ok(()) => (0, out, faults),
        Err(fault) => {
            let _ = tell(&fault, &mut faults);
            (1, out, faults)
        }
    }
}

/// Carries out a request, and gives `out` back.
fn carry_out<'a, R: Read + Drop, W: Write>(
    alloc: Global,
    request: &Request<'a>,
    file: Option<&[u8]>,
    reader: R,
    mut out: W,
) -> (Result<(), Fault<'a>>, W)
    ensures printed { OnOk result.0 (IfPrint request.now.command (λ listing.
        AppendsPrinted (W.contents out) (W.contents result.1)
        (bytes_of file.entry) listing)) }
    ensures ran { OnOk result.0 (IfAnswer request.now.command (λ reply steps.
        HasMachine (bytes_of file.entry) reply steps (λ answer.
        AnswersAll answer (R.remaining reader) (W.contents out) (W.contents result.1)))) }
    ensures print_fault { OnErr result.0 (IfPrint request.now.command (λ listing.
        (result.1 ≡ out) ⊎ PrintsSome (bytes_of file.entry) listing)) }
    ensures run_fault { OnErr result.0 (IfAnswer request.now.command (λ reply steps.
        (result.1 ≡ out)
        ⊎ HasMachine (bytes_of file.entry) reply steps (λ answer.
        AnswersBeginning answer (R.remaining reader) (W.contents out) (W.contents result.1)))) }
{
    match request.command {
        Command::Print(listing) => {
            let printed = print(alloc, listing, request.source, file, &mut out);
            (printed, out)
        }
        Command::Answer(reply, steps) => {
            answer_input(alloc, reply, steps, request.source, file, reader, out)
        }
    }
}

/// Prints what is asked for of a grammar.
fn print<'a, W: Write>(
    alloc: Global,
    listing: Listing,
    source: Source<'a>,
    file: Option<&[u8]>,
    out: &mut W,
) -> Result<(), Fault<'a>>
    ensures printed { OnOk result (AppendsPrinted (W.contents out.old) (W.contents out.new)
        (bytes_of file.entry) listing) }
    ensures fault { IfErr result (IsPrintFault (bytes_of file.entry)
        listing (name_of source.entry)) }
    ensures untouched { IfErr result (λ e. e ≢ fault.CannotWrite → out.new ≡ out.old) }
{
    let text = listing_text(alloc, listing, source, file)?;
    out.write_all(text.as_bytes())
        .map_err(|_| Fault::CannotWrite)?;
    out.flush().map_err(|_| Fault::CannotWrite)
}

/// Writes the line that tells how the program is called.
fn tell_usage<F: Write>(faults: &mut F) -> io::Result<()>
    ensures { OnOk result (Appends (F.contents faults.old) (F.contents faults.new)
        (USAGE.now ++ codes "\n")) }
{
    writeln!(faults, "{USAGE}")
}

/// Writes the line that tells a fault.
fn tell<F: Write>(fault: &Fault<'_>, faults: &mut F) -> io::Result<()>
    ensures { OnOk result (IfSome (fault_text fault.now) (λ text.
        Appends (F.contents faults.old) (F.contents faults.new)
        (codes "lrt: " ++ text ++ codes "\n"))) }
{
    writeln!(faults, "lrt: {fault}")
}
