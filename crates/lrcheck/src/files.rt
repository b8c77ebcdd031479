//! Files that are read, checked and told of.

ghost use Rattle.std.specs.Prelude.{◌≡◌, ℕ, List, Option, None, IfOk, OnOk, IfSome, is_some, map, string_bytes};
ghost use Rattle.std.specs.Io.KnownBytes.{Appends};
ghost use Rattle.lrcheck.specs.Checked.{AreChecked, IsOutcomeOf, IsPageStatus, outcome_status, text_of};

use crate::pages::write_page;
use crate::terminals::Progress;
use lrreport::{Options, Report, report_on};
use std::alloc::{AllocError, Global};
use std::fs;
use std::io::{self, Read, Write};

/// The name of standard input.
pub(crate) const INPUT: &str = "-";

/// Why the program can't go on.
#[derive(Clone, Copy)]
pub(crate) enum Stop {
    Memory,
    Output,
}

impl From<AllocError> for Stop {
    fn from(_refused: AllocError) -> Stop {
        Stop::Memory
    }
}

/// What comes of a file.
#[derive(Drop)]
pub(crate) enum Outcome {
    Checked(Report),
    Unread(io::Error),
}

/// All bytes that a reader has left.
fn bytes_of<R: Read + Drop>(alloc: Global, mut reader: R) -> io::Result<Vec<u8>>
    ensures bytes { IfOk result (λ bytes. IfSome (R.remaining reader) (λ all. bytes.items ≡ all)) }
{
    let mut bytes = Vec::new(alloc);
    reader.read_to_end(&mut bytes)?;
    Ok(bytes)
}

/// Files by their names.
pub(crate) trait Files {
    // What stands in the file of a name, where that is known.
    ghost contents: { Self → List ℕ → Option (List ℕ) };

    /// The bytes of the file of that name.
    fn read(&self, name: &str) -> io::Result<Vec<u8>>
        ensures { IfOk result (λ bytes.
            IfSome (contents self.now name.now) (λ all. bytes.items ≡ all)) };
}

/// Those of the system, and standard input, of which nothing is known before they are read.
impl Files for HostRuntime {
    ghost contents = { λ rt name. None };

    fn read(&self, name: &str) -> io::Result<Vec<u8>> {
        if name == INPUT {
            bytes_of(self.alloc(), self.stdin())
        } else {
            bytes_of(self.alloc(), fs::File::open(self, name)?)
        }
    }
}

/// Reads a file and checks it.
pub(crate) fn check<F: Files>(
    alloc: Global,
    files: &F,
    name: &str,
    options: Options,
) -> Result<Outcome, AllocError>
    ensures { IfOk result (IsOutcomeOf options (F.contents files.now) name.now) }
{
    match files.read(name) {
        Ok(bytes) => {
            let report = report_on(alloc, name, bytes.as_slice(), options)?;
            Ok(Outcome::Checked(report))
        }
        Err(error) if error.kind() == io::ErrorKind::OutOfMemory => Err(AllocError),
        Err(error) => Ok(Outcome::Unread(error)),
    }
}

/// Writes a report, and answers its exit status where all of it was written.
fn write_report<W: Write>(output: &mut W, report: &Report) -> Result<u8, Stop>
    ensures status { IfOk result (λ status. status ≡ report.now.status) }
    ensures written { OnOk result (Appends (W.contents output.old) (W.contents output.new)
        (string_bytes report.now.text)) }
{
    match output.write_all(report.text.as_bytes()) {
        Ok(()) => Ok(report.status),
        Err(_) => Err(Stop::Output),
    }
}

/// Writes a text.
pub(crate) fn write<W: Write>(output: &mut W, text: &str) -> Result<(), Stop> {
    match output.write_all(text.as_bytes()) {
        Ok(()) => Ok(()),
        Err(_) => Err(Stop::Output),
    }
}

/// Tells why a file can't be read, and answers the exit status.
pub(crate) fn tell_unread(rt: &HostRuntime, name: &str, error: &io::Error) -> u8
    ensures { result ≡ 2 }
{
    let name = if name == INPUT {
        "standard input"
    } else {
        name
    };
    let _ = eprintln!(rt; "lrcheck: cannot read {name}: {error}");
    2
}

/// Tells what came of a file, and answers the exit status.
fn tell<W: Write>(
    rt: &HostRuntime,
    output: &mut W,
    name: &str,
    outcome: &Outcome,
) -> Result<u8, Stop>
    ensures status { IfOk result (λ status. status ≡ outcome_status outcome.now) }
    ensures written { OnOk result (Appends (W.contents output.old) (W.contents output.new)
        (text_of outcome.now)) }
{
    match outcome {
        Outcome::Checked(report) => write_report(output, report),
        Outcome::Unread(error) => Ok(tell_unread(rt, name, error)),
    }
}

/// Writes the page of what came of a file, where there is one, to a path, if any; tells where that fails, and answers the exit
/// status.
fn tell_page(rt: &HostRuntime, outcome: &Outcome, path: Option<&str>) -> u8
    ensures { IsPageStatus (is_some path.entry) result }
{
    let (Outcome::Checked(report), Some(path)) = (outcome, path) else {
        return 0;
    };
    let Some(page) = &report.page else {
        return 0;
    };
    match write_page(rt, path, page.as_str()) {
        Ok(()) => 0,
        Err(error) => {
            let _ = eprintln!(rt; "lrcheck: cannot write {path}: {error}");
            2
        }
    }
}

/// Checks the files in turn, writes what there is to tell of them, and answers the greatest exit status. The page of a file is
/// written to that path.
pub(crate) fn check_all<F: Files, W: Write>(
    rt: &HostRuntime,
    files: &F,
    output: &mut W,
    names: &[&str],
    options: Options,
    page: Option<&str>,
    mut progress: Progress,
) -> Result<u8, Stop>
    ensures { IfOk result (AreChecked options (F.contents files.now) (is_some page.entry)
        (W.contents output.old) (map (λ name. name.now) names.now) (W.contents output.new)) }
{
    let mut status = 0;
    for k in 0..names.len() {
        progress.show(rt, k + 1, names.len(), names[k]);
        let outcome = check(rt.alloc(), files, names[k], options);
        progress.clear(rt);
        let outcome = outcome?;
        let told = tell(rt, output, names[k], &outcome)?.max(status);
        status = told.max(tell_page(rt, &outcome, page));
    }
    Ok(status)
}
