//! What is written to a terminal alone: colours, and how far the work has come.

use lrreport::{Lines, Options, Output};
use std::alloc::AllocError;
use std::env::{self, VarError};
use std::io::IsTerminal;
use std::time::{Duration, Instant};

/// Takes away the line in which the cursor stands.
const CLEAR: &str = "\r\x1b[K";

/// Whether the user wants no colours: NO_COLOR is set to something.
fn refuses_colours(rt: &HostRuntime) -> Result<bool, AllocError> {
    match env::var(rt, "NO_COLOR") {
        Ok(value) => Ok(!value.is_empty()),
        Err(VarError::NotPresent) => Ok(false),
        Err(VarError::NotUnicode) => Ok(true),
        Err(VarError::OutOfMemory) => Err(AllocError),
    }
}

/// How many columns a terminal has that tells nothing of it.
const COLUMNS: usize = 80;

/// How many columns the lines of a report have at the most, which are folded at a terminal alone: as many as COLUMNS says,
/// between 60 and 120.
fn columns(rt: &HostRuntime, options: Options) -> Result<Option<usize>, AllocError> {
    if options.lines.is_plain || !rt.stdout().is_terminal() {
        return Ok(None);
    }
    let told = match env::var(rt, "COLUMNS") {
        Ok(value) => value.parse::<usize>().ok(),
        Err(VarError::OutOfMemory) => return Err(AllocError),
        Err(_) => None,
    };
    Ok(Some(told.unwrap_or(COLUMNS).clamp(60, 120)))
}

/// Whether a report has colours. What other programs read has none.
fn has_colours(rt: &HostRuntime, options: Options) -> Result<bool, AllocError> {
    let is_for_programs = matches!(
        options.output,
        Output::Json { .. } | Output::Grammar | Output::Sarif
    );
    if is_for_programs || options.lines.is_plain || !rt.stdout().is_terminal() {
        return Ok(false);
    }
    Ok(!refuses_colours(rt)?)
}

/// How the lines of a report are written.
pub(crate) fn lines_of(rt: &HostRuntime, options: Options) -> Result<Lines, AllocError> {
    Ok(Lines {
        columns: columns(rt, options)?,
        is_plain: options.lines.is_plain,
        has_colours: has_colours(rt, options)?,
    })
}

/// A line on standard error that tells which file is checked, where that is a terminal and a second has passed.
#[derive(Drop)]
pub(crate) struct Progress {
    /// When the program began; None where nothing is to be told.
    start: Option<Instant>,
    is_shown: bool,
}

impl Progress {
    /// The progress of a program that begins now.
    pub(crate) fn new(rt: &HostRuntime) -> Progress {
        let start = if rt.stderr().is_terminal() {
            Instant::now(rt).ok()
        } else {
            None
        };
        Progress {
            start,
            is_shown: false,
        }
    }

    /// Whether a second has passed.
    fn is_late(&self, rt: &HostRuntime) -> bool {
        let Some(start) = self.start else {
            return false;
        };
        match start.elapsed(rt) {
            Ok(time) => time >= Duration::from_secs(1),
            Err(_) => false,
        }
    }

    /// Tells that a file is checked, if a second has passed. A line that is too long for the terminal is cut by it.
    pub(crate) fn show(&mut self, rt: &HostRuntime, number: usize, count: usize, name: &str) {
        if self.is_late(rt) {
            let name = if name.chars().any(|character| character.is_control()) {
                "?"
            } else {
                name
            };
            let _ = eprint!(rt; "{CLEAR}\x1b[?7llrcheck: file {number} of {count}: {name}\x1b[?7h");
            self.is_shown = true;
        }
    }

    /// Takes the line away.
    pub(crate) fn clear(&mut self, rt: &HostRuntime) {
        if self.is_shown {
            let _ = eprint!(rt; "{CLEAR}");
            self.is_shown = false;
        }
    }
}
