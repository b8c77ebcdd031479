//! The log of SARIF of files.

use crate::command_line::VERSION;
use crate::files::{Files, Outcome, Stop, check, tell_unread, write};
use crate::terminals::Progress;
use lrreport::{Options, SARIF_TAIL, sarif_head};
use std::alloc::AllocError;
use std::io::Write;

/// Adds the results of a file to a log that has some already, or none, and answers whether it has some now.
fn add_results(log: &mut String, results: &str, has_some: bool) -> Result<bool, AllocError> {
    if results.is_empty() {
        return Ok(has_some);
    }
    if has_some {
        log.push(',')?;
    }
    log.push_str(results)?;
    Ok(true)
}

/// Checks the files in turn, and writes one log of all that was found in them. Answers the greatest exit status.
pub(crate) fn write_log<F: Files, W: Write>(
    rt: &HostRuntime,
    files: &F,
    output: &mut W,
    names: &[&str],
    options: Options,
    mut progress: Progress,
) -> Result<u8, Stop> {
    let mut log = sarif_head(rt.alloc(), VERSION)?;
    let mut status = 0;
    let mut has_some = false;
    for k in 0..names.len() {
        progress.show(rt, k + 1, names.len(), names[k]);
        let outcome = check(rt.alloc(), files, names[k], options);
        progress.clear(rt);
        match outcome? {
            Outcome::Checked(report) => {
                has_some = add_results(&mut log, report.text.as_str(), has_some)?;
                status = report.status.max(status);
            }
            Outcome::Unread(error) => status = tell_unread(rt, names[k], &error),
        }
    }
    log.push_str(SARIF_TAIL)?;
    write(output, log.as_str())?;
    Ok(status)
}
