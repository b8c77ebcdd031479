//! `lrcheck`: tells whether the grammar of a Yacc or Bison file has conflicts, and where the file has faults.
#![tactic(auto)]

mod command_line;
mod files;
mod pages;
mod sarif;
mod sentences;
mod terminals;

use crate::command_line::{command_line, line_steps, options_of};
use crate::files::{INPUT, Stop, check_all};
use crate::pages::is_over_input;
use crate::sarif::write_log;
use crate::sentences::try_sentences;
use crate::terminals::{Progress, lines_of};
use clap::error::ErrorKind;
use clap::{ArgMatches, Command};
use lrreport::{Options, Output};
use std::process::ExitCode;
use std::{env, io};

/// The arguments with the program's name.
fn arguments(rt: &HostRuntime) -> io::Result<Vec<String>> {
    let mut args = Vec::new(rt.alloc());
    for arg in env::args(rt)? {
        args.push(arg)?;
    }
    Ok(args)
}

/// Tells what clap says instead of what was asked for: help, version or wrong usage. Answers the exit status.
fn tell_usage(rt: &HostRuntime, error: &clap::Error) -> Result<u8, Stop> {
    if error.kind() == ErrorKind::OutOfMemory {
        return Err(Stop::Memory);
    }
    let is_told = error.print(rt).is_ok();
    if error.use_stderr() {
        Ok(2)
    } else if is_told {
        Ok(0)
    } else {
        Err(Stop::Output)
    }
}

/// Why files of these names can't be checked in one call; None where they can.
fn refusal_of_files(rt: &HostRuntime, names: &[&str], page: Option<&str>) -> Option<&'static str> {
    if names.iter().filter(|name| **name == INPUT).count() > 1 {
        return Some("standard input, -, can be read once only");
    }
    let page = page?;
    if names.len() > 1 {
        return Some("a page, --page, can be of one file only");
    }
    if names.iter().any(|name| is_over_input(rt, page, name)) {
        return Some("a page, --page, can't be written over the file itself");
    }
    None
}

/// Why sentences can't be tried by files of these names; None where they can.
fn refusal_of_sentences(names: &[&str]) -> Option<&'static str> {
    match names {
        [INPUT] => Some("the file can't be standard input, -, which has the lines for --parse"),
        [_] => None,
        _ => Some("lines, --parse, can be tried with one file only"),
    }
}

/// Why what the options and names say can't be done, and what kind of fault that is; None where it can.
fn refusal(
    rt: &HostRuntime,
    matches: &ArgMatches<'_>,
    names: &[&str],
    page: Option<&str>,
) -> Option<(ErrorKind, &'static str)> {
    let has_states = matches.get_flag("states") && !matches.get_flag("json");
    if has_states && matches.get_flag("grammar") {
        let message = "the argument '--states' cannot be used with '--grammar'";
        return Some((ErrorKind::ArgumentConflict, message));
    }
    let message = if matches.get_flag("parse") {
        refusal_of_sentences(names)
    } else {
        refusal_of_files(rt, names, page)
    };
    Some((ErrorKind::TooManyValues, message?))
}

/// Does what the options and names say, and answers the exit status.
fn check_named(
    rt: &HostRuntime,
    command: &mut Command<'_>,
    matches: &ArgMatches<'_>,
    progress: Progress,
) -> Result<u8, Stop> {
    let names: &[&str] = matches.get_strs("FILE").unwrap_or(&[]);
    let page = matches.get_str("page");
    let is_parsing = matches.get_flag("parse");
    if let Some((kind, message)) = refusal(rt, matches, names, page) {
        let error = command.error(kind, message)?;
        return tell_usage(rt, &error);
    }
    let options = options_of(matches);
    let options = Options {
        lines: lines_of(rt, options)?,
        ..options
    };
    match names {
        [name] if is_parsing => {
            try_sentences(rt, name, options, line_steps(matches), &mut rt.stdout())
        }
        _ if options.output == Output::Sarif => {
            write_log(rt, rt, &mut rt.stdout(), names, options, progress)
        }
        _ => check_all(rt, rt, &mut rt.stdout(), names, options, page, progress),
    }
}

/// Does what the words say, and answers the exit status.
fn act(rt: &HostRuntime, words: &[String], progress: Progress) -> Result<u8, Stop> {
    let mut command = command_line(rt.alloc())?;
    match command.try_get_matches_from_mut(words) {
        Ok(matches) => check_named(rt, &mut command, &matches, progress),
        Err(error) => tell_usage(rt, &error),
    }
}

/// Tells why the program stopped, and answers the exit status.
fn tell_stop(rt: &HostRuntime, stop: Stop) -> u8 {
    let why = match stop {
        Stop::Memory => "out of memory",
        Stop::Output => "cannot write standard output",
    };
    let _ = eprintln!(rt; "lrcheck: {why}");
    2
}

/// Takes the arguments, does what they say, and answers the exit status.
fn run(rt: &HostRuntime) -> Result<u8, Stop> {
    let progress = Progress::new(rt);
    match arguments(rt) {
        Ok(words) => act(rt, words.as_slice(), progress),
        Err(error) if error.kind() == io::ErrorKind::OutOfMemory => Err(Stop::Memory),
        Err(_) => {
            let _ = eprintln!(rt; "lrcheck: an argument is not UTF-8");
            Ok(2)
        }
    }
}

fn main(rt: HostRuntime) -> ExitCode {
    let status = match run(&rt) {
        Ok(status) => status,
        Err(stop) => tell_stop(&rt, stop),
    };
    ExitCode::from(status)
}
