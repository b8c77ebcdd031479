//! What the program is called with.

use clap::{Arg, ArgAction, ArgMatches, Command, value_parser};
use lrreport::{Detail, Dialect, Lines, Options, Output};
use std::alloc::{AllocError, Global};

/// The version of the program.
pub(crate) const VERSION: &str = "0.2.0";

/// What the help ends with.
const AFTER_HELP: &str = "Example:
  $ lrcheck --summary a.y b.y
  a.y: ambiguous (proved): 1 shift/reduce conflict, a sentence with two trees for it; the parser accepts every sentence (proved)
  b.y: unambiguous (proved): no sentence has two trees

Exit status, the greatest over the files:
  0  no conflicts, or just those that are expected; each line is a sentence
  1  conflicts, or others than are expected; a line is no sentence
  2  a file is no grammar or can't be read; memory or output fails; wrong usage";

/// How many steps a search takes where nothing else is said.
const STEPS: usize = 10_000;

/// How many steps a parser makes on a line where nothing else is said.
const LINE_STEPS: usize = 1_000_000;

/// An option without a value.
fn flag<'a>(alloc: Global, name: &'a str, help: &'a str) -> Arg<'a> {
    Arg::new(alloc, name)
        .long(name)
        .action(ArgAction::SetTrue)
        .help(help)
}

/// An option that doesn't tell the verdict alone.
fn output<'a>(alloc: Global, name: &'a str, help: &'a str) -> Result<Arg<'a>, AllocError> {
    flag(alloc, name, help).conflicts_with("summary")
}

/// Makes an option go with none of the others that say what is told.
fn alone<'a>(arg: Arg<'a>) -> Result<Arg<'a>, AllocError> {
    arg.conflicts_with("summary")?
        .conflicts_with("states")?
        .conflicts_with("json")?
        .conflicts_with("grammar")?
        .conflicts_with("settled")?
        .conflicts_with("page")
}

/// The option for results of SARIF.
fn sarif<'a>(alloc: Global) -> Result<Arg<'a>, AllocError> {
    let help = "Tells what was found as a log of SARIF 2.1.0";
    alone(flag(alloc, "sarif", help))?.conflicts_with("trees")
}

/// Adds the options that say what is told of each file. One of them can be given at most.
fn add_outputs<'a>(args: &mut Vec<Arg<'a>>) -> Result<(), AllocError> {
    let alloc = *args.allocator();
    args.push(flag(alloc, "summary", "Tells the verdict of each file alone"))?;
    let help = "Shows the states of the parser, or adds them to --json";
    args.push(output(alloc, "states", help)?)?;
    args.push(output(alloc, "json", "Tells what was found as JSON")?)?;
    let help = "Prints the grammar alone, as lrt reads it, or adds it to --json";
    args.push(output(alloc, "grammar", help)?)?;
    args.push(sarif(alloc)?)?;
    args.push(parse(alloc)?)?;
    Ok(())
}

/// An option that shows more than the verdict or the grammar.
fn detail<'a>(alloc: Global, name: &'a str, help: &'a str) -> Result<Arg<'a>, AllocError> {
    flag(alloc, name, help)
        .conflicts_with("summary")?
        .conflicts_with("grammar")
}

/// The option for drawings.
fn trees<'a>(alloc: Global) -> Result<Arg<'a>, AllocError> {
    detail(alloc, "trees", "Draws both trees of each sentence")?.conflicts_with("json")
}

/// Adds the options that say what is told more than that.
fn add_details<'a>(args: &mut Vec<Arg<'a>>) -> Result<(), AllocError> {
    let alloc = *args.allocator();
    let help = "Shows each conflict by itself, with its state, and all places of warnings";
    args.push(detail(alloc, "all", help)?)?;
    args.push(detail(alloc, "settled", "Shows also what precedences resolve")?)?;
    args.push(trees(alloc)?)?;
    Ok(())
}

/// Adds the options that say how it is told, and of which grammar.
fn add_settings<'a>(args: &mut Vec<Arg<'a>>) -> Result<(), AllocError> {
    let alloc = *args.allocator();
    let help = "Leaves precedences out of the grammars";
    args.push(flag(alloc, "without-precedences", help))?;
    args.push(flag(alloc, "plain", "Uses no colours, and folds no lines"))?;
    args.push(flag(alloc, "grmtools", "Takes each file for one of grmtools"))?;
    Ok(())
}

/// The number of conflicts that are expected.
fn expect<'a>(alloc: Global) -> Arg<'a> {
    Arg::new(alloc, "expect")
        .long("expect")
        .value_name("N")
        .value_parser(value_parser!(u64))
        .help("Expects N shift/reduce conflicts, whatever the file says")
}

/// How many steps searches may take.
fn steps<'a>(alloc: Global) -> Arg<'a> {
    Arg::new(alloc, "steps")
        .long("steps")
        .value_name("N")
        .value_parser(value_parser!(usize))
        .help("Looks for a sentence with two trees for N steps a conflict; 0 for no search")
}

/// Where a page is written.
fn page<'a>(alloc: Global) -> Result<Arg<'a>, AllocError> {
    Arg::new(alloc, "page")
        .long("page")
        .value_name("OUT.html")
        .help("Writes a page for a browser, of one file")
        .conflicts_with("grammar")
}

/// The files, one at least.
fn files<'a>(alloc: Global) -> Arg<'a> {
    Arg::new(alloc, "FILE")
        .required(true)
        .action(ArgAction::Append)
        .num_args(1..)
        .help("Grammar files of Yacc or Bison; - is standard input")
}

/// The option for sentences that are tried.
fn parse<'a>(alloc: Global) -> Result<Arg<'a>, AllocError> {
    let help = "Parses each line of standard input by the grammar, and tells its tree";
    alone(flag(alloc, "parse", help))?
        .conflicts_with("sarif")?
        .conflicts_with("all")?
        .conflicts_with("expect")
}

/// The words that the program can be called with.
pub(crate) fn command_line<'a>(alloc: Global) -> Result<Command<'a>, AllocError> {
    let mut args = Vec::new(alloc);
    args.push(files(alloc))?;
    add_outputs(&mut args)?;
    add_details(&mut args)?;
    add_settings(&mut args)?;
    args.push(expect(alloc))?;
    args.push(steps(alloc))?;
    args.push(page(alloc)?)?;
    Command::new(alloc, "lrcheck")
        .bin_name("lrcheck")?
        .version(VERSION)
        .about(
            "Tells whether grammars have conflicts, where they are, and which grammars are unambiguous",
        )
        .after_help(AFTER_HELP)
        .args(args)
}

/// What is told of each file.
fn output_of(matches: &ArgMatches<'_>) -> Output {
    if matches.get_flag("summary") {
        Output::Summary
    } else if matches.get_flag("sarif") {
        Output::Sarif
    } else if matches.get_flag("json") {
        Output::Json {
            has_grammar: matches.get_flag("grammar"),
        }
    } else if matches.get_flag("states") {
        Output::States
    } else if matches.get_flag("grammar") {
        Output::Grammar
    } else {
        Output::Report
    }
}

/// How many steps a parser may make on a line.
pub(crate) fn line_steps(matches: &ArgMatches<'_>) -> usize {
    matches.get_one::<usize>("steps").unwrap_or(LINE_STEPS)
}

/// How a report is made, where it goes to no terminal.
pub(crate) fn options_of(matches: &ArgMatches<'_>) -> Options {
    Options {
        output: output_of(matches),
        detail: Detail {
            all: matches.get_flag("all"),
            resolved: matches.get_flag("settled"),
            trees: matches.get_flag("trees"),
            states: matches.get_flag("states") && matches.get_flag("json"),
        },
        lines: Lines {
            columns: None,
            is_plain: matches.get_flag("plain"),
            has_colours: false,
        },
        steps: matches.get_one::<usize>("steps").unwrap_or(STEPS),
        ignores_precedences: matches.get_flag("without-precedences"),
        expected: matches.get_one::<u64>("expect"),
        makes_page: matches.get_str("page").is_some(),
        dialect: if matches.get_flag("grmtools") {
            Dialect::Grmtools
        } else {
            Dialect::Bison
        },
    }
}
