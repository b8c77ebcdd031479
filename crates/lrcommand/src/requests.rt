//! What the arguments ask for.

ghost use Rattle.std.specs.Prelude.{◌≡◌, ◌≢◌, ℕ, None, Some, IfSome, MatchOption, map};
ghost use Rattle.std.specs.String.{string_bytes};
ghost use Rattle.lrcommand.specs.declared.requests.Listing as listings;
ghost use Rattle.lrcommand.specs.declared.requests.Reply as replies;
ghost use Rattle.lrcommand.specs.Requests.{Asks, AsksNothing, WritesSteps};
ghost use Rattle.lrcommand.specs.Requests.{listing_name, reply_name, name_of, source_text};

use std::fmt;

/// How the program is called.
pub const USAGE: &str =
    "usage: lrt start|core|closed|conflicts FILE | lrt run FILE STEPS | lrt tree FILE STEPS";

/// Where the text of a grammar is read from; each displays as it is named in a fault line.
#[derive(Clone, Copy, Debug)]
pub enum Source<'a> {
    /// The file of that name.
    File(&'a str),
    StandardInput,
}

impl fmt::Display for Source<'_> {
    ghost output = { λ source. Some (source_text source) };

    fn fmt<W: fmt::Write>(&self, f: &mut fmt::Formatter<W>) -> fmt::Result {
        match self {
            Source::File(name) => write!(f, "{name}"),
            Source::StandardInput => write!(f, "standard input"),
        }
    }
}

/// What is printed of a grammar.
#[derive(Clone, Copy, Debug)]
pub enum Listing {
    /// The closed start state.
    Start,
    /// The state graph with the cores of its states.
    Core,
    /// The state graph with its closed states.
    Closed,
    /// The conflicts of the table.
    Conflicts,
}

/// What a line is answered by.
#[derive(Clone, Copy, Debug)]
pub enum Reply {
    /// How the machine runs on its tokens.
    Run,
    /// The tree of its tokens.
    Tree,
}

/// What the program does with a grammar.
#[derive(Clone, Copy, Debug)]
pub enum Command {
    /// It prints something of the grammar.
    Print(Listing),
    /// It answers the lines of standard input by the grammar's machine, each by such a reply in at most so many steps.
    Answer(Reply, usize),
}

/// A command, and where the grammar is read from that it is about.
#[derive(Clone, Copy)]
pub struct Request<'a> {
    pub command: Command,
    pub source: Source<'a>,
}

/// What the word says that is printed.
fn listing_named(word: &str) -> Option<Listing>
    ensures { MatchOption result ((listing : listings.Listing) → listing_name listing ≢ word.now)
        (λ listing. listing_name listing ≡ word.now) }
{
    if word == "start" {
        Some(Listing::Start)
    } else if word == "core" {
        Some(Listing::Core)
    } else if word == "closed" {
        Some(Listing::Closed)
    } else if word == "conflicts" {
        Some(Listing::Conflicts)
    } else {
        None
    }
}

/// What the word says that lines are answered by.
fn reply_named(word: &str) -> Option<Reply>
    ensures { MatchOption result ((reply : replies.Reply) → reply_name reply ≢ word.now)
        (λ reply. reply_name reply ≡ word.now) }
{
    if word == "run" {
        Some(Reply::Run)
    } else if word == "tree" {
        Some(Reply::Tree)
    } else {
        None
    }
}

/// The number of steps that the digits write.
fn steps_written(digits: &str) -> Option<usize>
    ensures { MatchOption result ((steps : ℕ) → ¬ (WritesSteps digits.now steps))
        (λ steps. WritesSteps digits.now steps) }
{
    // Numbers of std may have a sign.
    if digits.starts_with('+') {
        return None;
    }
    digits.parse().ok()
}

/// What the arguments, without the program's name, ask for; None where they are wrong usage.
pub fn requested(args: &[String]) -> Option<Request<'_>>
    ensures some { IfSome result (λ r.
        Asks (map string_bytes args.now) r.command (name_of r.source)) }
    ensures none { result ≡ None → AsksNothing (map string_bytes args.now) }
{
    let (command, source) = match args {
        [] => (Command::Print(Listing::Start), Source::StandardInput),
        [word, file] => (
            Command::Print(listing_named(word.as_str())?),
            Source::File(file.as_str()),
        ),
        [word, file, digits] => (
            Command::Answer(reply_named(word.as_str())?, steps_written(digits.as_str())?),
            Source::File(file.as_str()),
        ),
        _ => return None,
    };
    Some(Request { command, source })
}
