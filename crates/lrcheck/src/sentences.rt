//! Sentences that are read line by line, each answered by its tree or by where it is rejected.

use crate::files::{Files, INPUT, Stop, tell_unread, write};
use lrfindings::FindError;
use lrparsing::{Answer, Parser};
use lrreport::{Options, push_drawing, report_on};
use lrwriter::Text;
use lryacc::{FileRead, read_file};
use std::alloc::{AllocError, Global};
use std::io::{self, BufRead, BufReader, ErrorKind, Write};

/// The parser of the grammar in a file of these bytes; None where they are no grammar, or it has no table.
fn parser_of(
    alloc: Global,
    bytes: &[u8],
    options: Options,
    steps: usize,
) -> Result<Option<Parser>, AllocError> {
    let FileRead::Grammar(file, ..) = read_file(alloc, bytes, options.dialect)? else {
        return Ok(None);
    };
    match Parser::new(alloc, bytes, file, !options.ignores_precedences, steps) {
        Ok(parser) => Ok(Some(parser)),
        Err(FindError::Memory) => Err(AllocError),
        Err(_) => Ok(None),
    }
}

/// A line without what ends it: a line feed, and a carriage return before that.
fn without_end(line: &[u8]) -> &[u8] {
    match line {
        [front @ .., b'\r', b'\n'] => front,
        [front @ .., b'\n'] => front,
        _ => line,
    }
}

/// What is told of a line: of a sentence its tree, drawn where that is wanted.
fn told(
    alloc: Global,
    parser: &Parser,
    answer: &Answer<'_>,
    options: Options,
) -> Result<String, AllocError> {
    let mut text = Text::new(alloc);
    match answer {
        Answer::Sentence(tree) if options.detail.trees => {
            let is_plain = options.lines.is_plain;
            push_drawing(&mut text, &parser.file, tree, usize::MAX, 0, is_plain)?;
        }
        _ => parser.add_answer(&mut text, answer)?,
    }
    text.finish()
}

/// Answers a line, and answers the exit status: 0 for a sentence, and 1 for what is none.
fn answer_line<W: Write>(
    alloc: Global,
    parser: &Parser,
    line: &[u8],
    options: Options,
    output: &mut W,
) -> Result<u8, Stop> {
    let answer = parser.answer(without_end(line))?;
    write(output, told(alloc, parser, &answer, options)?.as_str())?;
    match answer {
        Answer::Sentence(_) => Ok(0),
        _ => Ok(1),
    }
}

/// Tells why a file can't be read, or standard input not any more, and answers the exit status.
fn tell_fault(rt: &HostRuntime, name: &str, error: &io::Error) -> Result<u8, Stop> {
    if error.kind() == ErrorKind::OutOfMemory {
        return Err(Stop::Memory);
    }
    Ok(tell_unread(rt, name, error))
}

/// Answers the lines of standard input in turn, each before the next is read, and answers the greatest exit status.
fn answer_input<W: Write>(
    rt: &HostRuntime,
    parser: &Parser,
    options: Options,
    output: &mut W,
) -> Result<u8, Stop> {
    let mut reader = match BufReader::new(rt.alloc(), rt.stdin()) {
        Ok(reader) => reader,
        Err(error) => return tell_fault(rt, INPUT, &error),
    };
    let mut line = Vec::new(rt.alloc());
    let mut status = 0;
    for _ in 0..u64::MAX {
        line.clear();
        match reader.read_until(b'\n', &mut line) {
            Ok(0) => return Ok(status),
            Ok(_) => {
                status = answer_line(rt.alloc(), parser, line.as_slice(), options, output)?.max(
                    status,
                );
            }
            Err(error) => return tell_fault(rt, INPUT, &error),
        }
    }
    Ok(status)
}

/// Tries each line of standard input as a sentence of the grammar in the file of that name, and answers the exit status. Where
/// there is no such grammar it is told why.
pub(crate) fn try_sentences<W: Write>(
    rt: &HostRuntime,
    name: &str,
    options: Options,
    steps: usize,
    output: &mut W,
) -> Result<u8, Stop> {
    let bytes = match rt.read(name) {
        Ok(bytes) => bytes,
        Err(error) => return tell_fault(rt, name, &error),
    };
    match parser_of(rt.alloc(), bytes.as_slice(), options, steps)? {
        Some(parser) => answer_input(rt, &parser, options, output),
        None => {
            let report = report_on(rt.alloc(), name, bytes.as_slice(), options)?;
            write(output, report.text.as_str())?;
            Ok(report.status)
        }
    }
}
