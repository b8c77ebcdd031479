//! How the parser of a file's grammar is made.

ghost use Rattle.std.specs.Prelude.{◌≡◌, IfOk};
ghost use Rattle.lrspec.specs.tables.Recognition.{AreNamed};
ghost use Rattle.lrshown.specs.DrawnTrees.{body};
ghost use Rattle.lrparsing.specs.Machines.{numbers};
ghost use Rattle.lrparsing.specs.Parsers.{IsParserOf, choice, known_token};

use crate::machines::Machine;
use crate::parsers::Parser;
use crate::spellings::spellings_of;
use lrfindings::{FindError, Findings, find};
use lrgrammar::grammar::PartSymbol;
use lrgrammar::idx::{IndexStorage, TIdx};
use lrshown::body_of;
use lryacc::FileGrammar;
use std::alloc::{AllocError, Global};

/// The token by which the first start rule is chosen, where there are several.
fn start_token(file: &FileGrammar) -> Option<usize>
    ensures { result ≡ choice (body file.now 0) }
{
    match body_of(file, 0) {
        [PartSymbol::Token(token), _, _] => Some(*token),
        _ => None,
    }
}

/// A token by its number in a list of its own; no token where the grammar of the machine has none of that number.
fn listed(
    alloc: Global,
    machine: &Machine,
    number: Option<usize>,
) -> Result<Vec<TIdx<u32>>, AllocError>
    ensures token { IfOk result (λ v. numbers v.items ≡ known_token machine.now.grammar number) }
    ensures named { IfOk result (λ v. AreNamed machine.now.grammar (numbers v.items)) }
{
    let mut list = Vec::new(alloc);
    if let Some(number) = number {
        if number < machine.tokens_len() {
            list.push(TIdx(u32::from_usize(number).unwrap()))?;
        }
    }
    Ok(list)
}

impl Parser {
    /// The parser of a grammar that was read of a text, with its precedences or without them. It makes so many steps on a line at
    /// the most.
    pub fn new(
        alloc: Global,
        text: &[u8],
        file: FileGrammar,
        has_precedences: bool,
        steps: usize,
    ) -> Result<Parser, FindError>
        ensures { IfOk result (IsParserOf file has_precedences steps) }
    {
        let Findings { grm, table, .. } = find(alloc, &file, has_precedences, false)?;
        let machine = Machine::new(grm, table, steps);
        Ok(Parser {
            spellings: spellings_of(alloc, &file, text, machine.tokens_len())?,
            front: listed(alloc, &machine, start_token(&file))?,
            behind: listed(alloc, &machine, Some(0))?,
            file,
            machine,
        })
    }
}
