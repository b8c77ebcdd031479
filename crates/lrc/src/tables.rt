//! The table of the grammar of a text, and the names of its tokens and rules.

ghost use Rattle.std.specs.Prelude.{IfOk};
ghost use Rattle.lrc.specs.Told.{IsFlat, IsSaidBy};

use crate::answers::Problem;
use lrfindings::{FindError, find};
use lrflat::{FlatError, flat_table};
use lrwriter::Text;
use lryacc::{Dialect, FileGrammar, FileRead, read_file};
use std::alloc::Global;

impl From<FindError> for Problem {
    fn from(error: FindError) -> Problem {
        match error {
            FindError::TooLarge | FindError::Memory => Problem::Size,
            _ => Problem::Input,
        }
    }
}

impl From<FlatError> for Problem {
    fn from(_error: FlatError) -> Problem {
        Problem::Size
    }
}

/// The grammar that a text is read as.
fn grammar_of(alloc: Global, text: &[u8]) -> Result<FileGrammar, Problem>
    ensures { IfOk result (IsSaidBy text.now) }
{
    match read_file(alloc, text, Dialect::Bison)? {
        FileRead::Grammar(file, _, _, _) => Ok(file),
        FileRead::Faults(_) => Err(Problem::Input),
    }
}

/// The table of the grammar of a text, as one list of numbers.
pub(crate) fn table_of(alloc: Global, text: &[u8]) -> Result<Vec<u32>, Problem>
    ensures { IfOk result (λ v. IsFlat text.now v.items) }
{
    let file = grammar_of(alloc, text)?;
    let found = find(alloc, &file, true, false)?;
    Ok(flat_table(&found.grm, &found.table, found.states)?)
}

/// Adds a name, and the end of its line.
fn add_line(text: &mut Text, name: &str) {
    text.add(name);
    text.add_char('\n');
}

/// The names of the tokens and then of the rules of a text, a line each. The end token, the last one, has no name, and the first
/// rule is `^`.
pub(crate) fn names_of(alloc: Global, text: &[u8]) -> Result<Vec<u8>, Problem> {
    let file = grammar_of(alloc, text)?;
    let mut names = Text::new(alloc);
    for token in &file.parts.tokens {
        add_line(&mut names, token.name.as_str());
    }
    add_line(&mut names, "");
    add_line(&mut names, "^");
    for rule in &file.parts.rules {
        add_line(&mut names, rule.as_str());
    }
    Ok(names.finish()?.into_bytes())
}
