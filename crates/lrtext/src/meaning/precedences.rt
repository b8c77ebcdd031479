//! The precedences that the lines of a document give.

ghost use Rattle.std.specs.Prelude.{◌≡◌, ◌++◌, map, option_map, IsTrue, IfOk, OnOk, IfErr};
ghost use Rattle.lrspec.specs.texts.Names.{has_no_repeats};
ghost use Rattle.lrspec.specs.texts.Meaning.{names_at_level, precedences, precedence_in};
ghost use Rattle.lrtext.specs.StoredParts.{precedence_of};
ghost use Rattle.lrtext.specs.StoredContents.{kind_line_of, plain_contents};
ghost use Rattle.lrtext.specs.StoredLevels.{leveled_of, leveled_names, IsRepeat};

use crate::contents::{Contents, KindLine};
use crate::meaning::numbers::Numbers;
use crate::parts::Precedence;
use crate::reader::ReadError;
use std::alloc::{AllocError, Global};

/// A name and the precedence that its line gives it.
#[derive(Clone, Copy)]
pub(super) struct Leveled<'a> {
    pub name: &'a str,
    pub precedence: Precedence,
}

/// Appends the names of a line, with its level.
fn push_line<'a>(
    leveled: &mut Vec<Leveled<'a>>,
    level: usize,
    line: &KindLine<'a>,
) -> Result<(), AllocError>
    ensures { let more = names_at_level (level, kind_line_of line.now) in
        OnOk result (map leveled_of leveled.new.items ≡ map leveled_of leveled.old.items ++ more) }
{
    let precedence = Precedence {
        level: level as u64,
        kind: line.kind,
    };
    for name in &line.names {
        leveled.push(Leveled {
            name: *name,
            precedence,
        })?;
    }
    Ok(())
}

/// The names of the lines, each with the level of its line, counted from 0.
pub(super) fn levels<'a>(
    alloc: Global,
    contents: &Contents<'a>,
) -> Result<Vec<Leveled<'a>>, AllocError>
    ensures { let said = precedences (plain_contents contents.now) in
        IfOk result (λ v. map leveled_of v.items ≡ said) }
{
    let mut leveled = Vec::new(alloc);
    for (level, line) in contents.kind_lines.iter().enumerate() {
        push_line(&mut leveled, level, line)?;
    }
    Ok(leveled)
}

/// The names numbered in their order; `DuplicatePrecedence` of the first that comes again.
pub(super) fn distinct<'a>(alloc: Global, leveled: &[Leveled<'a>]) -> Result<Numbers<'a>, ReadError>
    ensures numbered { IfOk result (λ n. n ≡ leveled_names leveled.now) }
    ensures once { OnOk result (IsTrue (has_no_repeats (leveled_names leveled.now))) }
    ensures err { IfErr result (IsRepeat (leveled_names leveled.now)) }
{
    let mut numbers = Numbers::new(alloc);
    for one in leveled {
        if numbers.has(one.name) {
            let name = String::from_str(alloc, one.name)?;
            return Err(ReadError::DuplicatePrecedence(name));
        }
        numbers.add(one.name)?;
    }
    Ok(numbers)
}

/// The precedence of the name, if it has one.
pub(super) fn find_precedence<'a>(
    numbers: &Numbers<'a>,
    leveled: &[Leveled<'a>],
    name: &'a str,
) -> Option<Precedence>
    requires { numbers.now ≡ leveled_names leveled.now }
    ensures { let given = map leveled_of leveled.now in
        option_map precedence_of result ≡ precedence_in given name.now }
{
    let place = numbers.place(name);
    if place < leveled.len() {
        return Some(leveled[place].precedence);
    }
    None
}
