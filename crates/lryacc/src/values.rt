//! The values that actions use.

ghost use Rattle.std.specs.Prelude.{◌<◌, ◌≤◌, length, IfSome};

use crate::code::{CodeReader, Ending};
use crate::contents::BodyPart;
use crate::dialects::Dialect;
use crate::gaps::gap_end;
use crate::places::bytes;
use crate::references::{Call, call_of_mark};
use crate::runs::Run;
use crate::symbols::Symbols;
use std::alloc::{AllocError, Global};
use std::collections::BTreeMap;

/// The place behind the tag that begins at a place, or the place itself where none does; None where it isn't closed on its
/// line, or is empty. `->` closes none.
pub(crate) fn behind_tag(code: &[u8], from: usize) -> Option<usize>
    requires { from ≤ length code.now }
    ensures { IfSome result (λ end. end ≤ length code.now) }
{
    if code.get(from) != Some(&b'<') {
        return Some(from);
    }
    let mut before = b'<';
    for at in from + 1..code.len() {
        match code[at] {
            b'>' if before == b'<' => return None,
            b'>' if before != b'-' => return Some(at + 1),
            b'<' | b'\n' => return None,
            byte => before = byte,
        }
    }
    None
}

/// The name between brackets.
pub(crate) fn name_between(bracket: &[u8]) -> &[u8] {
    match bracket {
        [b'[', inner @ ..] => {
            let start = gap_end(inner, 0, Dialect::Bison).unwrap_or(0);
            let end = Run::Name.end(inner, start);
            inner.get(start..end).unwrap_or(inner)
        }
        _ => bracket,
    }
}

/// The parts of a body whose values are used.
#[derive(Drop)]
struct Uses<'a> {
    /// The actions that have names.
    names: BTreeMap<&'a [u8], usize>,
    /// By part, whether its value is used.
    used: Vec<bool>,
}

impl<'a> Uses<'a> {
    /// Takes in that the action at a place of the body uses the value that is called so. What stands behind a `.` or `-` is of the
    /// host language where the name has no brackets.
    fn take(&mut self, at: usize, call: Call<'a>) {
        let part = match call {
            Call::Own => Some(at),
            Call::Number(number) => (number as usize).checked_sub(1),
            Call::Name(name) => {
                let name = &name[..Run::Word.end(name, 0)];
                self.names.get(&name).copied()
            }
            Call::Bracket(name) => self.names.get(&name).copied(),
        };
        if let Some(part) = part {
            if let Some(used) = self.used.get_mut(part) {
                *used = true;
            }
        }
    }

    /// Takes in the values that the action at a place of the body uses. What stands in its quotes and comments uses none.
    fn take_code(&mut self, at: usize, code: &'a [u8]) {
        let mut reader = CodeReader::new();
        // The place behind the last mark.
        let mut behind: usize = 0;
        for place in 0..code.len() {
            if behind <= place && reader.is_in_code() {
                let (call, end) = call_of_mark(code, place);
                behind = end;
                if let (b'$', Some(call)) = (code[place], call) {
                    self.take(at, call);
                }
            }
            if let Ok(Some(next)) = reader.step(code, place, Ending::File) {
                reader = next;
            }
        }
    }
}

/// By part of a body, whether its value is used by an action: by itself, by its number, or by its name, where it is an action
/// before the end of the body.
pub(crate) fn used_values(
    alloc: Global,
    symbols: &Symbols<'_>,
    parts: &[BodyPart],
) -> Result<Vec<bool>, AllocError> {
    let mut uses = Uses {
        names: BTreeMap::new(alloc),
        used: vec![in alloc; false; parts.len()]?,
    };
    for at in 0..parts.len() {
        if let BodyPart::Action(action, name) = parts[at] {
            let is_last = at.saturating_add(1) == parts.len();
            if let (Some(name), false) = (name, is_last) {
                let name = name_between(bytes(symbols.text, name.span));
                uses.names.insert(name, at)?;
            }
            uses.take_code(at, bytes(symbols.text, action.span));
        }
    }
    Ok(uses.used)
}
