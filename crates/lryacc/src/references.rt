//! What actions refer to: the parts before them, by numbers or names.

ghost use Rattle.std.specs.Prelude.{◌≡◌, ◌<◌, length, IfSome, OnOk};
ghost use Rattle.lryacc.specs.EndTokens.{KeepsMeaning};
ghost use Rattle.lryacc.specs.Spellings.{proposal};

use crate::code::{CodeReader, Ending};
use crate::contents::{Alternative, BodyPart};
use crate::dialects::Dialect;
use crate::faults::FaultKind;
use crate::gaps::gap_end;
use crate::lexemes::{Lexeme, is_name_start};
use crate::meaning::Meaning;
use crate::numbers::value_of;
use crate::places::{Span, bytes};
use crate::runs::Run;
use crate::values::{behind_tag, name_between};
use std::alloc::AllocError;

/// How an action calls a part, or the rule that it is of.
#[derive(Clone, Copy)]
pub(crate) enum Call<'a> {
    /// The rule: `$$`, `@$`.
    Own,
    /// By its number, counted from 1: `$2`, `@2`.
    Number(u64),
    /// By its name, behind which something of the host language may follow a `.` or `-`: `$left`, `@left`.
    Name(&'a [u8]),
    /// By its name in brackets: `$[left]`, `@[left]`.
    Bracket(&'a [u8]),
}

impl<'a> Call<'a> {
    /// Whether what has this name is called so.
    fn is_of(self, name: &[u8]) -> bool {
        match self {
            Call::Own | Call::Number(_) => false,
            Call::Bracket(called) => called == name,
            Call::Name(called) => match called.strip_prefix(name) {
                Some(rest) => matches!(rest, [] | [b'.' | b'-', ..]),
                None => false,
            },
        }
    }
}

/// What is called at a place behind `$` or `@` and perhaps a tag, and the place behind that.
fn call_at(code: &[u8], start: usize) -> Option<(Call<'_>, usize)> {
    let behind = code.get(start..)?;
    match behind {
        [b'0'..=b'9', ..] => {
            let many = Run::Digits.end(behind, 0);
            let number = value_of(&behind[..many])?;
            Some((Call::Number(number), start + many))
        }
        [first, ..] if is_name_start(*first) => {
            let many = Run::Name.end(behind, 0);
            Some((Call::Name(&behind[..many]), start + many))
        }
        [b'[', inner @ ..] => match inner {
            [first, ..] if is_name_start(*first) => {
                let many = Run::Name.end(inner, 0);
                match inner.get(many) {
                    Some(b']') => Some((Call::Bracket(&inner[..many]), start + many + 2)),
                    _ => None,
                }
            }
            _ => None,
        },
        _ => None,
    }
}

/// What the mark at a place calls, if it calls something, and the place behind what belongs to the mark.
pub(crate) fn call_of_mark(code: &[u8], at: usize) -> (Option<Call<'_>>, usize)
    requires { at < length code.now }
{
    let begins = match code[at] {
        b'$' => behind_tag(code, at + 1),
        b'@' => Some(at + 1),
        _ => None,
    };
    let Some(start) = begins else {
        return (None, at + 1);
    };
    if code.get(start) == Some(&b'$') {
        return (Some(Call::Own), start.saturating_add(1));
    }
    match call_at(code, start) {
        Some((call, end)) => (Some(call), end),
        None => (None, at + 1),
    }
}

impl<'a> Meaning<'a> {
    /// The name that a symbol is called by: that in brackets behind it, or else its own.
    fn called(&self, symbol: Lexeme) -> &'a [u8] {
        let behind = self.symbols.behind(symbol.span);
        let start = gap_end(behind, 0, Dialect::Bison).unwrap_or(0);
        match behind.get(start..) {
            Some(bracket) if bracket.first() == Some(&b'[') => name_between(bracket),
            _ => self.symbols.name(symbol),
        }
    }

    /// What is wrong with how an action calls something, before which so many parts of a body stand.
    fn wrong_call(
        &self,
        alternative: &Alternative,
        before: usize,
        call: Call<'a>,
    ) -> Option<FaultKind>
        ensures { IfSome result (λ kind. proposal kind ≡ None) }
    {
        match call {
            Call::Own => return None,
            Call::Number(number) if number as usize <= before => return None,
            Call::Number(_) => return Some(FaultKind::NumberOutOfRange(before)),
            Call::Name(_) | Call::Bracket(_) => {}
        }
        if call.is_of(self.called(alternative.rule)) {
            return None;
        }
        for part in alternative.parts.iter().take(before) {
            let is_called = match *part {
                BodyPart::Symbol(symbol) => call.is_of(self.called(symbol)),
                BodyPart::Action(_, Some(name)) => {
                    call.is_of(name_between(bytes(self.symbols.text, name.span)))
                }
                BodyPart::Action(_, None) => false,
            };
            if is_called {
                return None;
            }
        }
        Some(FaultKind::UnknownReference)
    }

    /// Warns of references of the actions of bodies.
    pub(crate) fn warn_of_references(
        &mut self,
        alternatives: &[Alternative],
    ) -> Result<(), AllocError>
        ensures { OnOk result (KeepsMeaning self.old self.new) }
    {
        for alternative in alternatives {
            self.warn_of_actions(alternative)?;
        }
        Ok(())
    }

    /// Warns of references of the actions of a body.
    fn warn_of_actions(&mut self, alternative: &Alternative) -> Result<(), AllocError>
        ensures { OnOk result (KeepsMeaning self.old self.new) }
    {
        for before in 0..alternative.parts.len() {
            if let Some(BodyPart::Action(action, _)) = alternative.parts.get(before).copied() {
                self.warn_of_action(alternative, before, action)?;
            }
        }
        Ok(())
    }

    /// Warns of references of an action, before which so many parts of a body stand. What stands in its quotes and comments refers
    /// to nothing.
    fn warn_of_action(
        &mut self,
        alternative: &Alternative,
        before: usize,
        action: Lexeme,
    ) -> Result<(), AllocError>
        ensures { OnOk result (KeepsMeaning self.old self.new) }
    {
        let code = bytes(self.symbols.text, action.span);
        let begin = action.span.start;
        let mut reader = CodeReader::new();
        // The place behind the last mark.
        let mut behind: usize = 0;
        for at in 0..code.len() {
            let is_in_code = reader.is_in_code();
            if let Ok(Some(next)) = reader.step(code, at, Ending::File) {
                reader = next;
            }
            if !is_in_code || at < behind {
                continue;
            }
            let (call, end) = call_of_mark(code, at);
            behind = end;
            let Some(call) = call else {
                continue;
            };
            if let Some(kind) = self.wrong_call(alternative, before, call) {
                let span = Span::new(begin.saturating_add(at), begin.saturating_add(end));
                self.warn(kind, span)?;
            }
        }
        Ok(())
    }
}
