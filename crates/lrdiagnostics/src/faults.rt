//! What is told of a fault in words, with the names and the other place that it is about.

use crate::lines::shown;
use crate::sources::Source;
use lrwriter::Text;
use lryacc::{Dialect, Fault, FaultKind, OtherClass, Span, near_directive};
use std::alloc::{AllocError, Global};

/// How many bytes of a name are told at the most.
const TOLD_OF_NAME: usize = 60;

/// The mark that says that the bytes behind it are UTF-8.
const BYTE_ORDER_MARK: &[u8] = b"\xEF\xBB\xBF";

/// What tells of the faults of a file.
#[derive(Clone, Copy)]
struct Words<'a> {
    source: &'a Source<'a>,
}

impl Words<'_> {
    /// Adds the characters of a part of a name.
    fn add_characters(self, text: &mut Text, part: &[u8]) {
        for chunk in part.utf8_chunks() {
            for character in chunk.valid().chars() {
                text.add_char(shown(character));
            }
            text.add_times('\u{FFFD}', chunk.invalid().len());
        }
    }

    /// Adds the name that stands at a place.
    fn add_name(self, text: &mut Text, place: Span) {
        let name = self.source.part(place.start, place.end);
        let mark = match name {
            [b'\'' | b'"', ..] => "",
            _ => "`",
        };
        text.add(mark);
        if name.len() > TOLD_OF_NAME {
            self.add_characters(
                text,
                self.source
                    .part(place.start, place.start.saturating_add(TOLD_OF_NAME)),
            );
            text.add("...");
        } else {
            self.add_characters(text, name);
        }
        text.add(mark);
    }

    /// Adds the line and the column of a place.
    fn add_position(self, text: &mut Text, place: Span) {
        let at = self.source.position(place.start);
        write!(text, " ({}:{})", at.line, at.column);
    }

    /// Adds the name at a place, and its line and column.
    fn add_placed(self, text: &mut Text, place: Span) {
        self.add_name(text, place);
        self.add_position(text, place);
    }

    /// Adds the name at a place, words behind it, and the line and the column of the other place, if that is another one.
    fn add_other(self, text: &mut Text, place: Span, words: &str, other: Span) {
        self.add_name(text, place);
        text.add(words);
        if other.start != place.start {
            self.add_position(text, other);
        }
    }

    /// Asks whether the name that stands at a place is meant.
    fn add_near(self, text: &mut Text, near: Option<Span>) {
        if let Some(place) = near {
            text.add("; did you mean ");
            self.add_name(text, place);
            text.add_char('?');
        }
    }

    /// Adds that a directive is unknown, and which one may be meant.
    fn add_directive(
        self,
        text: &mut Text,
        dialect: Dialect,
        place: Span,
    ) -> Result<(), AllocError> {
        text.add("unknown directive ");
        self.add_name(text, place);
        let name = self.source.part(place.start.saturating_add(1), place.end);
        if let Some(near) = near_directive(text.allocator(), dialect, name)? {
            write!(text, "; did you mean `%{near}`?");
        }
        Ok(())
    }

    /// Adds that a symbol is of another class, and the other place that says so.
    fn add_other_class(self, text: &mut Text, wrong: OtherClass, place: Span, other: Span) {
        let (before, behind) = match wrong {
            OtherClass::TokenWithRule => ("", " has a rule, and is a token"),
            OtherClass::Both => ("", " is declared both a token and a rule"),
            OtherClass::RuleBehindPrec => ("`%prec` names a token, and ", " is a rule"),
        };
        text.add(before);
        self.add_other(text, place, behind, other);
    }

    /// Adds what is wrong by another place.
    fn add_by_other(self, text: &mut Text, kind: FaultKind, place: Span) {
        match kind {
            FaultKind::LevelTwice(first) => {
                self.add_other(text, place, " already has a level", first);
            }
            FaultKind::TagTwice(first) => {
                self.add_other(text, place, " already has a tag", first);
            }
            FaultKind::DeclaredTwice(first) => {
                self.add_other(text, place, " is declared already", first);
            }
            FaultKind::OtherClass(wrong, other) => self.add_other_class(text, wrong, place, other),
            FaultKind::CodeOfOther(code, other) => {
                write!(text, "{code} is the number of ");
                self.add_placed(text, other);
            }
            FaultKind::TextOfOther(other) => {
                self.add_name(text, place);
                text.add(" is already the name of ");
                self.add_placed(text, other);
            }
            FaultKind::SecondText(other) => {
                self.add_name(text, place);
                text.add(" is no name of the symbol, which already has ");
                self.add_placed(text, other);
            }
            FaultKind::StartIsToken => {
                text.add("the start symbol ");
                self.add_name(text, place);
                text.add(" is a token");
            }
            FaultKind::NumberOutOfRange(before) => {
                let ending = if before == 1 { "" } else { "s" };
                self.add_name(text, place);
                write!(
                    text,
                    " is out of range: {before} symbol{ending} before the action"
                );
            }
            FaultKind::UnknownReference => {
                self.add_name(text, place);
                text.add(" names no symbol before the action");
            }
            FaultKind::StartTwice => {
                self.add_name(text, place);
                text.add(" is a start rule already");
            }
            _ => write!(text, "{kind}"),
        }
    }

    /// Whether the mark of UTF-8 stands at a place.
    fn is_byte_order_mark(self, place: Span) -> bool {
        place.start == 0 && self.source.bytes.starts_with(BYTE_ORDER_MARK)
    }

    /// Adds what is wrong at a place.
    fn add_fault(self, text: &mut Text, kind: FaultKind, place: Span) -> Result<(), AllocError> {
        match kind {
            FaultKind::Undefined(near) => {
                self.add_name(text, place);
                text.add(" is no token and has no rule");
                self.add_near(text, near);
            }
            FaultKind::StartHasNoRule(near) => {
                text.add("there is no rule ");
                self.add_name(text, place);
                self.add_near(text, near);
            }
            FaultKind::UnknownPrecedence(near) => {
                self.add_name(text, place);
                text.add(" has no level, so `%prec` gives this body none");
                self.add_near(text, near);
            }
            FaultKind::NoColon => {
                text.add("`:` should stand behind ");
                self.add_name(text, place);
            }
            FaultKind::UnknownDirective(dialect) => self.add_directive(text, dialect, place)?,
            FaultKind::InvalidCharacter if self.is_byte_order_mark(place) => {
                text.add("invalid character: a byte order mark, which is to be left out");
            }
            _ => self.add_by_other(text, kind, place),
        }
        Ok(())
    }
}

/// The words that tell of a fault of a file: they have its names, and where the other place is that it is about.
pub fn words_of(alloc: Global, source: &Source<'_>, fault: &Fault) -> Result<String, AllocError> {
    let mut text = Text::new(alloc);
    let words = Words { source };
    words.add_fault(&mut text, fault.kind, fault.span)?;
    text.finish()
}
