//! Which parser a file asks for, and what its bodies say to a generalized one.

ghost use Rattle.std.specs.Prelude.{◌≡◌, IfOk, IfSome};
ghost use Rattle.lryacc.specs.Parsers.{AreDynamicsOf, IsDynamic, IsParserBy, IsRead, splits};
ghost use Rattle.lryacc.specs.declared.parsers.Dynamic.{Dynamic};

use crate::lexemes::{Lexeme, LexemeKind};
use crate::numbers::value_of;
use crate::places::{Span, bytes};
use std::alloc::{AllocError, Global};

/// What a body says of two trees of one text that end with its production and another one.
#[derive(Clone, Copy, Debug, PartialEq, Eq)]
pub enum DynamicKind {
    /// By `%dprec`: a number. The tree with the greater one is kept.
    Precedence(u64),
    /// By `%merge`: where the function stands, as a tag, that makes one value of both.
    Merger(Span),
}

/// That, and where its directive stands: in the body.
#[derive(Clone, Copy, Debug, PartialEq, Eq)]
pub struct Dynamic {
    pub place: Span,
    pub kind: DynamicKind,
}

/// The parser that a file asks for.
#[derive(Debug, Drop)]
pub enum Parser {
    /// One that does one thing in each cell.
    Deterministic,
    /// A generalized one, by `%glr-parser`: it splits where more than one thing can be done. So its bodies say what is done where both
    /// lead to a tree.
    Generalized(Vec<Dynamic>),
}

impl Parser {
    /// Whether it splits where more than one thing can be done.
    pub fn splits(&self) -> bool
        ensures { result ≡ splits self.now }
    {
        matches!(self, Parser::Generalized(_))
    }
}

/// What a directive and the lexeme behind it say to a generalized parser.
fn said_by(text: &[u8], directive: Lexeme, behind: Lexeme) -> Option<Dynamic>
    ensures is { IfSome result (IsDynamic text.now directive behind) }
    ensures only { (dynamic : Dynamic) → IsDynamic text.now directive behind dynamic
        → IsRead text.now behind dynamic.kind → result ≡ Some dynamic }
{
    let word = bytes(text, directive.span);
    let kind = match behind.kind {
        LexemeKind::Number if word == b"%dprec".as_slice() => {
            DynamicKind::Precedence(value_of(bytes(text, behind.span))?)
        }
        LexemeKind::Tag if word == b"%merge".as_slice() => DynamicKind::Merger(behind.span),
        _ => return None,
    };
    Some(Dynamic {
        place: directive.span,
        kind,
    })
}

/// What bodies among lexemes say to a generalized parser.
fn dynamics(alloc: Global, text: &[u8], lexemes: &[Lexeme]) -> Result<Vec<Dynamic>, AllocError>
    ensures { IfOk result (λ list. AreDynamicsOf text.now lexemes.now list.items) }
{
    let mut list = Vec::new(alloc);
    for at in 1..lexemes.len() {
        if let Some(dynamic) = said_by(text, lexemes[at - 1], lexemes[at]) {
            list.push(dynamic)?;
        }
    }
    Ok(list)
}

/// The parser that a file with these lexemes asks for, which says so or doesn't.
pub(crate) fn parser_of(
    alloc: Global,
    text: &[u8],
    lexemes: &[Lexeme],
    is_glr: bool,
) -> Result<Parser, AllocError>
    ensures { IfOk result (IsParserBy text.now lexemes.now is_glr) }
{
    if is_glr {
        Ok(Parser::Generalized(dynamics(alloc, text, lexemes)?))
    } else {
        Ok(Parser::Deterministic)
    }
}
