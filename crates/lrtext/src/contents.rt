//! What a document says.

use crate::parts::AssocKind;

/// A name of a document, as it is or between quotes.
#[derive(Clone, Copy)]
pub(crate) enum NameText<'a> {
    Plain(&'a str),
    InQuotes(&'a str),
}

/// A precedence line.
#[derive(Drop)]
pub(crate) struct KindLine<'a> {
    pub kind: AssocKind,
    pub names: Vec<&'a str>,
}

/// An alternative of a rule: its names, and the one behind `%prec`.
#[derive(Drop)]
pub(crate) struct Alternative<'a> {
    pub rule: &'a str,
    pub body: Vec<NameText<'a>>,
    pub precedence: Option<NameText<'a>>,
}

/// What a document says.
#[derive(Drop)]
pub(crate) struct Contents<'a> {
    pub start: Option<&'a str>,
    pub declared: Vec<&'a str>,
    pub kind_lines: Vec<KindLine<'a>>,
    pub alternatives: Vec<Alternative<'a>>,
}
