//! What a grammar file says, before its names have their meaning.

ghost use Rattle.std.specs.Prelude.{◌≡◌};
ghost use Rattle.lryacc.specs.ProductionPlaces.{part_place};

use crate::faults::Fault;
use crate::lexemes::Lexeme;
use crate::places::Span;

/// How the tokens of a precedence line group.
#[derive(Clone, Copy)]
pub(crate) enum LevelKind {
    /// `%left`.
    Left,
    /// `%right`.
    Right,
    /// `%nonassoc`.
    Nonassoc,
    /// `%precedence`.
    Precedence,
}

/// What a declaration says of one symbol or of the whole file.
#[derive(Clone, Copy)]
pub(crate) enum Statement {
    /// The symbol is a token.
    Token(Lexeme),
    /// The symbol is a rule.
    Rule(Lexeme),
    /// The symbol has this number for its code.
    Code(Lexeme, Lexeme),
    /// The token has this text for another name.
    Alias(Lexeme, Lexeme),
    /// A precedence line begins.
    Level(LevelKind),
    /// The symbol is one of the precedence line in hand.
    InLevel(Lexeme),
    /// The symbol is named.
    Mention(Lexeme),
    /// The symbol need not be in a rule.
    NotInRules(Lexeme),
    /// The values of the symbol have this tag.
    Tagged(Lexeme, Lexeme),
    /// The symbol stands before a colon.
    LeftSide(Lexeme),
    /// The symbol stands behind `%prec`.
    NamedPrecedence(Lexeme),
    /// The symbol is the start rule.
    Start(Lexeme),
    /// So many shift/reduce conflicts are expected.
    ExpectShiftReduce(Lexeme),
    /// So many reduce/reduce conflicts are expected.
    ExpectReduceReduce(Lexeme),
    /// The parser is a generalized one.
    Glr,
    /// Whether productions without `%prec` have a precedence.
    DefaultPrecedence(bool),
}

/// A part of a body.
#[derive(Clone, Copy)]
pub(crate) enum BodyPart {
    /// A symbol.
    Symbol(Lexeme),
    /// An action or a predicate, and its name in brackets.
    Action(Lexeme, Option<Lexeme>),
}

impl BodyPart {
    /// Its place.
    pub(crate) fn span(self) -> Span
        ensures { result ≡ part_place self }
    {
        match self {
            BodyPart::Symbol(lexeme) | BodyPart::Action(lexeme, _) => lexeme.span,
        }
    }
}

/// One body of a rule.
#[derive(Drop)]
pub(crate) struct Alternative {
    /// The name of its rule.
    pub(crate) rule: Lexeme,
    /// Its parts.
    pub(crate) parts: Vec<BodyPart>,
    /// The token behind its `%prec`.
    pub(crate) precedence: Option<Lexeme>,
    /// Whether `%empty` stands in it.
    pub(crate) has_empty: bool,
    /// From its first part to its last, or the place behind the mark before it.
    pub(crate) span: Span,
}

impl Alternative {
    /// Whether it has no symbol: nothing, or an action alone.
    pub(crate) fn is_empty(&self) -> bool {
        matches!(self.parts.as_slice(), [] | [BodyPart::Action(..)])
    }
}

/// What a grammar file says, and what is wrong with it so far.
#[derive(Drop)]
pub(crate) struct Contents {
    /// In the order of the file.
    pub(crate) statements: Vec<Statement>,
    /// In the order of the file.
    pub(crate) alternatives: Vec<Alternative>,
    pub(crate) faults: Vec<Fault>,
}
