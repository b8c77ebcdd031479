//! The errors that tell why parts make no grammar, and why a text gives none.

ghost use Rattle.lrparts.specs.declared.errors.GrammarError.TheVariants.{Memory};
ghost use Rattle.std.specs.Prelude.{◌≡◌};

use lrtext::reader::ReadError;
use std::alloc::AllocError;
use thiserror::Error;

/// Why there is no grammar of some parts. Of several causes the first in this order is told.
#[derive(Clone, Copy, Debug, PartialEq, Eq, Error)]
pub enum GrammarError {
    /// The rules and `^` are more than the greatest index.
    #[error("too many rules")]
    TooManyRules,
    /// The tokens and the end token are more than the greatest index.
    #[error("too many tokens")]
    TooManyTokens,
    /// The productions and the start production are more than the greatest index.
    #[error("too many productions")]
    TooManyProductions,
    /// The symbols of a body are more than the greatest index.
    #[error("production too long")]
    BodyTooLong,
    /// A symbol of a body, the rule of a production or the token that it names for its precedence is
    /// in no list.
    #[error("symbol out of range")]
    SymbolOutOfRange,
    /// A rule has no production.
    #[error("rule without production")]
    EmptyRule,
    /// A rule is named `^`.
    #[error("reserved rule name")]
    ReservedName,
    /// Two rules or two tokens share a name.
    #[error("duplicate name")]
    DuplicateName,
    /// Two tokens of one level have different kinds.
    #[error("mixed precedence level")]
    MixedLevel,
    /// The start rule is in no list.
    #[error("no start rule")]
    NoStart,
    /// Memory was refused.
    #[error("out of memory")]
    Memory,
}

impl From<AllocError> for GrammarError {
    ghost from_gives = { λ _ e. e ≡ Memory };

    fn from(_e: AllocError) -> GrammarError {
        GrammarError::Memory
    }
}

/// Why there is no grammar of a text. Of several causes the first in this order is told, and of
/// several of one kind the first in the text.
#[derive(PartialEq, Debug, Drop, Error)]
pub enum TextError {
    /// The text is no document: the place, in bytes from 0, of the first lexeme that may not come,
    /// or the text's length where it ends too early.
    #[error("syntax error at byte {0}")]
    Syntax(usize),
    /// Nothing defines the name.
    #[error("unknown symbol {0}")]
    UnknownSymbol(String),
    /// The token is named twice in precedence lines.
    #[error("token {0} has two precedences")]
    DuplicatePrecedence(String),
    /// The parts of the grammar are refused. Not `GrammarError::Memory`, which is `Memory` here.
    #[error(transparent)]
    Grammar(GrammarError),
    /// Memory was refused.
    #[error("out of memory")]
    Memory,
}

impl From<ReadError> for TextError {
    ghost use Rattle.lrparts.specs.TextErrors.{read_refusal_of};

    ghost from_gives = { λ error e. e ≡ read_refusal_of error };

    fn from(error: ReadError) -> TextError {
        match error {
            ReadError::Syntax(at) => TextError::Syntax(at),
            ReadError::UnknownSymbol(name) => TextError::UnknownSymbol(name),
            ReadError::DuplicatePrecedence(name) => TextError::DuplicatePrecedence(name),
            ReadError::Memory => TextError::Memory,
        }
    }
}

impl From<GrammarError> for TextError {
    ghost use Rattle.lrparts.specs.TextErrors.{text_error_of};

    ghost from_gives = { λ error e. e ≡ text_error_of error };

    fn from(error: GrammarError) -> TextError {
        match error {
            GrammarError::Memory => TextError::Memory,
            error => TextError::Grammar(error),
        }
    }
}
