//! How far a document was read, and which lexeme may come next.

ghost use Rattle.std.specs.Prelude.{◌≡◌, option_map};
ghost use Rattle.lrspec.specs.texts.ReadingStates.{declare, next_state};
ghost use Rattle.lrtext.specs.NextLexemes.{lexeme_of};
ghost use Rattle.lrtext.specs.StoredReading.{state_of};

use crate::lexemes::Lexeme;

/// How far a document was read: between which of its lexemes. The flag says whether `%start`
/// came.
#[derive(Clone, Copy)]
pub(crate) enum ReadingState {
    /// At a declaration or the first `%%`.
    AtDeclaration(bool),
    /// Behind `%start`.
    WantsStart,
    /// Behind the word of a line of tokens.
    WantsName(bool),
    /// Behind a name of such a line.
    InLine(bool),
    /// At a rule, the second `%%` or the end.
    AtRule,
    /// Behind the name of a rule.
    WantsColon,
    /// In the bodies of a rule.
    InBody,
    /// Behind `%prec`.
    WantsPrecedence,
    /// Behind the name that follows `%prec`.
    BehindBody,
    /// Behind the second `%%`.
    Behind,
}

/// The state behind the word of a declaration or the first `%%`, if the lexeme is one that may
/// come.
fn declare(seen: bool, lexeme: Lexeme<'_>) -> Option<ReadingState>
    ensures { option_map state_of result ≡ declare seen (lexeme_of lexeme.entry) }
{
    match lexeme {
        Lexeme::StartWord if seen => None,
        Lexeme::StartWord => Some(ReadingState::WantsStart),
        Lexeme::TokenWord | Lexeme::KindWord(_) => Some(ReadingState::WantsName(seen)),
        Lexeme::Separator => Some(ReadingState::AtRule),
        _ => None,
    }
}

/// The state behind the lexeme, if it may come.
pub(crate) fn next_state(state: ReadingState, lexeme: Lexeme<'_>) -> Option<ReadingState>
    ensures { option_map state_of result ≡ next_state (state_of state) (lexeme_of lexeme.entry) }
{
    match state {
        ReadingState::AtDeclaration(seen) => declare(seen, lexeme),
        ReadingState::WantsStart => match lexeme {
            Lexeme::Name(_) => Some(ReadingState::AtDeclaration(true)),
            _ => None,
        },
        ReadingState::WantsName(seen) => match lexeme {
            Lexeme::Name(_) | Lexeme::Quoted(_) => Some(ReadingState::InLine(seen)),
            _ => None,
        },
        ReadingState::InLine(seen) => match lexeme {
            Lexeme::Name(_) | Lexeme::Quoted(_) => Some(ReadingState::InLine(seen)),
            _ => declare(seen, lexeme),
        },
        ReadingState::AtRule => match lexeme {
            Lexeme::Name(_) => Some(ReadingState::WantsColon),
            Lexeme::Separator => Some(ReadingState::Behind),
            _ => None,
        },
        ReadingState::WantsColon => match lexeme {
            Lexeme::Colon => Some(ReadingState::InBody),
            _ => None,
        },
        ReadingState::InBody => match lexeme {
            Lexeme::Name(_) | Lexeme::Quoted(_) | Lexeme::Bar => Some(ReadingState::InBody),
            Lexeme::Semicolon => Some(ReadingState::AtRule),
            Lexeme::PrecedenceWord => Some(ReadingState::WantsPrecedence),
            _ => None,
        },
        ReadingState::WantsPrecedence => match lexeme {
            Lexeme::Name(_) | Lexeme::Quoted(_) => Some(ReadingState::BehindBody),
            _ => None,
        },
        ReadingState::BehindBody => match lexeme {
            Lexeme::Bar => Some(ReadingState::InBody),
            Lexeme::Semicolon => Some(ReadingState::AtRule),
            _ => None,
        },
        ReadingState::Behind => Some(ReadingState::Behind),
    }
}
