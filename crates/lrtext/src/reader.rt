//! Reads a grammar text.

ghost use Rattle.std.specs.Prelude.{◌≡◌, IfOk, IfErr};
ghost use Rattle.lrspec.specs.texts.Meaning.{Means};
ghost use Rattle.lrtext.specs.StoredParts.{parts_of};
ghost use Rattle.lrtext.specs.StoredContents.{plain_contents};
ghost use Rattle.lrtext.specs.ReadErrors.{HasContents, IsSyntaxError, IsReadError};
ghost use Rattle.lrtext.specs.declared.reader.ReadError.TheVariants.{Memory};

use crate::contents::Contents;
use crate::lexemes::{Next, next_lexeme};
use crate::meaning::grammar_parts;
use crate::parts::GrammarParts;
use crate::reading::Reading;
use std::alloc::{AllocError, Global};

/// Why a text gives no parts. Of several causes the first in this order is told, and of several of
/// one kind the first in the text.
#[derive(PartialEq, Debug, Drop)]
pub enum ReadError {
    /// The text is no document: the place, in bytes from 0, of the first lexeme that may not come,
    /// or the text's length where it ends too early.
    Syntax(usize),
    /// Nothing defines the name.
    UnknownSymbol(String),
    /// The token is named twice in precedence lines.
    DuplicatePrecedence(String),
    /// Memory was refused.
    Memory,
}

impl From<AllocError> for ReadError {
    ghost from_gives = { λ _ e. e ≡ Memory };

    fn from(_refused: AllocError) -> ReadError {
        ReadError::Memory
    }
}

/// What the text says. The error is `Syntax` where the text is no document, with the place of its
/// first lexeme that may not come, or else of its end; or `Memory` where memory was refused.
/// Nothing behind the second `%%` is read, since any text may stand there.
fn read(alloc: Global, text: &str) -> Result<Contents<'_>, ReadError>
    ensures ok { IfOk result (λ c. HasContents text.now (plain_contents c)) }
    ensures err { IfErr result (IsSyntaxError text.now) }
{
    let mut reading = Reading::new(alloc);
    let mut rest = text;
    loop {
        match next_lexeme(rest) {
            Next::End => {
                if !reading.may_end() {
                    return Err(ReadError::Syntax(text.len()));
                }
                return Ok(reading.into_contents());
            }
            Next::Misfit(at) => return Err(ReadError::Syntax(text.len() - at.len())),
            Next::Lexeme { at, lexeme, behind } => {
                if !reading.take(lexeme)? {
                    return Err(ReadError::Syntax(text.len() - at.len()));
                }
                if reading.is_behind() {
                    return Ok(reading.into_contents());
                }
                rest = behind;
            }
        }
    }
}

/// The parts that a text means. The error is `Syntax` where the text is no document, with the place
/// of its first lexeme that may not come, in bytes from 0, or else its length where it ends too
/// early; or else `UnknownSymbol` of the first name that nothing defines; or else
/// `DuplicatePrecedence` of the first name that comes again in precedence lines; or `Memory` where
/// memory was refused, which may come in place of any.
pub fn read_parts(alloc: Global, text: &str) -> Result<GrammarParts, ReadError>
    ensures ok { IfOk result (λ p. Means text.now (parts_of p)) }
    ensures err { IfErr result (IsReadError text.now) }
{
    let contents = read(alloc, text)?;
    grammar_parts(alloc, &contents)
}
