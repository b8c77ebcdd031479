//! The lexemes of a grammar text: names, quoted names, words and marks, with blanks and comments
//! between them.

ghost use Rattle.std.specs.Prelude.{◌∷◌, ◌++◌, codes, IsTrue};
ghost use Rattle.lrspec.specs.texts.Lexemes.{is_quote};
ghost use Rattle.lrtext.specs.NextLexemes.{IsFront, IsNext};

use crate::parts::AssocKind;
use crate::runs::{Run, behind_byte, is_blank, is_name_start, split_run};

/// A lexeme of a grammar text.
#[derive(Clone, Copy)]
pub(crate) enum Lexeme<'a> {
    /// A name outside quotes.
    Name(&'a str),
    /// The name between two quotes.
    Quoted(&'a str),
    /// `%start`.
    StartWord,
    /// `%token`.
    TokenWord,
    /// `%left`, `%right` or `%nonassoc`.
    KindWord(AssocKind),
    /// `%prec`.
    PrecedenceWord,
    /// `%%`.
    Separator,
    /// `:`.
    Colon,
    /// `|`.
    Bar,
    /// `;`.
    Semicolon,
}

/// What comes next in a text, behind blanks and comments.
#[derive(Clone, Copy)]
pub(crate) enum Next<'a> {
    /// The text ends.
    End,
    /// No lexeme begins at this rest of the text.
    Misfit(&'a str),
    /// A lexeme.
    Lexeme {
        /// The rest of the text that begins with the lexeme.
        at: &'a str,
        /// The lexeme.
        lexeme: Lexeme<'a>,
        /// What stands behind the lexeme.
        behind: &'a str,
    },
}

/// What stands at the front of a text.
#[derive(Clone, Copy)]
enum Front<'a> {
    /// A blank or a comment, and the text behind it.
    Gap(&'a str),
    /// A lexeme, and the text behind it.
    Found(Lexeme<'a>, &'a str),
    /// Neither.
    Unfit,
}

/// The quoted name of which the text stands behind the first quote.
fn quoted(quote: u8, text: &str) -> Front<'_>
    requires { IsTrue (is_quote quote) }
    ensures { IsFront (quote ∷ text.now) result }
{
    let (name, closed) = split_run(text, Run::Quoted(quote));
    if name.is_empty() {
        return Front::Unfit;
    }
    match behind_byte(closed, quote) {
        Some(behind) => Front::Found(Lexeme::Quoted(name), behind),
        None => Front::Unfit,
    }
}

/// The word or the `%%` of which the text stands behind the first `%`.
fn word(text: &str) -> Front<'_>
    ensures { IsFront (codes "%" ++ text.now) result }
{
    let (word, behind) = split_run(text, Run::Word);
    match word {
        "start" => Front::Found(Lexeme::StartWord, behind),
        "token" => Front::Found(Lexeme::TokenWord, behind),
        "left" => Front::Found(Lexeme::KindWord(AssocKind::Left), behind),
        "right" => Front::Found(Lexeme::KindWord(AssocKind::Right), behind),
        "nonassoc" => Front::Found(Lexeme::KindWord(AssocKind::Nonassoc), behind),
        "prec" => Front::Found(Lexeme::PrecedenceWord, behind),
        "" => match behind_byte(behind, b'%') {
            Some(behind) => Front::Found(Lexeme::Separator, behind),
            None => Front::Unfit,
        },
        _ => Front::Unfit,
    }
}

/// The comment of which the text stands behind the first `/`.
fn comment(text: &str) -> Front<'_>
    ensures { IsFront (codes "/" ++ text.now) result }
{
    if let Some(line) = behind_byte(text, b'/') {
        return Front::Gap(split_run(line, Run::Line).1);
    }
    let Some(block) = behind_byte(text, b'*') else {
        return Front::Unfit;
    };
    match block.split_once("*/") {
        Some((_, behind)) => Front::Gap(behind),
        None => Front::Unfit,
    }
}

/// What stands at the front of the text.
fn front_of(text: &str) -> Front<'_>
    ensures { IsFront text.now result }
{
    let Some(first) = text.as_bytes().first() else {
        return Front::Unfit;
    };
    let first = *first;
    // No lexeme begins with a byte from 128 up, and a text may be cut behind any other.
    if first >= 128 {
        return Front::Unfit;
    }
    let behind = text.split_at(1).1;
    if is_blank(first) {
        return Front::Gap(behind);
    }
    if is_name_start(first) {
        let (name, behind) = split_run(text, Run::Name);
        return Front::Found(Lexeme::Name(name), behind);
    }
    match first {
        b'/' => comment(behind),
        b'%' => word(behind),
        b'\'' | b'"' => quoted(first, behind),
        b':' => Front::Found(Lexeme::Colon, behind),
        b'|' => Front::Found(Lexeme::Bar, behind),
        b';' => Front::Found(Lexeme::Semicolon, behind),
        _ => Front::Unfit,
    }
}

/// What comes next in the text. It reads no further than what it answers, so that a whole text is
/// read in time in proportion to its length.
pub(crate) fn next_lexeme(rest: &str) -> Next<'_>
    ensures { IsNext rest.now result }
{
    let mut at = rest;
    while !at.is_empty() {
        match front_of(at) {
            Front::Gap(behind) => at = behind,
            Front::Found(lexeme, behind) => return Next::Lexeme { at, lexeme, behind },
            Front::Unfit => return Next::Misfit(at),
        }
    }
    Next::End
}
