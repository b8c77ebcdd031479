//! The words of a line.

ghost use Rattle.lrspec.specs.texts.Lines.{is_blank, words};
ghost use Rattle.std.specs.Iterator.{YieldsFirstBy, item_count};
ghost use Rattle.std.specs.List.{position};
ghost use Rattle.std.specs.Prelude.{◌≡◌, ℕ, List, [], ◌∷◌, not, MatchOption};

use std::marker::Model;

/// Goes through the words of a line, which are its longest runs of bytes other than space and tab.
#[derive(Drop)]
pub struct Words<'a> {
    rest: &'a [u8],
}

impl<'a> Model for Words<'a> {
    ghost Value = { List (List ℕ) };

    ghost view = { λ s. words s.rest.now };
}

impl<'a> Words<'a> {
    /// The words of the line, from left to right.
    pub fn new(line: &'a [u8]) -> Words<'a>
        ensures words { result ≡ words line.entry.now }
    {
        Words { rest: line }
    }
}

impl<'a> Iterator for Words<'a> {
    type Item = &'a [u8];

    ghost next_gives = { YieldsFirstBy (λ word. word.now) (λ s. s) };

    ghost remaining = { item_count (λ s. s) };

    fn next(&mut self) -> Option<&'a [u8]> {
        let (word, behind) = first_word(self.rest)?;
        self.rest = behind;
        Some(word)
    }
}

/// The first word and what stands behind it; None if there is no word.
fn first_word(line: &[u8]) -> Option<(&[u8], &[u8])>
    ensures { MatchOption result (words line.now ≡ [])
        (λ p. words line.now ≡ p.0.now ∷ words p.1.now) }
{
    let (_, from_word) = line.split_at(word_start(line)?);
    Some(from_word.split_at(blank_start(from_word).unwrap_or(from_word.len())))
}

/// The place of the first byte that is no blank.
fn word_start(bytes: &[u8]) -> Option<usize>
    ensures { result ≡ position (λ b. not (is_blank b)) bytes.now }
{
    bytes.iter().position(|b| !is_blank(*b))
}

/// The place of the first blank.
fn blank_start(bytes: &[u8]) -> Option<usize>
    ensures { result ≡ position is_blank bytes.now }
{
    bytes.iter().position(|b| is_blank(*b))
}

/// Whether words end at the byte: a space or a tab.
fn is_blank(b: u8) -> bool
    ensures { result ≡ is_blank b }
{
    b == b' ' || b == b'\t'
}
