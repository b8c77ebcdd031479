//! Lines of words.

ghost use Rattle.std.specs.Prelude.{◌≡◌, ℕ, List, ◌∷◌, ◌++◌, map, IfOk, OnOk};
ghost use Rattle.std.specs.String.{string_bytes};
ghost use Rattle.lrspec.specs.texts.PrintedTexts.{spaces};
ghost use Rattle.lrreasons.specs.Lines.{words_text, line_text};

use std::alloc::AllocError;

/// How many bytes a line has at the most, unless a word alone has more.
const WIDTH: usize = 80;

/// Behind how many spaces further lines begin at the most.
const FARTHEST: usize = 40;

/// Adds so many spaces.
fn push_spaces(text: &mut String, count: usize) -> Result<(), AllocError>
    ensures { OnOk result (string_bytes text.new ≡ string_bytes text.old ++ spaces count) }
{
    let alloc = *text.allocator();
    text.push_str(" ".repeat(alloc, count)?.as_str())
}

/// Adds a word to a line in which so many bytes are left, or to a further one, which begins with so many spaces. How many are
/// left then.
fn push_word(text: &mut String, hang: usize, room: usize, word: &str) -> Result<usize, AllocError>
    ensures { IfOk result (λ left. (ws : List (List ℕ)) →
        string_bytes text.old ++ words_text hang room (word.now ∷ ws)
        ≡ string_bytes text.new ++ words_text hang left ws) }
{
    if word.len() < room {
        text.push_str(" ")?;
        text.push_str(word)?;
        return Ok(room - 1 - word.len());
    }
    text.push_str("\n")?;
    push_spaces(text, hang)?;
    text.push_str(word)?;
    Ok(WIDTH.saturating_sub(hang).saturating_sub(word.len()))
}

/// Adds a line behind so many spaces: a label, and words. Further lines begin where the words do, unless that is too far right.
pub(crate) fn push_line(
    text: &mut String,
    indent: usize,
    label: &str,
    words: &[String],
) -> Result<(), AllocError>
    ensures { OnOk result (string_bytes text.new ≡ string_bytes text.old
        ++ line_text indent label.now (map string_bytes words.now)) }
{
    push_spaces(text, indent)?;
    text.push_str(label)?;
    let words_at = indent.saturating_add(label.len()).saturating_add(1);
    let hang = words_at.min(FARTHEST);
    let mut room = WIDTH.saturating_sub(indent).saturating_sub(label.len());
    for word in words {
        room = push_word(text, hang, room, word.as_str())?;
    }
    text.push_str("\n")
}
