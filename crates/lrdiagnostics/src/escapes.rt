//! Text of a file between the tags of a page, and in the values of attributes.

ghost use Rattle.std.specs.Prelude.{length, drop, All, IsTrue, encode_utf8};
ghost use Rattle.lrdiagnostics.specs.Escapes.{escaped, IsPlain};
ghost use Rattle.lrwriter.specs.Texts.{Adds, Held};

use crate::lines::shown;
use lrwriter::Text;

/// Adds what stands for a character.
#[tactic(auto, using(crate::proofs::EscapedTexts::escaped_character))]
fn add_character(page: &mut Text, character: char)
    ensures { Adds page.old page.new (escaped (encode_utf8 character)) }
{
    match character {
        '<' => page.add("&lt;"),
        '>' => page.add("&gt;"),
        '&' => page.add("&amp;"),
        '"' => page.add("&quot;"),
        '\'' => page.add("&#39;"),
        _ => page.add_char(character),
    }
}

/// Adds a text such that a page shows it as it is: for each of `<`, `>`, `&`, `"` and `'` its entity, and all else as it
/// stands. So what is added holds no mark that ends a text between tags, or the value of an attribute.
pub fn add_escaped(page: &mut Text, text: &str)
    ensures escaped { Adds page.old page.new (escaped text.now) }
    ensures plain { IsTrue page.new.is_whole
        → All IsPlain (drop (length page.old.bytes) page.new.bytes) }
{
    for character in text.chars() {
        add_character(page, character);
    }
}

/// Adds a name of a file such that a page shows it as a terminal would. What is added holds no mark either.
pub fn add_escaped_name(page: &mut Text, name: &str)
    ensures { IsTrue page.new.is_whole
        → All IsPlain (drop (length page.old.bytes) page.new.bytes) }
{
    for character in name.chars() {
        add_character(page, shown(character));
    }
}
