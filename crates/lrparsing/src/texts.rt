//! What is told of a line.

ghost use Rattle.std.specs.Prelude.{◌≡◌, ◌++◌, ◌∷◌, [], codes, map, string_bytes, IfOk, OnOk};
ghost use Rattle.lrwriter.specs.Texts.{Adds};
ghost use Rattle.lrdiagnostics.specs.ShownTexts.{shown_text};
ghost use Rattle.lrshown.specs.DrawnTrees.{Row};
ghost use Rattle.lrshown.specs.StoredTrees.{IsDrawn};
ghost use Rattle.lrparsing.specs.AnswerTexts.{expected_text, joined, place_text, rejection_text, shown_names, whole_words};
ghost use Rattle.lrparsing.specs.AnswerTexts.{TellsAnswer, TellsUnknown};

use crate::answers::{Answer, Refused, Rejection};
use crate::parsers::Parser;
use lrdiagnostics::add_shown;
use lrshown::{ShownTree, names_of_tokens, token_name, tree_words};
use lrwriter::Text;
use lryacc::FileGrammar;
use std::alloc::{AllocError, Global};
use std::str;

/// Adds a name as it is shown, behind another text.
fn add_behind(text: &mut Text, between: &str, name: &str)
    ensures { Adds text.old text.new (between.now ++ shown_text name.now) }
{
    text.add(between);
    add_shown(text, name);
}

/// Adds names as they are shown, with another text between them.
fn add_names(text: &mut Text, between: &str, names: &[&str])
    ensures { Adds text.old text.new (shown_names between.now (map (λ name. name.now) names.now)) }
{
    let Some((first, others)) = names.split_first() else {
        return;
    };
    add_shown(text, first);
    for name in others {
        add_behind(text, between, name);
    }
}

/// The words of a tree in brackets.
fn words_of(alloc: Global, file: &FileGrammar, tree: &ShownTree) -> Result<Vec<String>, AllocError>
    ensures { (ts : Row) → IsDrawn tree.now.tree ts → IfOk result (λ v.
        map string_bytes v.items ≡ whole_words file.now tree.now.cuts.items ts) }
{
    let mut words = tree_words(alloc, file, tree, "", usize::MAX)?;
    // the last one is the dot
    let _ = words.pop();
    Ok(words)
}

/// Texts, as they are lent.
fn lent<'a>(alloc: Global, texts: &'a [String]) -> Result<Vec<&'a str>, AllocError>
    ensures { IfOk result (λ v. map (λ text. text.now) v.items ≡ map string_bytes texts.now) }
{
    let mut list = Vec::new(alloc);
    for text in texts {
        list.push(text.as_str())?;
    }
    Ok(list)
}

/// Adds a tree in brackets.
fn add_tree(text: &mut Text, file: &FileGrammar, tree: &ShownTree) -> Result<(), AllocError>
    ensures { (ts : Row) → IsDrawn tree.now.tree ts → OnOk result (Adds text.old text.new
        (shown_names (codes " ") (whole_words file.now tree.now.cuts.items ts))) }
{
    let words = words_of(text.allocator(), file, tree)?;
    let names = lent(text.allocator(), words.as_slice())?;
    add_names(text, " ", names.as_slice());
    Ok(())
}

/// Adds at which token of a line it is rejected, or that it is at its end.
fn add_place(text: &mut Text, file: &FileGrammar, refused: Option<Refused>)
    ensures { Adds text.old text.new (place_text file.now refused) }
{
    match refused {
        Some(Refused { place, token }) => {
            write!(text, "rejected at token {place}, ");
            add_shown(text, token_name(file, token));
        }
        None => text.add("rejected at its end"),
    }
}

/// Adds which tokens could stand there.
fn add_expected(text: &mut Text, file: &FileGrammar, tokens: &[usize]) -> Result<(), AllocError>
    ensures { OnOk result (Adds text.old text.new (expected_text file.now tokens.now)) }
{
    if tokens.is_empty() {
        text.add("nothing");
        return Ok(());
    }
    let names = names_of_tokens(text.allocator(), file, tokens)?;
    add_names(text, ", ", names.as_slice());
    Ok(())
}

/// Adds where a line is rejected.
fn add_rejection(
    text: &mut Text,
    file: &FileGrammar,
    rejection: &Rejection,
) -> Result<(), AllocError>
    ensures { OnOk result (Adds text.old text.new (rejection_text file.now rejection.now)) }
{
    add_place(text, file, rejection.refused);
    text.add("; expected: ");
    add_expected(text, file, rejection.expected.as_slice())
}

/// Adds that a word names no token.
fn add_unknown(text: &mut Text, word: &[u8])
    ensures { TellsUnknown word.now text.old text.new }
{
    text.add("there is no token ");
    match str::from_utf8(word) {
        Ok(name) => {
            add_shown(text, name);
            text.add_char('\n');
        }
        Err(_) => text.add("of a name that is no UTF-8\n"),
    }
}

impl Parser {
    /// Adds what a line comes to, in one line.
    pub fn add_answer(&self, text: &mut Text, answer: &Answer<'_>) -> Result<(), AllocError>
        ensures { OnOk result (TellsAnswer self.now answer.now text.old text.new) }
    {
        match answer {
            Answer::Sentence(tree) => {
                add_tree(text, &self.file, tree)?;
                text.add_char('\n');
            }
            Answer::Rejected(rejection) => {
                add_rejection(text, &self.file, rejection)?;
                text.add_char('\n');
            }
            Answer::Unfinished => {
                let steps = self.machine.steps();
                write!(text, "not ended in {steps} steps\n");
            }
            Answer::Unknown(word) => add_unknown(text, word),
        }
        Ok(())
    }
}
