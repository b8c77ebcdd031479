//! Trees in brackets.

ghost use Rattle.std.specs.Prelude.{◌≡◌, ◌++◌, List, ◌∷◌, [], map, reverse, string_bytes};
ghost use Rattle.std.specs.Prelude.{codes, IfOk, OnOk};
ghost use Rattle.lrshown.specs.BracketTexts as spec;
ghost use Rattle.lrshown.specs.BracketTexts.{row_words, with_dot, cut_text};
ghost use Rattle.lrshown.specs.BracketSteps.{word_of, name_at, fronts, closed, with_node};
ghost use Rattle.lrshown.specs.BracketSteps.{with_dot_left};
ghost use Rattle.lrshown.specs.DrawnTrees.{Row};
ghost use Rattle.lrshown.specs.StoredTrees.{IsDrawn};

use crate::chains::ShownTree;
use crate::names::{name_of_rule, symbol_name};
use crate::trees::{Node, Tree};
use lryacc::FileGrammar;
use std::alloc::{AllocError, Global};

/// A word of a tree.
#[derive(Drop)]
struct Word {
    text: String,
    has_leaf: bool,
}

/// The name of what stands at a node: a symbol, or the rule of a production.
pub fn node_name<'a>(file: &'a FileGrammar, tree: &Tree, number: usize) -> &'a str
    ensures { result.now ≡ name_at file.now tree.now.nodes.items number }
{
    match tree.node(number) {
        Some(Node::Leaf(symbol)) => symbol_name(file, symbol),
        Some(Node::Inner(production)) => name_of_rule(file, production),
        None => "",
    }
}

/// What stands where nodes are left out behind one: the mark; else nothing.
fn cut_mark<'a>(shown: &ShownTree, number: usize, mark: &'a str) -> &'a str
    ensures { result.now ≡ cut_text mark.now shown.now.cuts.items number }
{
    if shown.is_cut(number) { mark } else { "" }
}

/// What a word begins with before which these productions are entered, the last one first: their names, each with a bracket, and
/// with the mark where nodes are left out behind it.
fn opened(
    alloc: Global,
    file: &FileGrammar,
    shown: &ShownTree,
    mark: &str,
    entered: &[usize],
) -> Result<String, AllocError>
    ensures { IfOk result (λ s. string_bytes s
        ≡ fronts file.now shown.now.tree.nodes.items mark.now shown.now.cuts.items
        (reverse entered.now)) }
{
    let mut text = String::new(alloc);
    for number in entered.iter().rev() {
        text.push_str(node_name(file, &shown.tree, *number))?;
        text.push_str("(")?;
        text.push_str(cut_mark(shown, *number, mark))?;
    }
    Ok(text)
}

/// A word before which these productions are entered.
fn new_word(
    alloc: Global,
    file: &FileGrammar,
    shown: &ShownTree,
    mark: &str,
    entered: &[usize],
    end: &str,
    has_leaf: bool,
) -> Result<Word, AllocError>
    ensures { IfOk result (λ w. word_of w ≡ record {
      bytes = fronts file.now shown.now.tree.nodes.items mark.now shown.now.cuts.items
          (reverse entered.now) ++ end.now;
      has_leaf = has_leaf;
    }) }
{
    let mut text = opened(alloc, file, shown, mark, entered)?;
    text.push_str(end)?;
    Ok(Word { text, has_leaf })
}

/// Adds a closing bracket to the last word.
fn close(words: &mut Vec<Word>) -> Result<(), AllocError>
    ensures { OnOk result (map word_of words.new.items ≡ closed (map word_of words.old.items)) }
{
    if let Some(word) = words.last_mut() {
        word.text.push_str(")")?;
    }
    Ok(())
}

/// Adds a node to words: a leaf, or a production of which nothing stands below it, is a new one.
fn add_node(
    words: &mut Vec<Word>,
    alloc: Global,
    file: &FileGrammar,
    shown: &ShownTree,
    mark: &str,
    node: Node,
    entered: &[usize],
) -> Result<(), AllocError>
    ensures { OnOk result (map word_of words.new.items
        ≡ with_node file.now shown.now.tree.nodes.items mark.now shown.now.cuts.items
        (map word_of words.old.items) node entered.now) }
{
    match node {
        Node::Leaf(symbol) => {
            let name = symbol_name(file, symbol);
            words.push(new_word(alloc, file, shown, mark, entered, name, true)?)?;
            Ok(())
        }
        Node::Inner(_) => {
            if entered.is_empty() {
                return close(words);
            }
            words.push(new_word(alloc, file, shown, mark, entered, ")", false)?)?;
            Ok(())
        }
    }
}

/// The words of a tree, without a dot.
fn words_of(
    alloc: Global,
    file: &FileGrammar,
    shown: &ShownTree,
    mark: &str,
) -> Result<Vec<Word>, AllocError>
    ensures { (ts : Row) → IsDrawn shown.now.tree ts
        → IfOk result (λ v. map word_of v.items
        ≡ row_words file.now mark.now shown.now.cuts.items 0 ts) }
{
    let mut words = Vec::new(alloc);
    for (number, node) in shown.tree.nodes.iter().enumerate() {
        let entered = shown.tree.entered_before(number);
        add_node(&mut words, alloc, file, shown, mark, *node, entered)?;
    }
    Ok(words)
}

/// Adds a dot.
fn push_dot(alloc: Global, words: &mut Vec<String>) -> Result<(), AllocError>
    ensures { OnOk result (map string_bytes words.new.items
        ≡ map string_bytes words.old.items ++ codes "." ∷ []) }
{
    words.push(String::from_str(alloc, ".")?)?;
    Ok(())
}

/// Adds a word, with a dot before it if so many leaves were left before the dot and it is the next one; answers how many are left.
fn add_word(
    alloc: Global,
    words: &mut Vec<String>,
    word: Word,
    left: Option<usize>,
) -> Result<Option<usize>, AllocError>
    ensures { IfOk result (λ after. (behind : List spec.Word)
        → map string_bytes words.old.items ++ with_dot_left left (word_of word ∷ behind)
        ≡ map string_bytes words.new.items ++ with_dot_left after behind) }
{
    match (word.has_leaf, left) {
        (true, Some(0)) => {
            push_dot(alloc, words)?;
            words.push(word.text)?;
            Ok(None)
        }
        (true, Some(leaves)) => {
            words.push(word.text)?;
            Ok(Some(leaves.saturating_sub(1)))
        }
        _ => {
            words.push(word.text)?;
            Ok(left)
        }
    }
}

/// The words of a tree in brackets, as `E(E(E '+' E) . '+' E)`, with a dot before that leaf, or behind all, and with the mark where
/// nodes are left out.
pub fn tree_words(
    alloc: Global,
    file: &FileGrammar,
    shown: &ShownTree,
    mark: &str,
    dot: usize,
) -> Result<Vec<String>, AllocError>
    ensures { (ts : Row) → IsDrawn shown.now.tree ts
        → IfOk result (λ v. map string_bytes v.items
        ≡ with_dot dot (row_words file.now mark.now shown.now.cuts.items 0 ts)) }
{
    let mut words = Vec::new(alloc);
    let mut left = Some(dot);
    for word in words_of(alloc, file, shown, mark)? {
        left = add_word(alloc, &mut words, word, left)?;
    }
    if left.is_some() {
        push_dot(alloc, &mut words)?;
    }
    Ok(words)
}
