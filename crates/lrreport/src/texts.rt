//! Words of texts and of trees.

use crate::words::Words;
use lrevidence::{
    Ambiguity, Loss, Node, Step, Tree, TwoTrees, name_of_rule, names_of_tokens, symbol_name,
    text_of, token_name,
};
use lrgrammar::grammar::PartSymbol;
use lrwriter::Text;
use lryacc::FileGrammar;
use std::alloc::{AllocError, Global};

/// How many words of a text or a tree are told on either side of the dot.
pub(crate) const SIDE: usize = 40;

/// Adds the names of tokens, with a comma behind each but the last.
pub(crate) fn add_names(words: &mut Words, file: &FileGrammar, tokens: &[usize]) {
    for (place, token) in tokens.iter().enumerate() {
        words.add_listed(place == 0, token_name(file, *token));
    }
}

/// Adds names with a dot among them; but those that stand far from it are left out.
fn add_with_dot(words: &mut Words, names: &[&str], dot: usize) {
    let (first, last) = (dot.saturating_sub(SIDE), dot.saturating_add(SIDE));
    if first > 0 {
        words.add("...");
    }
    for (place, name) in names.iter().enumerate() {
        if place == dot {
            words.add(".");
        }
        if first <= place && place < last {
            words.add(name);
        }
    }
    if names.len() <= dot {
        words.add(".");
    }
    if last < names.len() {
        words.add("...");
    }
}

/// The names of the leaves of the trees of a form.
fn names_of_form<'a>(
    alloc: Global,
    file: &'a FileGrammar,
    form: &TwoTrees,
) -> Result<Vec<&'a str>, AllocError> {
    let (tree, _) = Tree::both(alloc, file, form)?;
    let mut names = Vec::new(alloc);
    for node in &tree.nodes {
        if let Node::Leaf(symbol) = node {
            names.push(symbol_name(file, *symbol))?;
        }
    }
    Ok(names)
}

/// Adds the words of a sentence with two trees, or of the part of a long one in which they differ, with a dot where they part.
pub(crate) fn add_text(words: &mut Words, file: &FileGrammar, ambiguity: &Ambiguity) {
    let (names, dot) = if ambiguity.is_long() {
        (
            names_of_form(words.allocator(), file, &ambiguity.form),
            ambiguity.form.dot(),
        )
    } else {
        let tokens = text_of(file, ambiguity.tokens.as_slice());
        (
            names_of_tokens(words.allocator(), file, tokens),
            ambiguity.dot(file),
        )
    };
    match names {
        Ok(names) => add_with_dot(words, names.as_slice(), dot),
        Err(_) => words.give_up(),
    }
}

/// Adds the words of a sentence that the parser rejects, with a dot where it goes wrong, and to other words where it stops.
pub(crate) fn add_loss(at: &mut Words, words: &mut Words, file: &FileGrammar, loss: &Loss) {
    let tokens = text_of(file, loss.tokens.as_slice());
    let Ok(names) = names_of_tokens(words.allocator(), file, tokens) else {
        return words.give_up();
    };
    let stop = loss.shown_stop(file);
    match names.get(stop) {
        Some(name) => {
            at.add_all("at token");
            write!(at, "{},", stop.saturating_add(1));
            at.add(name);
        }
        None => at.add_all("at its end"),
    }
    add_with_dot(words, names.as_slice(), loss.shown_dot(file));
}

/// Adds from which start rule a text is derived, where the file has several.
pub(crate) fn add_start(words: &mut Words, file: &FileGrammar, start: Option<PartSymbol>) {
    if let Some(rule) = start {
        words.add("from");
        words.add_all(symbol_name(file, rule));
    }
}

/// Adds that a text, which comes next, has two trees; of a long one, how long it is, and that what comes next is a part of it.
pub(crate) fn add_two_trees(words: &mut Words, file: &FileGrammar, ambiguity: &Ambiguity) {
    let is_long = ambiguity.is_long();
    words.add_all(if is_long {
        "a sentence"
    } else {
        "this sentence"
    });
    add_start(words, file, ambiguity.start(file));
    if is_long {
        let count = text_of(file, ambiguity.tokens.as_slice()).len();
        words.add("of");
        words.add_number(count);
        words.add_all("tokens has two trees, as has this part of it");
    } else {
        words.add_all("has two trees");
    }
}

/// Adds the words of the end of a list of symbols with a dot behind it, and then a token.
pub(crate) fn add_list(words: &mut Words, file: &FileGrammar, list: &[PartSymbol], token: usize) {
    let first = list.len().saturating_sub(SIDE);
    if first > 0 {
        words.add("...");
    }
    for symbol in list.iter().skip(first) {
        words.add(symbol_name(file, *symbol));
    }
    words.add(".");
    if token > 0 {
        words.add(token_name(file, token));
    }
}

/// What stands before what a candidate comes to.
#[derive(Clone, Copy)]
pub(crate) struct Label<'a> {
    front: &'static str,
    name: &'a str,
    behind: &'static str,
    /// How many blanks make it as long as the label of the other candidate.
    pub(crate) blanks: usize,
}

impl<'a> Label<'a> {
    /// That with a name beside which the longer one has so many bytes.
    fn new(front: &'static str, name: &'a str, behind: &'static str, longer: usize) -> Label<'a> {
        Label {
            front,
            name,
            behind,
            blanks: longer.saturating_sub(name.len()),
        }
    }

    /// How long it is with its blanks.
    pub(crate) fn width(self) -> usize {
        self.front
            .len()
            .saturating_add(self.name.len())
            .saturating_add(self.behind.len())
            .saturating_add(self.blanks)
    }

    /// Adds it, without its blanks.
    pub(crate) fn push(self, text: &mut Text) {
        text.add(self.front);
        text.add(self.name);
        text.add(self.behind);
    }
}

/// The labels of two candidates, by what they do, or, where both reduce, by their rules, with a text behind.
pub(crate) fn labels<'a>(
    file: &'a FileGrammar,
    candidates: (Step, Step),
    behind: &'static str,
) -> (Label<'a>, Label<'a>) {
    let (front, one, other) = match candidates {
        (Step::Shift, _) => ("", "shift", "reduce"),
        (_, Step::Shift) => ("", "reduce", "shift"),
        (Step::Reduce(one), Step::Reduce(other)) => {
            match (name_of_rule(file, one), name_of_rule(file, other)) {
                (one, other) if one == other => ("", "first", "second"),
                (one, other) => ("as ", one, other),
            }
        }
    };
    let longer = one.len().max(other.len());
    (
        Label::new(front, one, behind, longer),
        Label::new(front, other, behind, longer),
    )
}
