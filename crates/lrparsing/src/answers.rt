//! What a line comes to.

ghost use Rattle.std.specs.Prelude.{◌≡◌, ◌≤◌, IfOk, drop, length, take};
ghost use Rattle.lrspec.specs.grammars.Trees.{IsSentence};
ghost use Rattle.lrspec.specs.tables.Machine.{Rejected};
ghost use Rattle.lrspec.specs.tables.Recognition.{AreNamed};
ghost use Rattle.lrtree.specs.StoredTrees.{tree_of};
ghost use Rattle.lrparsing.specs.Answers.{IsAnswer, IsAnswerTo, IsRejectionTold, IsSentenceTold, refused_at, run_on, text_of_line};
ghost use Rattle.lrparsing.specs.Machines.{numbers};

use crate::expected::tokens_behind;
use crate::parsers::Parser;
use crate::spellings::tokens_of_line;
use crate::steps::steps_of_tree;
use lrgrammar::idx::TIdx;
use lrshown::{ShownTree, Step};
use lrtree::Parsed;
use std::alloc::AllocError;

/// A token at which a line is rejected.
#[derive(Clone, Copy, Debug, PartialEq, Eq)]
pub struct Refused {
    /// Its place in the line, counted by tokens from 1.
    pub place: usize,
    /// Its number.
    pub token: usize,
}

/// Where a line is rejected.
#[derive(Debug, Drop)]
pub struct Rejection {
    /// At which token; None at the end of the line.
    pub refused: Option<Refused>,
    /// The tokens that could stand there, by their numbers.
    pub expected: Vec<usize>,
}

/// What a line comes to.
#[derive(Debug, Drop)]
pub enum Answer<'a> {
    /// It is a sentence, and this is its tree.
    Sentence(ShownTree),
    /// The parser rejects it.
    Rejected(Rejection),
    /// The parser comes to no end in so many steps.
    Unfinished,
    /// This word of it names no token.
    Unknown(&'a [u8]),
}

/// The token behind the first ones of a line, so many; None at its end.
fn refused_at(tokens: &[TIdx<u32>], taken: usize) -> Option<Refused>
    ensures { result ≡ refused_at (numbers tokens.now) taken }
{
    match tokens.get(taken) {
        Some(token) => Some(Refused {
            place: taken + 1,
            token: usize::from(*token),
        }),
        None => None,
    }
}

/// The first tokens of a text, so many.
fn beginning(text: &[TIdx<u32>], count: usize) -> &[TIdx<u32>]
    requires { count ≤ length text.now }
    ensures { result.now ≡ take count text.now }
{
    text.split_at(count).0
}

/// The steps behind the first ones, so many.
fn steps_behind(steps: &[Step], count: usize) -> &[Step]
    ensures { result.now ≡ drop count steps.now }
{
    steps.get(count..).unwrap_or(&[])
}

impl Parser {
    /// The text of a line: its tokens with those around them.
    fn text(&self, tokens: &[TIdx<u32>]) -> Result<Vec<TIdx<u32>>, AllocError>
        requires { AreNamed self.now.machine.grammar (numbers tokens.now) }
        ensures text { IfOk result (λ v.
            numbers v.items ≡ text_of_line self.now (numbers tokens.now)) }
        ensures named { IfOk result (λ v. AreNamed self.now.machine.grammar (numbers v.items)) }
    {
        let mut text = self.front.as_slice().to_vec(self.machine.allocator())?;
        text.extend_from_slice(tokens)?;
        text.extend_from_slice(self.behind.as_slice())?;
        Ok(text)
    }

    /// The tree of a sentence, without what stands around its tokens.
    fn shown(&self, tree: &lrtree::Tree<u32>, text: &[TIdx<u32>]) -> Result<ShownTree, AllocError>
        requires { (s : IsSentence self.now.machine.grammar (numbers text.now))
            × (s.tree ≡ tree_of (λ n. n) tree.now) }
        ensures { IfOk result (IsSentenceTold self.now.machine.grammar self.now.file (numbers text.now)
            (length self.now.front.items)) }
    {
        let alloc = self.machine.allocator();
        let steps = steps_of_tree(alloc, tree)?;
        let behind = steps_behind(steps.as_slice(), self.front.len());
        ShownTree::whole(alloc, &self.file, &[], behind)
    }

    /// Where a line of tokens is rejected, whose text is this one.
    fn rejection(&self, tokens: &[TIdx<u32>], text: &[TIdx<u32>]) -> Result<Rejection, AllocError>
        requires text_is { numbers text.now ≡ text_of_line self.now (numbers tokens.now) }
        requires named { AreNamed self.now.machine.grammar (numbers text.now) }
        requires rejects { (run_on self.now (numbers tokens.now)).verdict ≡ Rejected }
        ensures { IfOk result (IsRejectionTold self.now (numbers tokens.now)) }
    {
        let used = self.machine.shifted(text)?;
        let before = beginning(text, used);
        Ok(Rejection {
            refused: refused_at(tokens, used.saturating_sub(self.front.len())),
            expected: tokens_behind(&self.machine, before)?,
        })
    }

    /// What tokens come to.
    fn answer_tokens<'a>(&self, tokens: &[TIdx<u32>]) -> Result<Answer<'a>, AllocError>
        requires { AreNamed self.now.machine.grammar (numbers tokens.now) }
        ensures { IfOk result (IsAnswer self.now (numbers tokens.now)) }
    {
        let text = self.text(tokens)?;
        let text = text.as_slice();
        match self.machine.parse(text)? {
            Parsed::Tree(tree) => {
                let shown = self.shown(&tree, text);
                tree.take_apart();
                Ok(Answer::Sentence(shown?))
            }
            Parsed::Rejected => Ok(Answer::Rejected(self.rejection(tokens, text)?)),
            Parsed::Unfinished => Ok(Answer::Unfinished),
        }
    }

    /// What a line comes to. Its words stand between spaces and tabs.
    pub fn answer<'a>(&self, line: &'a [u8]) -> Result<Answer<'a>, AllocError>
        ensures { IfOk result (IsAnswerTo self.now line.entry.now) }
    {
        let alloc = self.machine.allocator();
        match tokens_of_line(alloc, self.spellings.as_slice(), line)? {
            Ok(tokens) => self.answer_tokens(tokens.as_slice()),
            Err(word) => Ok(Answer::Unknown(word)),
        }
    }
}
