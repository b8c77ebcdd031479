//! What a generalized parser does with two trees of one text: what `%dprec` and `%merge` say of the productions at their roots.

use crate::advice::Advice;
use crate::conflicts::are_decided;
use crate::levels::Trials;
use crate::notes::Notes;
use crate::told::Told;
use crate::words::Words;
use lrevidence::{Ambiguity, Evidence, Node, Step, Tree};
use lrwriter::Text;
use lryacc::{DynamicKind, Parser};
use std::alloc::{AllocError, Global};
use std::str;

/// What becomes of two trees.
#[derive(Clone, Copy)]
enum Fate<'a> {
    /// By `%dprec` the one is kept whose production has the greater number.
    Kept {
        is_first: bool,
        greater: u64,
        lesser: u64,
    },
    /// By `%merge` the function of that name makes one value of both.
    Merged(&'a str),
    /// Neither decides, so the parser stops with an error.
    Open,
}

/// The production at the root of a tree.
fn root(tree: &Tree) -> Option<usize> {
    match tree.nodes.last() {
        Some(Node::Inner(production)) => Some(*production),
        _ => None,
    }
}

/// The first sentence of entries whose trees part by what meets in one of them.
fn own_sentence(meeting: &[Evidence]) -> Option<&Ambiguity> {
    for evidence in meeting {
        if let Some(ambiguity) = &evidence.ambiguity {
            if ambiguity.is_of(&evidence.entry) {
                return Some(&**ambiguity);
            }
        }
    }
    None
}

impl<'a> Told<'a> {
    /// What the body of a production says: its number by `%dprec`, 0 where it has none, and its function by `%merge`, with its
    /// brackets.
    fn dynamic(&self, production: usize) -> (u64, Option<&'a str>) {
        let Parser::Generalized(dynamics) = self.parser else {
            return (0, None);
        };
        let (body, mut number, mut merger) = (self.place(production), None, None);
        for dynamic in dynamics {
            if body.start <= dynamic.place.start && dynamic.place.end <= body.end {
                match dynamic.kind {
                    DynamicKind::Precedence(it) if number.is_none() => number = Some(it),
                    DynamicKind::Merger(place) if merger.is_none() => merger = Some(place),
                    _ => {}
                }
            }
        }
        let name = match merger {
            Some(place) => str::from_utf8(self.source.part(place.start, place.end)).ok(),
            None => None,
        };
        (number.unwrap_or(0), name)
    }

    /// What becomes of two trees with these productions at their roots. Numbers that differ decide where both have one, and where
    /// they don't differ, or there is none, the function that both have.
    fn fate(&self, one: usize, other: usize) -> Fate<'a> {
        let (number, name) = self.dynamic(one);
        let (against, same) = self.dynamic(other);
        if number == against {
            return match (name, same) {
                (Some(name), Some(same)) if name == same => Fate::Merged(name),
                _ => Fate::Open,
            };
        }
        if number == 0 || against == 0 {
            return Fate::Open;
        }
        Fate::Kept {
            is_first: against < number,
            greater: number.max(against),
            lesser: number.min(against),
        }
    }

    /// The productions at the roots of the two trees that are drawn of a sentence.
    fn roots(
        &self,
        alloc: Global,
        ambiguity: &Ambiguity,
    ) -> Result<Option<(usize, usize)>, AllocError> {
        let (one, other) = Tree::both(alloc, self.file, &ambiguity.form)?;
        Ok(match (root(&one), root(&other)) {
            (Some(one), Some(other)) => Some((one, other)),
            _ => None,
        })
    }

    /// Adds what becomes of the trees of a sentence, where the parser splits.
    pub(crate) fn push_fate(&self, text: &mut Text, notes: Notes, ambiguity: &Ambiguity) {
        if !self.parser.splits() {
            return;
        }
        match self.roots(text.allocator(), ambiguity) {
            Ok(Some((one, other))) => {
                let (fate, candidates) = (self.fate(one, other), ambiguity.form.candidates());
                let mut words = Words::new(text.allocator());
                words.add_all("the parser splits here,");
                self.add_fate(&mut words, fate, candidates);
                notes.push(text, &words);
            }
            Ok(None) => {}
            Err(_) => text.give_up(),
        }
    }

    /// Adds which of two trees is meant that part by these candidates, as their labels tell them.
    fn add_which(&self, words: &mut Words, candidates: (Step, Step), is_first: bool) {
        let (one, other) = candidates;
        let (step, against) = if is_first { (one, other) } else { (other, one) };
        match (step, against) {
            (Step::Shift, _) => words.add_all("that of the shift"),
            (_, Step::Shift) => words.add_all("that of the reduction"),
            (Step::Reduce(step), Step::Reduce(against)) => {
                let name = self.rule_name(step);
                if name == self.rule_name(against) {
                    words.add_all(if is_first { "the first" } else { "the second" });
                } else {
                    words.add_all("that as");
                    words.add(name);
                }
            }
        }
    }

    /// Adds what becomes of two trees that part by these candidates.
    fn add_fate(&self, words: &mut Words, fate: Fate<'_>, candidates: (Step, Step)) {
        match fate {
            Fate::Kept {
                is_first,
                greater,
                lesser,
            } => {
                words.add_all("and %dprec keeps");
                self.add_which(words, candidates, is_first);
                write!(words, "({greater} against {lesser})");
            }
            Fate::Merged(name) => {
                words.add_all("and %merge");
                words.add(name);
                words.add_all("makes one value of both");
            }
            Fate::Open => words.add_all(
                "and stops with an error at such a sentence: neither %dprec nor %merge decides",
            ),
        }
    }

    /// Adds what can be said of two trees with these productions at their roots.
    fn add_dynamics(&self, words: &mut Words, one: usize, other: usize) {
        words.add_all(if one == other {
            "give the production of"
        } else {
            "give both productions of"
        });
        words.add(self.rule_name(one));
        let line = self.source.line(self.place(one).start);
        let against = self.source.line(self.place(other).start);
        if line == against {
            words.add_all("in line");
            words.add_number(line);
        } else {
            let (first, last) = (line.min(against), line.max(against));
            words.add_all("in lines");
            write!(words, "{first} and {last}");
        }
        words.add_all(if one == other {
            "a %merge function, which makes one value of both"
        } else {
            "a %dprec number, the one to be kept the greater, or one %merge function"
        });
    }
}

impl<'a> Trials<'_, 'a> {
    /// Adds what there is to do about entries where the parser splits: nothing, unless neither `%dprec` nor `%merge` decides between
    /// the trees of a sentence. Then levels may resolve the conflict before that.
    pub(crate) fn add_split_help(&self, words: &mut Words, meeting: &[Evidence]) {
        let (alloc, told) = (words.allocator(), self.told());
        let roots = match own_sentence(meeting) {
            Some(ambiguity) => told.roots(alloc, ambiguity),
            None => Ok(None),
        };
        match roots {
            Ok(Some((one, other))) => {
                if let Fate::Open = told.fate(one, other) {
                    words.add("help:");
                    if let Some(Advice::Levels(levels)) = self.advice(alloc, meeting) {
                        told.add_levels(words, &levels);
                        words.add_piece(";");
                        words.add("or");
                    }
                    told.add_dynamics(words, one, other);
                }
            }
            Ok(None) if are_decided(meeting) => {
                words.add_all("help: the parser splits here, so nothing needs to be done");
            }
            Ok(None) => words.add_all(
                "help: the parser splits here; if a sentence has two trees, %dprec or %merge decides between them",
            ),
            Err(_) => words.give_up(),
        }
    }
}
