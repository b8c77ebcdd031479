//! New levels that could resolve a conflict, tried on all conflicts of a file.
//!
//! A level is harmless where it resolves open conflicts as the table decides them: by the shift. It may resolve one by the
//! reduction where a rule and its operator meet: there the state that is come to by the reduction shifts the token too.

use crate::conflicts::{Checked, closed_state};
use crate::told::Told;
use lrevidence::Evidence;
use lrfindings::Entry;
use lrgrammar::grammar::PartSymbol;
use std::alloc::{AllocError, Global};
use std::cell::Cell;
use std::cmp::Ordering;
use std::collections::BTreeMap;

/// How many entries are looked at in all trials of a file.
const MOST: usize = 5_000_000;

/// Where a level stands.
#[derive(Clone, Copy, PartialEq, Eq, PartialOrd, Ord)]
pub(crate) enum Rank {
    /// In a new line above all others.
    Above,
    /// In a line of the file.
    File(u64),
    /// In a new line below all others.
    Below,
    /// In a line below that one.
    LastBelow,
}

/// What is done at a token where a production has its level.
#[derive(Clone, Copy)]
pub(crate) enum Group {
    /// Either, by `%left` or `%right`.
    Either,
    /// To shift, by `%right`.
    Shift,
    /// Nothing is resolved, by `%precedence`.
    Open,
    /// Neither, by `%nonassoc`.
    Neither,
}

/// A level.
#[derive(Clone, Copy)]
pub(crate) struct Level {
    pub(crate) rank: Rank,
    pub(crate) group: Group,
}

/// New levels.
#[derive(Clone, Copy)]
pub(crate) struct Proposal<'t> {
    /// The tokens of a new line, and their level.
    pub(crate) tokens: &'t [usize],
    pub(crate) level: Level,
    /// Those of a line of the same group below all others.
    pub(crate) last: &'t [usize],
    /// A production with its level by `%prec`.
    pub(crate) production: Option<(usize, Level)>,
}

/// What comes of new levels.
#[derive(Clone, Copy, PartialEq, Eq)]
pub(crate) enum Trial {
    /// The conflict is resolved, and nothing else is decided otherwise than before.
    Good,
    /// It is not, or something else is.
    Bad,
    /// Too much was tried already.
    Untried,
}

/// What levels make of a shift and a reduction.
#[derive(Clone, Copy, PartialEq, Eq)]
enum Outcome {
    Open,
    Shift,
    Reduce,
    Neither,
}

/// Gives tokens a level.
fn give(levels: &mut Vec<Option<Level>>, tokens: &[usize], level: Level) {
    for token in tokens {
        if let Some(place) = levels.get_mut(*token) {
            *place = Some(level);
        }
    }
}

/// What levels make of a shift and a reduction.
fn outcome_of(token: Option<Level>, production: Option<Level>) -> Outcome {
    let (Some(token), Some(production)) = (token, production) else {
        return Outcome::Open;
    };
    match token.rank.cmp(&production.rank) {
        Ordering::Greater => Outcome::Shift,
        Ordering::Less => Outcome::Reduce,
        Ordering::Equal => match token.group {
            Group::Either => Outcome::Reduce,
            Group::Shift => Outcome::Shift,
            Group::Open => Outcome::Open,
            Group::Neither => Outcome::Neither,
        },
    }
}

/// The levels of a grammar with new ones.
#[derive(Clone, Copy)]
struct Levels<'l> {
    /// By token.
    tokens: &'l [Option<Level>],
    /// Of a production, by `%prec`.
    production: Option<(usize, Level)>,
}

/// What is tried on a file.
#[derive(Drop)]
pub(crate) struct Trials<'c, 'a> {
    pub(crate) checked: &'c Checked<'a>,
    /// State and token of each entry, left open or resolved, in order. What stands here twice has more than two candidates.
    cells: Vec<(usize, usize)>,
    /// Of each state of an entry the rule of which it has operators, if of one.
    rules: BTreeMap<usize, Option<usize>>,
    /// How many entries may still be looked at.
    left: Cell<usize>,
    /// Whether all memory was granted that what was advised took.
    pub(crate) is_whole: Cell<bool>,
}

impl<'c, 'a> Trials<'c, 'a> {
    /// Nothing is tried yet.
    pub(crate) fn new(
        alloc: Global,
        checked: &'c Checked<'a>,
    ) -> Result<Trials<'c, 'a>, AllocError> {
        let mut trials = Trials {
            checked,
            cells: Vec::new(alloc),
            rules: BTreeMap::new(alloc),
            left: Cell::new(MOST),
            is_whole: Cell::new(true),
        };
        trials.add_entries()?;
        for resolved in &checked.found.resolved {
            let entry = resolved.entry;
            trials.cells.push((entry.state, entry.token))?;
        }
        trials.cells.sort_unstable();
        Ok(trials)
    }

    /// What is told of the file.
    pub(crate) fn told(&self) -> Told<'a> {
        self.checked.told
    }

    /// Adds the entries that are left open.
    fn add_entries(&mut self) -> Result<(), AllocError> {
        let checked = self.checked;
        for evidence in checked.told.evidence {
            let state = evidence.entry.state;
            self.cells.push((state, evidence.entry.token))?;
            if self.rules.get(&state).is_none() {
                self.rules.insert(state, checked.operator_rule(state))?;
            }
        }
        Ok(())
    }

    /// Whether more than two candidates meet in the cell of an entry.
    pub(crate) fn is_crowded(&self, entry: &Entry) -> bool {
        let cell = (entry.state, entry.token);
        match self.cells.binary_search(&cell) {
            Ok(at) => self.cells.get(at.saturating_add(1)) == Some(&cell)
                || at > 0 && self.cells.get(at - 1) == Some(&cell),
            Err(_) => false,
        }
    }

    /// Whether a rule and its operator meet in an entry: the production ends with its rule, and the token stands behind that rule
    /// in productions of it.
    pub(crate) fn is_of_operator(&self, entry: &Entry) -> bool {
        let told = self.told();
        let Some(prod) = told.production(entry.production) else {
            return false;
        };
        // all items of the state are behind one symbol, so the production ends with it
        self.rules.get(&entry.state).copied().flatten() == Some(prod.rule)
    }

    /// By token, the levels of the file. Where a token and a production have one level and meet in an open conflict, it is one of
    /// `%precedence`.
    fn levels_of_file(&self, alloc: Global) -> Result<Vec<Option<Level>>, AllocError> {
        let file = self.told().file;
        let mut levels = Vec::new(alloc);
        for token in &file.parts.tokens {
            levels.push(match token.precedence {
                Some(precedence) => Some(Level {
                    rank: Rank::File(precedence.level),
                    group: Group::Open,
                }),
                None => None,
            })?;
        }
        Ok(levels)
    }

    /// What levels make of a shift of a token and the reduction by a production.
    fn outcome(&self, levels: Levels<'_>, token: usize, production: usize) -> Outcome {
        let level = match levels.production {
            Some((named, level)) if named == production => Some(level),
            _ => match self.told().token_of(production) {
                Some(source) => levels.tokens.get(source).copied().flatten(),
                None => None,
            },
        };
        outcome_of(levels.tokens.get(token).copied().flatten(), level)
    }

    /// Whether levels keep the shift, if there is one, where a production could reduce.
    fn keeps_shift(&self, levels: Levels<'_>, token: usize, production: usize) -> bool {
        matches!(
            self.outcome(levels, token, production),
            Outcome::Open | Outcome::Shift
        )
    }

    /// Whether what levels make of an entry changes nothing. Where two reductions meet, a shift may be there too.
    fn is_harmless(&self, levels: Levels<'_>, entry: &Entry) -> bool {
        if let Some(other) = entry.other {
            return self.keeps_shift(levels, entry.token, entry.production)
                && self.keeps_shift(levels, entry.token, other);
        }
        match self.outcome(levels, entry.token, entry.production) {
            Outcome::Open => true,
            Outcome::Shift => !self.is_crowded(entry),
            Outcome::Reduce => !self.is_crowded(entry) && self.is_of_operator(entry),
            Outcome::Neither => false,
        }
    }

    /// Whether levels resolve each of the entries.
    fn resolves(&self, levels: Levels<'_>, meeting: &[Evidence]) -> bool {
        for evidence in meeting {
            let entry = &evidence.entry;
            if self.outcome(levels, entry.token, entry.production) == Outcome::Open {
                return false;
            }
        }
        true
    }

    /// Whether what levels make of each of the entries changes nothing.
    fn are_harmless(&self, levels: Levels<'_>, evidence: &[Evidence]) -> bool {
        for one in evidence {
            if !self.is_harmless(levels, &one.entry) {
                return false;
            }
        }
        true
    }

    /// What comes of new levels for entries and for all others.
    pub(crate) fn run(&self, proposal: Proposal<'_>, meeting: &[Evidence]) -> Trial {
        let told = self.told();
        let evidence = told.evidence;
        let Some(left) = self.left.get().checked_sub(evidence.len()) else {
            return Trial::Untried;
        };
        self.left.set(left);
        let Ok(mut tokens) = self.levels_of_file(*self.cells.allocator()) else {
            self.is_whole.set(false);
            return Trial::Untried;
        };
        let (rank, group) = (Rank::LastBelow, proposal.level.group);
        give(&mut tokens, proposal.tokens, proposal.level);
        give(&mut tokens, proposal.last, Level { rank, group });
        let levels = Levels {
            tokens: tokens.as_slice(),
            production: proposal.production,
        };
        if self.resolves(levels, meeting) && self.are_harmless(levels, evidence) {
            Trial::Good
        } else {
            Trial::Bad
        }
    }
}

impl Checked<'_> {
    /// The rule of which a state has operators: each of its items is complete, or one of the rule with its dot behind the rule, in
    /// the first place. None where there is no such rule.
    fn operator_rule(&self, state: usize) -> Option<usize> {
        let closed = closed_state(self.found.graph.as_ref()?, state)?;
        let mut rule = None;
        for key in closed.items.keys() {
            let (production, dot) = (usize::from(key.0), usize::from(key.1));
            let prod = self.told.production(production)?;
            if dot == prod.symbols.len() {
                continue;
            }
            let own = match prod.symbols.first() {
                Some(PartSymbol::Rule(first)) if dot == 1 && *first == prod.rule => prod.rule,
                _ => return None,
            };
            match rule {
                Some(rule) if rule != own => return None,
                _ => rule = Some(own),
            }
        }
        rule
    }
}
