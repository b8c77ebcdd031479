//! Searches how conflicts can be resolved: by the levels that an author would try first, each tried on all conflicts of the file.

use crate::advice::{Advice, Hindrance, NewLevels, Place, Way};
use crate::causes::have_loss;
use crate::conflicts::tokens_of_each;
use crate::levels::{Group, Level, Proposal, Rank, Trial, Trials};
use crate::told::Told;
use crate::verdicts::own_sentences;
use crate::words::Words;
use lrevidence::{Evidence, Exactness};
use lrfindings::is_among;
use lryacc::Dialect;
use std::alloc::{AllocError, Global};

/// How many tokens each grammar has, before those that its file brings in.
const FIRST_TOKENS: usize = 3;

/// What is known of the levels of a conflict with a shift.
#[derive(Drop)]
struct Sides {
    /// Its production.
    production: usize,
    /// Its tokens without a level.
    without: Vec<usize>,
    /// Whether one of its tokens has a level.
    has_other: bool,
    /// The token whose level the production has, or would have.
    source: Option<usize>,
    /// Whether that has one.
    has_source: bool,
}

/// What comes of trying levels.
#[derive(Clone, Copy)]
enum Tried {
    /// They resolve the conflict, and nothing else is decided otherwise than before.
    Good(Way),
    /// They don't, or something else is.
    Bad,
    /// Too much was tried already.
    Untried,
}

impl Trial {
    /// The same with the levels where it is good.
    fn with(self, way: Way) -> Tried {
        match self {
            Trial::Good => Tried::Good(way),
            Trial::Bad => Tried::Bad,
            Trial::Untried => Tried::Untried,
        }
    }
}

/// At how many entries the search was not through when the allowance of the file was used up.
pub(crate) fn cut_off(evidence: &[Evidence]) -> usize {
    let mut count: usize = 0;
    for one in evidence {
        if one.is_cut_off {
            count = count.saturating_add(1);
        }
    }
    count
}

/// Whether only merged states have each of the entries.
fn are_merged(meeting: &[Evidence]) -> bool {
    for evidence in meeting {
        if !evidence.is_merged() {
            return false;
        }
    }
    true
}

impl Told<'_> {
    /// Whether an author can give a token a level.
    fn can_have_level(&self, token: usize) -> bool {
        let name = self.token_name(token);
        name == "error" || token >= FIRST_TOKENS && name != "%no-default-prec"
    }

    /// Whether one of the entries is ambiguous at which the parser rejects a sentence, and levels could reduce there, so that it may
    /// accept it.
    fn may_reduce(&self, meeting: &[Evidence]) -> bool {
        for evidence in meeting {
            let entry = &evidence.entry;
            let is_both = evidence.rejects() && evidence.has_own_sentence();
            if is_both && entry.other.is_none() && self.can_have_level(entry.token) {
                return true;
            }
        }
        false
    }

    /// Whether it is shown that no sentence is lost at the conflicts.
    fn loses_none(&self) -> bool {
        if self.exactness == Exactness::Exact {
            return true;
        }
        for evidence in self.evidence {
            if !is_among(self.kept, &evidence.entry) {
                return false;
            }
        }
        true
    }

    /// Whether it may be said that the conflicts can be expected, unless they are: each is one with a shift, and no sentence is known
    /// that the parser rejects, which would be hidden.
    fn can_be_expected(&self) -> bool {
        let count = self.evidence.len();
        let is_expected = count == 0 || self.options.expected == Some(count as u64);
        if is_expected || self.options.ignores_precedences || have_loss(self.evidence) {
            return false;
        }
        for evidence in self.evidence {
            if evidence.entry.other.is_some() {
                return false;
            }
        }
        true
    }

    /// What is said of all conflicts together: for how many no sentence was looked for to the end, because the file's allowance was
    /// used up, if for some, and that they can be expected, where that may be said.
    pub(crate) fn notes_on_all(&self, alloc: Global) -> Result<Vec<String>, AllocError> {
        let mut notes = Vec::new(alloc);
        let (count, all) = (cut_off(self.evidence), self.evidence.len());
        if count > 0 {
            notes.push(format!(in alloc;
                "note: {count} of {all} conflicts were not searched to the end, since the allowance of this file was used up; --steps N gives more"
            )?)?;
        }
        if self.can_be_expected() {
            let wanted = if self.parser.splits() {
                "if the parser is to split there"
            } else if self.loses_none() {
                "no sentence is lost there: if the trees are those that are wanted"
            } else {
                "if the table does what is wanted"
            };
            notes.push(format!(in alloc; "help: {wanted}, say %expect {all}")?)?;
        }
        Ok(notes)
    }

    /// What is known of the levels of a conflict with a shift.
    fn sides(
        &self,
        alloc: Global,
        production: usize,
        meeting: &[Evidence],
    ) -> Result<Sides, AllocError> {
        let mut without = Vec::new(alloc);
        for evidence in meeting {
            let token = evidence.entry.token;
            if self.precedence(token).is_none() {
                without.push(token)?;
            }
        }
        let (source, has_source) = match self.token_of(production) {
            Some(token) if self.can_have_level(token) => (
                Some(token),
                self.precedence(token).is_some(),
            ),
            _ => (None, false),
        };
        Ok(Sides {
            production,
            has_other: without.len() < meeting.len(),
            without,
            source,
            has_source,
        })
    }
}

impl<'a> Trials<'_, 'a> {
    /// Whether a rule and its operator meet in each of the entries.
    fn are_of_operator(&self, meeting: &[Evidence]) -> bool {
        for evidence in meeting {
            if !self.is_of_operator(&evidence.entry) {
                return false;
            }
        }
        true
    }

    /// Whether more than two candidates meet in the cell of one of the entries.
    fn has_crowded(&self, meeting: &[Evidence]) -> bool {
        for evidence in meeting {
            if self.is_crowded(&evidence.entry) {
                return true;
            }
        }
        false
    }

    /// The group of a line in which nothing is resolved.
    fn plain_group(&self) -> Group {
        match self.told().options.dialect {
            Dialect::Bison => Group::Open,
            Dialect::Grmtools => Group::Neither,
        }
    }

    /// What comes of it that tokens stand in a new line.
    fn with_line(&self, tokens: &[usize], rank: Rank, group: Group, meeting: &[Evidence]) -> Trial {
        let proposal = Proposal {
            tokens,
            level: Level { rank, group },
            last: &[],
            production: None,
        };
        self.run(proposal, meeting)
    }

    /// What comes of it that tokens stand in a new line in which nothing is resolved, and others in such a one below it.
    fn with_two_lines(&self, above: &[usize], below: &[usize], meeting: &[Evidence]) -> Trial {
        let (rank, group) = (Rank::Below, self.plain_group());
        let proposal = Proposal {
            tokens: above,
            level: Level { rank, group },
            last: below,
            production: None,
        };
        self.run(proposal, meeting)
    }

    /// What comes of it that a production gets a level by `%prec`, and tokens one in the last line.
    fn with_prec(
        &self,
        production: usize,
        rank: Rank,
        tokens: &[usize],
        meeting: &[Evidence],
    ) -> Trial {
        let group = self.plain_group();
        let level = Level { rank, group };
        let proposal = Proposal {
            tokens: &[],
            level,
            last: tokens,
            production: Some((production, level)),
        };
        self.run(proposal, meeting)
    }

    /// That the tokens of the conflict get one level, which is that of its production too.
    fn one_level(&self, tokens: &[usize], meeting: &[Evidence]) -> Tried {
        let mut is_right = false;
        let mut trial = self.with_line(tokens, Rank::Below, Group::Either, meeting);
        if trial != Trial::Good {
            is_right = true;
            trial = self.with_line(tokens, Rank::Below, Group::Shift, meeting);
        }
        trial.with(Way::One { is_right })
    }

    /// That the token of the production gets a level, and the tokens of the conflict one below it.
    fn two_levels(&self, source: usize, tokens: &[usize], meeting: &[Evidence]) -> Tried {
        let trial = self.with_two_lines(&[source], tokens, meeting);
        let can_reduce = trial == Trial::Good
            && self.with_two_lines(tokens, &[source], meeting) == Trial::Good;
        trial.with(Way::Two { source, can_reduce })
    }

    /// What comes of it that tokens get a level in a new line, and whether they could reduce in one in the other place.
    fn line(&self, tokens: &[usize], place: Place, meeting: &[Evidence]) -> (Trial, bool) {
        let group = self.plain_group();
        let (rank, other) = match place {
            Place::Above => (Rank::Above, Rank::Below),
            Place::Below => (Rank::Below, Rank::Above),
        };
        let trial = self.with_line(tokens, rank, group, meeting);
        let can_reduce = trial == Trial::Good
            && self.with_line(tokens, other, group, meeting) == Trial::Good;
        (trial, can_reduce)
    }

    /// That the production gets a level by `%prec`, where all tokens have one.
    fn prec(&self, production: usize, meeting: &[Evidence]) -> Tried {
        let trial = self.with_prec(production, Rank::Above, &[], meeting);
        let can_reduce = trial == Trial::Good
            && self.with_prec(production, Rank::Below, &[], meeting) == Trial::Good;
        trial.with(Way::Prec { can_reduce })
    }

    /// Levels that resolve a conflict of a production with a shift, where some do: for its tokens without a level, for the token of
    /// the production, for both, or by `%prec`.
    fn levels_for(&self, sides: &Sides, meeting: &[Evidence]) -> Tried {
        let tokens = sides.without.as_slice();
        match sides.source {
            Some(_) if sides.has_source && tokens.is_empty() => {
                let is_of_operator = self.are_of_operator(meeting);
                Tried::Good(Way::Associativity { is_of_operator })
            }
            Some(_) if sides.has_source => {
                let (trial, can_reduce) = self.line(tokens, Place::Below, meeting);
                trial.with(Way::Below { can_reduce })
            }
            Some(source) if tokens.contains(&source) => self.one_level(tokens, meeting),
            Some(source) if tokens.is_empty() => {
                let (trial, can_reduce) = self.line(&[source], Place::Above, meeting);
                trial.with(Way::Above { source, can_reduce })
            }
            Some(source) if !sides.has_other => self.two_levels(source, tokens, meeting),
            _ if tokens.is_empty() => self.prec(sides.production, meeting),
            _ => {
                let (place, rank) = if sides.has_other {
                    (Place::Above, Rank::Above)
                } else {
                    (Place::Below, Rank::Below)
                };
                let trial = self.with_prec(sides.production, rank, tokens, meeting);
                trial.with(Way::PrecAndLine { place })
            }
        }
    }

    /// How a conflict of a production with a shift can be resolved; None where too much was tried already.
    fn advice_on_shift(
        &self,
        alloc: Global,
        production: usize,
        meeting: &[Evidence],
    ) -> Option<Advice> {
        let Ok(sides) = self.told().sides(alloc, production, meeting) else {
            self.is_whole.set(false);
            return None;
        };
        let tried = self.levels_for(&sides, meeting);
        let tokens = sides.without;
        match tried {
            Tried::Good(way) => Some(Advice::Levels(NewLevels { tokens, way })),
            Tried::Bad if self.has_crowded(meeting) => Some(Advice::Rewrite(Hindrance::Crowded)),
            Tried::Bad => Some(Advice::Rewrite(Hindrance::Others)),
            Tried::Untried => None,
        }
    }

    /// How a conflict can be resolved; None where precedences are left out, or where too much was tried already.
    pub(crate) fn advice(&self, alloc: Global, meeting: &[Evidence]) -> Option<Advice> {
        let told = self.told();
        let (Some(first), false) = (meeting.first(), told.options.ignores_precedences) else {
            return None;
        };
        let entry = first.entry;
        let rule = told.rule_name(entry.production);
        // rules of these names stand for actions in the middle of productions
        if rule.starts_with("$@") || rule.starts_with('@') {
            Some(Advice::MoveAction)
        } else if told.options.dialect == Dialect::Bison && are_merged(meeting) {
            Some(Advice::Unmerge)
        } else if let Some(tokens) = tokens_of_each(meeting) {
            Some(Advice::Decide(tokens))
        } else if have_loss(meeting) {
            let may_reduce = told.may_reduce(meeting);
            Some(Advice::Accept { may_reduce })
        } else if own_sentences(meeting) == 0 {
            Some(Advice::Lookahead)
        } else if entry.other.is_some() || !told.can_have_level(entry.token) {
            Some(Advice::Rewrite(Hindrance::Kind))
        } else {
            self.advice_on_shift(alloc, entry.production, meeting)
        }
    }

    /// The words for how a conflict can be resolved; none where nothing is advised. They keep it where memory was refused.
    pub(crate) fn help(&self, alloc: Global, meeting: &[Evidence]) -> Words {
        let (mut words, told) = (Words::new(alloc), self.told());
        if told.parser.splits() && !told.options.ignores_precedences {
            self.add_split_help(&mut words, meeting);
        } else if let Some(advice) = self.advice(alloc, meeting) {
            words.add("help:");
            told.add_advice(&mut words, &advice);
        }
        if !self.is_whole.get() {
            words.give_up();
        }
        words
    }
}
