//! How a conflict can be resolved, and the words for it.

use crate::texts::add_names;
use crate::told::Told;
use crate::words::Words;
use lryacc::{Dialect, FileGrammar};

/// How many tokens are named at the most.
const NAMED: usize = 4;

/// Where a new precedence line stands.
#[derive(Clone, Copy)]
pub(crate) enum Place {
    /// Above all others.
    Above,
    /// Below all others.
    Below,
}

/// Why no levels resolve a conflict by itself.
#[derive(Clone, Copy)]
pub(crate) enum Hindrance {
    /// No precedence resolves such a conflict.
    Kind,
    /// More than two meet in a cell.
    Crowded,
    /// They would decide other conflicts too.
    Others,
}

/// How levels resolve a conflict. Where they do so the other way round too, by the reduction, `can_reduce` says so.
#[derive(Clone, Copy)]
pub(crate) enum Way {
    /// An associativity for a line of `%precedence`; either one where a rule and its own operator meet.
    Associativity { is_of_operator: bool },
    /// One level for the tokens, from one of which the production has its own: by `%right`, or else by `%left` too.
    One { is_right: bool },
    /// A level for the token from which the production has its own, and one below it for the tokens.
    Two { source: usize, can_reduce: bool },
    /// A level for that token in a new line above all others.
    Above { source: usize, can_reduce: bool },
    /// A level for the tokens in a new line below all others.
    Below { can_reduce: bool },
    /// A level for the production by `%prec`, above all others.
    Prec { can_reduce: bool },
    /// A level for it in that place, and one right below it for the tokens.
    PrecAndLine { place: Place },
}

/// Levels that resolve a conflict.
#[derive(Drop)]
pub(crate) struct NewLevels {
    /// The tokens of the conflict that have none yet.
    pub(crate) tokens: Vec<usize>,
    pub(crate) way: Way,
}

/// How a conflict can be resolved.
#[derive(Drop)]
pub(crate) enum Advice {
    /// To move an action that stands in the middle of a production.
    MoveAction,
    /// To leave states unmerged that have no such conflict.
    Unmerge,
    /// So that the parser accepts what it rejects, not by levels; where the conflict is ambiguous too, those may do it that reduce.
    Accept { may_reduce: bool },
    /// By so many tokens of lookahead, not by levels.
    Decide(usize),
    /// By more lookahead, if at all.
    Lookahead,
    /// By other rules.
    Rewrite(Hindrance),
    /// By levels.
    Levels(NewLevels),
}

impl Hindrance {
    /// The words for it, and that the rules are to be rewritten.
    fn words(self) -> &'static str {
        match self {
            Hindrance::Kind =>
                "precedence resolves no such conflict: drop one of the productions, or rewrite the rules",
            Hindrance::Crowded =>
                "more than two meet here, so levels resolve it only together with the others: rewrite the rules",
            Hindrance::Others =>
                "levels for it would decide other conflicts too, and not as the table does: rewrite the rules",
        }
    }
}

/// Adds where a new line keeps the shift, and that it reduces in the other place, where it may.
fn add_places(words: &mut Words, place: Place, can_reduce: bool) {
    words.add_all(match place {
        Place::Above => "in a line above all others",
        Place::Below => "in a line below all others",
    });
    words.add_all("to keep the shift");
    if can_reduce {
        words.add_piece(",");
        words.add_all(match place {
            Place::Above => "below them to reduce",
            Place::Below => "above them to reduce",
        });
    }
}

/// Adds the names of tokens, unless these are many.
fn add_tokens(words: &mut Words, file: &FileGrammar, tokens: &[usize]) {
    match tokens {
        [one, other] => {
            add_names(words, file, &[*one]);
            words.add("and");
            add_names(words, file, &[*other]);
        }
        _ if tokens.len() > NAMED => words.add_all("these tokens"),
        _ => add_names(words, file, tokens),
    }
}

impl Told<'_> {
    /// The word for a line that makes no group.
    fn plain_line(&self) -> &'static str {
        match self.options.dialect {
            Dialect::Bison => "%precedence",
            Dialect::Grmtools => "%nonassoc",
        }
    }

    /// Adds that tokens get a level by a line that makes no group.
    fn add_plain_level(&self, words: &mut Words, tokens: &[usize]) {
        add_tokens(words, self.file, tokens);
        words.add_all("a level by");
        words.add(self.plain_line());
    }

    /// Adds that tokens get one level.
    fn add_one_level(&self, words: &mut Words, tokens: &[usize], is_right: bool) {
        words.add_all(if is_right {
            "to keep the shift, give"
        } else {
            "give"
        });
        add_tokens(words, self.file, tokens);
        words.add_all(if is_right {
            "one level by %right, in a line below all others"
        } else {
            "one level by %left or %right to resolve it"
        });
    }

    /// Adds that a token gets a level, and others one below it.
    fn add_two_levels(&self, words: &mut Words, source: usize, tokens: &[usize], can_reduce: bool) {
        words.add_all("to keep the shift, give");
        self.add_plain_level(words, &[source]);
        words.add_piece(",");
        words.add("and");
        add_tokens(words, self.file, tokens);
        words.add_all("one in a line below it");
        if can_reduce {
            words.add_piece(";");
            words.add_all("the other way round, to reduce");
        }
    }

    /// Adds that tokens get a level in a new line.
    fn add_line(&self, words: &mut Words, tokens: &[usize], place: Place, can_reduce: bool) {
        words.add("give");
        self.add_plain_level(words, tokens);
        words.add_piece(":");
        add_places(words, place, can_reduce);
    }

    /// Adds that the production gets a level in a place, and tokens one below it.
    fn add_prec_and_line(&self, words: &mut Words, tokens: &[usize], place: Place) {
        words.add_all("to keep the shift, give this production %prec NAME, NAME a level by");
        words.add(self.plain_line());
        if let Place::Above = place {
            words.add_all("in a line above all others");
        }
        words.add_piece(",");
        words.add("and");
        add_tokens(words, self.file, tokens);
        words.add_all(match place {
            Place::Above => "one in a line below them",
            Place::Below => "one in a line below it",
        });
    }

    /// Adds levels that resolve a conflict.
    pub(crate) fn add_levels(&self, words: &mut Words, levels: &NewLevels) {
        let tokens = levels.tokens.as_slice();
        match levels.way {
            Way::Associativity { is_of_operator } => words.add_all(if is_of_operator {
                "both have one level of %precedence, which resolves nothing between them: use %left or %right"
            } else {
                "both have one level of %precedence, which resolves nothing between them: use %right to keep the shift"
            }),
            Way::One { is_right } => self.add_one_level(words, tokens, is_right),
            Way::Two { source, can_reduce } => {
                self.add_two_levels(words, source, tokens, can_reduce);
            }
            Way::Above { source, can_reduce } => {
                self.add_line(words, &[source], Place::Above, can_reduce);
            }
            Way::Below { can_reduce } => self.add_line(words, tokens, Place::Below, can_reduce),
            Way::Prec { can_reduce } => {
                words.add_all("give this production %prec NAME, and NAME a level by");
                words.add(self.plain_line());
                words.add_piece(":");
                add_places(words, Place::Above, can_reduce);
            }
            Way::PrecAndLine { place } => self.add_prec_and_line(words, tokens, place),
        }
    }

    /// Adds that another parser can be used, where there is one, or other rules.
    fn add_other_parser(&self, words: &mut Words) {
        words.add_all(match self.options.dialect {
            Dialect::Bison => "use %glr-parser, or rewrite the rules",
            Dialect::Grmtools => "rewrite the rules",
        });
    }

    /// Adds how a conflict can be resolved.
    pub(crate) fn add_advice(&self, words: &mut Words, advice: &Advice) {
        match advice {
            Advice::MoveAction => words.add_all(
                "this action must run before it is known which alternative it is: put it at the end, or into a rule of its own",
            ),
            Advice::Unmerge => words.add_all("%define lr.type ielr keeps these states apart"),
            Advice::Accept { may_reduce } => {
                words.add_all(if *may_reduce {
                    "levels that keep the shift would not mend it, and those that reduce may reject other sentences:"
                } else {
                    "levels would not mend it:"
                });
                self.add_other_parser(words);
            }
            Advice::Decide(tokens) => {
                words.add_number(*tokens);
                words.add_all("tokens of lookahead would decide, and levels would not mend it:");
                self.add_other_parser(words);
            }
            Advice::Lookahead => words.add_all(
                "this may need more lookahead than one token; levels would then make the parser reject valid input",
            ),
            Advice::Rewrite(hindrance) => words.add_all(hindrance.words()),
            Advice::Levels(levels) => self.add_levels(words, levels),
        }
    }
}
