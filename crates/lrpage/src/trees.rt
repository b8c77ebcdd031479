//! Sentences with two trees, as the script draws them.

ghost use Rattle.lrshown.specs.Ambiguities.{IsShown};
ghost use Rattle.lrshown.specs.Losses.{IsShownLoss};

use crate::pages::Page;
use crate::symbols::DOT;
use lrdiagnostics::add_escaped_name;
use lrfindings::Entry;
use lrgrammar::grammar::PartSymbol;
use lrshown::{Ambiguity, Loss, Step, TwoTrees, text_of};
use lrwriter::Text;

/// How many tokens of a text are shown on either side of the dot.
const SIDE: usize = 60;

/// How many steps a tree of a sentence that the parser rejects has at the most that is drawn.
const LARGEST: usize = 1_000;

/// Which of what meets at an entry comes by a step: that by which the table could reduce, or the other.
fn class_of(entry: &Entry, step: Step) -> &'static str {
    match step {
        Step::Reduce(production) if production == entry.production => "one",
        _ => "other",
    }
}

/// What is said of a sentence beside that it has two trees.
#[derive(Clone, Copy)]
enum Beside<'s> {
    Nothing,
    /// The trees part by something else than what meets in the entry.
    ByOther,
    /// Precedences resolve what meets there; with which of both trees is kept.
    Resolved(&'s str),
}

/// The entry at the token behind a dot in a text, of entries that differ in their tokens alone.
fn entry_at(first: &Entry, tokens: &[usize], dot: usize) -> Entry {
    Entry {
        token: tokens.get(dot).copied().unwrap_or(first.token),
        ..*first
    }
}

/// Adds how it is told of a sentence that it has two trees.
fn begin_sentence(page: &mut Text, beside: Beside<'_>, is_long: bool) {
    page.add(match (beside, is_long) {
        (Beside::Resolved(_), true) => "<p>Without precedences a sentence",
        (Beside::Resolved(_), false) => "<p>Without precedences this sentence",
        (_, true) => "<p>A sentence",
        (_, false) => "<p>This sentence",
    });
}

/// Adds what is said beside that.
fn add_beside(page: &mut Text, beside: Beside<'_>) {
    match beside {
        Beside::Nothing => {}
        Beside::ByOther => page.add(", though by something else that meets here"),
        Beside::Resolved(kept) => {
            page.add("; ");
            add_escaped_name(page, kept);
        }
    }
}

/// Adds steps, parted by blanks: `s` for the next leaf, or the number of a production.
fn add_steps(page: &mut Text, steps: &[Step]) {
    let mut is_first = true;
    for step in steps {
        if !is_first {
            page.add_char(' ');
        }
        match step {
            Step::Shift => page.add_char('s'),
            Step::Reduce(production) => write!(page, "{production}"),
        }
        is_first = false;
    }
}

impl Page<'_> {
    /// Adds a token, marked or not, and a blank.
    fn add_token_of_text(&self, page: &mut Text, token: usize, is_marked: bool) {
        if is_marked {
            page.add("<mark>");
        }
        self.add_token(page, token);
        page.add(if is_marked { "</mark> " } else { " " });
    }

    /// Adds tokens with a dot behind so many of them, one of which may be marked; those that stand far from the dot are left out.
    pub(crate) fn add_tokens(
        &self,
        page: &mut Text,
        tokens: &[usize],
        dot: usize,
        marked: Option<usize>,
    ) {
        let (first, last) = (dot.saturating_sub(SIDE), dot.saturating_add(SIDE));
        if first > 0 {
            page.add("... ");
        }
        for (place, token) in tokens.iter().enumerate() {
            if place == dot {
                page.add(DOT);
                page.add_char(' ');
            }
            if first <= place && place < last {
                self.add_token_of_text(page, *token, marked == Some(place));
            }
        }
        if tokens.len() <= dot {
            page.add(DOT);
        }
        if last < tokens.len() {
            page.add("...");
        }
    }

    /// Adds what a step does at the token of an entry.
    pub(crate) fn add_candidate(&self, page: &mut Text, entry: &Entry, step: Step) {
        let Step::Reduce(production) = step else {
            page.add("shift <code>");
            self.add_token(page, entry.token);
            page.add("</code>");
            return;
        };
        page.add("reduce by <code>");
        self.add_rule(page, self.rule_of(production));
        page.add(": ");
        self.add_body(page, production, None);
        page.add("</code>");
    }

    /// Adds a tree, which is put together by the steps before the dot and by these.
    fn add_tree(&self, page: &mut Text, entry: &Entry, steps: &[Step]) {
        let step = steps.first().copied().unwrap_or(Step::Shift);
        let class = class_of(entry, step);
        write!(page, "<figure class=\"{class}\" data-steps=\"");
        add_steps(page, steps);
        page.add("\"><figcaption>");
        self.add_candidate(page, entry, step);
        page.add("</figcaption></figure>\n");
    }

    /// Adds both trees; that of a shift comes first.
    fn add_trees(&self, page: &mut Text, entry: &Entry, trees: &TwoTrees) {
        page.add("<div class=\"trees\" data-before=\"");
        add_steps(page, trees.before.as_slice());
        page.add("\">\n");
        let (mut one, mut other) = (trees.one.as_slice(), trees.other.as_slice());
        if trees.candidates().1 == Step::Shift {
            (one, other) = (other, one);
        }
        self.add_tree(page, entry, one);
        self.add_tree(page, entry, other);
        page.add("</div>\n");
    }

    /// Adds from which start rule a text is derived, where the file has several.
    pub(crate) fn add_start(&self, page: &mut Text, start: Option<PartSymbol>) {
        if let Some(rule) = start {
            page.add(" from ");
            self.add_symbol(page, rule);
        }
    }

    /// Adds the tree of a sentence that the parser rejects, by what it doesn't do at an entry, unless it is large.
    fn add_lost_tree(&self, page: &mut Text, entry: &Entry, loss: &Loss) {
        let steps = loss.steps.as_slice();
        if steps.len() > LARGEST {
            return;
        }
        let (before, behind) = steps.split_at(loss.made.min(steps.len()));
        page.add(
            "<p>By its tree it would do this at the dot:</p>\n<div class=\"trees\" data-before=\"",
        );
        add_steps(page, before);
        page.add("\">\n");
        self.add_tree(page, entry, behind);
        page.add("</div>\n");
    }

    /// Adds a sentence that the parser rejects at an entry, with a dot where it goes wrong, and a mark where it stops.
    pub(crate) fn add_loss(&self, page: &mut Text, entry: &Entry, loss: &Loss)
        requires proved { IsShownLoss self.now.found.now.grm self.now.found.now.table loss.now }
    {
        let tokens = text_of(self.file, loss.tokens.as_slice());
        let stop = loss.shown_stop(self.file);
        page.add("<p>The parser rejects this sentence of the grammar");
        self.add_start(page, loss.start(self.file));
        page.add(" (proved), at ");
        match tokens.get(stop) {
            Some(token) => {
                let number = stop.saturating_add(1);
                write!(page, "token {number}, <code>");
                self.add_token(page, *token);
                page.add("</code>");
            }
            None => page.add("its end"),
        }
        page.add(":</p>\n<p class=\"text\">");
        self.add_tokens(page, tokens, loss.shown_dot(self.file), Some(stop));
        page.add("</p>\n");
        self.add_lost_tree(page, entry, loss);
    }

    /// Adds a sentence with two trees, and both trees of the part of it in which they differ.
    fn add_sentence(
        &self,
        page: &mut Text,
        entry: &Entry,
        ambiguity: &Ambiguity,
        beside: Beside<'_>,
    )
        requires proved { IsShown self.now.found.now.grm ambiguity.now }
    {
        let tokens = text_of(self.file, ambiguity.tokens.as_slice());
        let is_long = ambiguity.is_long();
        begin_sentence(page, beside, is_long);
        self.add_start(page, ambiguity.start(self.file));
        if is_long {
            let count = tokens.len();
            write!(page, " of {count} tokens");
        }
        page.add(" has two trees (proved)");
        add_beside(page, beside);
        if is_long {
            page.add(". ");
        } else {
            page.add(":</p>\n<p class=\"text\">");
            self.add_tokens(page, tokens, ambiguity.dot(self.file), None);
            page.add("</p>\n<p>");
        }
        page.add("They differ in this part of it:</p>\n");
        self.add_trees(page, entry, &ambiguity.form);
    }

    /// Adds a sentence that is known of an entry, and has two trees.
    pub(crate) fn add_ambiguity(&self, page: &mut Text, entry: &Entry, ambiguity: &Ambiguity)
        requires proved { IsShown self.now.found.now.grm ambiguity.now }
    {
        let beside = if ambiguity.is_of(entry) {
            Beside::Nothing
        } else {
            Beside::ByOther
        };
        self.add_sentence(page, entry, ambiguity, beside);
    }

    /// Adds a sentence with two trees that is known of one of the entries that precedences resolve, and which tree is kept.
    pub(crate) fn add_resolved_ambiguity(
        &self,
        page: &mut Text,
        first: &Entry,
        ambiguity: &Ambiguity,
        kept: &str,
    )
        requires proved { IsShown self.now.found.now.grm ambiguity.now }
    {
        let entry = entry_at(first, ambiguity.tokens.as_slice(), ambiguity.trees.dot());
        self.add_sentence(page, &entry, ambiguity, Beside::Resolved(kept));
    }

    /// Adds a sentence that the parser rejects since precedences resolve one of the entries.
    pub(crate) fn add_resolved_loss(&self, page: &mut Text, first: &Entry, loss: &Loss)
        requires proved { IsShownLoss self.now.found.now.grm self.now.found.now.table loss.now }
    {
        let entry = entry_at(first, loss.tokens.as_slice(), loss.dot);
        self.add_loss(page, &entry, loss);
    }
}
