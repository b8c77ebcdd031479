//! The page, from its head to its end.

ghost use Rattle.std.specs.Prelude.{◌≡◌, ⊤, All};
ghost use Rattle.std.specs.Option.{ForSome};
ghost use Rattle.lrshown.specs.Ambiguities.{AreShown, IsShown};
ghost use Rattle.lrshown.specs.Losses.{AreShownLosses, IsShownLoss};
ghost use Rattle.lrshown.specs.DecidedEntries.{AreShownDecided};
ghost use Rattle.lrpage.specs.KeptEntries.{AreShownKept};
ghost use Rattle.lrshown.specs.VerdictWords.{AreProvedWords};

use crate::grammars::is_of_file;
use crate::resolved::ResolvedCard;
use crate::script::SCRIPT;
use crate::style::STYLE;
use lrdiagnostics::{Mark, Message, Source, add_escaped_name};
use lrfindings::{Entry, Findings};
use lrshown::Evidence;
use lrwriter::Text;
use lryacc::FileGrammar;
use std::alloc::{AllocError, Global};

/// What begins each page. Nothing is fetched from elsewhere.
const HEAD: &str = "<!DOCTYPE html>
<html lang=\"en\">
<head>
<meta charset=\"utf-8\">
<meta name=\"viewport\" content=\"width=device-width, initial-scale=1\">
<meta http-equiv=\"Content-Security-Policy\"
 content=\"default-src 'none'; style-src 'unsafe-inline'; script-src 'unsafe-inline'\">
<title>";

/// What stands behind the links to what is told of conflicts and warnings.
const BAR: &str = " <a href=\"#grammar\">Grammar</a> <a href=\"#states\">States</a>
<input id=\"filter\" type=\"search\" placeholder=\"Filter conflicts, rules and states\"
 aria-label=\"Filter conflicts, rules and states\">
<span id=\"told\" class=\"soft\" role=\"status\"></span>
</div></nav>
<noscript><p>Trees, the grammar, states and the filter need scripts.</p></noscript>
";

/// What is said of conflicts.
const REAL: &str =
    "Each conflict is one of the LR(1) automaton: none is an artefact of merging states.";

/// Adds how many there are of something.
pub(crate) fn add_count(page: &mut Text, count: usize, word: &str) {
    let ending = if count == 1 { "" } else { "s" };
    write!(page, "{count} {word}{ending}");
}

/// A conflict as it is shown: entries at which the same meets in the same state.
#[derive(Drop)]
pub struct Card<'a> {
    /// What is known of the entries.
    pub meeting: &'a [Evidence],
    /// The places of what meets.
    pub marks: Vec<Mark>,
    /// How it can be resolved; empty where that is not told.
    pub help: String,
}

/// What a page is made of.
#[derive(Copy)]
pub struct Page<'a> {
    /// The file.
    pub source: &'a Source<'a>,
    /// Its grammar.
    pub file: &'a FileGrammar,
    /// What was found in that.
    pub found: &'a Findings,
    /// The words of the verdict.
    pub verdict: &'a str,
    /// Whether there are no conflicts but such as are expected.
    pub is_good: bool,
    /// What is said of all conflicts together.
    pub notes: &'a [String],
    /// The conflicts.
    pub cards: &'a [Card<'a>],
    /// What precedences resolve, where that is shown.
    pub resolved: &'a [ResolvedCard<'a>],
    /// At which entries of both no sentence is lost, where that is shown, in the order of the file.
    pub kept: &'a [Entry],
    /// What the file is warned of.
    pub warnings: &'a [Message],
    /// How many steps a search for a sentence with two trees could take; with 0 nothing is told of texts.
    pub steps: usize,
    /// Each text that is shown as one with two trees has them.
    pub ghost proved: { All (λ card. AreShown found.now.grm card.meeting.now) cards.now },
    /// Each that is shown as one that the parser rejects is a sentence, and rejected.
    pub ghost lost: { All (λ card.
        AreShownLosses found.now.grm found.now.table card.meeting.now) cards.now },
    /// Of each entry that is shown as one that is not ambiguous it is proved.
    pub ghost decided: { All (λ card.
        AreShownDecided found.now.grm found.now.graph card.meeting.now) cards.now },
    /// Each text that is shown of what precedences resolve as one with two trees has them.
    pub ghost resolved_texts: { All (λ card.
        ForSome card.ambiguity (λ a. IsShown found.now.grm a.now)) resolved.now },
    /// Each that is shown there as one that the parser rejects is a sentence, and rejected.
    pub ghost resolved_lost: { All (λ card.
        ForSome card.loss (λ l. IsShownLoss found.now.grm found.now.table l.now)) resolved.now },
    /// At each entry that is told to lose no sentence it is so.
    pub ghost unlost: { AreShownKept found.now.grm found.now.graph found.now.table kept.now },
    /// And the verdict tells nothing as proved but what is so.
    pub ghost told: { AreProvedWords found.now.grm found.now.table verdict.now },
}

impl Clone for Page<'_> {
    ghost is_clone = { λ x y. y ≡ x };

    ghost is_infallible = { λ _. ⊤ };

    fn clone(&self) -> Result<Self, AllocError> {
        Ok(*self)
    }
}

impl Page<'_> {
    /// Adds all that stands before what is shown.
    fn add_head(&self, page: &mut Text) {
        page.add(HEAD);
        add_escaped_name(page, self.source.name);
        page.add(" - lrcheck</title>\n<style>\n");
        page.add(STYLE);
        page.add("</style>\n</head>\n<body>\n");
    }

    /// Adds how much there is.
    fn add_counts(&self, page: &mut Text) {
        let parts = &self.file.parts;
        let rules = parts.rules.len().saturating_sub(1);
        let tokens = parts
            .tokens
            .iter()
            .filter(|token| is_of_file(token))
            .count();
        let productions = parts.prods.iter().filter(|prod| prod.rule > 0).count();
        add_count(page, rules, "rule");
        page.add(", ");
        add_count(page, productions, "production");
        page.add(", ");
        add_count(page, tokens, "token");
        page.add(", ");
        add_count(page, self.found.states, "state");
        page.add(". ");
    }

    /// Adds the bar, which leads to what is shown.
    fn add_bar(&self, page: &mut Text) {
        page.add("<nav><div>\n<a href=\"#conflicts\">Conflicts</a>");
        if !self.resolved.is_empty() {
            page.add(" <a href=\"#resolved\">Resolved</a>");
        }
        if !self.warnings.is_empty() {
            page.add(" <a href=\"#warnings\">Warnings</a>");
        }
        page.add(BAR);
    }

    /// Adds the verdict, how much there is, and the bar.
    fn add_header(&self, page: &mut Text) {
        page.add("<header>\n<h1>");
        add_escaped_name(page, self.source.name);
        let class = if self.is_good {
            "verdict good"
        } else {
            "verdict"
        };
        write!(page, "</h1>\n<p class=\"{class}\">");
        add_escaped_name(page, self.verdict);
        page.add("</p>\n<p class=\"soft\">");
        self.add_counts(page);
        page.add(REAL);
        page.add("</p>\n</header>\n");
        self.add_bar(page);
    }

    /// Adds what is shown. The error says that memory for a list was refused.
    fn add_main(&self, page: &mut Text) -> Result<(), AllocError> {
        page.add("<main>\n");
        self.add_cards(page)?;
        self.add_resolved(page)?;
        self.add_warnings(page)?;
        self.add_grammar(page);
        self.add_states(page)?;
        page.add("</main>\n");
        Ok(())
    }

    /// The page. The error says that memory was refused.
    pub fn text(&self, alloc: Global) -> Result<String, AllocError> {
        let mut page = Text::new(alloc);
        self.add_head(&mut page);
        self.add_header(&mut page);
        self.add_main(&mut page)?;
        page.add("<script>\n");
        page.add(SCRIPT);
        page.add("</script>\n</body>\n</html>\n");
        page.finish()
    }
}
