//! What precedences resolve, each as a card that opens.

ghost use Rattle.std.specs.Option.{ForSome};
ghost use Rattle.lrshown.specs.Ambiguities.{IsShown};
ghost use Rattle.lrshown.specs.Losses.{IsShownLoss};
ghost use Rattle.lrpage.specs.KeptEntries.{AreShownKept};

use crate::cards::{Head, OPEN, end_card};
use crate::pages::Page;
use lrdiagnostics::{Mark, add_escaped_name};
use lrfindings::Entry;
use lrshown::{Ambiguity, Loss};
use lrwriter::Text;
use std::alloc::AllocError;

/// What precedences resolve as it is shown: entries at which the same meets in the same state, and is resolved for the same reason.
#[derive(Drop)]
pub struct ResolvedCard<'a> {
    /// The entries.
    pub entries: Vec<Entry>,
    /// The places of what meets.
    pub marks: Vec<Mark>,
    /// Why it is resolved so.
    pub why: String,
    /// What wins.
    pub wins: &'static str,
    /// Which of two trees is kept.
    pub kept: &'static str,
    /// A sentence with two trees that part by what meets in one of the entries, where one is found.
    pub ambiguity: Option<&'a Ambiguity>,
    /// A sentence that the parser rejects since one of the entries is resolved, where one is found.
    pub loss: Option<&'a Loss>,
    /// Whether sentences were not looked for to the end.
    pub is_cut_off: bool,
}

impl Page<'_> {
    /// Adds that no sentence is lost at any entry of a card by what the table does there.
    fn add_resolved_kept_tag(&self, page: &mut Text, _card: &ResolvedCard<'_>)
        requires proved { AreShownKept self.now.found.now.grm self.now.found.now.graph
            self.now.found.now.table _card.now.entries.items }
    {
        page.add(" <span class=\"tag\">loses no sentence (proved)</span>");
    }

    /// Adds what wins, and that a sentence is rejected, where one is, or that none is lost, where that is shown.
    fn add_resolved_tags(&self, page: &mut Text, card: &ResolvedCard<'_>)
        requires lost { ForSome card.now.loss
            (λ l. IsShownLoss self.now.found.now.grm self.now.found.now.table l.now) }
    {
        page.add(" <span class=\"tag\">");
        page.add(card.wins);
        page.add("</span>");
        if let Some(loss) = card.loss {
            self.add_lost_tag(page, loss);
        }
        if self.are_kept(card.entries.as_slice()) {
            self.add_resolved_kept_tag(page, card);
        }
    }

    /// Adds why the entries of a card are resolved so, and what is known of them.
    fn add_resolved_known(&self, page: &mut Text, first: &Entry, card: &ResolvedCard<'_>)
        requires texts { ForSome card.now.ambiguity
            (λ a. IsShown self.now.found.now.grm a.now) }
        requires lost { ForSome card.now.loss
            (λ l. IsShownLoss self.now.found.now.grm self.now.found.now.table l.now) }
    {
        page.add("<p>Reason: ");
        add_escaped_name(page, card.why.as_str());
        page.add("</p>\n");
        if card.is_cut_off {
            page.add(
                "<p>No sentence was looked for to the end: the allowance of this file was used up.</p>\n",
            );
        }
        if let Some(ambiguity) = card.ambiguity {
            self.add_resolved_ambiguity(page, first, ambiguity, card.kept);
        }
        if let Some(loss) = card.loss {
            self.add_resolved_loss(page, first, loss);
        }
    }

    /// Adds the card of that number, which is counted from 1.
    fn add_resolved_card(
        &self,
        page: &mut Text,
        number: usize,
        card: &ResolvedCard<'_>,
    ) -> Result<(), AllocError>
        requires texts { ForSome card.now.ambiguity
            (λ a. IsShown self.now.found.now.grm a.now) }
        requires lost { ForSome card.now.loss
            (λ l. IsShownLoss self.now.found.now.grm self.now.found.now.table l.now) }
    {
        let Some(first) = card.entries.first() else {
            return Ok(());
        };
        self.begin_card(
            page,
            Head {
                letter: "p",
                number,
                is_open: self.cards.is_empty() && number <= OPEN,
                first,
                entries: card.entries.as_slice(),
                marks: card.marks.as_slice(),
            },
        );
        self.add_resolved_tags(page, card);
        page.add("</summary>\n");
        self.add_places(page, card.marks.as_slice())?;
        self.add_resolved_known(page, first, card);
        end_card(page, first);
        Ok(())
    }

    /// Adds what precedences resolve, where that is shown.
    pub(crate) fn add_resolved(&self, page: &mut Text) -> Result<(), AllocError> {
        if self.resolved.is_empty() {
            return Ok(());
        }
        page.add("<section id=\"resolved\"><h2>Resolved by precedence</h2>\n");
        let mut number: usize = 0;
        for card in self.resolved {
            number = number.saturating_add(1);
            self.add_resolved_card(page, number, card)?;
        }
        page.add("</section>\n");
        Ok(())
    }
}
