//! The page that shows what was found in the grammar of a file.

ghost use Rattle.std.specs.Prelude.{◌≡◌, All, IfOk};
ghost use Rattle.std.specs.List.{flat_map};
ghost use Rattle.lrevidence.specs.Ambiguities.{IsProved};
ghost use Rattle.lrevidence.specs.Losses.{IsLostAtEntry};
ghost use Rattle.lrevidence.specs.DecidedEntries.{IsToldDecided};
ghost use Rattle.lrevidence.specs.KeptEntries.{AreToldKept};
ghost use Rattle.lrshown.specs.VerdictWords.{AreProvedWords};

use crate::conflicts::{Checked, entries_of, meetings};
use crate::levels::Trials;
use lrevidence::Evidence;
use lrfindings::Verdict;
use lrpage::{Card, Page};
use lrwriter::Text;
use lryacc::Fault;
use std::alloc::{AllocError, Global};

impl<'a> Checked<'a> {
    /// The card of entries at which the same meets.
    fn card(
        &self,
        alloc: Global,
        meeting: &'a [Evidence],
        trials: &Trials<'_, '_>,
    ) -> Result<Card<'a>, AllocError>
        ensures { IfOk result (λ card. card.meeting.now ≡ meeting.now) }
    {
        let entries = entries_of(alloc, meeting)?;
        let marks = self.marks(alloc, entries.as_slice())?;
        let mut help = Text::new(alloc);
        trials.help(alloc, meeting).join(&mut help);
        let help = help.finish()?;
        Ok(Card {
            meeting,
            marks,
            help,
        })
    }

    /// The cards of the conflicts, in the order of the file.
    fn cards(&self, alloc: Global) -> Result<Vec<Card<'a>>, AllocError>
        ensures { IfOk result (λ cards.
            flat_map (λ card. card.meeting.now) cards.items ≡ self.now.told.evidence.now) }
    {
        let trials = Trials::new(alloc, self)?;
        let mut cards = Vec::new(alloc);
        for meeting in &meetings(alloc, self.told.evidence, false)? {
            cards.push(self.card(alloc, meeting, &trials)?)?;
        }
        Ok(cards)
    }

    /// The page, with that verdict in these words, and what reading the file warned of.
    pub(crate) fn page(
        &self,
        alloc: Global,
        verdict: Verdict,
        words: &str,
        warnings: &[Fault],
    ) -> Result<String, AllocError>
        requires proved { All (IsProved self.now.found.now.grm) self.now.told.evidence.now }
        requires lost { All (IsLostAtEntry self.now.found.now.grm self.now.found.now.table)
            self.now.told.evidence.now }
        requires entries { All (IsToldDecided self.now.found.now.grm self.now.found.now.graph)
            self.now.told.evidence.now }
        requires resolved { All (IsProved self.now.found.now.grm) self.now.told.resolved.now }
        requires settled { All (IsLostAtEntry self.now.found.now.grm self.now.found.now.table)
            self.now.told.resolved.now }
        requires kept { AreToldKept self.now.found.now.grm self.now.found.now.graph
            self.now.found.now.table self.now.told.kept.now }
        requires words { AreProvedWords self.now.found.now.grm self.now.found.now.table words.now }
    {
        let cards = self.cards(alloc)?;
        let notes = self.told.notes_on_all(alloc)?;
        let resolved = self.resolved_cards(alloc)?;
        let messages = self.told.warnings(alloc, warnings)?;
        let page = Page {
            source: self.told.source,
            file: self.told.file,
            found: self.found,
            verdict: words,
            is_good: verdict.status() == 0,
            cards: cards.as_slice(),
            notes: notes.as_slice(),
            resolved: resolved.as_slice(),
            kept: self.told.kept,
            warnings: messages.as_slice(),
            steps: self.told.options.steps,
        };
        page.text(alloc)
    }
}
