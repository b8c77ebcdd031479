//! What precedences resolve, each with the places of the productions that meet, and why.

ghost use Rattle.std.specs.Prelude.{All, Contains, IfOk, IfSome};
ghost use Rattle.std.specs.Option.{ForSome};
ghost use Rattle.lrevidence.specs.Ambiguities.{HasTwoTrees, IsProved};
ghost use Rattle.lrevidence.specs.KeptEntries.{AreToldKept};
ghost use Rattle.lrevidence.specs.Losses.{IsLoss, IsLostAtEntry};
ghost use Rattle.lrshown.specs.Ambiguities.{IsShown};
ghost use Rattle.lrshown.specs.Losses.{IsShownLoss};
ghost use Rattle.lrreport.specs.Sentences.{IsLostAtOne, IsOfOne};

use crate::conflicts::{Checked, Choice, DONE};
use crate::notes::KnownResolved;
use crate::told::Told;
use lrdiagnostics::{Mark, add_shown};
use lrevidence::{Ambiguity, Evidence, Loss};
use lrfindings::{Entry, Resolved, Winner, source_of};
use lrpage::ResolvedCard;
use lrwriter::Text;
use std::alloc::{AllocError, Global};

/// Why a shift or a reduction wins, or neither.
#[derive(Clone, Copy, PartialEq, Eq, PartialOrd, Ord)]
enum Reason {
    /// The token has the higher level.
    Token,
    /// They have one level, of a `%right` line.
    Right,
    /// The production has the higher level.
    Production,
    /// They have one level, of a `%left` line.
    Left,
    /// They have one level, of a `%nonassoc` line.
    Nonassoc,
    /// Whatever wins, the table goes by another production: of several that meet a shift it takes the first.
    Elsewhere,
}

impl Reason {
    /// That of what wins between a token and a production, which may have one level.
    fn of(winner: Winner, is_level: bool) -> Reason {
        match (winner, is_level) {
            (Winner::Shift, false) => Reason::Token,
            (Winner::Shift, true) => Reason::Right,
            (Winner::Reduce, false) => Reason::Production,
            (Winner::Reduce, true) => Reason::Left,
            (Winner::Neither, _) => Reason::Nonassoc,
        }
    }
}

/// Where something is resolved: the place in the file, the state, and the production.
type Place = (usize, usize, usize);

/// What is resolved in one state between one production and shifts, for one reason.
#[derive(Drop)]
pub(crate) struct Resolution {
    reason: Reason,
    pub(crate) entries: Vec<Entry>,
}

impl Resolution {
    /// Whether something belongs to it.
    fn is_like(&self, entry: &Entry, reason: Reason) -> bool {
        let is_meeting = match self.entries.first() {
            Some(first) => first.meets_like(entry),
            None => false,
        };
        is_meeting && self.reason == reason
    }

    /// Which of two trees is kept.
    pub(crate) fn kept(&self) -> &'static str {
        match self.reason {
            Reason::Token | Reason::Right => "that of the shift is kept",
            Reason::Production | Reason::Left => "that of the reduction is kept",
            Reason::Nonassoc => "none is kept",
            Reason::Elsewhere => "the table goes by another production",
        }
    }
}

/// The entries of which one wins.
pub(crate) fn won_by(
    alloc: Global,
    resolved: &[Resolved],
    winner: Winner,
) -> Result<Vec<Entry>, AllocError> {
    let mut won = Vec::new(alloc);
    for one in resolved {
        if one.winner == winner {
            won.push(one.entry)?;
        }
    }
    Ok(won)
}

impl Told<'_> {
    /// Whether the token of an entry and its production have one level.
    fn is_level(&self, entry: Entry) -> bool {
        let level = match self.token_of(entry.production) {
            Some(token) => self.precedence(token),
            None => None,
        };
        match (level, self.precedence(entry.token)) {
            (Some(one), Some(other)) => one.level == other.level,
            _ => false,
        }
    }

    /// Why the same wins at all the entries.
    fn reason(&self, alloc: Global, resolution: &Resolution) -> Result<String, AllocError> {
        let mut text = Text::new(alloc);
        text.add(match resolution.reason {
            Reason::Token if resolution.entries.len() > 1 => "the tokens have the higher level",
            Reason::Token => "the token has the higher level",
            Reason::Right => "both have one level, and it is %right",
            Reason::Production => "the production has the higher level",
            Reason::Left => "both have one level, and it is %left",
            Reason::Nonassoc =>
                "both have one level, and it is %nonassoc: the token is an error here",
            Reason::Elsewhere =>
                "of several productions the table compares the first with the shift, and Bison each one",
        });
        if let (Reason::Production, Some(entry)) = (resolution.reason, resolution.entries.first()) {
            if let Some(token) = source_of(self.file, entry.production) {
                text.add(", that of ");
                add_shown(&mut text, self.token_name(token));
            }
        }
        text.finish()
    }
}

impl Checked<'_> {
    /// Whether the table does what wins in an entry.
    fn goes_by(&self, resolved: &Resolved) -> bool {
        let entry = &resolved.entry;
        match resolved.winner {
            Winner::Shift => self.choice(entry) == Choice::Shift,
            Winner::Reduce => self.choice(entry) == Choice::Reduce,
            Winner::Neither => self.is_error(entry),
        }
    }

    /// Why the table does what it does where precedences resolve something.
    fn reason(&self, resolved: &Resolved) -> Reason {
        if self.goes_by(resolved) {
            Reason::of(resolved.winner, self.told.is_level(resolved.entry))
        } else {
            Reason::Elsewhere
        }
    }

    /// What is resolved, in the order of the file, and of one production by the reasons.
    fn reasoned(&self, alloc: Global) -> Result<Vec<(Place, Reason, Entry)>, AllocError> {
        let mut list = Vec::new(alloc);
        for resolved in &self.found.resolved {
            let entry = resolved.entry;
            let place = (entry.place, entry.state, entry.production);
            list.push((place, self.reason(resolved), entry))?;
        }
        list.sort_unstable();
        Ok(list)
    }

    /// What is resolved, put together where the same meets in the same state, and wins for the same reason.
    fn resolutions(&self, alloc: Global) -> Result<Vec<Resolution>, AllocError> {
        let mut list: Vec<Resolution> = Vec::new(alloc);
        for (_, reason, entry) in &self.reasoned(alloc)? {
            match list.last_mut() {
                Some(last) if last.is_like(entry, *reason) => last.entries.push(*entry)?,
                _ => list.push(Resolution {
                    reason: *reason,
                    entries: vec![in alloc; *entry]?,
                })?,
            }
        }
        Ok(list)
    }

    /// What `%nonassoc` makes errors in the table.
    pub(crate) fn errors(&self, alloc: Global) -> Result<Vec<Entry>, AllocError> {
        let mut errors = Vec::new(alloc);
        for resolved in &self.found.resolved {
            if resolved.winner == Winner::Neither && self.goes_by(resolved) {
                errors.push(resolved.entry)?;
            }
        }
        Ok(errors)
    }
}

impl<'a> Checked<'a> {
    /// What is known of an entry that precedences resolve.
    fn known_at(&self, entry: &Entry) -> Option<&'a Evidence>
        ensures { IfSome result (λ known. Contains self.now.told.resolved.now known.now) }
    {
        let resolved = self.told.resolved;
        match resolved.binary_search_by_key(entry, |it| it.entry) {
            Ok(at) => Some(&resolved[at]),
            Err(_) => None,
        }
    }

    /// A sentence with two trees that part by what meets in one of the entries, where one is found.
    pub(crate) fn decided(&self, entries: &[Entry]) -> Option<&'a Ambiguity>
        requires proved { All (IsProved self.now.found.now.grm) self.now.told.resolved.now }
        ensures trees { IfSome result (λ a. HasTwoTrees self.now.found.now.grm a.now) }
        ensures of { IfSome result (λ a. IsOfOne entries.now a.now) }
    {
        for entry in entries {
            if let Some(known) = self.known_at(entry) {
                if let Some(ambiguity) = &known.ambiguity {
                    if ambiguity.is_of(entry) {
                        return Some(&**ambiguity);
                    }
                }
            }
        }
        None
    }

    /// A sentence that the parser rejects since precedences resolve one of the entries, where one is found.
    pub(crate) fn lost(&self, entries: &[Entry]) -> Option<&'a Loss>
        requires lost { All (IsLostAtEntry self.now.found.now.grm self.now.found.now.table)
            self.now.told.resolved.now }
        ensures loss { IfSome result (λ l.
            IsLoss self.now.found.now.grm self.now.found.now.table l.now) }
        ensures at { IfSome result (λ l.
            IsLostAtOne self.now.found.now.grm self.now.found.now.table entries.now l.now) }
    {
        for entry in entries {
            if let Some(known) = self.known_at(entry) {
                match &known.loss {
                    Some(loss) if known.entry == *entry => return Some(&**loss),
                    _ => {}
                }
            }
        }
        None
    }

    /// Whether a text was looked for at each of the entries.
    pub(crate) fn are_searched(&self, entries: &[Entry]) -> bool {
        for entry in entries {
            match self.known_at(entry) {
                Some(known) if !known.is_cut_off => {}
                _ => return false,
            }
        }
        true
    }

    /// The places of what meets.
    fn resolution_marks(
        &self,
        alloc: Global,
        resolution: &Resolution,
    ) -> Result<Vec<Mark>, AllocError> {
        let entries = resolution.entries.as_slice();
        let mut marks = Vec::new(alloc);
        if let Some(first) = entries.first() {
            let (reduced, shifted) = match resolution.reason {
                Reason::Token | Reason::Right => ("", DONE),
                Reason::Production | Reason::Left => (DONE, ""),
                Reason::Nonassoc | Reason::Elsewhere => ("", ""),
            };
            marks.push(self.told.reduction_mark(alloc, first.production, reduced)?)?;
            self.push_shifts(&mut marks, entries, shifted)?;
        }
        Ok(marks)
    }

    /// What is known of entries that are resolved.
    fn known_resolved(&self, entries: &[Entry]) -> KnownResolved<'a>
        requires proved { All (IsProved self.now.found.now.grm) self.now.told.resolved.now }
        requires lost { All (IsLostAtEntry self.now.found.now.grm self.now.found.now.table)
            self.now.told.resolved.now }
        ensures trees { IfSome result.ambiguity (λ a. HasTwoTrees self.now.found.now.grm a.now) }
        ensures loss { IfSome result.loss (λ l.
            IsLoss self.now.found.now.grm self.now.found.now.table l.now) }
    {
        KnownResolved {
            ambiguity: self.decided(entries),
            loss: self.lost(entries),
            is_cut_off: self.told.options.steps > 0 && !self.are_searched(entries),
        }
    }

    /// Adds what is resolved.
    fn push_resolution(&self, text: &mut Text, resolution: &Resolution)
        requires proved { All (IsProved self.now.found.now.grm) self.now.told.resolved.now }
        requires lost { All (IsLostAtEntry self.now.found.now.grm self.now.found.now.table)
            self.now.told.resolved.now }
        requires kept { AreToldKept self.now.found.now.grm self.now.found.now.graph
            self.now.found.now.table self.now.told.kept.now }
    {
        let (alloc, entries) = (text.allocator(), resolution.entries.as_slice());
        let Ok(marks) = self.resolution_marks(alloc, resolution) else {
            return text.give_up();
        };
        let Ok(why) = self.told.reason(alloc, resolution) else {
            return text.give_up();
        };
        let marks = marks.as_slice();
        self.told.push_heading(text, "resolved", entries, None);
        self.told.add_placed(text, marks);
        let known = self.known_resolved(entries);
        self.push_decided(text, marks, why.as_str(), resolution, known);
        text.add_char('\n');
    }

    /// Adds what precedences resolve: the first ones, so many at the most, and how many there are besides.
    pub(crate) fn push_resolved(&self, text: &mut Text, most: usize)
        requires proved { All (IsProved self.now.found.now.grm) self.now.told.resolved.now }
        requires lost { All (IsLostAtEntry self.now.found.now.grm self.now.found.now.table)
            self.now.told.resolved.now }
        requires kept { AreToldKept self.now.found.now.grm self.now.found.now.graph
            self.now.found.now.table self.now.told.kept.now }
    {
        let Ok(resolutions) = self.resolutions(text.allocator()) else {
            return text.give_up();
        };
        for resolution in resolutions.iter().take(most) {
            self.push_resolution(text, resolution);
        }
        let more = resolutions.len().saturating_sub(most);
        if more > 0 {
            write!(text, "and {more} more, which --all shows\n\n");
        }
    }

    /// The card of what is resolved.
    fn resolved_card(
        &self,
        alloc: Global,
        resolution: Resolution,
    ) -> Result<ResolvedCard<'a>, AllocError>
        requires proved { All (IsProved self.now.found.now.grm) self.now.told.resolved.now }
        requires lost { All (IsLostAtEntry self.now.found.now.grm self.now.found.now.table)
            self.now.told.resolved.now }
        ensures texts { IfOk result (λ card.
            ForSome card.ambiguity (λ a. IsShown self.now.found.now.grm a.now)) }
        ensures lost { IfOk result (λ card. ForSome card.loss
            (λ l. IsShownLoss self.now.found.now.grm self.now.found.now.table l.now)) }
    {
        let known = self.known_resolved(resolution.entries.as_slice());
        Ok(ResolvedCard {
            marks: self.resolution_marks(alloc, &resolution)?,
            why: self.told.reason(alloc, &resolution)?,
            wins: match resolution.reason {
                Reason::Token | Reason::Right => "the shift wins",
                Reason::Production | Reason::Left => "the reduction wins",
                Reason::Nonassoc => "neither wins",
                Reason::Elsewhere => "another production stands first",
            },
            kept: resolution.kept(),
            entries: resolution.entries,
            ambiguity: known.ambiguity,
            loss: known.loss,
            is_cut_off: known.is_cut_off,
        })
    }

    /// The cards of what precedences resolve, where that is asked for.
    pub(crate) fn resolved_cards(&self, alloc: Global) -> Result<Vec<ResolvedCard<'a>>, AllocError>
        requires proved { All (IsProved self.now.found.now.grm) self.now.told.resolved.now }
        requires lost { All (IsLostAtEntry self.now.found.now.grm self.now.found.now.table)
            self.now.told.resolved.now }
        ensures texts { IfOk result (λ cards. All (λ card.
            ForSome card.ambiguity (λ a. IsShown self.now.found.now.grm a.now)) cards.items) }
        ensures lost { IfOk result (λ cards. All (λ card. ForSome card.loss
            (λ l. IsShownLoss self.now.found.now.grm self.now.found.now.table l.now))
            cards.items) }
    {
        let mut cards = Vec::new(alloc);
        if !self.told.options.detail.resolved {
            return Ok(cards);
        }
        for resolution in self.resolutions(alloc)? {
            cards.push(self.resolved_card(alloc, resolution)?)?;
        }
        Ok(cards)
    }
}
