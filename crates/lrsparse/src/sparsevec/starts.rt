//! Where the search for a displacement may begin: not before a row of some of the columns found its own.

ghost use Rattle.std.specs.Prelude.{◌<◌, ◌^◌, ◌↔◌, ℕ, List, Contains, IsTrue, IfOk, OnOk};
ghost use Rattle.std.specs.List.{All};
ghost use Rattle.std.specs.List.Sorted.{IsStrictlyIncreasing};
ghost use Rattle.lrsparse.specs.Starts.{IsIn, FitNowhereBelow, AreStarts};

use crate::sparsevec::owned::{WORD, own_columns_behind, places_from};
use std::alloc::{AllocError, Global};
use std::collections::BTreeMap;

/// How many sets of columns are looked at for the next row, those that came last: states that were made one after another are
/// alike, and more sets would take more time than they save.
const LAST: usize = 64;

/// A set of columns: the first one, and as the bits of words how far behind it each of them stands.
#[derive(Drop)]
pub(crate) struct ColumnSet {
    pub first: usize,
    pub words: Vec<u64>,
}

impl ColumnSet {
    /// Whether all columns are among the others.
    fn is_among(&self, others: &ColumnSet) -> bool
        ensures { IsTrue result → (c : ℕ) → IsIn self.now c → IsIn others.now c }
    {
        let Some(mut place) = self.first.checked_sub(others.first) else {
            return false;
        };
        for index in 0..self.words.len() {
            let own = places_from(others.words.as_slice(), place);
            if self.words[index] | own != own {
                return false;
            }
            let Some(next) = place.checked_add(WORD) else {
                return false;
            };
            place = next;
        }
        true
    }
}

/// A set of columns, and the displacement that the last row of these columns has: below it none fits.
#[derive(Drop)]
pub(crate) struct Start {
    pub columns: ColumnSet,
    pub displacement: usize,
}

impl Start {
    /// The displacement where the search for a row of these columns may begin, if it may at the least one: where all columns
    /// of this start are among them, not below its own.
    fn raised(&self, columns: &ColumnSet, least: usize) -> usize
        ensures { (words : List ℕ)
            → FitNowhereBelow words self.now.columns self.now.displacement
            → FitNowhereBelow words columns.now least
            → FitNowhereBelow words columns.now result }
    {
        if self.displacement > least && self.columns.is_among(columns) {
            self.displacement
        } else {
            least
        }
    }

    /// The same where these columns are those of this start, all as far behind them: at a displacement they take the places that
    /// those take at one which is as much greater. Where they stand before them, this start says nothing.
    fn moved(&self, columns: &ColumnSet, least: usize) -> usize
        ensures { (words : List ℕ)
            → FitNowhereBelow words self.now.columns self.now.displacement
            → FitNowhereBelow words columns.now least
            → FitNowhereBelow words columns.now result }
    {
        if self.columns.words != columns.words {
            return least;
        }
        match columns.first.checked_sub(self.columns.first) {
            Some(behind) => self.displacement.saturating_sub(behind).max(least),
            None => least,
        }
    }
}

/// The set of these columns. The error says that memory was refused.
pub(crate) fn set_of(alloc: Global, columns: &[usize]) -> Result<ColumnSet, AllocError>
    requires upwards { IsStrictlyIncreasing columns.now }
    requires narrow { All (λ c. c < 2 ^ 60) columns.now }
    ensures { IfOk result (λ set. (c : ℕ) → IsIn set c ↔ Contains columns.now c) }
{
    let (Some(first), Some(last)) = (columns.first(), columns.last()) else {
        return Ok(ColumnSet {
            first: 0,
            words: Vec::new(alloc),
        });
    };
    let first = *first;
    let mut words = vec![in alloc; 0; (*last - first) / WORD + 1]?;
    own_columns_behind(words.as_mut_slice(), columns, first);
    Ok(ColumnSet { first, words })
}

/// The sets of columns of the rows so far, each with its start; of those that are one set but for where it stands, the last one.
#[derive(Drop)]
pub(crate) struct Starts {
    /// Where each set stands among all, by its words.
    places: BTreeMap<Vec<u64>, usize>,
    /// In the order in which such sets came first.
    pub all: Vec<Start>,
    /// Where the sets that came last stand among all, each once.
    recent: Vec<usize>,
}

/// Lets the place be the last one, once and behind so many at the most as are looked at.
fn renew(recent: &mut Vec<usize>, place: usize) -> Result<(), AllocError> {
    recent.retain(|other| *other != place);
    if recent.len() == LAST {
        recent.remove(0);
    }
    recent.push(place)?;
    Ok(())
}

impl Starts {
    /// None.
    pub(crate) fn new(alloc: Global) -> Starts
        ensures { (words : List ℕ) → AreStarts result words }
    {
        Starts {
            places: BTreeMap::new(alloc),
            all: Vec::new(alloc),
            recent: Vec::new(alloc),
        }
    }

    /// The place of this set of columns among all, wherever it stands; one that is new comes behind them.
    fn place(&self, columns: &ColumnSet) -> usize {
        let known = self.places.get(&columns.words);
        known.copied().unwrap_or(self.all.len())
    }

    /// Where the search for a row of these columns may begin, if it may at the least one, by the start at the place too, where
    /// its columns are these or as far before them.
    fn moved_by(&self, place: usize, columns: &ColumnSet, least: usize) -> usize
        ensures { (words : List ℕ) → AreStarts self.now words
            → FitNowhereBelow words columns.now least
            → FitNowhereBelow words columns.now result }
    {
        if place < self.all.len() {
            self.all[place].moved(columns, least)
        } else {
            least
        }
    }

    /// The same, where all columns of the start are among these.
    fn raised_by(&self, place: usize, columns: &ColumnSet, least: usize) -> usize
        ensures { (words : List ℕ) → AreStarts self.now words
            → FitNowhereBelow words columns.now least
            → FitNowhereBelow words columns.now result }
    {
        if place < self.all.len() {
            self.all[place].raised(columns, least)
        } else {
            least
        }
    }

    /// Where the search for a row of this set of columns may begin, if it may at the least one, by the last row of such a set and
    /// by those of the sets that came last.
    pub(crate) fn before(&self, columns: &ColumnSet, least: usize) -> usize
        ensures { (words : List ℕ) → AreStarts self.now words
            → FitNowhereBelow words columns.now least
            → FitNowhereBelow words columns.now result }
    {
        if columns.words.is_empty() {
            return least;
        }
        let mut start = self.moved_by(self.place(columns), columns, least);
        for place in self.recent.iter().rev() {
            start = self.raised_by(*place, columns, start);
        }
        start
    }

    /// Notes that a row of this set of columns has the displacement, and that none fits below it. A row without columns says
    /// nothing of others.
    pub(crate) fn note(&mut self, columns: ColumnSet, displacement: usize) -> Result<(), AllocError>
        ensures { OnOk result ((words : List ℕ) → AreStarts self.old words
            → FitNowhereBelow words columns displacement → AreStarts self.new words) }
    {
        if columns.words.is_empty() {
            return Ok(());
        }
        let place = self.place(&columns);
        renew(&mut self.recent, place)?;
        if place < self.all.len() {
            self.all[place] = Start {
                columns,
                displacement,
            };
            return Ok(());
        }
        self.places.insert(columns.words.clone()?, place)?;
        self.all.push(Start {
            columns,
            displacement,
        })?;
        Ok(())
    }
}
