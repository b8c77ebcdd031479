//! The verdict of a grammar.

ghost use Rattle.std.specs.Prelude.{◌≡◌, ◌↔◌, IsTrue, Some};
ghost use Rattle.lrspec.specs.tables.LrTables.{HasNoPrecedences, ListsNothing};
ghost use Rattle.lrspec.specs.tables.Recognition.{IsUnambiguous};
ghost use Rattle.lrspec.specs.tables.Table.{IsTableFor};
ghost use Rattle.lrverdicts.specs.Verdicts.{counts_of, counts_in, status_of, IsVerdict, IsZero};
ghost use Rattle.lrverdicts.specs.VerdictTexts.{kind_text, counts_text, expected_text, verdict_text};

use crate::conflicts::Entry;
use lrcells::statetable::StateTable;
use lrgrammar::grammar::YaccGrammar;
use lryacc::Expected;
use std::fmt;

/// How many conflicts there are.
#[derive(Clone, Copy, Debug, Default, PartialEq, Eq)]
pub struct Counts {
    /// Between a shift and a reduction.
    pub shift_reduce: usize,
    /// Between two reductions.
    pub reduce_reduce: usize,
}

impl Counts {
    /// How many entries there are of either kind.
    pub fn of(entries: &[Entry]) -> Counts
        ensures { result ≡ counts_of entries.now }
    {
        let mut counts = Counts::default();
        for entry in entries {
            match entry.other {
                Some(_) => counts.reduce_reduce += 1,
                None => counts.shift_reduce += 1,
            }
        }
        counts
    }

    /// Whether there are none.
    pub fn is_zero(self) -> bool
        ensures { IsTrue result ↔ IsZero self }
    {
        self.shift_reduce == 0 && self.reduce_reduce == 0
    }
}

/// What is told of a grammar.
#[derive(Clone, Copy, Debug, PartialEq, Eq)]
pub enum Verdict {
    /// No sentence has two trees.
    Unambiguous,
    /// There are no conflicts, but precedences may have resolved some.
    NoConflicts,
    /// There are conflicts.
    Conflicts(Counts),
    /// There are as many conflicts as the file expects.
    Expected(Counts),
    /// There are other numbers of conflicts than the file expects.
    Unexpected {
        /// How many there are.
        found: Counts,
        /// How many are expected.
        expected: (u64, u64),
    },
}

/// Whether a table shows that its grammar is unambiguous: it lists no conflict, and no token has a precedence.
pub fn is_unambiguous(grm: &YaccGrammar<u32>, table: &StateTable<u32>) -> bool
    requires { IsTableFor grm.now table.now }
    ensures proved { IsTrue result → IsUnambiguous grm.now }
    ensures told { HasNoPrecedences grm.now → ListsNothing table.now → IsTrue result }
{
    grm.in_order();
    match table.conflicts() {
        None if !grm.has_precedences() => true,
        _ => false,
    }
}

impl Verdict {
    /// The verdict where so many conflicts are left open, and the file expects so many. One number that it does not say is 0.
    pub fn of(is_unambiguous: bool, left: Counts, expected: Expected) -> Verdict
        ensures { IsVerdict is_unambiguous left expected result }
    {
        let is_silent = expected.shift_reduce.is_none() && expected.reduce_reduce.is_none();
        let shifts = expected.shift_reduce.unwrap_or(0);
        let reductions = expected.reduce_reduce.unwrap_or(0);
        let is_met = left.shift_reduce as u64 == shifts && left.reduce_reduce as u64 == reductions;
        match (left.is_zero(), is_silent, is_met) {
            (true, _, true) if is_unambiguous => Verdict::Unambiguous,
            (true, _, true) => Verdict::NoConflicts,
            (_, true, _) => Verdict::Conflicts(left),
            (_, _, true) => Verdict::Expected(left),
            _ => Verdict::Unexpected {
                found: left,
                expected: (shifts, reductions),
            },
        }
    }

    /// How many conflicts there are.
    pub fn counts(self) -> Counts
        ensures { result ≡ counts_in self }
    {
        match self {
            Verdict::Unambiguous | Verdict::NoConflicts => Counts::default(),
            Verdict::Conflicts(counts) | Verdict::Expected(counts) => counts,
            Verdict::Unexpected { found, .. } => found,
        }
    }

    /// The exit status: 1 where there are conflicts that are not expected.
    pub fn status(self) -> u8
        ensures { result ≡ status_of self }
    {
        match self {
            Verdict::Conflicts(_) | Verdict::Unexpected { .. } => 1,
            _ => 0,
        }
    }
}

/// Conflicts of a kind.
#[derive(Clone, Copy)]
struct Kind {
    number: usize,
    name: &'static str,
}

impl fmt::Display for Kind {
    ghost output = { λ kind. Some (kind_text kind.number kind.name.now) };

    fn fmt<W: fmt::Write>(&self, f: &mut fmt::Formatter<W>) -> fmt::Result {
        let (number, name) = (self.number, self.name);
        let word = if number == 1 { "conflict" } else { "conflicts" };
        write!(f, "{number} {name} {word}")
    }
}

impl fmt::Display for Counts {
    ghost output = { λ counts. Some (counts_text counts) };

    fn fmt<W: fmt::Write>(&self, f: &mut fmt::Formatter<W>) -> fmt::Result {
        let shifts = Kind {
            number: self.shift_reduce,
            name: "shift/reduce",
        };
        let reductions = Kind {
            number: self.reduce_reduce,
            name: "reduce/reduce",
        };
        match (self.shift_reduce, self.reduce_reduce) {
            (_, 0) => write!(f, "{shifts}"),
            (0, _) => write!(f, "{reductions}"),
            _ => write!(f, "{shifts}, {reductions}"),
        }
    }
}

/// How many conflicts are expected: between a shift and a reduction, and between two reductions.
#[derive(Clone, Copy)]
struct Wanted(u64, u64);

impl fmt::Display for Wanted {
    ghost output = { λ wanted. Some (expected_text wanted.0 wanted.1) };

    fn fmt<W: fmt::Write>(&self, f: &mut fmt::Formatter<W>) -> fmt::Result {
        let (shifts, reductions) = (self.0, self.1);
        match (shifts, reductions) {
            (_, 0) => write!(f, "{shifts} shift/reduce expected"),
            (0, _) => write!(f, "{reductions} reduce/reduce expected"),
            _ => write!(
                f,
                "{shifts} shift/reduce and {reductions} reduce/reduce expected"
            ),
        }
    }
}

/// That it is proved stands in no verdict: what tells so takes the proof.
impl fmt::Display for Verdict {
    ghost output = { λ verdict. Some (verdict_text verdict) };

    fn fmt<W: fmt::Write>(&self, f: &mut fmt::Formatter<W>) -> fmt::Result {
        match *self {
            Verdict::Unambiguous => write!(f, "unambiguous"),
            Verdict::NoConflicts => write!(f, "no conflicts"),
            Verdict::Conflicts(counts) => write!(f, "{counts}"),
            Verdict::Expected(counts) => write!(f, "as expected: {counts}"),
            Verdict::Unexpected { found, expected } => {
                let wanted = Wanted(expected.0, expected.1);
                write!(f, "{found}; {wanted}")
            }
        }
    }
}
