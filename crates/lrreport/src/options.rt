//! How a report is made.

ghost use Rattle.std.specs.Prelude.{◌≡◌};
ghost use Rattle.lrreport.specs.Conclusions.{expected_beside};
ghost use Rattle.lrreport.specs.ToldConclusions.{has_hint};

use lryacc::{Dialect, Expected};

/// What is told of a file.
#[derive(Clone, Copy, Debug, Default, PartialEq, Eq)]
pub enum Output {
    /// Warnings, conflicts, and the verdict.
    #[default]
    Report,
    /// The verdict alone.
    Summary,
    /// One object, as JSON, which may have the grammar too.
    Json { has_grammar: bool },
    /// The small text of the grammar.
    Grammar,
    /// The states of the graph, and the verdict.
    States,
    /// Results for a log of SARIF, with commas between them.
    Sarif,
}

/// What is told beside that.
#[derive(Clone, Copy, Debug, Default, PartialEq, Eq)]
pub struct Detail {
    /// Whether each conflict is told by itself, and not the first ones alone.
    pub all: bool,
    /// Whether what precedences resolve is told too.
    pub resolved: bool,
    /// Whether both trees of each text are drawn.
    pub trees: bool,
    /// Whether JSON has the states of the graph too.
    pub states: bool,
}

/// How lines are written.
#[derive(Clone, Copy, Debug, Default, PartialEq, Eq)]
pub struct Lines {
    /// How many columns a line has at the most, unless a word alone is wider; None where lines are not folded.
    pub columns: Option<usize>,
    /// Whether trees are drawn by plain letters, without the lines that boxes are drawn by.
    pub is_plain: bool,
    /// Whether colours are used.
    pub has_colours: bool,
}

/// How a report is made.
#[derive(Clone, Copy, Debug, Default, PartialEq, Eq)]
pub struct Options {
    /// What is told.
    pub output: Output,
    /// What is told beside that.
    pub detail: Detail,
    /// How its lines are written.
    pub lines: Lines,
    /// How many steps a search for a sentence with two trees may take for each conflict. All searches at conflicts of a file may do a
    /// thousand times as much work, and so may those at what precedences resolve; no search is made where it is 0, and then it is
    /// not told either after what a conflict is real.
    pub steps: usize,
    /// Whether precedences are left out of the grammar.
    pub ignores_precedences: bool,
    /// How many shift/reduce conflicts are expected, whatever the file says.
    pub expected: Option<u64>,
    /// Whether a page is made that shows what was found.
    pub makes_page: bool,
    /// What the file is taken for.
    pub dialect: Dialect,
}

impl Options {
    /// Whether it is told how what precedences resolve is shown: in a report that does not show it.
    pub(crate) fn has_hint(self) -> bool
        ensures { result ≡ has_hint self }
    {
        match self.output {
            Output::Report => !self.detail.resolved,
            Output::Summary
            | Output::Json { .. }
            | Output::Grammar
            | Output::States
            | Output::Sarif => false,
        }
    }

    /// How many conflicts are expected of a file that says so.
    pub(crate) fn beside(self, file: Expected) -> Expected
        ensures { result ≡ expected_beside self file }
    {
        Expected {
            shift_reduce: self.expected.or(file.shift_reduce),
            reduce_reduce: file.reduce_reduce,
        }
    }
}
