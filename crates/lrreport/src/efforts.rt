//! How much is searched for what is known of a grammar.

use crate::options::{Options, Output};
use lrevidence::Effort;
use lryacc::Parser;

/// How much work the searches at all conflicts of a file may do together, for each step that one of them may take; and as much
/// those at all that precedences resolve.
const WORK: usize = 1_000;

/// At how many conflicts without a sentence that has two trees one that the parser rejects is looked for, even where fewer are
/// shown.
const LOSSES: usize = 1_000;

/// At how many conflicts such a sentence is looked for in any case, also where one with two trees is found.
const LOSSES_IN_ANY_CASE: usize = 100;

/// In a graph with more states than these none is: what such searches share takes a second to make there.
const STATES_SEARCHED: usize = 5_000;

/// Of how many conflicts at the most a report tells after what they are real: of more than it shows, since the same may meet in many
/// states.
const EXAMPLES: usize = 1_000;

/// For how many of these it is searched whether no sentence has two trees there.
const DECISIONS: usize = 100;

/// For how many steps that a search for such a sentence may take one of these looks at a node.
const STEPS_A_NODE: usize = 100;

/// How many positions searches look at whether the parser accepts every sentence: they end at the first cell of the table of which
/// they don't see that.
const POSITIONS: usize = 100_000;

/// Of a table in which more conflicts and resolved ones than these meet that is not searched.
pub(crate) const MANY: usize = 400;

/// How many positions searches look at together whether no sentence is lost at each of what is told.
const POSITIONS_OF_ENTRIES: usize = 10_000;

/// How much work searches may do together.
pub(crate) fn work_of(options: Options) -> usize {
    options.steps.saturating_mul(WORK)
}

/// At how many entries a sentence that such a parser rejects is looked for in any case: at so many, but at none where it splits,
/// since then it rejects none because of a conflict.
pub(crate) fn losses_by(parser: &Parser, most: usize) -> usize {
    if parser.splits() { 0 } else { most }
}

/// What is looked for of the conflicts of a graph with so many states, for such a parser.
pub(crate) fn effort_of(parser: &Parser, states: usize, options: Options) -> Effort {
    let examples = match options.output {
        _ if options.steps == 0 => 0,
        _ if options.makes_page => usize::MAX,
        Output::Report if !options.detail.all => EXAMPLES,
        Output::Report => usize::MAX,
        Output::Json { .. } => usize::MAX,
        Output::Summary | Output::Grammar | Output::States | Output::Sarif => 0,
    };
    Effort {
        steps: options.steps,
        work: work_of(options),
        examples,
        losses: if options.steps == 0 { 0 } else { LOSSES },
        decisions: DECISIONS,
        nodes: options.steps / STEPS_A_NODE,
        positions: if options.steps == 0 { 0 } else { POSITIONS },
        positions_of_entries: match options.output {
            _ if options.steps == 0 => 0,
            _ if options.makes_page => POSITIONS_OF_ENTRIES,
            Output::Report | Output::Json { .. } => POSITIONS_OF_ENTRIES,
            Output::Summary | Output::Grammar | Output::States | Output::Sarif => 0,
        },
        counts_each: options.detail.all
            || options.makes_page
            || matches!(options.output, Output::Json { .. }),
        losses_in_any_case: if states > STATES_SEARCHED {
            0
        } else {
            losses_by(parser, LOSSES_IN_ANY_CASE)
        },
    }
}
