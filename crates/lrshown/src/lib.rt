//! What is shown of a grammar file: the names of its symbols, trees of its productions, and what is known of its conflicts.
#![tactic(auto)]

mod ambiguities;
mod brackets;
mod chains;
mod evidence;
mod losses;
mod names;
mod pairs;
mod steps;
mod trees;

pub use crate::ambiguities::{Ambiguity, candidates_of};
pub use crate::brackets::{node_name, tree_words};
pub use crate::chains::ShownTree;
pub use crate::evidence::{Evidence, Example, Outlook};
pub use crate::losses::Loss;
pub use crate::names::{
    body_of, list_of, name_of_rule, names_of, names_of_tokens, rule_name, start_of, symbol_name,
    text_of, token_name,
};
pub use crate::pairs::shown_trees;
pub use crate::steps::{Step, TwoTrees, step_of, steps_of};
pub use crate::trees::{Node, Tree, Visit};
pub use lrdecided::Decided;
pub use lrlosses::Exactness;
