//! Why there are the conflicts of a grammar file: sentences with two trees, after what a conflict is real, and sentences that the
//! parser rejects because of it, by the numbers that tokens, rules and productions have in the file; or whether it accepts all.
#![tactic(auto)]

mod accepting;
mod conflicts;
mod evidence;
mod examples;
mod keeping;
mod searches;
mod texts;
mod unambiguity;

pub use crate::accepting::{Accepted, accepted_of};
pub use crate::evidence::{Effort, Evidence, evidence_for, find_ambiguity};
pub use crate::unambiguity::shows_unambiguous;
pub use lrshown::{
    Ambiguity, Decided, Exactness, Example, Loss, Node, Outlook, ShownTree, Step, Tree, TwoTrees,
    Visit, body_of, candidates_of, list_of, name_of_rule, names_of, names_of_tokens, node_name,
    rule_name, shown_trees, start_of, symbol_name, text_of, token_name, tree_words,
};
