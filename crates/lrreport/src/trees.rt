//! Trees as JSON.

use crate::json_texts::JsonText;
use lrevidence::{Node, Tree, Visit, name_of_rule, symbol_name};
use lryacc::FileGrammar;
use std::alloc::{AllocError, Global};

/// How deep a tree is at the most that is told as JSON, whose readers call themselves as deep.
const DEEPEST: usize = 500;

/// Which of its rule's productions each production of a file is, counted from 1.
pub(crate) fn alternatives(alloc: Global, file: &FileGrammar) -> Result<Vec<usize>, AllocError> {
    let mut counts: Vec<usize> = vec![in alloc; 0; file.parts.rules.len()]?;
    let mut alternatives = Vec::new(alloc);
    for prod in &file.parts.prods {
        let mut alternative = 0;
        if let Some(count) = counts.get_mut(prod.rule) {
            *count = count.saturating_add(1);
            alternative = *count;
        }
        alternatives.push(alternative)?;
    }
    Ok(alternatives)
}

/// Where the last of those trees begins that stand in a row, going through them, and how many nodes stand in one another in it.
fn last_tree(visits: &[Visit]) -> (usize, usize) {
    let (mut start, mut depth, mut deepest): (usize, usize, usize) = (0, 0, 0);
    for (place, visit) in visits.iter().enumerate() {
        if depth == 0 {
            (start, deepest) = (place, 0);
        }
        match visit {
            Visit::Enter(_) => depth = depth.saturating_add(1),
            Visit::Leave(_) => depth = depth.saturating_sub(1),
            Visit::Leaf(_) => {}
        }
        deepest = deepest.max(depth);
    }
    (start, deepest)
}

/// Adds what one comes to, going through a tree.
fn add_visit(
    json: &mut JsonText,
    file: &FileGrammar,
    alternatives: &[usize],
    tree: &Tree,
    visit: Visit,
) {
    match visit {
        Visit::Enter(number) | Visit::Leaf(number) => match tree.nodes.get(number) {
            Some(Node::Inner(production)) => {
                json.begin_array();
                json.string(name_of_rule(file, *production));
                json.number(alternatives.get(*production).copied().unwrap_or(0));
                json.begin_array();
            }
            Some(Node::Leaf(symbol)) => json.string(symbol_name(file, *symbol)),
            None => {}
        },
        Visit::Leave(_) => {
            json.end_array();
            json.end_array();
        }
    }
}

/// Adds a tree: for a node its rule, which of the rule's productions it is, and its children, and for a leaf its name. Null where it
/// is too deep. The token that chooses one of several start rules stands before it, and is left out.
pub(crate) fn add_tree(
    json: &mut JsonText,
    file: &FileGrammar,
    alternatives: &[usize],
    tree: &Tree,
) {
    let Ok(visits) = tree.visits(json.allocator()) else {
        return json.give_up();
    };
    let (start, depth) = last_tree(visits.as_slice());
    if visits.is_empty() || depth > DEEPEST {
        return json.null();
    }
    for visit in visits.iter().skip(start) {
        add_visit(json, file, alternatives, tree, *visit);
    }
}
