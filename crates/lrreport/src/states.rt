//! The states of the graph: their items, and what the table does in them.
//!
//! The rule and the token that stand around a file's grammar have no names in it: the items of that rule are shown as those of
//! `$accept`, and what is done at that token, which is behind all of the text, is shown without one.

use crate::actions::push_targets;
use crate::conflicts::{Checked, entries_of};
use crate::told::Told;
use crate::words::Words;
use lrevidence::{body_of, symbol_name};
use lrfindings::{Counts, Entry};
use lrgrammar::idx::{IndexStorage, PIdx, RIdx, StIdx};
use lrwriter::Text;
use std::alloc::{AllocError, Global};
use std::collections::BTreeMap;

/// What is needed beside a table to show its states.
#[derive(Drop)]
pub(crate) struct Listing<'a> {
    pub(crate) checked: &'a Checked<'a>,
    /// The numbers that the rules of the file have in the graph.
    pub(crate) rules: BTreeMap<usize, RIdx<u32>>,
    /// The conflicts, by their states.
    pub(crate) conflicts: BTreeMap<usize, Vec<Entry>>,
    /// What `%nonassoc` makes errors, by their states.
    pub(crate) errors: BTreeMap<usize, Vec<Entry>>,
}

/// Entries by their states.
fn by_state(alloc: Global, entries: &[Entry]) -> Result<BTreeMap<usize, Vec<Entry>>, AllocError> {
    let mut lists: BTreeMap<usize, Vec<Entry>> = BTreeMap::new(alloc);
    for entry in entries {
        lists.entry(entry.state)?.or_default().push(*entry)?;
    }
    Ok(lists)
}

/// Adds the lines of a block, if it has some, behind an empty one.
fn push_block(text: &mut Text, block: Text) {
    match block.finish() {
        Ok(block) if block.is_empty() => {}
        Ok(block) => {
            text.add_char('\n');
            text.add(block.as_str());
        }
        Err(_) => text.give_up(),
    }
}

impl Told<'_> {
    /// Adds an item: its rule, and its symbols with a dot among them.
    fn push_item(&self, text: &mut Text, production: usize, dot: usize) {
        let symbols = body_of(self.file, production);
        let mut words = Words::new(text.allocator());
        words.add(self.rule_name(production));
        words.add_piece(":");
        for (place, symbol) in symbols.iter().enumerate() {
            if place == dot {
                words.add(".");
            }
            words.add(symbol_name(self.file, *symbol));
        }
        if symbols.len() <= dot {
            words.add(".");
        }
        text.add("    ");
        words.lay_out(text, self.layout(), 4, 8);
        text.add_char('\n');
    }

    /// Adds an item of the rule that stands around the grammar.
    fn push_outer_item(&self, text: &mut Text, dot: usize) {
        if dot > 0 {
            return text.add("    $accept .\n");
        }
        for (production, prod) in self.file.parts.prods.iter().enumerate() {
            if prod.rule == 0 {
                self.push_item(text, production, 0);
            }
        }
    }
}

impl<'a> Listing<'a> {
    /// Shows the states of what was found.
    pub(crate) fn new(alloc: Global, checked: &'a Checked<'a>) -> Result<Listing<'a>, AllocError> {
        let conflicts = entries_of(alloc, checked.told.evidence)?;
        let errors = checked.errors(alloc)?;
        Ok(Listing {
            checked,
            rules: checked.rules(alloc)?,
            conflicts: by_state(alloc, conflicts.as_slice())?,
            errors: by_state(alloc, errors.as_slice())?,
        })
    }

    /// Adds which states have how many conflicts.
    fn push_counts(&self, text: &mut Text) {
        for (state, entries) in &self.conflicts {
            let counts = Counts::of(entries.as_slice());
            write!(text, "State {state}: {counts}\n");
        }
        if !self.conflicts.is_empty() {
            text.add("\n\n");
        }
    }

    /// Adds the items of the core of a state.
    fn push_items(&self, text: &mut Text, state: StIdx<u32>) {
        let Some(graph) = &self.checked.found.graph else {
            return;
        };
        if usize::from(state) >= usize::from(graph.all_states_len()) {
            return;
        }
        let told = self.checked.told;
        for key in graph.core_state(state).items.keys() {
            let (production, dot) = (usize::from(key.0), usize::from(key.1));
            if production < told.file.parts.prods.len() {
                told.push_item(text, production, dot);
            } else {
                told.push_outer_item(text, dot);
            }
        }
    }

    /// Adds a state: its number, the items of its core, and what the table does in it.
    fn push_state(&self, text: &mut Text, state: StIdx<u32>) {
        let alloc = text.allocator();
        let Ok(row) = self.row(alloc, state) else {
            return text.give_up();
        };
        let Ok(gotos) = self.gotos(alloc, state) else {
            return text.give_up();
        };
        let (mut items, mut reducing) = (Text::new(alloc), Text::new(alloc));
        self.push_items(&mut items, state);
        self.push_reducing(&mut reducing, state, &row);
        write!(text, "State {}\n", usize::from(state));
        push_block(text, items);
        push_targets(text, row.shifts.as_slice(), "shift, and go to");
        push_block(text, reducing);
        push_targets(text, gotos.as_slice(), "go to");
        text.add("\n\n");
    }
}

impl Checked<'_> {
    /// The numbers that the rules of the file have in the graph. Productions have those of the file.
    fn rules(&self, alloc: Global) -> Result<BTreeMap<usize, RIdx<u32>>, AllocError> {
        let grm = &self.found.grm;
        let mut rules = BTreeMap::new(alloc);
        for (production, prod) in self.told.file.parts.prods.iter().enumerate() {
            if let Some(number) = u32::from_usize(production) {
                if production < usize::from(grm.prods_len()) {
                    rules.insert(prod.rule, grm.prod_to_rule(PIdx(number)))?;
                }
            }
        }
        Ok(rules)
    }

    /// Adds the states of the graph: first those that have conflicts, with their numbers alone, and then all of them.
    pub(crate) fn push_states(&self, text: &mut Text) {
        let Some(graph) = &self.found.graph else {
            return;
        };
        let Ok(listing) = Listing::new(text.allocator(), self) else {
            return text.give_up();
        };
        listing.push_counts(text);
        for state in graph.iter_stidxs() {
            listing.push_state(text, state);
        }
    }
}
