//! The states of the graph, as JSON.

use crate::actions::{Cell, Target};
use crate::conflicts::Checked;
use crate::json_texts::JsonText;
use crate::states::Listing;
use lrgrammar::idx::StIdx;
use lrtable::StateGraph;

/// Adds symbols, each with the state that it leads to.
fn add_targets(json: &mut JsonText, targets: &[Target<'_>], kind: &str) {
    json.begin_array();
    for target in targets {
        json.begin_object();
        json.string_at(kind, target.name);
        json.number_at("state", target.state);
        json.end_object();
    }
    json.end_array();
}

impl Listing<'_> {
    /// Adds the items by which the rule that stands around the grammar begins: those of `$accept`.
    fn add_start_items(&self, json: &mut JsonText) {
        let told = &self.checked.told;
        for (production, prod) in told.file.parts.prods.iter().enumerate() {
            if prod.rule == 0 {
                told.add_item(json, production, 0);
            }
        }
    }

    /// Adds the items of the core of a state, with those of `$accept` for the rule that stands around it.
    fn add_core(&self, json: &mut JsonText, graph: &StateGraph<u32>, state: StIdx<u32>) {
        let told = &self.checked.told;
        if usize::from(state) >= usize::from(graph.all_states_len()) {
            return;
        }
        for key in graph.core_state(state).items.keys() {
            let (production, dot) = (usize::from(key.0), usize::from(key.1));
            if production < told.file.parts.prods.len() {
                told.add_item(json, production, dot);
            } else if dot == 0 {
                self.add_start_items(json);
            }
        }
    }

    /// Adds the names of the tokens of cells. The one behind all of the file has none.
    fn add_names_of_cells(&self, json: &mut JsonText, cells: &[Cell]) {
        let checked = self.checked;
        let file = checked.told.file;
        json.begin_array();
        for cell in cells {
            if let Some(token) = file.parts.tokens.get(cell.token) {
                json.string(token.name.as_str());
            }
        }
        json.end_array();
    }

    /// Adds reductions: productions, each with the tokens at which the state reduces by it.
    fn add_reductions(&self, json: &mut JsonText, cells: &[Cell]) {
        json.begin_array();
        for alike in cells.chunk_by(Cell::is_like) {
            if let Some(first) = alike.first() {
                json.begin_object();
                self.checked.told.add_members(json, first.production);
                json.key("tokens");
                self.add_names_of_cells(json, alike);
                json.end_object();
            }
        }
        json.end_array();
    }

    /// Adds a state of a graph: its items, what the table does, which tokens `%nonassoc` makes errors, and where rules lead.
    fn add_state(&self, json: &mut JsonText, graph: &StateGraph<u32>, state: StIdx<u32>) {
        let Ok(row) = self.row(json.allocator(), state) else {
            return json.give_up();
        };
        let Ok(gotos) = self.gotos(json.allocator(), state) else {
            return json.give_up();
        };
        json.begin_object();
        json.number_at("state", usize::from(state));
        json.key("items");
        json.begin_array();
        self.add_core(json, graph, state);
        json.end_array();
        json.key("shifts");
        add_targets(json, row.shifts.as_slice(), "token");
        json.key("reductions");
        self.add_reductions(json, row.reductions.as_slice());
        json.boolean_at("accepts", row.accepts);
        json.key("errors");
        json.begin_array();
        if let Some(entries) = self.errors.get(&usize::from(state)) {
            for entry in entries {
                json.string(self.checked.told.token_name(entry.token));
            }
        }
        json.end_array();
        json.key("gotos");
        add_targets(json, gotos.as_slice(), "rule");
        json.end_object();
    }
}

impl Checked<'_> {
    /// Adds the states of the graph, in their order, where they are asked for, as a member of an object.
    pub(crate) fn add_automaton(&self, json: &mut JsonText) {
        if !self.told.options.detail.states {
            return;
        }
        json.key("automaton");
        json.begin_object();
        json.key("states");
        json.begin_array();
        if let Some(graph) = &self.found.graph {
            let Ok(listing) = Listing::new(json.allocator(), self) else {
                return json.give_up();
            };
            for state in graph.iter_stidxs() {
                listing.add_state(json, graph, state);
            }
        }
        json.end_array();
        json.end_object();
    }
}
