//! Names, places and productions of a file, and its faults, as JSON.

use crate::json_texts::JsonText;
use crate::told::Told;
use lrdiagnostics::{Source, words_of};
use lrevidence::{body_of, symbol_name, token_name};
use lrgrammar::grammar::PartSymbol;
use lryacc::{Fault, FileGrammar, Span};

/// Adds the names of symbols.
pub(crate) fn add_symbols(json: &mut JsonText, file: &FileGrammar, symbols: &[PartSymbol]) {
    json.begin_array();
    for symbol in symbols {
        json.string(symbol_name(file, *symbol));
    }
    json.end_array();
}

/// Adds the names of tokens.
pub(crate) fn add_tokens(json: &mut JsonText, file: &FileGrammar, tokens: &[usize]) {
    json.begin_array();
    for token in tokens {
        json.string(token_name(file, *token));
    }
    json.end_array();
}

/// Adds where a place begins and ends, as members of an object.
pub(crate) fn add_place(json: &mut JsonText, source: &Source<'_>, place: Span) {
    let from = source.position(place.start);
    let to = source.position(place.end);
    json.number_at("line", from.line);
    json.number_at("column", from.column);
    json.number_at("end_line", to.line);
    json.number_at("end_column", to.column);
}

/// Adds faults, or warnings, of an array.
pub(crate) fn add_faults(json: &mut JsonText, source: &Source<'_>, faults: &[Fault]) {
    for fault in faults {
        let Ok(message) = words_of(json.allocator(), source, fault) else {
            return json.give_up();
        };
        json.begin_object();
        add_place(json, source, fault.span);
        json.string_at("message", message.as_str());
        json.end_object();
    }
}

impl Told<'_> {
    /// Adds a production, and where its body stands, as members of an object.
    pub(crate) fn add_members(&self, json: &mut JsonText, production: usize) {
        json.string_at("rule", self.rule_name(production));
        json.key("body");
        add_symbols(json, self.file, body_of(self.file, production));
        add_place(json, self.source, self.place(production));
    }

    /// Adds a production, and where its body stands.
    pub(crate) fn add_production(&self, json: &mut JsonText, production: usize) {
        json.begin_object();
        self.add_members(json, production);
        json.end_object();
    }

    /// Adds an item: a production, and how many of its symbols stand before the dot.
    pub(crate) fn add_item(&self, json: &mut JsonText, production: usize, dot: usize) {
        json.begin_object();
        self.add_members(json, production);
        json.number_at("dot", dot);
        json.end_object();
    }

    /// Adds items.
    pub(crate) fn add_items(&self, json: &mut JsonText, items: &[(usize, usize)]) {
        json.begin_array();
        for (production, dot) in items {
            self.add_item(json, *production, *dot);
        }
        json.end_array();
    }
}
