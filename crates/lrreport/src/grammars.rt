//! The grammar of a file, as it is told.

use crate::json_parts::add_symbols;
use crate::json_texts::JsonText;
use lrevidence::{rule_name, token_name};
use lrgrammar::grammar::{AssocKind, PartToken, Precedence};
use lryacc::FileGrammar;

/// How many productions the file has, without those of `$accept`.
pub(crate) fn productions_of_file(file: &FileGrammar) -> usize {
    let mut count: usize = 0;
    for prod in &file.parts.prods {
        if prod.rule > 0 {
            count = count.saturating_add(1);
        }
    }
    count
}

/// Whether a token is one of the file, and not one that stands below those of a `%precedence` line.
fn is_of_file(file: &FileGrammar, token: usize) -> bool {
    match file.parts.tokens.get(token) {
        Some(token) => match token.precedence {
            Some(precedence) => precedence.level % 2 == 0,
            None => true,
        },
        None => false,
    }
}

/// How many tokens the file has.
pub(crate) fn tokens_of_file(file: &FileGrammar) -> usize {
    let mut count: usize = 0;
    for token in 0..file.parts.tokens.len() {
        if is_of_file(file, token) {
            count = count.saturating_add(1);
        }
    }
    count
}

/// Whether the line of a level is one of `%precedence`: tokens stand below those of it.
fn is_precedence(file: &FileGrammar, level: u64) -> bool {
    for token in &file.parts.tokens {
        match token.precedence {
            Some(below) if below.level.checked_add(1) == Some(level) => return true,
            _ => {}
        }
    }
    false
}

/// Adds a token, with the word of its precedence line, without the mark of that. Levels are twice as many as in the file.
fn add_token(json: &mut JsonText, file: &FileGrammar, token: &PartToken) {
    let (level, kind) = match token.precedence {
        Some(Precedence { level, kind }) => {
            let word = match kind {
                AssocKind::Left => "left",
                AssocKind::Right => "right",
                AssocKind::Nonassoc if is_precedence(file, level) => "precedence",
                AssocKind::Nonassoc => "nonassoc",
            };
            (Some((level / 2) as usize), Some(word))
        }
        None => (None, None),
    };
    json.begin_object();
    json.string_at("name", token.name.as_str());
    json.key("level");
    json.number_or_null(level);
    json.key("kind");
    json.string_or_null(kind);
    json.end_object();
}

/// Adds the tokens of the file.
fn add_tokens_of_file(json: &mut JsonText, file: &FileGrammar) {
    json.begin_array();
    for (number, token) in file.parts.tokens.iter().enumerate() {
        if is_of_file(file, number) {
            add_token(json, file, token);
        }
    }
    json.end_array();
}

/// Adds the productions of the file, each with the token that it names for its precedence.
fn add_productions(json: &mut JsonText, file: &FileGrammar) {
    json.begin_array();
    for (number, prod) in file.parts.prods.iter().enumerate() {
        if prod.rule > 0 {
            let named = match file.named_precedence(number) {
                Some(named) => Some(token_name(file, named.token)),
                None => None,
            };
            json.begin_object();
            json.string_at("rule", rule_name(file, prod.rule));
            json.key("body");
            add_symbols(json, file, prod.symbols.as_slice());
            json.key("prec");
            json.string_or_null(named);
            json.end_object();
        }
    }
    json.end_array();
}

/// Adds the grammar of a file, without `$accept`.
pub(crate) fn add_grammar(json: &mut JsonText, file: &FileGrammar) {
    json.begin_object();
    json.key("tokens");
    add_tokens_of_file(json, file);
    json.key("rules");
    json.begin_array();
    for name in file.parts.rules.iter().skip(1) {
        json.string(name.as_str());
    }
    json.end_array();
    json.key("productions");
    add_productions(json, file);
    json.end_object();
}
