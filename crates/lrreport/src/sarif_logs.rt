//! The log of SARIF around results: what it is, and the rules that these name.

use crate::json_texts::JsonText;
use std::alloc::{AllocError, Global};

/// What a result is about.
#[derive(Clone, Copy)]
pub(crate) enum Rule {
    ShiftReduce,
    ReduceReduce,
    Error,
    Warning,
    UselessPrecedence,
    UnusedToken,
    NeverReduced,
}

/// All of them.
const RULES: [Rule; 7] = [
    Rule::ShiftReduce,
    Rule::ReduceReduce,
    Rule::Error,
    Rule::Warning,
    Rule::UselessPrecedence,
    Rule::UnusedToken,
    Rule::NeverReduced,
];

impl Rule {
    /// Its name.
    pub(crate) fn id(self) -> &'static str {
        match self {
            Rule::ShiftReduce => "shift-reduce",
            Rule::ReduceReduce => "reduce-reduce",
            Rule::Error => "error",
            Rule::Warning => "warning",
            Rule::UselessPrecedence => "useless-precedence",
            Rule::UnusedToken => "unused-token",
            Rule::NeverReduced => "never-reduced",
        }
    }

    /// What it says.
    fn words(self) -> &'static str {
        match self {
            Rule::ShiftReduce => "A state can both shift and reduce at a token.",
            Rule::ReduceReduce => "A state can reduce by two productions at a token.",
            Rule::Error => "The file is no grammar.",
            Rule::Warning =>
                "A part of the grammar has no use, or not the one that it seems to have.",
            Rule::UselessPrecedence => "A precedence resolves nothing.",
            Rule::UnusedToken => "A token is in no rule, or in useless ones alone.",
            Rule::NeverReduced => "A production is never reduced, because of conflicts.",
        }
    }
}

/// What is told beside each of them.
const HELP: &str =
    "Without --sarif lrcheck shows the lines, all that is known of them, and what helps.";

/// Adds a text, as the value of a key.
pub(crate) fn add_message(json: &mut JsonText, key: &str, words: &str) {
    json.key(key);
    json.begin_object();
    json.string_at("text", words);
    json.end_object();
}

/// Adds the program and its rules, as a member of an object.
fn add_tool(json: &mut JsonText, version: &str) {
    json.key("tool");
    json.begin_object();
    json.key("driver");
    json.begin_object();
    json.string_at("name", "lrcheck");
    json.string_at("version", version);
    json.key("rules");
    json.begin_array();
    for rule in RULES {
        json.begin_object();
        json.string_at("id", rule.id());
        add_message(json, "shortDescription", rule.words());
        add_message(json, "fullDescription", rule.words());
        add_message(json, "help", HELP);
        json.end_object();
    }
    json.end_array();
    json.end_object();
    json.end_object();
}

/// What a log of a program of that version begins with, up to its results. These have commas between them.
pub fn sarif_head(alloc: Global, version: &str) -> Result<String, AllocError> {
    let mut json = JsonText::new(alloc);
    json.begin_object();
    json.string_at("$schema", "https://json.schemastore.org/sarif-2.1.0.json");
    json.string_at("version", "2.1.0");
    json.key("runs");
    json.begin_array();
    json.begin_object();
    add_tool(&mut json, version);
    json.string_at("columnKind", "utf16CodeUnits");
    json.key("results");
    json.begin_array();
    json.finish()
}

/// What it ends with, behind its results.
pub const SARIF_TAIL: &str = "]}]}\n";
