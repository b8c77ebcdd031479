//! What is known of conflicts, as JSON.

ghost use Rattle.std.specs.Prelude.{All, IfSome};
ghost use Rattle.lrevidence.specs.Ambiguities.{HasTwoTrees};
ghost use Rattle.lrevidence.specs.Losses.{IsLoss};
ghost use Rattle.lrevidence.specs.DecidedEntries.{IsToldDecided};

use crate::conflicts::{Checked, are_decided, tokens_of_each};
use crate::json_parts::{add_symbols, add_tokens};
use crate::json_texts::JsonText;
use crate::told::Told;
use crate::trees::add_tree;
use lrevidence::{
    Ambiguity, Evidence, Loss, Node, Outlook, Step, Tree, TwoTrees, list_of, symbol_name, text_of,
};
use lrfindings::Entry;

impl Told<'_> {
    /// Adds the tokens of a text, if there is one.
    fn add_text(&self, json: &mut JsonText, tokens: Option<&Vec<usize>>) {
        match tokens {
            Some(tokens) => add_tokens(json, self.file, text_of(self.file, tokens.as_slice())),
            None => json.null(),
        }
    }

    /// Adds how a text goes on, where that is known.
    fn add_outlook(&self, json: &mut JsonText, outlook: Option<&Outlook>) {
        let Some(outlook) = outlook else {
            return json.null();
        };
        json.begin_object();
        json.key("derivation");
        self.add_items(json, outlook.items.as_slice());
        json.key("rest");
        self.add_text(json, outlook.rest.as_ref());
        json.end_object();
    }

    /// Adds after what an entry is real, where that is known.
    pub(crate) fn add_example(&self, json: &mut JsonText, evidence: &Evidence) {
        let Some(example) = &evidence.example else {
            return json.null();
        };
        json.begin_object();
        json.key("list");
        add_symbols(json, self.file, list_of(self.file, example.list.as_slice()));
        json.string_at("token", self.token_name(example.token));
        json.key("input");
        self.add_text(json, example.input.as_ref());
        json.key("reduce");
        self.add_outlook(json, example.one.as_ref());
        json.key("other");
        self.add_outlook(json, example.other.as_ref());
        json.end_object();
    }

    /// Adds both trees of a text or a form, that by the reduction first.
    fn add_trees(&self, json: &mut JsonText, trees: (&Tree, &Tree), alternatives: &[usize]) {
        json.key("trees");
        json.begin_array();
        add_tree(json, self.file, alternatives, trees.0);
        add_tree(json, self.file, alternatives, trees.1);
        json.end_array();
    }

    /// Adds the tokens of a text, how many stand before the dot, and both trees; nothing of them where it is long.
    fn add_whole(&self, json: &mut JsonText, ambiguity: &Ambiguity, alternatives: &[usize]) {
        if ambiguity.is_long() {
            for name in ["text", "dot", "trees"] {
                json.key(name);
                json.null();
            }
            return;
        }
        let Ok((one, other)) = Tree::both(json.allocator(), self.file, &ambiguity.trees) else {
            return json.give_up();
        };
        json.key("text");
        self.add_text(json, Some(&ambiguity.tokens));
        json.number_at("dot", ambiguity.dot(self.file));
        self.add_trees(json, (&one, &other), alternatives);
    }

    /// Adds that part of a text in which its trees differ: its symbols, how many stand before the dot, and both trees.
    fn add_form(&self, json: &mut JsonText, form: &TwoTrees, alternatives: &[usize]) {
        let Ok((one, other)) = Tree::both(json.allocator(), self.file, form) else {
            return json.give_up();
        };
        json.begin_object();
        json.key("symbols");
        json.begin_array();
        for node in &one.nodes {
            if let Node::Leaf(symbol) = node {
                json.string(symbol_name(self.file, *symbol));
            }
        }
        json.end_array();
        json.number_at("dot", form.dot());
        self.add_trees(json, (&one, &other), alternatives);
        json.end_object();
    }
}

impl Checked<'_> {
    /// Adds a sentence that the parser rejects: its tokens, and how many of them stand before the conflict's, and before the one
    /// at which it stops. Null where there is none.
    pub(crate) fn add_loss(&self, json: &mut JsonText, loss: Option<&Loss>)
        requires proved { IfSome loss (λ l.
            IsLoss self.now.found.now.grm self.now.found.now.table l.now) }
    {
        let Some(loss) = loss else {
            return json.null();
        };
        json.begin_object();
        json.key("text");
        self.told.add_text(json, Some(&loss.tokens));
        json.number_at("dot", loss.shown_dot(self.told.file));
        json.number_at("stop", loss.shown_stop(self.told.file));
        json.end_object();
    }

    /// Adds whether no sentence has two trees that part at the entries: how many tokens decide each of them, or that it is so where
    /// that isn't known. Null where neither is.
    pub(crate) fn add_decided(&self, json: &mut JsonText, meeting: &[Evidence])
        requires proved { All (IsToldDecided self.now.found.now.grm self.now.found.now.graph)
            meeting.now }
    {
        json.key("decided");
        match tokens_of_each(meeting) {
            Some(tokens) => json.number(tokens),
            None if are_decided(meeting) => json.boolean(true),
            None => json.null(),
        }
    }

    /// Adds a sentence with two trees at an entry: the rule whose two ways they are, the text, whether the trees part by what meets in
    /// the entry, how many tokens the text has, and, where it is too long to be told, its form. Null where there is none.
    pub(crate) fn add_ambiguity(
        &self,
        json: &mut JsonText,
        entry: &Entry,
        ambiguity: Option<&Ambiguity>,
        alternatives: &[usize],
    )
        requires proved { IfSome ambiguity (λ a. HasTwoTrees self.now.found.now.grm a.now) }
    {
        let told = &self.told;
        let Some(ambiguity) = ambiguity else {
            return json.null();
        };
        let rule = match ambiguity.form.one.last() {
            Some(Step::Reduce(production)) => told.rule_name(*production),
            _ => "",
        };
        json.begin_object();
        json.string_at("rule", rule);
        told.add_whole(json, ambiguity, alternatives);
        json.boolean_at("own", ambiguity.is_of(entry));
        json.number_at(
            "length",
            text_of(told.file, ambiguity.tokens.as_slice()).len(),
        );
        json.key("form");
        if ambiguity.is_long() {
            told.add_form(json, &ambiguity.form, alternatives);
        } else {
            json.null();
        }
        json.end_object();
    }
}
