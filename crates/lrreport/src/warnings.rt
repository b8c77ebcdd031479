//! What a file is warned of: by its reading, of precedences that resolve nothing, of tokens that are in no rule, and of productions
//! that are never reduced.

use crate::json_parts::add_place;
use crate::json_texts::JsonText;
use crate::told::Told;
use lrdiagnostics::{Message, Weight, messages_of};
use lrwriter::Text;
use lryacc::{Fault, Span};
use std::alloc::{AllocError, Global};

/// Where a message stands among others: by its first place.
fn place_of(message: &Message) -> usize {
    match message.places.first() {
        Some(place) => place.start,
        None => 0,
    }
}

impl<'a> Told<'a> {
    /// The tokens whose places in precedence lines resolve nothing.
    fn useless_levels(&self) -> &'a [usize] {
        if self.options.ignores_precedences {
            &[]
        } else {
            self.useless.levels.as_slice()
        }
    }

    /// The productions whose `%prec` resolves nothing.
    fn useless_productions(&self) -> &'a [usize] {
        if self.options.ignores_precedences {
            &[]
        } else {
            self.useless.productions.as_slice()
        }
    }

    /// The level of a token.
    fn level(&self, token: usize) -> Option<u64> {
        Some(self.precedence(token)?.level)
    }

    /// Adds a message for each precedence line with tokens that resolve nothing.
    fn add_useless_lines(&self, messages: &mut Vec<Message>) -> Result<(), AllocError> {
        let alloc = *messages.allocator();
        let mut before = None;
        for token in self.useless_levels() {
            let level = self.level(*token);
            if before != Some(level) {
                before = Some(level);
                messages.push(Message {
                    words: String::from_str(alloc, "useless precedence: it resolves nothing")?,
                    places: Vec::new(alloc),
                })?;
            }
            if let Some(place) = self.file.level_place(*token) {
                if let Some(message) = messages.last_mut() {
                    message.places.push(place)?;
                }
            }
        }
        Ok(())
    }

    /// Adds messages of the precedences that resolve nothing: one for each line, and one of the `%prec` of which no fault is told.
    pub(crate) fn add_useless(
        &self,
        messages: &mut Vec<Message>,
        faults: &[Fault],
    ) -> Result<(), AllocError> {
        self.add_useless_lines(messages)?;
        let mut places = Vec::new(*messages.allocator());
        for production in self.useless_productions() {
            let Some(named) = self.file.named_precedence(*production) else {
                continue;
            };
            let place = named.place;
            if faults
                .binary_search_by_key(&place.start, |fault| fault.span.start)
                .is_err()
            {
                places.push(place)?;
            }
        }
        add_message(
            messages,
            places,
            "useless %prec: it resolves nothing",
            "useless %prec: they resolve nothing",
        )
    }

    /// Where the unused tokens are declared that are in useless rules, or those that are not.
    fn unused_places(&self, alloc: Global, is_in_useless: bool) -> Result<Vec<Span>, AllocError> {
        let mut places = Vec::new(alloc);
        for token in &self.useless.tokens {
            if self.file.is_in_useless(*token) == is_in_useless {
                if let Some(place) = self.file.declared_place(*token) {
                    places.push(place)?;
                }
            }
        }
        Ok(places)
    }

    /// Adds a message of the tokens that are in no rule, and one of those that are in useless rules alone.
    pub(crate) fn add_unused(&self, messages: &mut Vec<Message>) -> Result<(), AllocError> {
        let alloc = *messages.allocator();
        add_message(
            messages,
            self.unused_places(alloc, false)?,
            "a token is in no rule",
            "tokens are in no rule",
        )?;
        add_message(
            messages,
            self.unused_places(alloc, true)?,
            "a token is in useless rules alone",
            "tokens are in useless rules alone",
        )
    }

    /// The productions that are never reduced. A parser that splits at conflicts reduces by each of them.
    fn unreduced(&self) -> &'a [usize] {
        if self.parser.splits() {
            &[]
        } else {
            self.unreduced
        }
    }

    /// Adds a message of the productions that are never reduced.
    pub(crate) fn add_unreduced(&self, messages: &mut Vec<Message>) -> Result<(), AllocError> {
        let mut places = Vec::new(*messages.allocator());
        for production in self.unreduced() {
            places.push(self.place(*production))?;
        }
        add_message(
            messages,
            places,
            "a production is never reduced, because of conflicts",
            "productions are never reduced, because of conflicts",
        )
    }

    /// What the file is warned of, in its order.
    pub(crate) fn warnings(
        &self,
        alloc: Global,
        faults: &[Fault],
    ) -> Result<Vec<Message>, AllocError> {
        let mut messages = messages_of(alloc, self.source, faults)?;
        self.add_unused(&mut messages)?;
        self.add_useless(&mut messages, faults)?;
        self.add_unreduced(&mut messages)?;
        messages.sort_by_key(place_of)?;
        Ok(messages)
    }

    /// Adds what the file is warned of: the first warnings, so many at the most, and how many there are besides.
    pub(crate) fn push_warnings(&self, text: &mut Text, faults: &[Fault], most: usize) {
        let Ok(messages) = self.warnings(text.allocator(), faults) else {
            return text.give_up();
        };
        let messages = messages.as_slice();
        if !self.options.detail.all {
            self.push_warning_lines(text, messages, most);
        } else if self
            .teller()
            .add_messages(text, messages, Weight::Warning, most)
            .is_err()
        {
            text.give_up();
        }
        if !messages.is_empty() {
            text.add_char('\n');
        }
    }

    /// Adds a precedence that resolves nothing: what it is one of, its token, and its place.
    fn add_useless_one(&self, json: &mut JsonText, kind: &str, token: usize, place: Span) {
        json.begin_object();
        json.string_at("kind", kind);
        json.string_at("token", self.token_name(token));
        add_place(json, self.source, place);
        json.end_object();
    }

    /// Adds the precedences that resolve nothing: tokens of precedence lines, and then those behind `%prec`.
    pub(crate) fn add_useless_precedences(&self, json: &mut JsonText) {
        json.begin_array();
        for token in self.useless_levels() {
            if let Some(place) = self.file.level_place(*token) {
                self.add_useless_one(json, "level", *token, place);
            }
        }
        for production in self.useless_productions() {
            if let Some(named) = self.file.named_precedence(*production) {
                self.add_useless_one(json, "prec", named.token, named.place);
            }
        }
        json.end_array();
    }

    /// Adds the productions that are never reduced.
    pub(crate) fn add_unreduced_productions(&self, json: &mut JsonText) {
        json.begin_array();
        for production in self.unreduced() {
            self.add_production(json, *production);
        }
        json.end_array();
    }

    /// Adds the tokens that are in no rule, or in useless ones alone, each with the place of its declaration.
    pub(crate) fn add_unused_tokens(&self, json: &mut JsonText) {
        json.begin_array();
        for token in &self.useless.tokens {
            if let Some(place) = self.file.declared_place(*token) {
                json.begin_object();
                json.string_at("name", self.token_name(*token));
                add_place(json, self.source, place);
                json.boolean_at("in_useless_rule", self.file.is_in_useless(*token));
                json.end_object();
            }
        }
        json.end_array();
    }
}

/// Adds a message of places, if there are some: with these words where there is one, and else with how many there are.
fn add_message(
    messages: &mut Vec<Message>,
    places: Vec<Span>,
    of_one: &str,
    of_many: &str,
) -> Result<(), AllocError> {
    let alloc = *messages.allocator();
    let words = match places.len() {
        0 => return Ok(()),
        1 => String::from_str(alloc, of_one)?,
        count => format!(in alloc; "{count} {of_many}")?,
    };
    messages.push(Message { words, places })?;
    Ok(())
}
