//! The grammar of a file, as data for the script.

use crate::pages::Page;
use crate::symbols::number_of;
use lrdiagnostics::add_escaped_name;
use lrgrammar::grammar::{AssocKind, PartSymbol, PartToken};
use lrshown::{body_of, rule_name};
use lrwriter::Text;
use lryacc::FileGrammar;

/// The level of a token, which is even for those of the file; one below stand such as have no name in it.
fn level_of(token: &PartToken) -> u64 {
    token.precedence.map_or(0, |precedence| precedence.level)
}

/// Whether a token is one of the file.
pub(crate) fn is_of_file(token: &PartToken) -> bool {
    level_of(token) % 2 == 0
}

/// The word of the precedence line of a level.
fn line_word(file: &FileGrammar, level: u64, kind: AssocKind) -> &'static str {
    let mut tokens = file.parts.tokens.iter();
    match kind {
        AssocKind::Left => "%left",
        AssocKind::Right => "%right",
        AssocKind::Nonassoc if tokens.any(|token| level_of(token).checked_add(1) == Some(level)) =>
            { "%precedence" }
        AssocKind::Nonassoc => "%nonassoc",
    }
}

impl Page<'_> {
    /// Adds a token: its name, and what else is said of it: its level, or that it is none of the file. Levels are twice as many
    /// as in the file.
    fn add_token_line(&self, page: &mut Text, token: &PartToken) {
        add_escaped_name(page, token.name.as_str());
        if !is_of_file(token) {
            page.add("\t-");
        } else if let Some(precedence) = token.precedence {
            let word = line_word(self.file, precedence.level, precedence.kind);
            let level = precedence.level / 2;
            write!(page, "\t{word}, level {level}");
        }
        page.add_char('\n');
    }

    /// Adds a rule: its name, and its line in the file, where it has one.
    fn add_rule_line(&self, page: &mut Text, rule: usize) {
        add_escaped_name(page, rule_name(self.file, rule));
        if let (Some(place), true) = (self.file.rule_places.get(rule), rule > 0) {
            let line = self.source.line(place.start);
            write!(page, "\t{line}");
        }
        page.add_char('\n');
    }

    /// Adds a production: the numbers of its rule and of its symbols, and that of the token behind `%prec`, where there is one.
    fn add_production_line(&self, page: &mut Text, production: usize) {
        let rule = number_of(PartSymbol::Rule(self.rule_of(production)));
        write!(page, "{rule}");
        for symbol in body_of(self.file, production) {
            let number = number_of(*symbol);
            write!(page, " {number}");
        }
        if let Some(named) = self.file.named_precedence(production) {
            let token = named.token;
            write!(page, "\t{token}");
        }
        page.add_char('\n');
    }

    /// Adds the tokens, the rules and the productions: a line each.
    pub(crate) fn add_grammar(&self, page: &mut Text) {
        let parts = &self.file.parts;
        page.add("<section id=\"grammar\"><h2>Grammar</h2></section>\n");
        page.add("<pre id=\"tokens\" hidden>\n");
        for token in &parts.tokens {
            self.add_token_line(page, token);
        }
        page.add("</pre>\n<pre id=\"rules\" hidden>\n");
        for rule in 0..parts.rules.len() {
            self.add_rule_line(page, rule);
        }
        page.add("</pre>\n<pre id=\"productions\" hidden>\n");
        for production in 0..parts.prods.len() {
            self.add_production_line(page, production);
        }
        page.add("</pre>\n");
    }
}
