//! Symbols and productions of a file.

use crate::pages::Page;
use lrdiagnostics::add_escaped_name;
use lrgrammar::grammar::PartSymbol;
use lrshown::{body_of, rule_name, token_name};
use lrwriter::Text;

/// The dot of a text or an item.
pub(crate) const DOT: &str = "<b class=\"dot\">&bull;</b>";

/// The number of a symbol for the script: tokens have even ones, rules odd ones.
pub(crate) fn number_of(symbol: PartSymbol) -> usize {
    match symbol {
        PartSymbol::Token(token) => token.saturating_mul(2),
        PartSymbol::Rule(rule) => rule.saturating_mul(2).saturating_add(1),
    }
}

impl Page<'_> {
    /// Adds the name of a token.
    pub(crate) fn add_token(&self, page: &mut Text, token: usize) {
        add_escaped_name(page, token_name(self.file, token));
    }

    /// Adds the name of a rule, which leads to it.
    pub(crate) fn add_rule(&self, page: &mut Text, rule: usize) {
        write!(page, "<a href=\"#r{rule}\">");
        add_escaped_name(page, rule_name(self.file, rule));
        page.add("</a>");
    }

    /// Adds the name of a symbol.
    pub(crate) fn add_symbol(&self, page: &mut Text, symbol: PartSymbol) {
        match symbol {
            PartSymbol::Rule(rule) => self.add_rule(page, rule),
            PartSymbol::Token(token) => self.add_token(page, token),
        }
    }

    /// The rule of a production.
    pub(crate) fn rule_of(&self, production: usize) -> usize {
        match self.file.parts.prods.get(production) {
            Some(prod) => prod.rule,
            None => 0,
        }
    }

    /// Adds the body of a production, perhaps with a dot before one of its symbols or behind all.
    pub(crate) fn add_body(&self, page: &mut Text, production: usize, dot: Option<usize>) {
        let body = body_of(self.file, production);
        let mut gap = "";
        for (place, symbol) in body.iter().enumerate() {
            page.add(gap);
            if dot == Some(place) {
                page.add(DOT);
                page.add_char(' ');
            }
            self.add_symbol(page, *symbol);
            gap = " ";
        }
        match dot {
            Some(dot) if body.len() <= dot => {
                page.add(gap);
                page.add(DOT);
            }
            None if body.is_empty() => page.add("<span class=\"soft\">%empty</span>"),
            _ => {}
        }
    }
}
