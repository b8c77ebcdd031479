//! What is told of a file.

ghost use Rattle.std.specs.Prelude.{◌≡◌, IfOk};
ghost use Rattle.std.specs.BTreeSet.{contains};
ghost use Rattle.std.specs.Ordering.{nat_cmp};
ghost use Rattle.lritems.specs.ItemsOf.{set_of};
ghost use Rattle.lrreport.specs.Conflicts.{is_token, items_before, symbol_behind};
ghost use Rattle.lrgrammar.specs.Symbols.{number_of};

use crate::options::Options;
use lrdiagnostics::{Layout, Mark, Source, Teller};
use lrevidence::{Evidence, Exactness, body_of, name_of_rule, token_name};
use lrfindings::{Entry, UselessPrecedences, precedence_token};
use lrgrammar::grammar::{PartProd, PartSymbol, Precedence};
use lrtable::itemset::Itemset;
use lrwriter::Text;
use lryacc::{FileGrammar, Parser, Span};
use std::alloc::{AllocError, Global};
use std::collections::BTreeSet;

/// A file's grammar, what is known of its conflicts, and how that is told.
#[derive(Clone, Copy)]
pub(crate) struct Told<'a> {
    pub(crate) source: &'a Source<'a>,
    pub(crate) file: &'a FileGrammar,
    /// Whether it is shown that no sentence has two trees although there are conflicts.
    pub(crate) is_unambiguous: bool,
    /// Whether the parser accepts every sentence, although something meets in cells of the table, as far as that is shown.
    pub(crate) exactness: Exactness,
    /// What is known of the conflicts that are left open.
    pub(crate) evidence: &'a [Evidence],
    /// What is known of what precedences resolve, where that is asked for; else nothing.
    pub(crate) resolved: &'a [Evidence],
    /// At which of both no sentence is lost, where that is shown, in the order of the file.
    pub(crate) kept: &'a [Entry],
    /// Which precedences resolve nothing, and which tokens are in no rule.
    pub(crate) useless: &'a UselessPrecedences,
    /// The productions by which no state reduces.
    pub(crate) unreduced: &'a [usize],
    pub(crate) options: Options,
    /// The parser for which the file is written.
    pub(crate) parser: &'a Parser,
}

impl<'a> Told<'a> {
    /// A production.
    pub(crate) fn production(&self, production: usize) -> Option<&'a PartProd> {
        self.file.parts.prods.get(production)
    }

    /// Where the body of a production stands.
    pub(crate) fn place(&self, production: usize) -> Span {
        let place = self.file.production_places.get(production);
        place.copied().unwrap_or(Span::new(0, 0))
    }

    /// Whether a production is one of `$accept`.
    pub(crate) fn is_start(&self, production: usize) -> bool {
        match self.production(production) {
            Some(prod) => prod.rule == 0,
            None => false,
        }
    }

    /// The name of a token.
    pub(crate) fn token_name(&self, token: usize) -> &'a str {
        token_name(self.file, token)
    }

    /// The name of the rule of a production.
    pub(crate) fn rule_name(&self, production: usize) -> &'a str {
        name_of_rule(self.file, production)
    }

    /// The precedence of a token.
    pub(crate) fn precedence(&self, token: usize) -> Option<Precedence> {
        self.file.parts.tokens.get(token)?.precedence
    }

    /// The token by which a production has its precedence.
    pub(crate) fn token_of(&self, production: usize) -> Option<usize> {
        precedence_token(self.production(production)?)
    }

    /// Whether the symbol behind the dot of an item is one of the tokens.
    fn is_before(&self, production: usize, dot: usize, tokens: &BTreeSet<usize>) -> bool
        ensures { result ≡ is_token (contains nat_cmp tokens.now)
            (symbol_behind self.now.file.now (production, dot)) }
    {
        match body_of(self.file, production).get(dot) {
            Some(PartSymbol::Token(token)) => tokens.contains(token),
            _ => false,
        }
    }

    /// The items of a closed state, as production and dot, behind whose dot one of the tokens stands.
    pub(crate) fn items_before(
        &self,
        alloc: Global,
        closed: &Itemset<u32>,
        tokens: &BTreeSet<usize>,
    ) -> Result<Vec<(usize, usize)>, AllocError>
        ensures { IfOk result (λ items. items.items ≡ items_before self.now.file.now
            (contains nat_cmp tokens.now) (set_of number_of closed.now)) }
    {
        let mut items = Vec::new(alloc);
        for key in closed.items.keys() {
            let (production, dot) = (usize::from(key.0), usize::from(key.1));
            if self.is_before(production, dot, tokens) {
                items.push((production, dot))?;
            }
        }
        Ok(items)
    }

    /// Where the symbol behind the dot of an item stands.
    pub(crate) fn symbol_place(&self, production: usize, dot: usize) -> Span {
        match self.file.symbol_places.get(production) {
            Some(places) if dot < places.len() => places[dot],
            _ => self.place(production),
        }
    }

    /// Where the places of the file are told.
    pub(crate) fn teller(&self) -> Teller<'a> {
        Teller {
            source: self.source,
            has_colours: self.options.lines.has_colours,
        }
    }

    /// Adds the lines of the file at marks, with what is said of each.
    pub(crate) fn add_placed(&self, text: &mut Text, marks: &[Mark]) {
        if self.teller().add_placed(text, marks).is_err() {
            text.give_up();
        }
    }

    /// How lines of words are made.
    pub(crate) fn layout(&self) -> Layout {
        Layout::new(self.options.lines.columns)
    }
}
