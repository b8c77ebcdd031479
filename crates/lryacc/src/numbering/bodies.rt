//! The productions of bodies, and of the actions before their ends.

ghost use Rattle.std.specs.Prelude.{◌≡◌, ◌+◌, [], ◌∷◌, ◌++◌, Some, flat_map, map, IfOk, OnOk, None};
ghost use Rattle.lryacc.specs.ProductionPlaces.{Adds, action_place, action_places, body_places, part_place, parts_before_last};
ghost use Rattle.lryacc.specs.BodyProductions.{AddsProductions, AreOfActions, AreOfBodies, AreOfBody};
ghost use Rattle.lryacc.specs.BodyProductions.{AreRelated, IsOfPart, IsOfPartBefore, IsRuleOfAction, symbol_parts};
ghost use Rattle.lryacc.specs.NamedSymbols.{IsNamed};
ghost use Rattle.lryacc.specs.Numbered.{IsLevelled, IsNumbered, names_of};

use crate::contents::{Alternative, BodyPart};
use crate::lexemes::Lexeme;
use crate::numbering::rules::before_last;
use crate::numbering::{NoProductions, Numbering};
use crate::places::Span;
use crate::productions::Productions;
use lrgrammar::grammar::{PartProd, PartSymbol};
use std::alloc::{AllocError, Global};

/// The symbols of a body, and their places.
#[derive(Drop)]
struct PlacedSymbols {
    symbols: Vec<PartSymbol>,
    places: Vec<Span>,
}

impl PlacedSymbols {
    /// No symbol.
    fn new(alloc: Global) -> PlacedSymbols
        ensures symbols { result.symbols.items ≡ [] }
        ensures places { result.places.items ≡ [] }
    {
        PlacedSymbols {
            symbols: Vec::new(alloc),
            places: Vec::new(alloc),
        }
    }

    /// Adds a symbol that stands at a place.
    fn add(&mut self, symbol: PartSymbol, place: Span) -> Result<(), AllocError>
        ensures symbols { OnOk result (self.new.symbols.items
            ≡ self.old.symbols.items ++ symbol ∷ []) }
        ensures places { OnOk result (self.new.places.items
            ≡ self.old.places.items ++ place ∷ []) }
    {
        self.symbols.push(symbol)?;
        self.places.push(place)?;
        Ok(())
    }
}

/// The parts of a body that are symbols of its production: all but an action at its end.
fn with_symbols(alternative: &Alternative) -> &[BodyPart]
    ensures { result.now ≡ symbol_parts alternative.now }
{
    match alternative.parts.as_slice() {
        [before @ .., BodyPart::Action(..)] => before,
        parts => parts,
    }
}

impl<'m, 'a> Numbering<'m, 'a> {
    /// The rule before a colon.
    fn rule_of(&self, name: Lexeme) -> Result<usize, NoProductions>
        requires { IsNumbered self.now }
        ensures { IfOk result (λ rule. IsNamed (names_of self.now) name (PartSymbol.Rule rule)) }
    {
        match self.symbol(name) {
            Some(PartSymbol::Rule(rule)) => Ok(rule),
            _ => Err(NoProductions::Undefined(name.span)),
        }
    }

    /// The rule that an action before the end of a body is.
    fn rule_of_action(&self, action: Lexeme) -> Result<usize, NoProductions>
        requires { IsNumbered self.now }
        ensures { IfOk result (IsRuleOfAction (names_of self.now) action) }
    {
        match self.actions.get(&action.span.start) {
            Some(rule) => Ok(*rule),
            None => Err(NoProductions::Undefined(action.span)),
        }
    }

    /// Adds the empty productions of the rules that the actions before the end of a body are.
    fn add_empty_productions(
        &self,
        productions: &mut Productions,
        alternative: &Alternative,
    ) -> Result<(), NoProductions>
        requires { IsNumbered self.now }
        ensures places { OnOk result (Adds productions.old productions.new
            (action_places (parts_before_last alternative.now))) }
        ensures added { OnOk result (AddsProductions productions.old productions.new
            (AreOfActions (names_of self.now) (parts_before_last alternative.now))) }
    {
        for part in before_last(alternative) {
            self.add_part(productions, *part)?;
        }
        Ok(())
    }

    /// Adds the empty production of the rule that a part before the end of a body is, if that is an action.
    #[tactic(auto, using(crate::proofs::ProductionsAdded::none_added, crate::proofs::ProductionsAdded::one_added))]
    fn add_part(&self, productions: &mut Productions, part: BodyPart) -> Result<(), NoProductions>
        requires { IsNumbered self.now }
        ensures places { OnOk result (Adds productions.old productions.new (action_place part)) }
        ensures added { OnOk result (AddsProductions productions.old productions.new
            (IsOfPartBefore (names_of self.now) part)) }
    {
        let BodyPart::Action(action, _) = part else {
            return Ok(());
        };
        let alloc = self.allocator();
        let prod = PartProd {
            rule: self.rule_of_action(action)?,
            symbols: Vec::new(alloc),
            precedence: None,
        };
        productions.add(prod, action.span, Vec::new(alloc))?;
        Ok(())
    }

    /// The symbol that a part of a body is.
    pub(super) fn symbol_of(&self, part: BodyPart) -> Result<PartSymbol, NoProductions>
        requires { IsNumbered self.now }
        ensures { IfOk result (IsOfPart (names_of self.now) part) }
    {
        match part {
            BodyPart::Symbol(name) => match self.symbol(name) {
                Some(symbol) => Ok(symbol),
                None => Err(NoProductions::Undefined(name.span)),
            },
            BodyPart::Action(action, _) => Ok(PartSymbol::Rule(self.rule_of_action(action)?)),
        }
    }

    /// The symbols of a body, and their places.
    fn body(&self, alternative: &Alternative) -> Result<PlacedSymbols, NoProductions>
        requires { IsNumbered self.now }
        ensures symbols { IfOk result (λ body. AreRelated (IsOfPart (names_of self.now))
            (symbol_parts alternative.now) body.symbols.items) }
        ensures places { IfOk result (λ body.
            body.places.items ≡ map part_place (symbol_parts alternative.now)) }
    {
        let mut body = PlacedSymbols::new(self.allocator());
        for part in with_symbols(alternative) {
            body.add(self.symbol_of(*part)?, part.span())?;
        }
        Ok(body)
    }

    /// Adds the productions of a body: those of the actions before its end, and then its own.
    fn add_alternative(
        &self,
        productions: &mut Productions,
        alternative: &Alternative,
    ) -> Result<(), NoProductions>
        requires numbered { IsNumbered self.now }
        requires levelled { IsLevelled self.now }
        ensures places { OnOk result (Adds productions.old productions.new
            (body_places alternative.now)) }
        ensures added { OnOk result (AddsProductions productions.old productions.new
            (AreOfBody (names_of self.now) alternative.now)) }
    {
        self.add_empty_productions(productions, alternative)?;
        let PlacedSymbols { symbols, places } = self.body(alternative)?;
        let prod = PartProd {
            rule: self.rule_of(alternative.rule)?,
            symbols,
            precedence: self.named_precedence(alternative)?,
        };
        productions.add(prod, alternative.span, places)?;
        Ok(())
    }

    /// Adds the productions of bodies.
    pub(super) fn add_alternatives(
        &self,
        productions: &mut Productions,
        alternatives: &[Alternative],
    ) -> Result<(), NoProductions>
        requires numbered { IsNumbered self.now }
        requires levelled { IsLevelled self.now }
        ensures places { OnOk result (Adds productions.old productions.new
            (flat_map body_places alternatives.now)) }
        ensures added { OnOk result (AddsProductions productions.old productions.new
            (AreOfBodies (names_of self.now) alternatives.now)) }
    {
        for alternative in alternatives {
            self.add_alternative(productions, alternative)?;
        }
        Ok(())
    }
}
