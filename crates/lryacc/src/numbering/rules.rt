//! The rules of the grammar of a file.

ghost use Rattle.std.specs.Prelude.{◌≡◌, true, [], Some, Contains, string_bytes, IfOk, OnOk, None};
ghost use Rattle.std.specs.BTreeMap.{get};
ghost use Rattle.lryacc.specs.ProductionPlaces.{parts_before_last};
ghost use Rattle.lryacc.specs.BodyProductions.{IsActionName};
ghost use Rattle.lryacc.specs.NamedSymbols.{NamesRule};
ghost use Rattle.lryacc.specs.Numbered.{AddsNumbers, HasItsRule, HasRule, HaveRules, names_of};

use crate::contents::{Alternative, BodyPart, Statement};
use crate::lexemes::Lexeme;
use crate::names::name_text;
use crate::numbering::Numbering;
use crate::places::Span;
use crate::symbols::Class;
use crate::values::used_values;
use std::alloc::AllocError;

/// The parts of a body before its last one.
pub(super) fn before_last(alternative: &Alternative) -> &[BodyPart]
    ensures { result.now ≡ parts_before_last alternative.now }
{
    match alternative.parts.as_slice() {
        [before @ .., _] => before,
        [] => &[],
    }
}

impl<'m, 'a> Numbering<'m, 'a> {
    /// Adds the rule of the symbol that a lexeme names, unless it is there.
    fn add_rule_of(&mut self, name: Lexeme, place: Span) -> Result<(), AllocError>
        requires { NamesRule (names_of self.old) name }
        ensures added { OnOk result (AddsNumbers self.old self.new) }
        ensures has { OnOk result (HasRule self.new name) }
    {
        let Some(symbol) = self.meaning.find(name) else {
            return Ok(());
        };
        if self.rules.contains_key(&symbol) {
            return Ok(());
        }
        let text = name_text(self.allocator(), self.meaning.symbols.name(name))?;
        let rule = self.grammar.add_rule(text, place)?;
        self.rules.insert(symbol, rule)?;
        Ok(())
    }

    /// Adds the rules that names before colons are, and those that actions before the ends of bodies are.
    #[tactic(auto, using(crate::proofs::Numbered::adds_again, crate::proofs::Numbered::adds_none))]
    pub(super) fn add_rules(&mut self) -> Result<(), AllocError>
        ensures { OnOk result (AddsNumbers self.old self.new) }
    {
        let contents = self.contents;
        for alternative in &contents.alternatives {
            self.add_rule_of(alternative.rule, alternative.rule.span)?;
            self.add_actions(alternative)?;
        }
        Ok(())
    }

    /// Adds the rules that the actions before the end of a body are.
    #[tactic(auto, using(crate::proofs::Numbered::adds_again, crate::proofs::Numbered::adds_none))]
    fn add_actions(&mut self, alternative: &Alternative) -> Result<(), AllocError>
        ensures { OnOk result (AddsNumbers self.old self.new) }
    {
        let used = used_values(
            self.allocator(),
            &self.meaning.symbols,
            alternative.parts.as_slice(),
        )?;
        for (at, part) in before_last(alternative).iter().enumerate() {
            if let BodyPart::Action(action, _) = part {
                self.add_action(*action, used.get(at) == Some(&true))?;
            }
        }
        Ok(())
    }

    /// The name of the rule that an action is. It begins with `@` where its value is used, and else with `$@`.
    fn action_name(&self, is_used: bool) -> Result<String, AllocError>
        ensures { IfOk result (λ name. IsActionName (string_bytes name)) }
    {
        let number = self.actions.len().saturating_add(1);
        if is_used {
            format!(in self.allocator(); "@{number}")
        } else {
            format!(in self.allocator(); "$@{number}")
        }
    }

    /// Adds the rule that an action is.
    fn add_action(&mut self, action: Lexeme, is_used: bool) -> Result<(), AllocError>
        ensures { OnOk result (AddsNumbers self.old self.new) }
    {
        let name = self.action_name(is_used)?;
        let rule = self.grammar.add_rule(name, action.span)?;
        self.actions.insert(action.span.start, rule)?;
        Ok(())
    }

    /// Adds the rules that have no body, of symbols that are declared rules, or start symbols.
    #[tactic(auto, using(crate::proofs::Numbered::adds_again, crate::proofs::Numbered::adds_none))]
    pub(super) fn add_bare_rules(&mut self) -> Result<(), AllocError>
        ensures added { OnOk result (AddsNumbers self.old self.new) }
        ensures have { OnOk result (HaveRules self.old.contents.now.statements.items self.new) }
    {
        let contents = self.contents;
        for statement in &contents.statements {
            self.add_bare(*statement)?;
        }
        Ok(())
    }

    /// Adds the rule that a declaration names, if it is one even where no colon stands behind it: one that is declared so, or a start
    /// symbol that is no token.
    #[tactic(auto, using(crate::proofs::Numbered::adds_none))]
    fn add_bare(&mut self, statement: Statement) -> Result<(), AllocError>
        requires { Contains self.old.contents.now.statements.items statement }
        ensures added { OnOk result (AddsNumbers self.old self.new) }
        ensures has { OnOk result (HasItsRule self.new statement) }
    {
        match statement {
            Statement::Rule(name) => {
                let place = match self.meaning.symbols.named(name) {
                    Some(symbol) => symbol.mention.span,
                    None => name.span,
                };
                self.add_rule_of(name, place)
            }
            Statement::Start(name) => match self.meaning.symbols.named(name) {
                Some(symbol) if symbol.class != Class::Token => {
                    self.add_rule_of(name, symbol.mention.span)
                }
                _ => Ok(()),
            },
            _ => Ok(()),
        }
    }
}
