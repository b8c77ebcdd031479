//! Declarations and rules of a file of grmtools.

ghost use Rattle.std.specs.Prelude.{◌≡◌, ◌<◌, ◌≤◌, true, IfErr, IfOk, OnOk, slice_get, vec_len};
ghost use Rattle.lryacc.specs.AllBodies.{ReadsBodies};
ghost use Rattle.lryacc.specs.Bodies.{GoesOn, IsSameFile, IsTold, PassesNoDelimiter, ReadsOn, Stays};
ghost use Rattle.lryacc.specs.Bodies.{delimiters_read, is_action};
ghost use Rattle.lryacc.specs.DeclarationsRead.{StatesDeclared, form_here, is_silent, stated};
ghost use Rattle.lryacc.specs.Delimiters.{delimiter_of};

use crate::contents::Statement;
use crate::declarations::Said;
use crate::dialects::Dialect;
use crate::directives::Form;
use crate::faults::{FaultKind, Halt, Wanted};
use crate::lexemes::{Lexeme, LexemeKind};
use crate::places::bytes;
use crate::reader::Reader;
use crate::rules::Body;

impl<'a> Reader<'a> {
    /// Passes over the section `%grmtools{ .. }`, which holds settings.
    pub(crate) fn header(&mut self) -> Result<(), Halt>
        ensures over { PassesNoDelimiter self.old self.new }
        ensures told { IfErr result (λ halt. IsTold halt self.new) }
        ensures said { OnOk result (StatesDeclared self.old self.new) }
    {
        let Some(first) = self.here() else {
            return Ok(());
        };
        let is_header = bytes(self.text, first.span) == b"%grmtools".as_slice();
        if !is_header {
            return Ok(());
        }
        if !self.skip(LexemeKind::Directive) {
            return Ok(());
        }
        self.want_unless_broken(LexemeKind::Action, Wanted::Code)
    }

    /// Takes the next lexeme, which is to be of that kind, or to be missing at the end of a file that has faults already: one of
    /// them may be that code never ends.
    fn want_unless_broken(&mut self, kind: LexemeKind, wanted: Wanted) -> Result<(), Halt>
        requires other { delimiter_of kind ≡ 0 }
        requires silent { is_silent kind ≡ true }
        ensures over { PassesNoDelimiter self.old self.new }
        ensures told { IfErr result (λ halt. IsTold halt self.new) }
        ensures said { OnOk result (StatesDeclared self.old self.new) }
    {
        if self.here().is_some() || self.is_whole() {
            self.pass_wanted(kind, wanted)
        } else {
            Ok(())
        }
    }

    /// Reads a declaration.
    pub(crate) fn grmtools_declaration(&mut self) -> Result<(), Halt>
        ensures file { IsSameFile self.old self.new }
        ensures told { IfErr result (λ halt. IsTold halt self.new) }
        ensures over { OnOk result (PassesNoDelimiter self.old self.new) }
        ensures said { OnOk result (delimiters_read self.old ≡ 0
            → StatesDeclared self.old self.new) }
    {
        let Some(directive) = self.take(LexemeKind::Directive) else {
            let halt = self.wants(Wanted::Declaration);
            self.pass();
            return Err(halt);
        };
        match self.form(directive) {
            Some(Form::TokenNames) => self.said(Said::Token),
            Some(Form::PassedOver) => self.said(Said::PassedOver),
            Some(Form::Level(kind)) => {
                self.state(Statement::Level(kind))?;
                self.said(Said::InLevel)
            }
            Some(Form::NotInRules) => self.said(Said::NotInRules),
            Some(Form::ShownText) => self.shown_text(),
            Some(Form::Starts) => {
                self.once(directive)?;
                let name = self.want(LexemeKind::Name, Wanted::Name)?;
                self.state(Statement::Start(name))?;
                Ok(())
            }
            Some(Form::ShiftReduce) => {
                self.once(directive)?;
                self.expected(true)
            }
            Some(Form::ReduceReduce) => {
                self.once(directive)?;
                self.expected(false)
            }
            _ => {
                let kind = FaultKind::UnknownDirective(Dialect::Grmtools);
                Err(self.fault(kind, directive.span))
            }
        }
    }

    /// Reads the token behind `%epp`, and the text by which messages tell it.
    fn shown_text(&mut self) -> Result<(), Halt>
        requires { form_here self.old ≡ Form.Nothing }
        ensures over { PassesNoDelimiter self.old self.new }
        ensures told { IfErr result (λ halt. IsTold halt self.new) }
        ensures said { OnOk result (StatesDeclared self.old self.new) }
    {
        let token = self.want_symbol()?;
        self.state(Statement::Mention(token))?;
        if self.skip(LexemeKind::QuotedName) {
            return Ok(());
        }
        self.pass_wanted(LexemeKind::QuotedText, Wanted::Quoted)
    }

    /// Whether the same directive stands before.
    fn is_second(&self, directive: Lexeme) -> bool {
        for lexeme in self.lexemes {
            if lexeme.span.start >= directive.span.start {
                break;
            }
            let is_directive = lexeme.kind == LexemeKind::Directive;
            if is_directive && bytes(self.text, lexeme.span) == bytes(self.text, directive.span) {
                return true;
            }
        }
        false
    }

    /// Stops at a directive that may stand in a file once, if the same one stands before.
    fn once(&mut self, directive: Lexeme) -> Result<(), Halt>
        ensures stays { Stays self.old self.new }
        ensures told { IfErr result (λ halt. IsTold halt self.new) }
        ensures statements { self.new.contents.statements ≡ self.old.contents.statements }
    {
        if self.is_second(directive) {
            return Err(self.fault(FaultKind::SecondDirective, directive.span));
        }
        Ok(())
    }

    /// Reads a rule: its name, perhaps its type, and its bodies up to `;`.
    pub(crate) fn grmtools_rule(&mut self) -> Result<(), Halt>
        ensures faults { vec_len self.old.contents.faults ≤ vec_len self.new.contents.faults }
        ensures told { IfErr result (λ halt. IsTold halt self.new) }
        ensures read { OnOk result (ReadsBodies 1 self.old self.new) }
        ensures said { OnOk result (StatesDeclared self.old self.new) }
    {
        let name = self.want(LexemeKind::RuleName, Wanted::Rule)?;
        let _ = self.skip(LexemeKind::RuleType);
        let colon = self.want(LexemeKind::Colon, Wanted::Colon)?;
        self.state(Statement::LeftSide(name))?;
        self.alternatives(name, colon)?;
        self.want_unless_broken(LexemeKind::Semicolon, Wanted::Semicolon)
    }

    /// Stops behind a name, and perhaps a type, behind which no colon stands.
    pub(crate) fn name_without_colon(&mut self) -> Result<(), Halt>
        ensures file { IsSameFile self.old self.new }
        ensures told { IfErr result (λ halt. IsTold halt self.new) }
        ensures stops { OnOk result ⊥ }
    {
        self.pass();
        let _ = self.skip(LexemeKind::RuleType);
        Err(self.wants(Wanted::Colon))
    }

    /// Reads a symbol or an action of a body; false where the body ends before the lexeme. A name in quotes is a token.
    pub(crate) fn grmtools_part(&mut self, body: &mut Body, lexeme: Lexeme) -> Result<bool, Halt>
        requires here { slice_get self.old.lexemes.now self.old.at ≡ Some lexeme }
        requires small { self.old.at < usize.MAX }
        ensures file { IsSameFile self.old self.new }
        ensures told { IfErr result (λ halt. IsTold halt self.new) }
        ensures read { IfOk result (GoesOn self.old self.new body.old body.new) }
        ensures kept { OnOk result (stated self.new ≡ stated self.old) }
    {
        match lexeme.kind {
            LexemeKind::Name => {
                self.symbol_part(body, lexeme)?;
                Ok(true)
            }
            LexemeKind::QuotedName => {
                self.state(Statement::Token(lexeme))?;
                self.symbol_part(body, lexeme)?;
                Ok(true)
            }
            LexemeKind::Action => {
                self.grmtools_action(body, lexeme)?;
                Ok(true)
            }
            _ => Ok(false),
        }
    }

    /// Reads an action of a body, which is to be its last part.
    fn grmtools_action(&mut self, body: &mut Body, lexeme: Lexeme) -> Result<(), Halt>
        requires here { slice_get self.old.lexemes.now self.old.at ≡ Some lexeme }
        requires small { self.old.at < usize.MAX }
        requires is { is_action lexeme.kind ≡ true }
        ensures file { IsSameFile self.old self.new }
        ensures told { IfErr result (λ halt. IsTold halt self.new) }
        ensures read { OnOk result (ReadsOn self.old self.new body.old body.new) }
        ensures kept { OnOk result (stated self.new ≡ stated self.old) }
    {
        self.action_part(body, lexeme)?;
        let goes_on = match self.here() {
            Some(behind) => {
                matches!(
                    behind.kind,
                    LexemeKind::Name | LexemeKind::QuotedName | LexemeKind::Action
                ) || self.form_in_body(behind).is_some()
            }
            None => false,
        };
        if goes_on {
            self.tell(FaultKind::ActionNotLast, lexeme.span)?;
        }
        Ok(())
    }
}
