//! The parts and directives of bodies.

ghost use Rattle.std.specs.Prelude.{◌≡◌, ◌<◌, true, IfErr, IfOk, IsSome, MatchBool, OnOk, slice_get};
ghost use Rattle.lryacc.specs.Bodies.{GoesOn, IsSameFile, IsTold, Passes, ReadsBehind, ReadsBody, ReadsOn, Stays, TakesPrecedence};
ghost use Rattle.lryacc.specs.Bodies.{is_action, is_in_bodies, is_symbol};
ghost use Rattle.lryacc.specs.DeclarationsRead.{stated};
ghost use Rattle.lryacc.specs.NamedSymbols.{text_at};

use crate::contents::{BodyPart, Statement};
use crate::dialects::Dialect;
use crate::directives::Form;
use crate::faults::{FaultKind, Halt, OldForm, Wanted};
use crate::lexemes::{Lexeme, LexemeKind};
use crate::places::bytes;
use crate::reader::Reader;
use crate::rules::{Body, is_in_bodies};

impl<'a> Reader<'a> {
    /// Reads the parts and directives of a body.
    pub(super) fn parts(&mut self, body: &mut Body) -> Result<(), Halt>
        ensures file { IsSameFile self.old self.new }
        ensures told { IfErr result (λ halt. IsTold halt self.new) }
        ensures read { OnOk result (ReadsBody self.old self.new body.old body.new) }
        ensures kept { OnOk result (stated self.new ≡ stated self.old) }
    {
        while let Some(lexeme) = self.here() {
            if !self.goes_on(body, lexeme)? {
                return Ok(());
            }
        }
        Ok(())
    }

    /// Reads what begins with a lexeme, if it is of a body; false where the body ends before the lexeme.
    fn goes_on(&mut self, body: &mut Body, lexeme: Lexeme) -> Result<bool, Halt>
        requires here { slice_get self.old.lexemes.now self.old.at ≡ Some lexeme }
        requires small { self.old.at < usize.MAX }
        ensures file { IsSameFile self.old self.new }
        ensures told { IfErr result (λ halt. IsTold halt self.new) }
        ensures read { IfOk result (GoesOn self.old self.new body.old body.new) }
        ensures kept { OnOk result (stated self.new ≡ stated self.old) }
    {
        match (self.form_in_body(lexeme), self.dialect) {
            (Some(form), _) => {
                self.directive_in_body(body, form, lexeme)?;
                Ok(true)
            }
            (None, Dialect::Bison) => self.bison_part(body, lexeme),
            (None, Dialect::Grmtools) => self.grmtools_part(body, lexeme),
        }
    }

    /// Reads a directive of a body, and what stands behind it. The body goes on behind that.
    fn directive_in_body(
        &mut self,
        body: &mut Body,
        form: Form,
        directive: Lexeme,
    ) -> Result<(), Halt>
        requires here { slice_get self.old.lexemes.now self.old.at ≡ Some directive }
        requires small { self.old.at < usize.MAX }
        requires is { directive.kind ≡ LexemeKind.Directive }
        requires stands { is_in_bodies Dialect.Bison
            (text_at self.old.text.now directive.span) ≡ true }
        ensures file { IsSameFile self.old self.new }
        ensures told { IfErr result (λ halt. IsTold halt self.new) }
        ensures read { OnOk result (ReadsOn self.old self.new body.old body.new) }
        ensures kept { OnOk result (stated self.new ≡ stated self.old) }
    {
        self.pass();
        body.reach(directive);
        if bytes(self.text, directive.span) == b"%prec".as_slice() {
            self.body_precedence(body)
        } else {
            self.body_directive(body, form, directive)
        }
    }

    /// What stands behind a directive that may stand in a body; None for any other lexeme.
    pub(crate) fn form_in_body(&self, lexeme: Lexeme) -> Option<Form>
        ensures is { IsSome result → lexeme.kind ≡ LexemeKind.Directive }
        ensures stands { IsSome result
            → is_in_bodies Dialect.Bison (text_at self.now.text.now lexeme.span) ≡ true }
    {
        let word = bytes(self.text, lexeme.span);
        if lexeme.kind == LexemeKind::Directive && is_in_bodies(word, self.dialect) {
            self.form(lexeme)
        } else {
            None
        }
    }

    /// Reads a part of a body of a file for Bison; false where the body ends before the lexeme. An action is to stand behind a tag.
    fn bison_part(&mut self, body: &mut Body, lexeme: Lexeme) -> Result<bool, Halt>
        requires here { slice_get self.old.lexemes.now self.old.at ≡ Some lexeme }
        requires small { self.old.at < usize.MAX }
        ensures file { IsSameFile self.old self.new }
        ensures told { IfErr result (λ halt. IsTold halt self.new) }
        ensures read { IfOk result (GoesOn self.old self.new body.old body.new) }
        ensures kept { OnOk result (stated self.new ≡ stated self.old) }
    {
        match lexeme.kind {
            LexemeKind::Name | LexemeKind::Character(_) | LexemeKind::Text => {
                self.symbol_part(body, lexeme)?;
                Ok(true)
            }
            LexemeKind::Action | LexemeKind::Predicate => {
                self.action_part(body, lexeme)?;
                Ok(true)
            }
            LexemeKind::Tag => {
                self.pass();
                if !matches!(self.kind(), Some(LexemeKind::Action)) {
                    return Err(self.wants(Wanted::Code));
                }
                Ok(true)
            }
            LexemeKind::Equals => self.old_equals(lexeme),
            _ => Ok(false),
        }
    }

    /// Reads a symbol of a body, and the name in brackets that may stand behind it for Bison.
    pub(crate) fn symbol_part(&mut self, body: &mut Body, lexeme: Lexeme) -> Result<(), Halt>
        requires here { slice_get self.old.lexemes.now self.old.at ≡ Some lexeme }
        requires small { self.old.at < usize.MAX }
        requires is { is_symbol lexeme.kind ≡ true }
        ensures file { IsSameFile self.old self.new }
        ensures told { IfErr result (λ halt. IsTold halt self.new) }
        ensures read { OnOk result (ReadsOn self.old self.new body.old body.new) }
        ensures kept { OnOk result (stated self.new ≡ stated self.old) }
    {
        body.add(BodyPart::Symbol(lexeme), lexeme)?;
        self.pass();
        let _ = self.skip(LexemeKind::BracketName);
        Ok(())
    }

    /// Reads an action of a body, and the name in brackets that may stand behind it for Bison.
    pub(crate) fn action_part(&mut self, body: &mut Body, lexeme: Lexeme) -> Result<(), Halt>
        requires here { slice_get self.old.lexemes.now self.old.at ≡ Some lexeme }
        requires small { self.old.at < usize.MAX }
        requires is { is_action lexeme.kind ≡ true }
        ensures file { IsSameFile self.old self.new }
        ensures told { IfErr result (λ halt. IsTold halt self.new) }
        ensures read { OnOk result (ReadsOn self.old self.new body.old body.new) }
        ensures kept { OnOk result (stated self.new ≡ stated self.old) }
    {
        self.pass();
        let name = self.take(LexemeKind::BracketName);
        body.add(BodyPart::Action(lexeme, name), lexeme)?;
        Ok(())
    }

    /// Passes over the `=` that old Yacc has before an action, and tells of it; false where no action stands behind it.
    fn old_equals(&mut self, equals: Lexeme) -> Result<bool, Halt>
        requires { self.old.at < usize.MAX }
        ensures file { IsSameFile self.old self.new }
        ensures told { IfErr result (λ halt. IsTold halt self.new) }
        ensures passes { IfOk result (λ goes_on. MatchBool goes_on
            (Passes self.old self.new) (Stays self.old self.new)) }
        ensures statements { self.new.contents.statements ≡ self.old.contents.statements }
    {
        let behind = self.lexemes.get(self.at.saturating_add(1));
        if !matches!(behind, Some(lexeme) if lexeme.kind == LexemeKind::Action) {
            return Ok(false);
        }
        self.pass();
        self.tell(FaultKind::Old(OldForm::Equals), equals.span)?;
        Ok(true)
    }

    /// Reads what stands behind a directive of a body other than `%prec`.
    fn body_directive(&mut self, body: &mut Body, form: Form, directive: Lexeme) -> Result<(), Halt>
        ensures file { IsSameFile self.old self.new }
        ensures told { IfErr result (λ halt. IsTold halt self.new) }
        ensures parts { OnOk result (body.new.parts.items ≡ body.old.parts.items) }
        ensures precedence { OnOk result (body.new.precedence ≡ body.old.precedence) }
        ensures span { OnOk result (body.new.span ≡ body.old.span) }
        ensures read { OnOk result (ReadsBehind self.old self.new) }
        ensures statements { self.new.contents.statements ≡ self.old.contents.statements }
    {
        match form {
            Form::Empty => {
                self.only(body.empty.is_none(), directive)?;
                body.empty = Some(directive.span);
                Ok(())
            }
            Form::BodyTag => {
                let tag = self.want(LexemeKind::Tag, Wanted::Tag)?;
                self.only(!body.has_tag, tag)?;
                body.has_tag = true;
                Ok(())
            }
            Form::BodyNumber => {
                let number = self.want(LexemeKind::Number, Wanted::Number)?;
                self.only(!body.has_number, number)?;
                body.has_number = true;
                Ok(())
            }
            _ => self.pass_wanted(LexemeKind::Number, Wanted::Number),
        }
    }

    /// Reads the token behind `%prec`.
    fn body_precedence(&mut self, body: &mut Body) -> Result<(), Halt>
        ensures file { IsSameFile self.old self.new }
        ensures told { IfErr result (λ halt. IsTold halt self.new) }
        ensures parts { OnOk result (body.new.parts.items ≡ body.old.parts.items) }
        ensures taken { OnOk result (TakesPrecedence self.old self.new body.old body.new) }
        ensures kept { OnOk result (stated self.new ≡ stated self.old) }
    {
        let symbol = self.want_symbol()?;
        self.only(body.precedence.is_none(), symbol)?;
        self.state(Statement::NamedPrecedence(symbol))?;
        body.precedence = Some(symbol);
        body.reach(symbol);
        Ok(())
    }

    /// Stops at a lexeme of which a body has one at most, unless it is the first one.
    fn only(&mut self, is_first: bool, lexeme: Lexeme) -> Result<(), Halt>
        ensures first { OnOk result (is_first ≡ true) }
        ensures stays { Stays self.old self.new }
        ensures told { IfErr result (λ halt. IsTold halt self.new) }
        ensures statements { self.new.contents.statements ≡ self.old.contents.statements }
    {
        if is_first {
            Ok(())
        } else {
            Err(self.fault(FaultKind::Twice, lexeme.span))
        }
    }
}
