//! The sections of a file: its declarations up to the first `%%`, and its rules up to the second one or the end.

ghost use Rattle.std.specs.Prelude.{◌≡◌, ◌<◌, ◌≤◌, true, [], IfOk, IfSome, MatchBool, OnOk, slice_get, vec_len};
ghost use Rattle.lryacc.specs.AllBodies.{AreAllBodies, ReachesRules, ReadsAll, Settles, TakesSeparator};
ghost use Rattle.lryacc.specs.AllLexemes.{is_separator};
ghost use Rattle.lryacc.specs.Bodies.{IsSameFile, IsWhole, PassesNoDelimiter, Stays, delimiters_read};
ghost use Rattle.lryacc.specs.Declarations.{AreAllDeclared};
ghost use Rattle.lryacc.specs.DeclarationsRead.{StatesAll, StatesDeclared};

use crate::dialects::Dialect;
use crate::faults::{FaultKind, Halt, OldForm, Wanted};
use crate::lexemes::LexemeKind;
use crate::places::{Span, bytes};
use crate::reader::Reader;
use std::alloc::AllocError;

impl<'a> Reader<'a> {
    /// Reads the whole file. Where it has no body, that is a fault.
    pub(crate) fn file(&mut self) -> Result<(), AllocError>
        requires begins { self.old.at ≡ 0 }
        requires none { self.old.contents.alternatives.items ≡ [] }
        requires unstated { self.old.contents.statements.items ≡ [] }
        ensures some { OnOk result (vec_len self.new.contents.faults ≡ 0
            → 0 < vec_len self.new.contents.alternatives) }
        ensures faults { vec_len self.old.contents.faults ≤ vec_len self.new.contents.faults }
        ensures read { OnOk result (IsWhole self.new
            → AreAllBodies self.old.text.now self.old.lexemes.now self.old.dialect
            self.new.contents.alternatives.items) }
        ensures declared { OnOk result (IsWhole self.new
            → AreAllDeclared self.old.text.now self.old.lexemes.now self.old.dialect
            self.new.contents.statements.items) }
    {
        self.pass_header()?;
        self.declarations()?;
        self.rules()?;
        self.tell_no_rules()
    }

    /// Passes over the header that a file of grmtools may have.
    fn pass_header(&mut self) -> Result<(), AllocError>
        ensures file { IsSameFile self.old self.new }
        ensures over { OnOk result (IsWhole self.new → PassesNoDelimiter self.old self.new) }
        ensures said { OnOk result (IsWhole self.new → StatesDeclared self.old self.new) }
    {
        if self.dialect != Dialect::Grmtools {
            return Ok(());
        }
        let read = self.header();
        self.settle(read)
    }

    /// Tells that the file has no body, where nothing else is wrong with it.
    fn tell_no_rules(&mut self) -> Result<(), AllocError>
        ensures some { OnOk result (vec_len self.new.contents.faults ≡ 0
            → 0 < vec_len self.new.contents.alternatives) }
        ensures file { IsSameFile self.old self.new }
        ensures statements { self.new.contents.statements ≡ self.old.contents.statements }
    {
        if self.contents.alternatives.is_empty() && self.is_whole() {
            let end = self.text.len();
            self.tell(FaultKind::NoRules, Span::new(end, end))?;
        }
        Ok(())
    }

    /// Reads declarations up to the first `%%`.
    fn declarations(&mut self) -> Result<(), AllocError>
        ensures file { IsSameFile self.old self.new }
        ensures reached { OnOk result (IsWhole self.new → ReachesRules self.old self.new) }
        ensures said { OnOk result (IsWhole self.new → delimiters_read self.old ≡ 0
            → StatesDeclared self.old self.new) }
    {
        self.each_declaration()?;
        if self.separator()? {
            return Ok(());
        }
        self.tell_unless_broken(Wanted::Declaration)
    }

    /// Reads declarations up to a `%%` or the end.
    fn each_declaration(&mut self) -> Result<(), AllocError>
        ensures file { IsSameFile self.old self.new }
        ensures over { OnOk result (IsWhole self.new → PassesNoDelimiter self.old self.new) }
        ensures said { OnOk result (IsWhole self.new → delimiters_read self.old ≡ 0
            → StatesDeclared self.old self.new) }
    {
        for _ in 0..self.lexemes.len() {
            if self.is_at_end() {
                return Ok(());
            }
            self.declaration_or_gap()?;
        }
        Ok(())
    }

    /// Reads a declaration, or passes over what stands between two.
    fn declaration_or_gap(&mut self) -> Result<(), AllocError>
        ensures file { IsSameFile self.old self.new }
        ensures over { OnOk result (IsWhole self.new → PassesNoDelimiter self.old self.new) }
        ensures said { OnOk result (IsWhole self.new → delimiters_read self.old ≡ 0
            → StatesDeclared self.old self.new) }
    {
        if self.pass_between() {
            return Ok(());
        }
        let read = match self.dialect {
            Dialect::Bison => self.bison_declaration(false),
            Dialect::Grmtools => self.grmtools_declaration(),
        };
        self.settle(read)
    }

    /// Tells that something else should stand here, unless something is wrong already.
    fn tell_unless_broken(&mut self, wanted: Wanted) -> Result<(), AllocError>
        ensures told { OnOk result (0 < vec_len self.new.contents.faults) }
        ensures stays { Stays self.old self.new }
        ensures statements { self.new.contents.statements ≡ self.old.contents.statements }
    {
        if !self.is_whole() {
            return Ok(());
        }
        self.tell_wanted(wanted)
    }

    /// Whether a `%%` stands here, or nothing.
    fn is_at_end(&self) -> bool
        ensures { result ≡ true → IfSome (slice_get self.now.lexemes.now self.now.at) (λ lexeme.
            is_separator lexeme.kind ≡ true) }
    {
        matches!(self.kind(), None | Some(LexemeKind::Separator))
    }

    /// Passes over what may stand between declarations; false where it doesn't stand here.
    fn pass_between(&mut self) -> bool
        ensures passed { MatchBool result (PassesNoDelimiter self.old self.new)
            (Stays self.old self.new) }
        ensures said { StatesDeclared self.old self.new }
    {
        if self.skip(LexemeKind::Prologue) {
            return true;
        }
        if self.skip(LexemeKind::DirectiveLine) {
            return true;
        }
        self.dialect == Dialect::Bison && self.skip(LexemeKind::Semicolon)
    }

    /// Takes `%%`, and tells of the old form of it; false where it doesn't stand here.
    fn separator(&mut self) -> Result<bool, AllocError>
        ensures file { IsSameFile self.old self.new }
        ensures taken { IfOk result (λ is. MatchBool is
            (TakesSeparator self.old self.new) (Stays self.old self.new)) }
        ensures statements { self.new.contents.statements ≡ self.old.contents.statements }
    {
        let Some(mark) = self.take(LexemeKind::Separator) else {
            return Ok(false);
        };
        if bytes(self.text, mark.span) != b"%%".as_slice() {
            self.tell(FaultKind::Old(OldForm::Backslashes), mark.span)?;
        }
        Ok(true)
    }

    /// Goes on behind a fault that stopped reading.
    fn settle(&mut self, read: Result<(), Halt>) -> Result<(), AllocError>
        ensures file { IsSameFile self.old self.new }
        ensures settled { OnOk result (Settles read self.old self.new) }
        ensures statements { self.new.contents.statements ≡ self.old.contents.statements }
    {
        match read {
            Ok(()) => Ok(()),
            Err(Halt::Fault) => {
                self.pass_on();
                Ok(())
            }
            Err(Halt::Memory) => Err(AllocError),
        }
    }

    /// Passes over lexemes up to where something new may begin.
    fn pass_on(&mut self)
        ensures file { IsSameFile self.old self.new }
        ensures statements { self.new.contents.statements ≡ self.old.contents.statements }
    {
        for _ in 0..self.lexemes.len() {
            match self.kind() {
                None | Some(LexemeKind::Separator | LexemeKind::Directive | LexemeKind::RuleName) =>
                    break,
                Some(LexemeKind::Semicolon) => {
                    self.pass();
                    break;
                }
                Some(_) => self.pass(),
            }
        }
    }

    /// Reads rules up to behind the second `%%`, or up to the end. A file for Bison without one is told, unless something is wrong
    /// already.
    fn rules(&mut self) -> Result<(), AllocError>
        ensures faults { vec_len self.old.contents.faults ≤ vec_len self.new.contents.faults }
        ensures read { OnOk result (IsWhole self.new → ReadsAll self.old self.new) }
        ensures said { OnOk result (IsWhole self.new → StatesAll self.old self.new) }
    {
        if self.is_at_end() && self.dialect == Dialect::Bison {
            self.tell_unless_broken(Wanted::Rule)?;
        }
        self.each_rule()?;
        let _ = self.separator()?;
        Ok(())
    }

    /// Reads rules, and for Bison declarations among them, up to a `%%` or the end.
    fn each_rule(&mut self) -> Result<(), AllocError>
        ensures faults { vec_len self.old.contents.faults ≤ vec_len self.new.contents.faults }
        ensures read { OnOk result (IsWhole self.new → ReadsAll self.old self.new) }
        ensures said { OnOk result (IsWhole self.new → StatesAll self.old self.new) }
    {
        for _turn in 0..self.lexemes.len() {
            if self.is_at_end() {
                return Ok(());
            }
            let read = self.rule_here();
            self.settle(read)?;
        }
        Ok(())
    }
}
