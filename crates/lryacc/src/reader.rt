//! A place among the lexemes of a file, and what was read so far.

ghost use Rattle.std.specs.Prelude.{◌≡◌, ◌<◌, ◌==◌, ◌++◌, ◌∷◌, [], IfErr, IfOk, IfSome, MatchOption, MatchBool, OnErr, OnOk, slice_get, vec_len};
ghost use Rattle.std.specs.Option.{option_map};
ghost use Rattle.lryacc.specs.Bodies.{IsSameFile, IsTold, Passes, SkipsKind, Stays, TakesKind, TakesSymbol};

use crate::contents::{Contents, Statement};
use crate::dialects::Dialect;
use crate::faults::{Fault, FaultKind, Halt, Wanted};
use crate::lexemes::{Lexeme, LexemeKind};
use crate::places::Span;
use std::alloc::{AllocError, Global};

/// A reader of lexemes.
#[derive(Drop)]
pub(crate) struct Reader<'a> {
    pub(crate) text: &'a [u8],
    pub(crate) dialect: Dialect,
    pub(crate) lexemes: &'a [Lexeme],
    pub(crate) at: usize,
    pub(crate) contents: Contents,
}

impl<'a> Reader<'a> {
    /// Nothing was read of a file with these lexemes and faults.
    pub(crate) fn new(
        alloc: Global,
        text: &'a [u8],
        dialect: Dialect,
        lexemes: &'a [Lexeme],
        faults: Vec<Fault>,
    ) -> Reader<'a>
        ensures text { result.text.now ≡ text.now }
        ensures lexemes { result.lexemes.now ≡ lexemes.now }
        ensures dialect { result.dialect ≡ dialect }
        ensures begins { result.at ≡ 0 }
        ensures none { result.contents.alternatives.items ≡ [] }
        ensures faults { result.contents.faults ≡ faults }
        ensures stated { result.contents.statements.items ≡ [] }
    {
        Reader {
            text,
            dialect,
            lexemes,
            at: 0,
            contents: Contents {
                statements: Vec::new(alloc),
                alternatives: Vec::new(alloc),
                faults,
            },
        }
    }

    /// Whether nothing is wrong so far.
    pub(crate) fn is_whole(&self) -> bool
        ensures { result ≡ (vec_len self.now.contents.faults == 0) }
    {
        self.contents.faults.is_empty()
    }

    /// The next lexeme.
    pub(crate) fn here(&self) -> Option<Lexeme>
        ensures is { result ≡ slice_get self.now.lexemes.now self.now.at }
        ensures inside { IfSome result (λ lexeme. self.now.at < usize.MAX) }
    {
        self.lexemes.get(self.at).copied()
    }

    /// What the next lexeme is.
    pub(crate) fn kind(&self) -> Option<LexemeKind>
        ensures { result ≡ option_map (λ lexeme. lexeme.kind)
            (slice_get self.now.lexemes.now self.now.at) }
    {
        match self.here() {
            Some(lexeme) => Some(lexeme.kind),
            None => None,
        }
    }

    /// Passes over the next lexeme.
    pub(crate) fn pass(&mut self)
        ensures passes { self.old.at < usize.MAX → Passes self.old self.new }
        ensures file { IsSameFile self.old self.new }
        ensures statements { self.new.contents.statements ≡ self.old.contents.statements }
    {
        self.at = self.at.saturating_add(1);
    }

    /// Takes the next lexeme, if it is of that kind.
    pub(crate) fn take(&mut self, kind: LexemeKind) -> Option<Lexeme>
        ensures taken { MatchOption result (Stays self.old self.new) (λ lexeme.
            TakesKind self.old self.new kind lexeme) }
        ensures statements { self.new.contents.statements ≡ self.old.contents.statements }
    {
        match self.here() {
            Some(lexeme) if lexeme.kind == kind => {
                self.pass();
                Some(lexeme)
            }
            _ => None,
        }
    }

    /// Passes over the next lexeme, if it is of that kind; false where it is not.
    pub(crate) fn skip(&mut self, kind: LexemeKind) -> bool
        ensures skipped { MatchBool result (SkipsKind self.old self.new kind)
            (Stays self.old self.new) }
        ensures statements { self.new.contents.statements ≡ self.old.contents.statements }
    {
        self.take(kind).is_some()
    }

    /// Takes the next lexeme, which is to be of that kind.
    pub(crate) fn want(&mut self, kind: LexemeKind, wanted: Wanted) -> Result<Lexeme, Halt>
        ensures taken { IfOk result (TakesKind self.old self.new kind) }
        ensures stays { OnErr result (Stays self.old self.new) }
        ensures told { IfErr result (λ halt. IsTold halt self.new) }
        ensures statements { self.new.contents.statements ≡ self.old.contents.statements }
    {
        match self.take(kind) {
            Some(lexeme) => Ok(lexeme),
            None => Err(self.wants(wanted)),
        }
    }

    /// Passes over the next lexeme, which is to be of that kind.
    pub(crate) fn pass_wanted(&mut self, kind: LexemeKind, wanted: Wanted) -> Result<(), Halt>
        ensures taken { OnOk result (SkipsKind self.old self.new kind) }
        ensures stays { OnErr result (Stays self.old self.new) }
        ensures told { IfErr result (λ halt. IsTold halt self.new) }
        ensures statements { self.new.contents.statements ≡ self.old.contents.statements }
    {
        if self.skip(kind) {
            Ok(())
        } else {
            Err(self.wants(wanted))
        }
    }

    /// Tells that something else should stand here.
    pub(crate) fn tell_wanted(&mut self, wanted: Wanted) -> Result<(), AllocError>
        ensures told { OnOk result (0 < vec_len self.new.contents.faults) }
        ensures stays { Stays self.old self.new }
        ensures statements { self.new.contents.statements ≡ self.old.contents.statements }
    {
        let end = self.text.len();
        let span = match self.here() {
            Some(lexeme) => lexeme.span,
            None => Span::new(end, end),
        };
        self.tell(FaultKind::Wanted(wanted), span)
    }

    /// Stops, since something else should stand here, which is told.
    pub(crate) fn wants(&mut self, wanted: Wanted) -> Halt
        ensures told { IsTold result self.new }
        ensures stays { Stays self.old self.new }
        ensures statements { self.new.contents.statements ≡ self.old.contents.statements }
    {
        Halt::behind(self.tell_wanted(wanted))
    }

    /// Stops for a fault, which is told.
    pub(crate) fn fault(&mut self, kind: FaultKind, span: Span) -> Halt
        ensures told { IsTold result self.new }
        ensures stays { Stays self.old self.new }
        ensures statements { self.new.contents.statements ≡ self.old.contents.statements }
    {
        Halt::behind(self.tell(kind, span))
    }

    /// Takes a symbol.
    pub(crate) fn take_symbol(&mut self) -> Option<Lexeme>
        ensures taken { MatchOption result (Stays self.old self.new) (λ lexeme.
            TakesSymbol self.old self.new lexeme) }
        ensures statements { self.new.contents.statements ≡ self.old.contents.statements }
    {
        match self.here() {
            Some(lexeme) if lexeme.kind.is_of_symbol() => {
                self.pass();
                Some(lexeme)
            }
            _ => None,
        }
    }

    /// Takes a symbol, which is to stand here.
    pub(crate) fn want_symbol(&mut self) -> Result<Lexeme, Halt>
        ensures taken { IfOk result (TakesSymbol self.old self.new) }
        ensures stays { OnErr result (Stays self.old self.new) }
        ensures told { IfErr result (λ halt. IsTold halt self.new) }
        ensures statements { self.new.contents.statements ≡ self.old.contents.statements }
    {
        match self.take_symbol() {
            Some(lexeme) => Ok(lexeme),
            None => Err(self.wants(Wanted::Symbol)),
        }
    }

    /// Adds a statement.
    pub(crate) fn state(&mut self, statement: Statement) -> Result<(), AllocError>
        ensures stays { Stays self.old self.new }
        ensures stated { OnOk result (self.new.contents.statements.items
            ≡ self.old.contents.statements.items ++ statement ∷ []) }
    {
        self.contents.statements.push(statement)?;
        Ok(())
    }

    /// Tells a fault.
    pub(crate) fn tell(&mut self, kind: FaultKind, span: Span) -> Result<(), AllocError>
        ensures told { OnOk result (0 < vec_len self.new.contents.faults) }
        ensures stays { Stays self.old self.new }
        ensures statements { self.new.contents.statements ≡ self.old.contents.statements }
    {
        self.contents.faults.push(Fault { kind, span })?;
        Ok(())
    }
}
