//! Rules and their bodies.

ghost use Rattle.std.specs.Prelude.{◌≡◌, ◌<◌, ◌≤◌, [], ◌∷◌, ◌++◌, IfErr, MatchOption, None, OnOk, vec_len};
ghost use Rattle.lryacc.specs.AllBodies.{ReadsAlternatives, ReadsBodies};
ghost use Rattle.lryacc.specs.Bodies.{AddsBody, BeginsBody, EndsBody, IsSameFile, IsTold, PassesNoDelimiter};
ghost use Rattle.lryacc.specs.Bodies.{IsBodyEnd, Stays, TakesBar, ends_bodies, is_in_bodies, place_of, reach};
ghost use Rattle.lryacc.specs.DeclarationsRead.{StatesDeclared};
ghost use Rattle.lryacc.specs.NamedSymbols.{text_at};

mod parts;

use crate::contents::{Alternative, BodyPart, Statement};
use crate::dialects::Dialect;
use crate::faults::{FaultKind, Halt, Wanted};
use crate::lexemes::{Lexeme, LexemeKind};
use crate::places::{Span, bytes};
use crate::reader::Reader;
use crate::runs::Run;
use std::alloc::{AllocError, Global};

/// A body in hand.
#[derive(Drop)]
pub(crate) struct Body {
    parts: Vec<BodyPart>,
    precedence: Option<Lexeme>,
    /// Whether `%dprec` and `%merge` were read.
    has_number: bool,
    has_tag: bool,
    /// The `%empty` that was read.
    empty: Option<Span>,
    /// From the first part to the last.
    span: Option<Span>,
}

/// Whether a directive stands in bodies.
fn is_in_bodies(directive: &[u8], dialect: Dialect) -> bool
    ensures { result ≡ is_in_bodies dialect directive.now }
{
    directive == b"%prec".as_slice()
        || directive == b"%empty".as_slice()
        || (dialect == Dialect::Bison
            && (directive == b"%dprec".as_slice()
                || directive == b"%merge".as_slice()
                || directive == b"%expect".as_slice()
                || directive == b"%expect-rr".as_slice()
                || directive == b"%expect_rr".as_slice()))
}

impl Body {
    /// Nothing was read.
    fn new(alloc: Global) -> Body
        ensures parts { result.parts.items ≡ [] }
        ensures precedence { result.precedence ≡ None }
        ensures span { result.span ≡ None }
    {
        Body {
            parts: Vec::new(alloc),
            precedence: None,
            has_number: false,
            has_tag: false,
            empty: None,
            span: None,
        }
    }

    /// Has the body reach to the end of a lexeme.
    fn reach(&mut self, lexeme: Lexeme)
        ensures parts { self.new.parts.items ≡ self.old.parts.items }
        ensures precedence { self.new.precedence ≡ self.old.precedence }
        ensures span { self.new.span ≡ Some (reach self.old.span lexeme.span) }
    {
        let start = match self.span {
            Some(span) => span.start,
            None => lexeme.span.start,
        };
        self.span = Some(Span::new(start, lexeme.span.end));
    }

    /// Adds a part.
    pub(crate) fn add(&mut self, part: BodyPart, lexeme: Lexeme) -> Result<(), AllocError>
        ensures parts { OnOk result (self.new.parts.items ≡ self.old.parts.items ++ part ∷ []) }
        ensures precedence { self.new.precedence ≡ self.old.precedence }
        ensures span { self.new.span ≡ Some (reach self.old.span lexeme.span) }
    {
        self.reach(lexeme);
        self.parts.push(part)?;
        Ok(())
    }

    /// The body of a rule, which begins behind a mark.
    fn alternative(self, rule: Lexeme, mark: Lexeme) -> Alternative
        ensures rule { result.rule ≡ rule }
        ensures parts { result.parts.items ≡ self.parts.items }
        ensures precedence { result.precedence ≡ self.precedence }
        ensures span { result.span ≡ place_of self.span mark }
    {
        let Body {
            parts,
            precedence,
            empty,
            span,
            ..
        } = self;
        let behind = Span::new(mark.span.end, mark.span.end);
        Alternative {
            rule,
            parts,
            precedence,
            has_empty: empty.is_some(),
            span: span.unwrap_or(behind),
        }
    }
}

impl<'a> Reader<'a> {
    /// Reads the rule that begins here, or what else may stand among rules: declarations, each with a `;` behind it.
    pub(crate) fn rule_here(&mut self) -> Result<(), Halt>
        ensures faults { vec_len self.old.contents.faults ≤ vec_len self.new.contents.faults }
        ensures told { IfErr result (λ halt. IsTold halt self.new) }
        ensures read { OnOk result (ReadsBodies 1 self.old self.new) }
        ensures said { OnOk result (StatesDeclared self.old self.new) }
    {
        match (self.dialect, self.kind()) {
            (Dialect::Bison, Some(LexemeKind::RuleName)) => self.rule(),
            (Dialect::Bison, Some(LexemeKind::Directive)) => {
                self.bison_declaration(true)?;
                self.pass_wanted(LexemeKind::Semicolon, Wanted::Semicolon)
            }
            (Dialect::Bison, Some(LexemeKind::Semicolon)) if !self.is_whole() => {
                self.pass_wanted(LexemeKind::Semicolon, Wanted::Rule)
            }
            (Dialect::Grmtools, Some(LexemeKind::RuleName)) => self.grmtools_rule(),
            (Dialect::Grmtools, Some(LexemeKind::Name)) => self.name_without_colon(),
            _ => self.no_rule(),
        }
    }

    /// What is wrong with a name with which a rule is to begin, and behind which no colon stands.
    fn without_colon(&self, name: Lexeme) -> FaultKind {
        let behind = self.text.get(name.span.end..).unwrap_or(b"");
        match behind[..Run::Line.end(behind, 0)].trim_ascii() {
            [b'-', b'>', rest @ ..] if rest.contains(&b':') => FaultKind::OfGrmtools,
            _ => FaultKind::NoColon,
        }
    }

    /// Stops behind a lexeme with which no rule begins.
    fn no_rule(&mut self) -> Result<(), Halt>
        ensures file { IsSameFile self.old self.new }
        ensures told { IfErr result (λ halt. IsTold halt self.new) }
        ensures stops { OnOk result ⊥ }
        ensures statements { self.new.contents.statements ≡ self.old.contents.statements }
    {
        let halt = match self.here() {
            Some(name) if name.kind == LexemeKind::Name => {
                self.fault(self.without_colon(name), name.span)
            }
            _ => self.wants(Wanted::Rule),
        };
        self.pass();
        Err(halt)
    }

    /// Reads a rule.
    fn rule(&mut self) -> Result<(), Halt>
        ensures faults { vec_len self.old.contents.faults ≤ vec_len self.new.contents.faults }
        ensures told { IfErr result (λ halt. IsTold halt self.new) }
        ensures read { OnOk result (ReadsBodies 1 self.old self.new) }
        ensures said { OnOk result (StatesDeclared self.old self.new) }
    {
        let name = self.want(LexemeKind::RuleName, Wanted::Rule)?;
        self.state(Statement::LeftSide(name))?;
        let _ = self.skip(LexemeKind::BracketName);
        let colon = self.want(LexemeKind::Colon, Wanted::Rule)?;
        self.alternatives(name, colon)
    }

    /// Reads the bodies of a rule, the first of which begins behind a colon.
    pub(crate) fn alternatives(&mut self, rule: Lexeme, colon: Lexeme) -> Result<(), Halt>
        requires { BeginsBody self.old rule colon }
        ensures faults { vec_len self.old.contents.faults ≤ vec_len self.new.contents.faults }
        ensures told { IfErr result (λ halt. IsTold halt self.new) }
        ensures read { OnOk result (ReadsAlternatives self.old self.new) }
        ensures said { OnOk result (StatesDeclared self.old self.new) }
    {
        let mut mark = colon;
        for _turn in 0..self.lexemes.len() {
            self.alternative(rule, mark)?;
            match self.bar() {
                Some(bar) => mark = bar,
                None => return Ok(()),
            }
        }
        Ok(())
    }

    /// Takes the `|` behind a body.
    fn bar(&mut self) -> Option<Lexeme>
        ensures taken { MatchOption result (PassesNoDelimiter self.old self.new)
            (TakesBar self.old self.new) }
        ensures said { StatesDeclared self.old self.new }
    {
        self.pass_semicolons();
        self.take(LexemeKind::Bar)
    }

    /// Passes over `;`, which for Bison may stand before a `|`.
    fn pass_semicolons(&mut self)
        ensures over { PassesNoDelimiter self.old self.new }
        ensures said { StatesDeclared self.old self.new }
    {
        if self.dialect != Dialect::Bison {
            return;
        }
        for _ in 0..self.lexemes.len() {
            if !self.skip(LexemeKind::Semicolon) {
                break;
            }
        }
    }

    /// Reads a body, which begins behind a mark.
    fn alternative(&mut self, rule: Lexeme, mark: Lexeme) -> Result<(), Halt>
        requires { BeginsBody self.old rule mark }
        ensures faults { vec_len self.old.contents.faults ≤ vec_len self.new.contents.faults }
        ensures told { IfErr result (λ halt. IsTold halt self.new) }
        ensures added { OnOk result (AddsBody self.old self.new rule mark) }
        ensures said { OnOk result (StatesDeclared self.old self.new) }
    {
        let mut body = Body::new(*self.contents.faults.allocator());
        self.parts(&mut body)?;
        self.end_body(rule, mark, body)?;
        self.want_end()?;
        Ok(())
    }

    /// Stops at a lexeme behind a body, if that ends none.
    fn want_end(&mut self) -> Result<(), Halt>
        ensures file { IsSameFile self.old self.new }
        ensures told { IfErr result (λ halt. IsTold halt self.new) }
        ensures stays { OnOk result (Stays self.old self.new) }
        ensures ends { OnOk result (IsBodyEnd self.old.text.now self.old.lexemes.now
            self.old.dialect self.old.at) }
        ensures statements { self.new.contents.statements ≡ self.old.contents.statements }
    {
        match self.here() {
            Some(lexeme) if !self.ends_bodies(lexeme) => match self.dialect {
                Dialect::Bison => self.no_rule(),
                Dialect::Grmtools => Err(self.wants(Wanted::Semicolon)),
            },
            _ => Ok(()),
        }
    }

    /// Whether a lexeme ends bodies.
    fn ends_bodies(&self, lexeme: Lexeme) -> bool
        ensures { result ≡ ends_bodies self.now.dialect (text_at self.now.text.now lexeme.span)
            lexeme.kind }
    {
        match (self.dialect, lexeme.kind) {
            (_, LexemeKind::Bar | LexemeKind::Semicolon) => true,
            (Dialect::Bison, LexemeKind::RuleName | LexemeKind::Separator) => true,
            (Dialect::Bison, LexemeKind::Directive) => {
                !is_in_bodies(bytes(self.text, lexeme.span), Dialect::Bison)
            }
            _ => false,
        }
    }

    /// Adds the body to the contents. Where it has `%empty`, it is to be empty, but for an action.
    fn end_body(&mut self, rule: Lexeme, mark: Lexeme, body: Body) -> Result<(), AllocError>
        ensures faults { vec_len self.old.contents.faults ≤ vec_len self.new.contents.faults }
        ensures ended { OnOk result (EndsBody self.old self.new rule mark body) }
        ensures statements { self.new.contents.statements ≡ self.old.contents.statements }
    {
        let empty = body.empty;
        let alternative = body.alternative(rule, mark);
        let is_empty = alternative.is_empty();
        self.contents.alternatives.push(alternative)?;
        if let (Some(empty), false) = (empty, is_empty) {
            self.tell(FaultKind::NotEmpty, empty)?;
        }
        Ok(())
    }
}
