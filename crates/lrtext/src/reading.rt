//! What was read of a document, lexeme by lexeme.

ghost use Rattle.std.specs.Prelude.{◌≡◌, ◌↔◌, IsTrue, IfOk, OnOk};
ghost use Rattle.lrspec.specs.texts.ReadingStates.{may_end, Behind};
ghost use Rattle.lrtext.specs.Readings.{first_reading, named, line_ended, declaring, alternative_ended, in_body, preceding, added, take_lexeme, contents_in};
ghost use Rattle.lrtext.specs.NextLexemes.{lexeme_of};
ghost use Rattle.lrtext.specs.StoredReading.{reading_of, IsTaken};
ghost use Rattle.lrtext.specs.StoredContents.{plain_contents};

use crate::contents::{Alternative, Contents, KindLine, NameText};
use crate::lexemes::Lexeme;
use crate::parts::AssocKind;
use crate::reading_state::{ReadingState, next_state};
use std::alloc::{AllocError, Global};

/// What was read of a document so far.
#[derive(Drop)]
pub(crate) struct Reading<'a> {
    state: ReadingState,
    /// What is whole so far.
    contents: Contents<'a>,
    /// The kind and the names of the precedence line in hand.
    line: Option<AssocKind>,
    names: Vec<&'a str>,
    /// The rule and the body in hand, and the name behind its `%prec`.
    rule: &'a str,
    body: Vec<NameText<'a>>,
    precedence: Option<NameText<'a>>,
}

impl<'a> Reading<'a> {
    /// Nothing was read.
    pub(crate) fn new(alloc: Global) -> Reading<'a>
        ensures { reading_of result ≡ first_reading }
    {
        Reading {
            state: ReadingState::AtDeclaration(false),
            contents: Contents {
                start: None,
                declared: Vec::new(alloc),
                kind_lines: Vec::new(alloc),
                alternatives: Vec::new(alloc),
            },
            line: None,
            names: Vec::new(alloc),
            rule: "",
            body: Vec::new(alloc),
            precedence: None,
        }
    }

    /// Adds a name to the line in hand, which is a `%token` line where it has no kind.
    fn add_name(&mut self, name: &'a str) -> Result<(), AllocError>
        ensures { let before = reading_of self.old in
            OnOk result (reading_of self.new ≡ named before.line name.now before) }
    {
        match self.line {
            None => self.contents.declared.push(name)?,
            Some(_) => self.names.push(name)?,
        }
        Ok(())
    }

    /// Ends the line in hand.
    fn end_line(&mut self) -> Result<(), AllocError>
        ensures { let before = reading_of self.old in
            OnOk result (reading_of self.new ≡ line_ended before.line before) }
    {
        let Some(kind) = self.line else {
            return Ok(());
        };
        let empty = Vec::new(*self.names.allocator());
        let names = std::mem::replace(&mut self.names, empty);
        self.contents.kind_lines.push(KindLine { kind, names })?;
        self.line = None;
        Ok(())
    }

    /// Adds a lexeme of the declarations.
    fn add_declaring(&mut self, lexeme: Lexeme<'a>) -> Result<(), AllocError>
        ensures { let before = reading_of self.old in
            OnOk result (reading_of self.new ≡ declaring (lexeme_of lexeme.entry) before) }
    {
        match lexeme {
            Lexeme::Name(name) | Lexeme::Quoted(name) => self.add_name(name),
            Lexeme::KindWord(kind) => {
                self.end_line()?;
                self.line = Some(kind);
                Ok(())
            }
            _ => self.end_line(),
        }
    }

    /// Ends the alternative in hand.
    fn end_alternative(&mut self) -> Result<(), AllocError>
        ensures { OnOk result (reading_of self.new ≡ alternative_ended (reading_of self.old)) }
    {
        let empty = Vec::new(*self.body.allocator());
        let body = std::mem::replace(&mut self.body, empty);
        let rule = self.rule;
        let precedence = self.precedence;
        self.contents.alternatives.push(Alternative {
            rule,
            body,
            precedence,
        })?;
        self.precedence = None;
        Ok(())
    }

    /// Adds a lexeme of the bodies of a rule.
    fn add_in_body(&mut self, lexeme: Lexeme<'a>) -> Result<(), AllocError>
        ensures { let before = reading_of self.old in
            OnOk result (reading_of self.new ≡ in_body (lexeme_of lexeme.entry) before) }
    {
        match lexeme {
            Lexeme::Name(name) => self.body.push(NameText::Plain(name))?,
            Lexeme::Quoted(name) => self.body.push(NameText::InQuotes(name))?,
            Lexeme::Bar | Lexeme::Semicolon => self.end_alternative()?,
            _ => {}
        }
        Ok(())
    }

    /// Notes the name behind `%prec`.
    fn note_precedence(&mut self, lexeme: Lexeme<'a>)
        ensures { let before = reading_of self.old in
            reading_of self.new ≡ preceding (lexeme_of lexeme.entry) before }
    {
        match lexeme {
            Lexeme::Name(name) => self.precedence = Some(NameText::Plain(name)),
            Lexeme::Quoted(name) => self.precedence = Some(NameText::InQuotes(name)),
            _ => {}
        }
    }

    /// Adds what the lexeme says in this state.
    fn add(&mut self, lexeme: Lexeme<'a>) -> Result<(), AllocError>
        ensures { let before = reading_of self.old in
            OnOk result (reading_of self.new ≡ added before.state (lexeme_of lexeme.entry) before) }
    {
        match self.state {
            ReadingState::AtDeclaration(_) | ReadingState::WantsName(_) | ReadingState::InLine(_) =>
                self.add_declaring(lexeme),
            ReadingState::WantsStart => {
                if let Lexeme::Name(name) = lexeme {
                    self.contents.start = Some(name);
                }
                Ok(())
            }
            ReadingState::AtRule => {
                if let Lexeme::Name(name) = lexeme {
                    self.rule = name;
                }
                Ok(())
            }
            ReadingState::InBody | ReadingState::BehindBody => self.add_in_body(lexeme),
            ReadingState::WantsPrecedence => {
                self.note_precedence(lexeme);
                Ok(())
            }
            ReadingState::WantsColon | ReadingState::Behind => Ok(()),
        }
    }

    /// Takes the next lexeme; false where no document goes on with it.
    pub(crate) fn take(&mut self, lexeme: Lexeme<'a>) -> Result<bool, AllocError>
        ensures { let behind = take_lexeme (reading_of self.old) (lexeme_of lexeme.entry) in
            IfOk result (λ taken. IsTaken taken behind (reading_of self.new)) }
    {
        let Some(state) = next_state(self.state, lexeme) else {
            return Ok(false);
        };
        self.add(lexeme)?;
        self.state = state;
        Ok(true)
    }

    /// Whether a document may end here.
    pub(crate) fn may_end(&self) -> bool
        ensures { result ≡ may_end (reading_of self.now).state }
    {
        matches!(self.state, ReadingState::AtRule | ReadingState::Behind)
    }

    /// Whether the second `%%` was read.
    pub(crate) fn is_behind(&self) -> bool
        ensures { IsTrue result ↔ (reading_of self.now).state ≡ Behind }
    {
        matches!(self.state, ReadingState::Behind)
    }

    /// The contents of the document that was read.
    pub(crate) fn into_contents(self) -> Contents<'a>
        ensures { plain_contents result ≡ contents_in (reading_of self.entry) }
    {
        self.contents
    }
}
