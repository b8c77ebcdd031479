//! What the names of a file mean: its symbols, and what is said of them.

ghost use Rattle.std.specs.Prelude.{◌≡◌, ◌<◌, [], ◌∷◌, IfOk, MatchOption, OnOk, true, None, vec_len};
ghost use Rattle.std.specs.BTreeMap.{IsEmpty};
ghost use Rattle.std.specs.Option.{option_or};
ghost use Rattle.lryacc.specs.Aliases.{TakesAliases};
ghost use Rattle.lryacc.specs.EndTokens.{HasEndBy, KeepsLines, KeepsMeaning, KeepsSaid, KeepsTables, TakesEnd, end_by_name, written_number};
ghost use Rattle.lryacc.specs.SaidTaken.{HasSaid, IsSaid, LeavesOutReductions, TakesSaid};
ghost use Rattle.lryacc.specs.LinesTaken.{TakesLines};
ghost use Rattle.lryacc.specs.NamedSymbols.{AreApart, KeepsSymbols, TakesOne, TakesSome, first_name, symbol_number, text_at};
ghost use Rattle.lryacc.specs.Spellings.{ProposesNear};

mod aliases;
mod bodies;
mod checks;
mod declared;
mod levels;
mod tags;
mod useless;

use crate::contents::{Contents, LevelKind, Statement};
use crate::dialects::Dialect;
use crate::faults::{Fault, FaultKind, OtherClass};
use crate::lexemes::Lexeme;
use crate::numbers::value_of;
use crate::places::{Span, bytes};
use crate::symbols::{Class, Symbols};
use std::alloc::{AllocError, Global};
use std::collections::{BTreeMap, BTreeSet};

/// How many conflicts a file expects, where it says so.
#[derive(Clone, Copy, Debug, Default, PartialEq, Eq)]
pub struct Expected {
    /// By `%expect`.
    pub shift_reduce: Option<u64>,
    /// By `%expect-rr`.
    pub reduce_reduce: Option<u64>,
}

/// What is known of the symbols of a file so far.
#[derive(Drop)]
pub(crate) struct Meaning<'a> {
    pub(crate) symbols: Symbols<'a>,
    /// The kinds of the precedence lines, in the order of the file.
    pub(crate) levels: Vec<LevelKind>,
    /// By symbol, the precedence line in which it stands by this name, counted from 1, and where it is named there.
    lines: BTreeMap<usize, (usize, Span)>,
    /// The symbols behind `%start`, each once.
    pub(crate) starts: Vec<Lexeme>,
    /// Their numbers.
    started: BTreeSet<usize>,
    /// The first symbol with code 0: the end token.
    pub(crate) end: Option<usize>,
    /// Whether productions without `%prec` have the precedence of their last token.
    pub(crate) has_default_precedence: bool,
    /// How many conflicts are expected.
    pub(crate) expected: Expected,
    /// What is behind the last `%expect-rr`.
    expected_reductions: Option<Lexeme>,
    /// Whether the parser is a generalized one.
    pub(crate) is_glr: bool,
    pub(crate) faults: Vec<Fault>,
    pub(crate) warnings: Vec<Fault>,
}

impl<'a> Meaning<'a> {
    /// Nothing is known of the symbols that a file names.
    pub(crate) fn new(
        alloc: Global,
        text: &'a [u8],
        dialect: Dialect,
        contents: &Contents,
    ) -> Result<Meaning<'a>, AllocError>
        ensures text { IfOk result (λ meaning. meaning.symbols.text.now ≡ text.now) }
        ensures dialect { IfOk result (λ meaning. meaning.symbols.dialect ≡ dialect) }
        ensures apart { IfOk result (λ meaning. AreApart meaning.symbols) }
        ensures single { IfOk result (λ meaning. IsEmpty meaning.symbols.partners) }
        ensures end { IfOk result (λ meaning. meaning.end ≡ None) }
        ensures levels { IfOk result (λ meaning. meaning.levels.items ≡ []) }
        ensures lines { IfOk result (λ meaning. IsEmpty meaning.lines) }
        ensures has_default { IfOk result (λ meaning. meaning.has_default_precedence ≡ true) }
        ensures said { IfOk result (HasSaid []) }
    {
        let symbols = Symbols::of(alloc, text, dialect, contents)?;
        Ok(Meaning {
            symbols,
            levels: Vec::new(alloc),
            lines: BTreeMap::new(alloc),
            starts: Vec::new(alloc),
            started: BTreeSet::new(alloc),
            end: None,
            has_default_precedence: true,
            expected: Expected::default(),
            expected_reductions: None,
            is_glr: false,
            faults: Vec::new(alloc),
            warnings: Vec::new(alloc),
        })
    }

    /// Tells a fault.
    pub(crate) fn tell(&mut self, kind: FaultKind, span: Span) -> Result<(), AllocError>
        requires { ProposesNear self.old.symbols kind span }
        ensures keeps { OnOk result (KeepsMeaning self.old self.new) }
        ensures told { OnOk result (0 < vec_len self.new.faults) }
    {
        self.faults.push(Fault { kind, span })?;
        Ok(())
    }

    /// Warns of something.
    pub(crate) fn warn(&mut self, kind: FaultKind, span: Span) -> Result<(), AllocError>
        requires { ProposesNear self.old.symbols kind span }
        ensures { OnOk result (KeepsMeaning self.old self.new) }
    {
        self.warnings.push(Fault { kind, span })?;
        Ok(())
    }

    /// Takes in what the declarations say.
    fn take_statements(&mut self, statements: &[Statement]) -> Result<(), AllocError>
        ensures taken { OnOk result (TakesSome statements.now self.old.symbols self.new.symbols) }
        ensures end { OnOk result (TakesEnd statements.now self.old self.new) }
        ensures lines { OnOk result (TakesLines statements.now self.old self.new) }
        ensures said { OnOk result (TakesSaid statements.now self.old self.new) }
        ensures aliases { OnOk result (TakesAliases statements.now self.old self.new) }
    {
        for statement in statements {
            self.take_statement(*statement)?;
        }
        Ok(())
    }

    /// Leaves out what `%expect-rr` says where Bison does: it holds for generalized parsers alone.
    fn leave_out_reductions(&mut self) -> Result<(), AllocError>
        ensures keeps { OnOk result (KeepsTables self.old self.new) }
        ensures left_out { OnOk result (LeavesOutReductions self.old self.new) }
    {
        let is_read = self.is_glr || self.symbols.dialect == Dialect::Grmtools;
        if let (Some(number), false) = (self.expected_reductions, is_read) {
            self.warn(FaultKind::ExpectedWithoutGlr, number.span)?;
            self.expected.reduce_reduce = None;
        }
        Ok(())
    }

    /// Takes in what a declaration says.
    fn take_statement(&mut self, statement: Statement) -> Result<(), AllocError>
        ensures taken { OnOk result (TakesOne statement self.old.symbols self.new.symbols) }
        ensures end { OnOk result (TakesEnd (statement ∷ []) self.old self.new) }
        ensures lines { OnOk result (TakesLines (statement ∷ []) self.old self.new) }
        ensures said { OnOk result (TakesSaid (statement ∷ []) self.old self.new) }
        ensures aliases { OnOk result (TakesAliases (statement ∷ []) self.old self.new) }
    {
        match statement {
            Statement::Token(symbol) => self.declare(symbol, Class::Token),
            Statement::Rule(symbol) => self.declare(symbol, Class::Rule),
            Statement::Code(symbol, number) => self.take_code(symbol, number),
            Statement::Alias(symbol, text) => self.take_alias(symbol, text),
            Statement::Level(kind) => {
                self.levels.push(kind)?;
                Ok(())
            }
            Statement::InLevel(symbol) => self.take_in_level(symbol),
            Statement::Mention(_) | Statement::NotInRules(_) => Ok(()),
            Statement::Tagged(symbol, tag) => self.take_tag(symbol, tag),
            Statement::LeftSide(rule) => {
                self.take_class(rule, Class::Rule, OtherClass::TokenWithRule)
            }
            Statement::NamedPrecedence(token) => {
                self.take_class(token, Class::Token, OtherClass::RuleBehindPrec)
            }
            Statement::Start(symbol) => self.take_start(symbol),
            Statement::DefaultPrecedence(is_on) => {
                self.has_default_precedence = is_on;
                Ok(())
            }
            Statement::ExpectShiftReduce(number) => {
                self.expected.shift_reduce = self.number(number)?;
                Ok(())
            }
            Statement::ExpectReduceReduce(number) => {
                self.expected.reduce_reduce = self.number(number)?;
                self.expected_reductions = Some(number);
                Ok(())
            }
            Statement::Glr => {
                self.is_glr = true;
                Ok(())
            }
        }
    }

    /// The number that a lexeme is; None where it is too large, which is told.
    fn number(&mut self, number: Lexeme) -> Result<Option<u64>, AllocError>
        ensures keeps { OnOk result (KeepsMeaning self.old self.new) }
        ensures value { IfOk result (λ value. MatchOption value (0 < vec_len self.new.faults)
            (λ value. value ≡ written_number (text_at self.old.symbols.text.now number.span))) }
    {
        let value = value_of(bytes(self.symbols.text, number.span));
        if value.is_none() {
            self.tell(FaultKind::LargeNumber, number.span)?;
        }
        Ok(value)
    }

    /// Takes in all that the file says of its symbols.
    pub(crate) fn take(&mut self, contents: &Contents) -> Result<(), AllocError>
        requires { self.old.end ≡ None }
        ensures taken { OnOk result (TakesSome contents.now.statements.items self.old.symbols
            self.new.symbols) }
        ensures end { OnOk result (HasEndBy contents.now.statements.items self.new) }
        ensures lines { OnOk result (TakesLines contents.now.statements.items self.old self.new) }
        ensures said { OnOk result (IsSaid contents.now.statements.items self.old self.new) }
        ensures aliases { OnOk result (TakesAliases contents.now.statements.items self.old
            self.new) }
    {
        self.take_statements(contents.statements.as_slice())?;
        self.leave_out_reductions()?;
        self.warn_of_bodies(contents.alternatives.as_slice())?;
        self.find_end();
        self.tell_symbols()?;
        self.tell_starts()?;
        match self.symbols.dialect {
            Dialect::Bison => Ok(()),
            Dialect::Grmtools => self.tell_unknown(contents),
        }
    }

    /// Takes `YYEOF` for the end token where no symbol has the code 0.
    fn find_end(&mut self)
        ensures symbols { KeepsSymbols self.old.symbols self.new.symbols }
        ensures end { self.new.end ≡ option_or self.old.end (end_by_name self.old.symbols) }
        ensures faults { self.new.faults ≡ self.old.faults }
        ensures lines { KeepsLines self.old self.new }
        ensures said { KeepsSaid self.old self.new }
    {
        if self.end.is_some() {
            return;
        }
        self.end = self.symbols.find_name(b"YYEOF");
        if let Some(end) = self.end {
            if self.symbols.class(end) == Class::Unknown {
                self.symbols.set_class(end, Class::Token);
            }
        }
    }

    /// The name of a symbol by which bodies and precedences go: the earlier one of its two.
    pub(crate) fn canonical(&self, number: usize) -> usize
        ensures { result ≡ first_name self.now.symbols number }
    {
        match self.symbols.partner(number) {
            Some(partner) => partner.min(number),
            None => number,
        }
    }

    /// The symbol that a lexeme names, by the name by which bodies and precedences go.
    pub(crate) fn find(&self, lexeme: Lexeme) -> Option<usize>
        ensures { result ≡ symbol_number self.now.symbols lexeme }
    {
        match self.symbols.find(lexeme) {
            Some(number) => Some(self.canonical(number)),
            None => None,
        }
    }

    /// The place by which a token is ordered: the earlier one of its two names.
    pub(crate) fn place(&self, number: usize) -> usize {
        let own = self.place_of_name(number);
        match self.symbols.partner(number) {
            Some(partner) => own.min(self.place_of_name(partner)),
            None => own,
        }
    }

    /// The place by which a name is ordered.
    fn place_of_name(&self, number: usize) -> usize {
        match self.symbols.list.get(number) {
            Some(symbol) => symbol.span().start,
            None => 0,
        }
    }
}
