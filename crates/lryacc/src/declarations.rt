//! Declarations.

ghost use Rattle.std.specs.Prelude.{◌≡◌, ◌∷◌, [], true, false, None, Some, IfErr, IfSome, MatchOption, OnOk};
ghost use Rattle.lryacc.specs.declared.lexemes.LexemeKind.TheVariants.{Text};
ghost use Rattle.lryacc.specs.Bodies.{IsTold, PassesNoDelimiter, Stays, TakesSymbol, delimiters_read};
ghost use Rattle.lryacc.specs.Declarations.{counted_of, directive_declares, number_declares};
ghost use Rattle.lryacc.specs.DeclarationsRead.{IsSaidBy, StatesDeclared, StatesListed, TakesAlias, all_stated};
ghost use Rattle.lryacc.specs.DeclarationsRead.{form_expected, form_here, is_declaring, is_of_codes, is_of_names};
ghost use Rattle.lryacc.specs.DeclarationsRead.{said_of, symbol_behind, symbol_here};
ghost use Rattle.lryacc.specs.Directives.{counted, form_of};
ghost use Rattle.lryacc.specs.NamedSymbols.{text_at};

use crate::contents::Statement;
use crate::dialects::Dialect;
use crate::directives::{Form, form_of, is_name_in_any_case};
use crate::faults::{FaultKind, Halt, OldForm, Wanted};
use crate::lexemes::{Lexeme, LexemeKind};
use crate::places::bytes;
use crate::reader::Reader;
use std::alloc::AllocError;

/// What is wrong with a directive that Bison doesn't know.
fn unknown(directive: &[u8]) -> FaultKind {
    FaultKind::Old(match directive {
        b"%<" => OldForm::Left,
        b"%>" => OldForm::Right,
        b"%2" => OldForm::Nonassoc,
        b"%0" => OldForm::Token,
        [b'\\', name @ ..] if is_name_in_any_case(name) => OldForm::Backslash,
        [b'%', name @ ..] if is_name_in_any_case(name) => OldForm::Capitals,
        _ => return FaultKind::UnknownDirective(Dialect::Bison),
    })
}

/// That so many conflicts are expected.
fn expectation(is_of_shifts: bool, number: Lexeme) -> Statement
    ensures { counted_of (result ∷ [])
        ≡ number_declares (form_expected is_of_shifts) true None number }
{
    if is_of_shifts {
        Statement::ExpectShiftReduce(number)
    } else {
        Statement::ExpectReduceReduce(number)
    }
}

/// What a declaration says of each of its symbols.
#[derive(Clone, Copy)]
pub(crate) enum Said {
    /// It is a token. A number and a text may stand behind it.
    DeclaredToken,
    /// It is a rule. What may stand behind a token is read behind it, too: then it is told to be a fault.
    DeclaredRule,
    /// It is one of the precedence line in hand. A number may stand behind it.
    Operator,
    /// It is named.
    Mention,
    /// It is a start rule.
    Start,
    /// Of grmtools: it is a token.
    Token,
    /// Of grmtools: it is one of the precedence line in hand.
    InLevel,
    /// Of grmtools: it is a token that lexers pass over.
    PassedOver,
    /// Of grmtools: it need not be in a rule.
    NotInRules,
}

impl Said {
    /// Whether it declares the symbol, which no text is by itself.
    fn is_declaring(self) -> bool
        ensures { result ≡ is_declaring self }
    {
        matches!(self, Said::DeclaredToken | Said::DeclaredRule)
    }

    /// What should stand where a symbol is missing.
    fn wanted(self) -> Wanted {
        match self {
            Said::DeclaredToken | Said::DeclaredRule => Wanted::Declared,
            _ => Wanted::Symbol,
        }
    }

    /// What is said of a symbol.
    fn of(self, symbol: Lexeme) -> Statement
        ensures { counted_of (result ∷ []) ≡ said_of self symbol }
    {
        match self {
            Said::DeclaredToken | Said::Token | Said::PassedOver => Statement::Token(symbol),
            Said::DeclaredRule => Statement::Rule(symbol),
            Said::Operator | Said::InLevel => Statement::InLevel(symbol),
            Said::Mention | Said::NotInRules => Statement::Mention(symbol),
            Said::Start => Statement::Start(symbol),
        }
    }
}

/// Symbols behind a directive, some of them perhaps behind tags.
#[derive(Clone, Copy)]
struct Listing {
    /// The last tag.
    tag: Option<Lexeme>,
    /// Whether a symbol is to stand here: at first, and behind a tag.
    wants_symbol: bool,
}

impl<'a> Reader<'a> {
    /// Reads a declaration of a file for Bison, which stands before the rules or among them.
    pub(crate) fn bison_declaration(&mut self, is_among_rules: bool) -> Result<(), Halt>
        ensures over { PassesNoDelimiter self.old self.new }
        ensures told { IfErr result (λ halt. IsTold halt self.new) }
        ensures said { OnOk result ((is_among_rules ≡ false → delimiters_read self.old ≡ 0)
            → StatesDeclared self.old self.new) }
    {
        let Some(directive) = self.take(LexemeKind::Directive) else {
            return Err(self.wants(Wanted::Declaration));
        };
        let Some(form) = self.form(directive) else {
            let kind = unknown(bytes(self.text, directive.span));
            return Err(self.fault(kind, directive.span));
        };
        if form.is_misplaced(is_among_rules) {
            let kind = FaultKind::Wanted(Wanted::Rule);
            return Err(self.fault(kind, directive.span));
        }
        match form {
            Form::Tokens => self.listing(Said::DeclaredToken),
            Form::Rules => self.listing(Said::DeclaredRule),
            Form::Level(kind) => {
                self.state(Statement::Level(kind))?;
                self.listing(Said::Operator)
            }
            Form::Types => self.listing(Said::Mention),
            Form::Starts => self.said(Said::Start),
            Form::DefaultPrecedence(is_on) => Ok(self.state(Statement::DefaultPrecedence(is_on))?),
            Form::ShiftReduce => self.expected(true),
            Form::ReduceReduce => self.expected(false),
            Form::Glr => Ok(self.state(Statement::Glr)?),
            Form::Nothing => Ok(()),
            _ => self.passed_over(form, directive),
        }
    }

    /// What stands behind a directive; None for an unknown one.
    pub(crate) fn form(&self, directive: Lexeme) -> Option<Form>
        ensures { IfSome result (λ form. counted form
            ≡ form_of self.now.dialect (text_at self.now.text.now directive.span)) }
    {
        match bytes(self.text, directive.span).strip_prefix(b"%".as_slice()) {
            Some(name) => form_of(name, self.dialect),
            None => None,
        }
    }

    /// Reads how many conflicts are expected.
    pub(crate) fn expected(&mut self, is_of_shifts: bool) -> Result<(), Halt>
        requires { form_here self.old ≡ form_expected is_of_shifts }
        ensures over { PassesNoDelimiter self.old self.new }
        ensures told { IfErr result (λ halt. IsTold halt self.new) }
        ensures said { OnOk result (delimiters_read self.old ≡ 0
            → StatesDeclared self.old self.new) }
    {
        let number = self.want(LexemeKind::Number, Wanted::Number)?;
        self.state(expectation(is_of_shifts, number))?;
        Ok(())
    }

    /// Reads what stands behind a directive that says nothing of the grammar.
    fn passed_over(&mut self, form: Form, directive: Lexeme) -> Result<(), Halt>
        requires { form_here self.old ≡ counted form }
        ensures over { PassesNoDelimiter self.old self.new }
        ensures told { IfErr result (λ halt. IsTold halt self.new) }
        ensures said { OnOk result (StatesDeclared self.old self.new) }
        ensures none { OnOk result (directive_declares (counted form) ≡ []) }
    {
        match form {
            Form::CodeForSymbols => self.code_for_symbols(),
            Form::NamedCode => {
                let _ = self.skip(LexemeKind::Name);
                self.codes(1)
            }
            Form::Code => self.codes(1),
            Form::Codes => self.codes(self.lexemes.len()),
            Form::Definition => {
                self.pass_wanted(LexemeKind::Name, Wanted::Name)?;
                let _ = self.skip_value();
                Ok(())
            }
            Form::OptionalText => {
                let _ = self.skip(LexemeKind::Text);
                Ok(())
            }
            Form::Text => {
                let _ = self.skip(LexemeKind::Equals);
                self.pass_wanted(LexemeKind::Text, Wanted::Text)
            }
            // The others stand in bodies.
            _ => {
                let kind = FaultKind::Wanted(Wanted::Declaration);
                Err(self.fault(kind, directive.span))
            }
        }
    }

    /// Reads symbols, at least one, some of them perhaps behind tags.
    fn listing(&mut self, said: Said) -> Result<(), Halt>
        requires { IsSaidBy said (form_here self.old) }
        ensures over { PassesNoDelimiter self.old self.new }
        ensures told { IfErr result (λ halt. IsTold halt self.new) }
        ensures said { OnOk result (StatesDeclared self.old self.new) }
    {
        let mut listing = Listing {
            tag: None,
            wants_symbol: true,
        };
        for _ in 0..self.lexemes.len() {
            if !self.listed_part(said, &mut listing)? {
                break;
            }
        }
        if listing.wants_symbol {
            return Err(self.wants(said.wanted()));
        }
        Ok(())
    }

    /// Takes a symbol of which that can be said: a text is not declared by itself.
    fn take_listed(&mut self, said: Said) -> Option<Lexeme>
        ensures taken { MatchOption result (Stays self.old self.new) (λ lexeme.
            TakesSymbol self.old self.new lexeme) }
        ensures text { IfSome result (λ lexeme. lexeme.kind ≡ Text → is_declaring said ≡ false) }
        ensures statements { self.new.contents.statements ≡ self.old.contents.statements }
    {
        match self.here() {
            Some(lexeme) if lexeme.kind == LexemeKind::Text && said.is_declaring() => None,
            Some(lexeme) if lexeme.kind.is_of_symbol() => {
                self.pass();
                Some(lexeme)
            }
            _ => None,
        }
    }

    /// Reads a tag, or a symbol and what stands behind it; false where neither stands here.
    fn listed_part(&mut self, said: Said, listing: &mut Listing) -> Result<bool, AllocError>
        requires { IsSaidBy said (form_here self.old) }
        ensures over { PassesNoDelimiter self.old self.new }
        ensures listed { OnOk result (StatesListed self.old self.new) }
    {
        if self.take_tag(listing) {
            return Ok(true);
        }
        let Some(symbol) = self.take_listed(said) else {
            return Ok(false);
        };
        self.say(said, symbol)?;
        listing.wants_symbol = false;
        if let Some(tag) = listing.tag {
            self.state(Statement::Tagged(symbol, tag))?;
        }
        Ok(true)
    }

    /// Takes a tag, which is for the symbols behind it; false where none stands here, or another one stands right before it.
    fn take_tag(&mut self, listing: &mut Listing) -> bool
        ensures over { PassesNoDelimiter self.old self.new }
        ensures listed { StatesListed self.old self.new }
    {
        if listing.wants_symbol && listing.tag.is_some() {
            return false;
        }
        let Some(tag) = self.take(LexemeKind::Tag) else {
            return false;
        };
        listing.tag = Some(tag);
        listing.wants_symbol = true;
        true
    }

    /// Reads symbols, at least one.
    pub(crate) fn said(&mut self, said: Said) -> Result<(), Halt>
        requires by { IsSaidBy said (form_here self.old) }
        requires plain { is_declaring said ≡ false }
        ensures over { PassesNoDelimiter self.old self.new }
        ensures told { IfErr result (λ halt. IsTold halt self.new) }
        ensures said { OnOk result (StatesDeclared self.old self.new) }
    {
        let first = self.want_symbol()?;
        self.say(said, first)?;
        for _ in 0..self.lexemes.len() {
            let Some(symbol) = self.take_symbol() else {
                break;
            };
            self.say(said, symbol)?;
        }
        Ok(())
    }

    /// Adds what is said of a symbol, and what stands behind it.
    fn say(&mut self, said: Said, symbol: Lexeme) -> Result<(), AllocError>
        requires by { IsSaidBy said (form_here self.old) }
        requires behind { symbol_behind self.old ≡ Some symbol }
        ensures over { PassesNoDelimiter self.old self.new }
        ensures said { OnOk result (all_stated self.new []
            ≡ all_stated self.old (said_of said symbol)) }
        ensures form { OnOk result (form_here self.new ≡ form_here self.old) }
    {
        self.state(said.of(symbol))?;
        match said {
            Said::DeclaredToken | Said::DeclaredRule => self.code_and_alias(symbol),
            Said::Operator if symbol.kind != LexemeKind::Text => self.code(symbol),
            Said::PassedOver | Said::NotInRules => self.state(Statement::NotInRules(symbol)),
            _ => Ok(()),
        }
    }

    /// Reads the number of a symbol, if one stands here.
    fn code(&mut self, symbol: Lexeme) -> Result<(), AllocError>
        requires codes { is_of_codes (form_here self.old) ≡ true }
        requires behind { symbol_behind self.old ≡ Some symbol }
        ensures over { PassesNoDelimiter self.old self.new }
        ensures listed { OnOk result (StatesListed self.old self.new) }
        ensures behind { OnOk result (symbol_here self.new ≡ Some symbol) }
    {
        match self.take(LexemeKind::Number) {
            Some(number) => self.state(Statement::Code(symbol, number)),
            None => Ok(()),
        }
    }

    /// Reads the number of a symbol and the text that is another name of it, where they stand here.
    fn code_and_alias(&mut self, symbol: Lexeme) -> Result<(), AllocError>
        requires names { is_of_names (form_here self.old) ≡ true }
        requires behind { symbol_behind self.old ≡ Some symbol }
        ensures over { PassesNoDelimiter self.old self.new }
        ensures listed { OnOk result (StatesListed self.old self.new) }
    {
        self.code(symbol)?;
        match self.take_alias() {
            Some(text) => self.state(Statement::Alias(symbol, text)),
            None => Ok(()),
        }
    }

    /// Takes a text that is another name of a symbol.
    fn take_alias(&mut self) -> Option<Lexeme>
        requires { is_of_names (form_here self.old) ≡ true }
        ensures over { PassesNoDelimiter self.old self.new }
        ensures taken { MatchOption result (StatesListed self.old self.new) (λ text.
            TakesAlias self.old self.new text) }
    {
        match self.take(LexemeKind::Text) {
            Some(text) => Some(text),
            None => self.take(LexemeKind::TranslatedText),
        }
    }

    /// Reads the code behind `%printer` or `%destructor`, and the symbols and tags behind that.
    fn code_for_symbols(&mut self) -> Result<(), Halt>
        ensures over { PassesNoDelimiter self.old self.new }
        ensures told { IfErr result (λ halt. IsTold halt self.new) }
        ensures said { OnOk result (StatesDeclared self.old self.new) }
    {
        self.pass_wanted(LexemeKind::Action, Wanted::Code)?;
        let mut is_first = true;
        for _ in 0..self.lexemes.len() {
            if !self.mentioned()? {
                break;
            }
            is_first = false;
        }
        if is_first {
            return Err(self.wants(Wanted::Symbol));
        }
        Ok(())
    }

    /// Reads a symbol or a tag, which may stand for each one or for none; false where neither stands here.
    fn mentioned(&mut self) -> Result<bool, AllocError>
        requires { form_here self.old ≡ Form.Nothing }
        ensures over { PassesNoDelimiter self.old self.new }
        ensures listed { OnOk result (StatesListed self.old self.new) }
    {
        if self.skip(LexemeKind::Tag) || self.skip(LexemeKind::AnyTag) {
            return Ok(true);
        }
        let Some(symbol) = self.take_symbol() else {
            return Ok(false);
        };
        self.state(Statement::Mention(symbol))?;
        Ok(true)
    }

    /// Reads one piece of code, and so many at the most.
    fn codes(&mut self, most: usize) -> Result<(), Halt>
        ensures over { PassesNoDelimiter self.old self.new }
        ensures told { IfErr result (λ halt. IsTold halt self.new) }
        ensures said { OnOk result (StatesDeclared self.old self.new) }
    {
        self.pass_wanted(LexemeKind::Action, Wanted::Code)?;
        for _ in 1..most {
            if !self.skip(LexemeKind::Action) {
                break;
            }
        }
        Ok(())
    }

    /// Passes over a name, a text or code; false where none of these stands here.
    fn skip_value(&mut self) -> bool
        requires { form_here self.old ≡ Form.Nothing }
        ensures over { PassesNoDelimiter self.old self.new }
        ensures said { StatesDeclared self.old self.new }
    {
        if self.skip(LexemeKind::Name) {
            return true;
        }
        if self.skip(LexemeKind::Text) {
            return true;
        }
        self.skip(LexemeKind::Action)
    }
}
