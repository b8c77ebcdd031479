//! Why a file is no grammar.

ghost use Rattle.std.specs.Prelude.{◌≡◌, MatchResult};
ghost use Rattle.lryacc.specs.declared.faults.Halt.TheVariants.{Memory};

use crate::dialects::Dialect;
use crate::places::Span;
use std::alloc::AllocError;
use std::fmt;

/// Why a file is no grammar, and where in it.
#[derive(Clone, Copy, Debug, PartialEq, Eq)]
pub struct Fault {
    /// What is wrong.
    pub kind: FaultKind,
    /// The place of what is named.
    pub span: Span,
}

/// What is wrong; each displays as words that tell of it without names.
#[derive(Clone, Copy, Debug, PartialEq, Eq)]
pub enum FaultKind {
    /// No lexeme begins with this byte.
    InvalidCharacter,
    /// A brace that isn't closed before the file ends.
    OpenBrace,
    /// A prologue that isn't closed before the file ends.
    OpenPrologue,
    /// A comment that isn't closed before the file ends.
    OpenComment,
    /// A tag that isn't closed before the file ends.
    OpenTag,
    /// A quote of a character that isn't closed before the line ends.
    OpenCharacter,
    /// A quote of a text that isn't closed before the line ends.
    OpenText,
    /// A character in quotes, of no byte.
    EmptyCharacter,
    /// A character in quotes, of several bytes.
    LongCharacter,
    /// No escape begins so.
    UnknownEscape,
    /// A string of Rust that isn't closed before the file ends.
    OpenString,
    /// The number of an escape is 0, or past 255.
    EscapeOutOfRange,
    /// A name that begins with a digit.
    InvalidName,
    /// A bracket that holds something else than one name, or isn't closed.
    InvalidBracket,
    /// Something else should stand here, or before the file ends.
    Wanted(Wanted),
    /// No directive of the dialect has this name.
    UnknownDirective(Dialect),
    /// A form of old Yacc.
    Old(OldForm),
    /// `%prec` or `%empty` stands twice in one body.
    Twice,
    /// `%empty` stands in a body that has parts.
    NotEmpty,
    /// The file has no rule.
    NoRules,
    /// No colon stands behind the name with which a rule is to begin.
    NoColon,
    /// No colon stands behind the name, but a type of Rust, as in files of grmtools alone.
    OfGrmtools,
    /// The symbol is no token, and has no rule; there a name that is near stands first. Only warned of where no body has it.
    Undefined(Option<Span>),
    /// The symbol is of another class, as what is said of it there tells.
    OtherClass(OtherClass, Span),
    /// A character is declared a rule.
    CharacterAsRule,
    /// A rule is given a number.
    CodeOfRule,
    /// The token has another number already.
    CodeTwice,
    /// Another token has that number; there it is declared.
    CodeOfOther(u64, Span),
    /// A rule is given a text for another name.
    NameOfRule,
    /// The symbol has a tag already; there it has got it.
    TagTwice(Span),
    /// The token has a precedence already; there it has got it.
    LevelTwice(Span),
    /// The start symbol is a token.
    StartIsToken,
    /// The start symbol has no rule; there one stands first whose name is near.
    StartHasNoRule(Option<Span>),
    /// The start rule derives no text.
    StartIsUnproductive,
    /// The number is too large.
    LargeNumber,
    /// Only warned of: the symbol is declared already, and there first.
    DeclaredTwice(Span),
    /// Only warned of: the symbol is a start rule already.
    StartTwice,
    /// Of grmtools: an action that other parts of its body stand behind.
    ActionNotLast,
    /// Of grmtools: the directive stands in the file already.
    SecondDirective,
    /// Of grmtools: the token behind `%prec` is in no precedence line.
    NoPrecedence,
    /// Only warned of: reduce/reduce conflicts are expected of a parser that is no generalized one, and so not left alone.
    ExpectedWithoutGlr,
    /// Only warned of: the rule derives no text.
    UnproductiveRule,
    /// Only warned of: the rule derives a text, and is not reached.
    UnreachedRule,
    /// Only warned of: the production derives no text.
    UselessProduction,
    /// Only warned of: no declaration and no body names the token behind `%prec`; there one stands first that has a precedence,
    /// and whose name is near.
    UnknownPrecedence(Option<Span>),
    /// Only warned of: an action refers to a part by its number, and before the action only so many stand.
    NumberOutOfRange(usize),
    /// Only warned of: an action refers to a part by a name, which none before the action has.
    UnknownReference,
    /// Only warned of: the body is empty, and has no `%empty`, as others have.
    EmptyUnsaid,
    /// Only warned of: the text is another name of a symbol already, which is declared there.
    TextOfOther(Span),
    /// Only warned of: the symbol has another text already, which stands there.
    SecondText(Span),
    /// Only warned of: the symbol has another name already, which Bison gives it.
    SecondName,
}

/// Of which class a symbol is, and is not to be.
#[derive(Clone, Copy, Debug, PartialEq, Eq)]
pub enum OtherClass {
    /// A token that has a rule.
    TokenWithRule,
    /// What is declared both a token and a rule.
    Both,
    /// A rule that stands behind `%prec`.
    RuleBehindPrec,
}

/// What should stand at a place.
#[derive(Clone, Copy, Debug, PartialEq, Eq)]
pub enum Wanted {
    /// A declaration, or `%%`.
    Declaration,
    /// A rule.
    Rule,
    /// The name of a symbol.
    Symbol,
    /// The name of a symbol, or a character.
    Declared,
    /// Another name.
    Name,
    /// A number.
    Number,
    /// A text in quotes.
    Text,
    /// A tag.
    Tag,
    /// Code in braces.
    Code,
    /// `;`.
    Semicolon,
    /// `:`.
    Colon,
    /// A type of Rust.
    Type,
    /// A text in quotes of either kind.
    Quoted,
}

/// A form of old Yacc, which Bison refuses.
#[derive(Clone, Copy, Debug, PartialEq, Eq)]
pub enum OldForm {
    /// `=` before an action.
    Equals,
    /// `%<`.
    Left,
    /// `%>`.
    Right,
    /// `%2`.
    Nonassoc,
    /// `%0`.
    Token,
    /// `\\`.
    Backslashes,
    /// A backslash before the name of a directive.
    Backslash,
    /// A directive that has capital letters.
    Capitals,
}

/// Why reading stops.
#[derive(Clone, Copy)]
pub(crate) enum Halt {
    /// For a fault, which is told.
    Fault,
    /// Memory was refused.
    Memory,
}

impl Halt {
    /// Why reading stops behind a fault that was to be told.
    pub(crate) fn behind(told: Result<(), AllocError>) -> Halt
        ensures { MatchResult told (λ _. result ≡ Halt.Fault) (λ _. result ≡ Halt.Memory) }
    {
        match told {
            Ok(()) => Halt::Fault,
            Err(_) => Halt::Memory,
        }
    }
}

impl From<AllocError> for Halt {
    ghost from_gives = { λ _ halt. halt ≡ Memory };

    fn from(_refused: AllocError) -> Halt {
        Halt::Memory
    }
}

impl fmt::Display for Wanted {
    fn fmt<W: fmt::Write>(&self, f: &mut fmt::Formatter<W>) -> fmt::Result {
        f.write_str(match self {
            Wanted::Declaration => "a declaration or `%%`",
            Wanted::Rule => "a rule",
            Wanted::Symbol => "a symbol",
            Wanted::Declared => "a name or a character",
            Wanted::Name => "a name",
            Wanted::Number => "a number",
            Wanted::Text => "a string in double quotes",
            Wanted::Tag => "a tag in `<` and `>`",
            Wanted::Code => "code in braces",
            Wanted::Semicolon => "`;`",
            Wanted::Colon => "`:`",
            Wanted::Type => "a type",
            Wanted::Quoted => "a string in quotes",
        })
    }
}

impl fmt::Display for OldForm {
    fn fmt<W: fmt::Write>(&self, f: &mut fmt::Formatter<W>) -> fmt::Result {
        f.write_str(match self {
            OldForm::Equals => "`=` before an action is a form of old Yacc: leave it out",
            OldForm::Left => "`%<` is an old form of `%left`",
            OldForm::Right => "`%>` is an old form of `%right`",
            OldForm::Nonassoc => "`%2` is an old form of `%nonassoc`",
            OldForm::Token => "`%0` is an old form of `%token`",
            OldForm::Backslashes => "`\\\\` is an old form of `%%`",
            OldForm::Backslash => "a backslash is an old form of `%`",
            OldForm::Capitals => "directives are written in small letters",
        })
    }
}

impl FaultKind {
    /// The words that tell of it. What should stand at a place, and which form is old, they do not say.
    fn words(&self) -> &'static str {
        match self {
            FaultKind::InvalidCharacter => "invalid character",
            FaultKind::OpenBrace => "this brace is never closed",
            FaultKind::OpenPrologue => "this prologue is never closed by %}",
            FaultKind::OpenComment => "this comment is never closed",
            FaultKind::OpenTag => "this tag is never closed",
            FaultKind::OpenCharacter => "this quote is not closed on its line",
            FaultKind::OpenText => "this quote is not closed on its line",
            FaultKind::EmptyCharacter => "no character between the quotes",
            FaultKind::LongCharacter => "more than one character between the quotes",
            FaultKind::UnknownEscape => "unknown escape",
            FaultKind::OpenString => "this string is never closed",
            FaultKind::EscapeOutOfRange => "the number of an escape is from 1 to 255",
            FaultKind::InvalidName => "a name begins with a letter, `_` or `.`",
            FaultKind::InvalidBracket => "a bracket holds one name",
            FaultKind::Wanted(_) => "something else should stand here",
            FaultKind::UnknownDirective(_) => "unknown directive",
            FaultKind::Old(_) => "this is a form of old Yacc",
            FaultKind::Twice => "this stands in the body already",
            FaultKind::NotEmpty => "`%empty` in a body that is not empty",
            FaultKind::NoRules => "the file has no rule",
            FaultKind::NoColon => "`:` should stand behind this name",
            FaultKind::OfGrmtools => "this is a file of grmtools: `--grmtools`",
            FaultKind::Undefined(_) => "this is no token, and has no rule",
            FaultKind::OtherClass(..) => "this symbol is of another class",
            FaultKind::CharacterAsRule => "a character is always a token",
            FaultKind::CodeOfRule => "a rule has no number",
            FaultKind::CodeTwice => "the token has another number already",
            FaultKind::CodeOfOther(..) => "another token has this number",
            FaultKind::NameOfRule => "a rule has no string for another name",
            FaultKind::TagTwice(_) => "this has a tag already",
            FaultKind::LevelTwice(_) => "this token has a level already",
            FaultKind::StartIsToken => "the start symbol is a token",
            FaultKind::StartHasNoRule(_) => "the start symbol has no rule",
            FaultKind::StartIsUnproductive => "the start rule derives no sentence",
            FaultKind::LargeNumber => "the number is too large",
            FaultKind::DeclaredTwice(_) => "this is declared already",
            FaultKind::StartTwice => "this is a start rule already",
            FaultKind::ActionNotLast => "an action stands at the end of its body",
            FaultKind::SecondDirective => "this directive stands in the file already",
            FaultKind::NoPrecedence => "this token has no precedence",
            FaultKind::ExpectedWithoutGlr => "%expect-rr says nothing without %glr-parser",
            FaultKind::UnproductiveRule => "this rule derives no sentence",
            FaultKind::UnreachedRule => "this rule is never reached",
            FaultKind::UselessProduction => "this derives no sentence",
            FaultKind::UnknownPrecedence(_) => "this token has no level",
            FaultKind::NumberOutOfRange(_) => "this number is out of range",
            FaultKind::UnknownReference => "this names no symbol of the body",
            FaultKind::EmptyUnsaid => "an empty body without `%empty`",
            FaultKind::TextOfOther(_) => "this is the name of another symbol",
            FaultKind::SecondText(_) | FaultKind::SecondName =>
                "the symbol has another name already",
        }
    }
}

impl fmt::Display for FaultKind {
    fn fmt<W: fmt::Write>(&self, f: &mut fmt::Formatter<W>) -> fmt::Result {
        match self {
            FaultKind::Wanted(wanted) => write!(f, "{wanted} should stand here"),
            FaultKind::Old(form) => write!(f, "{form}"),
            _ => f.write_str(self.words()),
        }
    }
}
