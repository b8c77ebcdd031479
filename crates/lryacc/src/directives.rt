//! The directives, and what stands behind each.

ghost use Rattle.std.specs.Prelude.{◌≡◌, true, ◌∷◌, IfOk, IfSome, slice_get};
ghost use Rattle.std.specs.Option.{option_map};
ghost use Rattle.lryacc.specs.DeclarationsRead.{is_of_numbers};
ghost use Rattle.lryacc.specs.Directives.{Each, counted, form_of};
ghost use Rattle.lryacc.specs.declared.dialects.Dialect.{Dialect};
ghost use Rattle.lryacc.specs.Spellings.{IsNear};

use crate::contents::LevelKind;
use crate::dialects::Dialect;
use crate::spellings::nearer;
use std::alloc::{AllocError, Global};

/// What stands behind a directive.
#[derive(Clone, Copy)]
pub(crate) enum Form {
    /// Tokens, each perhaps with a number and a text.
    Tokens,
    /// Rules.
    Rules,
    /// The tokens of a precedence line.
    Level(LevelKind),
    /// Symbols whose values have a type.
    Types,
    /// Start rules.
    Starts,
    /// Nothing; says whether productions have a precedence without `%prec`.
    DefaultPrecedence(bool),
    /// How many shift/reduce conflicts are expected.
    ShiftReduce,
    /// How many reduce/reduce conflicts are expected.
    ReduceReduce,
    /// Nothing; says that the parser is a generalized one.
    Glr,
    /// Code, and the symbols that it is for.
    CodeForSymbols,
    /// Perhaps a name, and code.
    NamedCode,
    /// Code.
    Code,
    /// Code, once or more.
    Codes,
    /// A name, and perhaps a value.
    Definition,
    /// Perhaps a text.
    OptionalText,
    /// A text, perhaps behind `=`.
    Text,
    /// Nothing.
    Nothing,
    /// In a body: nothing, since it is empty.
    Empty,
    /// In a body: the token whose precedence it has.
    Precedence,
    /// In a body: a number.
    BodyNumber,
    /// In a body: a tag.
    BodyTag,
    /// Of grmtools: tokens.
    TokenNames,
    /// Of grmtools: tokens that lexers pass over.
    PassedOver,
    /// Of grmtools: symbols that need not be in a rule.
    NotInRules,
    /// Of grmtools: a token, and the text by which messages tell it.
    ShownText,
}

impl Form {
    /// Whether a directive of that form stands among rules, and may stand before them alone.
    pub(crate) fn is_misplaced(self, is_among_rules: bool) -> bool
        ensures { is_of_numbers self ≡ true → result ≡ is_among_rules }
    {
        match self {
            Form::ShiftReduce
            | Form::ReduceReduce
            | Form::Definition
            | Form::OptionalText
            | Form::Text
            | Form::Code
            | Form::Codes
            | Form::Nothing => is_among_rules,
            _ => false,
        }
    }
}

/// The names of the directives, without `%`.
static NAMES: [(&str, Form); 46] = [
    ("token", Form::Tokens),
    ("term", Form::Tokens),
    ("nterm", Form::Rules),
    ("left", Form::Level(LevelKind::Left)),
    ("right", Form::Level(LevelKind::Right)),
    ("nonassoc", Form::Level(LevelKind::Nonassoc)),
    ("binary", Form::Level(LevelKind::Nonassoc)),
    ("precedence", Form::Level(LevelKind::Precedence)),
    ("type", Form::Types),
    ("start", Form::Starts),
    ("prec", Form::Precedence),
    ("empty", Form::Empty),
    ("expect", Form::ShiftReduce),
    ("expect-rr", Form::ReduceReduce),
    ("dprec", Form::BodyNumber),
    ("merge", Form::BodyTag),
    ("default-prec", Form::DefaultPrecedence(true)),
    ("no-default-prec", Form::DefaultPrecedence(false)),
    ("union", Form::NamedCode),
    ("code", Form::NamedCode),
    ("destructor", Form::CodeForSymbols),
    ("printer", Form::CodeForSymbols),
    ("initial-action", Form::Code),
    ("param", Form::Codes),
    ("parse-param", Form::Codes),
    ("lex-param", Form::Codes),
    ("define", Form::Definition),
    ("header", Form::OptionalText),
    ("defines", Form::OptionalText),
    ("file-prefix", Form::Text),
    ("name-prefix", Form::Text),
    ("output", Form::Text),
    ("language", Form::Text),
    ("require", Form::Text),
    ("skeleton", Form::Text),
    ("debug", Form::Nothing),
    ("locations", Form::Nothing),
    ("error-verbose", Form::Nothing),
    ("glr-parser", Form::Glr),
    ("no-lines", Form::Nothing),
    ("nondeterministic-parser", Form::Nothing),
    ("pure-parser", Form::Nothing),
    ("token-table", Form::Nothing),
    ("verbose", Form::Nothing),
    ("yacc", Form::Nothing),
    ("fixed-output-files", Form::Nothing),
];

/// The names that may be written with `_` for `-`.
static UNDERSCORED: [(&str, Form); 9] = [
    ("pure_parser", Form::Nothing),
    ("name_prefix", Form::Text),
    ("default_prec", Form::DefaultPrecedence(true)),
    ("no_default_prec", Form::DefaultPrecedence(false)),
    ("error_verbose", Form::Nothing),
    ("expect_rr", Form::ReduceReduce),
    ("no_lines", Form::Nothing),
    ("token_table", Form::Nothing),
    ("fixed_output_files", Form::Nothing),
];

/// The names of the directives of grmtools, without `%`.
static GRMTOOLS: [(&str, Form); 13] = [
    ("token", Form::TokenNames),
    ("avoid_insert", Form::TokenNames),
    ("implicit_tokens", Form::PassedOver),
    ("left", Form::Level(LevelKind::Left)),
    ("right", Form::Level(LevelKind::Right)),
    ("nonassoc", Form::Level(LevelKind::Nonassoc)),
    ("expect-unused", Form::NotInRules),
    ("epp", Form::ShownText),
    ("start", Form::Starts),
    ("expect", Form::ShiftReduce),
    ("expect-rr", Form::ReduceReduce),
    ("prec", Form::Precedence),
    ("empty", Form::Empty),
];

/// What stands behind the directive of that name in a list.
fn form_in(names: &[(&str, Form)], name: &[u8]) -> Option<Form>
    ensures { (dialect : Dialect)
        → Each (λ pair. counted pair.1 ≡ form_of dialect (37 ∷ pair.0.now)) names.now
        → IfSome result (λ form. counted form ≡ form_of dialect (37 ∷ name.now)) }
{
    for at in 0..names.len() {
        if names[at].0.as_bytes() == name {
            return form_at(names, at);
        }
    }
    None
}

/// What stands behind the directive of that number in a list.
fn form_at(names: &[(&str, Form)], at: usize) -> Option<Form>
    ensures { result ≡ option_map (λ pair. pair.1) (slice_get names.now at) }
{
    match names.get(at) {
        Some((_, form)) => Some(*form),
        None => None,
    }
}

/// Whether a directive has that name, in letters of either case.
pub(crate) fn is_name_in_any_case(name: &[u8]) -> bool {
    for (listed, _) in &NAMES {
        if listed.as_bytes().eq_ignore_ascii_case(name) {
            return true;
        }
    }
    false
}

/// The name in a list that is the nearest one.
fn near_in(
    alloc: Global,
    names: &[(&'static str, Form)],
    name: &[u8],
) -> Result<Option<&'static str>, AllocError>
    ensures { IfOk result (λ near. IfSome near (λ near. IsNear name.now near.now)) }
{
    let mut best = None;
    for at in 0..names.len() {
        best = nearer(alloc, name, names[at].0.as_bytes(), at, best)?;
    }
    let Some(near) = best else {
        return Ok(None);
    };
    match names.get(near.at) {
        Some((name, _)) => Ok(Some(*name)),
        None => Ok(None),
    }
}

/// The directive of a dialect that is written nearly as that name, both without their `%`.
pub fn near_directive(
    alloc: Global,
    dialect: Dialect,
    name: &[u8],
) -> Result<Option<&'static str>, AllocError>
    ensures { IfOk result (λ near. IfSome near (λ near. IsNear name.now near.now)) }
{
    match dialect {
        Dialect::Bison => near_in(alloc, &NAMES, name),
        Dialect::Grmtools => near_in(alloc, &GRMTOOLS, name),
    }
}

/// What stands behind the directive of that name, which is written without its `%`, in a file of a dialect; None where there is no
/// such one.
pub(crate) fn form_of(name: &[u8], dialect: Dialect) -> Option<Form>
    ensures { IfSome result (λ form. counted form ≡ form_of dialect (37 ∷ name.now)) }
{
    match dialect {
        Dialect::Bison => match form_in(&NAMES, name) {
            Some(form) => Some(form),
            None => form_in(&UNDERSCORED, name),
        },
        Dialect::Grmtools => form_in(&GRMTOOLS, name),
    }
}
