//! What a grammar is made of.

/// The parts of a grammar. Rules and tokens are named by their places in these lists.
#[derive(Debug, Drop)]
pub struct GrammarParts {
    /// The names of the rules, without `^`.
    pub rules: Vec<String>,
    /// The tokens, without the end token.
    pub tokens: Vec<PartToken>,
    /// The productions, without the start production.
    pub prods: Vec<PartProd>,
    /// The start rule.
    pub start: usize,
}

/// A token.
#[derive(Debug, Drop)]
pub struct PartToken {
    /// Any text.
    pub name: String,
    /// None where the token has no precedence.
    pub precedence: Option<Precedence>,
}

/// A production.
#[derive(Debug, Drop)]
pub struct PartProd {
    /// The place of its rule in `rules`.
    pub rule: usize,
    /// Its body.
    pub symbols: Vec<PartSymbol>,
    /// The place in `tokens` of the token whose precedence it has, which `%prec` names; None where it
    /// has that of the last token in its body. (Yacc's rule; Bison's manual has it under
    /// "Context-Dependent Precedence".)
    pub precedence: Option<usize>,
}

/// A symbol of a body.
#[derive(Clone, Copy, Debug, PartialEq, Eq)]
pub enum PartSymbol {
    /// The rule at this place of `rules`.
    Rule(usize),
    /// The token at this place of `tokens`.
    Token(usize),
}

/// The precedence of a token.
#[derive(Clone, Copy, Debug, PartialEq, Eq)]
pub struct Precedence {
    /// A higher level binds tighter.
    pub level: u64,
    /// One for all tokens of the level.
    pub kind: AssocKind,
}

/// How operators of one level group.
#[derive(Clone, Copy, Debug, PartialEq, Eq)]
pub enum AssocKind {
    /// `a - b - c` is `(a - b) - c`.
    Left,
    /// `a = b = c` is `a = (b = c)`.
    Right,
    /// `a < b < c` is an error.
    Nonassoc,
}
