//! The parts of the grammar of a file, with their places.

ghost use Rattle.std.specs.Prelude.{◌≡◌, ◌+◌, [], ◌∷◌, ◌++◌, Some, map, flat_map, length, slice_get, IfOk, OnOk, IfSome, None};
ghost use Rattle.lryacc.specs.ProductionPlaces.{ArePlaced, IsPlaced, body_places, file_places, start_rules_of};
ghost use Rattle.lryacc.specs.BodyProductions.{AreMarks, AreOfFile, is_one};
ghost use Rattle.lryacc.specs.FileProductions.{HasProductions};
ghost use Rattle.lryacc.specs.NamedSymbols.{IsNamed};
ghost use Rattle.lryacc.specs.Numbered.{AddsNumbers, BeginsWithEnd, HaveRules, IsLevelled, IsNumbered, names_of};

mod bodies;
mod marks;
mod precedences;
mod rules;
mod starts;
mod token_places;
mod tokens;

use crate::contents::{Alternative, Contents};
use crate::lexemes::Lexeme;
use crate::meaning::Meaning;
pub use crate::numbering::token_places::{NamedPrecedence, TokenPlaces};
use crate::places::Span;
use crate::productions::Productions;
use crate::symbols::Symbol;
use lrgrammar::grammar::{GrammarParts, PartSymbol};
use std::alloc::{AllocError, Global};
use std::collections::BTreeMap;
use std::slice;

/// The grammar of a file, and where its parts stand.
#[derive(Debug, Drop)]
pub struct FileGrammar {
    /// Its parts. Rule 0 is `$accept`, with one production for each start rule, which the end token ends; token 0 is the end
    /// token. An action that stands before the end of a body is a rule of its own, with one empty production. Names are those of
    /// the file; in one that is no UTF-8, each byte that is not ASCII, and each backslash, is written by its number, as in
    /// `\x{E9}`, so that other names stay other ones.
    pub parts: GrammarParts,
    /// By rule, where it is named first as one.
    pub rule_places: Vec<Span>,
    /// By production, where its body stands.
    pub production_places: Vec<Span>,
    /// By production, where the symbols of its body stand.
    pub symbol_places: Vec<Vec<Span>>,
    /// Where declarations have its tokens, and what stands behind `%prec`.
    pub token_places: TokenPlaces,
}

impl FileGrammar {
    /// No parts.
    pub(crate) fn empty(alloc: Global) -> FileGrammar
        ensures rules { result.parts.rules.items ≡ [] }
        ensures tokens { result.parts.tokens.items ≡ [] }
        ensures places { result.rule_places.items ≡ [] }
        ensures start { result.parts.start ≡ 0 }
    {
        FileGrammar {
            parts: GrammarParts {
                rules: Vec::new(alloc),
                tokens: Vec::new(alloc),
                prods: Vec::new(alloc),
                start: 0,
            },
            rule_places: Vec::new(alloc),
            production_places: Vec::new(alloc),
            symbol_places: Vec::new(alloc),
            token_places: TokenPlaces::new(alloc),
        }
    }

    /// Adds a rule, and answers its number.
    pub(crate) fn add_rule(&mut self, name: String, place: Span) -> Result<usize, AllocError>
        ensures rules { OnOk result (self.new.parts.rules.items
            ≡ self.old.parts.rules.items ++ name ∷ []) }
        ensures places { OnOk result (self.new.rule_places.items
            ≡ self.old.rule_places.items ++ place ∷ []) }
        ensures tokens { self.new.parts.tokens ≡ self.old.parts.tokens }
        ensures number { IfOk result (λ number. number ≡ length self.old.parts.rules.items) }
    {
        let number = self.parts.rules.len();
        self.parts.rules.push(name)?;
        self.rule_places.push(place)?;
        Ok(number)
    }

    /// The same rules and tokens, with these productions.
    pub(crate) fn with_productions(
        self,
        token_places: TokenPlaces,
        productions: Productions,
    ) -> FileGrammar
        ensures rules { result.parts.rules.items ≡ self.parts.rules.items }
        ensures rule_places { result.rule_places.items ≡ self.rule_places.items }
        ensures tokens { result.parts.tokens.items ≡ self.parts.tokens.items }
        ensures prods { result.parts.prods.items ≡ productions.prods.items }
        ensures places { result.production_places.items ≡ productions.places.items }
        ensures symbol_places { result.symbol_places.items ≡ productions.symbol_places.items }
        ensures start { result.parts.start ≡ self.parts.start }
    {
        let FileGrammar {
            parts,
            rule_places,
            ..
        } = self;
        FileGrammar {
            parts: GrammarParts {
                prods: productions.prods,
                ..parts
            },
            rule_places,
            production_places: productions.places,
            symbol_places: productions.symbol_places,
            token_places,
        }
    }
}

/// Why a file has no productions.
#[derive(Clone, Copy)]
pub(crate) enum NoProductions {
    /// What stands here is no symbol of the grammar, or no rule before a colon.
    Undefined(Span),
    /// Memory was refused.
    Memory,
}

impl From<AllocError> for NoProductions {
    fn from(_refused: AllocError) -> NoProductions {
        NoProductions::Memory
    }
}

/// The rules and tokens of a grammar, and which symbols of the file they are.
#[derive(Drop)]
struct Numbering<'m, 'a> {
    meaning: &'m Meaning<'a>,
    contents: &'m Contents,
    /// The numbers of rules and tokens, by the number of their symbol.
    rules: BTreeMap<usize, usize>,
    tokens: BTreeMap<usize, usize>,
    /// The token that stands below those of a `%precedence` line, by how many lines begin before that.
    below: BTreeMap<usize, usize>,
    /// A token without a level, where productions without `%prec` have no precedence.
    without_level: Option<usize>,
    /// The rules that actions before the ends of bodies are, by where these begin.
    actions: BTreeMap<usize, usize>,
    /// The rules and tokens themselves, with no production.
    grammar: FileGrammar,
}

/// Where nothing of the file stands.
fn nowhere() -> Span {
    Span::new(0, 0)
}

impl<'m, 'a> Numbering<'m, 'a> {
    /// The rule `$accept`, and no other part.
    fn new(
        alloc: Global,
        meaning: &'m Meaning<'a>,
        contents: &'m Contents,
    ) -> Result<Numbering<'m, 'a>, AllocError>
        ensures meaning { IfOk result (λ numbering. numbering.meaning.now ≡ meaning.now) }
        ensures contents { IfOk result (λ numbering. numbering.contents.now ≡ contents.now) }
        ensures numbered { IfOk result IsNumbered }
        ensures levelled { IfOk result IsLevelled }
        ensures tokens { IfOk result (λ numbering. numbering.grammar.parts.tokens.items ≡ []) }
    {
        let accept = String::from_str(alloc, "$accept")?;
        let mut grammar = FileGrammar::empty(alloc);
        let _ = grammar.add_rule(accept, nowhere())?;
        Ok(Numbering {
            meaning,
            contents,
            rules: BTreeMap::new(alloc),
            tokens: BTreeMap::new(alloc),
            below: BTreeMap::new(alloc),
            without_level: None,
            actions: BTreeMap::new(alloc),
            grammar,
        })
    }

    /// The memory that the parts take.
    fn allocator(&self) -> Global {
        *self.grammar.rule_places.allocator()
    }

    /// Adds the tokens and the rules, and answers the tokens before the start rules.
    #[tactic(auto, using(crate::proofs::Numbered::adds_again, crate::proofs::Numbered::adds_none))]
    fn add_symbols(&mut self, starts: &[Lexeme]) -> Result<Vec<usize>, NoProductions>
        requires { self.old.grammar.parts.tokens.items ≡ [] }
        ensures added { OnOk result (AddsNumbers self.old self.new) }
        ensures end { OnOk result (IsNumbered self.old → BeginsWithEnd self.new) }
        ensures have { OnOk result (HaveRules self.old.contents.now.statements.items self.new) }
        ensures marks { IfOk result (λ marks. AreMarks (names_of self.new) (is_one starts.now)
            starts.now marks.items) }
    {
        self.add_first_tokens()?;
        self.add_tokens()?;
        self.add_tokens_below()?;
        self.add_without_level()?;
        self.add_rules()?;
        self.add_bare_rules()?;
        Ok(self.add_marks(starts)?)
    }

    /// A symbol of the file.
    fn known(&self, number: usize) -> Option<Symbol>
        ensures { result ≡ slice_get self.now.meaning.now.symbols.list.items number }
    {
        self.meaning.symbols.list.get(number).copied()
    }

    /// The symbol of a body that a lexeme names, if it is one.
    fn symbol(&self, lexeme: Lexeme) -> Option<PartSymbol>
        ensures { IsNumbered self.now → IfSome result (IsNamed (names_of self.now) lexeme) }
    {
        let number = self.meaning.find(lexeme)?;
        match (self.rules.get(&number), self.tokens.get(&number)) {
            (Some(rule), _) => Some(PartSymbol::Rule(*rule)),
            (None, Some(token)) => Some(PartSymbol::Token(*token)),
            (None, None) => None,
        }
    }

    /// The token that a lexeme names.
    fn token(&self, lexeme: Lexeme) -> Option<usize>
        ensures { IsNumbered self.now → IfSome result (λ token.
            IsNamed (names_of self.now) lexeme (PartSymbol.Token token)) }
    {
        match self.symbol(lexeme) {
            Some(PartSymbol::Token(token)) => Some(token),
            _ => None,
        }
    }

    /// The productions: those of the start rules, and then those of the bodies.
    fn productions(
        &self,
        starts: &[Lexeme],
        marks: &[usize],
        alternatives: &[Alternative],
    ) -> Result<Productions, NoProductions>
        requires numbered { IsNumbered self.now }
        requires levelled { IsLevelled self.now }
        requires marks { AreMarks (names_of self.now) (is_one starts.now) starts.now marks.now }
        ensures productions { IfOk result (λ all. AreOfFile (names_of self.now) starts.now
            alternatives.now all.prods.items) }
        ensures places { IfOk result (λ all. all.places.items
            ≡ map (λ start. start.span) starts.now ++ flat_map body_places alternatives.now) }
        ensures placed { IfOk result ArePlaced }
    {
        let mut productions = Productions::new(self.allocator());
        self.add_starts(&mut productions, starts, marks)?;
        self.add_alternatives(&mut productions, alternatives)?;
        Ok(productions)
    }
}

/// The start rules: those behind `%start`, or else that of the first body.
fn start_rules<'s>(meaning: &'s Meaning<'_>, alternatives: &'s [Alternative]) -> &'s [Lexeme]
    ensures { result.now ≡ start_rules_of meaning.now.starts.items alternatives.now }
{
    match alternatives {
        [first, ..] if meaning.starts.is_empty() => slice::from_ref(&first.rule),
        _ => meaning.starts.as_slice(),
    }
}

/// The grammar of what a file says. The error says that memory was refused.
pub(crate) fn file_grammar(
    alloc: Global,
    meaning: &Meaning<'_>,
    contents: &Contents,
) -> Result<FileGrammar, NoProductions>
    ensures places { IfOk result (λ file. file.production_places.items
        ≡ file_places meaning.now.starts.items contents.now.alternatives.items) }
    ensures placed { IfOk result IsPlaced }
    ensures productions { IfOk result (HasProductions meaning.now contents.now) }
{
    let alternatives = contents.alternatives.as_slice();
    let starts = start_rules(meaning, alternatives);
    let mut numbering = Numbering::new(alloc, meaning, contents)?;
    let marks = numbering.add_symbols(starts)?;
    let token_places = numbering.token_places(contents)?;
    let productions = numbering.productions(starts, marks.as_slice(), alternatives)?;
    Ok(
        numbering
            .grammar
            .with_productions(token_places, productions),
    )
}
