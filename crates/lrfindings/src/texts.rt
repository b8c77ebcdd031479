//! The small text of a file's grammar, which `lrt` reads.

use crate::names::{Names, push_quoted, rule_name, token_name};
use lrgrammar::grammar::{AssocKind, PartProd, PartSymbol};
use lryacc::FileGrammar;
use std::alloc::{AllocError, Global};
use std::collections::BTreeMap;

/// How long a line of tokens gets before the next one begins.
const LINE: usize = 72;

/// A text in the making.
#[derive(Drop)]
struct Writer<'a> {
    file: &'a FileGrammar,
    /// The names of the rules, and of the tokens, in the text.
    rules: Vec<String>,
    tokens: Vec<String>,
    text: String,
    /// How long the text was when the line in hand began.
    line: usize,
}

/// The names of the rules in the text.
fn rule_names(alloc: Global, file: &FileGrammar) -> Result<Vec<String>, AllocError> {
    let mut names = Names::new(alloc);
    let mut list = Vec::new(alloc);
    for name in &file.parts.rules {
        let plain = rule_name(alloc, name.as_str())?;
        list.push(names.unique(alloc, plain)?)?;
    }
    Ok(list)
}

/// The names of the tokens in the text.
fn token_names(alloc: Global, file: &FileGrammar) -> Result<Vec<String>, AllocError> {
    let mut names = Names::new(alloc);
    let mut list = Vec::new(alloc);
    for token in &file.parts.tokens {
        let plain = token_name(alloc, token.name.as_str())?;
        list.push(names.unique(alloc, plain)?)?;
    }
    Ok(list)
}

/// The word of a precedence line.
fn word_of(kind: AssocKind) -> &'static str {
    match kind {
        AssocKind::Left => "%left",
        AssocKind::Right => "%right",
        AssocKind::Nonassoc => "%nonassoc",
    }
}

impl<'a> Writer<'a> {
    /// Adds a word behind a space, in a line of its own where the one in hand is long.
    fn push_token(&mut self, token: usize) -> Result<(), AllocError> {
        if self.text.len().saturating_sub(self.line) > LINE {
            self.line = self.text.len();
            self.text.push('\n')?;
        }
        self.text.push(' ')?;
        match self.tokens.get(token) {
            Some(name) => push_quoted(&mut self.text, name.as_str()),
            None => Ok(()),
        }
    }

    /// Begins a line with a word.
    fn begin(&mut self, word: &str) -> Result<(), AllocError> {
        self.line = self.text.len();
        self.text.push_str(word)
    }

    /// Adds all tokens, so that they have their numbers.
    fn push_tokens(&mut self) -> Result<(), AllocError> {
        self.begin("%token")?;
        for token in 0..self.tokens.len() {
            self.push_token(token)?;
        }
        self.text.push('\n')
    }

    /// The tokens of each level.
    fn levels(&self) -> Result<BTreeMap<u64, Vec<usize>>, AllocError> {
        let alloc = *self.rules.allocator();
        let mut levels: BTreeMap<u64, Vec<usize>> = BTreeMap::new(alloc);
        for token in 0..self.file.parts.tokens.len() {
            if let Some(precedence) = self.file.parts.tokens[token].precedence {
                if let Some(tokens) = levels.get_mut(&precedence.level) {
                    tokens.push(token)?;
                } else {
                    levels.insert(precedence.level, vec![in alloc; token]?)?;
                }
            }
        }
        Ok(levels)
    }

    /// Adds a precedence line.
    fn push_level(&mut self, tokens: &[usize]) -> Result<(), AllocError> {
        let Some(first) = tokens.first() else {
            return Ok(());
        };
        let Some(token) = self.file.parts.tokens.get(*first) else {
            return Ok(());
        };
        let Some(precedence) = token.precedence else {
            return Ok(());
        };
        self.begin(word_of(precedence.kind))?;
        for token in tokens {
            self.push_token(*token)?;
        }
        self.text.push('\n')
    }

    /// Adds the precedence lines.
    fn push_levels(&mut self) -> Result<(), AllocError> {
        let levels = self.levels()?;
        for tokens in levels.values() {
            self.push_level(tokens.as_slice())?;
        }
        Ok(())
    }

    /// Adds a symbol of a body.
    fn push_symbol(&mut self, symbol: PartSymbol) -> Result<(), AllocError> {
        match symbol {
            PartSymbol::Token(token) => self.push_token(token),
            PartSymbol::Rule(rule) => {
                self.text.push(' ')?;
                match self.rules.get(rule) {
                    Some(name) => self.text.push_str(name.as_str()),
                    None => Ok(()),
                }
            }
        }
    }

    /// Adds a production: behind one of the same rule as a further body of it.
    fn push_production(
        &mut self,
        prod: &PartProd,
        before: Option<usize>,
        has_precedences: bool,
    ) -> Result<(), AllocError> {
        self.line = self.text.len();
        if before == Some(prod.rule) {
            self.text.push_str("    |")?;
        } else {
            if before.is_some() {
                self.text.push_str("    ;\n")?;
            }
            if let Some(name) = self.rules.get(prod.rule) {
                self.text.push_str(name.as_str())?;
            }
            self.text.push(':')?;
        }
        for symbol in &prod.symbols {
            self.push_symbol(*symbol)?;
        }
        if let Some(token) = prod.precedence {
            if has_precedences {
                self.text.push_str(" %prec")?;
                self.push_token(token)?;
            }
        }
        self.text.push('\n')
    }

    /// Adds the productions.
    fn push_productions(&mut self, has_precedences: bool) -> Result<(), AllocError> {
        let file = self.file;
        let mut before = None;
        for prod in &file.parts.prods {
            self.push_production(prod, before, has_precedences)?;
            before = Some(prod.rule);
        }
        if before.is_some() {
            self.text.push_str("    ;\n")?;
        }
        Ok(())
    }
}

/// The text of a file's grammar, in the form that `lrt` reads, with its precedences or without. Tokens and productions have
/// their numbers, and rule 0 is the start. The error says that memory was refused.
pub fn small_text(
    alloc: Global,
    file: &FileGrammar,
    has_precedences: bool,
) -> Result<String, AllocError> {
    let mut writer = Writer {
        file,
        rules: rule_names(alloc, file)?,
        tokens: token_names(alloc, file)?,
        text: String::new(alloc),
        line: 0,
    };
    writer.push_tokens()?;
    if has_precedences {
        writer.push_levels()?;
    }
    writer.text.push_str("%%\n")?;
    writer.push_productions(has_precedences)?;
    Ok(writer.text)
}
