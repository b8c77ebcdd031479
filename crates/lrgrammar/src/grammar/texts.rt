//! The texts of productions.

ghost use Rattle.std.specs.Prelude.{◌≡◌, ℕ, ◌<◌, ◌++◌, IfOk, length, map, codes};
ghost use Rattle.std.specs.String.{string_bytes};
ghost use Rattle.std.specs.List.{flat_map};
ghost use Rattle.lrspec.specs.texts.PrintedTexts.{symbol_name, quoted, production_text};
ghost use Rattle.lrgrammar.specs.Symbols.{symbol_of};

use crate::grammar::YaccGrammar;
use crate::idx::{IndexStorage, PIdx, Symbol};
use std::alloc::AllocError;

impl<T: IndexStorage> YaccGrammar<T> {
    /// The name of a symbol, empty where there is none.
    fn symbol_name_str(&self, symbol: &Symbol<T>) -> &str
        ensures { result.now ≡ symbol_name self.now (symbol_of T.number symbol.now) }
    {
        let name = match symbol {
            Symbol::Rule(ridx) => self.rule_names.get(ridx.0.to_usize()),
            Symbol::Token(tidx) => self.token_names.get(tidx.0.to_usize()),
        };
        match name {
            Some(name) => name.as_str(),
            None => "",
        }
    }

    /// The text of a production: its rule's name, a colon, and for each symbol a space and its name
    /// in double quotes, as `B: "a"`. The error says that memory was refused.
    pub fn pp_prod(&self, pidx: PIdx<T>) -> Result<String, AllocError>
        requires { T.number pidx.0 < length self.now.productions }
        ensures { IfOk result (λ s. string_bytes s ≡ production_text self.now (T.number pidx.0)) }
    {
        let rule = Symbol::Rule(self.prod_to_rule(pidx));
        let mut text = String::from_str(self.allocator(), self.symbol_name_str(&rule))?;
        text.push_str(":")?;
        for symbol in self.prod(pidx) {
            text.push_str(" \"")?;
            text.push_str(self.symbol_name_str(symbol))?;
            text.push_str("\"")?;
        }
        Ok(text)
    }
}
