//! The productions of `$accept`.

ghost use Rattle.std.specs.Prelude.{◌≡◌, [], ◌∷◌, Some, map, slice_get, IfOk, OnOk, None};
ghost use Rattle.lryacc.specs.ProductionPlaces.{Adds};
ghost use Rattle.lryacc.specs.BodyProductions.{AddsProduction, AddsProductions, AreMarks, AreRelated, IsMarked, IsOfStart};
ghost use Rattle.lryacc.specs.BodyProductions.{is_one, start_symbols_of};
ghost use Rattle.lryacc.specs.Numbered.{IsNumbered, names_of};

use crate::contents::BodyPart;
use crate::lexemes::Lexeme;
use crate::numbering::{NoProductions, Numbering};
use crate::productions::Productions;
use lrgrammar::grammar::{PartProd, PartSymbol};
use std::alloc::{AllocError, Global};

/// The symbols of the production of a start rule, behind a token of its own where there are several.
fn start_symbols(
    alloc: Global,
    start: PartSymbol,
    mark: Option<usize>,
) -> Result<Vec<PartSymbol>, AllocError>
    ensures { IfOk result (λ symbols. symbols.items ≡ start_symbols_of start mark) }
{
    let end = PartSymbol::Token(0);
    Ok(match mark {
        Some(mark) => vec![in alloc; PartSymbol::Token(mark), start, end]?,
        None => vec![in alloc; start, end]?,
    })
}

/// The token before a start rule, by the place of this among the others.
fn mark_at(marks: &[usize], at: usize) -> Option<usize>
    ensures { result ≡ slice_get marks.now at }
{
    marks.get(at).copied()
}

impl<'m, 'a> Numbering<'m, 'a> {
    /// Adds the production of `$accept` that begins with a start symbol, or with a token before it.
    fn add_start(
        &self,
        productions: &mut Productions,
        start: Lexeme,
        mark: Option<usize>,
    ) -> Result<(), NoProductions>
        requires { IsNumbered self.now }
        ensures places { OnOk result (Adds productions.old productions.new (start.span ∷ [])) }
        ensures added { OnOk result (AddsProduction productions.old productions.new
            (IsMarked (names_of self.now) start mark)) }
    {
        let alloc = self.allocator();
        let symbol = self.symbol_of(BodyPart::Symbol(start))?;
        let symbols = start_symbols(alloc, symbol, mark)?;
        let places = vec![in alloc; start.span; symbols.len()]?;
        let prod = PartProd {
            rule: 0,
            symbols,
            precedence: None,
        };
        productions.add(prod, start.span, places)?;
        Ok(())
    }

    /// Adds the productions of `$accept`.
    pub(super) fn add_starts(
        &self,
        productions: &mut Productions,
        starts: &[Lexeme],
        marks: &[usize],
    ) -> Result<(), NoProductions>
        requires numbered { IsNumbered self.now }
        requires marks { AreMarks (names_of self.now) (is_one starts.now) starts.now marks.now }
        ensures places { OnOk result (Adds productions.old productions.new
            (map (λ start. start.span) starts.now)) }
        ensures added { OnOk result (AddsProductions productions.old productions.new
            (AreRelated (IsOfStart (names_of self.now) (is_one starts.now)) starts.now)) }
    {
        for (at, start) in starts.iter().enumerate() {
            self.add_start(productions, *start, mark_at(marks, at))?;
        }
        Ok(())
    }
}
