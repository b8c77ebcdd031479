//! Positions at which two ways to go on are compared.

ghost use Rattle.std.specs.Prelude.{◌≡◌, ◌+◌, ◌∷◌, ◌++◌, [], IfOk, IfSome};
ghost use Rattle.lrgrammar.specs.Symbols.{number_of, symbol_of};
ghost use Rattle.lrexchange.specs.Positions.{least_of, raised, pushed};
ghost use Rattle.lrexchange.specs.StoredPositions.{symbols_of, mark_of, turn_of, ours_of, position_of};
ghost use Rattle.lrexchange.specs.Asked.{deepened};

use crate::below::Below;
use lrgrammar::idx::{PIdx, SIdx, StIdx, Symbol, TIdx};
use std::alloc::{AllocError, Global};

/// What stands for symbols that are not known.
#[derive(Clone, Copy)]
pub struct Mark {
    /// How many of our symbols stand before them.
    pub place: usize,
    /// The symbol to which they are reduced together with the other one behind them.
    pub symbol: Symbol<u32>,
    /// That other one.
    pub under: Symbol<u32>,
    /// The state to which they lead.
    pub state: StIdx<u32>,
}

/// Our symbols above those that both stacks have, and a mark among them.
#[derive(Drop)]
pub struct Ours {
    /// The symbols.
    pub symbols: Vec<Symbol<u32>>,
    /// The mark.
    pub mark: Option<Mark>,
}

/// What they do next.
#[derive(Clone, Copy)]
pub enum Turn {
    /// They go on.
    Even,
    /// The item is open on their stack: they read what derives the rest of its body, and reduce by it.
    Open(PIdx<u32>, SIdx<u32>),
    /// They go on with the token, which we have read.
    Ahead(TIdx<u32>),
    /// They go on with the token, which we have to read too.
    Before(TIdx<u32>),
    /// They go on behind the token, which we have to read.
    Behind(TIdx<u32>),
}

/// A position: the state to which what both stacks have leads, and what they and we have above that.
#[derive(Drop)]
pub struct Position {
    /// What they do next.
    pub turn: Turn,
    /// The state.
    pub state: StIdx<u32>,
    /// Their symbols.
    pub theirs: Vec<Symbol<u32>>,
    /// Ours.
    pub ours: Ours,
}

/// The symbols of both lists.
pub(crate) fn joined(
    alloc: Global,
    symbols: &[Symbol<u32>],
    others: &[Symbol<u32>],
) -> Result<Vec<Symbol<u32>>, AllocError>
    ensures { IfOk result (λ v. symbols_of v.items
        ≡ symbols_of symbols.now ++ symbols_of others.now) }
{
    let count = symbols.len().saturating_add(others.len());
    let mut all = Vec::with_capacity(alloc, count)?;
    all.extend_from_slice(symbols)?;
    all.extend_from_slice(others)?;
    Ok(all)
}

/// The symbols with one more behind them.
pub(crate) fn with_symbol(
    alloc: Global,
    symbols: &[Symbol<u32>],
    symbol: Symbol<u32>,
) -> Result<Vec<Symbol<u32>>, AllocError>
    ensures { IfOk result (λ v. symbols_of v.items
        ≡ symbols_of symbols.now ++ symbol_of number_of symbol ∷ []) }
{
    let mut all = Vec::with_capacity(alloc, symbols.len().saturating_add(1))?;
    all.extend_from_slice(symbols)?;
    all.push(symbol)?;
    Ok(all)
}

/// The mark with so many more symbols before it; None where these are too many.
fn raised_mark(mark: Mark, by: usize) -> Option<Mark>
    ensures { IfSome result (λ m. mark_of m ≡ record (mark_of mark) {
      place = by + mark.place;
    }) }
{
    let place = by.checked_add(mark.place)?;
    Some(Mark {
        place,
        symbol: mark.symbol,
        under: mark.under,
        state: mark.state,
    })
}

impl Ours {
    /// The same.
    pub(crate) fn copied(&self, alloc: Global) -> Result<Ours, AllocError>
        ensures { IfOk result (λ y. ours_of y ≡ ours_of self.now) }
    {
        let symbols = Vec::from_slice(alloc, self.symbols.as_slice())?;
        let mark = self.mark;
        Ok(Ours { symbols, mark })
    }

    /// Below how many of our symbols none are taken away.
    pub(crate) fn least(&self) -> usize
        ensures { result ≡ least_of (ours_of self.now).mark }
    {
        match self.mark {
            Some(mark) => mark.place,
            None => 0,
        }
    }

    /// Ours with some of what both have; None where a mark would be too high.
    pub(crate) fn raised(
        &self,
        alloc: Global,
        both: &[Symbol<u32>],
    ) -> Result<Option<Ours>, AllocError>
        ensures { IfOk result (λ o. IfSome o (λ y. ours_of y
            ≡ raised (symbols_of both.now) (ours_of self.now))) }
    {
        let symbols = joined(alloc, both, self.symbols.as_slice())?;
        let Some(mark) = self.mark else {
            return Ok(Some(Ours {
                symbols,
                mark: None,
            }));
        };
        let Some(mark) = raised_mark(mark, both.len()) else {
            return Ok(None);
        };
        Ok(Some(Ours {
            symbols,
            mark: Some(mark),
        }))
    }

    /// Ours with a symbol behind them.
    pub(crate) fn pushed(&self, alloc: Global, symbol: Symbol<u32>) -> Result<Ours, AllocError>
        ensures { IfOk result (λ y. ours_of y
            ≡ pushed (ours_of self.now) (symbol_of number_of symbol ∷ [])) }
    {
        let symbols = with_symbol(alloc, self.symbols.as_slice(), symbol)?;
        let mark = self.mark;
        Ok(Ours { symbols, mark })
    }
}

impl Position {
    /// The position with the same stacks where they do this next.
    pub fn with_turn(&self, alloc: Global, turn: Turn) -> Result<Position, AllocError>
        ensures { IfOk result (λ a. position_of a
            ≡ record (position_of self.now) { turn = turn_of turn }) }
    {
        let theirs = Vec::from_slice(alloc, self.theirs.as_slice())?;
        let ours = self.ours.copied(alloc)?;
        Ok(Position {
            turn,
            state: self.state,
            theirs,
            ours,
        })
    }

    /// The same position with what is below it named.
    pub(crate) fn deepened(
        &self,
        alloc: Global,
        below: &Below,
    ) -> Result<Option<Position>, AllocError>
        ensures { IfOk result (λ o. IfSome o (λ a. position_of a ≡ deepened (position_of self.now)
            below.now.state.0 (symbols_of below.now.symbols.items))) }
    {
        let both = below.symbols.as_slice();
        let theirs = joined(alloc, both, self.theirs.as_slice())?;
        let Some(ours) = self.ours.raised(alloc, both)? else {
            return Ok(None);
        };
        Ok(Some(Position {
            turn: self.turn,
            state: below.state,
            theirs,
            ours,
        }))
    }
}
