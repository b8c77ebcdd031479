//! Positions that are listed, and which of these a position is.

ghost use Rattle.std.specs.Prelude.{◌≡◌, ◌∷◌, ◌++◌, [], Some, slice_get, option_map, IsTrue, IfOk, IfSome, OnOk};
ghost use Rattle.lrexchange.specs.Asked.{IsWonOrAmong};
ghost use Rattle.lrexchange.specs.Exchanges.{IsLevel, IsSame, IsListed};
ghost use Rattle.lrexchange.specs.StoredPositions.{mark_of, turn_of, ours_of, position_of, positions_of};

use crate::cuts::are_same_symbols;
use crate::places::{Places, Print};
use crate::positions::{Mark, Ours, Position, Turn};
use crate::sinking::sunk;
use lrclosing::items::is_same_symbol;
use lrgrammar::grammar::YaccGrammar;
use lrgrammar::idx::Symbol;
use lrgraphs::stategraph::StateGraph;
use std::alloc::{AllocError, Global};

/// Positions, with their places by what tells them apart.
#[derive(Drop)]
pub struct Listing {
    /// The positions.
    pub positions: Vec<Position>,
    /// Their places by fingerprints.
    places: Places,
}

/// Whether they do the same next.
fn is_same_turn(a: Turn, b: Turn) -> bool
    ensures { IsTrue result → turn_of a ≡ turn_of b }
{
    match (a, b) {
        (Turn::Even, Turn::Even) => true,
        (Turn::Open(production, dot), Turn::Open(other, place)) => {
            usize::from(production) == usize::from(other) && usize::from(dot) == usize::from(place)
        }
        (Turn::Ahead(token), Turn::Ahead(other)) => usize::from(token) == usize::from(other),
        (Turn::Before(token), Turn::Before(other)) => usize::from(token) == usize::from(other),
        (Turn::Behind(token), Turn::Behind(other)) => usize::from(token) == usize::from(other),
        _ => false,
    }
}

/// Whether the marks are the same.
fn is_same_mark(a: Mark, b: Mark) -> bool
    ensures { IsTrue result → mark_of a ≡ mark_of b }
{
    a.place == b.place
        && is_same_symbol(a.symbol, b.symbol)
        && is_same_symbol(a.under, b.under)
        && usize::from(a.state) == usize::from(b.state)
}

/// Whether both have the same mark, or none.
fn have_same_mark(a: Option<Mark>, b: Option<Mark>) -> bool
    ensures { IsTrue result → option_map mark_of a ≡ option_map mark_of b }
{
    match (a, b) {
        (Some(one), Some(other)) => is_same_mark(one, other),
        (None, None) => true,
        _ => false,
    }
}

/// Whether ours are the same.
fn are_same_ours(a: &Ours, b: &Ours) -> bool
    ensures { IsTrue result → ours_of a.now ≡ ours_of b.now }
{
    are_same_symbols(a.symbols.as_slice(), b.symbols.as_slice()) && have_same_mark(a.mark, b.mark)
}

/// Whether the positions are the same.
fn is_same_position(a: &Position, b: &Position) -> bool
    ensures { IsTrue result → position_of a.now ≡ position_of b.now }
{
    usize::from(a.state) == usize::from(b.state)
        && is_same_turn(a.turn, b.turn)
        && are_same_symbols(a.theirs.as_slice(), b.theirs.as_slice())
        && are_same_ours(&a.ours, &b.ours)
}

/// Whether the position is the one at this place.
fn is_at(positions: &[Position], place: usize, position: &Position) -> bool
    ensures { IsTrue result → slice_get (positions_of positions.now) place
        ≡ Some (position_of position.now) }
{
    place < positions.len() && is_same_position(&positions[place], position)
}

/// Whether neither we nor they have read more.
fn is_level(turn: Turn) -> bool
    ensures { IsTrue result → IsLevel (turn_of turn) }
{
    match turn {
        Turn::Even => true,
        Turn::Open(_, _) => true,
        Turn::Before(_) => true,
        Turn::Ahead(_) => false,
        Turn::Behind(_) => false,
    }
}

/// Whether they have just what we have.
pub(crate) fn is_same(position: &Position) -> bool
    ensures { IsTrue result → IsSame (position_of position.now) }
{
    let ours = &position.ours;
    is_level(position.turn)
        && ours.mark.is_none()
        && are_same_symbols(position.theirs.as_slice(), ours.symbols.as_slice())
}

/// The fingerprint with a symbol more.
fn print_with_symbol(print: Print, symbol: Symbol<u32>) -> Print {
    match symbol {
        Symbol::Rule(rule) => print.with(usize::from(rule).wrapping_mul(2)),
        Symbol::Token(token) => print.with(usize::from(token).wrapping_mul(2).wrapping_add(1)),
    }
}

/// The fingerprint with symbols more.
fn print_with_symbols(from: Print, symbols: &[Symbol<u32>]) -> Print {
    let mut print = from.with(symbols.len());
    for symbol in symbols {
        print = print_with_symbol(print, *symbol);
    }
    print
}

/// The fingerprint with a mark more, if there is one.
fn print_with_mark(print: Print, mark: Option<Mark>) -> Print {
    let Some(mark) = mark else {
        return print;
    };
    let symbol = print_with_symbol(print.with(mark.place), mark.symbol);
    print_with_symbol(symbol, mark.under).with(usize::from(mark.state))
}

/// The fingerprint of what they do next.
fn print_of_turn(turn: Turn) -> Print {
    match turn {
        Turn::Even => Print::EMPTY,
        Turn::Open(production, dot) => {
            let item = Print::EMPTY.with(1).with(usize::from(production));
            item.with(usize::from(dot))
        }
        Turn::Ahead(token) => Print::EMPTY.with(2).with(usize::from(token)),
        Turn::Before(token) => Print::EMPTY.with(3).with(usize::from(token)),
        Turn::Behind(token) => Print::EMPTY.with(4).with(usize::from(token)),
    }
}

/// The fingerprint of the position: other positions hardly ever have it.
fn print_of(position: &Position) -> Print {
    let begun = print_of_turn(position.turn).with(usize::from(position.state));
    let theirs = print_with_symbols(begun, position.theirs.as_slice());
    let both = print_with_symbols(theirs, position.ours.symbols.as_slice());
    print_with_mark(both, position.ours.mark)
}

impl Listing {
    /// No positions.
    pub fn new(alloc: Global) -> Result<Listing, AllocError>
        ensures { IfOk result (λ l. positions_of l.positions.items ≡ []) }
    {
        Ok(Listing {
            positions: Vec::new(alloc),
            places: Places::new(alloc),
        })
    }

    /// The place at which the position is listed.
    pub fn find(&self, position: &Position) -> Option<usize>
        ensures { IfSome result (λ k. slice_get (positions_of self.now.positions.items) k
            ≡ Some (position_of position.now)) }
    {
        let place = self.places.find(print_of(position))?;
        if is_at(self.positions.as_slice(), place, position) {
            return Some(place);
        }
        None
    }

    /// Whether the position is won at once, or is one of so many first ones.
    fn has_sunk(&self, position: &Position, bound: usize) -> bool
        ensures { IsTrue result → IsWonOrAmong (positions_of self.now.positions.items)
            bound (position_of position.now) }
    {
        if is_same(position) {
            return true;
        }
        match self.find(position) {
            Some(place) => place < bound,
            None => false,
        }
    }

    /// Whether the position is won at once, or is one of so many first ones, where what both stacks have at first is counted to
    /// what is not named.
    pub fn has(
        &self,
        grm: &YaccGrammar<u32>,
        graph: &StateGraph<u32>,
        position: &Position,
        bound: usize,
    ) -> Result<bool, AllocError>
        ensures { IfOk result (λ b. IsTrue b → IsListed graph.now
            (positions_of self.now.positions.items) bound (position_of position.now)) }
    {
        let low = sunk(grm, graph, position)?;
        match low {
            Some(below) => Ok(self.has_sunk(&below, bound)),
            None => Ok(self.has_sunk(position, bound)),
        }
    }

    /// Adds the position behind the others.
    pub fn add(&mut self, position: Position) -> Result<(), AllocError>
        ensures { OnOk result (positions_of self.new.positions.items
            ≡ positions_of self.old.positions.items ++ position_of position ∷ []) }
    {
        let print = print_of(&position);
        self.places.add(print, self.positions.len())?;
        self.positions.push(position)?;
        Ok(())
    }
}
