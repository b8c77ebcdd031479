//! Lists of symbols, each kept once and known by its number (hash consing): a list is its first symbol and the rest, so that
//! what ends alike is shared.

use crate::beginnings::Firsts;
use crate::numbers::{Hash, Numbers};
use crate::texts::Texts;
use lrgrammar::idx::Symbol;
use std::alloc::{AllocError, Global};

/// A list that is longer is not kept.
const LONGEST: usize = 60;

/// A list of symbols, by its number; 0 is the empty one.
#[derive(Clone, Copy, PartialEq, Eq)]
pub(crate) struct Rest(u32);

impl Rest {
    /// The empty list.
    pub(crate) const EMPTY: Rest = Rest(0);

    /// The hash with the list's number.
    pub(crate) fn hashed(self, hash: Hash) -> Hash {
        hash.with(self.0)
    }
}

/// A list that isn't empty.
#[derive(Clone, Copy)]
struct Cell {
    head: Symbol<u32>,
    tail: Rest,
    length: u32,
    /// Whether the first symbol derives nothing, and whether all do.
    is_head_nullable: bool,
    is_nullable: bool,
}

/// The lists that there are.
#[derive(Drop)]
pub(crate) struct Rests {
    /// List 1, and so on.
    cells: Vec<Cell>,
    numbers: Numbers,
    /// The symbols of the list that is put before another one.
    front: Vec<Symbol<u32>>,
}

/// The hash of the list with a symbol before another list.
fn hash_of(head: Symbol<u32>, tail: Rest) -> Hash {
    let hash = tail.hashed(Hash::EMPTY);
    match head {
        Symbol::Token(token) => hash.with(0).with(token.0),
        Symbol::Rule(rule) => hash.with(1).with(rule.0),
    }
}

impl Rests {
    /// The empty list alone.
    pub(crate) fn new(alloc: Global) -> Rests {
        Rests {
            cells: Vec::new(alloc),
            numbers: Numbers::new(alloc),
            front: Vec::new(alloc),
        }
    }

    /// How many lists there are that aren't empty.
    pub(crate) fn len(&self) -> usize {
        self.cells.len()
    }

    /// The list that isn't empty.
    fn cell(&self, rest: Rest) -> Option<Cell> {
        let place = (rest.0 as usize).checked_sub(1)?;
        self.cells.get(place).copied()
    }

    /// The first symbol.
    pub(crate) fn head(&self, rest: Rest) -> Option<Symbol<u32>> {
        Some(self.cell(rest)?.head)
    }

    /// The list without its first symbol.
    pub(crate) fn tail(&self, rest: Rest) -> Rest {
        self.cell(rest).map_or(Rest::EMPTY, |cell| cell.tail)
    }

    /// How many symbols there are.
    pub(crate) fn length(&self, rest: Rest) -> usize {
        self.cell(rest).map_or(0, |cell| cell.length as usize)
    }

    /// Whether all symbols derive nothing.
    pub(crate) fn is_nullable(&self, rest: Rest) -> bool {
        self.cell(rest).is_none_or(|cell| cell.is_nullable)
    }

    /// The list with that hash that has the symbol before the other list, if it is there.
    fn known(&self, hash: Hash, head: Symbol<u32>, tail: Rest) -> Option<Rest> {
        let mut probe = self.numbers.probe(hash);
        for _ in 0..self.cells.len() {
            let rest = Rest(self.numbers.next(&mut probe)?);
            let cell = self.cell(rest)?;
            if cell.tail == tail && cell.head == head {
                return Some(rest);
            }
        }
        None
    }

    /// The list with a symbol before it. None where it gets too long, or the symbol has no text.
    pub(crate) fn with_head(
        &mut self,
        texts: &Texts,
        head: Symbol<u32>,
        tail: Rest,
    ) -> Result<Option<Rest>, AllocError> {
        let hash = hash_of(head, tail);
        if let Some(rest) = self.known(hash, head, tail) {
            return Ok(Some(rest));
        }
        let length = self.length(tail).saturating_add(1);
        if length > LONGEST || texts.cost(head).is_none() {
            return Ok(None);
        }
        let is_head_nullable = texts.is_nullable(head);
        let cell = Cell {
            head,
            tail,
            length: length as u32,
            is_head_nullable,
            is_nullable: self.is_nullable(tail) && is_head_nullable,
        };
        let Ok(number) = u32::try_from(self.cells.len().saturating_add(1)) else {
            return Ok(None);
        };
        self.cells.push(cell)?;
        self.numbers.add(hash, number)?;
        Ok(Some(Rest(number)))
    }

    /// The list with these symbols before it. None where it gets too long, or one of them has no text.
    pub(crate) fn with_front(
        &mut self,
        texts: &Texts,
        front: &[Symbol<u32>],
        rest: Rest,
    ) -> Result<Option<Rest>, AllocError> {
        let mut list = rest;
        for symbol in front.iter().rev() {
            match self.with_head(texts, *symbol, list)? {
                Some(longer) => list = longer,
                None => return Ok(None),
            }
        }
        Ok(Some(list))
    }

    /// The list with another one behind it. None where it gets too long.
    pub(crate) fn with_back(
        &mut self,
        texts: &Texts,
        rest: Rest,
        back: Rest,
    ) -> Result<Option<Rest>, AllocError> {
        if back == Rest::EMPTY {
            return Ok(Some(rest));
        }
        self.read(rest)?;
        let mut list = back;
        for _ in 0..LONGEST {
            let Some(symbol) = self.front.pop() else {
                break;
            };
            match self.with_head(texts, symbol, list)? {
                Some(longer) => list = longer,
                None => return Ok(None),
            }
        }
        Ok(Some(list))
    }

    /// Whether texts of the list and of the symbol may begin with the same token.
    pub(crate) fn begins(&self, firsts: &Firsts, rest: Rest, symbol: Symbol<u32>) -> bool {
        let mut list = rest;
        for _ in 0..LONGEST {
            let Some(cell) = self.cell(list) else {
                break;
            };
            if firsts.meet(cell.head, symbol) {
                return true;
            }
            if !cell.is_head_nullable {
                break;
            }
            list = cell.tail;
        }
        false
    }

    /// Whether texts of both lists may begin with the same token.
    pub(crate) fn meet(&self, firsts: &Firsts, first: Rest, second: Rest) -> bool {
        let mut list = first;
        for _ in 0..LONGEST {
            let Some(cell) = self.cell(list) else {
                break;
            };
            if self.begins(firsts, second, cell.head) {
                return true;
            }
            if !cell.is_head_nullable {
                break;
            }
            list = cell.tail;
        }
        false
    }

    /// Makes `front` the symbols of a list.
    fn read(&mut self, rest: Rest) -> Result<(), AllocError> {
        self.front.clear();
        let mut list = rest;
        for _ in 0..LONGEST {
            let Some(cell) = self.cell(list) else {
                break;
            };
            self.front.push(cell.head)?;
            list = cell.tail;
        }
        Ok(())
    }
}
