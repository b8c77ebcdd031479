//! Names and their numbers.

ghost use Rattle.std.specs.Prelude.{◌≡◌, [], OnOk};

use std::alloc::{AllocError, Global};
use std::collections::HashMap;
use std::marker::Model;

/// Names, numbered from 0.
#[derive(Drop)]
pub(super) struct Numbers<'a> {
    places: HashMap<&'a str, usize>,
    names: Vec<&'a str>,
}

impl<'a> Model for Numbers<'a> {
    ghost use Rattle.std.specs.Prelude.{ℕ, List};

    ghost Value = { List (List ℕ) };

    ghost use Rattle.lrtext.specs.NumberedNames.{names_of, IsNumbered};

    ghost view = { λ n. names_of n.names.items };

    ghost invariant = { λ n. IsNumbered n.places (names_of n.names.items) };
}

impl<'a> Numbers<'a> {
    ghost use Rattle.lrspec.specs.texts.Names.{has_name, place_of};
    ghost use Rattle.lrtext.specs.NumberedNames.{names_of, number_in, with_name, with_names};

    /// No names.
    pub fn new(alloc: Global) -> Numbers<'a>
        ensures { result ≡ [] }
    {
        Numbers {
            places: HashMap::new(alloc),
            names: Vec::new(alloc),
        }
    }

    /// The number of the name, if it has one.
    pub fn find(&self, name: &'a str) -> Option<usize>
        ensures { result ≡ number_in self.now name.now }
    {
        self.places.get(&name).copied()
    }

    /// Whether the name has a number.
    pub fn has(&self, name: &'a str) -> bool
        ensures { result ≡ has_name self.now name.now }
    {
        self.find(name).is_some()
    }

    /// Gives the name the next number, where it has none.
    pub fn add(&mut self, name: &'a str) -> Result<(), AllocError>
        ensures { OnOk result (self.new ≡ with_name self.old name.now) }
    {
        if self.places.contains_key(&name) {
            return Ok(());
        }
        // Room first, so that a refusal leaves no name in one of the two alone.
        self.names.reserve(1)?;
        self.places.insert(name, self.names.len())?;
        self.names.push(name).unwrap();
        Ok(())
    }

    /// Gives each of the names the next number, where it has none.
    pub fn add_all(&mut self, names: &[&'a str]) -> Result<(), AllocError>
        ensures { OnOk result (self.new ≡ with_names self.old (names_of names.now)) }
    {
        for name in names {
            self.add(name)?;
        }
        Ok(())
    }

    /// The number of the name, or how many there are where it has none.
    pub fn place(&self, name: &'a str) -> usize
        ensures { result ≡ place_of self.now name.now }
    {
        self.find(name).unwrap_or(self.names.len())
    }

    /// The names in the order of their numbers.
    pub fn names(&self) -> &[&'a str]
        ensures { names_of result.now ≡ self.now }
    {
        self.names.as_slice()
    }
}
