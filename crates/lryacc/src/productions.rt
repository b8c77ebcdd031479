//! Productions, and where they stand in a file.

ghost use Rattle.std.specs.Prelude.{◌≡◌, [], ◌∷◌, ◌++◌, OnOk};

use crate::places::Span;
use lrgrammar::grammar::PartProd;
use std::alloc::{AllocError, Global};

/// Productions with their places.
#[derive(Drop)]
pub(crate) struct Productions {
    pub(crate) prods: Vec<PartProd>,
    /// By production, where its body stands.
    pub(crate) places: Vec<Span>,
    /// By production, where the symbols of its body stand.
    pub(crate) symbol_places: Vec<Vec<Span>>,
}

impl Productions {
    ghost use Rattle.lryacc.specs.PlacedProductions.{placed, placed_at};
    ghost use Rattle.lryacc.specs.ProductionPlaces.{Adds, ArePlaced};

    /// No production.
    pub(crate) fn new(alloc: Global) -> Productions
        ensures empty { result.places.items ≡ [] }
        ensures no_production { result.prods.items ≡ [] }
        ensures none { placed result ≡ [] }
        ensures placed { ArePlaced result }
    {
        Productions {
            prods: Vec::new(alloc),
            places: Vec::new(alloc),
            symbol_places: Vec::new(alloc),
        }
    }

    /// Adds a production.
    pub(crate) fn add(
        &mut self,
        prod: PartProd,
        place: Span,
        symbol_places: Vec<Span>,
    ) -> Result<(), AllocError>
        ensures places { OnOk result (Adds self.old self.new (place ∷ [])) }
        ensures prods { OnOk result (self.new.prods.items ≡ self.old.prods.items ++ prod ∷ []) }
        ensures added { OnOk result (ArePlaced self.old → placed self.new
            ≡ placed self.old ++ placed_at prod place symbol_places.items ∷ []) }
    {
        self.prods.push(prod)?;
        self.places.push(place)?;
        self.symbol_places.push(symbol_places)?;
        Ok(())
    }
}
