//! A state under construction.

ghost use Rattle.std.specs.Prelude.{◌≡◌, ℕ, [], None, Some, false, true, ◌⊎◌, OnOk, if◌then◌else◌};
ghost use Rattle.lrspec.specs.grammars.Grammar as math;
ghost use Rattle.lrspec.specs.merging.Graph.{same_symbol, edge_at};
ghost use Rattle.lrgrammar.specs.Symbols.{symbol_of};
ghost use Rattle.lritems.specs.Gotos.{items_in};
ghost use Rattle.lrgraphs.specs.GraphOf.{edges_of};
ghost use Rattle.lrplacing.specs.Construction.{IsUnclosedIfGrown, TellsGrowth, HasEdgesOnce};
ghost use Rattle.lritems.specs.Merging.{CanTakeIn, TookIn};

use lrgrammar::idx::{IndexStorage, Symbol};
use lritems::cores::Core;
use lritems::gotos::Goto;
use lritems::merging::weakly_merge;
use std::alloc::{AllocError, Global};
use std::marker::Model;

/// A state under construction: its core, whether it is closed or is still to be closed, and where its edges lead.
#[derive(Drop)]
pub struct Draft<T: IndexStorage> {
    /// The core.
    pub core: Core<T>,
    /// Whether the gotos of the core's closure were placed since the core last grew.
    pub is_closed: bool,
    /// The edges, each with the state to which it leads; on no symbol two.
    edges: Vec<(Symbol<T>, usize)>,
}

impl<T: IndexStorage> Model for Draft<T> {
    ghost use Rattle.lrplacing.specs.Construction as plain;

    ghost Value = { plain.Draft };

    ghost use Rattle.lrplacing.specs.DraftOf.{draft_of};

    ghost view = { draft_of T.number };

    ghost use Rattle.lrgraphs.specs.GraphOf.{edges_of};
    ghost use Rattle.lrplacing.specs.Construction.{HasEdgesOnce};

    ghost invariant = { λ s. HasEdgesOnce (edges_of T.number (λ k. k) s.edges.items) };
}

impl<T: IndexStorage> Draft<T> {
    /// A state that is to be closed.
    pub fn new(alloc: Global, core: Core<T>) -> Draft<T>
        ensures core { result.core ≡ core }
        ensures closed { result.is_closed ≡ false }
        ensures edges { result.edges ≡ [] }
    {
        Draft {
            core,
            is_closed: false,
            edges: Vec::new(alloc),
        }
    }

    /// The core.
    pub fn core(&self) -> &Core<T>
        ensures { result.now ≡ self.now.core }
    {
        &self.core
    }

    /// The edges.
    pub fn edges(&self) -> &[(Symbol<T>, usize)]
        ensures edges { edges_of T.number (λ k. k) result.now ≡ self.now.edges }
        ensures once { HasEdgesOnce self.now.edges }
    {
        self.edges.as_slice()
    }

    /// Whether the state is closed.
    pub fn is_closed(&self) -> bool
        ensures { result ≡ self.now.is_closed }
    {
        self.is_closed
    }

    /// Notes that the state is closed.
    pub fn set_closed(&mut self)
        ensures core { self.new.core ≡ self.old.core }
        ensures edges { self.new.edges ≡ self.old.edges }
        ensures closed { self.new.is_closed ≡ true }
    {
        self.is_closed = true;
    }

    /// Drops all edges, before the state is closed, and makes room for so many. The error says that memory was refused.
    pub fn clear_edges(&mut self, len: usize) -> Result<(), AllocError>
        ensures core { self.new.core ≡ self.old.core }
        ensures closed { self.new.is_closed ≡ self.old.is_closed }
        ensures edges { self.new.edges ≡ [] }
    {
        self.edges.clear();
        self.edges.reserve_exact(len)
    }

    /// Adds the edge on the symbol, on which there is none.
    pub(crate) fn add_edge(&mut self, symbol: Symbol<T>, to: usize) -> Result<(), AllocError>
        requires { edge_at self.old.edges (symbol_of T.number symbol) ≡ None }
        ensures core { self.new.core ≡ self.old.core }
        ensures closed { self.new.is_closed ≡ self.old.is_closed }
        ensures edge { OnOk result ((y : math.Symbol) → edge_at self.new.edges y
            ≡ if same_symbol y (symbol_of T.number symbol)
            then Some to
            else edge_at self.old.edges y) }
    {
        self.edges.push((symbol, to))?;
        Ok(())
    }

    /// Merges a goto into the core, and says whether that grew it: the state is then to be closed again.
    pub(crate) fn merge(&mut self, goto: &Goto<T>) -> bool
        requires { CanTakeIn self.old.core (items_in T.number goto.now) }
        ensures edges { self.new.edges ≡ self.old.edges }
        ensures taken { TookIn self.old.core (items_in T.number goto.now) self.new.core }
        ensures closed { IsUnclosedIfGrown self.old.core self.new.core
            self.old.is_closed self.new.is_closed }
        ensures grew { TellsGrowth result self.old.core self.new.core }
    {
        let grew = weakly_merge(&mut self.core, goto);
        if grew {
            self.unclose();
        }
        grew
    }

    /// Notes that the state is to be closed again.
    fn unclose(&mut self)
        ensures core { self.new.core ≡ self.old.core }
        ensures edges { self.new.edges ≡ self.old.edges }
        ensures closed { self.new.is_closed ≡ false }
    {
        self.is_closed = false;
    }
}
