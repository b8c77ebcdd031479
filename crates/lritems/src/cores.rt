//! Cores of states under construction: items in one list.

ghost use Rattle.std.specs.Prelude.{◌≡◌, IfOk};
ghost use Rattle.lrspec.specs.grammars.ItemSets.{AreUpwards, Fits};
ghost use Rattle.lrspec.specs.grammars.StartState.{IsStartCore};
ghost use Rattle.lritems.specs.ItemsOf.{items_of, set_of};
ghost use Rattle.lritems.specs.Gotos.{items_in};

use crate::gotos::Goto;
use crate::itemset::{Ctx, Itemset};
use lrgrammar::grammar::YaccGrammar;
use lrgrammar::idx::{IndexStorage, PIdx, SIdx};
use lrgrammar::vob::Vob;
use std::alloc::{AllocError, Global};
use std::collections::BTreeMap;
use std::marker::Model;

/// Items upwards by production and then dot, each with its lookaheads.
#[derive(Drop)]
pub struct Core<T: IndexStorage> {
    pub(crate) items: Vec<((PIdx<T>, SIdx<T>), Ctx)>,
}

impl<T: IndexStorage> Model for Core<T> {
    ghost use Rattle.lrspec.specs.grammars.ItemSets.{Items, AreUpwards};

    ghost Value = { Items };

    ghost use Rattle.lritems.specs.ItemsOf.{items_of};

    ghost view = { λ c. items_of T.number c.items.items };

    ghost invariant = { λ c. AreUpwards (items_of T.number c.items.items) };
}

impl<T: IndexStorage> Core<T> {
    /// The core of the start state: the start production at dot 0, looking at the end token. The error says that memory was
    /// refused.
    pub fn of_start(grm: &YaccGrammar<T>) -> Result<Core<T>, AllocError>
        ensures core { IfOk result (IsStartCore grm.now) }
        ensures fits { IfOk result (Fits grm.now) }
    {
        let alloc = grm.allocator();
        let mut ctx = Vob::from_elem(alloc, false, usize::from(grm.tokens_len()))?;
        ctx.set(usize::from(grm.eof_token_idx()), true);
        let mut items = Vec::with_capacity(alloc, 1)?;
        items.push(((grm.start_prod(), SIdx(T::from_usize(0).unwrap())), ctx))?;
        Ok(Core { items })
    }

    /// The items of a goto. The error says that memory was refused.
    pub fn from_goto(alloc: Global, goto: &Goto<T>) -> Result<Core<T>, AllocError>
        requires { AreUpwards (items_in T.number goto.now) }
        ensures { IfOk result (λ c. c ≡ items_in T.number goto.now) }
    {
        let mut items = Vec::with_capacity(alloc, goto.others.len().saturating_add(1))?;
        let (key, ctx) = &goto.first;
        items.push((*key, Ctx::clone(ctx)?))?;
        for (key, ctx) in &goto.others {
            items.push((*key, Ctx::clone(ctx)?))?;
        }
        Ok(Core { items })
    }

    /// A copy. The error says that memory was refused.
    pub fn copied(&self, alloc: Global) -> Result<Core<T>, AllocError>
        ensures { IfOk result (λ c. c ≡ self.now) }
    {
        let items = Vec::from_clones(alloc, self.items.as_slice())?;
        Ok(Core { items })
    }

    /// The items as an item set. The error says that memory was refused.
    pub fn into_itemset(self, alloc: Global) -> Result<Itemset<T>, AllocError>
        ensures { IfOk result (λ s. set_of T.number s ≡ self) }
    {
        Ok(Itemset {
            items: BTreeMap::from_iter(alloc, self.items)?,
        })
    }

    /// The items.
    pub fn items(&self) -> &[((PIdx<T>, SIdx<T>), Ctx)]
        ensures items { items_of T.number result.now ≡ self.now }
        ensures upwards { AreUpwards self.now }
    {
        self.items.as_slice()
    }
}
