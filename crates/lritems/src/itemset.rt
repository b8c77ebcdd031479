//! Items with lookaheads.

ghost use Rattle.std.specs.Prelude.{◌≡◌, ℕ, ◌+◌, ◌<◌, ◌≤◌, ◌≢◌, [], length, Some, IfOk, OnOk, OnErr, IsOk, IfSome, IsTrue, ◌↔◌};
ghost use Rattle.std.specs.String.{string_bytes};
ghost use Rattle.std.specs.Cmp.{on_per, and_per, partial_equiv_from_equiv, bool_eq_equiv};
ghost use Rattle.std.specs.Cmp.Lexicographic.{lists_per};
ghost use Rattle.lrspec.specs.grammars.ItemSets.{item_at, HasItem, Fits, IsClosure, IsGoto, AreUpwards};
ghost use Rattle.lrspec.specs.merging.WeakCompatibility.{Apart};
ghost use Rattle.lrspec.specs.texts.PrintedTexts.{items_text};
ghost use Rattle.lrgrammar.specs.Symbols.{symbol_of};
ghost use Rattle.lrgrammar.specs.Firsts.{AreFirstsOf};
ghost use Rattle.lritems.specs.ItemsOf.{set_of, look_up, joined, Agree};
ghost use Rattle.lrspec.specs.grammars.StartState.{IsStartCore, IsCanonicalStart};

use crate::printing::push_items;
use lrclosing::closing::close_counted;
pub use lrclosing::items::Ctx;
use lrclosing::items::{dot_behind, items_fit};
use lrgrammar::firsts::YaccFirsts;
use lrgrammar::grammar::YaccGrammar;
use lrgrammar::idx::{IndexStorage, PIdx, SIdx, Symbol};
use std::alloc::{AllocError, Global};
use std::collections::BTreeMap;

/// Items by production and dot, each with its lookaheads.
#[derive(Debug, Drop)]
pub struct Itemset<T: IndexStorage> {
    /// The lookaheads of each item, by its production and the place of its dot.
    pub items: BTreeMap<(PIdx<T>, SIdx<T>), Ctx>,
}

impl<T: IndexStorage> Itemset<T> {
    /// No items.
    pub fn new(alloc: Global, _grm: &YaccGrammar<T>) -> Itemset<T>
        ensures { set_of T.number result ≡ [] }
    {
        Itemset {
            items: BTreeMap::new(alloc),
        }
    }

    /// Adds lookaheads to an item, which is put in where it isn't there, also with no lookahead, and says whether that
    /// changed anything. An item that is there has as many bits as `ctx`. Takes no memory for an item that is there. The
    /// error says that memory was refused; the item set is then as it was.
    pub fn add(&mut self, pidx: PIdx<T>, dot: SIdx<T>, ctx: &Ctx) -> Result<bool, AllocError>
        requires { IfSome (look_up T.number self.old pidx dot) (λ v. length ctx.now ≡ length v) }
        ensures present { HasItem (set_of T.number self.old) (T.number pidx.0) (T.number dot.0)
            → IsOk result }
        ensures here { OnOk result (look_up T.number self.new pidx dot
            ≡ Some (joined (look_up T.number self.old pidx dot) ctx.now)) }
        ensures others { OnOk result ((p d : ℕ) → Apart (T.number pidx.0) (T.number dot.0) p d
            → item_at (set_of T.number self.new) p d ≡ item_at (set_of T.number self.old) p d) }
        ensures changed { IfOk result (λ b. IsTrue b
            ↔ (look_up T.number self.new pidx dot ≢ look_up T.number self.old pidx dot)) }
        ensures unchanged { OnErr result (set_of T.number self.new ≡ set_of T.number self.old) }
    {
        match self.items.get_mut(&(pidx, dot)) {
            Some(old) => Ok(old.or(ctx)),
            None => {
                let copy = ctx.clone()?;
                self.items.insert((pidx, dot), copy)?;
                Ok(true)
            }
        }
    }

    /// The closure of the item set: the least one that has its items and lookaheads, and where an item stands
    /// before a rule, each production of that rule at dot 0, looking at each token that begins the rest
    /// behind the rule, and where that rest is nullable at each token at which the item looks. The error says that
    /// memory was refused.
    pub fn close(
        &self,
        grm: &YaccGrammar<T>,
        firsts: &YaccFirsts<T>,
    ) -> Result<Itemset<T>, AllocError>
        requires fits { Fits grm.now (set_of T.number self.now) }
        requires of { AreFirstsOf grm.now firsts.now }
        ensures closure { IfOk result (λ s.
            IsClosure grm.now (set_of T.number self.now) (set_of T.number s)) }
        ensures fits { IfOk result (λ s. Fits grm.now (set_of T.number s)) }
        ensures start { IfOk result (λ s. IsStartCore grm.now (set_of T.number self.now)
            → IsCanonicalStart grm.now (set_of T.number s)) }
    {
        let (items, _visits) = close_counted(&self.items, grm, firsts)?;
        Ok(Itemset { items })
    }

    /// The items before the symbol, each with its dot moved over it and its lookaheads. The error says that memory was
    /// refused.
    pub fn goto(&self, grm: &YaccGrammar<T>, sym: &Symbol<T>) -> Result<Itemset<T>, AllocError>
        requires { Fits grm.now (set_of T.number self.now) }
        ensures moved { IfOk result (λ s. IsGoto grm.now (set_of T.number self.now)
            (symbol_of T.number sym.now) (set_of T.number s)) }
        ensures fits { IfOk result (λ s. Fits grm.now (set_of T.number s)) }
    {
        let mut moved = Itemset::new(grm.allocator(), grm);
        for (key, ctx) in &self.items {
            if let Some(dot) = dot_behind(grm, key.0, key.1, sym) {
                moved.add(key.0, dot, ctx)?;
            }
        }
        Ok(moved)
    }

    /// Whether each item exists in the grammar, and has one bit a token.
    pub fn fits(&self, grm: &YaccGrammar<T>) -> bool
        ensures { IsTrue result ↔ Fits grm.now (set_of T.number self.now) }
    {
        items_fit(&self.items, grm)
    }

    /// The texts of the items by production and then dot, joined by line feeds: `[S -> 'a' . B, {'b', '$'}]`.
    /// The error says that memory was refused.
    pub fn pp(&self, grm: &YaccGrammar<T>) -> Result<String, AllocError>
        requires { Fits grm.now (set_of T.number self.now) }
        ensures text { IfOk result (λ s.
            string_bytes s ≡ items_text grm.now (set_of T.number self.now)) }
        ensures upwards { AreUpwards (set_of T.number self.now) }
    {
        let mut text = String::new(grm.allocator());
        push_items(&mut text, grm, self, "\n")?;
        Ok(text)
    }
}

impl<T: IndexStorage> Clone for Itemset<T> {
    ghost is_clone = { λ a b. b.items.entries ≡ a.items.entries };

    fn clone(&self) -> Result<Itemset<T>, AllocError> {
        Ok(Itemset {
            items: self.items.clone()?,
        })
    }
}

impl<T: IndexStorage> PartialEq for Itemset<T> {
    ghost eq = { λ a b. ⟦<BTreeMap<(PIdx<T>, SIdx<T>), Ctx> as PartialEq>⟧.eq a.items b.items };

    // By the entries in order: of each its production, its dot, and then its bits.
    ghost laws = { on_per (λ s. s.items.entries) (lists_per (and_per
        (on_per (λ e. e.0) (and_per
        (on_per (λ k. k.0.0) T.PartialEq.laws)
        (on_per (λ k. k.1.0) T.PartialEq.laws)))
        (on_per (λ e. e.1) (lists_per (partial_equiv_from_equiv bool_eq_equiv))))) };

    /// Whether both have the same items with the same lookaheads.
    fn eq(&self, other: &Itemset<T>) -> bool
        ensures value { result
            ≡ ⟦<BTreeMap<(PIdx<T>, SIdx<T>), Ctx> as PartialEq>⟧.eq self.now.items other.now.items }
        ensures agree { IsTrue result
            ↔ Agree (set_of T.number self.now) (set_of T.number other.now) }
    {
        self.items.len() == other.items.len() && self.items == other.items
    }
}
