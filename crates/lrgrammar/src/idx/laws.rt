//! How the derived order, equality and hash of the indices go by their numbers: each contract is
//! such a law, and nothing calls these functions.

ghost use Rattle.std.specs.Prelude.{◌≡◌, ◌++◌, IsTrue, ◌↔◌, fold};
ghost use Rattle.std.specs.Ordering.{nat_cmp, ordering_then};
ghost use Rattle.lrgrammar.specs.SymbolLaws.{symbol_cmp, symbol_writes};

use super::{IndexStorage, PIdx, SIdx, StIdx, Symbol};
use std::cmp::Ordering;
use std::hash::{Hash, Hasher};

fn symbol_order<T: IndexStorage>(a: Symbol<T>, b: Symbol<T>) -> Ordering
    ensures { result ≡ symbol_cmp T.number a b }
{
    a.cmp(&b)
}

fn symbol_equality<T: IndexStorage>(a: Symbol<T>, b: Symbol<T>) -> bool
    ensures { IsTrue result ↔ (a ≡ b) }
{
    a == b
}

fn symbol_hash<T: IndexStorage, H: Hasher>(a: Symbol<T>, state: &mut H)
    ensures { state.new ≡ fold H.write state.old (symbol_writes T.hash_input a) }
{
    a.hash(state);
}

fn item_order<T: IndexStorage>(a: (PIdx<T>, SIdx<T>), b: (PIdx<T>, SIdx<T>)) -> Ordering
    ensures { result ≡ ordering_then
        (nat_cmp (T.number a.0.0) (T.number b.0.0)) (nat_cmp (T.number a.1.0) (T.number b.1.0)) }
{
    a.cmp(&b)
}

fn item_hash<T: IndexStorage, H: Hasher>(a: (PIdx<T>, SIdx<T>), state: &mut H)
    ensures { state.new ≡ fold H.write state.old (T.hash_input a.0.0 ++ T.hash_input a.1.0) }
{
    a.hash(state);
}

fn item_equality<T: IndexStorage>(a: (PIdx<T>, SIdx<T>), b: (PIdx<T>, SIdx<T>)) -> bool
    ensures { IsTrue result
        ↔ ((T.number a.0.0 ≡ T.number b.0.0) × (T.number a.1.0 ≡ T.number b.1.0)) }
{
    a == b
}

fn state_order<T: IndexStorage>(a: StIdx<T>, b: StIdx<T>) -> Ordering
    ensures { result ≡ nat_cmp (T.number a.0) (T.number b.0) }
{
    a.cmp(&b)
}

fn state_equality<T: IndexStorage>(a: StIdx<T>, b: StIdx<T>) -> bool
    ensures { IsTrue result ↔ (T.number a.0 ≡ T.number b.0) }
{
    a == b
}

fn state_hash<T: IndexStorage, H: Hasher>(a: StIdx<T>, state: &mut H)
    ensures { state.new ≡ fold H.write state.old (T.hash_input a.0) }
{
    a.hash(state);
}
