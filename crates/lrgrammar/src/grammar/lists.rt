//! The productions of each rule, and the places of names.

ghost use Rattle.std.specs.Prelude.{◌≡◌, ◌≢◌, ℕ, ◌+◌, ◌<◌, ◌≤◌, ◌∷◌, [], ◌++◌, IfOk, OnOk, map, length, All, slice_index_or};
ghost use Rattle.std.specs.String.{string_bytes};
ghost use Rattle.std.specs.HashMap.{get_by_text};
ghost use Rattle.lrspec.specs.texts.Parts.{HasDouble};
ghost use Rattle.lrparts.specs.LookUps.{FindsNames};
ghost use Rattle.lrgrammar.specs.StoredGrammar.{production_of, AreListsOf, HasOneMore, KeepsOthers};

use crate::grammar::Production;
use crate::idx::{IndexStorage, PIdx};
use std::alloc::{AllocError, Global};
use std::collections::HashMap;

/// Adds the production to the list of the rule.
fn add_to<T: IndexStorage>(
    lists: &mut Vec<Vec<PIdx<T>>>,
    rule: usize,
    pidx: PIdx<T>,
) -> Result<(), AllocError>
    requires { rule < length lists.old.items }
    ensures count { length lists.new.items ≡ length lists.old.items }
    ensures added { OnOk result (HasOneMore lists.old.items lists.new.items rule pidx) }
    ensures others { KeepsOthers lists.old.items lists.new.items rule }
{
    lists[rule].push(pidx)?;
    Ok(())
}

/// An empty list for each rule.
fn empty_lists<T: IndexStorage>(
    alloc: Global,
    rules: usize,
) -> Result<Vec<Vec<PIdx<T>>>, AllocError>
    ensures count { IfOk result (λ v. length v.items ≡ rules) }
    ensures empty { IfOk result (λ v. All (λ xs. xs.items ≡ []) v.items) }
{
    let mut lists = Vec::new(alloc);
    for _rule in 0..rules {
        lists.push(Vec::new(alloc))?;
    }
    Ok(lists)
}

/// For each rule its productions, upwards.
pub(super) fn production_lists<T: IndexStorage>(
    alloc: Global,
    prods: &[Production<T>],
    rules: usize,
) -> Result<Vec<Vec<PIdx<T>>>, AllocError>
    requires few { length prods.now ≤ T.MAX }
    requires within { All (λ p. T.number p.rule.0 < rules) prods.now }
    ensures { IfOk result
        (λ v. AreListsOf T.number (map (production_of T.number) prods.now) rules v.items) }
{
    let mut lists = empty_lists(alloc, rules)?;
    for i in 0..prods.len() {
        let pidx = PIdx(T::from_usize(i).unwrap());
        add_to(&mut lists, prods[i].rule.0.to_usize(), pidx)?;
    }
    Ok(lists)
}

/// The place of each name.
pub(super) fn places(alloc: Global, names: &[String]) -> Result<HashMap<String, usize>, AllocError>
    requires { HasDouble (map string_bytes names.now) → ⊥ }
    ensures { IfOk result
        (λ m. FindsNames (get_by_text m) (map string_bytes names.now) (length names.now)) }
{
    let mut places = HashMap::with_capacity(alloc, names.len())?;
    for i in 0..names.len() {
        places.insert(names[i].clone()?, i)?;
    }
    Ok(places)
}
