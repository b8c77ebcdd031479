//! Before which rules the items stand.

ghost use Rattle.std.specs.Prelude.{◌≡◌, ◌<◌, length, IfOk, OnOk};
ghost use Rattle.lrsearches.specs.StoredUses.{HasUse, HasUseOf, HasUsesOf, KeepsUses, AreUses};

use crate::rows::empty_rows;
use lrclosing::items::step_over;
use lrgrammar::grammar::YaccGrammar;
use lrgrammar::idx::{IndexStorage, PIdx, SIdx, Symbol};
use std::alloc::AllocError;

/// Adds the item to the row of the rule.
fn add_use<T: IndexStorage>(
    uses: &mut Vec<Vec<(PIdx<T>, SIdx<T>)>>,
    rule: usize,
    item: (PIdx<T>, SIdx<T>),
) -> Result<(), AllocError>
    requires { rule < length uses.old.items }
    ensures count { length uses.new.items ≡ length uses.old.items }
    ensures added { OnOk result
        (HasUse T.number uses.new.items rule (T.number item.0.0) (T.number item.1.0)) }
    ensures kept { OnOk result (KeepsUses T.number uses.old.items uses.new.items) }
{
    uses[rule].push(item)?;
    Ok(())
}

/// Adds the item to the row of the rule before which it stands, if it stands before one.
fn add_item<T: IndexStorage>(
    uses: &mut Vec<Vec<(PIdx<T>, SIdx<T>)>>,
    grm: &YaccGrammar<T>,
    pidx: PIdx<T>,
    dot: SIdx<T>,
) -> Result<(), AllocError>
    requires production { T.number pidx.0 < length grm.now.productions }
    requires rules { length uses.old.items ≡ length grm.now.rule_names }
    ensures count { length uses.new.items ≡ length uses.old.items }
    ensures added { OnOk result
        (HasUseOf T.number grm.now uses.new.items (T.number pidx.0) (T.number dot.0)) }
    ensures kept { OnOk result (KeepsUses T.number uses.old.items uses.new.items) }
{
    let Some((symbol, _)) = step_over(grm, pidx, dot) else {
        return Ok(());
    };
    match symbol {
        Symbol::Rule(ridx) => {
            add_use(uses, usize::from(ridx), (pidx, dot))?;
            Ok(())
        }
        Symbol::Token(_) => Ok(()),
    }
}

/// Adds the items of the production that stand before rules.
fn add_uses<T: IndexStorage>(
    uses: &mut Vec<Vec<(PIdx<T>, SIdx<T>)>>,
    grm: &YaccGrammar<T>,
    pidx: PIdx<T>,
) -> Result<(), AllocError>
    requires production { T.number pidx.0 < length grm.now.productions }
    requires rules { length uses.old.items ≡ length grm.now.rule_names }
    ensures count { length uses.new.items ≡ length uses.old.items }
    ensures added { OnOk result (HasUsesOf T.number grm.now uses.new.items (T.number pidx.0)) }
    ensures kept { OnOk result (KeepsUses T.number uses.old.items uses.new.items) }
{
    for place in 0..grm.prod_len(pidx).0.to_usize() {
        let dot = SIdx(T::from_usize(place).unwrap());
        add_item(uses, grm, pidx, dot)?;
    }
    Ok(())
}

/// For each rule the items that stand before it, upwards.
pub(crate) fn uses<T: IndexStorage>(
    grm: &YaccGrammar<T>,
) -> Result<Vec<Vec<(PIdx<T>, SIdx<T>)>>, AllocError>
    ensures { IfOk result (λ v. AreUses T.number grm.now v.items) }
{
    let mut uses = empty_rows(grm.allocator(), usize::from(grm.rules_len()))?;
    for number in 0..grm.prods_len().0.to_usize() {
        add_uses(&mut uses, grm, PIdx(T::from_usize(number).unwrap()))?;
    }
    Ok(uses)
}
