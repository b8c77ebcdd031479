//! Numbers made of all items of cores, gotos and item sets: what has the same items has the same number, and what has others
//! has another one but for chance.

ghost use Rattle.std.specs.Prelude.{◌≡◌};
ghost use Rattle.lrspec.specs.grammars.ItemSets.{AreUpwards};
ghost use Rattle.lritems.specs.Fingerprints.{mixed_item, fingerprint_of};
ghost use Rattle.lritems.specs.Gotos.{items_in};
ghost use Rattle.lritems.specs.ItemsOf.{set_of};

use crate::cores::Core;
use crate::gotos::Goto;
use crate::itemset::Itemset;
use lrgrammar::idx::{IndexStorage, PIdx, SIdx};

/// The prime of the hash FNV-1a, which spreads what is multiplied by it over 64 bits.
const PRIME: u64 = 1_099_511_628_211;

/// The number with an item mixed in.
fn with_item<T: IndexStorage>(number: u64, key: &(PIdx<T>, SIdx<T>)) -> u64
    ensures { result ≡ mixed_item number (T.number key.now.0.0, T.number key.now.1.0) }
{
    number
        .wrapping_mul(PRIME)
        .wrapping_add(usize::from(key.0) as u64)
        .wrapping_mul(PRIME)
        .wrapping_add(usize::from(key.1) as u64)
}

/// The fingerprint of a core.
pub fn core_fingerprint<T: IndexStorage>(core: &Core<T>) -> u64
    ensures fingerprint { result ≡ fingerprint_of core.now }
    ensures upwards { AreUpwards core.now }
{
    let mut number = 0;
    for (key, _looks) in &core.items {
        number = with_item(number, key);
    }
    number
}

/// The fingerprint of a goto.
pub fn goto_fingerprint<T: IndexStorage>(goto: &Goto<T>) -> u64
    ensures { result ≡ fingerprint_of (items_in T.number goto.now) }
{
    let mut number = with_item(0, &goto.first.0);
    for (key, _looks) in &goto.others {
        number = with_item(number, key);
    }
    number
}

/// The fingerprint of an item set.
pub fn itemset_fingerprint<T: IndexStorage>(set: &Itemset<T>) -> u64
    ensures { result ≡ fingerprint_of (set_of T.number set.now) }
{
    let mut number = 0;
    for (key, _looks) in &set.items {
        number = with_item(number, key);
    }
    number
}
