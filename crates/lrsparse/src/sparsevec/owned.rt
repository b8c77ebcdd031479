//! The places of a list that rows own, as the bits of words, and the search for a displacement among them.

ghost use Rattle.std.specs.Prelude.{◌≡◌, ◌≤◌, ◌<◌, ◌+◌, ◌-◌, ◌*◌, ◌^◌, ℕ, length, slice_index, ◌↔◌, ◌⊎◌};
ghost use Rattle.std.specs.Int.{bit_at};
ghost use Rattle.lrsparse.specs.Owned.{IsOwned, AreOwned, MeetsNone};

/// How many places a word has.
pub(crate) const WORD: usize = 64;

/// The word, whose places nobody owns past the last one.
fn word_at(words: &[u64], index: usize) -> u64
    ensures { result ≡ slice_index words.now index }
{
    words.get(index).copied().unwrap_or(0)
}

/// The places from this one on, as many as a word has.
pub(crate) fn places_from(words: &[u64], place: usize) -> u64
    ensures { (i : ℕ) → i < 64 → (bit_at result i ≡ 1) ↔ IsOwned words.now (place + i) }
{
    let bit = place % WORD;
    let low = word_at(words, place / WORD) >> bit;
    if bit == 0 {
        return low;
    }
    low | word_at(words, place / WORD + 1) << (WORD - bit)
}

/// The displacements from this one on, as many as a word has, at which one of four columns meets an owned place: the first, the
/// last, and where these do not meet one at all of the displacements, two between them. Places near one another are often owned
/// alike, so these stand far apart.
fn met_by_four(words: &[u64], columns: &[usize], displacement: usize) -> u64
    requires { (k : ℕ) → k < length columns.now →
        displacement + slice_index columns.now k < 2 ^ 64 }
    ensures { (i : ℕ) → i < 64 → bit_at result i ≡ 1 →
        ¬ (MeetsNone words.now columns.now (displacement + i)) }
{
    let Some(last) = columns.len().checked_sub(1) else {
        return 0;
    };
    let ends = places_from(words, displacement + columns[0])
        | places_from(words, displacement + columns[last]);
    if ends == u64::MAX {
        return ends;
    }
    let third = last / 3;
    ends | places_from(words, displacement + columns[third])
        | places_from(words, displacement + columns[last - third])
}

/// The displacements from this one on, as many as a word has, at which some column meets an owned place; all of them, where
/// that is found before the last column.
fn met_from(words: &[u64], columns: &[usize], displacement: usize) -> u64
    requires { (k : ℕ) → k < length columns.now →
        displacement + slice_index columns.now k < 2 ^ 64 }
    ensures met { (i : ℕ) → i < 64 → bit_at result i ≡ 1 →
        ¬ (MeetsNone words.now columns.now (displacement + i)) }
    ensures unmet { (i : ℕ) → i < 64 → bit_at result i ≡ 0 →
        MeetsNone words.now columns.now (displacement + i) }
{
    let mut met = met_by_four(words, columns, displacement);
    for k in 0..columns.len() {
        if met == u64::MAX {
            return met;
        }
        met |= places_from(words, displacement + columns[k]);
    }
    met
}

/// The least displacement at which no column meets an owned place. None is below the start.
pub(crate) fn least_displacement(words: &[u64], columns: &[usize], start: usize) -> usize
    requires none { (d : ℕ) → d < start → ¬ (MeetsNone words.now columns.now d) }
    requires room { (k : ℕ) → k < length columns.now
        → 64 * length words.now + slice_index columns.now k + 64 < 2 ^ 64 }
    ensures fits { MeetsNone words.now columns.now result }
    ensures least { (d : ℕ) → d < result → ¬ (MeetsNone words.now columns.now d) }
{
    let mut displacement = start;
    loop {
        let met = met_from(words, columns, displacement);
        if met < u64::MAX {
            return displacement + met.trailing_ones() as usize;
        }
        displacement += WORD;
    }
}

/// Lets the place be owned.
fn own(words: &mut [u64], place: usize)
    requires { place < 64 * length words.old }
    ensures { (p : ℕ) → IsOwned words.new p ↔ (IsOwned words.old p ⊎ (p ≡ place)) }
{
    words[place / WORD] |= 1 << (place % WORD);
}

/// Lets the places be owned in which the columns stand, at the displacement.
pub(crate) fn own_columns(words: &mut [u64], columns: &[usize], displacement: usize)
    requires room { 64 * length words.old < 2 ^ 64 }
    requires within { (k : ℕ) → k < length columns.now
        → displacement + slice_index columns.now k < 64 * length words.old }
    ensures { (p : ℕ) → IsOwned words.new p
        ↔ (IsOwned words.old p
        ⊎ ((k : ℕ) × (k < length columns.now) × (p ≡ displacement + slice_index columns.now k))) }
{
    for column in columns {
        own(words, displacement + *column);
    }
}

/// Lets the places be owned in which the columns stand, so far before.
pub(crate) fn own_columns_behind(words: &mut [u64], columns: &[usize], before: usize)
    requires room { 64 * length words.old < 2 ^ 64 }
    requires behind { (k : ℕ) → k < length columns.now → before ≤ slice_index columns.now k }
    requires within { (k : ℕ) → k < length columns.now
        → slice_index columns.now k < before + 64 * length words.old }
    ensures { (p : ℕ) → IsOwned words.new p
        ↔ (IsOwned words.old p
        ⊎ ((k : ℕ) × (k < length columns.now) × (before + p ≡ slice_index columns.now k))) }
{
    for column in columns {
        own(words, *column - before);
    }
}

/// How many words at the beginning are wholly owned; the first `full` are.
pub(crate) fn full_words(words: &[u64], full: usize) -> usize
    requires { AreOwned words.now (64 * full) }
    ensures { AreOwned words.now (64 * result) }
{
    let mut full = full;
    while word_at(words, full) == u64::MAX {
        full += 1;
    }
    full
}
