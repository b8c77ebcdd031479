//! Bit vectors: lists of truth values, kept in words of 64 bits.

ghost use Rattle.std.specs.Prelude.{◌≡◌, ℕ, ◌+◌, ◌*◌, ◌/◌, ◌%◌, ◌<◌, ◌≤◌, Bool, false, ◌||◌, List, length, replicate, slice_set, Contains, IfOk, IsTrue, ◌↔◌, ◌≢◌};
ghost use Rattle.std.specs.List.Sorted.{IsStrictlyIncreasing};
ghost use Rattle.lrbits.specs.Bits.{bit, union, Intersect, set_places};
ghost use Rattle.lrbits.specs.Words.{in_word, word_bit, first_bits, places_left, Packs, AreUnusedZero, SameBits};
ghost use Rattle.std.proofs.Common.{rules};
ghost use Rattle.std.specs.Cmp.Rules.{comparing};
ghost use lib.Pointwise.{pointwise};
ghost use Rattle.std.specs.Iterator.{YieldsFirst, item_count};

use std::alloc::{AllocError, Global};
use std::marker::Model;
use std::ops::Range;

/// A vector of bits, whose length stays.
#[derive(Debug, Drop)]
pub struct Vob {
    words: Vec<u64>,
    len: usize,
}

impl Model for Vob {
    ghost Value = { List Bool };

    ghost view = { λ v. first_bits v.len v.words.items };

    ghost invariant = { λ v. Packs v.len v.words.items };
}

impl Vob {
    /// `len` bits that are all `value`. The error says that memory was refused.
    pub fn from_elem(alloc: Global, value: bool, len: usize) -> Result<Vob, AllocError>
        ensures bits { IfOk result (λ v. v ≡ replicate len value) }
    {
        let mut words = vec![in alloc; 0; len.div_ceil(64)]?;
        fill_words(words.as_mut_slice(), len, value);
        Ok(Vob { words, len })
    }

    /// The number of bits.
    pub fn len(&self) -> usize
        ensures number { result ≡ length self.now }
    {
        self.len
    }

    /// The bit at place `i`, counted from 0.
    pub fn get(&self, i: usize) -> bool
        requires { i < length self.now }
        ensures value { result ≡ bit self.now i }
    {
        has_bit(self.words[i / 64], i % 64)
    }

    /// Makes the bit at place `i` equal to `value`; answers whether that changed it.
    pub fn set(&mut self, i: usize, value: bool) -> bool
        requires { i < length self.old }
        ensures after { self.new ≡ slice_set self.old i value }
        ensures changed { IsTrue result ↔ (bit self.old i ≢ value) }
    {
        let word = self.words[i / 64];
        let place = i % 64;
        self.words[i / 64] = with_bit(word, place, value);
        has_bit(word, place) != value
    }

    /// Makes every bit equal to `value`.
    pub fn set_all(&mut self, value: bool)
        ensures after { self.new ≡ replicate (length self.old) value }
    {
        fill_words(self.words.as_mut_slice(), self.len, value);
    }

    /// Sets each bit that is set in `other` too; answers whether that changed anything. Both have
    /// one length.
    pub fn or(&mut self, other: &Vob) -> bool
        requires { length other.now ≡ length self.old }
        ensures after { self.new ≡ union self.old other.now }
        ensures len { length self.new ≡ length self.old }
        ensures each { (i : ℕ) → bit self.new i ≡ (bit self.old i || bit other.now i) }
        ensures changed { IsTrue result ↔ (self.new ≢ self.old) }
    {
        or_words(self.words.as_mut_slice(), other.words.as_slice())
    }

    /// Whether some place is set in both, which have one length.
    pub fn intersects(&self, other: &Vob) -> bool
        requires { length other.now ≡ length self.now }
        ensures shared { IsTrue result ↔ Intersect self.now other.now }
    {
        words_intersect(self.words.as_slice(), other.words.as_slice())
    }

    /// The set places of a range, upwards.
    pub fn iter_set_bits(&self, range: Range<usize>) -> IterSetBits<'_>
        requires order { range.start ≤ range.end }
        requires within { range.end ≤ length self.now }
        ensures places { result ≡ set_places self.now range.start range.end }
        ensures members { (i : ℕ) → Contains result i
            ↔ ((range.start ≤ i) × (i < range.end) × IsTrue (bit self.now i)) }
        ensures upwards { IsStrictlyIncreasing result }
    {
        let word = if range.start < range.end {
            self.words[range.start / 64] & (u64::MAX << (range.start % 64))
        } else {
            0
        };
        IterSetBits {
            words: self.words.as_slice(),
            word,
            base: range.start - range.start % 64,
            end: range.end,
        }
    }
}

impl Clone for Vob {
    ghost is_clone = { λ a b. a ≡ b };

    fn clone(&self) -> Result<Vob, AllocError> {
        let words = self.words.clone()?;
        Ok(Vob {
            words,
            len: self.len,
        })
    }
}

impl PartialEq for Vob {
    ghost eq = { pointwise ⟦<bool as PartialEq>⟧.eq };

    ghost laws = { Prim.search (comparing, rules) };

    fn eq(&self, other: &Vob) -> bool
        ensures answer { result ≡ pointwise ⟦<bool as PartialEq>⟧.eq self.now other.now }
        ensures same { IsTrue result ↔ (self.now ≡ other.now) }
    {
        self.len == other.len && same_words(self.words.as_slice(), other.words.as_slice())
    }
}

impl Eq for Vob {
    ghost laws = { Prim.search (comparing, rules) };
}

/// Makes the first `len` bits equal to `value`, in as many words as these bits need, and the others zero.
fn fill_words(words: &mut [u64], len: usize, value: bool)
    requires { length words.old ≡ (len + 63) / 64 }
    ensures len { length words.new ≡ length words.old }
    ensures used { (i : ℕ) → i < len → word_bit words.new i ≡ value }
    ensures unused { AreUnusedZero len words.new }
{
    words.fill(word_of(value));
    clear_unused(words, len);
}

/// A word whose bits are all `value`.
fn word_of(value: bool) -> u64
    ensures bits { (i : ℕ) → i < 64 → in_word result i ≡ value }
{
    if value { u64::MAX } else { 0 }
}

/// Whether bit `place` of a word is set, counted from the least.
fn has_bit(word: u64, place: usize) -> bool
    requires { place < 64 }
    ensures { result ≡ in_word word place }
{
    (word >> place) & 1 == 1
}

/// The word whose bit `place` is `value`, and whose other bits are as they were.
fn with_bit(word: u64, place: usize, value: bool) -> u64
    requires { place < 64 }
    ensures written { in_word result place ≡ value }
    ensures kept { (k : ℕ) → k < 64 → k ≢ place → in_word result k ≡ in_word word k }
{
    if value {
        word | (1 << place)
    } else {
        word & !(1 << place)
    }
}

/// Makes each bit from place `len` on zero, in as many words as `len` bits need.
fn clear_unused(words: &mut [u64], len: usize)
    requires { length words.old ≡ (len + 63) / 64 }
    ensures len { length words.new ≡ length words.old }
    ensures used { (i : ℕ) → i < len → word_bit words.new i ≡ word_bit words.old i }
    ensures unused { AreUnusedZero len words.new }
{
    if len % 64 > 0 {
        words[len / 64] &= (1 << (len % 64)) - 1;
    }
}

/// Sets what is set in the other words too; answers whether that changed a word.
fn or_words(words: &mut [u64], other: &[u64]) -> bool
    requires { length other.now ≡ length words.old }
    ensures len { length words.new ≡ length words.old }
    ensures each { (i : ℕ) → word_bit words.new i ≡ (word_bit words.old i || word_bit other.now i) }
    ensures changed { IsTrue result ↔ (SameBits words.new words.old → ⊥) }
{
    let mut changed = false;
    for i in 0..words.len() {
        let joined = words[i] | other[i];
        if joined != words[i] {
            words[i] = joined;
            changed = true;
        }
    }
    changed
}

/// Whether the words, as many on both sides, have the same bits.
fn same_words(words: &[u64], other: &[u64]) -> bool
    requires { length other.now ≡ length words.now }
    ensures { IsTrue result ↔ SameBits words.now other.now }
{
    words == other
}

/// Whether some place is set in both.
fn words_intersect(words: &[u64], other: &[u64]) -> bool
    requires { length other.now ≡ length words.now }
    ensures { IsTrue result
        ↔ ((i : ℕ) × IsTrue (word_bit words.now i) × IsTrue (word_bit other.now i)) }
{
    for i in 0..words.len() {
        if words[i] & other[i] != 0 {
            return true;
        }
    }
    false
}

/// The set places of a range that are still to come, upwards: those of `word`, what is left of the word
/// whose first place is `base`, and those of the words after it, all below `end`.
#[derive(Drop)]
pub struct IterSetBits<'a> {
    words: &'a [u64],
    word: u64,
    base: usize,
    end: usize,
}

impl<'a> Model for IterSetBits<'a> {
    ghost Value = { List ℕ };

    ghost view = { λ s. places_left s.words.now s.word s.base s.end };

    ghost invariant = { λ s.
        (s.base ≤ s.end) × (s.base % 64 ≡ 0) × (s.end ≤ 64 * length s.words.now) };
}

impl<'a> Iterator for IterSetBits<'a> {
    type Item = usize;

    ghost next_gives = { YieldsFirst (λ s. s) };

    ghost remaining = { item_count (λ s. s) };

    fn next(&mut self) -> Option<usize> {
        while self.word == 0 {
            if self.end - self.base <= 64 {
                return None;
            }
            self.base += 64;
            self.word = self.words[self.base / 64];
        }
        let place = self.word.trailing_zeros();
        self.word &= !(1 << place);
        let i = self.base + place as usize;
        if i < self.end { Some(i) } else { None }
    }
}
