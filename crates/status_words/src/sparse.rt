// Sets of small numbers by those of their words of 64 bits that have one.
ghost use Rattle.std.specs.Prelude.{◌≡◌, ◌≤◌, ◌<◌, ◌^◌, ◌↔◌, length, replicate, slice_get};
ghost use Rattle.std.specs.Prelude.{slice_index, IfOk, OnOk, OnErr, IsTrue};
ghost use Rattle.status_words.specs.Words.{with_bit};
ghost use Rattle.status_words.specs.inside.Kept.{word_at, place_in, is_at, put, is_same};
ghost use Rattle.status_words.specs.inside.Kept.{same_words, is_in, all_in, AreIn};

use chem_model::Memory;
use std::alloc::Global;
use std::marker::Model;

// A word, and its place among all words.
#[derive(Clone, Copy, Debug)]
pub(crate) struct Word {
    place: usize,
    bits: u64,
}

/// A set of numbers in words of 64 bits, which contracts see: bit `i % 64` of the word `i / 64`
/// stands for `i`. It takes the memory of those words that aren't 0.
#[derive(Debug, Drop)]
pub struct Bits {
    count: usize,
    words: Vec<Word>,
}

impl Model for Bits {
    ghost use Rattle.std.specs.Prelude.{List, ℕ};
    ghost use Rattle.std.specs.Coded.{coded_list, coded_ℕ};

    ghost Value = { List ℕ };

    ghost coded = { coded_list coded_ℕ };

    ghost use Rattle.status_words.specs.inside.Kept.{words_from, AreRising};

    ghost view = { λ b. words_from b.words.items 0 b.count };

    ghost invariant = { λ b. AreRising 0 b.count b.words.items };
}

impl Bits {
    /// So many words, each of them 0. It takes no memory.
    pub fn zeros(alloc: Global, count: usize) -> Bits
        ensures { result ≡ replicate count 0 }
    {
        Bits {
            count,
            words: Vec::new(alloc),
        }
    }

    /// How many words there are.
    pub fn len(&self) -> usize
        ensures { result ≡ length self.now }
    {
        self.count
    }

    /// The word at this place, and 0 where there is none.
    pub fn word(&self, place: usize) -> u64
        ensures { result ≡ slice_index self.now place }
    {
        word_at(&self.words, place)
    }

    /// Adds a number, where there is a word for it.
    pub fn set(&mut self, bit: u32) -> Result<(), Memory>
        ensures ok { OnOk result (self.new ≡ with_bit self.old bit) }
        ensures err { OnErr result (self.new ≡ self.old) }
    {
        let place = bit as usize / 64;
        if place >= self.count {
            return Ok(());
        }
        put(&mut self.words, place, 1 << (bit % 64))?;
        Ok(())
    }

    /// Whether these are the same words. Where that is answered, they are.
    pub fn same(&self, other: &Bits) -> bool
        ensures { IsTrue result → self.now ≡ other.now }
    {
        if self.count != other.count {
            return false;
        }
        same_words(&self.words, &other.words)
    }

    // Whether each number is in the set that these words are.
    pub(crate) fn are_in(&self, held: &[u64]) -> bool
        ensures { IsTrue result ↔ AreIn self.now held.now }
    {
        all_in(&self.words, held)
    }

    /// Words that are equal to these.
    pub fn copy(&self, alloc: Global) -> Result<Bits, Memory>
        ensures { IfOk result (λ copy. copy ≡ self.now) }
    {
        let count = self.count;
        let words = Vec::from_slice(alloc, &self.words)?;
        Ok(Bits { count, words })
    }
}

// The word at a place: 0 where none is kept.
fn word_at(words: &[Word], place: usize) -> u64
    ensures { result ≡ word_at words.now place }
{
    for word in words {
        if word.place == place {
            return word.bits;
        }
    }
    0
}

// How many come before a place.
fn place_in(words: &[Word], place: usize) -> usize
    ensures { result ≡ place_in words.now place }
{
    for at in 0..words.len() {
        if words[at].place >= place {
            return at;
        }
    }
    words.len()
}

// Whether the word with this index is the one at a place.
fn is_at(words: &[Word], at: usize, place: usize) -> bool
    ensures { result ≡ is_at (slice_get words.now at) place }
{
    match words.get(at) {
        Some(word) => word.place == place,
        None => false,
    }
}

// Adds bits to the word at a place.
fn put(words: &mut Vec<Word>, place: usize, bits: u64) -> Result<(), Memory>
    ensures ok { OnOk result (words.new.items ≡ put words.old.items place bits) }
    ensures err { OnErr result (words.new.items ≡ words.old.items) }
{
    let at = place_in(words, place);
    if is_at(words, at, place) {
        let old = words[at].bits;
        words[at] = Word {
            place,
            bits: old | bits,
        };
        return Ok(());
    }
    words.insert(at, Word { place, bits })?;
    Ok(())
}

fn is_same(one: Word, other: Word) -> bool
    ensures { result ≡ is_same one other }
{
    one.place == other.place && one.bits == other.bits
}

// Whether these are the same words at the same places.
fn same_words(one: &[Word], other: &[Word]) -> bool
    ensures { result ≡ same_words one.now other.now }
{
    if one.len() != other.len() {
        return false;
    }
    for at in 0..one.len() {
        if !is_same(one[at], other[at]) {
            return false;
        }
    }
    true
}

// The word at a place: 0 behind the last.
fn read(words: &[u64], place: usize) -> u64
    ensures { result ≡ slice_index words.now place }
{
    if place >= words.len() {
        return 0;
    }
    words[place]
}

// Whether no bit of the word is missing from the one at its place.
fn is_in(word: Word, held: &[u64]) -> bool
    ensures { result ≡ is_in held.now word }
{
    word.bits & read(held, word.place) == word.bits
}

// Whether no bit of these words is missing from those at their places.
fn all_in(words: &[Word], held: &[u64]) -> bool
    ensures { result ≡ all_in held.now words.now }
{
    for word in words {
        if !is_in(*word, held) {
            return false;
        }
    }
    true
}
