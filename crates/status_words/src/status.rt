// Sets of small numbers, in words of 64 bits.
ghost use Rattle.std.specs.Prelude.{◌≡◌, ◌<◌, ◌↔◌, true, false};
ghost use Rattle.std.specs.Prelude.{length, slice_set, replicate, IfOk, IsTrue};
ghost use Rattle.status_words.specs.Words.{number_of_words, Covers};

use crate::sparse::Bits;
use chem_model::Memory;
use std::alloc::Global;
use std::marker::Model;

/// A set of numbers below a size. Contracts see for each of these numbers whether it is in the set.
#[derive(Drop)]
pub struct Status {
    bits: u32,
    words: Vec<u64>,
}

impl Model for Status {
    ghost use Rattle.std.specs.Prelude.{List, Bool};

    ghost Value = { List Bool };

    ghost use Rattle.status_words.specs.inside.Stored.{bits_from, AreWords};

    ghost view = { λ s. bits_from s.words.items 0 s.bits };

    ghost invariant = { λ s. AreWords s.bits s.words.items };
}

impl Status {
    /// The empty set of this size.
    pub fn with_bits(alloc: Global, bits: u32) -> Result<Status, Memory>
        ensures { IfOk result (λ status. status ≡ replicate bits false) }
    {
        let count = (bits as usize).div_ceil(64);
        let words = vec![in alloc; 0; count]?;
        Ok(Status { bits, words })
    }

    /// The size.
    pub fn bits(&self) -> u32
        ensures { result ≡ length self.now }
    {
        self.bits
    }

    /// Adds a number.
    pub fn set(&mut self, bit: u32)
        requires { bit < length self.old }
        ensures { self.new ≡ slice_set self.old bit true }
    {
        let word = &mut self.words[bit as usize / 64];
        *word |= 1 << (bit % 64);
    }

    /// Removes a number.
    pub fn clear(&mut self, bit: u32)
        requires { bit < length self.old }
        ensures { self.new ≡ slice_set self.old bit false }
    {
        let word = &mut self.words[bit as usize / 64];
        *word &= !(1 << (bit % 64));
    }

    /// Whether every number of the mask, which is as many words as the set's, is in the set.
    pub fn covers(&self, mask: &[u64]) -> bool
        requires { length mask.now ≡ number_of_words (length self.now) }
        ensures { IsTrue result ↔ Covers self.now mask.now }
    {
        for (i, word) in mask.iter().enumerate() {
            let held = self.words[i];
            if *word & held != *word {
                return false;
            }
        }
        true
    }

    /// Whether every number of the mask, which has as many words as the set, is in the set. It
    /// looks at those words of the mask that aren't 0.
    pub fn covers_bits(&self, mask: &Bits) -> bool
        requires { length mask.now ≡ number_of_words (length self.now) }
        ensures { IsTrue result ↔ Covers self.now mask.now }
    {
        mask.are_in(&self.words)
    }
}
