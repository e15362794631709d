ghost use Rattle.std.specs.Prelude.{◌≡◌, ◌<◌, length, get_or, set, replicate, not, true, false, IfOk};

use std::alloc::Global;
use std::marker::Model;
use xs_class::Memory;

/// A set of numbers below a bound, one bit a number.
#[derive(Debug, Drop)]
pub struct BitSet {
    bound: u64,
    used: usize,
    words: Vec<u64>,
}

impl Model for BitSet {
    ghost use Rattle.std.specs.Prelude.{List, Bool};
    ghost use Rattle.xs_auto.specs.Bits.{bits_of, HoldsBits};

    ghost Value = { List Bool };

    ghost view = { λ s. bits_of s.bound s.words.items };

    ghost invariant = { λ s. HoldsBits s.bound s.used s.words.items };
}

impl BitSet {
    /// The empty set.
    pub fn with_bound(alloc: Global, bound: u64) -> Result<BitSet, Memory>
        ensures { IfOk result (λ s. s ≡ replicate bound false) }
    {
        let count = (bound / 64 + 1) as usize;
        let words = vec![in alloc; 0; count]?;
        Ok(BitSet {
            bound,
            used: 0,
            words,
        })
    }

    /// Takes all numbers out, in time linear in the greatest that was put in.
    pub fn clear(&mut self)
        ensures { self.new ≡ replicate (length self.old) false }
    {
        'places: for place in 0..self.used {
            self.words[place] = 0;
        }
        self.used = 0;
    }

    /// Puts a number in, and says whether it was not there.
    pub fn insert(&mut self, number: u64) -> bool
        requires { number < length self.old }
        ensures fresh { result ≡ not (get_or self.old number false) }
        ensures inserted { self.new ≡ set self.old number true }
    {
        let place = (number / 64) as usize;
        let bit = number % 64;
        let word = self.words[place];
        self.words[place] = word | (1 << bit);
        self.used = self.used.max(place + 1);
        (word >> bit) & 1 == 0
    }
    /// Whether a number is in the set.
    pub fn has(&self, number: u64) -> bool
        requires { number < length self.now }
        ensures { result ≡ get_or self.now number false }
    {
        let place = (number / 64) as usize;
        (self.words[place] >> (number % 64)) & 1 == 1
    }
}
