use indexmap::IndexSet;
use std::alloc::Global;
use xs_class::Memory;

/// A pair of numbers, of which keys are made.
pub type Pair = (u32, u32);

/// Lists of pairs, each kept once and numbered in the order in which they came.
#[derive(Drop)]
pub struct Keys {
    lists: IndexSet<Vec<Pair>>,
    pairs: usize,
}

impl Keys {
    /// No key.
    pub fn new(alloc: Global) -> Self {
        Keys {
            lists: IndexSet::new(alloc),
            pairs: 0,
        }
    }

    /// The key of this number, empty where there is none.
    pub fn at(&self, number: u32) -> &[Pair] {
        match self.lists.get_index(number as usize) {
            None => &[],
            Some(key) => key,
        }
    }

    /// The number of pairs of all keys.
    pub fn pairs(&self) -> usize {
        self.pairs
    }

    /// The number of a key, or None where it is not there.
    pub fn find(&self, key: &[Pair]) -> Option<u32> {
        Some(capped(self.lists.get_index_of(key)?))
    }

    /// Appends a key that is not there, and gives its number.
    pub fn add(&mut self, key: &[Pair]) -> Result<u32, Memory> {
        let list = Vec::from_slice(*self.lists.allocator(), key)?;
        let (number, _) = self.lists.insert_full(list)?;
        self.pairs = self.pairs.saturating_add(key.len());
        Ok(capped(number))
    }
}

/// A length as a number of 32 bits, the greatest where it has none.
pub fn capped(length: usize) -> u32 {
    if length < u32::MAX as usize {
        length as u32
    } else {
        u32::MAX
    }
}
