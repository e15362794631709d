ghost use Rattle.std.specs.Prelude.{◌≡◌, ◌<◌, ℕ, length, true, false, slice_index_or, slice_set, IfOk};

use std::alloc::Global;
use std::marker::Model;
use xs_class::Memory;

/// Which nonterminals are marked.
///
/// Contracts see it as a list, which says of each nonterminal whether it is marked. One is marked
/// where its number equals the last one, so that all marks are removed by raising that.
#[derive(Drop)]
pub struct Called {
    marks: Vec<u32>,
    last: u32,
}

impl Model for Called {
    ghost use Rattle.std.specs.Prelude.{List, Bool};
    ghost use Rattle.xs_earley.specs.Called.{marked, AreUpTo};

    ghost Value = { List Bool };

    ghost view = { λ c. marked c.last c.marks.items };

    ghost invariant = { λ c. AreUpTo c.last c.marks.items };
}

impl Called {
    /// No mark on that many nonterminals.
    pub fn new(alloc: Global, count: usize) -> Result<Called, Memory>
        ensures counted { IfOk result (λ called. length called ≡ count) }
        ensures unmarked { IfOk result (λ called. (non : ℕ) → slice_index_or called non false ≡ false) }
    {
        let marks = vec![in alloc; 0; count]?;
        Ok(Called { marks, last: 1 })
    }

    /// Whether the nonterminal is marked.
    #[inline(always)]
    pub fn has(&self, non: u32) -> bool
        requires { non < length self.now }
        ensures { result ≡ slice_index_or self.now non false }
    {
        self.marks[non as usize] == self.last
    }

    /// Marks the nonterminal.
    #[inline(always)]
    pub fn mark(&mut self, non: u32)
        requires { non < length self.old }
        ensures { self.new ≡ slice_set self.old non true }
    {
        self.marks[non as usize] = self.last;
    }

    /// Removes all marks; takes no memory.
    #[inline(always)]
    pub fn clear(&mut self)
        ensures counted { length self.new ≡ length self.old }
        ensures unmarked { (non : ℕ) → slice_index_or self.new non false ≡ false }
    {
        if self.last == u32::MAX {
            self.marks.fill(0);
            self.last = 0;
        }
        self.last += 1;
    }
}
