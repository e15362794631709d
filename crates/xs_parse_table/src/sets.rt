ghost use Rattle.std.specs.Prelude.{◌≡◌, ◌<◌, [], Some, length, slice_get, IfOk};
ghost use Rattle.xs_parse_table.specs.Rows.{AreLonger};

use indexmap::IndexSet;
use std::alloc::Global;
use std::marker::Model;
use xs_class::Memory;

/// Sets of positions, each a list in ascending order, by their numbers.
///
/// Contracts see the list of them.
#[derive(Drop)]
pub struct Sets {
    lists: IndexSet<Vec<u32>>,
}

impl Model for Sets {
    ghost use Rattle.std.specs.Prelude.{List, ℕ};
    ghost use Rattle.xs_atoms.specs.Interned.{lists_of};

    ghost Value = { List (List ℕ) };

    ghost view = { λ s. lists_of s.lists.keys };
}

impl Sets {
    /// No set.
    pub fn new(alloc: Global) -> Self
        ensures { result ≡ [] }
    {
        Sets {
            lists: IndexSet::new(alloc),
        }
    }

    /// How many sets there are.
    pub fn len(&self) -> usize
        ensures { result ≡ length self.now }
    {
        self.lists.len()
    }

    /// The set of this number.
    pub fn at(&self, number: usize) -> &[u32]
        requires { number < length self.now }
        ensures { slice_get self.now number ≡ Some result.now }
    {
        &self.lists.as_slice()[number]
    }

    /// The number of a set, which is appended where it is not there.
    pub fn number(&mut self, set: &[u32]) -> Result<usize, Memory>
        ensures longer { IfOk result (λ _. AreLonger self.old self.new) }
        ensures there { IfOk result (λ n. slice_get self.new n ≡ Some set.now) }
    {
        if let Some(number) = self.lists.get_index_of(set) {
            return Ok(number);
        }
        let list = Vec::from_slice(*self.lists.allocator(), set)?;
        let (number, _) = self.lists.insert_full(list)?;
        Ok(number)
    }
}
