ghost use Rattle.std.specs.Prelude.{◌≡◌, ◌<◌, ◌↔◌, false, IsTrue, IfOk};
ghost use Rattle.xs_auto.specs.Marks.{marked_at, HasNoMark, IsCleared, IsMarked};

use crate::bits::BitSet;
use std::alloc::Global;
use std::marker::Model;
use xs_class::Memory;

/// Three maps of cells, one bit a cell, which searches over pairs of states mark.
#[derive(Debug, Drop)]
pub struct Pairs {
    cells: u64,
    maps: Vec<BitSet>,
}

impl Model for Pairs {
    ghost use Rattle.xs_auto.specs.Marks.{Marks, HasMaps};

    ghost Value = { Marks };

    ghost view = { λ p. record { cells = p.cells; maps = p.maps.items } };

    ghost invariant = { λ p. HasMaps p.cells p.maps.items };
}

impl Pairs {
    /// Three maps of that many cells each, none of them marked.
    pub fn with_room(alloc: Global, cells: u64) -> Result<Pairs, Memory>
        ensures cells { IfOk result (λ p. p.cells ≡ cells) }
        ensures blank { IfOk result HasNoMark }
    {
        let first = BitSet::with_bound(alloc, cells)?;
        let second = BitSet::with_bound(alloc, cells)?;
        let third = BitSet::with_bound(alloc, cells)?;
        let maps = vec![in alloc; first, second, third]?;
        Ok(Pairs { cells, maps })
    }

    /// Unmarks all cells of a map, in time linear in the greatest that was marked.
    pub fn clear(&mut self, map: u32)
        requires { map < 3 }
        ensures { IsCleared self.old self.new map }
    {
        let marks = &mut self.maps[map as usize];
        marks.clear();
    }

    /// Marks a cell of a map, and says whether it was not marked.
    pub fn mark(&mut self, map: u32, cell: u64) -> bool
        requires map { map < 3 }
        requires cell { cell < self.old.cells }
        ensures fresh { IsTrue result ↔ (marked_at self.old map cell ≡ false) }
        ensures marked { IsMarked self.old self.new map cell }
    {
        let marks = &mut self.maps[map as usize];
        marks.insert(cell)
    }
}
