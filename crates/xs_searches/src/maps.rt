ghost use Rattle.std.specs.Prelude.{ℕ, ◌≡◌, ◌≤◌, List, IfOk, IfSome, IfNone, OnOk};
ghost use Rattle.xs_auto.specs.{IsTame};
ghost use Rattle.xs_meet.specs.{IsSharedOver, AreOverlapOver};
ghost use Rattle.xs_searches.specs.Spaces.{IsSpace};

use crate::SearchSpace;
use std::alloc::Global;
use std::marker::Model;
use xs_auto::{Net, Pairs};
use xs_class::{Memory, Word};
use xs_meet::{Overlap, meet_nested, overlap_nested};

/// Maps for searches over pairs of states, which contracts see as the number of cells of each.
///
/// A search that needs more cells is given larger maps; one that needs fewer uses those that are
/// there.
#[derive(Debug, Drop)]
pub struct Maps {
    pairs: Pairs,
    cells: u64,
    alloc: Global,
}

impl Model for Maps {
    ghost use Rattle.std.specs.Prelude.{◌≡◌, ℕ};

    ghost Value = { ℕ };

    ghost view = { λ m. m.cells };

    ghost invariant = { λ m. m.pairs.cells ≡ m.cells };
}

impl Maps {
    /// Maps without cells.
    pub fn new(alloc: Global) -> Result<Maps, Memory>
        ensures { IfOk result (λ m. m ≡ 0) }
    {
        let pairs = Pairs::with_room(alloc, 0)?;
        Ok(Maps {
            pairs,
            cells: 0,
            alloc,
        })
    }

    /// Makes sure that there are that many cells.
    fn make_room(&mut self, cells: u64) -> Result<(), Memory>
        ensures { OnOk result (cells ≤ self.new) }
    {
        if self.cells < cells {
            self.pairs = Pairs::with_room(self.alloc, cells)?;
            self.cells = cells;
        }
        Ok(())
    }

    /// A word that both nets accept over the nest of the space, or none where there is none.
    pub fn meet(
        &mut self,
        space: &SearchSpace<'_>,
        a: &Net,
        b: &Net,
    ) -> Result<Option<Word>, Memory>
        requires space { IsSpace space.now }
        requires tame_a { IsTame space.now.nest a.now }
        requires tame_b { IsTame space.now.nest b.now }
        ensures some { IfOk result (λ o. IfSome o (IsSharedOver space.now.nest a.now b.now)) }
        ensures none { IfOk result (λ o. IfNone o ((w : List ℕ) → IsSharedOver space.now.nest a.now b.now w → ⊥)) }
    {
        let cells = a.len() as u64 * b.len() as u64;
        self.make_room(cells)?;
        meet_nested(
            self.alloc,
            &space.nest,
            &space.shared,
            a,
            b,
            &mut self.pairs,
        )
    }

    /// Words x, a and y, a not empty, such that over the nest of the space the front net accepts x
    /// and xa and the rest net accepts y and ay, or none where there are none.
    pub fn overlap(
        &mut self,
        space: &SearchSpace<'_>,
        front: &Net,
        rest: &Net,
    ) -> Result<Option<Overlap>, Memory>
        requires space { IsSpace space.now }
        requires tame_front { IsTame space.now.nest front.now }
        requires tame_rest { IsTame space.now.nest rest.now }
        ensures some { IfOk result (λ o. IfSome o (λ w. AreOverlapOver space.now.nest front.now rest.now w.x w.a w.y)) }
        ensures none { IfOk result (λ o. IfNone o ((x a y : List ℕ) → AreOverlapOver space.now.nest front.now rest.now x a y → ⊥)) }
    {
        let high = front.len() as u64;
        let wide = rest.len() as u64;
        let cells = (high * high).max(high * wide).max(wide * wide);
        self.make_room(cells)?;
        overlap_nested(
            self.alloc,
            &space.nest,
            &space.shared,
            front,
            rest,
            &mut self.pairs,
        )
    }
}
