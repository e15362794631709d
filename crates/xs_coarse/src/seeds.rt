ghost use Rattle.std.specs.Prelude.{◌≡◌, ℕ, ◌+◌, ◌<◌, ◌≤◌, OnOk};
ghost use Rattle.std.specs.List.{All};
ghost use Rattle.xs_coarse.specs.declared.pair.Pair.{Pair as AnyPair};
ghost use Rattle.xs_coarse.specs.Arcs.{HasFound, HasAll, Steps};
ghost use Rattle.xs_coarse.specs.Found.{Fits, IsInside, IsMore};

use crate::found::Found;
use crate::pair::Pair;
use crate::{Coarse, Labels};
use xs_class::Memory;

impl Found {
    /// Visits where arcs that may read a common word lead from the pairs.
    pub fn seed_steps(
        &mut self,
        labels: &Labels,
        net: &Coarse,
        pairs: &[Pair],
    ) -> Result<(), Memory>
        requires fits { Fits self.old }
        requires inside { All (IsInside net.now.states net.now.states) pairs.now }
        ensures more { IsMore self.old self.new }
        ensures ok { OnOk result (All (λ (p : AnyPair). HasAll (Steps labels.now net.now net.now) p.first p.second self.new) pairs.now) }
    {
        'pairs: for pair in pairs {
            self.step(labels, net, net, *pair)?;
        }
        Ok(())
    }

    /// Visits that first state beside each second one from one on, before an end.
    pub fn seed_firsts(&mut self, first: u32, begin: u32, end: u32) -> Result<(), Memory>
        requires { Fits self.old }
        ensures more { IsMore self.old self.new }
        ensures ok { OnOk result ((b : ℕ) → begin ≤ b → b < end → HasFound self.new first b) }
    {
        'states: for second in begin..end {
            self.visit(first, second)?;
        }
        Ok(())
    }

    /// Visits each first state before an end beside that second one.
    pub fn seed_seconds(&mut self, end: u32, second: u32) -> Result<(), Memory>
        requires { Fits self.old }
        ensures more { IsMore self.old self.new }
        ensures ok { OnOk result ((a : ℕ) → a < end → HasFound self.new a second) }
    {
        'states: for first in 0..end {
            self.visit(first, second)?;
        }
        Ok(())
    }
}
