ghost use Rattle.std.specs.Prelude.{◌≡◌, ℕ, ◌<◌, ◌≤◌, false, IfSome, IfNone};
ghost use Rattle.xs_closed.specs.Rows.{marked, IsNext};

use crate::PairSet;

/// The least partner of a state that is at least `from`, if there is one.
pub fn partner_from(set: &PairSet, a: u32, from: u64) -> Option<u32>
    ensures some { IfSome result (IsNext set.now a from) }
    ensures within { IfSome result (λ b. b < set.now.wide) }
    ensures none { IfNone result ((b : ℕ) → from ≤ b → marked set.now a b ≡ false) }
{
    if from >= set.wide() as u64 {
        return None;
    }
    set.next(a, from as u32)
}
