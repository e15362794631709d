use std::hash::{Hash, Hasher};

/// A state of a rule, with the number of the set in which the rule began.
#[derive(Clone, Copy, Debug, PartialEq, Eq)]
pub struct Item {
    pub state: u32,
    pub origin: u32,
}

/// By hand: one write of both numbers costs less than one of each.
impl Hash for Item {
    ghost use Rattle.std.specs.Prelude.{◌+◌, ◌*◌, ◌^◌};
    ghost use Rattle.std.specs.Hash as fed;
    ghost use Rattle.std.proofs.Common.{rules};
    ghost use Rattle.std.specs.Cmp.Rules.{hashing};

    ghost hash_input = { λ item. fed.u64 (item.origin * 2 ^ 32 + item.state) };

    ghost respects_eq = { Prim.search (hashing, rules) };

    fn hash<H: Hasher>(&self, state: &mut H) {
        state.write_u64(u64::from(self.origin) * (1 << 32) + u64::from(self.state));
    }
}
