use crate::Ill;
use xs_class::Memory;

/// Why a sheet has no two grammars.
#[derive(Clone, Copy, Debug, PartialEq, Eq)]
pub enum PairFault {
    /// One of the first seven rules fails: the first that does, with the least line at which it
    /// does.
    Ill(Ill),
    /// Memory ran out.
    Memory,
}

impl From<Memory> for PairFault {
    ghost use Rattle.std.specs.Prelude.{◌≡◌};
    ghost use Rattle.xs_pair.specs.declared.fault.PairFault.TheVariants as fault;

    ghost from_gives = { λ _ e. e ≡ fault.Memory };

    fn from(_: Memory) -> Self {
        PairFault::Memory
    }
}
