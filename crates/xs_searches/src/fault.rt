use xs_class::Memory;

/// Why a grammar is not searched for suspects.
#[derive(Clone, Copy, Debug, PartialEq, Eq)]
pub enum CheckFault {
    /// A rule weighs more than 8,192: this is the weight of the first that does.
    Heavy { weight: u64 },
    Memory,
}

impl From<Memory> for CheckFault {
    ghost use Rattle.std.specs.Prelude.{◌≡◌};
    ghost use Rattle.xs_searches.specs.declared.fault.CheckFault.TheVariants as fault;

    ghost from_gives = { λ _ e. e ≡ fault.Memory };

    fn from(_: Memory) -> Self {
        CheckFault::Memory
    }
}
