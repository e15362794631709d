use xs_class::Memory;

/// Why a stretch, or one of the insides of a grammar's groups, has no net.
#[derive(Clone, Copy, Debug, PartialEq, Eq)]
pub enum LooseFault {
    /// It weighs more than 8,192; this is its weight.
    Heavy { weight: u64 },
    Memory,
}

impl From<Memory> for LooseFault {
    ghost use Rattle.std.specs.Prelude.{◌≡◌};
    ghost use Rattle.xs_loose.specs.declared.fault.LooseFault.TheVariants as fault;

    ghost from_gives = { λ _ e. e ≡ fault.Memory };

    fn from(_: Memory) -> Self {
        LooseFault::Memory
    }
}
