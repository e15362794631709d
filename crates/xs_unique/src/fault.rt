use xs_class::Memory;
use xs_gram::Suspect;
use xs_searches::CheckFault;

/// Why two grammars are not accepted.
#[derive(Debug, Drop)]
pub enum AcceptFault {
    /// A rule weighs more than 8,192: this is the weight of the first that does.
    Heavy { weight: u64 },
    /// No rule is heavy, and this is the first suspect.
    Suspect(Suspect),
    Memory,
}

impl From<Memory> for AcceptFault {
    ghost use Rattle.std.specs.Prelude.{◌≡◌};
    ghost use Rattle.xs_unique.specs.declared.fault.AcceptFault.TheVariants as fault;

    ghost from_gives = { λ _ e. e ≡ fault.Memory };

    fn from(_: Memory) -> Self {
        AcceptFault::Memory
    }
}

impl From<CheckFault> for AcceptFault {
    ghost use Rattle.std.specs.Prelude.{◌≡◌};
    ghost use Rattle.xs_unique.specs.Reasons.{fault_of};

    ghost from_gives = { λ fault e. e ≡ fault_of fault };

    fn from(fault: CheckFault) -> Self {
        match fault {
            CheckFault::Heavy { weight } => AcceptFault::Heavy { weight },
            CheckFault::Memory => AcceptFault::Memory,
        }
    }
}
