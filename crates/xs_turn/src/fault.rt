use xs_class::Memory;
use xs_earley::SeeFault;

/// Why a document is not translated.
#[derive(Clone, Copy, Debug, PartialEq, Eq)]
pub enum TurnFault {
    /// The document has no derivation; that many of its leading symbols begin some document that
    /// has one.
    Foreign { viable: u64 },
    /// Memory ran out.
    Memory,
}

impl From<Memory> for TurnFault {
    ghost use Rattle.std.specs.Prelude.{◌≡◌};
    ghost use Rattle.xs_turn.specs.declared.fault.TurnFault.TheVariants as fault;

    ghost from_gives = { λ _ e. e ≡ fault.Memory };

    fn from(_: Memory) -> Self {
        TurnFault::Memory
    }
}

impl From<SeeFault> for TurnFault {
    ghost use Rattle.std.specs.Prelude.{◌≡◌};
    ghost use Rattle.xs_turn.specs.Stops.{fault_of};

    ghost from_gives = { λ fault e. e ≡ fault_of fault };

    fn from(fault: SeeFault) -> Self {
        match fault {
            SeeFault::Foreign { viable } => TurnFault::Foreign { viable },
            SeeFault::Memory => TurnFault::Memory,
        }
    }
}
