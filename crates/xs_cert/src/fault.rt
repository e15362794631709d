use xs_class::Memory;
use xs_searches::CheckFault;

/// Why bytes do not certify two grammars.
#[derive(Debug, Drop)]
pub enum CertFault {
    /// A rule weighs more than 8,192: this is the weight of the first that does.
    Heavy { weight: u64 },
    /// No rule is heavy, and this line, counted from 1, is the first after the longest front of the
    /// bytes that is right.
    CertBad { line: u64 },
    Memory,
}

impl From<Memory> for CertFault {
    ghost use Rattle.std.specs.Prelude.{◌≡◌};
    ghost use Rattle.xs_cert.specs.declared.fault.CertFault.TheVariants as fault;

    ghost from_gives = { λ _ e. e ≡ fault.Memory };

    fn from(_: Memory) -> Self {
        CertFault::Memory
    }
}

impl From<CheckFault> for CertFault {
    ghost use Rattle.std.specs.Prelude.{◌≡◌};
    ghost use Rattle.xs_cert.specs.Reasons.{fault_of};

    ghost from_gives = { λ fault e. e ≡ fault_of fault };

    fn from(fault: CheckFault) -> Self {
        match fault {
            CheckFault::Heavy { weight } => CertFault::Heavy { weight },
            CheckFault::Memory => CertFault::Memory,
        }
    }
}
