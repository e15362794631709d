use std::alloc::{AllocError, AllocFailed};

/// Why a row was not added.
#[derive(Clone, Copy, Debug, PartialEq, Eq)]
pub enum AddFault {
    /// Row `at` has the label.
    Repeated { at: u64 },
    /// Want of memory.
    Memory,
}

impl From<AllocError> for AddFault {
    ghost use Rattle.std.specs.Prelude.{◌≡◌};
    ghost use Rattle.xs_forest.specs.declared.fault.AddFault.TheVariants.{Memory};

    ghost from_gives = { λ _ e. e ≡ Memory };

    fn from(_: AllocError) -> Self {
        AddFault::Memory
    }
}

impl<T: Drop> From<AllocFailed<T>> for AddFault {
    ghost use Rattle.std.specs.Prelude.{◌≡◌};
    ghost use Rattle.xs_forest.specs.declared.fault.AddFault.TheVariants.{Memory};

    ghost from_gives = { λ _ e. e ≡ Memory };

    fn from(_: AllocFailed<T>) -> Self {
        AddFault::Memory
    }
}
