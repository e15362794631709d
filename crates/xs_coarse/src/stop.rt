ghost use Rattle.std.specs.Prelude.{◌≡◌};
ghost use Rattle.xs_coarse.specs.Stops.{fitting};

use std::alloc::{AllocError, AllocFailed};
use xs_class::Memory;

/// Why labels or a net were not made.
#[derive(Clone, Copy, Debug, PartialEq, Eq)]
pub enum Stop {
    /// There would be too many labels, a class has a fence symbol, the net would be too large, or a symbol
    /// has no label.
    Unfit,
    Memory,
}

impl From<Memory> for Stop {
    fn from(_: Memory) -> Self {
        Stop::Memory
    }
}

impl From<AllocError> for Stop {
    fn from(_: AllocError) -> Self {
        Stop::Memory
    }
}

impl<T: Drop> From<AllocFailed<T>> for Stop {
    fn from(_: AllocFailed<T>) -> Self {
        Stop::Memory
    }
}

/// What was made, or none where it does not fit.
pub fn fitting<T>(made: Result<T, Stop>) -> Result<Option<T>, Memory>
    ensures { result ≡ fitting made }
{
    match made {
        Ok(made) => Ok(Some(made)),
        Err(Stop::Unfit) => Ok(None),
        Err(Stop::Memory) => Err(Memory),
    }
}
