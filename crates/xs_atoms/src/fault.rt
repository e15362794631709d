use std::alloc::{AllocError, AllocFailed};
use xs_class::Memory;

/// Why a grammar has no atoms.
#[derive(Clone, Copy, Debug, PartialEq, Eq)]
pub enum AtomsFault {
    /// It has too many atoms, classes, or cells of symbols.
    TooMany,
    Memory,
}

impl From<Memory> for AtomsFault {
    fn from(_: Memory) -> Self {
        AtomsFault::Memory
    }
}

impl From<AllocError> for AtomsFault {
    fn from(_: AllocError) -> Self {
        AtomsFault::Memory
    }
}

impl<T: Drop> From<AllocFailed<T>> for AtomsFault {
    fn from(_: AllocFailed<T>) -> Self {
        AtomsFault::Memory
    }
}
