use xs_class::Memory;

/// Why an outline has no tree.
#[derive(Debug, Clone, Copy, PartialEq, Eq)]
pub enum OutlineFault {
    /// The first line, counted from 1, that is not expected where it stands; one more than the
    /// number of lines where the outline ends too early.
    OutlineBad { line: u64 },
    /// Memory ran out.
    Memory,
}

impl From<Memory> for OutlineFault {
    ghost use Rattle.std.specs.Prelude.{◌≡◌};
    ghost use Rattle.xs_outline.specs.declared.fault.OutlineFault.TheVariants as fault;

    ghost from_gives = { λ _ e. e ≡ fault.Memory };

    fn from(_: Memory) -> Self {
        OutlineFault::Memory
    }
}
