use xs_class::Memory;

/// Why there is no chart of a document.
#[derive(Clone, Copy, Debug, PartialEq, Eq)]
pub enum SeeFault {
    /// The document is not of the language; that many leading symbols, and no more, begin a word of
    /// it.
    Foreign { viable: u64 },
    Memory,
}

impl From<Memory> for SeeFault {
    ghost use Rattle.std.specs.Prelude.{◌≡◌};
    ghost use Rattle.xs_earley.specs.declared.fault.SeeFault.TheVariants as fault;

    ghost from_gives = { λ _ e. e ≡ fault.Memory };

    fn from(_: Memory) -> Self {
        SeeFault::Memory
    }
}
