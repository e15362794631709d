use xs_class::Memory;

/// Why a pattern gives no regex.
#[derive(Clone, Copy, Debug, PartialEq, Eq)]
pub enum RegexFault {
    /// The pattern has no reading within the bounds.
    BadRegex,
    Memory,
}

impl From<Memory> for RegexFault {
    ghost use Rattle.std.specs.Prelude.{◌≡◌};
    ghost use Rattle.xs_regex.specs.declared.fault.RegexFault.TheVariants as fault;

    ghost from_gives = { λ _ e. e ≡ fault.Memory };

    fn from(_: Memory) -> Self {
        RegexFault::Memory
    }
}
