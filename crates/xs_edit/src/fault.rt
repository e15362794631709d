use xs_class::Memory;

/// Why a document was not edited.
#[derive(Clone, Copy, Debug, PartialEq, Eq)]
pub enum EditFault {
    /// The symbols that are to be replaced are not all there.
    Outside,
    /// The document would have more than 1,048,576 symbols.
    Long,
    Memory,
}

impl From<Memory> for EditFault {
    ghost use Rattle.std.specs.Prelude.{◌≡◌};
    ghost use Rattle.xs_edit.specs.declared.fault.EditFault.TheVariants as fault;

    ghost from_gives = { λ _ e. e ≡ fault.Memory };

    fn from(_: Memory) -> Self {
        EditFault::Memory
    }
}
