use xs_class::Memory;

/// Why nonterminals have no order.
#[derive(Clone, Copy, Debug, PartialEq, Eq)]
pub enum OrderFault {
    /// The nonterminal derives itself alone, and no smaller one does.
    Loop { non: u32 },
    Memory,
}

impl From<Memory> for OrderFault {
    ghost use Rattle.std.specs.Prelude.{◌≡◌};
    ghost use Rattle.xs_order.specs.declared.fault.OrderFault.TheVariants as fault;

    ghost from_gives = { λ _ e. e ≡ fault.Memory };

    fn from(_: Memory) -> Self {
        OrderFault::Memory
    }
}
