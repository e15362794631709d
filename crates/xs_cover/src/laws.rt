ghost use Rattle.xs_cover.specs.Laws.{SizesAdd, ClosedCostsAreLow, CostsAreLeast, UnreachedIsNotShown};

/// The size of a tree that fits both sides is what its productions have of their own, and the words
/// of its leaves once for each side.
pub fn sizes_add()
    ensures { SizesAdd }
{}

/// No tree that fits the start and uses a production is smaller than what stands around the
/// production's nonterminal and the production itself cost, where the costs are closed.
pub fn closed_costs_are_low()
    ensures { ClosedCostsAreLow }
{}

/// Closed costs that some tree attains are the least size.
pub fn costs_are_least()
    ensures { CostsAreLeast }
{}

/// A production that some tree shows is of a nonterminal that the start reaches.
pub fn unreached_is_not_shown()
    ensures { UnreachedIsNotShown }
{}
