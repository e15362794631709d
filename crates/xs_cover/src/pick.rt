use xs_forest::Label;

/// What a row of the forest is of.
#[derive(Clone, Copy, Debug, PartialEq, Eq, Hash)]
pub enum Pick {
    /// A nonterminal.
    Whole(u32),
    /// The first `dot` items of a rule of the text side.
    Front { rule: u32, dot: u32 },
}

impl Label for Pick {
    ghost use Rattle.std.specs.Prelude.{◌≡◌};
    ghost use Rattle.std.proofs.Common.{rules};

    ghost same = { λ x y is. Prim.search rules };
}
