use xs_forest::Label;

/// A nonterminal, and the place of the document where it begins, counted from 0.
#[derive(Clone, Copy, PartialEq, Eq, Hash)]
pub struct Call {
    pub non: u32,
    pub start: u32,
}

impl Label for Call {
    ghost use Rattle.std.specs.Prelude.{◌≡◌};
    ghost use Rattle.std.proofs.Common.{rules};

    ghost same = { λ x y is. Prim.search rules };
}
