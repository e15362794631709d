use xs_forest::Label;

/// What a row is of.
#[derive(Clone, Copy, Debug, PartialEq, Eq, Hash)]
pub enum What {
    /// A nonterminal.
    Whole(u32),
    /// The first `dot` items of a rule.
    Front { rule: u32, dot: u32 },
}

/// The label of a row: what it is of, and the places of the document where its stretch begins and
/// ends, counted from 0.
#[derive(Clone, Copy, Debug, PartialEq, Eq, Hash)]
pub struct SpanKey {
    pub what: What,
    pub start: u32,
    pub end: u32,
}

impl Label for SpanKey {
    ghost use Rattle.std.specs.Prelude.{◌≡◌};
    ghost use Rattle.std.proofs.Common.{rules};

    ghost same = { λ x y is. Prim.search rules };
}
