use crate::Net;
use std::marker::Model;
use xs_class::Sym;

/// A group: the two symbols of its fence, and a net for what stands between them.
#[derive(Debug, Drop)]
pub struct Group {
    pub left: Sym,
    pub right: Sym,
    pub content: Net,
}

impl Model for Group {
    ghost use Rattle.xs_auto.specs.Nests.{Group};

    ghost Value = { Group };

    ghost view = { λ g. record { left = g.left; right = g.right; content = g.content } };
}
