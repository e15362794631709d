ghost use Rattle.std.specs.Prelude.{◌≡◌, ◌<◌, None, length, IfSome};
ghost use Rattle.xs_gram.specs.Fences.{spread, IsLeftFence};
ghost use Rattle.xs_loose.specs.Parts.{IsFencedAt};

use xs_class::Sym;
use xs_gram::{Gram, fence_symbol};

/// A stretch of a rule's spread items: those from `start` on, before `end`.
#[derive(Clone, Copy, Debug, PartialEq, Eq)]
pub struct Part {
    pub rule: u32,
    pub start: u32,
    pub end: u32,
}

/// A group of a rule: the two symbols of its fence, and the stretch inside.
#[derive(Clone, Copy, Debug)]
pub struct Fenced {
    pub left: Sym,
    pub right: Sym,
    pub inside: Part,
}

impl Fenced {
    /// The group whose left fence is a rule's spread item, in constant time, and `None` exactly where
    /// that is no left fence.
    pub fn at(g: &Gram, rule: u32, place: u32) -> Option<Fenced>
        requires rule { rule < length g.now.rules }
        requires place { place < length (spread g.now rule) }
        ensures some { IfSome result (IsFencedAt g.now rule place) }
        ensures none { result ≡ None → IsLeftFence g.now.fences (spread g.now rule) place → ⊥ }
    {
        let Some(partner) = g.partner(rule, place) else {
            return None;
        };
        let items = g.spread(rule);
        let left = fence_symbol(&items[place as usize]);
        let right = fence_symbol(&items[partner as usize]);
        let inside = Part {
            rule,
            start: place + 1,
            end: partner,
        };
        Some(Fenced {
            left,
            right,
            inside,
        })
    }
}
