ghost use Rattle.std.specs.Prelude.{◌≡◌};
ghost use Rattle.xs_coarse.specs.Found.{pair};

/// A state of a first net and one of a second net.
#[derive(Clone, Copy, Debug, PartialEq, Eq)]
pub struct Pair {
    pub first: u32,
    pub second: u32,
}

impl Pair {
    /// The pair of two states.
    #[inline(always)]
    pub(crate) fn new(first: u32, second: u32) -> Pair
        ensures { result ≡ pair first second }
    {
        Pair { first, second }
    }
}
