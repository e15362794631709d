ghost use Rattle.std.specs.Prelude.{◌≡◌};
ghost use Rattle.xs_meet.specs.Seats.{start_of, other_of};

/// Which state of a pair is the start of a net.
#[derive(Clone, Copy, Debug)]
pub enum Seat {
    First,
    Second,
}

impl Seat {
    /// The pair of a start and another state.
    pub fn pair(self, start: u32, other: u32) -> (u32, u32)
        ensures start { start_of self result.0 result.1 ≡ start }
        ensures other { other_of self result.0 result.1 ≡ other }
    {
        match self {
            Seat::First => (start, other),
            Seat::Second => (other, start),
        }
    }
}
