ghost use Rattle.std.specs.Prelude.{◌≡◌, ◌≤◌, length, IfOk, IfErr};
ghost use Rattle.xs_pair.specs.{IsPair, IsSoundPair};
ghost use Rattle.xs_writing_laws.specs.{CanBeWritten};
ghost use Rattle.xs_c.specs.Kept.{IsSure};

use std::marker::Model;
use xs_pair::Two;

/// The two grammars of a sheet that was read and accepted.
#[derive(Drop)]
pub struct Kept {
    two: Two,
}

impl Model for Kept {
    ghost use Rattle.std.specs.Coded.{codes};
    ghost use Rattle.xs_pair.specs.Grammars.{Pair};
    ghost use Rattle.xs_regex.specs.contracts.regex.Regex as e;
    ghost use Rattle.xs_c.specs.Kept.{IsKept};

    ghost Value = { Pair };

    ghost coded = { Prim.hlevel (codes, e.the_row.coded) };

    ghost view = { λ k. k.two };

    ghost invariant = { λ k. IsKept k.two };
}

impl Kept {
    /// The grammars of a sheet that is accepted.
    pub fn of(two: Two) -> Kept
        requires sound { IsSoundPair two }
        requires writable { CanBeWritten two }
        requires sure { IsSure two }
        ensures { result ≡ two }
    {
        two.see();
        Kept { two }
    }

    /// The grammars.
    pub fn two(&self) -> &Two
        ensures value { result.now ≡ self.now }
        ensures pair { IsPair self.now }
        ensures sound { IsSoundPair self.now }
        ensures writable { CanBeWritten self.now }
        ensures sure { IsSure self.now }
    {
        &self.two
    }
}
