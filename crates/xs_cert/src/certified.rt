ghost use Rattle.std.specs.Prelude.{◌≡◌};
ghost use Rattle.xs_gram.specs.{IsUnique};
ghost use Rattle.xs_check_laws.specs.{IsAccepted};

use std::marker::Model;
use xs_pair::Two;

/// Two grammars that a certificate shows to be accepted: no rule of either is heavy, neither has a
/// suspect, and so each word of either has at most one derivation.
#[derive(Debug, Drop)]
pub struct Certified<'t> {
    two: &'t Two,
}

impl<'t> Model for Certified<'t> {
    ghost use Rattle.xs_pair.specs.{Pair};
    ghost use Rattle.xs_regex.specs.contracts.regex.Regex as e;
    ghost use Rattle.std.specs.Coded.{codes};
    ghost use Rattle.xs_unique.specs.{KeepsUnique};

    ghost Value = { Pair };

    ghost coded = { Prim.hlevel (codes, e.the_row.coded) };

    ghost view = { λ c. c.two.now };

    ghost invariant = { λ c. KeepsUnique c.two.now };
}

impl<'t> Certified<'t> {
    /// Two grammars that a certificate was shown to be of.
    pub(crate) fn of(two: &'t Two) -> Self
        requires accepted { IsAccepted two.now.text two.now.xml }
        requires text { IsUnique two.now.text }
        requires xml { IsUnique two.now.xml }
        ensures { result ≡ two.now }
    {
        Certified { two }
    }

    /// The two grammars.
    pub fn two(&self) -> &'t Two
        ensures same { result.now ≡ self.now }
        ensures accepted { IsAccepted self.now.text self.now.xml }
        ensures text { IsUnique self.now.text }
        ensures xml { IsUnique self.now.xml }
    {
        self.two
    }
}
