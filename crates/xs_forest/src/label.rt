ghost use Rattle.std.specs.Prelude.{◌≡◌, true};

use std::hash::Hash;

/// What a row is known by. Equal labels are the same label.
pub trait Label: Copy + Eq + Hash {
    ghost same: { (x y : Self) → Self.eq x y ≡ true → x ≡ y };
}
