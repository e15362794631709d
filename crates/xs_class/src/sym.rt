ghost use Rattle.std.specs.Prelude.{◌≡◌, ◌<◌};
ghost use Rattle.xs_class.specs.Marks.{opening_mark, attribute_mark, closing_mark};

use std::marker::Model;

/// The mark that ends an attribute's value.
pub const ATTR_END: Sym = Sym(0x110000);

/// The mark in place of those of a name that the sheet does not have.
pub const STRANGE: Sym = Sym(0x110001);

/// A symbol: a character by its code point, or a mark at 0x110000 or above.
///
/// The marks of name k are its opening, attribute and closing, at 0x110002 + 3k and the two
/// numbers after it.
#[derive(Clone, Copy, Debug, PartialEq, Eq, PartialOrd, Ord, Hash)]
pub struct Sym(pub u32);

impl Model for Sym {
    ghost use Rattle.std.specs.Prelude.{ℕ};

    ghost Value = { ℕ };

    ghost view = { λ s. s.0 };

    ghost inverse = { λ n. record { 0 = n } };
}

impl Sym {
    /// The symbol of a character.
    pub fn of_char(c: char) -> Self
        ensures { result ≡ c }
    {
        Sym(c as u32)
    }

    /// The mark that opens an element of name k.
    pub fn opening(k: u32) -> Self
        requires { k < 65536 }
        ensures { result ≡ opening_mark k }
    {
        Sym(0x110002 + 3 * k)
    }

    /// The mark that begins an attribute of name k.
    pub fn attribute(k: u32) -> Self
        requires { k < 65536 }
        ensures { result ≡ attribute_mark k }
    {
        Sym(0x110003 + 3 * k)
    }

    /// The mark that closes an element of name k.
    pub fn closing(k: u32) -> Self
        requires { k < 65536 }
        ensures { result ≡ closing_mark k }
    {
        Sym(0x110004 + 3 * k)
    }

    /// The symbol's number.
    pub fn number(self) -> u32
        ensures { result ≡ self }
    {
        self.0
    }
}
