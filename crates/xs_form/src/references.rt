ghost use Rattle.std.specs.Prelude.{◌≡◌, ◌<◌, ◌≤◌, ◌+◌, ◌*◌, ◌&&◌, min, true, []};
ghost use Rattle.xs_xml_laws.specs.{is_char, is_hex, number, when, numbered, ref_char, all_of};
ghost use Rattle.xs_form.specs.Digits.{radix_of, is_digit_of};
ghost use Rattle.xs_form.specs.Seen.{named_reference};
ghost use Rattle.xs_class.specs.{hex_value};

use crate::runs::{allowed, digit, hexadecimal, is, spells};
use xs_class::Sym;

/// Above every Char, and not one.
const TOO_LARGE: u32 = 0x110000;

/// The base in which a number is written.
#[derive(Clone, Copy)]
enum Base {
    Decimal,
    Hexadecimal,
}

impl Base {
    /// The number of different digits.
    fn radix(self) -> u32
        ensures radix { result ≡ radix_of self }
        ensures least { 1 ≤ result }
        ensures most { result ≤ 16 }
    {
        match self {
            Base::Decimal => 10,
            Base::Hexadecimal => 16,
        }
    }

    /// Whether the symbol is a digit.
    fn has(self, symbol: Sym) -> bool
        ensures { result ≡ is_digit_of self symbol }
    {
        match self {
            Base::Decimal => digit(symbol),
            Base::Hexadecimal => hexadecimal(symbol),
        }
    }
}

/// The value of a digit.
fn value_of(symbol: Sym) -> u32
    requires { is_hex symbol ≡ true }
    ensures value { result ≡ hex_value symbol }
    ensures bound { result < 16 }
{
    let number = symbol.number();
    if number <= 57 {
        number - 48
    } else if number <= 70 {
        number - 55
    } else {
        number - 87
    }
}

/// The number with one more digit, or one above every Char.
fn appended(number: u32, base: u32, value: u32) -> u32
    requires few { number ≤ 1114112 }
    requires small { base ≤ 16 }
    requires below { value < 16 }
    ensures { result ≡ min (number * base + value) 1114112 }
{
    (number * base + value).min(TOO_LARGE)
}

/// The number, where it is a Char.
fn char_of(number: u32) -> Option<u32>
    ensures { result ≡ when (is_char number) number }
{
    if allowed(number) { Some(number) } else { None }
}

/// The number of the digits, where it is a Char.
fn digits_char(base: Base, digits: &[Sym]) -> Option<u32>
    ensures { result ≡ when (all_of (is_digit_of base) digits.now && is_char (number (radix_of base) 0 digits.now)) (number (radix_of base) 0 digits.now) }
{
    let radix = base.radix();
    let mut number = 0;
    'digits: for symbol in digits {
        if !base.has(*symbol) {
            return None;
        }
        number = appended(number, radix, value_of(*symbol));
    }
    char_of(number)
}

/// The character of what stands between `&#` and `;`.
fn numbered_char(text: &[Sym]) -> Option<u32>
    ensures { result ≡ numbered text.now }
{
    match text {
        [] => None,
        [first, digits @ ..] => {
            if is(*first, b'x') {
                digits_char(Base::Hexadecimal, digits)
            } else {
                digits_char(Base::Decimal, text)
            }
        }
    }
}

/// The character of a name that XML declares.
fn named_char(text: &[Sym]) -> Option<u32>
    ensures { result ≡ named_reference text.now }
{
    if spells(text, b"lt") {
        Some(60)
    } else if spells(text, b"gt") {
        Some(62)
    } else if spells(text, b"amp") {
        Some(38)
    } else if spells(text, b"apos") {
        Some(39)
    } else if spells(text, b"quot") {
        Some(34)
    } else {
        None
    }
}

/// The character of a reference, by what stands between `&` and `;`.
#[tactic(auto, unfolding(xs_xml_laws::specs::Piece::ref_char))]
pub fn reference_char(text: &[Sym]) -> Option<u32>
    ensures { result ≡ ref_char text.now }
{
    match text {
        [] => None,
        [first, rest @ ..] => {
            if is(*first, b'#') {
                numbered_char(rest)
            } else {
                named_char(text)
            }
        }
    }
}
