// Quoted strings, in any of their spellings.
ghost use Rattle.std.specs.Prelude.{◌≡◌, ◌<◌, length, IfOk, IfSome, MatchOption};
ghost use Rattle.std.specs.Option.{option_map};
ghost use Rattle.xs_lex.specs.{IsQuoted, is_scalar};
ghost use Rattle.xs_outline.specs.Reading.{digit_in, digits_at, coded_at, escaped_at, unit_at, ends_at, NoQuoted};

use std::alloc::Global;
use xs_class::{Memory, Sym, Word};

const QUOTE: u32 = 0x22;

const BACKSLASH: u32 = 0x5C;

const LINE_FEED: u32 = 0x0A;

/// Whether the number is that of a character.
fn is_character(number: u32) -> bool
    ensures { result ≡ is_scalar number }
{
    number < 0xD800 || (0xE000 <= number && number < 0x110000)
}

/// The value of a hexadecimal digit, if the symbol is one.
fn digit(symbol: Sym) -> Option<u32>
    ensures { result ≡ digit_in 16 symbol }
{
    match char::from_u32(symbol.number()) {
        Some(c) => c.to_digit(16),
        None => None,
    }
}

/// The character that the hexadecimal digits up to a brace stand for, and what follows.
fn digits(text: &[Sym]) -> Option<(Sym, &[Sym])>
    ensures value { option_map (λ r. (r.0, r.1.now)) result ≡ digits_at 0 0 text.now }
    ensures shorter { IfSome result (λ r. length r.1.now < length text.now) }
{
    let mut number: u32 = 0;
    'digits: for (count, symbol) in text.iter().enumerate() {
        if symbol.number() == 0x7D {
            if count >= 1 && is_character(number) {
                return Some((Sym(number), &text[count + 1..]));
            }
            return None;
        }
        if count >= 6 {
            return None;
        }
        let digit = digit(*symbol)?;
        number = number * 16 + digit;
        if number >= 0x110000 {
            return None;
        }
    }
    None
}

/// The same after a backslash and `u`.
fn coded(text: &[Sym]) -> Option<(Sym, &[Sym])>
    ensures value { option_map (λ r. (r.0, r.1.now)) result ≡ coded_at text.now }
    ensures shorter { IfSome result (λ r. length r.1.now < length text.now) }
{
    match text {
        [first, rest @ ..] => if first.number() == 0x7B {
            digits(rest)
        } else {
            None
        },
        [] => None,
    }
}

/// The character that a sign stands for after a backslash, and what follows.
fn escaped(text: &[Sym]) -> Option<(Sym, &[Sym])>
    ensures value { option_map (λ r. (r.0, r.1.now)) result ≡ escaped_at text.now }
    ensures shorter { IfSome result (λ r. length r.1.now < length text.now) }
{
    match text {
        [] => None,
        [first, rest @ ..] => match first.number() {
            0x75 => coded(rest),
            0x22 | 0x5C => Some((*first, rest)),
            0x6E => Some((Sym(LINE_FEED), rest)),
            0x74 => Some((Sym(0x09), rest)),
            0x72 => Some((Sym(0x0D), rest)),
            _ => None,
        },
    }
}

/// The character of the unit at the front of a string, and what follows the unit.
fn unit(text: &[Sym]) -> Option<(Sym, &[Sym])>
    ensures value { option_map (λ r. (r.0, r.1.now)) result ≡ unit_at text.now }
    ensures shorter { IfSome result (λ r. length r.1.now < length text.now) }
{
    match text {
        [first, rest @ ..] => match first.number() {
            BACKSLASH => escaped(rest),
            QUOTE | LINE_FEED => None,
            _ => Some((*first, rest)),
        },
        [] => None,
    }
}

/// Whether the string ends here, and nothing follows.
fn ends(text: &[Sym]) -> bool
    ensures { result ≡ ends_at text.now }
{
    match text {
        [last] => last.number() == QUOTE,
        _ => false,
    }
}

/// What a quoted string stands for, if the text is one; in time linear in the text.
pub fn quoted(alloc: Global, text: &[Sym]) -> Result<Option<Word>, Memory>
    ensures { IfOk result (λ word. MatchOption word (NoQuoted text.now) (λ w. IsQuoted text.now w)) }
{
    let mut rest = match text {
        [] => return Ok(None),
        [first, rest @ ..] => if first.number() == QUOTE {
            rest
        } else {
            return Ok(None)
        },
    };
    let mut word = Word::from_vec(Vec::with_capacity(alloc, rest.len())?);
    'units: while !ends(rest) {
        let Some(read) = unit(rest) else {
            return Ok(None);
        };
        word.push(read.0)?;
        rest = read.1;
    }
    Ok(Some(word))
}
