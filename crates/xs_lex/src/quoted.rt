ghost use Rattle.std.specs.Prelude.{◌≡◌, ◌<◌, ◌≤◌, ◌++◌, Some, IfOk, IfSome, OnOk, option_to_list};
ghost use Rattle.std.specs.Str.{chars};
ghost use Rattle.xs_lex.specs.Spelling.{Spells, IsQuoted};
ghost use Rattle.xs_lex.specs.Units.{is_escape, escape_char};
ghost use Rattle.xs_lex.specs.Scan.{spot_after, closes, given, IsBounded, quoted_end, value_at};

use crate::Kind;
use std::alloc::Global;
use xs_class::{Memory, Text, letters};

/// A place in a quoted string: between units, or inside one.
#[derive(Clone, Copy)]
pub enum Spot {
    Between,
    /// After a backslash.
    Escaped,
    /// After `\u`.
    Opened,
    /// After `\u{` and that many digits, which have this value.
    Digits(u32, u32),
}

/// Whether the character may follow a backslash, apart from `u`.
fn is_escape_sign(c: char) -> bool
    ensures { result ≡ is_escape c }
{
    c == '"' || c == '\\' || c == 'n' || c == 't' || c == 'r'
}

/// The character that a backslash and this one stand for.
fn escaped(c: char) -> char
    ensures { result ≡ escape_char c }
{
    match c {
        'n' => '\n',
        't' => '\t',
        'r' => '\r',
        other => other,
    }
}

impl Spot {
    /// Whether the character ends the string here.
    fn closes(self, c: char) -> bool
        ensures { result ≡ closes self c }
    {
        match self {
            Spot::Between => c == '"',
            Spot::Escaped => false,
            Spot::Opened => false,
            Spot::Digits(_, _) => false,
        }
    }

    /// Where one more character leads, unless no unit goes on with it.
    fn after(self, c: char) -> Option<Spot>
        requires { IsBounded self }
        ensures value { result ≡ spot_after self c }
        ensures bounded { IfSome result IsBounded }
    {
        match self {
            Spot::Between => after_character(c),
            Spot::Escaped => after_backslash(c),
            Spot::Opened => {
                if c == '{' {
                    Some(Spot::Digits(0, 0))
                } else {
                    None
                }
            }
            Spot::Digits(count, number) => after_digits(count, number, c),
        }
    }

    /// The character of the unit that ends with c, if one does.
    fn given(self, c: char) -> Option<char>
        ensures { option_to_list result ≡ given self c }
    {
        match self {
            Spot::Between => if c == '\\' { None } else { Some(c) },
            Spot::Escaped => if c == 'u' { None } else { Some(escaped(c)) },
            Spot::Opened => None,
            Spot::Digits(_, number) => if c == '}' {
                char::from_u32(number)
            } else {
                None
            },
        }
    }
}

/// Where a character between units leads.
fn after_character(c: char) -> Option<Spot>
    ensures value { result ≡ spot_after Spot.Between c }
    ensures bounded { IfSome result IsBounded }
{
    if c == '\\' {
        return Some(Spot::Escaped);
    }
    if c == '\n' { None } else { Some(Spot::Between) }
}

/// Where a character after a backslash leads.
fn after_backslash(c: char) -> Option<Spot>
    ensures value { result ≡ spot_after Spot.Escaped c }
    ensures bounded { IfSome result IsBounded }
{
    if c == 'u' {
        return Some(Spot::Opened);
    }
    if is_escape_sign(c) {
        Some(Spot::Between)
    } else {
        None
    }
}

/// Where a character after digits leads.
fn after_digits(count: u32, number: u32, c: char) -> Option<Spot>
    requires few { count ≤ 6 }
    requires low { number < 0x110000 }
    ensures value { result ≡ spot_after (Spot.Digits count number) c }
    ensures bounded { IfSome result IsBounded }
{
    if c == '}' {
        if count >= 1 && char::from_u32(number).is_some() {
            return Some(Spot::Between);
        }
        return None;
    }
    let digit = c.to_digit(16)?;
    let longer = number * 16 + digit;
    if count < 6 && longer < 0x110000 {
        return Some(Spot::Digits(count + 1, longer));
    }
    None
}

/// The number of characters of a quoted string whose text follows its first quotation mark, both
/// marks counted.
pub fn quoted(text: &[char]) -> Option<usize>
    ensures { result ≡ quoted_end (Some Spot.Between) 1 text.now }
{
    let mut spot = Spot::Between;
    'units: for (n, c) in text.iter().enumerate() {
        if spot.closes(*c) {
            return Some(n + 2);
        }
        spot = spot.after(*c)?;
    }
    None
}

/// The text with the character, if there is one.
fn push_given(text: &mut Text, given: Option<char>) -> Result<(), Memory>
    ensures { OnOk result (text.new ≡ text.old ++ option_to_list given) }
{
    if let Some(c) = given {
        text.push(c)?;
    }
    Ok(())
}

/// What a quoted string's text after its first quotation mark stands for.
fn value(alloc: Global, text: &[char]) -> Result<Text, Memory>
    ensures { IfOk result (λ t. t ≡ value_at (Some Spot.Between) text.now) }
{
    let mut value = Text::new(alloc);
    let mut spot = Spot::Between;
    'units: for c in text {
        if spot.closes(*c) {
            return Ok(value);
        }
        push_given(&mut value, spot.given(*c))?;
        match spot.after(*c) {
            Some(next) => spot = next,
            None => return Ok(value),
        }
    }
    Ok(value)
}

/// The characters that the text of a `Quoted` token stands for, in time linear in the text.
pub fn quoted_value(alloc: Global, token_text: &str) -> Result<Text, Memory>
    requires { Spells Kind.Quoted (chars token_text.now) }
    ensures { IfOk result (λ t. IsQuoted (chars token_text.now) t) }
{
    let letters = letters(alloc, token_text)?;
    value(alloc, &letters[1..])
}
