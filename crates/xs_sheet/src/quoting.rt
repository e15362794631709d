ghost use Rattle.std.specs.Prelude.{◌≡◌, ◌<◌, ◌++◌, [], true, nat_lt, IfSome, OnOk, OnErr};
ghost use Rattle.std.specs.Char.{digit_char};
ghost use Rattle.std.specs.List.{list_all};
ghost use Rattle.xs_lex.specs.{coded, spelt_quoted_unit};
ghost use Rattle.xs_sheet.specs.Layout.{hex_digits, escape_sign, is_control, unit_of, quoted};

use xs_class::{Memory, Text};

/// The lower-case hexadecimal digit of a number.
fn digit(number: u32) -> u8
    requires { number < 16 }
    ensures is { result ≡ digit_char number }
    ensures ascii { result < 128 }
{
    char::from_digit(number, 16).unwrap() as u8
}

/// The string of these ASCII characters.
fn ascii(bytes: &[u8]) -> &str
    requires { list_all (λ b. nat_lt b 128) bytes.now ≡ true }
    ensures { result.now ≡ bytes.now }
{
    str::from_utf8(bytes).unwrap()
}

/// Writes a character by its number, without leading zeros.
#[tactic(auto, unfolding(crate::specs::Layout::hex_digits))]
fn push_number(page: &mut Text, number: u32) -> Result<(), Memory>
    requires { number < 256 }
    ensures ok { OnOk result (page.new ≡ page.old ++ spelt_quoted_unit (coded (hex_digits number)) []) }
    ensures err { OnErr result (page.new ≡ page.old) }
{
    if number < 16 {
        return page.push_ascii(ascii(&[b'\\', b'u', b'{', digit(number), b'}']));
    }
    let (high, low) = (digit(number / 16), digit(number % 16));
    page.push_ascii(ascii(&[b'\\', b'u', b'{', high, low, b'}']))
}

/// The sign that stands for the character after a backslash, if one does.
#[tactic(auto, unfolding(crate::specs::Layout::escape_sign))]
fn escape_sign(c: char) -> Option<u8>
    ensures is { result ≡ escape_sign c }
    ensures ascii { IfSome result (λ sign. sign < 128) }
{
    match c {
        '"' => Some(b'"'),
        '\\' => Some(b'\\'),
        '\n' => Some(b'n'),
        '\t' => Some(b't'),
        '\r' => Some(b'r'),
        _ => None,
    }
}

/// Whether a quoted string has the character by its number.
#[tactic(auto, unfolding(crate::specs::Layout::is_control))]
fn is_control(c: char) -> bool
    ensures { result ≡ is_control c }
{
    c < ' ' || c == '\u{7F}'
}

/// Writes a character of a quoted string, as it is, escaped, or by its number, or leaves the page
/// as it was.
pub fn push_quoted_character(page: &mut Text, c: char) -> Result<(), Memory>
    ensures ok { OnOk result (page.new ≡ page.old ++ spelt_quoted_unit (unit_of c) []) }
    ensures err { OnErr result (page.new ≡ page.old) }
{
    if let Some(sign) = escape_sign(c) {
        return page.push_ascii(ascii(&[b'\\', sign]));
    }
    if is_control(c) {
        return push_number(page, c as u32);
    }
    page.push(c)
}

/// Writes a quoted string that stands for these characters.
pub(crate) fn push_quoted(page: &mut Text, text: &Text) -> Result<(), Memory>
    ensures { OnOk result (page.new ≡ page.old ++ quoted text.now) }
{
    page.push('"')?;
    'characters: for c in text.as_str().chars() {
        push_quoted_character(page, c)?;
    }
    page.push('"')
}
