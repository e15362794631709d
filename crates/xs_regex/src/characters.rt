ghost use Rattle.std.specs.Prelude.{◌≡◌, [], ◌∷◌, ◌<◌, ◌≤◌, None, Some, IfSome, MatchOption, if◌then◌else◌};
ghost use Rattle.std.specs.Option.{option_map};
ghost use Rattle.xs_class.specs.{is_digit, hex_value};
ghost use Rattle.xs_regex.specs.Characters.{is_punctuation, is_plain, is_plain_member, is_hex, is_scalar, hex_room, hex_at, code_at, escape_at, name_at, second_digit, count_at, most_at, counts_at, member_char_at, named_at, span_more, item_at, escaped_one, one_at};
ghost use Rattle.xs_regex.specs.Characters as spec;
ghost use Rattle.xs_regex.specs.Pieces.{item_of};

/// The first character, and the others.
pub fn next(cs: &[char]) -> Option<(char, &[char])>
    ensures { MatchOption result (cs.now ≡ []) (λ r. cs.now ≡ r.0 ∷ r.1.now) }
{
    let [c, rest @ ..] = cs else {
        return None;
    };
    Some((*c, rest))
}

/// Whether the character is ASCII punctuation.
fn punctuates(c: char) -> bool
    ensures { result ≡ is_punctuation c }
{
    matches!(c, '!'..='/' | ':'..='@' | '['..='`' | '{'..='~')
}

/// Whether the character stands for itself in a pattern.
fn is_itself(c: char) -> bool
    ensures { result ≡ is_plain c }
{
    !matches!(
        c,
        '\\' | '/' | '[' | ']' | '(' | ')' | '{' | '}' | '|' | '*' | '+' | '?' | '.'
    )
}

/// Whether the character stands for itself in brackets.
fn is_member_itself(c: char) -> bool
    ensures { result ≡ is_plain_member c }
{
    !matches!(c, '\\' | '/' | '[' | ']' | '-' | '^')
}

/// Whether the character is a decimal digit.
fn is_decimal(c: char) -> bool
    ensures { result ≡ is_digit c }
{
    matches!(c, '0'..='9')
}

/// The value of a hexadecimal digit.
fn hex_digit(c: char) -> Option<u32>
    ensures value { result ≡ (if is_hex c then Some (hex_value c) else None) }
    ensures small { IfSome result (λ d. d < 16) }
{
    match c {
        '0'..='9' => Some(c as u32 - 48),
        'A'..='F' => Some(c as u32 - 55),
        'a'..='f' => Some(c as u32 - 87),
        _ => None,
    }
}

/// Whether the number is that of a character.
fn is_character(value: u32) -> bool
    ensures { result ≡ is_scalar value }
{
    value <= 0x10FFFF && !(0xD800 <= value && value <= 0xDFFF)
}

/// After a backslash, the character that it stands for, and what is left.
fn escape(cs: &[char]) -> Option<(u32, &[char])>
    ensures { option_map (λ r. (r.0, r.1.now)) result ≡ escape_at cs.now }
{
    let [c, rest @ ..] = cs else {
        return None;
    };
    if *c == 'n' {
        Some((10, rest))
    } else if *c == 't' {
        Some((9, rest))
    } else if *c == 'r' {
        Some((13, rest))
    } else if *c == 'u' {
        code(rest)
    } else if punctuates(*c) {
        Some((*c as u32, rest))
    } else {
        None
    }
}

/// A character by its number in hexadecimal digits and a closing brace, and what is left.
fn code(cs: &[char]) -> Option<(u32, &[char])>
    ensures { option_map (λ r. (r.0, r.1.now)) result ≡ code_at cs.now }
{
    let [c, rest @ ..] = cs else {
        return None;
    };
    if *c == '{' { hex(0, 0, rest) } else { None }
}

/// Digits up to a closing brace, at most six in all, after some with a value.
fn hex(value: u32, count: u32, cs: &[char]) -> Option<(u32, &[char])>
    requires few { count ≤ 6 }
    requires room { value < hex_room count }
    ensures { option_map (λ r. (r.0, r.1.now)) result ≡ hex_at value count cs.now }
{
    let [c, rest @ ..] = cs else {
        return None;
    };
    if *c == '}' {
        return if count > 0 && is_character(value) {
            Some((value, rest))
        } else {
            None
        };
    }
    match hex_digit(*c) {
        Some(digit) => {
            if count < 6 {
                hex(16 * value + digit, count + 1, rest)
            } else {
                None
            }
        }
        None => None,
    }
}

/// The characters up to a closing brace, and what is left after it.
fn name(cs: &[char]) -> Option<(&[char], &[char])>
    ensures { option_map (λ r. (r.0.now, r.1.now)) result ≡ name_at cs.now }
{
    for (end, c) in cs.iter().enumerate() {
        if *c == '}' {
            return Some((&cs[..end], &cs[end + 1..]));
        }
    }
    None
}

/// One or two decimal digits without a leading zero, at most 64.
fn count(cs: &[char]) -> Option<(u32, &[char])>
    ensures { option_map (λ r. (r.0, r.1.now)) result ≡ count_at cs.now }
{
    let [c, rest @ ..] = cs else {
        return None;
    };
    if is_decimal(*c) {
        second(*c as u32 - 48, rest)
    } else {
        None
    }
}

/// The number that the decimal digits go on with, and what is left.
fn second(n: u32, cs: &[char]) -> Option<(u32, &[char])>
    requires { n < 10 }
    ensures { option_map (λ r. (r.0, r.1.now)) result ≡ second_digit n cs.now }
{
    let [c, rest @ ..] = cs else {
        return Some((n, cs));
    };
    if !is_decimal(*c) {
        return Some((n, cs));
    }
    let whole = 10 * n + (*c as u32 - 48);
    if 0 < n && whole <= 64 {
        Some((whole, rest))
    } else {
        None
    }
}

/// After an opening brace, the counts, and what is left after the closing one.
pub fn counts(cs: &[char]) -> Option<((u32, Option<u32>), &[char])>
    ensures { option_map (λ r. (r.0, r.1.now)) result ≡ counts_at cs.now }
{
    let (least, left) = count(cs)?;
    let [c, rest @ ..] = left else {
        return None;
    };
    if *c == '}' {
        Some(((least, Some(least)), rest))
    } else if *c == ',' {
        most(least, rest)
    } else {
        None
    }
}

/// The greatest count after a least one and a comma, and what is left.
fn most(least: u32, cs: &[char]) -> Option<((u32, Option<u32>), &[char])>
    ensures { option_map (λ r. (r.0, r.1.now)) result ≡ most_at least cs.now }
{
    let [c, rest @ ..] = cs else {
        return None;
    };
    if *c == '}' {
        return Some(((least, None), rest));
    }
    let (most, left) = count(cs)?;
    let [c, rest @ ..] = left else {
        return None;
    };
    if *c == '}' && least <= most {
        Some(((least, Some(most)), rest))
    } else {
        None
    }
}

/// A character in brackets, and what is left.
fn member_char(cs: &[char]) -> Option<(u32, &[char])>
    ensures { option_map (λ r. (r.0, r.1.now)) result ≡ member_char_at cs.now }
{
    let [c, rest @ ..] = cs else {
        return None;
    };
    if *c == '\\' {
        escape(rest)
    } else if is_member_itself(*c) {
        Some((*c as u32, rest))
    } else {
        None
    }
}

/// What stands in a set: a range of characters, or the letters of a name.
pub enum Piece<'a> {
    Span(u32, u32),
    Named(&'a [char]),
}

/// After `\p`, the name in braces, and what is left.
fn named(cs: &[char]) -> Option<(&[char], &[char])>
    ensures { option_map (λ r. (r.0.now, r.1.now)) result ≡ named_at cs.now }
{
    let [c, rest @ ..] = cs else {
        return None;
    };
    if *c != '{' {
        return None;
    }
    let (letters, left) = name(rest)?;
    if letters.is_empty() {
        None
    } else {
        Some((letters, left))
    }
}

/// One character, or a range where a hyphen stands next, and what is left.
fn span(low: u32, cs: &[char]) -> Option<((u32, u32), &[char])>
    ensures { option_map (λ r. (spec.span r.0.0 r.0.1, r.1.now)) result ≡ span_more (Some (low, cs.now)) }
{
    let [c, rest @ ..] = cs else {
        return Some(((low, low), cs));
    };
    if *c != '-' {
        return Some(((low, low), cs));
    }
    let (high, left) = member_char(rest)?;
    if low <= high {
        Some(((low, high), left))
    } else {
        None
    }
}

/// One item between brackets, and what is left.
pub fn item(cs: &[char]) -> Option<(Piece<'_>, &[char])>
    ensures { option_map (λ r. (item_of r.0, r.1.now)) result ≡ item_at cs.now }
{
    let [c, rest @ ..] = cs else {
        return None;
    };
    if *c == '\\' {
        return escaped_item(rest);
    }
    if !is_member_itself(*c) {
        return None;
    }
    let ((low, high), left) = span(*c as u32, rest)?;
    Some((Piece::Span(low, high), left))
}

/// An item of a set that begins with a backslash, and what is left.
fn escaped_item(cs: &[char]) -> Option<(Piece<'_>, &[char])>
    ensures { option_map (λ r. (item_of r.0, r.1.now)) result ≡ spec.escaped_item cs.now }
{
    let [c, rest @ ..] = cs else {
        return None;
    };
    if *c == 'p' {
        let (letters, left) = named(rest)?;
        return Some((Piece::Named(letters), left));
    }
    let (low, left) = escape(cs)?;
    let ((low, high), left) = span(low, left)?;
    Some((Piece::Span(low, high), left))
}

/// Outside brackets, a character, an escape or a name, and what is left.
pub fn one(cs: &[char]) -> Option<(Piece<'_>, &[char])>
    ensures { option_map (λ r. (item_of r.0, r.1.now)) result ≡ one_at cs.now }
{
    let [c, rest @ ..] = cs else {
        return None;
    };
    if *c == '\\' {
        return escaped(rest);
    }
    if !is_itself(*c) {
        return None;
    }
    Some((Piece::Span(*c as u32, *c as u32), rest))
}

/// What stands after a backslash, and what is left.
fn escaped(cs: &[char]) -> Option<(Piece<'_>, &[char])>
    ensures { option_map (λ r. (item_of r.0, r.1.now)) result ≡ escaped_one cs.now }
{
    let [c, rest @ ..] = cs else {
        return None;
    };
    if *c == 'p' {
        let (letters, left) = named(rest)?;
        return Some((Piece::Named(letters), left));
    }
    let (c, left) = escape(cs)?;
    Some((Piece::Span(c, c), left))
}
