// Numbers in decimal digits.
ghost use Rattle.std.specs.Prelude.{◌≡◌, ◌≤◌, IfSome};
ghost use Rattle.xs_words.specs.Number.{begins_well as begins_as_numbers_do, number_after, number_within, within};

/// Whether there is a digit, and no zero before others.
fn begins_well(bytes: &[u8]) -> bool
    ensures { result ≡ begins_as_numbers_do bytes.now }
{
    match bytes {
        [] => false,
        [_] => true,
        [first, _, ..] => *first != b'0',
    }
}

/// The number that the digits spell, where it lies between these two.
fn spelled(bytes: &[u8], least: u32, most: u32) -> Option<u32>
    ensures number { result ≡ within least most (number_after 0 bytes.now) }
    ensures range { IfSome result (λ n. (least ≤ n) × (n ≤ most)) }
{
    let mut number: u64 = 0;
    'digits: for byte in bytes {
        if !byte.is_ascii_digit() {
            return None;
        }
        number = number * 10 + u64::from(*byte - b'0');
        if number > u64::from(most) {
            return None;
        }
    }
    if number < u64::from(least) {
        return None;
    }
    Some(number as u32)
}

/// The number that a word is, where it lies between these two.
pub fn number(word: &str, least: u32, most: u32) -> Option<u32>
    ensures number { result ≡ number_within least most word.now }
    ensures range { IfSome result (λ n. (least ≤ n) × (n ≤ most)) }
{
    let bytes = word.as_bytes();
    if !begins_well(bytes) {
        return None;
    }
    spelled(bytes, least, most)
}
