// Numbers in decimal digits, read where they stand in bytes that have a line feed after them.
//
// No digit is a line feed, so that the bytes go on after each digit.
ghost use Rattle.std.specs.Prelude.{◌≡◌, ◌<◌, ◌≤◌, true, drop, IfSome};
ghost use Rattle.std.specs.Option.{option_map};
ghost use Rattle.xs_closed.specs.{has_number};
ghost use Rattle.xs_cert_lines.specs.Numbers.{digit_at, number_after, kept_within, within_at, partner_at};

/// The value of a decimal digit, if the byte is one.
#[inline(always)]
fn digit(byte: u8) -> Option<u32>
    ensures { result ≡ digit_at byte }
{
    if b'0' <= byte && byte <= b'9' {
        Some(u32::from(byte - b'0'))
    } else {
        None
    }
}

/// The number 0 whose digit stands before a place, where it is within bounds and no digit follows.
fn zero_within(bytes: &[u8], at: usize, first: u32, end: u32) -> Option<(u32, usize)>
    requires { has_number (drop at bytes.now) 10 ≡ true }
    ensures value { option_map (λ r. (r.0, drop r.1 bytes.now)) result ≡ kept_within first end (number_after 0 (drop at bytes.now)) }
    ensures place { IfSome result (λ r. r.1 ≡ at) }
{
    match digit(bytes[at]) {
        Some(_) => None,
        None => {
            if first == 0 && 0 < end {
                Some((0, at))
            } else {
                None
            }
        }
    }
}

/// The number that the digits from a place on spell after those of one that is not 0, where it is
/// within bounds, and the place after them.
///
/// It stops once the number is not below the end, so no product overflows.
#[inline(always)]
fn more_within(
    bytes: &[u8],
    start: usize,
    leading: u32,
    first: u32,
    end: u32,
) -> Option<(u32, usize)>
    requires some { 0 < leading }
    requires feed { has_number (drop start bytes.now) 10 ≡ true }
    ensures value { option_map (λ r. (r.0, drop r.1 bytes.now)) result ≡ kept_within first end (number_after leading (drop start bytes.now)) }
    ensures feed { IfSome result (λ r. has_number (drop r.1 bytes.now) 10 ≡ true) }
    ensures order { IfSome result (λ r. start ≤ r.1) }
{
    let mut number = u64::from(leading);
    let mut at = start;
    'digits: while let Some(digit) = digit(bytes[at]) {
        if u64::from(end) <= number {
            return None;
        }
        number = number * 10 + u64::from(digit);
        at += 1;
    }
    if u64::from(first) <= number && number < u64::from(end) {
        Some((number as u32, at))
    } else {
        None
    }
}

/// The number at a place, in digits without a leading zero, where it is at least the first that may
/// come and below the end, and the place after it.
#[inline(always)]
pub fn number_within(bytes: &[u8], start: usize, first: u32, end: u32) -> Option<(u32, usize)>
    requires { has_number (drop start bytes.now) 10 ≡ true }
    ensures value { option_map (λ r. (r.0, drop r.1 bytes.now)) result ≡ within_at first end (drop start bytes.now) }
    ensures feed { IfSome result (λ r. has_number (drop r.1 bytes.now) 10 ≡ true) }
    ensures order { IfSome result (λ r. start < r.1) }
{
    let leading = digit(bytes[start])?;
    if leading == 0 {
        return zero_within(bytes, start + 1, first, end);
    }
    more_within(bytes, start + 1, leading, first, end)
}

/// A space and such a number.
#[inline(always)]
pub fn partner(bytes: &[u8], start: usize, first: u32, end: u32) -> Option<(u32, usize)>
    requires { has_number (drop start bytes.now) 10 ≡ true }
    ensures value { option_map (λ r. (r.0, drop r.1 bytes.now)) result ≡ partner_at first end (drop start bytes.now) }
    ensures feed { IfSome result (λ r. has_number (drop r.1 bytes.now) 10 ≡ true) }
    ensures order { IfSome result (λ r. start < r.1) }
{
    if bytes[start] == b' ' {
        number_within(bytes, start + 1, first, end)
    } else {
        None
    }
}
