// Text in a page of bytes, from its front on.
ghost use Rattle.std.specs.Prelude.{◌+◌, ◌<◌, ◌≤◌, [], ◌∷◌, length, decimal};
ghost use Rattle.xs_cert_lines.specs.Pages.{Puts};

/// Puts a byte at a place, and gives the place after it.
#[inline(always)]
pub fn put(page: &mut [u8], at: usize, byte: u8) -> usize
    requires { at < length page.old }
    ensures { Puts page.old page.new at result (byte ∷ []) }
{
    page[at] = byte;
    at + 1
}

/// Puts a number of one digit.
#[inline(always)]
fn put_one(page: &mut [u8], at: usize, number: u32) -> usize
    requires low { number < 10 }
    requires room { at + length (decimal number) ≤ length page.old }
    ensures { Puts page.old page.new at result (decimal number) }
{
    put(page, at, b'0' + number as u8)
}

/// Puts a number of two digits at most.
#[inline(always)]
#[tactic(auto, using(crate::proofs::Paging::more_digits, crate::proofs::Paging::more_put))]
fn put_two(page: &mut [u8], at: usize, number: u32) -> usize
    requires low { number < 100 }
    requires room { at + length (decimal number) ≤ length page.old }
    ensures { Puts page.old page.new at result (decimal number) }
{
    if number < 10 {
        return put_one(page, at, number);
    }
    let last = put_one(page, at, number / 10);
    put(page, last, b'0' + (number % 10) as u8)
}

/// Puts a number of three digits at most.
#[inline(always)]
#[tactic(auto, using(crate::proofs::Paging::more_digits, crate::proofs::Paging::more_put))]
fn put_three(page: &mut [u8], at: usize, number: u32) -> usize
    requires low { number < 1000 }
    requires room { at + length (decimal number) ≤ length page.old }
    ensures { Puts page.old page.new at result (decimal number) }
{
    if number < 100 {
        return put_two(page, at, number);
    }
    let last = put_two(page, at, number / 10);
    put(page, last, b'0' + (number % 10) as u8)
}

/// Puts a number of any length, digit by digit.
fn put_long(page: &mut [u8], at: usize, number: u32) -> usize
    requires { at + length (decimal number) ≤ length page.old }
    ensures { Puts page.old page.new at result (decimal number) }
{
    if number < 1000 {
        return put_three(page, at, number);
    }
    let last = put_long(page, at, number / 10);
    put(page, last, b'0' + (number % 10) as u8)
}

/// Puts a number in decimal digits: most have three of them or fewer.
#[inline(always)]
pub fn put_number(page: &mut [u8], at: usize, number: u32) -> usize
    requires { at + 10 ≤ length page.old }
    ensures text { Puts page.old page.new at result (decimal number) }
    ensures short { result ≤ at + 10 }
{
    if number < 1000 {
        put_three(page, at, number)
    } else {
        put_long(page, at, number)
    }
}
