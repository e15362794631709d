ghost use Rattle.std.specs.Prelude.{◌≡◌, ◌*◌, min};
ghost use Rattle.xs_regex.specs.Size.{size, copies};

use crate::Regex;

/// The size of a regex, or 513 where it is more than 512.
pub fn size_up_to(r: &Regex) -> u32
    ensures { result ≡ min (size r.now) 513 }
{
    let mut passed = 0;
    let mut rest = r;
    'parts: loop {
        match rest {
            Regex::Empty => return passed,
            Regex::Set(_) => return (passed + 1).min(513),
            Regex::Then(a, b) => {
                passed = (passed + size_up_to(a)).min(513);
                rest = b;
            }
            Regex::Or(a, b) => {
                passed = (passed + size_up_to(a)).min(513);
                rest = b;
            }
            Regex::Star(a) => rest = a,
            Regex::Times(a, least, most) => {
                let inner = many(count_of(*least, *most), size_up_to(a));
                return (passed + inner).min(513);
            }
        }
    }
}

/// How many copies the counts stand for.
fn count_of(least: u32, most: Option<u32>) -> u32
    ensures { result ≡ copies least most }
{
    match most {
        None => least.max(1),
        Some(most) => most,
    }
}

/// The size of that many copies, as far as it is counted.
fn many(count: u32, size: u32) -> u32
    ensures { result ≡ min (count * size) 513 }
{
    let whole = u64::from(count) * u64::from(size);
    whole.min(513) as u32
}
