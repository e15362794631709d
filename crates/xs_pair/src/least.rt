ghost use Rattle.std.specs.Prelude.{◌≡◌, if◌then◌else◌};
ghost use Rattle.xs_pair.specs.Verdict.{earlier as earlier_of};

/// The lesser of two lines, of which the first may be none.
pub fn earlier(least: Option<u32>, line: u32) -> u32
    ensures { result ≡ earlier_of least line }
{
    match least {
        None => line,
        Some(other) => other.min(line),
    }
}

/// The least line, with one more where a rule fails there.
pub fn with_line(least: Option<u32>, line: u32, fails: bool) -> Option<u32>
    ensures { result ≡ (if fails then Some (earlier_of least line) else least) }
{
    if fails {
        Some(earlier(least, line))
    } else {
        least
    }
}
