ghost use Rattle.std.specs.Prelude.{◌≡◌, false};
ghost use Rattle.xs_lex.specs.Scan.{pattern_end};

/// The number of characters of a pattern whose text follows its first slash, both slashes counted.
pub fn pattern(text: &[char]) -> Option<usize>
    ensures { result ≡ pattern_end false 1 text.now }
{
    let mut guarded = false;
    'units: for (n, c) in text.iter().enumerate() {
        if *c == '\n' {
            return None;
        }
        if guarded {
            guarded = false;
        } else if *c == '/' {
            return Some(n + 2);
        } else {
            guarded = *c == '\\';
        }
    }
    None
}
