ghost use Rattle.std.specs.Prelude.{◌≡◌, ◌≤◌, false, length};
ghost use Rattle.xs_lex.specs.Scan.{blank_end};

use crate::classes::is_blank;

/// How many characters at the front are white space and comments.
pub fn blanks(text: &[char]) -> usize
    ensures value { result ≡ blank_end false 0 text.now }
    ensures within { result ≤ length text.now }
{
    let mut inside = false;
    'blanks: for (n, c) in text.iter().enumerate() {
        if inside {
            inside = *c != '\n';
        } else if !is_blank(*c) && *c == '#' {
            inside = true;
        } else if !is_blank(*c) {
            return n;
        }
    }
    text.len()
}
