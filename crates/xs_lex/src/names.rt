ghost use Rattle.std.specs.Prelude.{◌≡◌, ◌≤◌, length};
ghost use Rattle.xs_lex.specs.Classes.{is_plain_char};
ghost use Rattle.xs_lex.specs.Scan.{run_end, name_at};

use crate::Kind;
use crate::classes::{begins_plain, in_plain};

/// How many characters at the front may stand in a plain name.
fn run(text: &[char]) -> usize
    ensures value { result ≡ run_end is_plain_char 0 text.now }
    ensures within { result ≤ length text.now }
{
    'run: for (n, c) in text.iter().enumerate() {
        if !in_plain(*c) {
            return n;
        }
    }
    text.len()
}

/// The kind and the number of characters of the name at the front of the text.
pub fn name(text: &[char]) -> (Kind, usize)
    ensures { result ≡ name_at (run_end is_plain_char 0 text.now) text.now }
{
    let end = run(text);
    match &text[end..] {
        [] => (Kind::Plain, end),
        [_] => (Kind::Plain, end),
        [colon, local @ ..] => {
            if *colon == ':' && begins_plain(local[0]) {
                return (Kind::Qual, end + 1 + run(local));
            }
            (Kind::Plain, end)
        }
    }
}
