ghost use Rattle.std.specs.Prelude.{◌≡◌};
ghost use Rattle.xs_lex.specs.Scan.{token_at, slash_at, angle_at, sign_at};

use crate::Kind;
use crate::classes::begins_plain;
use crate::names::name;
use crate::patterns::pattern;
use crate::quoted::quoted;

/// The token that begins with a slash.
fn slash(text: &[char]) -> Option<(Kind, usize)>
    ensures { result ≡ slash_at text.now }
{
    if let ['>', ..] = text {
        return Some((Kind::SlashEnd, 2));
    }
    let length = pattern(text)?;
    Some((Kind::Pattern, length))
}

/// The token that begins with `<`.
fn angle(text: &[char]) -> (Kind, usize)
    ensures { result ≡ angle_at text.now }
{
    if let ['/', ..] = text {
        return (Kind::AngleSlash, 2);
    }
    (Kind::Angle, 1)
}

/// The token of one sign.
fn sign(c: char) -> Option<(Kind, usize)>
    ensures { result ≡ sign_at c }
{
    match c {
        ':' => Some((Kind::Colon, 1)),
        '=' => Some((Kind::Equals, 1)),
        '[' => Some((Kind::SquareIn, 1)),
        ']' => Some((Kind::SquareOut, 1)),
        '>' => Some((Kind::AngleEnd, 1)),
        _ => None,
    }
}

/// The kind and the number of characters of the longest token at the front of the text.
#[tactic(auto, unfolding(crate::specs::Scan::token_at))]
pub fn token(text: &[char]) -> Option<(Kind, usize)>
    ensures { result ≡ token_at text.now }
{
    match text {
        [] => None,
        [first, rest @ ..] => {
            if *first == '"' {
                let length = quoted(rest)?;
                return Some((Kind::Quoted, length));
            }
            if *first == '/' {
                return slash(rest);
            }
            if *first == '<' {
                return Some(angle(rest));
            }
            if begins_plain(*first) {
                return Some(name(text));
            }
            sign(*first)
        }
    }
}
