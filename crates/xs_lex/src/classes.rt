ghost use Rattle.std.specs.Prelude.{◌≡◌};
ghost use Rattle.xs_lex.specs.Classes.{is_name_char, is_plain_start, is_plain_char, is_white};
ghost use Rattle.xs_class.specs.{is_name_start};

use xs_class::{is_name_char, is_name_start};

/// Whether a Name may begin with the character.
fn begins_name(c: u32) -> bool
    ensures { result ≡ is_name_start c }
{
    is_name_start(c)
}

/// Whether the character may stand in a Name.
fn in_name(c: u32) -> bool
    ensures { result ≡ is_name_char c }
{
    is_name_char(c)
}

/// Whether the character may begin a plain name.
#[tactic(auto, unfolding(crate::specs::Classes::is_plain_start))]
pub fn begins_plain(c: char) -> bool
    ensures { result ≡ is_plain_start c }
{
    begins_name(c as u32) && c != ':'
}

/// Whether the character may stand in a plain name.
#[tactic(auto, unfolding(crate::specs::Classes::is_plain_char))]
pub fn in_plain(c: char) -> bool
    ensures { result ≡ is_plain_char c }
{
    in_name(c as u32) && c != ':'
}

/// Whether the character is a space, a tab, CR or LF.
#[tactic(auto, unfolding(crate::specs::Classes::is_white))]
pub fn is_blank(c: char) -> bool
    ensures { result ≡ is_white c }
{
    c == ' ' || c == '\t' || c == '\r' || c == '\n'
}
