ghost use Rattle.std.specs.Prelude.{◌≡◌, ◌+◌, ◌*◌, ◌<◌, ◌≤◌, ◌++◌, [], ℕ, List, length, is_some, vec_len, vec_capacity, IfOk, IfSome, encode_utf8_all};
ghost use Rattle.std.specs.Str.{all_scalars};
ghost use Rattle.xs_xml_out.specs.Written.{put, IsAppended};
ghost use Rattle.xs_xml_out.specs.Spelling.{mode_of, body_bytes, IsShort};

use crate::kind::SymbolKind;
use crate::mode::Mode;
use crate::spelling::{Body, content_char, value_char};
use xs_chars::{put_bytes, put_character};
use xs_class::{Memory, Sym};

/// Most bytes that are written for a character: those of `&quot;`.
const LONGEST: usize = 6;

/// Appends what is written for a character, for which there is room.
#[inline(always)]
fn put_reserved(out: &mut Vec<u8>, body: Body)
    requires fits { vec_len out.old + 6 ≤ vec_capacity out.old }
    requires short { IsShort body }
    ensures put { out.new.items ≡ out.old.items ++ body_bytes body }
    ensures len { vec_len out.new ≤ vec_len out.old + 6 }
    ensures room { vec_capacity out.new ≡ vec_capacity out.old }
{
    match body {
        Body::Single(c) => put_character(out, c),
        Body::Text(text) => put_bytes(out, text.as_bytes()),
    }
}

/// What is written for a character of a value or of content.
#[inline(always)]
fn body_of(in_value: bool, c: char) -> Body
    ensures written { body_bytes result ≡ encode_utf8_all (put [] (mode_of in_value) (SymbolKind.Char c)) }
    ensures short { IsShort result }
{
    if in_value {
        value_char(c)
    } else {
        content_char(c)
    }
}

/// Where the characters of a value or of content stand.
fn mode_of(in_value: bool) -> Mode
    ensures { result ≡ mode_of in_value }
{
    if in_value { Mode::Value } else { Mode::Content }
}

/// Appends what is written for the characters of a value or of content, for which there is room, and
/// gives the mode after them; None where a symbol is no character.
fn put_each(out: &mut Vec<u8>, in_value: bool, word: &[Sym]) -> Option<Mode>
    requires { vec_len out.old + 6 * length word.now ≤ vec_capacity out.old }
    ensures characters { is_some result ≡ all_scalars word.now }
    ensures put { IfSome result (λ after. (names : List (List ℕ)) → IsAppended names (mode_of in_value) word.now out.old.items out.new.items after) }
{
    'symbols: for symbol in word {
        let c = char::from_u32(symbol.number())?;
        put_reserved(out, body_of(in_value, c));
    }
    Some(mode_of(in_value))
}

/// Appends what is written for a word that is not empty, for which there is room, and gives the mode
/// after it; None where a symbol is no character.
fn put_some(out: &mut Vec<u8>, mode: Mode, word: &[Sym]) -> Option<Mode>
    requires fits { vec_len out.old + (6 * length word.now + 1) ≤ vec_capacity out.old }
    requires some { 0 < length word.now }
    ensures characters { is_some result ≡ all_scalars word.now }
    ensures put { IfSome result (λ after. (names : List (List ℕ)) → IsAppended names mode word.now out.old.items out.new.items after) }
{
    match mode {
        Mode::Content => put_each(out, false, word),
        Mode::Tag => {
            out.push_reserved(b'>');
            put_each(out, false, word)
        }
        Mode::Value => put_each(out, true, word),
    }
}

/// Appends what is written for a word from a mode on, and gives the mode after it; None where a symbol
/// is no character. In time linear in the word, for each symbol of which six bytes are reserved.
pub fn put_characters(out: &mut Vec<u8>, mode: Mode, word: &[Sym]) -> Result<Option<Mode>, Memory>
    ensures characters { IfOk result (λ o. is_some o ≡ all_scalars word.now) }
    ensures put { IfOk result (λ o. IfSome o (λ after. (names : List (List ℕ)) → IsAppended names mode word.now out.old.items out.new.items after)) }
{
    if word.is_empty() {
        return Ok(Some(mode));
    }
    if word.len() >= usize::MAX / LONGEST {
        return Err(Memory);
    }
    out.reserve(LONGEST * word.len() + 1)?;
    Ok(put_some(out, mode, word))
}
