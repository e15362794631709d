ghost use Rattle.std.specs.Prelude.{◌≡◌, IfOk, encode_utf8_all};
ghost use Rattle.xs_chars.specs.Text.{AreCharacters, text_bytes, has_mark};

use crate::room::bytes_room;
use crate::strings::{push_all, push_character, utf8_of};
use std::alloc::Global;
use xs_class::{Bytes, Memory, Sym, Word};

/// The mark U+FEFF, which may stand at the very front of a text.
pub const BYTE_ORDER_MARK: char = '\u{FEFF}';

/// The UTF-8 of a word of characters, in time linear in it.
pub fn encode(alloc: Global, word: &Word) -> Result<Bytes, Memory>
    requires { AreCharacters word.now }
    ensures { IfOk result (λ bytes. bytes ≡ encode_utf8_all word.now) }
{
    Ok(Bytes::from_vec(utf8_of(alloc, word.as_slice())?))
}

/// Whether the symbols begin with a byte order mark.
fn begins_with_mark(symbols: &[Sym]) -> bool
    ensures { result ≡ has_mark symbols.now }
{
    if symbols.is_empty() {
        return false;
    }
    let first: &Sym = &symbols[0];
    first.number() == BYTE_ORDER_MARK as u32
}

/// The bytes of a text document: the UTF-8 of its characters, with one byte order mark more where
/// they begin with one, so that a reader which drops the first gives them back.
pub fn write_text(alloc: Global, word: &Word) -> Result<Bytes, Memory>
    requires { AreCharacters word.now }
    ensures { IfOk result (λ bytes. bytes ≡ text_bytes word.now) }
{
    let symbols = word.as_slice();
    let room = bytes_room(symbols).saturating_add(BYTE_ORDER_MARK.len_utf8());
    let mut bytes = Vec::with_capacity(alloc, room)?;
    if begins_with_mark(symbols) {
        push_character(&mut bytes, Sym::of_char(BYTE_ORDER_MARK))?;
    }
    push_all(&mut bytes, symbols)?;
    Ok(Bytes::from_vec(bytes))
}
