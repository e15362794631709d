// Texts as words, and words of characters as UTF-8.
ghost use Rattle.std.specs.Prelude.{◌≡◌, ◌++◌, IfOk, OnOk, IsAscii, encode_utf8, encode_utf8_all};
ghost use Rattle.std.specs.Char.{IsScalar};
ghost use Rattle.std.specs.Str.{chars};
ghost use Rattle.xs_chars.specs.Text.{AreCharacters};

use crate::reserved::put_character;
use crate::room::{bytes_room, symbols_room};
use std::alloc::Global;
use xs_class::{Memory, Sym, Word};

/// The word of a text's characters.
pub fn word_of(alloc: Global, text: &str) -> Result<Word, Memory>
    ensures word { IfOk result (λ w. w ≡ chars text.now) }
    ensures characters { IfOk result AreCharacters }
{
    let mut symbols = Vec::with_capacity(alloc, symbols_room(text.as_bytes()))?;
    symbols.extend(text.chars().map(Sym::of_char))?;
    Ok(Word::from_vec(symbols))
}

/// The word of a text of ASCII, whose bytes are its characters.
pub fn ascii_word(alloc: Global, text: &str) -> Result<Word, Memory>
    requires { IsAscii text.now }
    ensures word { IfOk result (λ w. w ≡ chars text.now) }
    ensures characters { IfOk result AreCharacters }
{
    let bytes = text.as_bytes();
    let mut symbols = Vec::with_capacity(alloc, bytes.len())?;
    'bytes: for byte in bytes {
        symbols.push_reserved(Sym(*byte as u32));
    }
    Ok(Word::from_vec(symbols))
}

/// Appends the UTF-8 of a character.
#[inline(always)]
pub fn push_character(bytes: &mut Vec<u8>, symbol: Sym) -> Result<(), Memory>
    requires { IsScalar symbol }
    ensures { OnOk result (bytes.new.items ≡ bytes.old.items ++ encode_utf8 symbol) }
{
    let character = char::from_u32(symbol.number()).unwrap();
    bytes.reserve(character.len_utf8())?;
    put_character(bytes, character);
    Ok(())
}

/// Appends the UTF-8 of the characters.
pub fn push_all(bytes: &mut Vec<u8>, symbols: &[Sym]) -> Result<(), Memory>
    requires { AreCharacters symbols.now }
    ensures { IfOk result (λ _. bytes.new.items ≡ bytes.old.items ++ encode_utf8_all symbols.now) }
{
    'symbols: for symbol in symbols {
        push_character(bytes, *symbol)?;
    }
    Ok(())
}

/// The UTF-8 of the characters.
pub fn utf8_of(alloc: Global, symbols: &[Sym]) -> Result<Vec<u8>, Memory>
    requires { AreCharacters symbols.now }
    ensures { IfOk result (λ bytes. bytes.items ≡ encode_utf8_all symbols.now) }
{
    let mut bytes = Vec::with_capacity(alloc, bytes_room(symbols))?;
    push_all(&mut bytes, symbols)?;
    Ok(bytes)
}
