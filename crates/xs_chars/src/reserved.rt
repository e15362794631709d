// Bytes that are written where there is room for them.
ghost use Rattle.std.specs.Prelude.{◌≡◌, ◌+◌, ◌*◌, ◌%◌, ◌≤◌, ◌++◌, length, vec_len, vec_capacity, IsTrue, IfOk, encode_utf8, encode_utf8_all};
ghost use Rattle.std.specs.Str.{all_scalars};

use xs_class::{Memory, Sym};

/// Most bytes that a character takes in UTF-8.
const LONGEST: usize = 4;

/// Appends bytes one by one, for which there is room.
#[inline(always)]
pub fn put_bytes(bytes: &mut Vec<u8>, piece: &[u8])
    requires { vec_len bytes.old + length piece.now ≤ vec_capacity bytes.old }
    ensures put { bytes.new.items ≡ bytes.old.items ++ piece.now }
    ensures len { vec_len bytes.new ≡ vec_len bytes.old + length piece.now }
    ensures room { vec_capacity bytes.new ≡ vec_capacity bytes.old }
{
    'bytes: for byte in piece {
        bytes.push_reserved(*byte);
    }
}

/// The byte of a character's UTF-8 that holds these bits and is not the first.
#[inline(always)]
fn next_byte(bits: u32) -> u8
    ensures { result ≡ 128 + bits % 64 }
{
    (0x80 + bits % 0x40) as u8
}

/// Appends the UTF-8 of a character, for which there is room.
#[inline(always)]
pub fn put_character(bytes: &mut Vec<u8>, character: char)
    requires { vec_len bytes.old + length (encode_utf8 character) ≤ vec_capacity bytes.old }
    ensures put { bytes.new.items ≡ bytes.old.items ++ encode_utf8 character }
    ensures len { vec_len bytes.new ≡ vec_len bytes.old + length (encode_utf8 character) }
    ensures room { vec_capacity bytes.new ≡ vec_capacity bytes.old }
{
    let c = character as u32;
    if c < 0x80 {
        bytes.push_reserved(c as u8);
    } else if c < 0x800 {
        put_bytes(bytes, &[(0xC0 + c / 0x40) as u8, next_byte(c)]);
    } else if c < 0x10000 {
        put_bytes(
            bytes,
            &[(0xE0 + c / 0x1000) as u8, next_byte(c / 0x40), next_byte(c)],
        );
    } else {
        put_bytes(
            bytes,
            &[
                (0xF0 + c / 0x40000) as u8,
                next_byte(c / 0x1000),
                next_byte(c / 0x40),
                next_byte(c),
            ],
        );
    }
}

/// Appends the UTF-8 of symbols, for which there is room; false where one is no character.
fn put_each(bytes: &mut Vec<u8>, symbols: &[Sym]) -> bool
    requires { vec_len bytes.old + 4 * length symbols.now ≤ vec_capacity bytes.old }
    ensures characters { result ≡ all_scalars symbols.now }
    ensures put { IsTrue result → bytes.new.items ≡ bytes.old.items ++ encode_utf8_all symbols.now }
{
    'symbols: for symbol in symbols {
        let Some(character) = char::from_u32(symbol.number()) else {
            return false;
        };
        put_character(bytes, character);
    }
    true
}

/// Appends the UTF-8 of symbols; false where one is no character. In time linear in the symbols, for
/// each of which four bytes are reserved.
pub fn append_utf8(bytes: &mut Vec<u8>, symbols: &[Sym]) -> Result<bool, Memory>
    ensures characters { IfOk result (λ done. done ≡ all_scalars symbols.now) }
    ensures put { IfOk result (λ done. IsTrue done → bytes.new.items ≡ bytes.old.items ++ encode_utf8_all symbols.now) }
{
    if symbols.len() > usize::MAX / LONGEST {
        return Err(Memory);
    }
    bytes.reserve(LONGEST * symbols.len())?;
    Ok(put_each(bytes, symbols))
}
