ghost use Rattle.std.specs.Prelude.{◌≡◌, ◌<◌, length, IfOk, IfErr};
ghost use Rattle.std.specs.Str.{chars, IsUtf8};
ghost use Rattle.xs_chars.specs.Text.{symbol_limit, text_of, without_mark, AreCharacters};
ghost use Rattle.xs_chars.specs.Laws.{IsFault};

use crate::form::{Form, formed};
use crate::strings::word_of;
use crate::writing::BYTE_ORDER_MARK;
use simdutf8::compat::from_utf8;
use std::alloc::Global;
use xs_class::{Memory, Word};

/// Why bytes are not decoded.
#[derive(Clone, Copy, Debug, PartialEq, Eq)]
pub enum DecodeFault {
    /// They are not UTF-8: `at` bytes are the longest prefix that is.
    NotUtf8 { at: u64 },
    Memory,
}

impl From<Memory> for DecodeFault {
    ghost use Rattle.std.specs.Prelude.{◌≡◌};
    ghost use Rattle.xs_chars.specs.declared.reading.DecodeFault.TheVariants as fault;

    ghost from_gives = { λ _ e. e ≡ fault.Memory };

    fn from(_: Memory) -> Self {
        DecodeFault::Memory
    }
}

/// The text that the bytes spell.
fn text_in(bytes: &[u8]) -> Result<&str, DecodeFault>
    ensures ok { IfOk result (λ t. IsUtf8 bytes.now × (t.now ≡ bytes.now)) }
    ensures fault { IfErr result (IsFault bytes.now) }
{
    match from_utf8(bytes) {
        Ok(text) => Ok(text),
        Err(bad) => Err(DecodeFault::NotUtf8 {
            at: bad.valid_up_to() as u64,
        }),
    }
}

/// The characters of the bytes as UTF-8, in time linear in them.
pub fn decode(alloc: Global, bytes: &[u8]) -> Result<Word, DecodeFault>
    ensures ok { IfOk result (λ w. IsUtf8 bytes.now × (w ≡ chars bytes.now)) }
    ensures fault { IfErr result (IsFault bytes.now) }
    ensures characters { IfOk result AreCharacters }
{
    let text = text_in(bytes)?;
    Ok(word_of(alloc, text)?)
}

/// The text after one byte order mark at the very front, where there is one.
fn after_mark(text: &str) -> &str
    ensures { chars result.now ≡ without_mark (chars text.now) }
{
    match text.strip_prefix(BYTE_ORDER_MARK) {
        Some(rest) => rest,
        None => text,
    }
}

/// The characters of a text document: those of the bytes as UTF-8, without one byte order mark at
/// the very front, in the form. A word of 4,294,967,295 symbols or more is answered by `Memory`.
pub fn read_text(alloc: Global, bytes: &[u8], form: Form) -> Result<Word, DecodeFault>
    ensures ok { IfOk result (λ w. IsUtf8 bytes.now × (w ≡ text_of bytes.now form)) }
    ensures fault { IfErr result (IsFault bytes.now) }
    ensures characters { IfOk result AreCharacters }
    ensures short { IfOk result (λ w. length w < symbol_limit) }
{
    let text = text_in(bytes)?;
    Ok(formed(alloc, after_mark(text), form)?)
}
