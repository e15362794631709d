ghost use Rattle.std.specs.Prelude.{IfOk};
ghost use Rattle.xs_chars.specs.{AreCharacters};

use std::alloc::Global;
use xs_chars::{DecodeFault, Form, decode, encode, in_form};
use xs_class::{Sym, Word};

/// Whether these are the numbers of the symbols.
fn are(symbols: &[Sym], numbers: &[u32]) -> bool {
    for (symbol, number) in symbols.iter().zip(numbers) {
        if symbol.number() != *number {
            return false;
        }
    }
    symbols.len() == numbers.len()
}

/// Bytes, a form, the numbers of symbols, and bytes again.
type Row<'t> = (&'t [u8], Form, &'t [u32], &'t [u8]);

fn put(alloc: Global, bytes: &[u8], form: Form) -> Result<Word, DecodeFault>
    ensures { IfOk result AreCharacters }
{
    let word = decode(alloc, bytes)?;
    Ok(in_form(alloc, &word, form)?)
}

fn is_encoded(alloc: Global, word: &Word, bytes: &[u8]) -> Result<bool, DecodeFault>
    requires { AreCharacters word.now }
{
    let out = encode(alloc, word)?;
    Ok(out.as_slice() == bytes)
}

fn is_decoded(alloc: Global, bytes: &[u8], numbers: &[u32]) -> Result<bool, DecodeFault> {
    let back = decode(alloc, bytes)?;
    Ok(are(back.as_slice(), numbers))
}

/// Whether the bytes in this form are these symbols, which are encoded as those bytes and back.
fn is_put_and_encoded(alloc: Global, row: Row<'_>) -> Result<bool, DecodeFault> {
    let word = put(alloc, row.0, row.1)?;
    let is_encoded = is_encoded(alloc, &word, row.3)?;
    let is_decoded = is_decoded(alloc, row.3, row.2)?;
    Ok(is_encoded && is_decoded && are(word.as_slice(), row.2))
}

const PUT: [Row<'static>; 4] = [
    (b"\xe1\xba\xa1", Form::Nfd, &[97, 0x323], b"a\xcc\xa3"),
    (b"a\xcc\xa3", Form::Nfc, &[0x1EA1], b"\xe1\xba\xa1"),
    (b"a\xcc\xa3", Form::AsIs, &[97, 0x323], b"a\xcc\xa3"),
    (
        b"\xef\xbb\xbfa",
        Form::AsIs,
        &[0xFEFF, 97],
        b"\xef\xbb\xbfa",
    ),
];

#[test]
fn a_word_is_put_into_a_form_and_encoded(rt: HostRuntime) {
    for row in &PUT {
        let same = is_put_and_encoded(rt.alloc(), *row);
        assert!(rt; same == Ok(true), "{:?}", row.0);
    }
}
