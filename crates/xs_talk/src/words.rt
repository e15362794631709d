ghost use Rattle.std.specs.Prelude.{◌≡◌, ◌++◌, OnOk, OnErr, decimal, encode_utf8_all, slice_get};
ghost use Rattle.std.specs.Option.{option_map};
ghost use Rattle.xs_talk.specs.Words.{escaped, character, mark, mark_begin as mark_begin_of, symbol as symbol_of, shown, quoted};

use itoa::Buffer;
use std::alloc::Global;
use xs_class::{Bytes, Memory, Names, Sym, Word};

/// The first number that is no character, and the first mark of a name.
const ATTRIBUTE_END: u32 = 0x110000;

const STRANGE: u32 = 0x110001;

const FIRST_MARK: u32 = 0x110002;

/// Appends three pieces.
pub fn push_three(out: &mut Bytes, first: &[u8], second: &[u8], third: &[u8]) -> Result<(), Memory>
    ensures { OnOk result (out.new ≡ out.old ++ first.now ++ second.now ++ third.now) }
{
    out.extend(first)?;
    out.extend(second)?;
    out.extend(third)?;
    Ok(())
}

/// Appends a number in decimal digits, or leaves the bytes as they were.
pub fn push_decimal(out: &mut Bytes, number: u64) -> Result<(), Memory>
    ensures ok { OnOk result (out.new ≡ out.old ++ decimal number) }
    ensures err { OnErr result (out.new ≡ out.old) }
{
    let mut digits = Buffer::new();
    out.extend(digits.format(number).as_bytes())?;
    Ok(())
}

fn push_escaped(alloc: Global, out: &mut Bytes, number: u32) -> Result<(), Memory>
    ensures ok { OnOk result (out.new ≡ out.old ++ escaped number) }
    ensures err { OnErr result (out.new ≡ out.old) }
{
    let whole = format!(in alloc; "\\u{{{number:x}}}")?;
    out.extend(whole.as_bytes())?;
    Ok(())
}

/// Appends a character, or a surrogate.
fn push_character(alloc: Global, out: &mut Bytes, number: u32) -> Result<(), Memory>
    ensures ok { OnOk result (out.new ≡ out.old ++ character number) }
    ensures err { OnErr result (out.new ≡ out.old) }
{
    match number {
        0x22 | 0x3C | 0x3E | 0x5C => push_escaped(alloc, out, number),
        0x20..=0x7E => {
            out.push(number as u8)?;
            Ok(())
        }
        0xD800..=0xDFFF => {
            out.extend(b"<?>")?;
            Ok(())
        }
        _ => push_escaped(alloc, out, number),
    }
}

fn mark_begin(kind: u32) -> &'static str
    ensures { result.now ≡ mark_begin_of kind }
{
    match kind {
        0 => "<",
        1 => "<@",
        _ => "</",
    }
}

fn name_at(names: &Names, k: u32) -> Option<&str>
    ensures { option_map (λ name. name.now) result ≡ option_map encode_utf8_all (slice_get names.now k) }
{
    if k < names.len() {
        let name = names.name(k);
        Some(name)
    } else {
        None
    }
}

/// Appends the mark with this number after the two that are no name's.
fn push_mark(alloc: Global, out: &mut Bytes, names: &Names, number: u32) -> Result<(), Memory>
    ensures ok { OnOk result (out.new ≡ out.old ++ mark names.now number) }
    ensures err { OnErr result (out.new ≡ out.old) }
{
    match name_at(names, number / 3) {
        Some(name) => {
            let begin = mark_begin(number % 3);
            let whole = format!(in alloc; "{begin}{name}>")?;
            out.extend(whole.as_bytes())?;
        }
        None => out.extend(b"<?>")?,
    }
    Ok(())
}

/// Appends what is shown of a symbol, or leaves the bytes as they were.
pub fn push_symbol(alloc: Global, out: &mut Bytes, names: &Names, symbol: Sym) -> Result<(), Memory>
    ensures ok { OnOk result (out.new ≡ out.old ++ symbol_of names.now symbol) }
    ensures err { OnErr result (out.new ≡ out.old) }
{
    let Sym(number) = symbol;
    match number {
        0..=0x10FFFF => push_character(alloc, out, number),
        ATTRIBUTE_END => {
            out.extend(b"<@>")?;
            Ok(())
        }
        STRANGE => {
            out.extend(b"<?>")?;
            Ok(())
        }
        _ => push_mark(alloc, out, names, number - FIRST_MARK),
    }
}

/// Appends what is shown of a word.
fn push_symbols(alloc: Global, out: &mut Bytes, names: &Names, word: &[Sym]) -> Result<(), Memory>
    ensures { OnOk result (out.new ≡ out.old ++ shown names.now word.now) }
{
    'symbols: for symbol in word {
        push_symbol(alloc, out, names, *symbol)?;
    }
    Ok(())
}

/// Appends what is shown of a word, between two quotes. Linear in the word and the names that it
/// marks.
pub fn push_quoted(alloc: Global, out: &mut Bytes, names: &Names, word: &Word) -> Result<(), Memory>
    ensures { OnOk result (out.new ≡ out.old ++ quoted names.now word.now) }
{
    out.push(b'"')?;
    push_symbols(alloc, out, names, word.as_slice())?;
    out.push(b'"')?;
    Ok(())
}
