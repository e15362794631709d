ghost use Rattle.std.specs.Prelude.{◌≡◌, ◌++◌, ℕ, OnOk, IfOk};
ghost use Rattle.xs_talk.specs.Covers.{word_line, shown_lines, production_lines, reached_one, reached_line, cover_text as text_of};

use crate::telling::push_numbered;
use crate::words::push_quoted;
use std::alloc::Global;
use xs_class::{Bytes, Memory, Names, Word};

/// What is shown of a production of a sheet.
#[derive(Debug, Drop)]
pub enum Shown {
    /// No document pair uses the production.
    Unreached,
    /// A smallest document pair that uses it has `size` symbols, and is too long to be shown.
    Long { size: u64 },
    /// The words of a smallest document pair that uses it, and how many symbols they have together.
    Pair { size: u64, text: Word, xml: Word },
}

/// Appends the line of the word of a side.
fn push_word(
    alloc: Global,
    out: &mut Bytes,
    names: &Names,
    side: &[u8],
    word: &Word,
) -> Result<(), Memory>
    ensures { OnOk result (out.new ≡ out.old ++ word_line names.now side.now word.now) }
{
    out.extend(side)?;
    push_quoted(alloc, out, names, word)?;
    out.push(b'\n')?;
    Ok(())
}

/// Appends what is said of a production.
fn push_shown(alloc: Global, out: &mut Bytes, names: &Names, shown: &Shown) -> Result<(), Memory>
    ensures { OnOk result (out.new ≡ out.old ++ shown_lines names.now shown.now) }
{
    match shown {
        Shown::Unreached => {
            out.extend(b"not reachable\n")?;
            Ok(())
        }
        Shown::Long { size } => push_numbered(out, b"size ", *size, b", too long\n"),
        Shown::Pair { size, text, xml } => {
            push_numbered(out, b"size ", *size, b"\n")?;
            push_word(alloc, out, names, b"text ", text)?;
            push_word(alloc, out, names, b"xml ", xml)?;
            Ok(())
        }
    }
}

/// Appends the lines of the production of this number, counted from 1.
fn push_production(
    alloc: Global,
    out: &mut Bytes,
    names: &Names,
    number: u64,
    shown: &Shown,
) -> Result<(), Memory>
    ensures { OnOk result (out.new ≡ out.old ++ production_lines names.now number shown.now) }
{
    push_numbered(out, b"production ", number, b": ")?;
    push_shown(alloc, out, names, shown)?;
    Ok(())
}

/// Whether some documents use the production, as a number.
fn count_of(shown: &Shown) -> u64
    ensures { result ≡ reached_one shown.now }
{
    match shown {
        Shown::Unreached => 0,
        Shown::Long { .. } | Shown::Pair { .. } => 1,
    }
}

/// Appends the line that closes the lines of all productions.
fn push_reached(out: &mut Bytes, count: u64, all: u64) -> Result<(), Memory>
    ensures { OnOk result (out.new ≡ out.old ++ reached_line count all) }
{
    push_numbered(out, b"", count, b"")?;
    push_numbered(out, b" of ", all, b" reachable\n")
}

/// The lines of all productions of a sheet in their order: for each its number, counted from 1, the
/// size of its smallest document pair, and the words of that pair where they are not too long; last
/// how many of the productions some documents use. Linear in the words and the names that they mark.
pub fn cover_text(alloc: Global, names: &Names, all: &[Shown]) -> Result<Bytes, Memory>
    ensures { IfOk result (λ text. text ≡ text_of names.now all.now) }
{
    let mut out = Bytes::new(alloc);
    let mut number: u64 = 0;
    let mut count: u64 = 0;
    'productions: for shown in all {
        number += 1;
        count += count_of(shown);
        push_production(alloc, &mut out, names, number, shown)?;
    }
    push_reached(&mut out, count, number)?;
    Ok(out)
}
