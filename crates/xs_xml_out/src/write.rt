ghost use Rattle.std.specs.Prelude.{◌≡◌, ◌++◌, IfOk, OnOk, string_bytes};
ghost use Rattle.std.specs.Str.{IsUtf8};
ghost use Rattle.xs_xml_out.specs.Balanced.{IsBalanced};
ghost use Rattle.xs_xml_out.specs.Written.{xml_bytes, IsAppended};
ghost use Rattle.xs_xml_out.specs.Spelling.{AreKnown};

use crate::kind::symbol_kind;
use crate::mode::{Mode, after};
use crate::spelling::{put_symbol, put_text};
use crate::tags::Tags;
use std::alloc::Global;
use xs_class::{Bytes, Memory, Names, Sym, Word};

/// Appends what is written for symbols from a mode on, and gives the mode after them.
pub fn put_stretch(
    tags: &Tags,
    from: Mode,
    symbols: &[Sym],
    out: &mut String,
) -> Result<Mode, Memory>
    requires { AreKnown tags.now symbols.now }
    ensures { IfOk result (IsAppended tags.now from symbols.now (string_bytes out.old) (string_bytes out.new)) }
{
    let mut mode = from;
    'symbols: for symbol in symbols {
        let kind = symbol_kind(*symbol);
        put_symbol(out, tags, mode, kind)?;
        mode = after(mode, kind);
    }
    Ok(mode)
}

/// Appends the document.
fn put_all(tags: &Tags, symbols: &[Sym], out: &mut String) -> Result<(), Memory>
    requires { AreKnown tags.now symbols.now }
    ensures { OnOk result (string_bytes out.new ≡ string_bytes out.old ++ xml_bytes tags.now symbols.now) }
{
    put_stretch(tags, Mode::Content, symbols, out)?;
    put_text(out, "\n")?;
    Ok(())
}

/// The document of a balanced word, as UTF-8.
///
/// Takes time linear in the word, the names and the document. Two bytes a symbol are reserved at first, and
/// more where the document needs more.
pub fn write_xml(alloc: Global, names: &Names, word: &Word) -> Result<Bytes, Memory>
    requires { IsBalanced names.now word.now }
    ensures written { IfOk result (λ bytes. bytes ≡ xml_bytes names.now word.now) }
    ensures utf8 { IfOk result IsUtf8 }
{
    let symbols = word.as_slice();
    let mut out = String::with_capacity(alloc, symbols.len().saturating_mul(2))?;
    let tags = Tags::of(alloc, names)?;
    put_all(&tags, symbols, &mut out)?;
    Ok(Bytes::from_vec(out.into_bytes()))
}
