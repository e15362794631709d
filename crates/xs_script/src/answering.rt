// The lines that answer requests.
ghost use Rattle.std.specs.Prelude.{◌≡◌, ◌++◌, ◌∷◌, [], List, ℕ, IfOk, OnOk, codes};
ghost use Rattle.xs_talk.specs.{quoted};
ghost use Rattle.xs_script.specs.Playing.{number_line, range_text, ranges_text, next_line, IsTreeAnswer, IsNextAnswer};

use std::alloc::Global;
use xs_class::{Bytes, Class, Memory, Names, Sym};
use xs_edit::Session;
use xs_pair::Two;
use xs_talk::{push_decimal, push_symbol, tree_line};

/// Appends a word, a number and the end of the line.
pub fn push_number(out: &mut Bytes, word: &[u8], number: u64) -> Result<(), Memory>
    ensures { OnOk result (out.new ≡ out.old ++ number_line word.now number) }
{
    out.extend(word)?;
    push_decimal(out, number)?;
    out.push(b'\n')?;
    Ok(())
}

/// Appends a symbol, between two quotes.
fn push_one(alloc: Global, out: &mut Bytes, names: &Names, symbol: u32) -> Result<(), Memory>
    ensures { OnOk result (out.new ≡ out.old ++ quoted names.now (symbol ∷ [])) }
{
    out.push(b'"')?;
    push_symbol(alloc, out, names, Sym(symbol))?;
    out.push(b'"')?;
    Ok(())
}

/// Appends a range.
fn push_range(
    alloc: Global,
    out: &mut Bytes,
    names: &Names,
    range: (u32, u32),
) -> Result<(), Memory>
    ensures { OnOk result (out.new ≡ out.old ++ range_text names.now range) }
{
    out.push(b' ')?;
    push_one(alloc, out, names, range.0)?;
    if range.0 != range.1 {
        out.push(b'-')?;
        push_one(alloc, out, names, range.1)?;
    }
    Ok(())
}

/// Appends the ranges.
fn push_ranges(
    alloc: Global,
    out: &mut Bytes,
    names: &Names,
    ranges: &[(u32, u32)],
) -> Result<(), Memory>
    ensures { OnOk result (out.new ≡ out.old ++ ranges_text names.now ranges.now) }
{
    'ranges: for range in ranges {
        push_range(alloc, out, names, *range)?;
    }
    Ok(())
}

/// Appends the line of a class.
fn push_class(alloc: Global, out: &mut Bytes, names: &Names, class: &Class) -> Result<(), Memory>
    ensures { OnOk result (out.new ≡ out.old ++ next_line names.now class.now) }
{
    out.extend(b"next")?;
    push_ranges(alloc, out, names, class.ranges())?;
    out.push(b'\n')?;
    Ok(())
}

/// The line of a derivation of the document, or how far it can be read.
pub fn tree(alloc: Global, two: &Two, session: &mut Session<'_>) -> Result<Bytes, Memory>
    requires pair { session.old.pair ≡ two.now }
    ensures answer { IfOk result (IsTreeAnswer two.now session.old.document) }
    ensures unchanged { session.new ≡ session.old }
{
    match session.tree()? {
        Some(spelt) => tree_line(alloc, two, &spelt, session.document()),
        None => {
            let mut line = Bytes::new(alloc);
            push_number(&mut line, b"foreign ", session.viable())?;
            Ok(line)
        }
    }
}

/// Appends the line of the symbols that may come after a prefix.
pub fn next(
    alloc: Global,
    two: &Two,
    session: &Session<'_>,
    at: u32,
    out: &mut Bytes,
) -> Result<(), Memory>
    requires { session.now.pair ≡ two.now }
    ensures { OnOk result ((line : List ℕ) × IsNextAnswer two.now session.now.document at line × (out.new ≡ out.old ++ line)) }
{
    match session.next(at)? {
        Some(class) => push_class(alloc, out, two.names(), &class)?,
        None => out.extend(b"no beyond\n")?,
    }
    Ok(())
}
