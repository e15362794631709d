ghost use Rattle.std.specs.Prelude.{◌≡◌, ◌++◌, ℕ, List, false, true, OnOk, IfOk};
ghost use Rattle.std.specs.Option.{option_map};
ghost use Rattle.xs_xml_laws.specs.{bit_at, span};
ghost use Rattle.xs_form.specs.Values.{kept_part, shown_part, part_symbols, is_return, is_written, is_kept, value_symbols, value_written, IsSoFar, IsValue};

use crate::references::reference_char;
use crate::runs::{allowed, cut_at, is, white};
use std::alloc::Global;
use xs_class::{Memory, Sym, Word};

/// A part of an attribute's value: a character as it is written, or that of a reference.
#[derive(Clone, Copy)]
pub enum ValuePart {
    Written(u32),
    Given(u32),
}

/// A value.
#[derive(Drop)]
pub enum Value<'a> {
    /// The characters of the document themselves.
    Same(&'a [Sym]),
    /// The symbols, and whether all of it is as it is written.
    Other { symbols: Word, written: bool },
}

impl Value<'_> {
    /// The symbols.
    pub fn as_slice(&self) -> &[Sym]
        ensures { result.now ≡ value_symbols self.now }
    {
        match self {
            Value::Same(text) => text,
            Value::Other { symbols, .. } => symbols.as_slice(),
        }
    }

    /// Whether all of it is as it is written.
    pub fn is_written(&self) -> bool
        ensures { result ≡ value_written self.now }
    {
        match self {
            Value::Same(_) => true,
            Value::Other { written, .. } => *written,
        }
    }
}

/// The part that the text begins with, and the rest, in a value between these quotes.
fn part_at(quote: Sym, text: &[Sym]) -> Option<(ValuePart, &[Sym])>
    ensures { option_map shown_part result ≡ option_map kept_part (bit_at quote text.now) }
{
    match text {
        [] => None,
        [first, more @ ..] => {
            if is(*first, b'&') {
                let (name, rest) = cut_at(more, b";")?;
                let number = reference_char(name)?;
                return Some((ValuePart::Given(number), rest));
            }
            let number = first.number();
            if is(*first, b'<') || number == quote.number() || !allowed(number) {
                return None;
            }
            Some((ValuePart::Written(number), more))
        }
    }
}

/// Whether the part is a CR as it is written.
fn is_return_part(part: ValuePart) -> bool
    ensures { result ≡ is_return part }
{
    match part {
        ValuePart::Written(number) => number == 13,
        ValuePart::Given(_) => false,
    }
}

/// Whether the part is a character as it is written.
fn is_written_part(part: ValuePart) -> bool
    ensures { result ≡ is_written part }
{
    match part {
        ValuePart::Written(_) => true,
        ValuePart::Given(_) => false,
    }
}

/// White space as it is written gives a space, and the LF of CR LF nothing more.
fn push_part(symbols: &mut Word, after_return: bool, part: ValuePart) -> Result<(), Memory>
    ensures ok { OnOk result (symbols.new ≡ symbols.old ++ part_symbols after_return part) }
{
    match part {
        ValuePart::Given(number) => symbols.push(Sym(number))?,
        ValuePart::Written(number) => {
            if number == 10 && after_return {
                return Ok(());
            }
            symbols.push(if white(Sym(number)) {
                Sym(32)
            } else {
                Sym(number)
            })?;
        }
    }
    Ok(())
}

/// Whether the symbol stands for itself in a value between these quotes, whatever stands around it.
fn kept(quote: Sym, symbol: Sym) -> bool
    ensures { result ≡ is_kept quote symbol }
{
    let number = symbol.number();
    if number == quote.number() {
        return false;
    }
    if 60 < number && number < 0xD800 {
        return true;
    }
    allowed(number)
        && !(number == 60 || number == 38 || number == 9 || number == 10 || number == 13)
}

/// The characters at the front that stand for themselves in a value between these quotes, and the
/// rest.
fn kept_run(quote: Sym, text: &[Sym]) -> (&[Sym], &[Sym])
    ensures { (result.0.now, result.1.now) ≡ span (is_kept quote) text.now }
{
    let mut end = 0;
    'run: while end < text.len() && kept(quote, text[end]) {
        end += 1;
    }
    (&text[..end], &text[end..])
}

/// The value of a text that begins with this run, as far as it goes between these quotes, and what
/// stands after it; the rest is what stands after the run.
fn value_from<'a>(
    alloc: Global,
    quote: Sym,
    run: &[Sym],
    rest: &'a [Sym],
) -> Result<(Value<'a>, &'a [Sym]), Memory>
    ensures { IfOk result (λ r. (text : List ℕ) → IsSoFar quote text run.now false true rest.now → IsValue quote text r.0 r.1.now) }
{
    let mut symbols = Word::of(alloc, run)?;
    let mut written = true;
    let mut after_return = false;
    let mut left = rest;
    'parts: while let Some((part, more)) = part_at(quote, left) {
        push_part(&mut symbols, after_return, part)?;
        written = written && is_written_part(part);
        after_return = is_return_part(part);
        left = more;
    }
    Ok((Value::Other { symbols, written }, left))
}

/// The value that the text begins with, as far as it goes between these quotes, and the rest.
pub fn value_at(alloc: Global, quote: Sym, text: &[Sym]) -> Result<(Value<'_>, &[Sym]), Memory>
    ensures { IfOk result (λ r. IsValue quote text.now r.0 r.1.now) }
{
    let (run, rest) = kept_run(quote, text);
    match part_at(quote, rest) {
        None => Ok((Value::Same(run), rest)),
        Some(_) => value_from(alloc, quote, run, rest),
    }
}
