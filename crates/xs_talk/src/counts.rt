ghost use Rattle.std.specs.Prelude.{◌≡◌, IfOk, OnOk};
ghost use Rattle.xs_talk.specs.Counts.{counted, accepted_line as accepted_line_of, summary as summary_of};

use crate::words::push_decimal;
use std::alloc::Global;
use xs_class::{Bytes, Memory, Side};
use xs_pair::Two;

/// Appends a number, and a text.
fn push_count(line: &mut Bytes, count: u64, text: &[u8]) -> Result<(), Memory>
    ensures { OnOk result (line.new ≡ counted line.old count text.now) }
{
    push_decimal(line, count)?;
    line.extend(text)
}

/// The line of an accepted sheet: how many terminals, ignorables, nonterminals and productions it
/// has.
pub fn accepted_line(alloc: Global, two: &Two) -> Result<Bytes, Memory>
    ensures { IfOk result (λ line. line ≡ accepted_line_of two.now) }
{
    let gram = two.gram(Side::Text);
    let mut line = Bytes::of(alloc, b"accepted: ")?;
    push_count(&mut line, u64::from(gram.terms()), b" terminals, ")?;
    push_count(&mut line, u64::from(gram.skips()), b" ignorables, ")?;
    push_count(&mut line, u64::from(gram.nons()), b" nonterminals, ")?;
    push_count(&mut line, u64::from(gram.rules()), b" productions\n")?;
    Ok(line)
}

/// The line of a text that was made: its lines, its bytes, those of its XML document, and the parts
/// of its tree.
pub fn summary(alloc: Global, lines: u32, text: u64, xml: u64, parts: u64) -> Result<Bytes, Memory>
    ensures { IfOk result (λ line. line ≡ summary_of lines text xml parts) }
{
    let mut line = Bytes::of(alloc, b"make: lines ")?;
    push_count(&mut line, u64::from(lines), b", text ")?;
    push_count(&mut line, text, b" bytes, xml ")?;
    push_count(&mut line, xml, b" bytes, tree ")?;
    push_count(&mut line, parts, b" parts\n")?;
    Ok(line)
}
