// Whole lines, written and read.
ghost use Rattle.std.specs.Prelude.{◌≡◌, ◌↔◌, ◌≤◌, [], ◌∷◌, ◌++◌, length, drop, decimal, IsTrue, MatchOption, IfSome, IfNone, OnOk, OnErr};
ghost use Rattle.xs_cert_lines.specs.Lines.{spaced, ended};
ghost use Rattle.xs_cert_lines.specs.Pages.{AppendsFront};
ghost use Rattle.xs_cert_lines.specs.Runs.{GoesOn, IsFrom};

use itoa::Buffer;
use xs_class::{Bytes, Memory};

/// Appends a space and a number.
fn push_number(out: &mut Bytes, number: u32) -> Result<(), Memory>
    ensures ok { OnOk result (out.new ≡ out.old ++ 32 ∷ decimal number) }
    ensures err { OnErr result (AppendsFront out.old out.new (32 ∷ decimal number)) }
{
    let mut digits = Buffer::new();
    out.push(b' ')?;
    out.extend(digits.format(number).as_bytes())?;
    Ok(())
}

/// Appends a line: a text and two numbers; an `Err` leaves some of its front appended.
pub fn write_pair(out: &mut Bytes, text: &[u8], first: u32, second: u32) -> Result<(), Memory>
    ensures ok { OnOk result (out.new ≡ out.old ++ ended (spaced text.now (first ∷ second ∷ []))) }
    ensures err { OnErr result (AppendsFront out.old out.new (ended (spaced text.now (first ∷ second ∷ [])))) }
{
    out.extend(text)?;
    push_number(out, first)?;
    push_number(out, second)?;
    out.push(b'\n')?;
    Ok(())
}

/// The bytes from this one on.
fn from_byte(bytes: &[u8], start: usize) -> &[u8]
    requires { start ≤ length bytes.now }
    ensures { result.now ≡ drop start bytes.now }
{
    &bytes[start..]
}

/// What follows a piece at the front.
fn after<'b>(bytes: &'b [u8], piece: &[u8]) -> Option<&'b [u8]>
    ensures { MatchOption result (GoesOn bytes.now piece.now → ⊥) (λ rest. bytes.now ≡ piece.now ++ rest.now) }
{
    bytes.strip_prefix(piece)
}

/// What follows a space and this number.
fn after_number(bytes: &[u8], number: u32) -> Option<&[u8]>
    ensures { MatchOption result (GoesOn bytes.now (32 ∷ decimal number) → ⊥) (λ rest. bytes.now ≡ (32 ∷ decimal number) ++ rest.now) }
{
    let mut digits = Buffer::new();
    after(after(bytes, b" ")?, digits.format(number).as_bytes())
}

/// What follows the line of a text and two numbers.
fn after_pair<'b>(bytes: &'b [u8], text: &[u8], first: u32, second: u32) -> Option<&'b [u8]>
    ensures { MatchOption result (GoesOn bytes.now (ended (spaced text.now (first ∷ second ∷ []))) → ⊥) (λ rest. bytes.now ≡ ended (spaced text.now (first ∷ second ∷ [])) ++ rest.now) }
{
    let numbers = after(bytes, text)?;
    let last = after_number(numbers, first)?;
    let end = after_number(last, second)?;
    after(end, b"\n")
}

/// Whether a line stands from a byte on: the byte after it, or none.
pub fn read_line(bytes: &[u8], start: usize, line: &[u8]) -> Option<usize>
    requires { start ≤ length bytes.now }
    ensures some { IfSome result (λ end. IsFrom bytes.now start end (line.now ∷ [])) }
    ensures none { IfNone result (GoesOn (drop start bytes.now) (ended line.now) → ⊥) }
{
    let front = from_byte(bytes, start);
    let end = after(front, line)?;
    let rest = after(end, b"\n")?;
    Some(bytes.len() - rest.len())
}

/// Whether a line stands from a byte on, and nothing after it.
pub fn is_last_line(bytes: &[u8], start: usize, line: &[u8]) -> bool
    requires { start ≤ length bytes.now }
    ensures { IsTrue result ↔ (drop start bytes.now ≡ ended line.now) }
{
    match read_line(bytes, start, line) {
        Some(end) => end == bytes.len(),
        None => false,
    }
}

/// Whether the line of a text and two numbers stands from a byte on: the byte after it, or none.
pub fn read_pair(bytes: &[u8], start: usize, text: &[u8], first: u32, second: u32) -> Option<usize>
    requires { start ≤ length bytes.now }
    ensures some { IfSome result (λ end. IsFrom bytes.now start end (spaced text.now (first ∷ second ∷ []) ∷ [])) }
    ensures none { IfNone result (GoesOn (drop start bytes.now) (ended (spaced text.now (first ∷ second ∷ []))) → ⊥) }
{
    let front = from_byte(bytes, start);
    let rest = after_pair(front, text, first, second)?;
    Some(bytes.len() - rest.len())
}
