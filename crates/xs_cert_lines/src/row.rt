// Rows, read where they stand.
ghost use Rattle.std.specs.Prelude.{◌≡◌, ℕ, ◌<◌, ◌≤◌, List, true, false, length, drop, IfSome, IfNone};
ghost use Rattle.xs_closed.specs.{Row, has_number, marked};
ghost use Rattle.xs_cert_lines.specs.Reading.{HasPartners, MarksIn, ReadsPartners, IsRowAt, AddsRow, IsSameSet};

use crate::number::{number_within, partner};
use xs_closed::PairSet;

/// Whether a line feed stands at a place or after it.
///
/// Looks at the last byte first: where it is one, as in each whole certificate, the others are not
/// gone through.
fn has_feed(bytes: &[u8], start: usize) -> bool
    requires { start ≤ length bytes.now }
    ensures { result ≡ has_number (drop start bytes.now) 10 }
{
    if start < bytes.len() && bytes[bytes.len() - 1] == b'\n' {
        return true;
    }
    let mut at = start;
    'bytes: while at < bytes.len() {
        if bytes[at] == b'\n' {
            return true;
        }
        at += 1;
    }
    false
}

/// Marks the pairs of a number and the partners that stand from a byte on, and gives the byte after
/// their line feed. Where no such partners stand there, some pairs may have been marked.
fn read_partners(bytes: &[u8], start: usize, state: u32, set: &mut PairSet) -> Option<usize>
    requires feed { has_number (drop start bytes.now) 10 ≡ true }
    requires state { state < length set.old.rows }
    ensures row { MarksIn set.old set.new state }
    ensures none { IfNone result ((rest : List ℕ) → HasPartners 0 set.old.wide (drop start bytes.now) rest → ⊥) }
    ensures some { IfSome result (λ end. ReadsPartners set.old set.new state (drop start bytes.now) (drop end bytes.now)) }
    ensures place { IfSome result (λ end. end ≤ length bytes.now) }
    ensures order { IfSome result (λ end. start < end) }
{
    let end = set.wide();
    let mut first = 0;
    let mut at = start;
    'partners: while let Some((number, after)) = partner(bytes, at, first, end) {
        set.insert(state, number);
        if bytes[after] == b'\n' {
            return Some(after + 1);
        }
        first = number + 1;
        at = after;
    }
    None
}

/// Reads the row that stands from a byte on into a set with these bounds, which has no pairs of the
/// first number that may come nor of later ones. Gives the first number that may come next, and the
/// byte after the line. Where no row stands there whose number is at least the first, the set has the
/// same pairs as before.
pub fn read_row(
    bytes: &[u8],
    start: usize,
    first: u32,
    high: u32,
    wide: u32,
    set: &mut PairSet,
) -> Option<(u32, usize)>
    requires start { start ≤ length bytes.now }
    requires high { high ≡ length set.old.rows }
    requires wide { wide ≡ set.old.wide }
    requires blank { (a b : ℕ) → first ≤ a → marked set.old a b ≡ false }
    ensures same { IfNone result (IsSameSet set.old set.new) }
    ensures none { IfNone result ((row : Row) (rest : List ℕ) → IsRowAt first high wide (drop start bytes.now) row rest → ⊥) }
    ensures some { IfSome result (λ r. AddsRow first set.old set.new (drop start bytes.now) r.0 (drop r.1 bytes.now)) }
    ensures place { IfSome result (λ r. r.1 ≤ length bytes.now) }
    ensures order { IfSome result (λ r. start < r.1) }
{
    if !has_feed(bytes, start) {
        return None;
    }
    let (state, partners) = number_within(bytes, start, first, high)?;
    let Some(end) = read_partners(bytes, partners, state, set) else {
        set.clear_row(state);
        return None;
    };
    Some((state + 1, end))
}
