// Writing the rows of a set.
ghost use Rattle.std.specs.Prelude.{◌≡◌, ◌+◌, ◌*◌, ◌<◌, ◌≤◌, [], ◌++◌, length, get_or, take, OnOk, OnErr, IfOk};
ghost use Rattle.xs_closed.specs.{places, row_then, rows_of};
ghost use Rattle.xs_cert_lines.specs.Lines.{written, set_lines};
ghost use Rattle.xs_cert_lines.specs.Reading.{listed};
ghost use Rattle.xs_cert_lines.specs.Pages.{AppendsFront, Flushes, PutsPartners, Writes};

use crate::page::{put, put_number};
use xs_class::{Bytes, Memory};
use xs_closed::PairSet;

/// How many bytes are written before they are appended at once.
const PAGE: usize = 2048;

/// No less than what is put between two calls of `with_room`: 64 partners of at most 11 bytes each,
/// a row's number and a line feed.
const ROOM: usize = 728;

/// Appends what was written, where there is not much room left, and gives the place to go on from.
fn with_room(out: &mut Bytes, page: &[u8], at: usize) -> Result<usize, Memory>
    requires page { 728 ≤ length page.now }
    requires within { at ≤ length page.now }
    ensures ok { IfOk result (Flushes out.old out.new page.now at) }
    ensures err { OnErr result (out.new ≡ out.old) }
{
    if page.len() - at < ROOM {
        out.extend(&page[..at])?;
        return Ok(0);
    }
    Ok(at)
}

/// Puts the partners of a number from 64 times a place on that are in one word.
fn put_lane(page: &mut [u8], start: usize, set: &PairSet, state: u32, place: u32) -> usize
    requires state { state < length set.now.rows }
    requires place { place * 64 < set.now.wide }
    requires room { start + 704 ≤ length page.old }
    ensures text { PutsPartners page.old page.new start result (get_or set.now.rows state []) (place * 64) (place * 64 + 64) }
    ensures short { result ≤ start + 704 }
{
    let bound = set.wide();
    let wide = u64::from(bound);
    let mut left = set.lane(state, place);
    let mut from = u64::from(place) * 64;
    let mut at = start;
    'partners: while left != 0 {
        let zeros = left.trailing_zeros();
        let partner = from + u64::from(zeros);
        if wide <= partner {
            return at;
        }
        left = (left >> zeros) >> 1;
        from = partner + 1;
        let after = put(page, at, b' ');
        at = put_number(page, after, partner as u32);
    }
    at
}

/// Writes the partners of a number.
fn put_partners(
    out: &mut Bytes,
    page: &mut [u8],
    start: usize,
    set: &PairSet,
    state: u32,
) -> Result<usize, Memory>
    requires state { state < length set.now.rows }
    requires page { 728 ≤ length page.old }
    requires room { start + 16 ≤ length page.old }
    ensures text { IfOk result (λ end. Writes out.old page.old start out.new page.new end (listed (places 0 (get_or set.now.rows state [])))) }
    ensures room { IfOk result (λ end. end + 16 ≤ length page.new) }
    ensures err { OnErr result (AppendsFront out.old out.new (take start page.old ++ listed (places 0 (get_or set.now.rows state [])))) }
{
    let bound = set.wide();
    let wide = u64::from(bound);
    let lanes = ((wide + 63) / 64) as u32;
    let mut at = start;
    'lanes: for place in 0..lanes {
        let begin = with_room(out, page, at)?;
        at = put_lane(page, begin, set, state, place);
    }
    Ok(at)
}

/// Writes the row of a number, if it has partners.
fn put_row(
    out: &mut Bytes,
    page: &mut [u8],
    start: usize,
    set: &PairSet,
    state: u32,
) -> Result<usize, Memory>
    requires state { state < length set.now.rows }
    requires page { 728 ≤ length page.old }
    requires within { start ≤ length page.old }
    ensures text { IfOk result (λ end. Writes out.old page.old start out.new page.new end (written (set_lines (row_then state (places 0 (get_or set.now.rows state [])) [])))) }
    ensures within { IfOk result (λ end. end ≤ length page.new) }
    ensures err { OnErr result (AppendsFront out.old out.new (take start page.old ++ written (set_lines (row_then state (places 0 (get_or set.now.rows state [])) [])))) }
{
    let Some(_) = set.next(state, 0) else {
        return Ok(start);
    };
    let begin = with_room(out, page, start)?;
    let numbered = put_number(page, begin, state);
    let listed = put_partners(out, page, numbered, set, state)?;
    Ok(put(page, listed, b'\n'))
}

/// Appends the rows of a set; an `Err` leaves some of their front appended.
///
/// Linear in its bytes and in the words of its table.
pub fn write_rows(out: &mut Bytes, set: &PairSet) -> Result<(), Memory>
    ensures ok { OnOk result (out.new ≡ out.old ++ written (set_lines (rows_of set.now))) }
    ensures err { OnErr result (AppendsFront out.old out.new (written (set_lines (rows_of set.now)))) }
{
    let mut page = [0; PAGE];
    let mut at = 0;
    'rows: for state in 0..set.high() {
        at = put_row(out, &mut page, at, set, state)?;
    }
    out.extend(&page[..at])?;
    Ok(())
}
