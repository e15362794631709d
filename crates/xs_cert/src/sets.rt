// The rows of the sets of a block.
ghost use Rattle.std.specs.Prelude.{◌≡◌, ◌+◌, ◌<◌, ◌≤◌, false, IfOk, IfSome};
ghost use Rattle.xs_auto.specs.{states};
ghost use Rattle.xs_meet.specs.{Marked};
ghost use Rattle.xs_closed.specs.{marked};
ghost use Rattle.xs_cert_lines.specs.{IsLine, begins_digit};
ghost use Rattle.xs_cert_laws.specs.{ShowsApart};
ghost use Rattle.xs_cert.specs.Places.{IsPlace};
ghost use Rattle.xs_cert.specs.Rows.{AreRowsAt, IsRowsReading};
ghost use Rattle.xs_cert.specs.Steps.{part_of as part, IsTitledSet, AreFirstSets, IsCutReading};

use crate::place::{Place, Reading};
use crate::titles::title;
use xs_auto::Net;
use xs_cert_lines::read_rows;
use xs_class::Memory;
use xs_closed::{CutSets, PairSet, longest_apart, longest_clear, rows_are_marks};

/// Reads rows into a set with these bounds, as many as stand at the place.
fn read_set(
    bytes: &[u8],
    place: Place,
    high: u32,
    wide: u32,
    set: &mut PairSet,
) -> Result<Place, Memory>
    requires { IsPlace bytes.now place }
    ensures { IfOk result (λ end. AreRowsAt bytes.now place high wide end set.new) }
{
    set.reset(high, wide)?;
    let run = read_rows(bytes, place.byte, set);
    Ok(Place {
        byte: run.end,
        lines: place.lines + run.count,
    })
}

/// Reads rows into a set with these bounds, and the title after them.
fn titled_set(
    bytes: &[u8],
    place: Place,
    line: &[u8],
    high: u32,
    wide: u32,
    set: &mut PairSet,
) -> Result<Option<Place>, Memory>
    requires place { IsPlace bytes.now place }
    requires line { IsLine line.now }
    requires word { begins_digit line.now ≡ false }
    ensures { IfOk result (IsTitledSet bytes.now place line.now high wide set.new) }
{
    rows_are_marks();
    let end = read_set(bytes, place, high, wide, set)?;
    Ok(title(bytes, end, line))
}

/// How far rows were read of which that many are right.
fn part_of(start: Place, end: Place, right: Option<u32>) -> Option<Reading>
    requires { IfSome right (λ n. start.lines + n ≤ end.lines) }
    ensures { result ≡ part start end right }
{
    let right = right?;
    let lines = start.lines + u64::from(right);
    if lines == end.lines {
        Some(Reading::Whole(end))
    } else {
        Some(Reading::Broken { lines })
    }
}

/// Reads the set of a block for two nets, as far as it shows that they share no word.
pub fn read_apart(
    bytes: &[u8],
    place: Place,
    related: &PairSet,
    m: &Net,
    n: &Net,
    set: &mut PairSet,
) -> Result<Option<Reading>, Memory>
    requires { IsPlace bytes.now place }
    ensures { IfOk result (IsRowsReading (ShowsApart (Marked (marked related.now)) m.now n.now) bytes.now place) }
{
    rows_are_marks();
    let end = read_set(bytes, place, m.len(), n.len(), set)?;
    let right = longest_apart(related, m, n, set);
    Ok(part_of(place, end, right))
}

/// Reads the first three sets of a cut, with the titles before them and that of the fourth.
fn first_sets(
    bytes: &[u8],
    place: Place,
    front: u32,
    rest: u32,
    sets: &mut CutSets,
) -> Result<Option<Place>, Memory>
    requires { IsPlace bytes.now place }
    ensures { IfOk result (AreFirstSets bytes.now place front rest sets.new) }
{
    let Some(fronts) = title(bytes, place, b"set 1") else {
        return Ok(None);
    };
    let Some(pauses) = titled_set(bytes, fronts, b"set 0", front, front, &mut sets.fronts)? else {
        return Ok(None);
    };
    let Some(middles) = titled_set(bytes, pauses, b"set 2", front, rest, &mut sets.pauses)? else {
        return Ok(None);
    };
    titled_set(bytes, middles, b"set 3", front, rest, &mut sets.middles)
}

/// Reads the sets of a cut, the last as far as they show that there is no overlap.
pub fn read_clear(
    bytes: &[u8],
    place: Place,
    related: &PairSet,
    front: &Net,
    rest: &Net,
    sets: &mut CutSets,
) -> Result<Option<Reading>, Memory>
    requires { IsPlace bytes.now place }
    ensures { IfOk result (IsCutReading (Marked (marked related.now)) front.now rest.now bytes.now place) }
{
    rows_are_marks();
    let Some(rests) = first_sets(bytes, place, front.len(), rest.len(), sets)? else {
        return Ok(None);
    };
    let end = read_set(bytes, rests, rest.len(), rest.len(), &mut sets.rests)?;
    let right = longest_clear(related, front, rest, sets);
    Ok(part_of(rests, end, right))
}
