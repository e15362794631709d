ghost use Rattle.std.specs.Prelude.{◌≡◌, None, IfOk, IfErr};
ghost use Rattle.xs_leiden.specs.Sheet.{leiden_core, leiden_core_2};
ghost use Rattle.xs_pair.specs.{IsSoundPair};
ghost use Rattle.xs_writing_laws.specs.{CanBeWritten};
ghost use Rattle.xs_top.specs.Sheets.{IsPairOfBytes};
ghost use Rattle.xs_top.specs.Stops.{StopsBy};
ghost use Rattle.xs_c.specs.Sheets.{IsOpened, IsNoSheet};

use crate::answer::{Answer, MEMORY, no_names, refuse, tell};
use crate::kept::Kept;
use crate::sheet::Sheet;
use std::alloc::Global;
use xs_class::Bytes;
use xs_leiden::{leiden_sheet, leiden2_sheet};
use xs_pair::Two;
use xs_talk::Outcome;
use xs_top::{SHEET_LIMIT, Stop, check, writable_pair_of};

/// The two grammars of the well-formed sheet that the bytes spell.
fn pair(alloc: Global, bytes: &[u8]) -> Result<Two, Stop>
    ensures pair { IfOk result (IsPairOfBytes bytes.now) }
    ensures sound { IfOk result IsSoundPair }
    ensures writable { IfOk result CanBeWritten }
    ensures stop { IfErr result (StopsBy (IsNoSheet bytes.now)) }
{
    if bytes.len() > SHEET_LIMIT {
        return Err(Stop::Refused(Outcome::SheetLong));
    }
    writable_pair_of(alloc, bytes)
}

/// Opens the sheet that the bytes spell, where it is accepted.
fn open(alloc: Global, bytes: &[u8], sheet: &mut Sheet, answer: &mut Answer) -> u32
    ensures { IsOpened bytes.now sheet.new.held.kept answer.old answer.new result }
{
    drop(sheet.take(alloc));
    let Ok(none) = no_names(alloc) else {
        return MEMORY;
    };
    let two = match pair(alloc, bytes) {
        Ok(two) => two,
        Err(Stop::Refused(outcome)) => return refuse(alloc, &outcome, &none, answer),
        Err(Stop::Memory) => return MEMORY,
    };
    match check(alloc, &two) {
        Ok(()) => {}
        Err(Stop::Refused(outcome)) => return refuse(alloc, &outcome, two.names(), answer),
        Err(Stop::Memory) => return MEMORY,
    }
    let Ok(kept) = Box::new(alloc, Kept::of(two)) else {
        return MEMORY;
    };
    *sheet = Sheet::opened(kept);
    tell(answer, &Outcome::Done, Bytes::new(alloc))
}

/// Opens the sheet that the bytes spell, where it is accepted; what was open there is closed first.
#[unsafe(no_mangle)]
pub extern "C" fn xsugar_sheet_open(
    alloc: Global,
    bytes: &[u8],
    sheet: &mut Sheet,
    answer: &mut Answer,
) -> u32
    ensures { IsOpened bytes.now sheet.new.held.kept answer.old answer.new result }
{
    open(alloc, bytes, sheet, answer)
}

/// Opens the first shipped sheet, as `@leiden` names it.
#[unsafe(no_mangle)]
pub extern "C" fn xsugar_sheet_leiden(alloc: Global, sheet: &mut Sheet, answer: &mut Answer) -> u32
    ensures { IsOpened leiden_core sheet.new.held.kept answer.old answer.new result }
{
    open(alloc, leiden_sheet(), sheet, answer)
}

/// Opens the second shipped sheet, as `@leiden2` names it.
#[unsafe(no_mangle)]
pub extern "C" fn xsugar_sheet_leiden2(alloc: Global, sheet: &mut Sheet, answer: &mut Answer) -> u32
    ensures { IsOpened leiden_core_2 sheet.new.held.kept answer.old answer.new result }
{
    open(alloc, leiden2_sheet(), sheet, answer)
}

/// Closes a sheet; one that is closed stays so.
#[unsafe(no_mangle)]
pub extern "C" fn xsugar_sheet_close(alloc: Global, sheet: &mut Sheet)
    ensures { sheet.new.held.kept ≡ None }
{
    drop(sheet.take(alloc));
}
