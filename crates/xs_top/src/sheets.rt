ghost use Rattle.std.specs.Prelude.{◌≡◌, ◌≤◌, ℕ, List, length, IfOk, IfErr};
ghost use Rattle.xs_pair.specs.{IsSoundPair};
ghost use Rattle.xs_words.specs.{sheet_meant};
ghost use Rattle.xs_writing_laws.specs.{CanBeWritten};
ghost use Rattle.xs_top.specs.Devices.{shelves_of};
ghost use Rattle.xs_top.specs.Sheets.{AreBytesOf, IsStopped, IsPairOfBytes, IsUpgradeOfBytes, IsBadBytes, SpellsPair, SpellsUpgrade, IsUnpaired};
ghost use Rattle.xs_top.specs.Stops.{StopsBy};

use crate::stop::Stop;
use std::alloc::Global;
use xs_class::Bytes;
use xs_io::{ReadStop, Shelf, read_file};
use xs_leiden::{leiden_sheet, leiden2_sheet};
use xs_pair::{Two, upgrade};
use xs_sheet::{read_sheet, write_sheet};
use xs_talk::Outcome;
use xs_wf::well_formed;
use xs_words::SheetName;
use xs_writing_laws::words_can_be_written;

/// How many bytes a sheet may have.
pub const SHEET_LIMIT: usize = 65_536;

/// The bytes of a sheet.
#[tactic(auto, using(crate::proofs::Certifying::falls_nowhere))]
fn sheet_bytes<H: Shelf>(alloc: Global, shelf: &mut H, sheet: SheetName<'_>) -> Result<Bytes, Stop>
    ensures bytes { IfOk result (AreBytesOf (H.files shelf.old) (sheet_meant sheet.entry)) }
    ensures files { H.files shelf.new ≡ H.files shelf.old }
    ensures later { H.faults shelf.old ≤ H.faults shelf.new }
    ensures name_later { (name : List ℕ) → H.name_faults shelf.old name ≤ H.name_faults shelf.new name }
    ensures stop { IfErr result (StopsBy (IsStopped (shelves_of H.files H.faults H.name_faults shelf.old shelf.new)
        (sheet_meant sheet.entry))) }
{
    match sheet {
        SheetName::Leiden => {
            let bytes = Bytes::of(alloc, leiden_sheet())?;
            Ok(bytes)
        }
        SheetName::Leiden2 => {
            let bytes = Bytes::of(alloc, leiden2_sheet())?;
            Ok(bytes)
        }
        SheetName::File(name) => match read_file(alloc, shelf, name, SHEET_LIMIT) {
            Ok(bytes) => Ok(bytes),
            Err(ReadStop::ReadFault) => Err(Stop::Refused(Outcome::SheetFault)),
            Err(ReadStop::TooLong) => Err(Stop::Refused(Outcome::SheetLong)),
            Err(ReadStop::Memory) => Err(Stop::Memory),
        },
    }
}

/// The two grammars of the sheet that the bytes spell.
pub fn pair_of(alloc: Global, bytes: &[u8]) -> Result<Two, Stop>
    requires { length bytes.now ≤ 65536 }
    ensures pair { IfOk result (IsPairOfBytes bytes.now) }
    ensures sound { IfOk result IsSoundPair }
    ensures stop { IfErr result (StopsBy (IsBadBytes bytes.now)) }
{
    let sheet = read_sheet(alloc, bytes)?;
    let two = well_formed(alloc, &sheet)?;
    Ok(two)
}

/// The two grammars of the sheet that the bytes spell, whose documents can be written.
pub fn writable_pair_of(alloc: Global, bytes: &[u8]) -> Result<Two, Stop>
    requires { length bytes.now ≤ 65536 }
    ensures pair { IfOk result (IsPairOfBytes bytes.now) }
    ensures sound { IfOk result IsSoundPair }
    ensures writable { IfOk result CanBeWritten }
    ensures stop { IfErr result (StopsBy (IsBadBytes bytes.now)) }
{
    words_can_be_written();
    pair_of(alloc, bytes)
}

/// The two grammars of a sheet.
pub fn pair_for<H: Shelf>(alloc: Global, shelf: &mut H, sheet: SheetName<'_>) -> Result<Two, Stop>
    ensures pair { IfOk result (SpellsPair (H.files shelf.old) (sheet_meant sheet.entry)) }
    ensures files { H.files shelf.new ≡ H.files shelf.old }
    ensures later { H.faults shelf.old ≤ H.faults shelf.new }
    ensures name_later { (name : List ℕ) → H.name_faults shelf.old name ≤ H.name_faults shelf.new name }
    ensures sound { IfOk result IsSoundPair }
    ensures writable { IfOk result CanBeWritten }
    ensures stop { IfErr result (StopsBy (IsUnpaired (shelves_of H.files H.faults H.name_faults shelf.old shelf.new)
        (sheet_meant sheet.entry))) }
{
    words_can_be_written();
    let bytes = sheet_bytes(alloc, shelf, sheet)?;
    pair_of(alloc, bytes.as_slice())
}

/// The upgrade of the well-formed sheet that the bytes spell, as it is written.
fn upgrade_of(alloc: Global, bytes: &[u8]) -> Result<Bytes, Stop>
    requires { length bytes.now ≤ 65536 }
    ensures upgrade { IfOk result (IsUpgradeOfBytes bytes.now) }
    ensures stop { IfErr result (StopsBy (IsBadBytes bytes.now)) }
{
    let sheet = read_sheet(alloc, bytes)?;
    well_formed(alloc, &sheet)?;
    let upgraded = upgrade(alloc, &sheet)?;
    let written = write_sheet(alloc, &upgraded)?;
    Ok(written)
}

/// The upgrade of a sheet, as it is written.
pub fn upgrade_for<H: Shelf>(
    alloc: Global,
    shelf: &mut H,
    sheet: SheetName<'_>,
) -> Result<Bytes, Stop>
    ensures upgrade { IfOk result (SpellsUpgrade (H.files shelf.old) (sheet_meant sheet.entry)) }
    ensures files { H.files shelf.new ≡ H.files shelf.old }
    ensures stop { IfErr result (StopsBy (IsUnpaired (shelves_of H.files H.faults H.name_faults shelf.old shelf.new)
        (sheet_meant sheet.entry))) }
{
    let bytes = sheet_bytes(alloc, shelf, sheet)?;
    upgrade_of(alloc, bytes.as_slice())
}
