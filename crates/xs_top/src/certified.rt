ghost use Rattle.std.specs.Prelude.{◌≡◌, IfOk, OnOk, IfErr};
ghost use Rattle.xs_io.specs.{IsFile};
ghost use Rattle.xs_pair.specs.{IsSoundPair};
ghost use Rattle.xs_words.specs.{sheet_meant};
ghost use Rattle.xs_top.specs.Checks.{IsSure};
ghost use Rattle.xs_top.specs.Devices.{shelves_of};
ghost use Rattle.xs_top.specs.Certifying.{HasCertificate, IsCertified, IsUnshown, IsUncertain, IsUncertified};
ghost use Rattle.xs_top.specs.Stops.{StopsBy};

use crate::sheets::pair_for;
use crate::stop::Stop;
use std::alloc::Global;
use xs_cert::{certify, weigh};
use xs_class::Bytes;
use xs_io::{ReadStop, Shelf, read_file};
use xs_pair::Two;
use xs_talk::{Outcome, accepted_line};
use xs_words::SheetName;

/// How many bytes a certificate may have.
pub const CERTIFICATE_LIMIT: usize = 268_435_456;

/// The bytes of the certificate in the file of this name.
fn certificate<H: Shelf>(alloc: Global, shelf: &mut H, name: &str) -> Result<Bytes, Stop>
    ensures bytes { IfOk result (λ bytes. IsFile (H.files shelf.old) name.now bytes 268435456) }
    ensures files { H.files shelf.new ≡ H.files shelf.old }
    ensures stop { IfErr result (StopsBy (IsUnshown (shelves_of H.files H.faults H.name_faults shelf.old shelf.new)
        name.now)) }
{
    match read_file(alloc, shelf, name, CERTIFICATE_LIMIT) {
        Ok(bytes) => Ok(bytes),
        Err(ReadStop::ReadFault) => Err(Stop::Refused(Outcome::CertFault)),
        Err(ReadStop::TooLong) => Err(Stop::Refused(Outcome::CertLong)),
        Err(ReadStop::Memory) => Err(Stop::Memory),
    }
}

/// Makes sure that the file of this name is a certificate of the two grammars of a sheet. It is read
/// only where no rule of them is too heavy.
fn tested<H: Shelf>(alloc: Global, two: &Two, shelf: &mut H, cert: &str) -> Result<(), Stop>
    requires sound { IsSoundPair two.now }
    ensures certificate { OnOk result (HasCertificate (H.files shelf.old) cert.now two.now) }
    ensures sure { OnOk result (IsSure two.now) }
    ensures files { H.files shelf.new ≡ H.files shelf.old }
    ensures stop { IfErr result (StopsBy (IsUncertain two.now
        (shelves_of H.files H.faults H.name_faults shelf.old shelf.new) cert.now)) }
{
    weigh(alloc, two)?;
    let bytes = certificate(alloc, shelf, cert)?;
    certify(alloc, two, bytes.as_slice())?;
    Ok(())
}

/// What is said of a sheet, once the certificate in the file of this name shows that it is accepted.
pub fn certified<H: Shelf>(
    alloc: Global,
    shelf: &mut H,
    sheet: SheetName<'_>,
    cert: &str,
) -> Result<Bytes, Stop>
    ensures answer { IfOk result (IsCertified (H.files shelf.old) (sheet_meant sheet.entry) cert.now) }
    ensures files { H.files shelf.new ≡ H.files shelf.old }
    ensures stop { IfErr result (StopsBy (IsUncertified (shelves_of H.files H.faults H.name_faults shelf.old shelf.new)
        (sheet_meant sheet.entry) cert.now)) }
{
    let two = pair_for(alloc, shelf, sheet)?;
    tested(alloc, &two, shelf, cert)?;
    let line = accepted_line(alloc, &two)?;
    Ok(line)
}
