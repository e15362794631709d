ghost use Rattle.std.specs.Prelude.{◌≡◌};
ghost use Rattle.xs_top.specs.Ran.{status_of};

use xs_talk::Outcome;

/// The status that the program ends with.
pub fn status(outcome: &Outcome) -> u8
    ensures { result ≡ status_of outcome.now }
{
    match outcome {
        Outcome::Done => 0,
        Outcome::Foreign { .. } => 1,
        Outcome::SheetLong
        | Outcome::SheetBad { .. }
        | Outcome::SheetIll(_)
        | Outcome::Heavy { .. } => 2,
        Outcome::Suspect(_) => 3,
        Outcome::NotUtf8 { .. } | Outcome::NotXml { .. } => 4,
        Outcome::Usage => 5,
        Outcome::SheetFault
        | Outcome::ReadFault
        | Outcome::CertFault
        | Outcome::WriteFault { .. }
        | Outcome::NoteFault { .. } => 6,
        Outcome::DocLong | Outcome::CertLong => 7,
        Outcome::CertBad { .. } => 9,
        Outcome::ScriptBad { .. } => 10,
        Outcome::OutlineBad { .. } => 11,
    }
}
