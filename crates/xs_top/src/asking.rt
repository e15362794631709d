ghost use Rattle.std.specs.Prelude.{◌≡◌, IfOk, IfErr};
ghost use Rattle.xs_words.specs.{meant, sheet_meant, HasLines as AsksForLines};
ghost use Rattle.xs_top.specs.declared.asking.Job.TheVariants as J;
ghost use Rattle.xs_top.specs.Asked.{ask_of, by};
ghost use Rattle.xs_top.specs.Devices.{shelves_of};
ghost use Rattle.xs_top.specs.Meaning.{HasLines, CanBeDone};
ghost use Rattle.xs_top.specs.Ran.{IsBegun, IsRefused};
ghost use Rattle.xs_top.specs.Stops.{StopsBy};

use crate::certified::certified;
use crate::sheets::{pair_for, upgrade_for};
use crate::stop::Stop;
use std::alloc::Global;
use xs_chars::Form;
use xs_class::{Bytes, Side};
use xs_io::Shelf;
use xs_leiden::{leiden_sheet, leiden2_sheet};
use xs_pair::Two;
use xs_words::{Command, SheetName};

/// What is to be done by a sheet.
#[derive(Clone, Copy)]
pub enum Job {
    /// The sheet is checked.
    Check,
    /// A document of one side is read, a text in this form, and a document of the other or of the
    /// same side with the same tree is written.
    Turn { from: Side, to: Side, form: Form },
    /// At most `max` derivations of a text are listed.
    Trees { max: u32 },
    /// A text of `lines` lines is made of a seed and turned to XML, and a summary of it is written.
    Make { seed: u32, lines: u32 },
    /// An edit script is read, played and answered.
    Session,
    /// A document of one side is read, a text in this form, and the outline of its tree is written.
    ToTree { from: Side, form: Form },
    /// An outline is read, and the document of its tree on a side is written.
    FromTree { to: Side },
    /// A smallest document pair is shown for each production.
    Cover,
    /// A certificate that the sheet is accepted is written.
    Prove,
}

/// What comes of a command by its sheet alone.
#[derive(Drop)]
pub enum Begun {
    /// The answer.
    Answer(Bytes),
    /// The two grammars of the sheet, and the job that is to be done by them.
    By { two: Two, job: Job },
}

fn turning(from: Side, to: Side, form: Form) -> Job
    ensures { result ≡ J.Turn from to form }
{
    Job::Turn { from, to, form }
}

/// The job by a sheet, begun.
fn begun_by<H: Shelf>(
    alloc: Global,
    shelf: &mut H,
    sheet: SheetName<'_>,
    job: Job,
) -> Result<Begun, Stop>
    requires lines { HasLines job }
    ensures begun { IfOk result (IsBegun (H.files shelf.old) (by (sheet_meant sheet.entry) job)) }
    ensures can { IfOk result CanBeDone }
    ensures files { H.files shelf.new ≡ H.files shelf.old }
    ensures stop { IfErr result (StopsBy (IsRefused (shelves_of H.files H.faults H.name_faults shelf.old shelf.new)
        (by (sheet_meant sheet.entry) job))) }
{
    let two = pair_for(alloc, shelf, sheet)?;
    Ok(Begun::By { two, job })
}

/// A command, begun: what it asks of its sheet is done. Nothing of the input is read.
pub fn begin<H: Shelf>(alloc: Global, shelf: &mut H, command: Command<'_>) -> Result<Begun, Stop>
    requires lines { AsksForLines command }
    ensures begun { IfOk result (IsBegun (H.files shelf.old) (ask_of (meant command.entry))) }
    ensures can { IfOk result CanBeDone }
    ensures files { H.files shelf.new ≡ H.files shelf.old }
    ensures stop { IfErr result (StopsBy (IsRefused (shelves_of H.files H.faults H.name_faults shelf.old shelf.new)
        (ask_of (meant command.entry)))) }
{
    let (sheet, job) = match command {
        Command::Check { sheet } => (sheet, Job::Check),
        Command::ToXml { sheet, form } => (sheet, turning(Side::Text, Side::Xml, form)),
        Command::ToText { sheet } => (sheet, turning(Side::Xml, Side::Text, Form::AsIs)),
        Command::RoundText { sheet, form } => (sheet, turning(Side::Text, Side::Text, form)),
        Command::RoundXml { sheet } => (sheet, turning(Side::Xml, Side::Xml, Form::AsIs)),
        Command::Trees { sheet, max } => (sheet, Job::Trees { max }),
        Command::PrintSheet => {
            let answer = Bytes::of(alloc, leiden_sheet())?;
            return Ok(Begun::Answer(answer));
        }
        Command::PrintSheet2 => {
            let answer = Bytes::of(alloc, leiden2_sheet())?;
            return Ok(Begun::Answer(answer));
        }
        Command::Upgrade { sheet } => {
            let answer = upgrade_for(alloc, shelf, sheet)?;
            return Ok(Begun::Answer(answer));
        }
        Command::Prove { sheet } => (sheet, Job::Prove),
        Command::CheckCert { sheet, cert } => {
            let answer = certified(alloc, shelf, sheet, cert)?;
            return Ok(Begun::Answer(answer));
        }
        Command::Make { seed, lines } => (SheetName::Leiden, Job::Make { seed, lines }),
        Command::Session { sheet } => (sheet, Job::Session),
        Command::ToTree { sheet, side, form } => (sheet, Job::ToTree { from: side, form }),
        Command::FromTree { sheet, side } => (sheet, Job::FromTree { to: side }),
        Command::Cover { sheet } => (sheet, Job::Cover),
    };
    begun_by(alloc, shelf, sheet, job)
}
