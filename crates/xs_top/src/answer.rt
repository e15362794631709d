ghost use Rattle.std.specs.Prelude.{IfOk, IfErr};
ghost use Rattle.xs_class.specs.declared.side.Side.TheVariants as S;
ghost use Rattle.xs_pair.specs.{IsSoundPair};
ghost use Rattle.xs_writing_laws.specs.{CanBeWritten};
ghost use Rattle.xs_top.specs.declared.asking.Job.TheVariants as J;
ghost use Rattle.xs_top.specs.Meaning.{HasLines};
ghost use Rattle.xs_top.specs.Devices.{input_of};
ghost use Rattle.xs_top.specs.Ran.{IsAnswer, IsUndone, IsUntaken, Takes, TakesFew, ReadsFor};
ghost use Rattle.xs_top.specs.Stops.{StopsBy};

use crate::asking::Job;
use crate::checked::{checked, refused};
use crate::covered::covered;
use crate::listed::listed;
use crate::outlined::{made_of_outline, outlined};
use crate::played::played;
use crate::stop::Stop;
use crate::turned::{turned_into, turned_text};
use std::alloc::Global;
use xs_cert::prove;
use xs_chars::Form;
use xs_class::{Bytes, Side};
use xs_io::{ReadStop, Source, read_all};
use xs_leiden::make_text;
use xs_pair::Two;
use xs_talk::{Outcome, accepted_line, summary};
use xs_tree::parts_of;

/// How many bytes a document that is read may have.
pub const DOCUMENT_LIMIT: usize = 1_048_576;

/// The bytes of the input.
fn taken<S: Source>(alloc: Global, input: &mut S) -> Result<Bytes, Stop>
    ensures all { IfOk result (Takes (input_of S.left S.faults input.old input.new)) }
    ensures stop { IfErr result (StopsBy (IsUntaken (input_of S.left S.faults input.old input.new))) }
    ensures few { TakesFew (input_of S.left S.faults input.old input.new) }
{
    match read_all(alloc, input, DOCUMENT_LIMIT) {
        Ok(bytes) => Ok(bytes),
        Err(ReadStop::ReadFault) => Err(Stop::Refused(Outcome::ReadFault)),
        Err(ReadStop::TooLong) => Err(Stop::Refused(Outcome::DocLong)),
        Err(ReadStop::Memory) => Err(Stop::Memory),
    }
}

/// What is said of the sheet, once it is accepted.
fn check<S: Source>(alloc: Global, two: &Two, input: &mut S) -> Result<Bytes, Stop>
    requires sound { IsSoundPair two.now }
    ensures answer { IfOk result (IsAnswer two.now (input_of S.left S.faults input.old input.new) J.Check) }
    ensures stop { IfErr result (StopsBy (IsUndone two.now (input_of S.left S.faults input.old input.new) J.Check)) }
    ensures reads { ReadsFor J.Check (input_of S.left S.faults input.old input.new) }
{
    checked(alloc, two)?;
    let line = accepted_line(alloc, two)?;
    Ok(line)
}

/// The document on side `to` with the tree of the input, once the sheet is accepted.
fn turn<S: Source>(
    alloc: Global,
    two: &Two,
    from: Side,
    to: Side,
    form: Form,
    input: &mut S,
) -> Result<Bytes, Stop>
    requires sound { IsSoundPair two.now }
    requires writable { CanBeWritten two.now }
    ensures answer { IfOk result (IsAnswer two.now (input_of S.left S.faults input.old input.new) (J.Turn from to form)) }
    ensures stop { IfErr result (StopsBy (IsUndone two.now (input_of S.left S.faults input.old input.new) (J.Turn from to form))) }
    ensures reads { ReadsFor (J.Turn from to form) (input_of S.left S.faults input.old input.new) }
{
    checked(alloc, two)?;
    let bytes = taken(alloc, input)?;
    turned_into(alloc, two, from, to, form, bytes.as_slice())
}

/// The listing of at most `max` derivations of the input.
fn list<S: Source>(alloc: Global, two: &Two, max: u32, input: &mut S) -> Result<Bytes, Stop>
    requires sound { IsSoundPair two.now }
    ensures answer { IfOk result (IsAnswer two.now (input_of S.left S.faults input.old input.new) (J.Trees max)) }
    ensures stop { IfErr result (StopsBy (IsUndone two.now (input_of S.left S.faults input.old input.new) (J.Trees max))) }
    ensures reads { ReadsFor (J.Trees max) (input_of S.left S.faults input.old input.new) }
{
    let bytes = taken(alloc, input)?;
    listed(alloc, two, max, bytes.as_slice())
}

/// The summary of a text that is made of a seed, once the sheet is accepted.
fn make<S: Source>(
    alloc: Global,
    two: &Two,
    seed: u32,
    lines: u32,
    input: &mut S,
) -> Result<Bytes, Stop>
    requires sound { IsSoundPair two.now }
    requires writable { CanBeWritten two.now }
    requires lines { HasLines (J.Make seed lines) }
    ensures answer { IfOk result (IsAnswer two.now (input_of S.left S.faults input.old input.new) (J.Make seed lines)) }
    ensures stop { IfErr result (StopsBy (IsUndone two.now (input_of S.left S.faults input.old input.new) (J.Make seed lines))) }
    ensures reads { ReadsFor (J.Make seed lines) (input_of S.left S.faults input.old input.new) }
{
    checked(alloc, two)?;
    let text = make_text(alloc, seed, lines)?;
    let turned = turned_text(alloc, two, text.as_slice())?;
    let parts = parts_of(alloc, &turned.tree)?;
    let line = summary(
        alloc,
        lines,
        text.len() as u64,
        turned.xml.len() as u64,
        parts,
    )?;
    Ok(line)
}

/// The answers of the edit script that is the input, once the sheet is accepted.
fn session<S: Source>(alloc: Global, two: &Two, input: &mut S) -> Result<Bytes, Stop>
    requires sound { IsSoundPair two.now }
    ensures answer { IfOk result (IsAnswer two.now (input_of S.left S.faults input.old input.new) J.Session) }
    ensures stop { IfErr result (StopsBy (IsUndone two.now (input_of S.left S.faults input.old input.new) J.Session)) }
    ensures reads { ReadsFor J.Session (input_of S.left S.faults input.old input.new) }
{
    checked(alloc, two)?;
    let bytes = taken(alloc, input)?;
    played(alloc, two, bytes.as_slice())
}

/// The outline of the tree of the input, once the sheet is accepted.
fn to_tree<S: Source>(
    alloc: Global,
    two: &Two,
    from: Side,
    form: Form,
    input: &mut S,
) -> Result<Bytes, Stop>
    requires sound { IsSoundPair two.now }
    ensures answer { IfOk result (IsAnswer two.now (input_of S.left S.faults input.old input.new) (J.ToTree from form)) }
    ensures stop { IfErr result (StopsBy (IsUndone two.now (input_of S.left S.faults input.old input.new) (J.ToTree from form))) }
    ensures reads { ReadsFor (J.ToTree from form) (input_of S.left S.faults input.old input.new) }
{
    checked(alloc, two)?;
    let bytes = taken(alloc, input)?;
    outlined(alloc, two, from, form, bytes.as_slice())
}

/// The document on side `to` with the tree of the outline that is the input, once the sheet is
/// accepted.
fn from_tree<S: Source>(alloc: Global, two: &Two, to: Side, input: &mut S) -> Result<Bytes, Stop>
    requires sound { IsSoundPair two.now }
    requires writable { CanBeWritten two.now }
    ensures answer { IfOk result (IsAnswer two.now (input_of S.left S.faults input.old input.new) (J.FromTree to)) }
    ensures stop { IfErr result (StopsBy (IsUndone two.now (input_of S.left S.faults input.old input.new) (J.FromTree to))) }
    ensures reads { ReadsFor (J.FromTree to) (input_of S.left S.faults input.old input.new) }
{
    checked(alloc, two)?;
    let bytes = taken(alloc, input)?;
    made_of_outline(alloc, two, to, bytes.as_slice())
}

/// A smallest document pair for each production of the sheet, which need not be accepted.
fn show<S: Source>(alloc: Global, two: &Two, input: &mut S) -> Result<Bytes, Stop>
    requires sound { IsSoundPair two.now }
    ensures answer { IfOk result (IsAnswer two.now (input_of S.left S.faults input.old input.new) J.Cover) }
    ensures stop { IfErr result (StopsBy (IsUndone two.now (input_of S.left S.faults input.old input.new) J.Cover)) }
    ensures reads { ReadsFor J.Cover (input_of S.left S.faults input.old input.new) }
{
    let lines = covered(alloc, two)?;
    Ok(lines)
}

/// The certificate that the sheet is accepted.
fn proved<S: Source>(alloc: Global, two: &Two, input: &mut S) -> Result<Bytes, Stop>
    requires sound { IsSoundPair two.now }
    ensures answer { IfOk result (IsAnswer two.now (input_of S.left S.faults input.old input.new) J.Prove) }
    ensures stop { IfErr result (StopsBy (IsUndone two.now (input_of S.left S.faults input.old input.new) J.Prove)) }
    ensures reads { ReadsFor J.Prove (input_of S.left S.faults input.old input.new) }
{
    match prove(alloc, two) {
        Ok(certificate) => Ok(certificate),
        Err(fault) => Err(refused(alloc, two, fault)?),
    }
}

/// The answer of a job by the two grammars of a sheet.
pub fn answer_of<S: Source>(
    alloc: Global,
    two: &Two,
    job: Job,
    input: &mut S,
) -> Result<Bytes, Stop>
    requires sound { IsSoundPair two.now }
    requires writable { CanBeWritten two.now }
    requires lines { HasLines job }
    ensures answer { IfOk result (IsAnswer two.now (input_of S.left S.faults input.old input.new) job) }
    ensures stop { IfErr result (StopsBy (IsUndone two.now (input_of S.left S.faults input.old input.new) job)) }
    ensures reads { ReadsFor job (input_of S.left S.faults input.old input.new) }
{
    match job {
        Job::Check => check(alloc, two, input),
        Job::Turn { from, to, form } => turn(alloc, two, from, to, form, input),
        Job::Trees { max } => list(alloc, two, max, input),
        Job::Make { seed, lines } => make(alloc, two, seed, lines, input),
        Job::Session => session(alloc, two, input),
        Job::ToTree { from, form } => to_tree(alloc, two, from, form, input),
        Job::FromTree { to } => from_tree(alloc, two, to, input),
        Job::Cover => show(alloc, two, input),
        Job::Prove => proved(alloc, two, input),
    }
}
