ghost use Rattle.std.specs.Prelude.{◌≡◌, [], IfOk};
ghost use Rattle.xs_c.specs.Answers.{kind_of, place_of, line_in, IsTold, IsRefusal};

use std::alloc::Global;
use xs_class::{Bytes, Memory, Names};
use xs_talk::{Outcome, Report, line_of};
use xs_top::status;

/// The status of want of memory.
pub const MEMORY: u32 = 8;

/// The status of a call by a sheet that is not open.
pub const NOT_OPEN: u32 = 12;

/// What a call tells C: the bytes of an answer, or of the line that reports why there is none; and
/// of an outcome its number and the number that it tells.
#[repr(C)]
#[derive(Clone, Copy)]
pub struct Answer {
    pub bytes: &'static [u8],
    pub place: u64,
    pub kind: u32,
}

/// The number by which C knows an outcome.
fn kind(outcome: &Outcome) -> u32
    ensures { result ≡ kind_of outcome.now }
{
    match outcome {
        Outcome::Done => 0,
        Outcome::Foreign { .. } => 1,
        Outcome::SheetLong => 2,
        Outcome::SheetBad { .. } => 3,
        Outcome::SheetIll(_) => 4,
        Outcome::Heavy { .. } => 5,
        Outcome::Suspect(_) => 6,
        Outcome::NotUtf8 { .. } => 7,
        Outcome::NotXml { .. } => 8,
        Outcome::Usage => 9,
        Outcome::SheetFault => 10,
        Outcome::ReadFault => 11,
        Outcome::WriteFault { .. } => 12,
        Outcome::NoteFault { .. } => 13,
        Outcome::DocLong => 14,
        Outcome::ScriptBad { .. } => 15,
        Outcome::OutlineBad { .. } => 16,
        Outcome::CertFault => 17,
        Outcome::CertLong => 18,
        Outcome::CertBad { .. } => 19,
    }
}

/// The line of a suspect's first production.
fn line(report: &Report) -> u32
    ensures { result ≡ line_in report.now }
{
    match report {
        Report::Vertical { line, .. } | Report::Horizontal { line, .. } => *line,
    }
}

/// The number that an outcome tells: a place, a line, a weight, or how many bytes were written; 0
/// where it tells none.
fn place(outcome: &Outcome) -> u64
    ensures { result ≡ place_of outcome.now }
{
    match outcome {
        Outcome::Foreign { viable } => *viable,
        Outcome::SheetBad { at } | Outcome::NotUtf8 { at } | Outcome::NotXml { at } => *at,
        Outcome::SheetIll(ill) => ill.line as u64,
        Outcome::Heavy { weight } => *weight,
        Outcome::Suspect(report) => line(report) as u64,
        Outcome::WriteFault { written } | Outcome::NoteFault { written, .. } => *written,
        Outcome::ScriptBad { line } | Outcome::OutlineBad { line } | Outcome::CertBad { line } =>
            *line,
        Outcome::Done
        | Outcome::SheetLong
        | Outcome::Usage
        | Outcome::SheetFault
        | Outcome::ReadFault
        | Outcome::DocLong
        | Outcome::CertFault
        | Outcome::CertLong => 0,
    }
}

/// The bytes as a block that is C's to free, or as no block where there are none.
fn handed(bytes: Bytes) -> &'static [u8]
    ensures { result.now ≡ bytes }
{
    if bytes.is_empty() {
        return b"";
    }
    bytes.into_vec().leak()
}

/// The names of no sheet.
pub fn no_names(alloc: Global) -> Result<Names, Memory>
    ensures { IfOk result (λ names. names ≡ []) }
{
    Names::of(alloc, &[])
}

/// Tells C of an outcome, with these bytes; its status is returned.
pub fn tell(answer: &mut Answer, outcome: &Outcome, bytes: Bytes) -> u32
    ensures { IsTold bytes outcome.now answer.new result }
{
    *answer = Answer {
        bytes: handed(bytes),
        place: place(outcome),
        kind: kind(outcome),
    };
    status(outcome) as u32
}

/// Tells C of an outcome by its line. Where memory runs out that is returned, and the answer is as
/// it was.
pub fn refuse(alloc: Global, outcome: &Outcome, names: &Names, answer: &mut Answer) -> u32
    ensures { IsRefusal names.now outcome.now answer.old answer.new result }
{
    match line_of(alloc, outcome, names) {
        Ok(line) => tell(answer, outcome, line),
        Err(_) => MEMORY,
    }
}
