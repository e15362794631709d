ghost use Rattle.std.specs.Prelude.{◌≡◌, [], IfOk, OnErr};
ghost use Rattle.xs_talk.specs.{line as line_at};
ghost use Rattle.xs_top.specs.Devices.{output_of};
ghost use Rattle.xs_top.specs.Ran.{Tells};

use crate::outcome::status;
use std::alloc::Global;
use xs_class::{Memory, Names};
use xs_io::{Sink, WriteFault, put_all};
use xs_talk::{Outcome, line_of};

/// The names of no sheet.
pub fn no_names(alloc: Global) -> Result<Names, Memory>
    ensures { IfOk result (λ names. names ≡ []) }
{
    Names::of(alloc, &[])
}

/// Writes the line of an outcome, and answers it; or a fault of `notes`.
pub fn told<N: Sink>(notes: &mut N, names: &Names, line: &[u8], outcome: Outcome) -> Outcome
    requires { line.now ≡ line_at names.now outcome }
    ensures { Tells (output_of N.taken N.faults notes.old notes.new) names.now outcome result }
{
    match put_all(notes, line) {
        Ok(()) => outcome,
        Err(WriteFault { written }) => Outcome::NoteFault {
            of: status(&outcome),
            written,
        },
    }
}

/// Takes memory for the line of an outcome, and then writes it.
pub fn tell<N: Sink>(
    alloc: Global,
    notes: &mut N,
    names: &Names,
    outcome: Outcome,
) -> Result<Outcome, Memory>
    ensures told { IfOk result (Tells (output_of N.taken N.faults notes.old notes.new) names.now outcome) }
    ensures memory { OnErr result (notes.new ≡ notes.old) }
{
    let line = line_of(alloc, &outcome, names)?;
    Ok(told(notes, names, line.as_slice(), outcome))
}
