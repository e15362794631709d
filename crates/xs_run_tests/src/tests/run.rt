//! The whole run, over devices in memory that fail.
use std::alloc::Global;
use std::process::Abort;
use std::test::Fail;
use xs_class::{Bytes, Memory, Text};
use xs_io::{MemShelf, MemSink, MemSource};
use xs_top::{Outcome, run, status};

mod faults;

/// The name of the file that has the sheet.
const SHEET: &str = "sheet";

const TO_XML: &[&str] = &["to-xml", SHEET];

/// The calls at which devices fail, numbered from 1, where 0 is no call; each call moves at most
/// `step` bytes.
#[derive(Clone, Copy)]
struct Failures {
    shelf: u64,
    input: u64,
    out: u64,
    notes: u64,
    step: usize,
}

/// No call fails.
const NONE: Failures = Failures {
    shelf: 0,
    input: 0,
    out: 0,
    notes: 0,
    step: 65_536,
};

/// The devices of a run, in memory.
#[derive(Drop)]
struct Devices {
    shelf: MemShelf,
    input: MemSource,
    out: MemSink,
    notes: MemSink,
}

/// A run that ended.
#[derive(Drop)]
struct Ended {
    outcome: Outcome,
    devices: Devices,
}

/// What is run: the words, the bytes of the sheet and the input.
#[derive(Clone, Copy)]
struct Run<'t> {
    words: &'t [&'t str],
    sheet: &'t [u8],
    input: &'t [u8],
}

/// How a run ends: its status, how it breaks off, and what `notes` and `out` take.
#[derive(Clone, Copy, Debug, PartialEq)]
struct End<'t> {
    status: u8,
    broken: (u8, u64),
    notes: &'t [u8],
    out: &'t [u8],
}

fn done(out: &[u8]) -> End<'_> {
    End {
        status: 0,
        broken: (0, 0),
        notes: b"",
        out,
    }
}

fn refused(status: u8, notes: &[u8]) -> End<'_> {
    End {
        status,
        broken: (0, 0),
        notes,
        out: b"",
    }
}

fn shelf_of(alloc: Global, sheet: &[u8], call: u64) -> Result<MemShelf, Memory> {
    let name = Text::of(alloc, SHEET)?;
    let bytes = Bytes::of(alloc, sheet)?;
    let mut shelf = MemShelf::new(alloc, vec![in alloc; call]?);
    shelf.add(name, bytes)?;
    Ok(shelf)
}

fn source_of(alloc: Global, input: &[u8], call: u64, step: usize) -> Result<MemSource, Memory> {
    let bytes = Bytes::of(alloc, input)?;
    Ok(MemSource::new(bytes, step.max(1), vec![in alloc; call]?))
}

fn sink(alloc: Global, call: u64, step: usize) -> Result<MemSink, Memory> {
    Ok(MemSink::new(alloc, step.max(1), vec![in alloc; call]?))
}

fn set_up(
    alloc: Global,
    sheet: &[u8],
    input: &[u8],
    failures: Failures,
) -> Result<Devices, Memory> {
    Ok(Devices {
        shelf: shelf_of(alloc, sheet, failures.shelf)?,
        input: source_of(alloc, input, failures.input, failures.step)?,
        out: sink(alloc, failures.out, failures.step)?,
        notes: sink(alloc, failures.notes, failures.step)?,
    })
}

fn strings(alloc: Global, words: &[&str]) -> Result<Vec<String>, Memory> {
    let mut list = Vec::new(alloc);
    for word in words {
        list.push(String::from_str(alloc, word)?)?;
    }
    Ok(list)
}

fn outcome_of(alloc: Global, words: &[&str], devices: &mut Devices) -> Result<Outcome, Memory> {
    let words = strings(alloc, words)?;
    run(
        alloc,
        &words,
        &mut devices.shelf,
        &mut devices.input,
        &mut devices.out,
        &mut devices.notes,
    )
}

/// The run of these words over the sheet and the input, in which these calls fail.
fn ran(
    alloc: Global,
    words: &[&str],
    sheet: &[u8],
    input: &[u8],
    failures: Failures,
) -> Result<Ended, Memory> {
    let mut devices = set_up(alloc, sheet, input, failures)?;
    let outcome = outcome_of(alloc, words, &mut devices)?;
    Ok(Ended { outcome, devices })
}

/// The status of the outcome that `notes` failed to report, or 0, and how many bytes the failing
/// one of `out` and `notes` took.
fn broken_off(outcome: &Outcome) -> (u8, u64) {
    match outcome {
        Outcome::WriteFault { written } => (0, *written),
        Outcome::NoteFault { of, written } => (*of, *written),
        _ => (0, 0),
    }
}

fn end_of(ended: &Ended) -> End<'_> {
    End {
        status: status(&ended.outcome),
        broken: broken_off(&ended.outcome),
        notes: ended.devices.notes.taken(),
        out: ended.devices.out.taken(),
    }
}

fn assert_end(rt: &impl Abort, ended: &Ended, end: End<'_>) {
    assert_eq!(rt; end_of(ended), end);
}

/// The run of these words over the sheet and the input ends so where these calls fail.
fn expect_broken(
    rt: &impl Abort,
    alloc: Global,
    run: Run<'_>,
    failures: Failures,
    end: End<'_>,
) -> Result<(), Fail> {
    let ended = ran(alloc, run.words, run.sheet, run.input, failures)?;
    assert_end(rt, &ended, end);
    Ok(())
}
