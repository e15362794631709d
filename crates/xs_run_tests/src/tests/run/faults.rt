use super::{
    End, Ended, Failures, NONE, Run, SHEET, TO_XML, assert_end, done, expect_broken, outcome_of,
    refused, set_up,
};
use std::alloc::Global;
use std::process::Abort;
use std::test::Fail;
use xs_class::{Bytes, Memory, Text};
use xs_test_tools::{EMPTY, PAIR};

/// The line that reports a sheet that cannot be read.
const UNREAD_SHEET: &[u8] = b"sheet: cannot be read\n";

/// The line that reports an input that cannot be read.
const UNREAD_INPUT: &[u8] = b"input: cannot be read\n";

/// Words, an input, the calls of `input`, `out` and `notes` that fail, how many bytes a call moves,
/// what `out` and `notes` take, and how the run breaks off.
type Row = (
    &'static [&'static str],
    &'static [u8],
    [u64; 3],
    usize,
    &'static [u8],
    &'static [u8],
    (u8, u64),
);

const ROWS: &[Row] = &[
    (TO_XML, b"(3,7)", [2, 0, 0], 5, b"", UNREAD_INPUT, (0, 0)),
    (
        TO_XML,
        b"(3,7)",
        [0, 3, 0],
        1,
        b"<p",
        b"output: cannot be written after 2 bytes\n",
        (0, 2),
    ),
    (TO_XML, b"(3,7]", [0, 0, 6], 1, b"", b"input", (1, 5)),
    (&[], b"", [0, 0, 1], 1, b"", b"", (5, 0)),
    // `notes` fails at the line of a failing `out`
    (TO_XML, b"(3,7)", [0, 3, 7], 1, b"<p", b"output", (6, 6)),
    // the answer to a script is written at its end
    (
        &["session", SHEET],
        b"put 0 0 \"(3\"\nnext 2\nput 2 0 \",7)\"\ntree\nput 1 1 \"x\"\ntree\nput 9 0 \"a\"\n",
        [0, 2, 0],
        3,
        b"ok ",
        b"output: cannot be written after 3 bytes\n",
        (0, 3),
    ),
];

fn expect_row(rt: &impl Abort, alloc: Global, row: Row) -> Result<(), Fail> {
    let (words, input, calls, step, out, notes, broken) = row;
    let run = Run {
        words,
        sheet: PAIR.as_bytes(),
        input,
    };
    let failures = Failures {
        shelf: 0,
        input: calls[0],
        out: calls[1],
        notes: calls[2],
        step,
    };
    let end = End {
        status: 6,
        broken,
        notes,
        out,
    };
    expect_broken(rt, alloc, run, failures, end)
}

#[test]
fn the_rows_of_single_faults(rt: HostRuntime) -> Result<(), Fail> {
    for row in ROWS {
        expect_row(&rt, rt.alloc(), *row)?;
    }
    Ok(())
}

const ANSWER: &[u8] = b"<p><y>7</y><x>3</x></p>\n";

/// The run that turns this text into XML by the pair sheet.
fn turning(text: &[u8]) -> Run<'_> {
    Run {
        words: TO_XML,
        sheet: PAIR.as_bytes(),
        input: text,
    }
}

/// How many bytes calls before this one move.
fn moved_before(call: u64, step: usize) -> usize {
    (call.saturating_sub(1) as usize).saturating_mul(step)
}

/// Either the fault is reported by this line, or the run is done.
fn end_of(is_reported: bool, line: &[u8]) -> End<'_> {
    if is_reported {
        refused(6, line)
    } else {
        done(ANSWER)
    }
}

/// This call of `out` fails, which is reported with how many bytes `out` took.
fn expect_cut(rt: &impl Abort, alloc: Global, failures: Failures) -> Result<(), Fail> {
    let taken = moved_before(failures.out, failures.step);
    let line = format!(in alloc; "output: cannot be written after {taken} bytes\n")?;
    let end = End {
        status: 6,
        broken: (0, taken as u64),
        notes: line.as_bytes(),
        out: &ANSWER[..taken.min(ANSWER.len())],
    };
    expect_broken(rt, alloc, turning(b"(3,7)"), failures, end)
}

/// These calls fail, of which a run makes one where `is_reported`.
fn expect_end(
    rt: &impl Abort,
    alloc: Global,
    failures: Failures,
    is_reported: bool,
    line: &[u8],
) -> Result<(), Fail> {
    let end = end_of(is_reported, line);
    expect_broken(rt, alloc, turning(b"(3,7)"), failures, end)
}

/// This call of each device fails in turn, where a run makes that many calls of the shelf, of the
/// input and of `out`.
fn expect_faults(
    rt: &impl Abort,
    alloc: Global,
    call: u64,
    step: usize,
    calls: [u64; 3],
) -> Result<(), Fail> {
    let none = Failures { step, ..NONE };
    let shelf = Failures {
        shelf: call,
        ..none
    };
    expect_end(rt, alloc, shelf, call <= calls[0], UNREAD_SHEET)?;
    let input = Failures {
        input: call,
        ..none
    };
    expect_end(rt, alloc, input, call <= calls[1], UNREAD_INPUT)?;
    let notes = Failures {
        notes: call,
        ..none
    };
    expect_end(rt, alloc, notes, false, b"")?;
    let out = Failures { out: call, ..none };
    if call <= calls[2] {
        expect_cut(rt, alloc, out)
    } else {
        expect_end(rt, alloc, out, false, b"")
    }
}

/// By step: the calls of the shelf (the sheet, and its end), of the input up to its end, and of
/// `out`.
const CALLS: &[(usize, [u64; 3])] = &[(1, [2, 6, 24]), (5, [2, 2, 5]), (100, [2, 2, 1])];

#[test]
fn each_failing_call_of_each_device_is_reported(rt: HostRuntime) -> Result<(), Fail> {
    for (step, calls) in CALLS {
        for call in 1..41u64 {
            expect_faults(&rt, rt.alloc(), call, *step, *calls)?;
        }
    }
    Ok(())
}

/// What a run reports of which this call of `notes` fails: a prefix of its line, where the line
/// takes that call.
fn expect_unreported(rt: &impl Abort, alloc: Global, call: u64, step: usize) -> Result<(), Fail> {
    let line: &[u8] = b"input: foreign after 4 symbols\n";
    let taken = moved_before(call, step);
    let failures = Failures {
        notes: call,
        step,
        ..NONE
    };
    let end = if taken < line.len() {
        End {
            broken: (1, taken as u64),
            ..refused(6, &line[..taken])
        }
    } else {
        refused(1, line)
    };
    expect_broken(rt, alloc, turning(b"(3,7]"), failures, end)
}

#[test]
fn each_failing_call_of_notes_is_answered(rt: HostRuntime) -> Result<(), Fail> {
    for step in [1usize, 7, 100] {
        for call in 1..41u64 {
            expect_unreported(&rt, rt.alloc(), call, step)?;
        }
    }
    Ok(())
}

/// The name of the file that has the certificate.
const FILE: &str = "certificate";

const PROVE: &[&str] = &["prove", SHEET];

const CERTIFY: &[&str] = &["check", SHEET, "cert", FILE];

/// The certificate of the empty sheet.
const OF_EMPTY: &[u8] =
    b"xsugar-cert-1\nside text\nside xml\ncut 0 1\nset 1\n0 0\n1 1\nset 0\n1 0\n\
    set 2\nset 3\nend\n";

const ACCEPTED: &[u8] = b"accepted: 0 terminals, 0 ignorables, 1 nonterminals, 1 productions\n";

/// The run of these words over the empty sheet and its certificate, where these calls fail.
fn ran_by(alloc: Global, words: &[&str], failures: Failures) -> Result<Ended, Memory> {
    let mut devices = set_up(alloc, EMPTY.as_bytes(), b"", failures)?;
    let name = Text::of(alloc, FILE)?;
    let file = Bytes::of(alloc, OF_EMPTY)?;
    devices.shelf.add(name, file)?;
    let outcome = outcome_of(alloc, words, &mut devices)?;
    Ok(Ended { outcome, devices })
}

/// Words, the calls of the shelf, `out` and `notes` that fail, the status, how the run breaks off,
/// and what `out` and `notes` take.
type Fault = (
    &'static [&'static str],
    [u64; 3],
    u8,
    (u8, u64),
    &'static [u8],
    &'static [u8],
);

/// A call of the shelf that fails, and the line that reports it: the sheet takes the first two calls,
/// and the certificate the next two.
const UNREAD: &[(u64, &[u8])] = &[
    (2, UNREAD_SHEET),
    (3, b"certificate: cannot be read\n"),
    (4, b"certificate: cannot be read\n"),
];

/// Each call of `out` and `notes` moves at most seven bytes.
const FAULTS: &[Fault] = &[
    (CERTIFY, [5, 0, 0], 0, (0, 0), ACCEPTED, b""),
    (CERTIFY, [3, 0, 3], 6, (6, 14), b"", b"certificate: c"),
    (
        CERTIFY,
        [0, 2, 0],
        6,
        (0, 7),
        b"accepte",
        b"output: cannot be written after 7 bytes\n",
    ),
    (
        PROVE,
        [0, 3, 0],
        6,
        (0, 14),
        b"xsugar-cert-1\n",
        b"output: cannot be written after 14 bytes\n",
    ),
];

fn expect_fault(rt: &impl Abort, alloc: Global, fault: Fault) -> Result<(), Fail> {
    let (words, calls, status, broken, out, notes) = fault;
    let failures = Failures {
        shelf: calls[0],
        input: 0,
        out: calls[1],
        notes: calls[2],
        step: 7,
    };
    let end = End {
        status,
        broken,
        notes,
        out,
    };
    let ended = ran_by(alloc, words, failures)?;
    assert_end(rt, &ended, end);
    Ok(())
}

#[test]
fn failing_calls_over_a_certificate_are_reported(rt: HostRuntime) -> Result<(), Fail> {
    for (call, line) in UNREAD {
        let fault: Fault = (CERTIFY, [*call, 0, 0], 6, (0, 0), b"", *line);
        expect_fault(&rt, rt.alloc(), fault)?;
    }
    for fault in FAULTS {
        expect_fault(&rt, rt.alloc(), *fault)?;
    }
    Ok(())
}
