use std::alloc::Global;
use std::process::Abort;
use xs_class::{Memory, Names, Side, Sym, Text, Word};
use xs_pair::{Ill, IllRule};
use xs_talk::{Outcome, Report, fault_line, line_of, room};
use xs_test_tools::names_of;

fn is_reported(
    alloc: Global,
    names: &Names,
    outcome: &Outcome,
    line: &str,
) -> Result<bool, Memory> {
    let found = line_of(alloc, outcome, names)?;
    Ok(found.as_slice() == line.as_bytes())
}

fn expect_each(
    rt: &impl Abort,
    alloc: Global,
    names: &Names,
    rows: &[(Outcome, &str)],
) -> Result<(), Memory> {
    for (outcome, line) in rows {
        assert!(rt; is_reported(alloc, names, outcome, line)?, "{line}");
    }
    Ok(())
}

/// The lines report the outcomes of a sheet with the names `p` and `é`.
fn expect_told(rt: &impl Abort, alloc: Global, rows: &[(Outcome, &str)]) -> Result<(), Memory> {
    let names = names_of(alloc, &["p", "é"])?;
    expect_each(rt, alloc, &names, rows)
}

#[test]
fn lines_of_outcomes(rt: HostRuntime) -> Result<(), Memory> {
    let ill = Outcome::SheetIll(Ill {
        rule: IllRule::NameOnce,
        line: 4,
    });
    let rows: [(Outcome, &str); 13] = [
        (Outcome::Done, ""),
        (
            Outcome::Foreign { viable: 4 },
            "input: foreign after 4 symbols\n",
        ),
        (
            Outcome::SheetBad { at: 21 },
            "sheet: byte 21: not expected here\n",
        ),
        (ill, "sheet: line 4: named item not once on both sides\n"),
        (
            Outcome::Heavy { weight: 8518 },
            "sheet: weight 8518 is more than 8192\n",
        ),
        (Outcome::NotXml { at: 3 }, "input: character 3: not XML\n"),
        (
            Outcome::WriteFault { written: 2 },
            "output: cannot be written after 2 bytes\n",
        ),
        (Outcome::NoteFault { of: 1, written: 5 }, ""),
        (
            Outcome::ScriptBad { line: 2 },
            "script: line 2: not expected here\n",
        ),
        (
            Outcome::CertBad { line: 4 },
            "certificate: line 4: not expected here\n",
        ),
        (
            Outcome::CertLong,
            "certificate: more than 268435456 bytes\n",
        ),
        (
            Outcome::OutlineBad { line: 3 },
            "outline: line 3: not expected here\n",
        ),
        (
            Outcome::Usage,
            "usage: xsugar check S | to-xml S [F] | to-text S | round S text [F] | round S xml | trees S M | sheet | sheet 2 | make SEED LINES | upgrade S | prove S | check S cert C | session S | to-tree S text [F] | to-tree S xml | from-tree S text | from-tree S xml | cover S\n",
        ),
    ];
    expect_told(&rt, rt.alloc(), &rows)
}

/// A quote, a line feed, a surrogate, the end of an attribute, a strange name, the marks of `p`, an
/// attribute of the other name, and a mark of no name.
const MARKS: [Sym; 9] = [
    Sym(34),
    Sym(10),
    Sym(0xD800),
    Sym(0x110000),
    Sym(0x110001),
    Sym(0x110002),
    Sym(0x110004),
    Sym(0x110006),
    Sym(0x110008),
];

const SHARED: &str = "suspect: text: s: lines 4 and 5 share \"a\"\n";

const CUT: &str =
    "suspect: xml: s: line 4, cut 1: \"\" \"a\" \"\\u{22}\\u{a}<?><@><?><p></p><@é><?>\"\n";

#[test]
fn lines_of_suspects(rt: HostRuntime) -> Result<(), Memory> {
    let alloc = rt.alloc();
    let vertical = Report::Vertical {
        side: Side::Text,
        name: Text::of(alloc, "s")?,
        line: 4,
        line2: 5,
        word: Word::of(alloc, &[Sym(97)])?,
    };
    let horizontal = Report::Horizontal {
        side: Side::Xml,
        name: Text::of(alloc, "s")?,
        line: 4,
        cut: 1,
        x: Word::new(alloc),
        a: Word::of(alloc, &[Sym(97)])?,
        y: Word::of(alloc, &MARKS)?,
    };
    let rows = [
        (Outcome::Suspect(vertical), SHARED),
        (Outcome::Suspect(horizontal), CUT),
    ];
    expect_told(&rt, alloc, &rows)
}

#[test]
fn a_fault_is_told_in_its_room(rt: HostRuntime) -> Result<(), Memory> {
    let made = room(rt.alloc())?;
    let line = fault_line(made, u64::MAX);
    assert_eq!(rt;
        line.as_slice(),
        b"output: cannot be written after 18446744073709551615 bytes\n".as_slice()
    );
    Ok(())
}
