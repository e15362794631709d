//! A sheet of many kinds of lines: the tables of its XML side pass their greatest size, so the
//! reader gives up, and the exact way translates the document.
ghost use Rattle.std.specs.Prelude.{◌<◌, length};
ghost use Rattle.xs_pair.specs.{IsSoundPair};

use super::{Found, exact_tree, found_for};
use std::alloc::Global;
use std::process::Abort;
use std::test::Fail;
use xs_class::{Bytes, Memory, Side, Word};
use xs_pair::Two;
use xs_test_tools::{two_of, word_of};
use xs_tree::same;
use xs_turn::{TurnFault, parse, translate};

/// The number of kinds. Their marks and nonterminals make rows of some 900 cells on the XML side,
/// and their fixed words some 9,000 rows.
const KINDS: u32 = 300;

/// A list of lines, each of which is of a kind.
const LINES: &[u8] = b"xsugar-1\nstart s\nterminal d = /[0-9]/\ns : [l x] = <s>[l x]</s>\nl : =\n\
    l : [l x] [k y] = [l x] [k y]\n";

/// The text of each kind's element.
const LETTERS: &str = "abcdefghijklmnopqrstuvwxyz";

/// Appends a kind.
fn push_kind(alloc: Global, sheet: &mut Bytes, kind: u32) -> Result<(), Memory> {
    let line = format!(in alloc; "k : [k{kind} x] = [k{kind} x]\n")?;
    sheet.extend(line.as_bytes())?;
    let text = format!(in alloc; "k{kind} : \"{kind}:\" [d x] = <e{kind}>\"{LETTERS}\"")?;
    sheet.extend(text.as_bytes())?;
    let end = format!(in alloc; "[d x]</e{kind}>\n")?;
    sheet.extend(end.as_bytes())
}

fn sheet_of_kinds(alloc: Global) -> Result<Bytes, Memory> {
    let mut sheet = Bytes::of(alloc, LINES)?;
    for kind in 0..KINDS {
        push_kind(alloc, &mut sheet, kind)?;
    }
    Ok(sheet)
}

/// A text with a line of each kind.
fn text_of_kinds(alloc: Global) -> Result<Word, Memory> {
    let mut word = Word::new(alloc);
    for kind in 0..KINDS {
        let line = format!(in alloc; "{kind}:7")?;
        let line = word_of(alloc, &line)?;
        word.extend(line.as_slice())?;
    }
    Ok(word)
}

/// Whether the XML is translated into the text, and has the tree of the exact way.
fn is_turned(alloc: Global, two: &Two, xml: &Word, text: &Word) -> Result<bool, TurnFault>
    requires pair { IsSoundPair two.now }
    requires short { length xml.now < 4294967295 }
{
    let back = translate(alloc, two, Side::Xml, Side::Text, xml)?;
    let tree = parse(alloc, two, Side::Xml, xml)?;
    let exact = exact_tree(alloc, two, Side::Xml, xml)?;
    let is_exact = same(alloc, &tree, &exact)?;
    Ok(is_exact && back.as_slice() == text.as_slice())
}

#[test]
fn tables_that_pass_their_greatest_size(rt: HostRuntime) -> Result<(), Fail> {
    let alloc = rt.alloc();
    let sheet = sheet_of_kinds(alloc)?;
    let two = two_of(alloc, sheet.as_slice())?;
    let text = text_of_kinds(alloc)?;
    assert!(rt; text.len() < 100_000);
    let there = found_for(alloc, two.gram(Side::Text), text.as_slice());
    assert_eq!(rt; there, Ok(Found::Right));
    let xml = translate(alloc, &two, Side::Text, Side::Xml, &text)?;
    assert!(rt; xml.len() < 100_000);
    let back = found_for(alloc, two.gram(Side::Xml), xml.as_slice());
    assert_eq!(rt; back, Ok(Found::Nothing));
    assert_eq!(rt; is_turned(alloc, &two, &xml, &text), Ok(true));
    Ok(())
}
