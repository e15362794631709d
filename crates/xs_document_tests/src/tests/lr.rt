//! What the reader finds, beside what the exact recogniser says.
ghost use Rattle.std.specs.Prelude.{◌<◌, length};
ghost use Rattle.xs_gram.specs.{IsBuilt, IsSound};
ghost use Rattle.xs_pair.specs.{IsSoundPair};

mod giving_up;
mod kinds;
mod languages;

use crate::tests::parse_table::passes;
use bumpalo::Bump;
use std::alloc::Global;
use std::process::Abort;
use std::test::Fail;
use xs_atoms::Atoms;
use xs_chars::decode;
use xs_class::{Memory, Side, Sym, Word};
use xs_earley::{SeeFault, recognise};
use xs_gram::Gram;
use xs_leiden::{leiden_sheet, make_text};
use xs_lr::{PADDING, read};
use xs_pair::Two;
use xs_test_tools::{EXAMPLES, two_of};
use xs_tree::{Tree, same};
use xs_turn::{TurnFault, parse, translate, turn};

/// The units of sheets whose items are given by letters.
const UNITS: &[u8] =
    b"xsugar-1\nstart s\nterminal x = /[ab]/\nterminal y = /a*/\nterminal z = /a{1,2}/\n\
    ignorable k = /b*/ \"\"\nignorable l = /(ab)?/ \"\"\n";

/// What comes of a document.
#[derive(Clone, Copy, Debug, PartialEq, Eq)]
pub enum Found {
    /// The reader found no table, or there are no atoms.
    Nothing,
    /// Its table does not pass the check.
    Wrong,
    /// Its table passes.
    Right,
}

/// What comes of a document.
pub fn found_for(alloc: Global, g: &Gram, doc: &[Sym]) -> Result<Found, Memory>
    requires { IsBuilt g.now }
{
    let Some(atoms) = Atoms::of(alloc, g)? else {
        return Ok(Found::Nothing);
    };
    let word = atoms.word(alloc, doc, PADDING)?;
    let Some(table) = read(alloc, g, &atoms, &word)? else {
        return Ok(Found::Nothing);
    };
    if passes(alloc, g, &atoms, doc, &table)? {
        Ok(Found::Right)
    } else {
        Ok(Found::Wrong)
    }
}

/// Whether the exact recogniser takes the document.
pub fn is_word(alloc: Global, g: &Gram, doc: &Word) -> Result<bool, Memory>
    requires sound { IsSound g.now }
    requires short { length doc.now < 4294967295 }
{
    match recognise(alloc, g, doc) {
        Ok(_) => Ok(true),
        Err(SeeFault::Foreign { .. }) => Ok(false),
        Err(SeeFault::Memory) => Err(Memory),
    }
}

/// Whether a table is found that passes exactly where the recogniser takes the document.
pub fn agree(alloc: Global, g: &Gram, doc: &Word) -> Result<bool, Memory>
    requires sound { IsSound g.now }
    requires short { length doc.now < 4294967295 }
{
    let found = found_for(alloc, g, doc.as_slice())?;
    let is_word = is_word(alloc, g, doc)?;
    Ok((found == Found::Right) == is_word)
}

/// The tree of the document's derivation by the exact recogniser and its forest.
pub fn exact_tree(alloc: Global, two: &Two, side: Side, doc: &Word) -> Result<Tree, TurnFault>
    requires pair { IsSoundPair two.now }
    requires short { length doc.now < 4294967295 }
{
    let bump = Bump::new(alloc);
    let turned = turn(alloc, &bump, two, side, doc)?;
    Ok(turned.tree)
}

/// Whether a table is found that passes for the text and for its XML document, and the text has the
/// tree of the exact way.
fn are_found(alloc: Global, two: &Two, text: &Word) -> Result<bool, TurnFault>
    requires pair { IsSoundPair two.now }
    requires short { length text.now < 4294967295 }
{
    let tree = parse(alloc, two, Side::Text, text)?;
    let exact = exact_tree(alloc, two, Side::Text, text)?;
    let is_exact = same(alloc, &tree, &exact)?;
    let xml = translate(alloc, two, Side::Text, Side::Xml, text)?;
    let there = found_for(alloc, two.gram(Side::Text), text.as_slice())?;
    let back = found_for(alloc, two.gram(Side::Xml), xml.as_slice())?;
    Ok(is_exact && there == Found::Right && back == Found::Right)
}

fn expect_found(rt: &impl Abort, alloc: Global, sheet: &[u8], text: &[u8]) -> Result<(), Fail> {
    let two = two_of(alloc, sheet)?;
    let text = decode(alloc, text)?;
    assert!(rt; text.len() < 100_000);
    assert_eq!(rt; are_found(alloc, &two, &text), Ok(true), "at {sheet:?}");
    Ok(())
}

#[test]
fn tables_of_the_examples(rt: HostRuntime) -> Result<(), Fail> {
    for (sheet, text) in &EXAMPLES {
        expect_found(&rt, rt.alloc(), sheet.as_bytes(), text.as_bytes())?;
    }
    Ok(())
}

#[test]
fn tables_of_made_texts(rt: HostRuntime) -> Result<(), Fail> {
    for seed in 1..6 {
        let text = make_text(rt.alloc(), seed, 8)?;
        expect_found(&rt, rt.alloc(), leiden_sheet(), text.as_slice())?;
    }
    Ok(())
}

/// The document with another symbol at a place, and without the one there.
fn changed(alloc: Global, doc: &[Sym], place: usize, other: Option<Sym>) -> Result<Word, Memory> {
    let mut word = Word::new(alloc);
    for (at, symbol) in doc.iter().enumerate() {
        if at != place {
            word.push(*symbol)?;
        } else if let Some(symbol) = other {
            word.push(symbol)?;
        }
    }
    Ok(word)
}

/// The symbols that are put in a document's place: none, a letter, a digit and a line's end.
const OTHERS: [Option<Sym>; 4] = [None, Some(Sym(97)), Some(Sym(49)), Some(Sym(10))];

/// The reader and the recogniser agree on the document with a change at each fifth place.
fn expect_agree(rt: &impl Abort, alloc: Global, g: &Gram, doc: &[Sym]) -> Result<(), Memory>
    requires { IsSound g.now }
{
    for place in 0..doc.len() / 5 {
        let other = OTHERS[place % 4];
        let doc = changed(alloc, doc, place * 5, other)?;
        assert!(rt; doc.len() < 100_000);
        assert_eq!(rt; agree(alloc, g, &doc), Ok(true), "with a change at {place}");
    }
    Ok(())
}

#[test]
fn examples_with_one_change(rt: HostRuntime) -> Result<(), Fail> {
    for (sheet, text) in &EXAMPLES {
        let two = two_of(rt.alloc(), sheet.as_bytes())?;
        let text = decode(rt.alloc(), text.as_bytes())?;
        expect_agree(&rt, rt.alloc(), two.gram(Side::Text), text.as_slice())?;
    }
    Ok(())
}
