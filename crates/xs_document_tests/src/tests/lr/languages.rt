//! All words of a few letters, by small grammars: the reader and the recogniser agree.
ghost use Rattle.xs_gram.specs.{IsSound};

use super::{UNITS, agree};
use std::alloc::Global;
use std::process::Abort;
use std::test::Fail;
use xs_class::{Bytes, Memory, Side, Sym, Word};
use xs_gram::Gram;
use xs_test_tools::{push_all, push_items, two_of};

/// The rules of a grammar: each is one of s or of t, and a letter for each item.
type Rules<'t> = &'t [(&'t str, &'t str)];

const LANGUAGES: &[Rules<'static>] = &[
    &[("s", "Sa"), ("s", "b"), ("t", "")],
    &[("s", "aS"), ("s", "b"), ("t", "")],
    &[("s", "aSb"), ("s", ""), ("t", "")],
    &[
        ("s", "aSa"),
        ("s", "bSb"),
        ("s", "T"),
        ("t", "x"),
        ("t", ""),
    ],
    &[("s", "TSb"), ("s", "a"), ("t", ""), ("t", "a")],
    &[("s", "SaS"), ("s", ""), ("t", "")],
    &[("s", "TTaT"), ("t", ""), ("t", "bT")],
    &[("s", "SS"), ("s", "a"), ("s", "w"), ("t", "")],
    &[
        ("s", "aT"),
        ("s", "b"),
        ("t", "Sb"),
        ("t", "bT"),
        ("t", "b"),
    ],
    &[("s", "wwS"), ("s", "a"), ("t", "")],
    &[("s", "zTx"), ("s", "aSx"), ("t", "z"), ("t", "xx")],
    &[("s", "yTy"), ("t", "b"), ("t", "bS")],
    &[("s", "kTl"), ("t", "a"), ("t", "aTb")],
    &[("s", "lSkb"), ("s", "klk"), ("t", "")],
];

/// The sheet of the rules: the XML of each is an element round the same items.
fn sheet_of(alloc: Global, rules: Rules<'_>) -> Result<Bytes, Memory> {
    let mut sheet = Bytes::of(alloc, UNITS)?;
    for (name, letters) in rules {
        push_all(&mut sheet, &[name.as_bytes(), b" : "])?;
        push_items(&mut sheet, Side::Text, letters.as_bytes())?;
        sheet.extend(b"= <s>")?;
        push_items(&mut sheet, Side::Xml, letters.as_bytes())?;
        sheet.extend(b"</s>\n")?;
    }
    Ok(sheet)
}

/// The word whose letters are the binary digits of its number after the first, an a for each 0.
fn numbered(alloc: Global, number: u32) -> Result<Word, Memory> {
    let mut word = Word::new(alloc);
    let mut begun = false;
    for place in 0..32 {
        let is_one = number.wrapping_shl(place) >= 2_147_483_648;
        if begun {
            word.push(Sym(if is_one { 98 } else { 97 }))?;
        }
        begun = begun || is_one;
    }
    Ok(word)
}

/// The reader and the recogniser agree on all words up to six letters.
fn expect_agree(rt: &impl Abort, alloc: Global, g: &Gram) -> Result<(), Memory>
    requires { IsSound g.now }
{
    for number in 1..128 {
        let doc = numbered(alloc, number)?;
        assert!(rt; doc.len() < 100_000);
        assert_eq!(rt; agree(alloc, g, &doc), Ok(true), "at {doc:?}");
    }
    Ok(())
}

#[test]
fn all_words_of_small_grammars(rt: HostRuntime) -> Result<(), Fail> {
    for rules in LANGUAGES {
        let sheet = sheet_of(rt.alloc(), rules)?;
        let two = two_of(rt.alloc(), sheet.as_slice())?;
        expect_agree(&rt, rt.alloc(), two.gram(Side::Text))?;
    }
    Ok(())
}
