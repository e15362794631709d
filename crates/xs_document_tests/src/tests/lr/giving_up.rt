//! Documents that are hard to read: the reader reads them, or finds nothing.
use super::{Found, found_for};
use std::alloc::Global;
use std::process::Abort;
use std::test::Fail;
use xs_class::{Memory, Side, Sym, Word};
use xs_test_tools::{Draws, LEFT, NESTED, RIGHT, add_characters, pair_of};

/// Pieces of a document, each as often as its number says; `?` is a letter a or b that is drawn.
type Pieces<'t> = &'t [(&'t str, u32)];

/// A sheet, a text, and whether a table has to be found for it.
type Row<'t> = (&'t str, Pieces<'t>, bool);

/// Adds that many letters that are drawn.
fn add_drawn(word: &mut Word, count: u32) -> Result<(), Memory> {
    let mut draws = Draws { state: 1 };
    for _ in 0..count {
        word.push(Sym(if draws.below(2) == 0 { 97 } else { 98 }))?;
    }
    Ok(())
}

fn add_piece(word: &mut Word, piece: &str, count: u32) -> Result<(), Memory> {
    if piece == "?" {
        return add_drawn(word, count);
    }
    for _ in 0..count {
        add_characters(word, piece)?;
    }
    Ok(())
}

fn document(alloc: Global, pieces: Pieces<'_>) -> Result<Word, Memory> {
    let mut word = Word::new(alloc);
    for (piece, count) in pieces {
        add_piece(&mut word, piece, *count)?;
    }
    Ok(word)
}

/// What comes of the row's text.
fn found_by(alloc: Global, row: Row<'_>) -> Result<Found, Fail> {
    let (sheet, pieces, _) = row;
    let two = pair_of(alloc, sheet.as_bytes())?;
    let doc = document(alloc, pieces)?;
    let found = found_for(alloc, two.gram(Side::Text), doc.as_slice())?;
    Ok(found)
}

fn expect_each(rt: &impl Abort, alloc: Global, rows: &[Row<'_>]) -> Result<(), Fail> {
    for row in rows {
        let found = found_by(alloc, *row)?;
        let may_be = found == Found::Right || !row.2 && found == Found::Nothing;
        assert!(rt; may_be, "{found:?} by {}", row.0);
    }
    Ok(())
}

/// Terminals whose runs reach many sets of positions, the first more than any table has.
const MANY_SETS: &[Row<'static>] = &[
    (
        "xsugar-1\nstart s\nterminal v = /(a|b)*a(a|b){40}/\ns : [v x] = <s>[v x]</s>\n",
        &[("?", 50_000), ("a", 41)],
        false,
    ),
    (
        "xsugar-1\nstart s\nterminal v = /(a|b)*a(a|b){9}/\ns : [v x] = <s>[v x]</s>\n",
        &[("?", 3000), ("a", 10)],
        true,
    ),
];

#[test]
fn terminals_with_many_sets_of_positions(rt: HostRuntime) -> Result<(), Fail> {
    expect_each(&rt, rt.alloc(), MANY_SETS)
}

/// Grammars in which several heads read on side by side, all along the text.
const FORKS: &[Row<'static>] = &[
    (
        "xsugar-1\nstart s\ns : [n x] [s y] \"b\" = <s>[n x][s y]</s>\ns : \"a\" = <a/>\n\
         n : = <n/>\n",
        &[("a", 1), ("b", 3000)],
        true,
    ),
    (
        "xsugar-1\nstart s\ns : [l x] \"b\" = <l>[l x]</l>\ns : [m x] \"c\" = <m>[m x]</m>\n\
         l : \"a\" = <a/>\nl : [l x] \"a\" = [l x] <a/>\n\
         m : \"a\" = <a/>\nm : [m x] \"a\" = [m x] <a/>\n",
        &[("a", 3000), ("c", 1)],
        true,
    ),
    (
        "xsugar-1\nstart s\ns : [l x] \"b\" = <l>[l x]</l>\ns : [m x] \"c\" = <m>[m x]</m>\n\
         l : =\nl : [e x] [l y] = [e x] [l y]\nm : =\nm : [f x] [m y] = [f x] [m y]\n\
         e : \"a\" = <a/>\nf : \"a\" = <a/>\n",
        &[("a", 3000), ("c", 1)],
        true,
    ),
    (
        "xsugar-1\nstart s\ns : [l x] [n y] \";b\" = <l>[l x][n y]</l>\n\
         s : [m x] [k y] \";c\" = <m>[m x][k y]</m>\nl : =\n\
         l : [e x] [l y] [n z] = [e x] [l y] [n z]\nm : =\n\
         m : [f x] [m y] [k z] [n w] = [f x] [m y] [k z] [n w]\n\
         n : = <n/>\nk : [n x] = <k>[n x]</k>\ne : \"a\" = <a/>\nf : \"a\" = <a/>\n",
        &[("a", 3000), (";c", 1)],
        true,
    ),
    (
        "xsugar-1\nstart s\ns : = <e/>\ns : \"a\" [s x] \"a\" = <a>[s x]</a>\n\
         s : \"b\" [s x] \"b\" = <b>[s x]</b>\n",
        &[("ab", 20), ("ba", 20)],
        true,
    ),
    (
        "xsugar-1\nstart s\ns : = <e/>\ns : \"a\" [s x] \"a\" = <a>[s x]</a>\n\
         s : \"b\" [s x] \"b\" = <b>[s x]</b>\n",
        &[("a", 6000)],
        false,
    ),
];

#[test]
fn many_heads(rt: HostRuntime) -> Result<(), Fail> {
    expect_each(&rt, rt.alloc(), FORKS)
}

/// Long documents that are read with one head.
const LONG: &[Row<'static>] = &[
    (NESTED, &[("(", 260_000), ("a", 1), (")", 260_000)], true),
    (RIGHT, &[("a", 200_000)], true),
    (LEFT, &[("a", 200_000)], true),
];

#[test]
fn long_documents(rt: HostRuntime) -> Result<(), Fail> {
    expect_each(&rt, rt.alloc(), LONG)
}
