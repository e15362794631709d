//! Small nets with known answers.
use std::alloc::Global;
use std::test::Fail;
use xs_auto::Pairs;
use xs_class::{Memory, Word};
use xs_meet::{Overlap, meet_word, overlap_word};
use xs_test_tools::run_of;

fn shared(alloc: Global, first: (u32, u32), second: (u32, u32)) -> Result<Option<Word>, Memory> {
    let first = run_of(alloc, first)?;
    let second = run_of(alloc, second)?;
    let mut pairs = Pairs::with_room(alloc, 4)?;
    meet_word(alloc, &first, &second, &mut pairs)
}

fn overlapping(
    alloc: Global,
    front: (u32, u32),
    rest: (u32, u32),
) -> Result<Option<Overlap>, Memory> {
    let front = run_of(alloc, front)?;
    let rest = run_of(alloc, rest)?;
    let mut pairs = Pairs::with_room(alloc, 4)?;
    overlap_word(alloc, &front, &rest, &mut pairs)
}

/// The number of a word's only symbol, or 0 where it has none or more.
fn only(word: &Word) -> u32 {
    if word.len() == 1 {
        word.at(0).number()
    } else {
        0
    }
}

/// The only symbol that is shared, or 0 where no word is.
fn shared_symbol(alloc: Global, first: (u32, u32), second: (u32, u32)) -> Result<u32, Memory> {
    match shared(alloc, first, second)? {
        Some(word) => Ok(only(&word)),
        None => Ok(0),
    }
}

/// Two ranges, and the least symbol that both have, or 0.
const SHARED: [((u32, u32), (u32, u32), u32); 3] = [
    ((97, 122), (109, 113), 109),
    ((97, 102), (102, 107), 102),
    ((97, 99), (100, 102), 0),
];

#[test]
fn the_least_common_symbol_is_shared(rt: HostRuntime) {
    for (first, second, wanted) in &SHARED {
        let found = shared_symbol(rt.alloc(), *first, *second);
        assert!(rt; found == Ok(*wanted), "at {wanted}");
    }
}

/// The only symbols of the three words of an overlap, or zeros where there is none.
fn overlap_symbols(
    alloc: Global,
    front: (u32, u32),
    rest: (u32, u32),
) -> Result<(u32, u32, u32), Memory> {
    match overlapping(alloc, front, rest)? {
        Some(words) => Ok((only(&words.x), only(&words.a), only(&words.y))),
        None => Ok((0, 0, 0)),
    }
}

const OVERLAPPING: [((u32, u32), (u32, u32), (u32, u32, u32)); 3] = [
    ((97, 122), (97, 122), (97, 97, 97)),
    ((97, 99), (99, 102), (97, 99, 99)),
    ((97, 99), (100, 102), (0, 0, 0)),
];

#[test]
fn runs_overlap_where_their_ranges_meet(rt: HostRuntime) {
    for (front, rest, wanted) in &OVERLAPPING {
        let found = overlap_symbols(rt.alloc(), *front, *rest);
        assert!(rt; found == Ok(*wanted));
    }
}
