use crate::{Two, check_and_translate, round_twice, text_and_back};
use std::alloc::Global;
use xs_class::Memory;
use xs_top::status;

/// Pairs with spaces, which carry nothing, before the comma.
const SHEET: &[u8] = b"xsugar-1\nstart s\nterminal d = /[0-9]/\nignorable w = / */ \"\"\n\
    s : \"(\" [d a] [w] \",\" [d b] \")\" = <p><y>[d b]</y><x>[d a]</x></p>\n";

/// Whether both runs were done and wrote so.
fn wrote(two: &Two, first: &[u8], second: &[u8]) -> bool {
    let done = status(&two.first.outcome) == 0 && status(&two.second.outcome) == 0;
    done && two.first.written.as_slice() == first && two.second.written.as_slice() == second
}

fn comes_back(alloc: Global) -> Result<bool, Memory> {
    let two = text_and_back(alloc, SHEET, b"(3  ,7)")?;
    Ok(wrote(&two, b"<p><y>7</y><x>3</x></p>\n", b"(3,7)"))
}

#[test]
fn a_text_comes_back_in_its_normal_spelling(rt: HostRuntime) {
    assert!(rt; comes_back(rt.alloc()) == Ok(true));
}

fn stays(alloc: Global) -> Result<bool, Memory> {
    let two = round_twice(alloc, SHEET, b"(3  ,7)")?;
    Ok(wrote(&two, b"(3,7)", b"(3,7)"))
}

#[test]
fn a_normal_spelling_stays(rt: HostRuntime) {
    assert!(rt; stays(rt.alloc()) == Ok(true));
}

fn is_accepted(alloc: Global) -> Result<bool, Memory> {
    let two = check_and_translate(alloc, SHEET, b"(3,7)")?;
    Ok(wrote(
        &two,
        b"accepted: 1 terminals, 1 ignorables, 1 nonterminals, 1 productions\n",
        b"<p><y>7</y><x>3</x></p>\n",
    ))
}

#[test]
fn a_checked_sheet_translates(rt: HostRuntime) {
    assert!(rt; is_accepted(rt.alloc()) == Ok(true));
}
