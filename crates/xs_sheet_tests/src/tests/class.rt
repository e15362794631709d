use std::alloc::Global;
use xs_class::{ATTR_END, Memory, Sym, Word};

/// Whether a word that grows by a symbol and a piece, copied, has these symbols.
fn is_grown_word(word: &mut Word, symbols: &[Sym]) -> Result<bool, Memory> {
    word.push(Sym::opening(1))?;
    word.extend(&[Sym(1)])?;
    Ok(word.copy()?.as_slice() == symbols)
}

fn word_grows(alloc: Global, symbols: &[Sym]) -> Result<bool, Memory> {
    let mut word = Word::of(alloc, &[Sym(7), ATTR_END])?;
    is_grown_word(&mut word, symbols)
}

#[test]
fn a_word_grows_and_is_copied(rt: HostRuntime) {
    let numbers = [Sym(7), Sym(0x110000), Sym(0x110005), Sym(1)];
    assert!(rt; matches!(word_grows(rt.alloc(), &numbers), Ok(true)));
}
