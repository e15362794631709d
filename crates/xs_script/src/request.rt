// Requests, and reading one from its line.
ghost use Rattle.std.specs.Prelude.{◌≡◌, ◌↔◌, IsTrue, IfOk, MatchOption};
ghost use Rattle.xs_script.specs.Requests.{NoNumber, IsNumber, NoChange, IsChange, NoRequest, Spells};

use std::alloc::Global;
use xs_class::{Memory, Sym, Word};
use xs_outline::{cut_at_space, read_numeral, read_quoted};

/// How many symbols a document may have, and the greatest number in a script.
const LIMIT: u64 = 1_048_576;

/// What a line of an edit script asks for.
#[derive(Debug, Drop)]
pub enum Request {
    /// To replace `cut` symbols from place `at` on.
    Put { at: u32, cut: u32, put: Word },
    /// The line of the document's derivation.
    Tree,
    /// The characters that may come after the first `at` symbols.
    Next { at: u32 },
}

/// A stretch of a document, and what it is replaced by.
#[derive(Drop)]
struct Change {
    at: u32,
    cut: u32,
    put: Word,
}

/// Whether the symbols are those of the word.
fn is_word(text: &[Sym], word: &[u8]) -> bool
    ensures { IsTrue result ↔ (text.now ≡ word.now) }
{
    if text.len() != word.len() {
        return false;
    }
    'symbols: for (place, symbol) in text.iter().enumerate() {
        if symbol.number() != u32::from(word[place]) {
            return false;
        }
    }
    true
}

/// The number that the digits are, where it is at most as great as a document is long.
fn number(text: &[Sym]) -> Option<u32>
    ensures { MatchOption result (NoNumber text.now) (IsNumber text.now) }
{
    match read_numeral(text) {
        Some(number) => if number > LIMIT {
            None
        } else {
            Some(number as u32)
        },
        None => None,
    }
}

/// The change that the text after `put` spells.
fn read_change(alloc: Global, text: &[Sym]) -> Result<Option<Change>, Memory>
    ensures { IfOk result (λ change. MatchOption change (NoChange text.now) (λ c. IsChange text.now c.at c.cut c.put)) }
{
    let Some((first, rest)) = cut_at_space(text) else {
        return Ok(None);
    };
    let Some((second, token)) = cut_at_space(rest) else {
        return Ok(None);
    };
    let Some(at) = number(first) else {
        return Ok(None);
    };
    let Some(cut) = number(second) else {
        return Ok(None);
    };
    match read_quoted(alloc, token)? {
        Some(put) => Ok(Some(Change { at, cut, put })),
        None => Ok(None),
    }
}

/// The request that the line spells, if it spells one.
pub fn read_request(alloc: Global, text: &[Sym]) -> Result<Option<Request>, Memory>
    ensures { IfOk result (λ request. MatchOption request (NoRequest text.now) (λ r. Spells r text.now)) }
{
    let Some((word, rest)) = cut_at_space(text) else {
        if is_word(text, b"tree") {
            return Ok(Some(Request::Tree));
        }
        return Ok(None);
    };
    if is_word(word, b"put") {
        return match read_change(alloc, rest)? {
            Some(Change { at, cut, put }) => Ok(Some(Request::Put { at, cut, put })),
            None => Ok(None),
        };
    }
    if is_word(word, b"next") {
        return match number(rest) {
            Some(at) => Ok(Some(Request::Next { at })),
            None => Ok(None),
        };
    }
    Ok(None)
}
