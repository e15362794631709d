ghost use Rattle.std.specs.Prelude.{◌≡◌, ◌<◌, length, string_bytes, encode_utf8_all, MatchOption, IfOk};
ghost use Rattle.std.specs.Str.{chars};
ghost use Rattle.xs_chars.specs.Text.{in_form, symbol_limit, AreCharacters};

use crate::strings::{ascii_word, utf8_of, word_of};
use std::alloc::Global;
use std::str;
use unicode_normalization::{QuickCheck, is_nfc_quick, is_nfd_quick, to_nfc, to_nfd};
use xs_class::{Memory, Word};

/// The form that a text is put into: as it is, or a canonical normal form of Unicode (UAX 15).
#[derive(Clone, Copy, Debug, PartialEq, Eq)]
pub enum Form {
    AsIs,
    Nfc,
    Nfd,
}

/// How many symbols a form may have, so that each place has a number of 32 bits.
const MOST_SYMBOLS: usize = 4_294_967_294;

/// The text in the form: none where it is to stay as it is, or a quick look shows that it is in
/// the form already.
fn put_into(alloc: Global, text: &str, form: Form) -> Result<Option<String>, Memory>
    ensures { IfOk result (λ put. MatchOption put (in_form form (chars text.now) ≡ chars text.now) (λ t. string_bytes t ≡ encode_utf8_all (in_form form (chars text.now)))) }
{
    match form {
        Form::AsIs => Ok(None),
        Form::Nfc => match is_nfc_quick(text.chars()) {
            QuickCheck::Yes => Ok(None),
            _ => Ok(Some(to_nfc(alloc, text)?)),
        },
        Form::Nfd => match is_nfd_quick(text.chars()) {
            QuickCheck::Yes => Ok(None),
            _ => Ok(Some(to_nfd(alloc, text)?)),
        },
    }
}

/// The text's characters in the form, however many. A text of ASCII is in each form.
fn changed(alloc: Global, text: &str, form: Form) -> Result<Word, Memory>
    ensures form { IfOk result (λ w. w ≡ in_form form (chars text.now)) }
    ensures characters { IfOk result AreCharacters }
{
    if text.is_ascii() {
        return ascii_word(alloc, text);
    }
    match put_into(alloc, text, form)? {
        None => word_of(alloc, text),
        Some(put) => word_of(alloc, put.as_str()),
    }
}

/// The text's characters in the form.
pub fn formed(alloc: Global, text: &str, form: Form) -> Result<Word, Memory>
    ensures form { IfOk result (λ w. w ≡ in_form form (chars text.now)) }
    ensures characters { IfOk result AreCharacters }
    ensures short { IfOk result (λ w. length w < symbol_limit) }
{
    let word = changed(alloc, text, form)?;
    if word.len() > MOST_SYMBOLS {
        return Err(Memory);
    }
    Ok(word)
}

/// The characters in the form. A form of 4,294,967,295 symbols or more is answered by `Memory`.
/// Linear in the word and its form.
pub fn in_form(alloc: Global, word: &Word, form: Form) -> Result<Word, Memory>
    requires { AreCharacters word.now }
    ensures form { IfOk result (λ w. w ≡ in_form form word.now) }
    ensures characters { IfOk result AreCharacters }
    ensures short { IfOk result (λ w. length w < symbol_limit) }
{
    let bytes = utf8_of(alloc, word.as_slice())?;
    let text = str::from_utf8(&bytes).unwrap();
    formed(alloc, text, form)
}
