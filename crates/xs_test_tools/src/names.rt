//! Names and words of texts.
ghost use Rattle.std.specs.Prelude.{◌≡◌, ◌<◌, [], length, OnOk};

use std::alloc::Global;
use xs_class::{Memory, Names, Sym, Text, Word};

/// Adds the texts to an empty list.
fn add_texts(alloc: Global, texts: &[&str], list: &mut Vec<Text>) -> Result<(), Memory>
    requires { list.old.items ≡ [] }
    ensures { OnOk result (length list.new.items ≡ length texts.now) }
{
    'texts: for text in texts {
        list.push(Text::of(alloc, text)?)?;
    }
    Ok(())
}

/// The list of these names.
pub fn names_of(alloc: Global, texts: &[&str]) -> Result<Names, Memory>
    requires { length texts.now < 65536 }
{
    let mut list = Vec::new(alloc);
    add_texts(alloc, texts, &mut list)?;
    Names::of(alloc, &list)
}

/// Adds the characters of a text.
pub fn add_characters(word: &mut Word, text: &str) -> Result<(), Memory> {
    for c in text.chars() {
        word.push(Sym::of_char(c))?;
    }
    Ok(())
}

/// The word of a text's characters.
pub fn word_of(alloc: Global, text: &str) -> Result<Word, Memory> {
    let mut word = Word::new(alloc);
    add_characters(&mut word, text)?;
    Ok(word)
}
