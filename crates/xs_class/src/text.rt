ghost use Rattle.std.specs.Prelude.{◌≡◌, ◌<◌, true, [], ◌∷◌, ◌++◌, length, nat_lt, OnOk, OnErr, IfOk, encode_utf8_all};
ghost use Rattle.std.specs.List.{list_all};
ghost use Rattle.std.specs.Str.{chars};

use crate::{Memory, Sym, Word};
use std::alloc::Global;
use std::marker::Model;

/// A list of characters, kept as UTF-8, which contracts see as the list of their code points.
#[derive(Debug, Drop)]
pub struct Text {
    text: String,
}

impl Model for Text {
    ghost use Rattle.std.specs.Prelude.{List, ℕ, string_bytes};
    ghost use Rattle.std.specs.Str.{chars};

    ghost Value = { List ℕ };

    ghost view = { λ t. chars (string_bytes t.text) };
}

impl Text {
    /// The empty text, without memory.
    pub fn new(alloc: Global) -> Self
        ensures { result ≡ [] }
    {
        Text {
            text: String::new(alloc),
        }
    }

    /// The text of these characters.
    pub fn of(alloc: Global, text: &str) -> Result<Self, Memory>
        ensures { IfOk result (λ t. t ≡ chars text.now) }
    {
        Ok(Text {
            text: String::from_str(alloc, text)?,
        })
    }

    /// The same text once more.
    pub fn copy(&self) -> Result<Self, Memory>
        ensures { IfOk result (λ t. t ≡ self.now) }
    {
        Text::of(*self.text.allocator(), self.text.as_str())
    }

    /// Appends a character, or leaves the text as it was.
    pub fn push(&mut self, c: char) -> Result<(), Memory>
        ensures ok { OnOk result (self.new ≡ self.old ++ c ∷ []) }
        ensures err { OnErr result (self.new ≡ self.old) }
    {
        self.text.push(c)?;
        Ok(())
    }

    /// Appends the characters of a string, or leaves the text as it was.
    pub fn push_str(&mut self, piece: &str) -> Result<(), Memory>
        ensures ok { OnOk result (self.new ≡ self.old ++ chars piece.now) }
        ensures err { OnErr result (self.new ≡ self.old) }
    {
        self.text.push_str(piece)?;
        Ok(())
    }

    /// Appends ASCII characters, or leaves the text as it was.
    pub fn push_ascii(&mut self, word: &str) -> Result<(), Memory>
        requires { list_all (λ b. nat_lt b 128) word.now ≡ true }
        ensures ok { OnOk result (self.new ≡ self.old ++ word.now) }
        ensures err { OnErr result (self.new ≡ self.old) }
    {
        self.push_str(word)
    }

    /// Appends a text, or leaves the one before as it was.
    pub fn push_text(&mut self, text: &Text) -> Result<(), Memory>
        ensures ok { OnOk result (self.new ≡ self.old ++ text.now) }
        ensures err { OnErr result (self.new ≡ self.old) }
    {
        self.push_str(text.as_str())
    }

    /// The UTF-8 of the characters, without memory.
    pub fn into_bytes(self) -> Vec<u8>
        ensures { result.items ≡ encode_utf8_all self }
    {
        self.text.into_bytes()
    }

    /// The UTF-8 of the characters.
    pub fn as_str(&self) -> &str
        ensures spelled { result.now ≡ encode_utf8_all self.now }
        ensures read { chars result.now ≡ self.now }
    {
        self.text.as_str()
    }

    /// The number of characters, counted in time linear in the text.
    pub fn len(&self) -> usize
        ensures { result ≡ length self.now }
    {
        self.text.as_str().chars().count()
    }
}

/// The characters of a string.
pub fn letters(alloc: Global, text: &str) -> Result<Vec<char>, Memory>
    ensures { IfOk result (λ v. v.items ≡ chars text.now) }
{
    Ok(text.chars().collect(alloc)?)
}

/// The word of a text's characters.
pub fn word_of(alloc: Global, text: &Text) -> Result<Word, Memory>
    ensures { IfOk result (λ w. w ≡ text.now) }
{
    let letters = letters(alloc, text.as_str())?;
    let mut word = Word::new(alloc);
    'letters: for letter in &letters {
        word.push(Sym::of_char(*letter))?;
    }
    Ok(word)
}
