//! Laws of writing: each word of a sheet's two languages can be written, since texts consist of
//! characters and documents are balanced words (Dyck words) over Names of XML.
//!
//! The lens law that what is written is read back as the same word rests on these: it speaks of
//! characters and of balanced words. The statements stand in specs/. Each function here is a law,
//! and does nothing when it runs.
#![tactic(auto)]

ghost use Rattle.xs_writing_laws.specs.Laws.{TextsAreCharacters, DocumentsAreBalanced, NamesAreNames, WordsCanBeWritten};

/// A word of the language of texts consists of characters.
pub fn texts_are_characters()
    ensures { TextsAreCharacters }
{}

/// A word of the language of XML documents is balanced, over the names of the sheet.
pub fn documents_are_balanced()
    ensures { DocumentsAreBalanced }
{}

/// The names of a sheet's elements and attributes are Names of XML.
pub fn names_are_names()
    ensures { NamesAreNames }
{}

/// The words of both languages of a sheet that was read can be written.
pub fn words_can_be_written()
    ensures { WordsCanBeWritten }
{}
