//! The grammar of XML as a list of pieces: what a piece is, which lists of pieces are legal, and
//! what they mean.
//!
//! The definitions stand in `specs/`: `Piece` has the nine kinds with their spellings, `Legal` the
//! five rules of a legal list, `Reads` the symbols of a document and the place where it breaks.
//! They restate the profile of XML 1.0, fifth edition, without a document type.
#![tactic(auto)]

ghost use Rattle.xs_xml_laws.specs.Laws.{OneReading};

/// A document has one reading: there is one way to cut it into pieces.
pub fn one_word()
    ensures { OneReading }
{}
