//! The crate that reads XML: the symbols of a document, or the place where it is no XML of the
//! profile.
//!
//! The reader takes the document piece by piece, as `xs_xml_laws` defines pieces, and keeps the elements
//! that have not ended in a list of its own. The name of the crate has nothing to do with `Form`,
//! the normal form of a text in `xs_chars`.
#![tactic(auto)]

mod attribute;
mod attributes;
mod document;
mod marks;
mod order;
mod pieces;
mod reader;
mod references;
mod runs;
mod sorted;
mod values;

pub use document::{XmlFault, read_xml};
