//! The normal writing of XML: the symbols of one balanced element, and the bytes of its document.
//!
//! A balanced word is the opening of a name, attributes in strictly ascending order of names, each
//! a mark, its value's characters and the mark that ends it, then characters and balanced elements,
//! and the closing of that name. Names are looked up by their places in a list. What is written
//! has no declaration, each attribute after one space and in double quotes, empty elements as one
//! tag, and one line feed after the root.
#![tactic(auto)]

mod characters;
mod kind;
mod law;
mod mode;
mod spelling;
mod tags;
mod writable;
mod write;

pub use characters::put_characters;
pub use law::xml_is_read_back;
pub use mode::Mode;
pub use tags::Tags;
pub use writable::are_known;
pub use write::{put_stretch, write_xml};
