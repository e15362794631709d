//! Symbols, sets of them, the names of a sheet, and the project's own lists.
//!
//! A symbol is a character or a mark of an XML name. A character class is a set of symbols,
//! kept as disjoint sorted ranges, and its members are known exactly. Names stand in the order of
//! their bytes, and a name's place in it numbers its marks. Contracts see each list as a list,
//! however it is kept, and a `push` that finds no memory leaves it as it was.
#![tactic(auto)]

mod class;
mod copied;
mod listed;
mod memory;
mod named;
mod names;
mod side;
mod sym;
mod tables;
mod text;

pub use class::Class;
pub use copied::{Bytes, Copied, Word};
pub use listed::{Listed, empty_lists};
pub use memory::Memory;
pub use named::NameFault;
pub use names::Names;
pub use side::Side;
pub use sym::{ATTR_END, STRANGE, Sym};
pub use tables::{is_char, is_name_char, is_name_start};
pub use text::{Text, letters, word_of};
