//! Printing: the word of a common tree on one side of a sheet, each ignorable in its normal
//! spelling.
//!
//! What each production prints by itself, and at which slots, is found once for a grammar, and
//! serves any number of trees. The lengths that the parts of a flat tree print are counted first,
//! from the leaves upwards. Then the room for the whole word, and for the walk that writes it, is
//! reserved, and nothing after that takes memory. The walk has a list of its own for the nodes that
//! it is in, and passes over parts that print nothing.
#![tactic(auto)]

mod items;
mod lengths;
mod pieces;
mod printing;
mod shares;
mod walk;

pub use pieces::{Piece, Pieces, Row, pieces_of};
pub use printing::{Printer, print_syms};
