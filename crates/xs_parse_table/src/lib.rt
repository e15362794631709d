//! Parse tables: a derivation of a document as two flat lists, and the check of one.
//!
//! Whoever guesses a derivation writes it as a table. The check asks of each node only that it is
//! right by itself: that its items, one after another, go from its beginning up to its end, where a
//! nonterminal's item is an earlier node. A terminal's word is run by moves over atoms that were made
//! for its automaton, or by the automaton itself where it has too many sets of positions. A table
//! that passes means a derivation of the document.
#![tactic(auto)]

mod check;
mod item;
mod moves;
mod runs;
mod sets;
mod table;
mod validator;

pub use table::{Node, ParseTable};
pub use validator::Validator;
