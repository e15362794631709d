//! The derivations of a document, out of its shared forest.
//!
//! `one_tree` gives the common tree of one derivation; rows that it has several times are one part
//! of the flat tree. `list_trees` numbers the derivations, by counts of unfoldings that stop at a
//! cap, and writes each out from its number, as a list of parts in which kids come first.
#![tactic(auto)]

mod count;
mod kids;
mod list;
mod marks;
mod nodes;
mod rows;
mod sizes;
mod spelt;
mod tree;
mod write;

pub use list::list_trees;
// Exported so that the contracts of other crates can name a part.
pub use spelt::{Kids, Listing, Spelt, SpeltPart, Spelts};
pub use tree::one_tree;
