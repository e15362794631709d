//! A document of one side of a sheet translated into the document of a side that has the same tree,
//! or made that tree.
//!
//! Turning is exact: the document is recognised by the grammar of its side, its forest is grown in
//! an arena, and the tree of one of the derivations in it is printed on the other side (`turning`).
//! A faster way is tried first: a reader guesses the derivation of the document as a table, which is
//! checked (`guess`). A translation is printed straight from the table, as a word (`translating`) or
//! at once as the bytes of its document (`rewriting`); where the tree is asked for (`parsing`), it
//! is made of the table (`table`). Only where nothing was guessed or the check says no the document
//! is turned. That the tree fits on either side is a law (`laws`): the tree of a derivation fits,
//! and the two grammars have the same trees.
#![tactic(auto)]

mod fault;
mod guess;
mod laws;
mod parsing;
mod rewriting;
mod table;
mod translating;
mod turning;

pub use fault::TurnFault;
pub use laws::stripped_fits;
pub use parsing::parse;
pub use rewriting::{Rewritten, rewrite};
pub use translating::translate;
pub use turning::{Turned, forest_of, turn};
