//! What several crates of tests need: the grammars of a sheet that is given as bytes, the items of a
//! sheet by letters, small sheets and those of examples/, names and words of texts, small nets, and
//! numbers that are drawn.
//!
//! The crates of tests stand apart from the crates that they try, so that each of those is proved
//! once: a crate with tests is proved a second time with them. They stand apart from one another, so
//! that a change of one crate proves few tests again.
#![tactic(auto)]

mod draws;
mod examples;
mod items;
mod names;
mod nets;
mod sheets;
mod small;

pub use draws::Draws;
pub use examples::EXAMPLES;
pub use items::{push_all, push_items};
pub use names::{add_characters, names_of, word_of};
pub use nets::run_of;
pub use sheets::{pair_of, two_of};
pub use small::{EMPTY, LEFT, NESTED, PAIR, RIGHT, SPACED};
