//! Laws of shared packed parse forests, with symbol nodes (`Whole`) and intermediate nodes
//! (`Front`): what the unfoldings of a forest's rows read as.
//!
//! A row is known by a label, what it is of and the stretch of the document that it covers, and its
//! alternatives name earlier rows as children. An unfolding of a row chooses an alternative, and an
//! unfolding of each of its children; read with the labels and the document it is a part of a
//! derivation. The definitions stand in specs/: Forest says what unfoldings are, what they read as
//! and when a forest is right; Grown says it by tests on a chart; Adding is one more row; Order and
//! Placed are the order of labels in which children come first; First, Number, Listing and Walk are
//! unfoldings by the first alternatives and by number, and their parts as a flat list. Each
//! function here is a law, and does nothing when it runs.
#![tactic(auto)]

mod grown;
mod laws;
mod span;

pub use grown::Grown;
pub use laws::{
    added_is_grown, children_come_first, first_unfolds, fitting_is_unfolded, grown_is_exact,
    grown_is_right, numbered_is_listed, reading_is_once, root_is_exact, unfolding_fits,
};
pub use span::{SpanKey, What};
