//! What a run says in lines: how it ended, the counts of an answer, and the derivations of a text.
//!
//! `line_of` gives the line of an outcome, and `room` and `fault_line` that of a write fault
//! without memory at that moment. `accepted_line` and `summary` give the answers of `check` and
//! `make`. `tree_line` gives the line of one derivation, and `listing` the lines of different
//! derivations in order. `cover_text` gives the lines of smallest documents for the productions of a
//! sheet. The definitions stand in specs/: Words shows the symbols of a word, Lines and Room are the
//! lines of outcomes, Counts the lines with counts, Derivations the line of a derivation and the
//! listing of a text, Slots says when slots have names, Walk what a step over a derivation written
//! flat writes, and Covers the lines of smallest documents.
#![tactic(auto)]

mod counts;
mod covers;
mod derivations;
mod line;
mod outcome;
mod telling;
mod walk;
mod words;

pub use counts::{accepted_line, summary};
pub use covers::{Shown, cover_text};
pub use derivations::listing;
pub use line::{Line, fault_line, room};
pub use outcome::{Outcome, Report};
pub use telling::line_of;
pub use walk::tree_line;
pub use words::{push_decimal, push_symbol};
