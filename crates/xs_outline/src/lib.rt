//! Outlines, a third notation for common trees: a line for each node and leaf.
//!
//! A line has the depth, the name of the slot in the parent, and the number of the production,
//! counted from 1, or the word of a leaf as a sheet quotes it; the root's name is `tree`. A node's
//! children follow it, each with all its own before the next, in any order. Outlines are thus a way
//! to make documents by program without knowing either side's spelling.
//!
//! The definitions stand in specs/: Lines (lines and how they are spelt), Shapes (trees as outlines
//! have them), Outline (what an outline is of, and where it is none), Order and Walk (how a tree is
//! written), Machine (how lines lead from one state to another), Reading and Parsed (how the parts of
//! a line are read), Tables (what is found of a slot by its name), and Reader (what is kept while
//! lines are read).
#![tactic(auto)]

mod children;
mod fault;
mod laws;
mod line;
mod numeral;
mod order;
mod page;
mod quoted;
mod reader;
mod reading;
mod slot_table;
mod writer;

pub use fault::OutlineFault;
pub use laws::{begins_tree, leads_to_tree, one_tree, written_has_tree, written_is_outline};
pub use line::{cut as cut_at_space, first_line};
pub use numeral::numeral as read_numeral;
pub use quoted::quoted as read_quoted;
pub use reading::read_outline;
pub use writer::write_outline;
