//! The lines of a certificate: heads of blocks, and rows of sets of pairs, each a state and its
//! partners. They are written, and read where they stand: nothing is kept of what was read but the
//! set.
#![tactic(auto)]

mod laws;
mod line;
mod number;
mod page;
mod row;
mod rows;
mod run;

pub use laws::lines_are_read_once;
pub use line::{is_last_line, read_line, read_pair, write_pair};
pub use rows::write_rows;
pub use run::{Run, read_rows};
