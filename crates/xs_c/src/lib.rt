//! The translator for callers in C: the functions that include/xsugar.h declares.
//!
//! - `opening`: a sheet is read, checked and opened, or closed. What is kept of it, its two grammars,
//!   stands behind a pointer that C holds, so no later call reads or checks it again.
//! - `documents`: a document is translated by an open sheet, put into its normal spelling, or made an
//!   outline, or made of one.
//! - `running`: the whole program over bytes in memory.
//!
//! Each returns a status, that of the program or one of its own, and tells the rest by an `Answer`.
//! The bytes of an answer are a block that C frees.
//!
//! What C holds of a sheet is a `Sheet` (`sheet`); `held` turns what is `kept` into a pointer and
//! back, by its `parts`: these alone are proved by hand.
#![tactic(auto)]

mod answer;
mod documents;
mod held;
mod kept;
mod opening;
mod parts;
mod running;
mod sheet;
mod working;

pub use answer::{Answer, MEMORY, NOT_OPEN};
pub use documents::{
    xsugar_from_tree, xsugar_round_text, xsugar_round_xml, xsugar_session, xsugar_to_text,
    xsugar_to_tree, xsugar_to_xml,
};
pub use opening::{
    xsugar_sheet_close, xsugar_sheet_leiden, xsugar_sheet_leiden2, xsugar_sheet_open,
};
pub use running::{Word, xsugar_run};
pub use sheet::Sheet;
