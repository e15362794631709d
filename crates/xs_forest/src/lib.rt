//! The container of a shared packed parse forest: rows, each with its packed nodes (`Alt`).
//!
//! A row has a label and its alternatives, which name earlier rows as children. Rows are numbered
//! from 0 in the order in which they were added, and no two have one label. The alternatives lie
//! in an arena, so the rows lend them for as long as it lives; a row is found by its label's hash.
#![tactic(auto)]

mod fault;
mod forest;
mod label;
mod row;

pub use fault::AddFault;
pub use forest::Forest;
pub use label::Label;
pub use row::{Alt, Row};
