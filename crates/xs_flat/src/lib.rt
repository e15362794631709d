//! Lists of lists kept flat: all elements in one list, and beside it where each list ends.
//!
//! A list that is put last takes its elements and one number, and no allocation of its own.
#![tactic(auto)]

mod lists;

pub use lists::FlatLists;
