//! Well-formed sheets: those in which none of fifteen rules fails.
//!
//! The first seven rules give a sheet its two grammars, and the last three are on fences; here stand
//! the five between. The definitions stand in specs/: Units (classes, characters, normal spellings),
//! Nonterminals (words and loops), Rules (all fifteen), Passing (what is known while the five are
//! tried).
#![tactic(auto)]

mod least;
mod nonterminals;
mod units;
mod well;

pub use least::{least_not_char, least_strange, least_unit};
pub use nonterminals::{least_loop, least_unproductive};
pub use units::{is_empty_unit, is_strange_rule, is_strange_unit, is_unmatched_unit};
pub use well::{WfFault, well_formed};
