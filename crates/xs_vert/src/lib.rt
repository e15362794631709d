//! Vertical ambiguity: two rules of one nonterminal with a word that is loose for both.
//!
//! Rules are compared in order, each with those after it, so that the suspect that is found is the
//! first. Where no rule weighs more than 8,192, either a suspect is found or there is none.
#![tactic(auto)]

mod search;

pub use search::{Vert, first_vertical, vertical};
pub use xs_searches::CheckFault;
