//! Horizontal ambiguity: a cut of a rule at which the loose words of its front and its rest overlap.
//!
//! Rules are gone through in order, and the cuts of each in order, so that the suspect that is found
//! is the first. Where no rule weighs more than 8,192, either a suspect is found or there is none.
#![tactic(auto)]

mod search;

pub use search::{Horiz, first_horizontal, horizontal};
pub use xs_searches::CheckFault;
