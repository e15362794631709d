//! The check that a sheet is not ambiguous: two grammars are accepted where no rule is heavy and
//! neither has a suspect, and then each word of either has at most one derivation.
//!
//! The weights of both sides are looked at before any suspect, and text stands before XML.
#![tactic(auto)]

mod accepted;
mod checking;
mod fault;
mod suspects;

pub use accepted::Accepted;
pub use checking::accept;
pub use fault::AcceptFault;
