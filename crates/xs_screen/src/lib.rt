//! Screens: quick searches over coarse nets, which see of most pairs of rules and of most cuts that
//! they have no suspect. What a screen does not see is left to the exact searches.
//!
//! Fixed words at the ends of rules, and round cuts, are looked at without a net. Else each rule has
//! one net, which covers its loose words, for all its partners and all its cuts; and first it is seen
//! which two groups read no common word, though they have one fence.
#![tactic(auto)]

mod apart;
mod cuts;
mod fixed;
mod groups;
mod kept;
mod places;
mod rules;
mod screen;

pub use apart::are_fixed_apart;
pub use fixed::{are_any, fixed_doubts};
pub use kept::Kept;
pub use rules::whole;
pub use screen::Screen;
