//! Searches through the product of two nets, over a nest of groups that they call.
//!
//! One search finds a word that two nets accept, the other words x, a and y, a not empty, such that
//! one net accepts x and xa and the other y and ay; each answers none exactly where there is none.
//! Both go only where pairs of states are reached, mark them in maps that they are lent, and keep
//! each with the pair that it was reached from, from which the words are read back. Where both nets
//! call a group, they go on exactly where the two groups share a word; which groups do is found by
//! the same search, round by round.
#![tactic(auto)]

mod callers;
mod layer;
mod meet;
mod overlap;
mod piece;
mod reached_pair;
mod rounds;
mod seat;
mod seeds;
mod shared_groups;
mod sharing;
mod spread;
mod trace;

pub use meet::{meet_nested, meet_word};
pub use overlap::{Overlap, overlap_nested, overlap_word};
pub use rounds::shared;
pub use seat::Seat;
pub use sharing::Shared;
pub use xs_auto::{Call, Nest};
