//! Nondeterministic finite automata (nets) whose edges read classes of symbols, with empty moves
//! and calls of groups, and the maps in which searches over pairs of their states mark what they
//! reach.
//!
//! A net accepts the words of the paths from its start to its final states. By itself it goes
//! nowhere by its calls; over a nest of groups, a call reads the left symbol of its group's fence,
//! a word that the group's content accepts, and the right symbol.
#![tactic(auto)]

mod bits;
mod call;
mod common;
mod edge;
mod grouped;
mod nest;
mod net;
mod pairs;

pub use bits::BitSet;
pub use call::Call;
pub use common::first_common;
pub use edge::{Edge, Edges};
pub use nest::Nest;
pub use net::{Draft, Net};
pub use pairs::Pairs;
