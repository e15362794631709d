//! Earley sets and their items, with waiting lists: the chart that a recogniser fills set by set.
//!
//! A set is a list of different items in the order in which they were added, and beside it stands,
//! for each nonterminal that is awaited there, the list of the items' numbers that wait for it. The
//! set that is being built is an ordered hashed set. The items of all finished sets, to which nothing
//! is added any more, lie in one list, and so do the entries of their waiting lists, grouped by the
//! nonterminal. A chart takes memory in the number of its items, and no allocation of a set's own.
#![tactic(auto)]

mod chart;
mod item;
mod set;
mod waiting;

pub use chart::Chart;
pub use item::Item;
use waiting::{Waiter, Waiting};
