//! Smallest documents: for each production of a sheet the least size of a document pair that uses
//! it, and such a pair's tree.
//!
//! The size of a common tree is the number of symbols of its words on both sides, where ignorables
//! stand in their normal spellings. Sizes add up: a production costs what it has of its own on both
//! sides, and what its slots cost; a terminal costs its least word once for each side (`words`,
//! `leaves`), a nonterminal what its cheapest production does. So the least tree of each nonterminal
//! is found as by Knuth, A generalization of Dijkstra's algorithm, 1977 (`picks`), and what stands
//! around each nonterminal in a tree of the start by Dijkstra's algorithm itself (`contexts`,
//! `downwards`). Least trees are rows of a forest: one for each nonterminal and one for the first
//! items of each rule (`pick`), each with the cheapest alternative alone, added at its final cost.
//!
//! The least size for a production is the sum of what stands around its nonterminal and what it
//! costs itself (`covers`); its tree is read off the forest (`trees`) and the steps that lead there
//! (`shown`).
//!
//! specs/ has sizes, which productions a tree uses, what the least size is (Sizes), and costs from
//! which no rule leads to lower ones (Costs): no tree that shows a production is smaller than such
//! closed costs say, and a tree as small as they say is a least one. Picks says what the rows are,
//! and why no rule that is ready or waits for a row costs less than one that has come off the heap.
#![tactic(auto)]

mod contexts;
mod covers;
mod downwards;
mod laws;
mod leaves;
mod pick;
mod picks;
mod prices;
mod rows;
mod shown;
mod trees;
mod words;

pub use covers::{Covers, cover};
pub use laws::{closed_costs_are_low, costs_are_least, sizes_add, unreached_is_not_shown};
pub use pick::Pick;
