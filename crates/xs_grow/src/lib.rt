//! Growing the shared packed parse forest of a document from its chart, and what is read from it.
//!
//! The forest has the rows that its root needs and no others. First the chart is read for what a
//! label does not show by itself (`gather`): which rules are finished over each stretch of a
//! nonterminal, and for two or more first items of a rule of which the last is no fixed word, where
//! that may begin. For that each such item of the chart is looked at forwards: an automaton runs on
//! from it (`runs`), and where a nonterminal ends is looked up by its call (`calls`, in hashed
//! `marks`). What was found are flat lists in the order of the labels' stretches, in which the
//! numbers of a label are found by halving (`sorted`).
//!
//! Then rows are made from the root on, with a stack of labels (`forest`): the numbers of the last
//! label are found (`numbers`), each stands for an alternative, and where all children have rows the
//! label gets its own (`rows`); else the labels of the missing ones go on the stack.
#![tactic(auto)]

mod call;
mod calls;
mod ends;
mod forest;
mod gather;
mod marks;
mod numbers;
mod rows;
mod runs;
mod sorted;
mod source;

pub use forest::{grow, grow_last};
// A forest is read by the names that stand here too.
pub use xs_forest_laws::{Grown, SpanKey, What};
pub use xs_listing::{Kids, Listing, Spelt, SpeltPart, Spelts, list_trees, one_tree};
