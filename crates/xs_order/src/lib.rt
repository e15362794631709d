//! Analysis of the nonterminals of a grammar: which are nullable, which are productive, their
//! strongly connected components, and a topological order in which each comes after those to which
//! it leads.
//!
//! The first two are least models of Horn clauses, one clause for each rule; the others come from
//! the components of a graph whose nodes are the nonterminals. All take time and memory linear in
//! the grammar.
#![tactic(auto)]

mod component;
mod derived;
mod fault;
mod graphs;
mod leading;
mod leaves;
mod rules;
mod unit_ranks;
mod wanted;
mod words;

pub use component::components;
pub use derived::{nullable, productive};
pub use fault::OrderFault;
pub use unit_ranks::unit_order;
pub use xs_clauses::Flags;
pub use xs_graph::Numbers as Ranks;
