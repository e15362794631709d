//! The least model of Horn clauses, by unit propagation in linear time.
//!
//! A clause has a head and premises, all of them numbers. The clauses make the least set of numbers
//! that has the head of each clause all of whose premises it has. It is computed as by Dowling and
//! Gallier, Linear-time algorithms for testing the satisfiability of propositional Horn formulae,
//! 1984. So each fixed point of a grammar, as which nonterminals are nullable, is a list of clauses.
#![tactic(auto)]

mod clause;
mod marking;
mod search;
mod uses;

pub use clause::{Clause, Flags, Premises};
pub use marking::made;
