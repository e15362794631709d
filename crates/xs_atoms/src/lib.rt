//! Atoms: the symbols of a grammar's alphabet, as far as its classes tell them apart.
//!
//! Symbols that every class of a grammar has or has not together have one number, their atom. The
//! classes of a grammar are those of its terminals' and ignorables' automata, and each symbol of a
//! fixed word as a class of its own. So a document can be read as a list of small numbers, and tables
//! over atoms take the place of searches in classes.
#![tactic(auto)]

mod atoms;
mod distinct;
mod fault;
mod fixed;
mod numbers;
mod pages;
mod sweep;
mod turns;

pub use atoms::Atoms;
