//! A scannerless LR reader, which guesses the derivation of a document.
//!
//! The automaton is that of LR(0) over tokens and nonterminals, where the tokens of a state are read
//! by one deterministic automaton. Where more than one action may be done the next atoms decide, as
//! many as are needed up to eight; where they do not, all actions are done over a graph-structured
//! stack until one way is left. States, rows and cells of the table are made as they are needed.
//!
//! Nothing is promised of what the reader finds but that it ends, in bounded memory: a parse table is to
//! be checked against the document, and where none is found the document may still have one.
#![tactic(auto)]

mod action;
mod automaton;
mod bits;
mod course;
mod fork;
mod grammar;
mod graph;
mod keys;
mod lists;
mod made;
mod reader;
mod reading;
mod rules;
mod search;
mod sets;
mod states;
mod straight;
mod tokens;
mod tree;

pub use reader::{PADDING, read};
