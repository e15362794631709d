//! Covers: coarse nets of a grammar's stretches, which accept at least their loose words.
//!
//! One net covers all rules of the grammar: each nonterminal has one entry and one exit, and rules
//! lead from the one to the other by their outer items. States from which the same leads on become
//! one, which only lets a net accept more. What is reached from a nonterminal's entry is its
//! fragment. The cover of a level stretch joins a net for each outer item: a terminal or
//! an ignorable has one that is made once, and a nonterminal its fragment. The covers of all groups'
//! insides stand under the groups' numbers.
//!
//! Where a net would be too large, there is none: covers only spare exact searches.
#![tactic(auto)]

mod automaton;
mod contents;
mod cover;
mod covers;
mod draft;
mod fragment;
mod ground;
mod join;
mod labelled;
mod leaf;
mod leaves;
mod merge;
mod pieces;
mod reach;
mod room;
mod rule;
mod signs;
mod site;
mod stretch;
mod whole;

pub use cover::{Content, Cover, Covers, Leaves, Outer, Whole};
