//! Earley's recogniser (predict, scan, complete): whether a document is of a grammar's language,
//! and its chart, or how far it begins a word of the language.
//!
//! The sets of the chart are filled one after another, by a [`Run`]. What the last set leads to by
//! the next symbol is gathered first: items inside terminals and ignorables, items after fixed words,
//! and the fixed words of which a part was read, which stand in a list of their own beside each set.
//! Where nothing is gathered, no word of the language begins so. Then the items of the new set are
//! settled: one leads on there where its next item can be empty, where it stands before a
//! nonterminal, and where it ends a rule. What is asked of a place stands in a row, computed once.
//! The definitions of specs/ say what is gathered, what is added and who waits; the laws of the layer
//! below make the sets the chart.
#![tactic(auto)]

mod adding;
mod arrive;
mod begun;
mod called;
mod facts;
mod fault;
mod following;
mod masks;
mod places;
mod recogniser;
mod rows;
mod run;
mod settle;
mod stage;
mod steps;

pub use fault::SeeFault;
pub use recogniser::recognise;
pub use run::Run;
