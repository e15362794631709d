//! Tests of the crates that read and translate documents, of what no run of the program shows: the
//! fast reader beside the exact one, parse tables that are made by hand, trees that are compared,
//! words that are put into a form and encoded, and devices that are interrupted or full. What a run
//! shows stands in the tables of tests/.
//!
//! `xs_test_tools` says why they stand apart from the crates that they try.
#![tactic(auto)]

#[cfg(test)]
mod tests;
