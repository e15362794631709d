//! Tests of what no run of the built program shows: runs over devices that fail (`run`), lines of
//! outcomes, a document of an edit script at its limit. What a run shows is in the tables of tests/;
//! the layers below have their tests in `xs_sheet_tests` and `xs_document_tests`.
//!
//! `xs_test_tools` says why they stand apart from the crates that they try.
#![tactic(auto)]

#[cfg(test)]
mod tests;
