//! Tests of calls that no run of the program makes: of the check of a stylesheet those of
//! `xs_loose` over parts of rules, of `xs_meet` over nets without groups, and of `xs_vert` and
//! `xs_horiz` by themselves, beside what a screen of `xs_screen` leaves in doubt; and of words that
//! are copied. What a run shows stands in tests/; `drawn-sheets` there has slow programs beside it.
//!
//! `xs_test_tools` says why they stand apart from the crates that they try.
#![tactic(auto)]

#[cfg(test)]
mod tests;
