//! The sheets that the program includes, Leiden core 1 and 2, and texts of core 1 that are made from
//! a seed.
//!
//! The sheets are cores of Leiden+, the notation in which papyri are edited, and of the EpiDoc XML
//! that belongs to it; in core 2 marks may stand inside marks. A made text is one block of numbered
//! lines of words, gaps, supplements, expansions and unclear letters, all drawn from a seed, so that
//! a text of any length can be tried.
#![tactic(auto)]

mod draws;
mod items;
mod lines;
mod sheet;
mod words;

pub use lines::make_text;
pub use sheet::{leiden_sheet, leiden2_sheet};
