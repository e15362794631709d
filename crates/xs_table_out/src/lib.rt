//! Printing straight from a parse table: the word, on another side of a sheet, of the tree of the
//! derivation that a table means.
//!
//! No tree is made. What each production prints is found once, as steps: a stretch of text, and then
//! how the child at a slot is found among a node's parts (`children`, `steps`). A walk from the last
//! node on does these steps one after another, and hands each stretch to a writer (`writer`, `walk`).
//! A leaf's word is a stretch of the document.
#![tactic(auto)]

mod append;
mod children;
mod document;
mod layout;
mod printing;
mod steps;
mod stretch;
mod symbols;
mod text;
mod walk;
mod writer;
mod xml;

pub use document::document_of_table;
pub use symbols::print_table;
