//! Editor sessions: a text document that is edited, and what is known of it after each edit.
//!
//! A [`Session`] keeps the document and a run of the recogniser over its longest viable prefix. An
//! edit goes back to its place, where the sets of the chart before it stay as they are, and reads on
//! from there. Told are how far the document can be read, which characters may come after a prefix
//! of it, and a derivation of the whole; each as if it were computed from scratch.
//!
//! The definitions stand in specs/: Edits (the document after an edit, and when there is none) and
//! Sessions (what a session is, and what it tells).
#![tactic(auto)]

mod changing;
mod derivation;
mod fault;
mod session;

pub use fault::EditFault;
pub use session::Session;
