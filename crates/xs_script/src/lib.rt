//! Edit scripts: lines that edit a text document and ask about it, and the lines that answer them.
//!
//! [`play`] reads a script line by line and plays it over a session, whose document begins empty.
//! Each line is answered by one line, of the document as it then is, as if each time it were read
//! from scratch. A line that spells no request ends it.
//!
//! The definitions stand in specs/: Requests (what a line asks for, and how it is spelt), Playing
//! (what each request is answered, and what a whole script is) and Drafts (a document of which a
//! session has read an older state).
#![tactic(auto)]

mod answering;
mod draft;
mod fault;
mod playing;
mod request;

pub use fault::ScriptFault;
pub use playing::play;
pub use request::Request;
