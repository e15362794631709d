//! Regular expressions over classes of symbols, and the position automaton of Glushkov for each: an
//! NFA without empty moves.
//!
//! A regex matches words of symbols. Its automaton has one state for each place of a class in it,
//! and accepts exactly the words that the regex matches.
#![tactic(auto)]

mod automaton;
mod characters;
mod compose;
mod fault;
mod forms;
mod laws;
mod lists;
mod matching;
mod measure;
mod position;
mod read;
mod reader;
mod regex;
mod repeat;
mod sets;

pub use automaton::positions;
pub use fault::RegexFault;
pub use laws::one_automaton;
pub use matching::{Matcher, matches, some_marked};
pub use position::{Classes, Follows, Numbers, Position};
pub use read::{one_regex, read_regex};
pub use regex::Regex;
