//! The lexer of sheets: the file's bytes cut into tokens, which are names, strings, patterns and
//! signs.
//!
//! A sheet is UTF-8, and one U+FEFF at its very front is skipped. Between tokens stand spaces,
//! tabs, CR, LF and comments, which go from `#` to the end of the line. At each place the longest
//! token is taken. The last token, and no other, is `End` at the end of the file, or `Bad` at the
//! first place where nothing can be read.
#![tactic(auto)]

mod blanks;
mod classes;
mod kind;
mod location;
mod names;
mod patterns;
mod quoted;
mod reading;
mod scan;
mod token;

pub use kind::Kind;
pub use quoted::quoted_value;
pub use reading::{separated, tokens};
pub use token::{Token, Tokens};
