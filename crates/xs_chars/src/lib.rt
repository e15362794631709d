//! Text documents: the characters of bytes, the bytes of characters, and normal forms.
//!
//! A text is read as UTF-8, without one byte order mark at the very front, in a form that its
//! reader names; it is written as UTF-8 so that reading gives the same characters.
#![tactic(auto)]

mod form;
mod laws;
mod reading;
mod reserved;
mod room;
mod strings;
mod writing;

pub use form::{Form, in_form};
pub use laws::{encoded_is_decoded, text_is_read_back};
pub use reading::{DecodeFault, decode, read_text};
pub use reserved::{append_utf8, put_bytes, put_character};
pub use writing::{encode, write_text};
