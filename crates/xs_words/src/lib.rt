//! The words that the program is called with, and the command that they are.
//!
//! Exactly twenty-one forms of words are commands, and any other list of words is none. A command names
//! its sheet, the form that its text is put into, and its numbers.
#![tactic(auto)]

mod command;
mod number;
mod reading;

pub use command::{Command, SheetName};
pub use reading::command_of;
