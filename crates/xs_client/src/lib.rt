//! What a caller of the program can promise: equations of bytes over two runs by one sheet, proved
//! from the contracts of `xs_top` and of the devices in memory alone.
//!
//! - `text_and_back`: a text is translated to XML, and what was written back to text.
//! - `round_twice`: a text is put into its normal spelling, and what was written once more.
//! - `check_and_translate`: a sheet is checked, and then a text is translated by it.
#![tactic(auto)]

mod back;
mod checked;
mod ran;
#[cfg(test)]
mod tests;
mod words;

pub use back::{round_twice, text_and_back};
pub use checked::check_and_translate;
pub use ran::{Ran, Two};
