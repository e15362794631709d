use crate::Kind;
use xs_class::Listed;

/// A token's kind and place: the bytes from `start` up to `end`, and its line counted from 1.
#[derive(Clone, Copy, Debug, PartialEq, Eq)]
pub struct Token {
    pub kind: Kind,
    pub start: u32,
    pub end: u32,
    pub line: u32,
}

/// The tokens of a file in order.
pub type Tokens = Listed<Token>;
