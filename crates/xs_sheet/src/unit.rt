use crate::{Items, XItems};
use xs_class::{Listed, Text};
use xs_regex::Regex;

/// A unit of a sheet, with the line of its first token, counted from 1.
#[derive(Debug, Drop)]
pub enum Unit {
    /// A name for the words that a regular expression matches.
    Terminal {
        name: Text,
        pattern: Text,
        regex: Regex,
        line: u32,
    },
    /// The same for words that carry nothing; the normal spelling is written in their place.
    Ignorable {
        name: Text,
        pattern: Text,
        regex: Regex,
        normal: Text,
        line: u32,
    },
    /// A production of a nonterminal, with its text side and its XML side.
    Production {
        name: Text,
        left: Items,
        right: XItems,
        line: u32,
    },
    /// Two characters that stand round what they open and close, in a sheet of version 2.
    Fence {
        left: Text,
        right: Text,
        line: u32,
    },
}

/// Units in order.
pub type Units = Listed<Unit>;
