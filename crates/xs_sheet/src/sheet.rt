use crate::Units;
use xs_class::Text;

/// A stylesheet.
#[derive(Debug, Drop)]
pub struct Sheet {
    /// The number in the version word.
    pub version: u32,
    /// The name of the start.
    pub start: Text,
    /// The line of the word `start`, counted from 1.
    pub start_line: u32,
    pub units: Units,
}
