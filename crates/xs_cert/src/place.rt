/// A byte of a certificate, and how many lines stand before it.
#[derive(Clone, Copy, Debug)]
pub struct Place {
    pub byte: usize,
    pub lines: u64,
}

/// How far bytes were read as a certificate.
#[derive(Clone, Copy, Debug)]
pub enum Reading {
    /// What was wanted stands there, up to this place.
    Whole(Place),
    /// It does not; the longest good front has that many lines.
    Broken { lines: u64 },
}
