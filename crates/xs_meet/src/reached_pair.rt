/// A pair of states that a search has reached, and the place of the pair that it was reached from.
#[derive(Clone, Copy, Debug)]
pub struct ReachedPair {
    pub first: u32,
    pub second: u32,
    pub from: usize,
}
