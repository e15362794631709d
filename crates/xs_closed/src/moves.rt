/// The moves by which a search goes on from a pair: empty ones alone, or edges and calls too.
#[derive(Clone, Copy, Debug)]
pub enum Moves {
    Empty,
    Every,
}
