/// A state of a first net and one of a second net.
#[derive(Clone, Copy, Debug)]
pub struct Pair {
    pub first: u32,
    pub second: u32,
}
