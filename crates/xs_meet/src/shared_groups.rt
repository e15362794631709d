/// Two groups that share a word, and where among all pieces those stand that spell it.
#[derive(Clone, Copy, Debug)]
pub struct SharedGroups {
    pub first: u32,
    pub second: u32,
    pub start: usize,
    pub end: usize,
}
