/// One way to make what a row stands for: by a rule, with the numbers of earlier rows as children.
#[derive(Clone, Copy, Debug, PartialEq, Eq)]
pub struct Alt {
    pub rule: u32,
    pub left: Option<u64>,
    pub right: Option<u64>,
}

/// A row of a forest; its alternatives lie in the forest's arena.
#[derive(Clone, Copy, Debug)]
pub struct Row<'b, L> {
    pub label: L,
    pub alts: &'b [Alt],
}
