/// An arc from a state to another. Label 0 reads nothing; the labels after it read a symbol of a class
/// each, and those after them all of a group each.
#[derive(Clone, Copy, Debug, PartialEq, Eq)]
pub struct Arc {
    pub from: u32,
    pub label: u32,
    pub to: u32,
}
