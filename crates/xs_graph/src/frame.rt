/// A node whose edges a search is walking.
#[derive(Clone, Copy)]
pub struct Frame {
    pub node: u32,
    /// The node's place among those that wait.
    pub place: usize,
    /// The least place that was found to be reached from the node.
    pub least: usize,
    /// The first of its edges that was not walked yet.
    pub next: usize,
}
