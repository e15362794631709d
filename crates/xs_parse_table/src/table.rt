/// A node of a derivation: a production, the number of its first part, and the places of the
/// document from which and up to which it goes.
#[derive(Clone, Copy, Debug)]
pub struct Node {
    pub production: u32,
    pub parts: u32,
    pub from: u32,
    pub to: u32,
}

/// A derivation as a list of nodes, children before parents and the root last, and a list of their
/// parts.
///
/// A node has a part for each item of its production, in order: for a nonterminal the number of its
/// node, and for every other item the place of the document where the item ends. An item begins
/// where the one before it ends, or where its node begins.
#[derive(Debug, Drop)]
pub struct ParseTable {
    pub nodes: Vec<Node>,
    pub parts: Vec<u32>,
}
