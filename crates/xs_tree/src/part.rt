use xs_class::Sym;

/// A part of a flat tree: a leaf with its word, or a node with its production and the places of its
/// children in the order of the slots.
#[derive(Clone, Copy)]
pub enum Part<'t> {
    Leaf(&'t [Sym]),
    Node { production: u32, kids: &'t [u64] },
}
