use xs_class::Listed;

/// The nodes to which edges lead from one node, each in the order of its edges.
pub type Targets = Listed<u32>;

/// A graph: for each node, numbered from 0, the targets of its edges.
pub type Graph = Listed<Targets>;

/// A number for each node.
pub type Numbers = Listed<u32>;
