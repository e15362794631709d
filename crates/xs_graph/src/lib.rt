//! Strongly connected components of a graph by Tarjan's search in depth, and the nodes that lie on
//! its cycles.
//!
//! A graph is a list of lists: for each node the targets of its edges. Two nodes are of one
//! component where each reaches the other, and the components are numbered in reverse topological
//! order: no edge leads to a node of a greater number. The search takes time linear in the nodes
//! and edges, with stacks of its own, so that no call nests deeper in a greater graph. From the
//! components the least node that lies on a cycle is found; where there is none, the numbers fall
//! along each edge, which is a topological order.
#![tactic(auto)]

mod component;
mod cycle;
mod frame;
mod graph;
mod search;
mod visit;

pub use component::components;
pub use cycle::first_cyclic;
pub use graph::{Graph, Numbers, Targets};
