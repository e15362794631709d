ghost use Rattle.std.specs.Prelude.{◌≡◌, ◌<◌, ◌^◌, [], length, IfOk};
ghost use Rattle.xs_graph.specs.Graphs.{IsGraph, AreComponents};
ghost use Rattle.xs_graph.specs.States.{state_of, IsState, AreAllSeen};

use crate::search::Search;
use crate::visit::numbers_of;
use crate::{Graph, Numbers};
use std::alloc::Global;
use xs_class::Memory;

/// The number of each node's component, where two nodes have the same number exactly where each
/// reaches the other, and no edge leads to a node of a greater number.
///
/// Takes time and memory linear in the nodes and edges. The nodes of a component are found by one
/// search through the graph in depth, as by Tarjan, Depth-first search and linear graph algorithms,
/// 1972.
pub fn components(alloc: Global, graph: &Graph) -> Result<Numbers, Memory>
    requires targets { IsGraph graph.now }
    requires few { length graph.now < 2 ^ 32 }
    ensures { IfOk result (AreComponents graph.now) }
{
    let search = search_all(alloc, graph)?;
    let numbers = numbers_of(alloc, &search.visits)?;
    Ok(numbers)
}

/// A search that has reached each node.
fn search_all(alloc: Global, graph: &Graph) -> Result<Search, Memory>
    requires targets { IsGraph graph.now }
    requires few { length graph.now < 2 ^ 32 }
    ensures state { IfOk result (λ s. IsState graph.now (state_of s)) }
    ensures idle { IfOk result (λ s. s.path.items ≡ []) }
    ensures seen { IfOk result (λ s. AreAllSeen graph.now s.visits.items) }
{
    let mut search = Search::new(alloc, graph)?;
    'nodes: for node in 0..graph.len() as u32 {
        search.visit(graph, node)?;
    }
    Ok(search)
}
