ghost use Rattle.std.specs.Prelude.{◌↔◌, ℕ, ◌<◌, ◌^◌, length, IsTrue, IfSome, IfNone};
ghost use Rattle.std.specs.List.{All};
ghost use Rattle.xs_graph.specs.Graphs.{IsGraph, AreComponents, IsCyclic, IsFirstCyclic, FallAlong, HasNumber};

use crate::{Graph, Numbers};

/// The least node that lies on a cycle, or none where no node does and so the numbers of the
/// components fall along each edge.
///
/// Takes time linear in the nodes and edges.
pub fn first_cyclic(graph: &Graph, numbers: &Numbers) -> Option<u32>
    requires targets { IsGraph graph.now }
    requires few { length graph.now < 2 ^ 32 }
    requires components { AreComponents graph.now numbers.now }
    ensures some { IfSome result (IsFirstCyclic graph.now) }
    ensures none { IfNone result ((a : ℕ) → IsCyclic graph.now a → ⊥) }
    ensures falls { IfNone result (FallAlong graph.now numbers.now) }
{
    'nodes: for node in 0..graph.len() as u32 {
        let targets = graph.at(node as usize);
        let number = *numbers.at(node as usize);
        if has_number(targets.as_slice(), numbers, number) {
            return Some(node);
        }
    }
    None
}

/// Whether one of the targets has this number.
fn has_number(targets: &[u32], numbers: &Numbers, number: u32) -> bool
    requires { All (λ b. b < length numbers.now) targets.now }
    ensures { IsTrue result ↔ HasNumber targets.now numbers.now number }
{
    'targets: for target in targets {
        if *numbers.at(*target as usize) == number {
            return true;
        }
    }
    false
}
