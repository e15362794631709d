ghost use Rattle.std.specs.Prelude.{◌≡◌, ◌<◌, length, map, IfOk};
ghost use Rattle.std.specs.List.{All};
ghost use Rattle.xs_graph.specs.States.{number_of, close_all};

use crate::Numbers;
use std::alloc::Global;
use xs_class::{Listed, Memory};

/// What a search knows of a node.
#[derive(Clone, Copy)]
pub enum Visit {
    /// It was not reached yet.
    Unseen,
    /// It was reached and has no component yet; its place among those that wait.
    Open(usize),
    /// It has a component, of this number.
    Closed(u32),
}

impl Visit {
    /// The component's number, or 0 where there is none.
    pub fn number(self) -> u32
        ensures { result ≡ number_of self }
    {
        match self {
            Visit::Unseen => 0,
            Visit::Open(_) => 0,
            Visit::Closed(number) => number,
        }
    }
}

/// Gives the nodes a component's number.
pub fn close_all(visits: &mut [Visit], nodes: &[u32], number: u32)
    requires { All (λ a. a < length visits.old) nodes.now }
    ensures { visits.new ≡ close_all number visits.old nodes.now }
{
    'nodes: for node in nodes {
        visits[*node as usize] = Visit::Closed(number);
    }
}

/// The components' numbers, in the order of the nodes.
pub fn numbers_of(alloc: Global, visits: &[Visit]) -> Result<Numbers, Memory>
    ensures { IfOk result (λ numbers. numbers ≡ map number_of visits.now) }
{
    let numbers = visits.iter().map(|visit| visit.number()).collect(alloc)?;
    Ok(Listed::from_vec(numbers))
}
