ghost use Rattle.std.specs.Prelude.{◌≡◌, ℕ, ◌+◌, ◌<◌, ◌≤◌, true, IfOk, IfSome};
ghost use Rattle.std.specs.List.{All};
ghost use Rattle.xs_coarse.specs.Coarse.{HasArc, IsWithin};
ghost use Rattle.xs_coarse.specs.Arcs.{IsGate};
ghost use Rattle.xs_coarse.specs.Tails.{IsTail, HasArcsFrom};

use crate::shape::is_gate;
use crate::{Arc, Coarse};
use std::alloc::Global;
use xs_class::Memory;

/// The end of a net: its states from a gate on, over which no arc leads, numbered from 0, and the arcs
/// between them. It has a front where there are states before the gate.
#[derive(Debug, Drop)]
pub struct Tail {
    pub net: Coarse,
    pub last: u32,
    pub has_front: bool,
}

impl Tail {
    /// The end of a net from a state on, up to its last one, or none where that state is no gate. In time
    /// n log n of the arcs.
    pub fn of(alloc: Global, net: &Coarse, last: u32, gate: u32) -> Result<Option<Tail>, Memory>
        ensures { IfOk result (λ o. IfSome o (IsTail net.now last gate)) }
    {
        let states = net.len();
        if gate > last || last >= states || !is_gate(net, gate) {
            return Ok(None);
        }
        let arcs = arcs_from(alloc, net, gate)?;
        let own = Coarse::of(alloc, states - gate, arcs)?;
        Ok(Some(Tail {
            net: own,
            last: last - gate,
            has_front: gate > 0,
        }))
    }
}

/// The arcs between the states from the gate on, which is number 0.
fn arcs_from(alloc: Global, net: &Coarse, gate: u32) -> Result<Vec<Arc>, Memory>
    requires { gate < net.now.states }
    ensures has { IfOk result (λ xs. HasArcsFrom net.now.arcs gate xs.items) }
    ensures within { IfOk result (λ xs. (states : ℕ) → gate + states ≡ net.now.states → All (IsWithin states) xs.items) }
{
    let _states = net.len();
    let mut arcs = Vec::new(alloc);
    'arcs: for x in net.arcs() {
        if x.from >= gate && x.to >= gate {
            arcs.push(Arc {
                from: x.from - gate,
                label: x.label,
                to: x.to - gate,
            })?;
        }
    }
    Ok(arcs)
}
