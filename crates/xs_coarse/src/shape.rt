ghost use Rattle.std.specs.Prelude.{◌≡◌, ◌+◌, true};
ghost use Rattle.xs_coarse.specs.Arcs.{NeverReturns, IsSource, IsGate};

use crate::Coarse;

/// Whether no arc leads from after a state back to it or those before. In time linear in the arcs.
pub fn never_returns(net: &Coarse, state: u32) -> bool
    ensures { result ≡ true → NeverReturns net.now (state + 1) }
{
    net.arcs().iter().all(|x| x.from <= state || x.to > state)
}

/// Whether each arc from a state, or those after it, leads to one after it. In time linear in the arcs.
pub fn is_source(net: &Coarse, state: u32) -> bool
    ensures { result ≡ true → IsSource net.now state }
{
    net.arcs().iter().all(|x| x.from < state || x.to > state)
}

/// Whether no arc leads over a state. In time linear in the arcs.
pub fn is_gate(net: &Coarse, state: u32) -> bool
    ensures { result ≡ true → IsGate net.now state }
{
    net.arcs().iter().all(|x| x.from >= state || x.to <= state)
}
