ghost use Rattle.std.specs.Prelude.{◌≡◌, ◌+◌, ◌<◌, ◌^◌, ◌↔◌, [], true, IsTrue, IfOk, OnOk};
ghost use Rattle.std.specs.List.{All};
ghost use Rattle.xs_coarse.specs.{IsWithin};
ghost use Rattle.xs_coarse_net.specs.Going.{Grows, Adds};

use std::alloc::Global;
use std::marker::Model;
use xs_class::Memory;
use xs_coarse::{Arc, Coarse, Stop};

/// The most states, and the most arcs, that a net may have.
pub(crate) const MOST: u32 = 1 << 20;

/// A net that is being made: arcs, in any order, and states that are taken one by one up to a number
/// that was given.
#[derive(Debug, Drop)]
pub(crate) struct Draft {
    states: u32,
    next: u32,
    arcs: Vec<Arc>,
}

impl Model for Draft {
    ghost use Rattle.xs_coarse.specs.{Net};

    ghost Value = { Net };

    ghost view = { λ d. record { states = d.states; arcs = d.arcs.items } };
}

impl Draft {
    /// A net of that many states without arcs, whose states from `next` on are not taken yet.
    pub fn new(alloc: Global, states: u32, next: u32) -> Self
        ensures states { result.states ≡ states }
        ensures arcs { result.arcs ≡ [] }
    {
        Draft {
            states,
            next,
            arcs: Vec::new(alloc),
        }
    }

    /// Takes a state.
    pub fn state(&mut self) -> Result<u32, Stop>
        ensures { self.new ≡ self.old }
    {
        if self.next >= self.states {
            return Err(Stop::Unfit);
        }
        let state = self.next;
        self.next = state + 1;
        Ok(state)
    }

    /// Takes that many states, and gives the first one.
    pub fn take(&mut self, count: u32) -> Result<u32, Stop>
        ensures same { self.new ≡ self.old }
        ensures small { IfOk result (λ first. first + count < 2 ^ 32) }
    {
        if count > self.states || self.next > self.states - count {
            return Err(Stop::Unfit);
        }
        let first = self.next;
        self.next = first + count;
        Ok(first)
    }

    /// The last state where it is to be that, else a state that is taken.
    pub fn state_or(&mut self, is_last: bool, last: u32) -> Result<u32, Stop>
        ensures same { self.new ≡ self.old }
        ensures last { IfOk result (λ s. is_last ≡ true → s ≡ last) }
    {
        if is_last {
            return Ok(last);
        }
        let state = self.state()?;
        Ok(state)
    }

    /// Adds an arc.
    pub fn add(&mut self, from: u32, label: u32, to: u32) -> Result<(), Stop>
        ensures { OnOk result (Adds self.old self.new from label to) }
    {
        self.arcs.push(Arc { from, label, to })?;
        Ok(())
    }

    /// The net.
    pub fn into_net(self, alloc: Global) -> Result<Coarse, Stop>
        ensures { IfOk result (Grows self) }
    {
        net_of(alloc, self.states, self.arcs)
    }
}

/// The net of these arcs, unless there are too many or they lead out of it.
pub(crate) fn net_of(alloc: Global, states: u32, arcs: Vec<Arc>) -> Result<Coarse, Stop>
    ensures { IfOk result (Grows (record { states = states; arcs = arcs.items })) }
{
    if states == 0 || states > MOST || arcs.len() > MOST as usize || !are_within(&arcs, states) {
        return Err(Stop::Unfit);
    }
    let net = Coarse::of(alloc, states, arcs)?;
    Ok(net)
}

/// Whether all arcs are between states of a net with that many.
fn are_within(arcs: &[Arc], states: u32) -> bool
    ensures { IsTrue result ↔ All (IsWithin states) arcs.now }
{
    arcs.iter().all(|x| x.from < states && x.to < states)
}
