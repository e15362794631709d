ghost use Rattle.std.specs.Prelude.{◌≡◌, ℕ, suc, ◌+◌, ◌-◌, ◌<◌, ◌≤◌, [], length, get_or, slice_get, replicate, Some, IfOk, OnOk};
ghost use Rattle.std.specs.List.{Contains};
ghost use Rattle.xs_coarse.specs.declared.arc.Arc.{Arc as AnyArc};
ghost use Rattle.xs_coarse.specs.{Table, HasArc, Follows};
ghost use Rattle.xs_coarse_net.specs.Stretches.{open_view, last_state};
ghost use Rattle.xs_coarse_net.specs.Reaching.{left_arc, left_net};
ghost use Rattle.xs_coarse_net.specs.Fragments.{AreNamed, Reaches, IsCopied, AreCopied};

use crate::draft::{MOST, net_of};
use crate::reach::has_at;
use crate::rule::RETURNS;
use std::alloc::Global;
use xs_class::Memory;
use xs_coarse::{Arc, Coarse, Stop};

/// For how many arcs there is room before any is copied.
const ROOM: usize = 128;

/// A copy that is being made of the part of a net that is reached from a state: the numbers of the
/// states reached so far, which states they are, and the arcs.
#[derive(Debug, Drop)]
pub(crate) struct Tracer {
    names: Vec<u32>,
    order: Vec<u32>,
    arcs: Vec<Arc>,
}

/// The part of what is left of a net for a set of nonterminals that is reached from a state, as a net from
/// state 0, which nothing enters, to its last state, which nothing leaves. In time linear in the states of
/// the net and the arcs of the states reached.
pub(crate) fn fragment(
    alloc: Global,
    whole: &Coarse,
    has: &[bool],
    start: u32,
    end: u32,
) -> Result<Coarse, Stop>
    requires start { start < whole.now.states }
    requires end { end < whole.now.states }
    ensures { IfOk result (λ n. (t : Table) → Follows (open_view t (left_net has.now whole.now)) start end (open_view t n) 0 (last_state n)) }
{
    let mut tracer = Tracer::new(alloc, whole.len())?;
    let first = tracer.name(start)?;
    let done = tracer.copy_rows(whole, has)?;
    if done < tracer.order.len() {
        return Err(Stop::Unfit);
    }
    let net = tracer.close(alloc, first, end)?;
    let _states = net.len();
    Ok(net)
}

impl Tracer {
    /// Nothing is reached.
    fn new(alloc: Global, states: u32) -> Result<Tracer, Memory>
        ensures { IfOk result (λ t. (t.names.items ≡ replicate states 0) × (t.order.items ≡ [])) }
    {
        Ok(Tracer {
            names: vec![in alloc; 0u32; states as usize]?,
            order: Vec::with_capacity(alloc, states as usize)?,
            arcs: Vec::with_capacity(alloc, ROOM)?,
        })
    }

    /// The number of a state in the copy, from 1 on.
    fn name(&mut self, state: u32) -> Result<u32, Stop>
        requires { state < length self.old.names.items }
        ensures reaches { OnOk result (Reaches self.old self.new) }
        ensures name { IfOk result (λ u. u ≡ get_or self.new.names.items state 0) }
        ensures some { IfOk result (λ u. 0 < u) }
    {
        let name = self.names[state as usize];
        if name != 0 {
            return Ok(name);
        }
        if self.order.len() >= MOST as usize {
            return Err(Stop::Unfit);
        }
        self.order.push(state)?;
        let name = self.order.len() as u32;
        self.names[state as usize] = name;
        Ok(name)
    }

    /// Copies an arc, which leads from the state with that number.
    fn copy_arc(&mut self, from: u32, x: Arc) -> Result<(), Stop>
        requires { x.to < length self.old.names.items }
        ensures reaches { OnOk result (Reaches self.old self.new) }
        ensures copied { OnOk result (IsCopied self.new from x) }
    {
        let to = self.name(x.to)?;
        self.arcs.push(Arc {
            from,
            label: x.label,
            to,
        })?;
        Ok(())
    }

    /// Copies what is left of an arc, which leads from the state with that number.
    fn copy_left(&mut self, from: u32, x: Arc, has: &[bool]) -> Result<(), Stop>
        requires { x.to < length self.old.names.items }
        ensures reaches { OnOk result (Reaches self.old self.new) }
        ensures copied { OnOk result ((y : AnyArc) → Contains (left_arc has.now x) y → IsCopied self.new from y) }
    {
        if x.label < RETURNS {
            self.copy_arc(from, x)?;
        } else if has_at(has, x.label - RETURNS) {
            let back = Arc {
                from: x.from,
                label: 0,
                to: x.to,
            };
            self.copy_arc(from, back)?;
        }
        Ok(())
    }

    /// Copies what is left of the arcs of a state that was reached.
    fn copy_row(&mut self, whole: &Coarse, has: &[bool], place: u32) -> Result<(), Stop>
        requires named { AreNamed self.old.names.items self.old.order.items }
        requires place { place < length self.old.order.items }
        requires long { length self.old.names.items ≡ whole.now.states }
        ensures reaches { OnOk result (Reaches self.old self.new) }
        ensures copied { OnOk result ((x label y : ℕ) → slice_get self.old.order.items place ≡ Some x → HasArc (left_net has.now whole.now) x label y → IsCopied self.new (place + 1) (record { from = x; label = label; to = y })) }
    {
        let state = self.order[place as usize];
        if state >= whole.len() || place >= MOST {
            return Err(Stop::Unfit);
        }
        let row = whole.row(state);
        'arcs: for x in row {
            self.copy_left(place + 1, *x, has)?;
        }
        Ok(())
    }

    /// Copies what is left of the arcs of all states that are reached, and gives how many states they were.
    fn copy_rows(&mut self, whole: &Coarse, has: &[bool]) -> Result<usize, Stop>
        requires named { AreNamed self.old.names.items self.old.order.items }
        requires long { length self.old.names.items ≡ whole.now.states }
        ensures reaches { OnOk result (Reaches self.old self.new) }
        ensures copied { IfOk result (AreCopied (left_net has.now whole.now) self.new) }
    {
        let mut done = 0;
        'states: for place in 0..whole.len() {
            if place as usize >= self.order.len() {
                break;
            }
            self.copy_row(whole, has, place)?;
            done = place as usize + 1;
        }
        Ok(done)
    }

    /// The net: a state before that of the first one, and one after that of the last one.
    fn close(mut self, alloc: Global, first: u32, end: u32) -> Result<Coarse, Stop>
        requires { end < length self.names.items }
        ensures enters { IfOk result (λ n. HasArc n 0 0 first) }
        ensures leaves { IfOk result (λ n. (u : ℕ) → get_or self.names.items end 0 ≡ suc u → HasArc n (suc u) 0 (n.states - 1)) }
        ensures arcs { IfOk result (λ n. (x : AnyArc) → Contains self.arcs.items x → Contains n.arcs x) }
    {
        if self.order.len() >= MOST as usize {
            return Err(Stop::Unfit);
        }
        let last = self.order.len() as u32 + 1;
        self.arcs.push(Arc {
            from: 0,
            label: 0,
            to: first,
        })?;
        let exit = self.names[end as usize];
        if exit != 0 {
            self.arcs.push(Arc {
                from: exit,
                label: 0,
                to: last,
            })?;
        }
        net_of(alloc, last + 1, self.arcs)
    }
}
