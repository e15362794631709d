ghost use Rattle.std.specs.Prelude.{◌≡◌, ◌<◌, get_or, true, IfOk, OnOk};
ghost use Rattle.std.specs.List.{Contains};
ghost use Rattle.xs_coarse.specs.declared.arc.Arc.{Arc as AnyArc};
ghost use Rattle.xs_coarse.specs.Coarse.{HaveSameArcs};
ghost use Rattle.xs_coarse_net.specs.Renaming.{IsCarried, IsRenamed};

use crate::draft::net_of;
use crate::signs::twins;
use std::alloc::Global;
use xs_class::Memory;
use xs_coarse::{Arc, Coarse, Stop};

/// How many empty moves are followed from a state, one after the other, to the one that names it.
const LONGEST: u32 = 64;

/// Names for the states of a net: a guess. A state from which only an empty move leads has the name
/// of the target; states from which arcs of the same labels lead to states of the same names have
/// one name.
///
/// Whatever the names are, the net between them goes by each word by which the net goes; by these it
/// goes by few others. In time n log n of the net.
pub(crate) fn names_of(alloc: Global, net: &Coarse) -> Result<Vec<u32>, Memory> {
    let mut names = Vec::with_capacity(alloc, net.len() as usize)?;
    'states: for state in 0..net.len() {
        names.push(end_of(net, state))?;
    }
    twins(alloc, net, names)
}

/// The state to which the only arcs of states lead that read nothing, one after the other.
fn end_of(net: &Coarse, state: u32) -> u32 {
    let mut at = state;
    'moves: for _ in 0..LONGEST {
        if at >= net.len() {
            return at;
        }
        at = only_move(net, at);
    }
    at
}

/// The state to which the only arc from a state leads, if it reads nothing; else that state.
fn only_move(net: &Coarse, state: u32) -> u32
    requires { state < net.now.states }
{
    match net.row(state) {
        [arc] => { if arc.label == 0 { arc.to } else { state } }
        _ => state,
    }
}

/// The net in which each arc leads between the names of its states; one that reads nothing and then
/// leads nowhere else goes. In time n log n of the arcs.
pub(crate) fn renamed(alloc: Global, net: &Coarse, names: &[u32]) -> Result<Coarse, Stop>
    ensures { IfOk result (IsRenamed names.now net.now) }
{
    let all = named_arcs(alloc, net, names)?;
    let sorted = in_order(all);
    let arcs = distinct(alloc, &sorted)?;
    let made = net_of(alloc, net.len(), arcs)?;
    let _states = made.len();
    Ok(made)
}

/// The arcs between the names of their states.
fn named_arcs(alloc: Global, net: &Coarse, names: &[u32]) -> Result<Vec<Arc>, Stop>
    ensures { IfOk result (λ v. (x : AnyArc) → Contains net.now.arcs x → IsCarried names.now v.items x) }
{
    let mut arcs = Vec::new(alloc);
    'arcs: for x in net.arcs() {
        push_named(&mut arcs, names, *x)?;
    }
    Ok(arcs)
}

/// Adds an arc between the names of its states, unless it reads nothing and they have one name.
fn push_named(arcs: &mut Vec<Arc>, names: &[u32], x: Arc) -> Result<(), Stop>
    ensures others { OnOk result ((y : AnyArc) → Contains arcs.old.items y → Contains arcs.new.items y) }
    ensures here { OnOk result (IsCarried names.now arcs.new.items x) }
{
    let from = name_at(names, x.from)?;
    let to = name_at(names, x.to)?;
    if x.label == 0 && from == to {
        return Ok(());
    }
    arcs.push(Arc {
        from,
        label: x.label,
        to,
    })?;
    Ok(())
}

/// The name of a state.
pub(crate) fn name_at(names: &[u32], state: u32) -> Result<u32, Stop>
    ensures { IfOk result (λ name. name ≡ get_or names.now state 0) }
{
    match names.get(state as usize) {
        Some(name) => Ok(*name),
        None => Err(Stop::Unfit),
    }
}

/// The arcs by the states that they lead from, their labels, and the states that they lead to.
fn in_order(mut arcs: Vec<Arc>) -> Vec<Arc>
    ensures { HaveSameArcs result.items arcs.items }
{
    arcs.sort_unstable_by_key(|x| (x.from, x.label, x.to));
    arcs
}

/// The arcs without those that stand directly after an equal one.
fn distinct(alloc: Global, sorted: &[Arc]) -> Result<Vec<Arc>, Memory>
    ensures { IfOk result (λ v. (x : AnyArc) → Contains sorted.now x → Contains v.items x) }
{
    let mut arcs = Vec::with_capacity(alloc, sorted.len())?;
    'arcs: for x in sorted {
        push_distinct(&mut arcs, *x)?;
    }
    Ok(arcs)
}

/// Adds an arc, unless it is the last one.
fn push_distinct(arcs: &mut Vec<Arc>, x: Arc) -> Result<(), Memory>
    ensures others { OnOk result ((y : AnyArc) → Contains arcs.old.items y → Contains arcs.new.items y) }
    ensures here { OnOk result (Contains arcs.new.items x) }
{
    if is_last(arcs, x) {
        return Ok(());
    }
    arcs.push(x)?;
    Ok(())
}

/// Whether an arc is the last one of a list.
fn is_last(arcs: &[Arc], x: Arc) -> bool
    ensures { result ≡ true → Contains arcs.now x }
{
    let count = arcs.len();
    count > 0 && arcs[count - 1] == x
}
