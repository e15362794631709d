ghost use Rattle.std.specs.Prelude.{◌≡◌, ◌≢◌, ℕ, List, true, length, get_or, IfOk, OnOk};
ghost use Rattle.std.specs.List.{Contains};
ghost use Rattle.xs_regex.specs.{IsBelow, IsWellFormed, Leads};
ghost use Rattle.xs_coarse.specs.{HasArc};
ghost use Rattle.xs_coarse_net.specs.Going.{Grows, IsLaidIn};

use crate::draft::Draft;
use std::alloc::Global;
use xs_coarse::Stop;
use xs_regex::Position;

/// Leads from a state to another by an automaton, whose positions have these labels.
///
/// A position has a state of its own only if others follow it; arcs to any other lead to the last
/// state at once.
pub(crate) fn lay_automaton(
    draft: &mut Draft,
    alloc: Global,
    labels: &[u32],
    automaton: &Position,
    from: u32,
    to: u32,
) -> Result<(), Stop>
    requires formed { IsWellFormed automaton.now }
    requires labels { length labels.now ≡ length automaton.now.classes }
    ensures grows { OnOk result (Grows draft.old draft.new) }
    ensures laid { OnOk result ((states : List ℕ) × IsLaidIn draft.new automaton.now labels.now states from to) }
{
    let made = states_of(draft, alloc, automaton, to)?;
    let states = made.as_slice();
    lay_row(draft, labels, states, from, automaton.first.as_slice())?;
    lay_follows(draft, labels, states, automaton)?;
    lay_lasts(draft, states, automaton.last.as_slice(), to)?;
    lay_past(draft, automaton.nullable, from, to)?;
    Ok(())
}

/// An empty move, if there is to be one.
fn lay_past(draft: &mut Draft, nullable: bool, from: u32, to: u32) -> Result<(), Stop>
    ensures grows { OnOk result (Grows draft.old draft.new) }
    ensures arc { OnOk result (nullable ≡ true → HasArc draft.new from 0 to) }
{
    if nullable {
        draft.add(from, 0, to)?;
    }
    Ok(())
}

/// The state of each position.
fn states_of(
    draft: &mut Draft,
    alloc: Global,
    automaton: &Position,
    to: u32,
) -> Result<Vec<u32>, Stop>
    ensures same { draft.new ≡ draft.old }
    ensures long { IfOk result (λ states. length states.items ≡ length automaton.now.follow) }
{
    let mut states = Vec::with_capacity(alloc, automaton.follow.len())?;
    'positions: for row in automaton.follow.as_slice() {
        let state = draft.state_or(row.is_empty(), to)?;
        states.push(state)?;
    }
    Ok(states)
}

/// Arcs from a state to these positions.
fn lay_row(
    draft: &mut Draft,
    labels: &[u32],
    states: &[u32],
    from: u32,
    targets: &[u32],
) -> Result<(), Stop>
    requires labels { IsBelow targets.now (length labels.now) }
    requires states { IsBelow targets.now (length states.now) }
    ensures grows { OnOk result (Grows draft.old draft.new) }
    ensures arcs { OnOk result ((k : ℕ) → Contains targets.now k → HasArc draft.new from (get_or labels.now k 0) (get_or states.now k 0)) }
{
    'targets: for target in targets {
        let place = *target as usize;
        draft.add(from, labels[place], states[place])?;
    }
    Ok(())
}

/// Arcs from each position to those that follow it.
fn lay_follows(
    draft: &mut Draft,
    labels: &[u32],
    states: &[u32],
    automaton: &Position,
) -> Result<(), Stop>
    requires formed { IsWellFormed automaton.now }
    requires labels { length labels.now ≡ length automaton.now.classes }
    requires states { length states.now ≡ length automaton.now.classes }
    ensures grows { OnOk result (Grows draft.old draft.new) }
    ensures arcs { OnOk result ((j k : ℕ) → Leads automaton.now j k → HasArc draft.new (get_or states.now j 0) (get_or labels.now k 0) (get_or states.now k 0)) }
{
    'positions: for position in 0..automaton.follow.len() {
        let targets = automaton.follow.at(position).as_slice();
        lay_row(draft, labels, states, states[position], targets)?;
    }
    Ok(())
}

/// Empty moves to the last state from the states of last positions.
fn lay_lasts(draft: &mut Draft, states: &[u32], lasts: &[u32], to: u32) -> Result<(), Stop>
    requires { IsBelow lasts.now (length states.now) }
    ensures grows { OnOk result (Grows draft.old draft.new) }
    ensures arcs { OnOk result ((k : ℕ) → Contains lasts.now k → get_or states.now k 0 ≢ to → HasArc draft.new (get_or states.now k 0) 0 to) }
{
    'lasts: for last in lasts {
        lay_last(draft, states[*last as usize], to)?;
    }
    Ok(())
}

/// An empty move to another state.
fn lay_last(draft: &mut Draft, from: u32, to: u32) -> Result<(), Stop>
    ensures grows { OnOk result (Grows draft.old draft.new) }
    ensures arc { OnOk result (from ≢ to → HasArc draft.new from 0 to) }
{
    if from != to {
        draft.add(from, 0, to)?;
    }
    Ok(())
}
