ghost use Rattle.std.specs.Prelude.{◌≡◌, ℕ, List, Some, length, slice_get, IfOk};
ghost use Rattle.xs_regex.specs.{Accepts, IsWellFormed};
ghost use Rattle.xs_gram.specs.{IsBuilt};
ghost use Rattle.xs_coarse_net.specs.Going.{Goes};
ghost use Rattle.xs_coarse_net.specs.Leaves.{AreLeaves};
ghost use Rattle.xs_coarse_net.specs.Stretches.{last_state};

use crate::Leaves;
use crate::automaton::lay_automaton;
use crate::draft::Draft;
use crate::labelled::position_labels;
use std::alloc::Global;
use xs_coarse::{Coarse, Labels, Stop};
use xs_gram::Gram;
use xs_regex::Position;

/// The net with a number, if there is one.
pub(crate) fn leaf_at(nets: &[Coarse], number: u32) -> Result<&Coarse, Stop>
    ensures { IfOk result (λ net. slice_get nets.now number ≡ Some net.now) }
{
    match nets.get(number as usize) {
        Some(net) => Ok(net),
        None => Err(Stop::Unfit),
    }
}

/// The nets of a grammar's terminals and ignorables, in time linear in their automata.
pub(crate) fn leaves_of(alloc: Global, g: &Gram, labels: &Labels) -> Result<Leaves, Stop>
    requires { IsBuilt g.now }
    ensures { IfOk result (AreLeaves g.now labels.now) }
{
    let mut terms = Vec::with_capacity(alloc, g.terms() as usize)?;
    'terms: for term in 0..g.terms() {
        let net = automaton_net(alloc, labels, g.term(term))?;
        terms.push(net)?;
    }
    let mut skips = Vec::with_capacity(alloc, g.skips() as usize)?;
    'skips: for skip in 0..g.skips() {
        let net = automaton_net(alloc, labels, g.skip(skip))?;
        skips.push(net)?;
    }
    Ok(Leaves { terms, skips })
}

/// A net that goes from its first to its last state by each word that an automaton accepts.
fn automaton_net(alloc: Global, labels: &Labels, automaton: &Position) -> Result<Coarse, Stop>
    requires { IsWellFormed automaton.now }
    ensures { IfOk result (λ n. (w : List ℕ) → Accepts automaton.now w → Goes labels.now n 0 w (last_state n)) }
{
    let names = position_labels(alloc, labels, automaton)?;
    let states = followed(automaton).saturating_add(2);
    let mut draft = Draft::new(alloc, states, 1);
    lay_automaton(&mut draft, alloc, &names, automaton, 0, states - 1)?;
    let net = draft.into_net(alloc)?;
    Ok(net)
}

/// How many positions are followed by others.
fn followed(automaton: &Position) -> u32 {
    let mut count: u32 = 0;
    'positions: for row in automaton.follow.as_slice() {
        if !row.is_empty() {
            count = count.saturating_add(1);
        }
    }
    count
}
