ghost use Rattle.std.specs.Prelude.{◌≡◌, ℕ, ◌+◌, ◌<◌, ◌≤◌, ◌^◌, length, IfOk, OnOk};
ghost use Rattle.std.specs.List.{Contains};
ghost use Rattle.xs_auto.specs.{states};
ghost use Rattle.xs_regex.specs.{IsBelow, IsWellFormed};
ghost use Rattle.xs_loose.specs.Arcs.{word_arcs, after_word, arcs_into, arcs_on, arcs_out, arc_past, automaton_arcs, after_automaton};
ghost use Rattle.xs_loose.specs.Growth.{NetGrows};

use crate::growth::{pass, read, read_symbol};
use std::alloc::Global;
use xs_auto::Draft;
use xs_class::{Memory, Sym};
use xs_regex::Position;

/// Lays a fixed word after a state, by a state for each symbol, and gives the state after it.
pub fn lay_word(
    net: &mut Draft,
    alloc: Global,
    word: &[Sym],
    before: u32,
    at: u32,
) -> Result<u32, Memory>
    requires before { before < states net.old }
    requires room { at + length word.now ≤ states net.old }
    requires few { states net.old < 2 ^ 32 }
    ensures after { IfOk result (λ a. a ≡ after_word word.now before at) }
    ensures grows { OnOk result (NetGrows (word_arcs word.now before at) net.old net.new) }
{
    let mut from = before;
    'symbols: for (place, symbol) in word.iter().enumerate() {
        let to = at + place as u32;
        read_symbol(net, alloc, from, *symbol, to)?;
        from = to;
    }
    Ok(from)
}

/// Lays an automaton after a state, by a state for each position and one more, which is the state
/// after it.
pub fn lay_automaton(
    net: &mut Draft,
    automaton: &Position,
    before: u32,
    at: u32,
) -> Result<u32, Memory>
    requires formed { IsWellFormed automaton.now }
    requires few { states net.old < 2 ^ 32 }
    requires before { before < states net.old }
    requires room { after_automaton automaton.now at < states net.old }
    ensures after { IfOk result (λ a. a ≡ after_automaton automaton.now at) }
    ensures grows { OnOk result (NetGrows (automaton_arcs automaton.now before at) net.old net.new) }
{
    let after = at + automaton.classes.len() as u32;
    read_all(net, automaton, at, before, automaton.first.as_slice())?;
    read_follows(net, automaton, at)?;
    pass_all(net, at, automaton.last.as_slice(), after)?;
    pass_if(net, automaton.nullable, before, after)?;
    Ok(after)
}

/// Adds the move past an automaton, if it accepts the empty word.
fn pass_if(net: &mut Draft, nullable: bool, from: u32, to: u32) -> Result<(), Memory>
    requires from { from < states net.old }
    requires to { to < states net.old }
    ensures { OnOk result (NetGrows (arc_past nullable from to) net.old net.new) }
{
    if nullable {
        pass(net, from, to)?;
    }
    Ok(())
}

/// Adds the edges from a state to those of positions.
fn read_all(
    net: &mut Draft,
    automaton: &Position,
    first: u32,
    from: u32,
    targets: &[u32],
) -> Result<(), Memory>
    requires targets { IsBelow targets.now (length automaton.now.classes) }
    requires room { first + length automaton.now.classes ≤ states net.old }
    requires few { states net.old < 2 ^ 32 }
    requires from { from < states net.old }
    ensures { OnOk result (NetGrows (arcs_into automaton.now first from targets.now) net.old net.new) }
{
    'targets: for target in targets {
        let class = automaton.classes.at(*target as usize);
        read(net, from, class, first + *target)?;
    }
    Ok(())
}

/// Adds the edges from each position to those that follow it.
fn read_follows(net: &mut Draft, automaton: &Position, first: u32) -> Result<(), Memory>
    requires formed { IsWellFormed automaton.now }
    requires room { first + length automaton.now.classes ≤ states net.old }
    requires few { states net.old < 2 ^ 32 }
    ensures { OnOk result (NetGrows (arcs_on automaton.now first 0 automaton.now.follow) net.old net.new) }
{
    'positions: for position in 0..automaton.follow.len() {
        let targets = automaton.follow.at(position).as_slice();
        read_all(net, automaton, first, first + position as u32, targets)?;
    }
    Ok(())
}

/// Adds the moves from the states of positions.
fn pass_all(net: &mut Draft, first: u32, lasts: &[u32], to: u32) -> Result<(), Memory>
    requires few { states net.old < 2 ^ 32 }
    requires lasts { (k : ℕ) → Contains lasts.now k → first + k < states net.old }
    requires to { to < states net.old }
    ensures { OnOk result (NetGrows (arcs_out first lasts.now to) net.old net.new) }
{
    'lasts: for last in lasts {
        pass(net, first + *last, to)?;
    }
    Ok(())
}
