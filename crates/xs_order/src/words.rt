ghost use Rattle.std.specs.Prelude.{◌≡◌, ℕ, ◌<◌, ◌↔◌, ◌^◌, List, [], ◌∷◌, false, length, IsTrue, IfOk, OnOk};
ghost use Rattle.xs_clauses.specs.{AreFlags};
ghost use Rattle.xs_regex.specs.{Accepts, IsBelow, IsWellFormed};
ghost use Rattle.xs_order.specs.Runs.{HasSymbol, IsReached, premises_from, AreSteps, AreAdded};

use std::alloc::Global;
use xs_class::Memory;
use xs_clauses::{Clause, Flags, Premises, made};
use xs_regex::{Position, some_marked};

/// Whether an automaton accepts a word, in time linear in its steps.
pub fn has_word(alloc: Global, automaton: &Position) -> Result<bool, Memory>
    requires formed { IsWellFormed automaton.now }
    requires few { length automaton.now.classes < 2 ^ 32 }
    ensures { IfOk result (λ b. IsTrue b ↔ ((w : List ℕ) × Accepts automaton.now w)) }
{
    if automaton.nullable {
        return Ok(true);
    }
    let reached = reached(alloc, automaton)?;
    let answer = some_marked(reached.as_slice(), automaton.last.as_slice());
    Ok(answer)
}

/// The positions to which words lead: a flag for each position.
fn reached(alloc: Global, automaton: &Position) -> Result<Flags, Memory>
    requires formed { IsWellFormed automaton.now }
    requires few { length automaton.now.classes < 2 ^ 32 }
    ensures { IfOk result (AreFlags (IsReached automaton.now) (length automaton.now.classes)) }
{
    let clauses = steps(alloc, automaton)?;
    let flags = made(alloc, automaton.classes.len() as u32, &clauses)?;
    Ok(flags)
}

/// The steps of the automaton, from its start and from each position, as clauses.
fn steps(alloc: Global, automaton: &Position) -> Result<Vec<Clause>, Memory>
    requires formed { IsWellFormed automaton.now }
    requires few { length automaton.now.classes < 2 ^ 32 }
    ensures { IfOk result (λ clauses. AreSteps automaton.now (length automaton.now.follow) clauses.items) }
{
    let mut clauses = Vec::new(alloc);
    add_targets(
        &mut clauses,
        alloc,
        automaton,
        None,
        automaton.first.as_slice(),
    )?;
    'positions: for position in 0..automaton.follow.len() {
        let targets = automaton.follow.at(position).as_slice();
        let from = Some(position as u32);
        add_targets(&mut clauses, alloc, automaton, from, targets)?;
    }
    Ok(clauses)
}

/// Adds the steps to those targets whose classes have a symbol.
fn add_targets(
    clauses: &mut Vec<Clause>,
    alloc: Global,
    automaton: &Position,
    from: Option<u32>,
    targets: &[u32],
) -> Result<(), Memory>
    requires { IsBelow targets.now (length automaton.now.classes) }
    ensures { OnOk result (AreAdded automaton.now from targets.now clauses.old.items clauses.new.items) }
{
    'targets: for target in targets {
        add_step(clauses, alloc, automaton, from, *target)?;
    }
    Ok(())
}

/// Adds the step to a target, if its class has a symbol.
fn add_step(
    clauses: &mut Vec<Clause>,
    alloc: Global,
    automaton: &Position,
    from: Option<u32>,
    target: u32,
) -> Result<(), Memory>
    requires { target < length automaton.now.classes }
    ensures { OnOk result (AreAdded automaton.now from (target ∷ []) clauses.old.items clauses.new.items) }
{
    if !has_symbol(automaton, target) {
        return Ok(());
    }
    let premises = premises_from(alloc, from)?;
    clauses.push(Clause {
        head: target,
        premises,
    })?;
    Ok(())
}

/// The position from which a step comes, or nothing from the start.
fn premises_from(alloc: Global, from: Option<u32>) -> Result<Premises, Memory>
    ensures { IfOk result (λ premises. premises ≡ premises_from from) }
{
    let mut premises = Premises::new(alloc);
    match from {
        None => Ok(premises),
        Some(position) => {
            premises.push(position)?;
            Ok(premises)
        }
    }
}

/// Whether the class of a position has a symbol.
fn has_symbol(automaton: &Position, position: u32) -> bool
    requires { position < length automaton.now.classes }
    ensures { IsTrue result ↔ HasSymbol automaton.now position }
{
    match automaton.classes.at(position as usize).least() {
        Some(_) => true,
        None => false,
    }
}
