ghost use Rattle.std.specs.Prelude.{◌≡◌, ◌*◌, ◌<◌, ◌≤◌, ◌↔◌, ◌⊎◌, max, length, IsTrue, IfOk, None, Some, if◌then◌else◌};
ghost use Rattle.xs_regex.specs.Automaton.{Accepts, IsWellFormed};
ghost use Rattle.xs_regex.specs.Matches.{Repeats};
ghost use Rattle.xs_regex.specs.Parts.{optional, IsAutomaton, IsSure};
ghost use Rattle.xs_regex.specs.Links.{Shape, least_copies, copies_between, as_often, HasLinks};
ghost use Rattle.xs_regex.specs.Size.{copies, times, IsInOrder};

use crate::Position;
use crate::compose::{copied, maybe, nothing, round, sequence};
use std::alloc::Global;
use xs_class::Memory;

/// Words of one automaton after another, as many as the counts allow.
///
/// There is a copy of the automaton for each word. Of a greatest count, k words stand in the first
/// k copies; without one the last copy goes round.
#[inline(never)]
pub fn repeated(
    alloc: Global,
    one: &Position,
    least: u32,
    most: Option<u32>,
) -> Result<Position, Memory>
    requires formed { IsWellFormed one.now }
    requires small { copies least most * length one.now.classes ≤ 512 }
    ensures automaton { IfOk result (IsAutomaton (Repeats (Accepts one.now) least most) (times (copies least most) one.now.classes) (IsSure one.now least most)) }
    ensures links { IfOk result (λ all. (s : Shape) → HasLinks s one.now → HasLinks (as_often least most s) all) }
{
    if one.classes.is_empty() {
        return Ok(nothing(alloc, allows_none(one.nullable, least, most)));
    }
    match most {
        None => at_least(alloc, one, least),
        Some(most) => between(alloc, one, least, most),
    }
}

/// Whether the empty word is that many words, each of which can only be empty.
fn allows_none(nullable: bool, least: u32, most: Option<u32>) -> bool
    ensures { IsTrue result ↔ ((least ≡ 0) ⊎ (IsTrue nullable × IsInOrder least most)) }
{
    least == 0 || (nullable && is_in_order(least, most))
}

/// Whether the greatest count, where there is one, is not below the least.
fn is_in_order(least: u32, most: Option<u32>) -> bool
    ensures { IsTrue result ↔ IsInOrder least most }
{
    match most {
        None => true,
        Some(most) => least <= most,
    }
}

/// At least as many words as the count.
fn at_least(alloc: Global, one: &Position, least: u32) -> Result<Position, Memory>
    requires formed { IsWellFormed one.now }
    requires some { 0 < length one.now.classes }
    requires small { max least 1 * length one.now.classes ≤ 512 }
    ensures automaton { IfOk result (IsAutomaton (Repeats (Accepts one.now) least None) (times (max least 1) one.now.classes) (IsSure one.now least None)) }
    ensures links { IfOk result (λ all. (s : Shape) → HasLinks s one.now → HasLinks (least_copies least s) all) }
{
    let mut last = copied(alloc, one)?;
    round(alloc, &mut last)?;
    let mut all = maybe_if(least == 0, last);
    'copies: for later in 1..least {
        let mut more = copied(alloc, one)?;
        sequence(alloc, &mut more, &mut all)?;
        all = more;
    }
    Ok(all)
}

/// As many words as lie between the counts.
fn between(alloc: Global, one: &Position, least: u32, most: u32) -> Result<Position, Memory>
    requires formed { IsWellFormed one.now }
    requires some { 0 < length one.now.classes }
    requires small { most * length one.now.classes ≤ 512 }
    ensures automaton { IfOk result (IsAutomaton (Repeats (Accepts one.now) least (Some most)) (times most one.now.classes) (IsSure one.now least (Some most))) }
    ensures links { IfOk result (λ all. (s : Shape) → HasLinks s one.now → HasLinks (copies_between least most s) all) }
{
    let mut all = nothing(alloc, least <= most);
    'copies: for later in 0..most {
        let mut more = copied(alloc, one)?;
        sequence(alloc, &mut more, &mut all)?;
        all = maybe_if(least < most - later, more);
    }
    Ok(all)
}

/// The automaton, which also accepts the empty word where the condition holds.
fn maybe_if(condition: bool, p: Position) -> Position
    ensures { result ≡ (if condition then optional p else p) }
{
    if condition { maybe(p) } else { p }
}
