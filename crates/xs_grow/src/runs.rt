ghost use Rattle.std.specs.Prelude.{◌⊎◌, ◌↔◌, ◌<◌, ◌≤◌, ℕ, length, IfOk, OnOk, IsTrue, Contains, MatchBool};
ghost use Rattle.xs_chart.specs.{set_limit};
ghost use Rattle.xs_regex.specs.{HasAt, IsBelow, IsWellFormed};
ghost use Rattle.xs_grow.specs.Lists.{HasAllOf};
ghost use Rattle.xs_grow.specs.Running.{Enters, AcceptsTo};

use std::alloc::Global;
use xs_class::{Memory, Sym, Word};
use xs_regex::Position;

/// Whether the position has the symbol and is not yet among the others.
fn enters(p: &Position, others: &[u32], position: u32, symbol: Sym) -> bool
    requires { position < length p.now.classes }
    ensures { MatchBool result (HasAt p.now position symbol × (Contains others.now position → ⊥)) (HasAt p.now position symbol → Contains others.now position) }
{
    p.classes.at(position as usize).has(symbol) && !others.contains(&position)
}

/// Adds those of the positions that have the symbol, unless they are there.
fn enter(p: &Position, among: &[u32], symbol: Sym, next: &mut Vec<u32>) -> Result<(), Memory>
    requires { IsBelow among.now (length p.now.classes) }
    ensures { OnOk result ((k : ℕ) → Contains next.new.items k ↔ (Contains next.old.items k ⊎ (Contains among.now k × HasAt p.now k symbol))) }
{
    'among: for position in among {
        if enters(p, next, *position, symbol) {
            next.push(*position)?;
        }
    }
    Ok(())
}

/// The positions that the automaton reaches by the symbol from its start.
fn begun(alloc: Global, p: &Position, at_start: bool, symbol: Sym) -> Result<Vec<u32>, Memory>
    requires { IsWellFormed p.now }
    ensures { IfOk result (λ next. (k : ℕ) → Contains next.items k ↔ ((IsTrue at_start × Contains p.now.first k) × HasAt p.now k symbol)) }
{
    let mut next = Vec::new(alloc);
    if at_start {
        enter(p, p.first.as_slice(), symbol, &mut next)?;
    }
    Ok(next)
}

/// The positions that the automaton reaches by the symbol: from its start, or from those that were
/// reached.
fn step(
    alloc: Global,
    p: &Position,
    at_start: bool,
    reached: &[u32],
    symbol: Sym,
) -> Result<Vec<u32>, Memory>
    requires formed { IsWellFormed p.now }
    requires positions { IsBelow reached.now (length p.now.classes) }
    ensures { IfOk result (λ next. (k : ℕ) → Contains next.items k ↔ Enters p.now at_start reached.now symbol k) }
{
    let mut next = begun(alloc, p, at_start, symbol)?;
    'reached: for position in reached {
        enter(
            p,
            p.follow.at(*position as usize).as_slice(),
            symbol,
            &mut next,
        )?;
    }
    Ok(next)
}

/// Whether one of the positions is a last one.
fn has_last(p: &Position, reached: &[u32]) -> bool
    ensures { IsTrue result ↔ ((k : ℕ) × Contains reached.now k × Contains p.now.last k) }
{
    'reached: for position in reached {
        if p.last.as_slice().contains(position) {
            return true;
        }
    }
    false
}

/// The places where a word of the automaton ends that begins at a place of the document, each once.
///
/// It takes time linear in what is read before the automaton is stuck, by what a step takes.
pub(crate) fn ends_from(
    alloc: Global,
    p: &Position,
    doc: &Word,
    from: u32,
) -> Result<Vec<u32>, Memory>
    requires formed { IsWellFormed p.now }
    requires short { length doc.now < set_limit }
    requires within { from ≤ length doc.now }
    ensures { IfOk result (λ ends. HasAllOf (AcceptsTo p.now doc.now from (length doc.now)) ends.items) }
{
    let mut ends = Vec::new(alloc);
    if p.nullable {
        ends.push(from)?;
    }
    let mut reached = Vec::new(alloc);
    'symbols: for at in from..doc.len() as u32 {
        reached = step(alloc, p, at == from, &reached, doc.at(at as usize))?;
        if reached.is_empty() {
            return Ok(ends);
        }
        if has_last(p, &reached) {
            ends.push(at + 1)?;
        }
    }
    Ok(ends)
}
