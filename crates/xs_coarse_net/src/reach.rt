ghost use Rattle.std.specs.Prelude.{◌≡◌, ℕ, false, get_or, IsTrue, IfOk, OnOk};
ghost use Rattle.std.specs.List.{Contains};
ghost use Rattle.xs_coarse.specs.declared.arc.Arc.{Arc as AnyArc};
ghost use Rattle.xs_coarse_net.specs.Grounds.{IsGround};
ghost use Rattle.xs_coarse_net.specs.Joining.{IsFragment};
ghost use Rattle.xs_coarse_net.specs.Reaching.{IsIn, IsClosedIn, AreUses, HasUse, HasUses};

use crate::Whole;
use crate::fragment::fragment;
use crate::ground::Ground;
use crate::merge::name_at;
use crate::rule::states_of;
use std::alloc::Global;
use xs_class::Memory;
use xs_coarse::{Arc, Coarse, Stop};

/// A net for a nonterminal, which covers what it reaches: the part of the grammar's net that is reached
/// from its entry, where no arc leads back into a rule of a nonterminal that it does not reach.
pub(crate) fn block(ground: &Ground<'_>, non: u32) -> Result<Coarse, Stop>
    requires ground { IsGround ground.now }
    ensures { IfOk result (IsFragment ground.now.site.g.now ground.now.site.labels.now non) }
{
    let (entry, exit) = states_of(non)?;
    let has = reached(ground.alloc, ground.whole, non)?;
    if exit >= ground.whole.net.len() {
        return Err(Stop::Unfit);
    }
    let whole = &ground.whole.merged;
    let start = name_at(&ground.whole.names, entry)?;
    let end = name_at(&ground.whole.names, exit)?;
    if start >= whole.len() || end >= whole.len() {
        return Err(Stop::Unfit);
    }
    let made = fragment(ground.alloc, whole, &has, start, end)?;
    Ok(made)
}

/// The nonterminals that one reaches: a guess, which is checked.
fn reached(alloc: Global, whole: &Whole, non: u32) -> Result<Vec<bool>, Stop>
    requires { AreUses whole.now.net whole.now.uses }
    ensures own { IfOk result (λ has. IsIn has.items non) }
    ensures closed { IfOk result (λ has. IsClosedIn whole.now.net has.items) }
{
    let has = guess(alloc, &whole.uses, non)?;
    if !has_at(&has, non) || !is_closed(&whole.uses, &has) {
        return Err(Stop::Unfit);
    }
    Ok(has)
}

/// The nonterminals that are found from one by what the rules of each use.
fn guess(alloc: Global, uses: &Coarse, non: u32) -> Result<Vec<bool>, Memory> {
    let mut has = vec![in alloc; false; uses.len() as usize]?;
    let mut order = Vec::new(alloc);
    find(&mut has, &mut order, non)?;
    'order: for place in 0..uses.len() as usize {
        if place >= order.len() {
            break;
        }
        let found = order[place];
        if found < uses.len() {
            find_all(&mut has, &mut order, uses.row(found))?;
        }
    }
    Ok(has)
}

/// Notes a nonterminal, unless it was.
fn find(has: &mut Vec<bool>, order: &mut Vec<u32>, non: u32) -> Result<(), Memory> {
    let place = non as usize;
    if place < has.len() && !has[place] {
        has[place] = true;
        order.push(non)?;
    }
    Ok(())
}

/// Notes those to which the arcs lead.
fn find_all(has: &mut Vec<bool>, order: &mut Vec<u32>, row: &[Arc]) -> Result<(), Memory> {
    'arcs: for x in row {
        find(has, order, x.to)?;
    }
    Ok(())
}

/// Whether a nonterminal is of the set.
pub(crate) fn has_at(has: &[bool], non: u32) -> bool
    ensures { result ≡ get_or has.now non false }
{
    match has.get(non as usize) {
        Some(found) => *found,
        None => false,
    }
}

/// Whether the set has what the rules of each of it use.
fn is_closed(uses: &Coarse, has: &[bool]) -> bool
    ensures { IsTrue result → HasUses uses.now has.now }
{
    'nons: for non in 0..uses.len() {
        if has_row(uses.row(non), has) {
            continue;
        }
        return false;
    }
    true
}

/// Whether the set has what a nonterminal's rules use, if that nonterminal is of it.
fn has_row(row: &[Arc], has: &[bool]) -> bool
    ensures { IsTrue result → (x : AnyArc) → Contains row.now x → HasUse has.now x }
{
    'arcs: for x in row {
        if has_at(has, x.from) && !has_at(has, x.to) {
            return false;
        }
    }
    true
}
